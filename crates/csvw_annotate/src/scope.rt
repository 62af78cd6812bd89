//! The cells of a row, as the values of its templates.
ghost use Rattle.std.specs.Prelude.{◌≡◌, ◌<◌, IfOk, IfSome, decimal, map, true};
ghost use Rattle.csvw_template.specs.Bound.{var_at};
ghost use Rattle.csvw_template.specs.Within.{plain_len};
ghost use Rattle.csvw_template.specs.declared.vars.Var.TheVariants.{One};
ghost use Rattle.csvw_annotate.specs.CellVariables.{variable};
ghost use Rattle.csvw_annotate.specs.HasForms.{CellsHaveForms};
ghost use Rattle.csvw_annotate.specs.Linked.{values_of};

use crate::numbers::RowNumbers;
use crate::row::AnnCell;
use crate::values::{is_longer, text_of, variable};
use csvw_template::{Values, Var};
use csvw_text::Text;
use std::alloc::{AllocError, Global};

/// The values of a row.
#[derive(Clone, Copy)]
pub(crate) struct RowScope<'b> {
    /// The allocator.
    pub alloc: Global,
    /// The numbers of the row.
    pub row: RowNumbers,
    /// The cells, one for each column.
    pub cells: &'b [AnnCell],
}

impl<'b> Values for RowScope<'b> {
    ghost use Rattle.csvw_annotate.specs.Bindings.{row_values};
    ghost use Rattle.csvw_annotate.specs.HasForms.{CellsHaveForms};
    ghost use Rattle.csvw_annotate.specs.Linked.{values_of};

    ghost values = { λ s. row_values s.row (values_of s.cells.now) };

    ghost can_look_up = { λ s. CellsHaveForms s.cells.now };

    fn var(&self, place: usize) -> Result<Var, AllocError> {
        match place {
            0 => number(self.alloc, self.row.number),
            1 => number(self.alloc, self.row.source),
            _ => var_of(self.alloc, self.cells, place - 2),
        }
    }

    fn text(&self, place: usize) -> Option<&str> {
        if place < 2 {
            return None;
        }
        text_at(self.cells, place - 2)
    }

    fn is_longer(&self, place: usize, most: usize) -> bool {
        if place < 2 {
            return false;
        }
        is_longer_at(self.cells, place - 2, most)
    }
}

fn number(alloc: Global, number: u64) -> Result<Var, AllocError>
    ensures { IfOk result (λ v. v ≡ One (decimal number)) }
{
    Ok(Var::One(Text::of(format!(in alloc; "{number}")?)))
}

/// Returns what the cell of column `i` stands for, from 0. A column that is not there stands for nothing.
#[tactic(auto, using(crate::proofs::ValuesLemmas::value_at, crate::proofs::ValuesLemmas::no_value_at, crate::proofs::ValuesLemmas::form_at))]
fn var_of(alloc: Global, cells: &[AnnCell], i: usize) -> Result<Var, AllocError>
    requires { CellsHaveForms cells.now }
    ensures { IfOk result (λ v. v ≡ var_at (map variable (values_of cells.now)) i) }
{
    if i < cells.len() {
        return variable(alloc, &cells[i].value);
    }
    Ok(Var::Undefined)
}

/// Returns the text that the cell of a column stands for, if it can be lent.
#[tactic(auto, using(crate::proofs::ValuesLemmas::value_at))]
fn text_at<'a>(cells: &'a [AnnCell], i: usize) -> Option<&'a str>
    ensures { IfSome result (λ text. var_at (map variable (values_of cells.now)) i ≡ One text.now) }
{
    if i < cells.len() {
        return text_of(&cells[i].value);
    }
    None
}

/// Returns true only if what the cell of a column stands for has more than `most` bytes.
#[tactic(auto, using(crate::proofs::ValuesLemmas::value_at))]
fn is_longer_at(cells: &[AnnCell], i: usize, most: usize) -> bool
    ensures { result ≡ true → most < plain_len (var_at (map variable (values_of cells.now)) i) }
{
    if i < cells.len() {
        return is_longer(&cells[i].value, most);
    }
    false
}
