//! `parse_over`: the text of a cell, read in nine steps over the cell before it.
//!
//! A row is annotated in the memory of the row before it. In a column without a separator, the cell of a string of
//! any length, without a regular expression, is its text (`is_plain`). That text is copied over the text of the column's cell in the row before.
//! Other cells are read in the nine steps of parsing.
ghost use Rattle.std.specs.Prelude.{◌≡◌, [], true, OnOk};
ghost use Rattle.csvw_datatype.specs.Breaks.{has_lengths};
ghost use Rattle.csvw_datatype.specs.Sound.{IsSound};
ghost use Rattle.csvw_cell.specs.Codes.{in_order};
ghost use Rattle.csvw_cell.specs.CellOf.{CellOf, IsCellBy, IsJudged, IsSingle};
ghost use Rattle.csvw_cell.specs.Plain.{is_one, is_plain, the_text};

use crate::cell::{CellValue, Item};
use crate::codes::{in_order, missing};
use crate::item::{judge, refill_item};
use crate::list::{is_null, list, or_default};
use crate::normal::{is_normal, normalized};
use csvw_columns_core::{Column, Properties};
use csvw_datatype::{Datatype, Expressions, Facets, Value};
use csvw_text::{Code, Seq, Text};
use std::alloc::{AllocError, Global};

fn has_lengths(facets: &Facets) -> bool
    ensures { result ≡ has_lengths facets.now }
{
    facets.length.is_some() || facets.min_length.is_some() || facets.max_length.is_some()
}

/// Returns whether the cells of such properties are their texts as they are, unless they are null.
fn is_plain(properties: &Properties) -> bool
    ensures { result ≡ is_plain properties.now }
{
    let datatype = properties.datatype.get();
    datatype.takes_any_text() && properties.separator.is_none() && !has_lengths(&datatype.facets)
}

/// Writes the value that is a text over a value, in its memory.
fn refill_value(alloc: Global, value: &mut CellValue, text: &str) -> Result<(), AllocError>
    ensures { OnOk result (value.new ≡ the_text text.now) }
{
    match value {
        CellValue::One(item) => refill_item(alloc, item, text),
        CellValue::Null | CellValue::Many(_) => {
            *value = CellValue::One(Item {
                value: Value::Text(Text::copied(alloc, text)?),
                was_read: true,
            });
            Ok(())
        }
    }
}

/// Removes all faults. Most cells had none.
#[inline(always)]
fn clear(alloc: Global, faults: &mut Seq<Code>)
    ensures { faults.new ≡ [] }
{
    if !faults.is_empty() {
        *faults = Seq::new(alloc);
    }
}

/// Replaces a value that is not single by the empty text.
#[inline(always)]
fn make_one(alloc: Global, value: &mut CellValue)
    ensures { is_one value.new ≡ true }
{
    match value {
        CellValue::One(_) => {}
        CellValue::Null | CellValue::Many(_) => *value = CellValue::One(Item::new(alloc)),
    }
}

/// Writes the codes of the causes, each once and in order, over the faults.
#[inline(always)]
fn keep_faults(alloc: Global, causes: &[Code], faults: &mut Seq<Code>) -> Result<(), AllocError>
    ensures { OnOk result (faults.new ≡ in_order causes.now) }
{
    // Most texts have no faults.
    if causes.is_empty() {
        clear(alloc, faults);
    } else {
        *faults = in_order(alloc, causes)?;
    }
    Ok(())
}

/// Writes the value and the faults of a text that isn't null over these.
#[inline(always)]
fn judge_over(
    expressions: &mut Expressions,
    datatype: &Datatype,
    text: &str,
    value: &mut CellValue,
    faults: &mut Seq<Code>,
) -> Result<(), AllocError>
    requires { IsSound datatype.now }
    ensures { OnOk result (IsJudged datatype.now text.now value.new faults.new) }
{
    let alloc = expressions.alloc();
    make_one(alloc, value);
    match value {
        CellValue::One(item) => {
            let causes = judge(expressions, datatype, text, item)?;
            keep_faults(alloc, causes.as_slice(), faults)
        }
        CellValue::Null | CellValue::Many(_) => unreachable!(),
    }
}

/// Writes the value and the faults of a text in a column without a separator over these.
fn single_over(
    expressions: &mut Expressions,
    properties: &Properties,
    text: &str,
    value: &mut CellValue,
    faults: &mut Seq<Code>,
) -> Result<(), AllocError>
    requires { IsSound properties.now.datatype }
    ensures { OnOk result (IsSingle properties.now text.now (record { value = value.new; faults = faults.new })) }
{
    if is_null(properties, text) {
        *value = CellValue::Null;
        *faults = missing(expressions.alloc(), properties)?;
        return Ok(());
    }
    judge_over(expressions, properties.datatype.get(), text, value, faults)
}

/// Writes the value and the faults of a text over these. Steps 1 to 3 are done.
fn by_separator(
    expressions: &mut Expressions,
    properties: &Properties,
    text: &str,
    value: &mut CellValue,
    faults: &mut Seq<Code>,
) -> Result<(), AllocError>
    requires { IsSound properties.now.datatype }
    ensures { OnOk result (IsCellBy properties.now properties.now.separator text.now (record { value = value.new; faults = faults.new })) }
{
    match &properties.separator {
        Some(separator) => {
            let cell = list(expressions, properties, separator.get().as_str(), text)?;
            *value = cell.value;
            *faults = cell.faults;
            Ok(())
        }
        None => single_over(expressions, properties, text, value, faults),
    }
}

/// Writes the value and the faults of the cell that `parse` returns for the text over these, in their memory.
///
/// The column's datatype must have passed `Datatype::check`. Returns `AllocError` if memory runs out. Nothing is then
/// said of the value and the faults.
#[tactic(auto, using(crate::proofs::OverLemmas::any_text_keeps))]
pub fn parse_over(
    expressions: &mut Expressions,
    column: &Column,
    text: &str,
    value: &mut CellValue,
    faults: &mut Seq<Code>,
) -> Result<(), AllocError>
    requires { IsSound column.now.properties.datatype }
    ensures { OnOk result (CellOf column.now text.now (record { value = value.new; faults = faults.new })) }
{
    let alloc = expressions.alloc();
    let properties = &column.properties;
    let shown = or_default(properties.default.get().as_str(), text);
    if is_plain(properties) && !is_null(properties, shown) {
        clear(alloc, faults);
        return refill_value(alloc, value, shown);
    }
    if is_normal(properties.datatype.get(), text) {
        return by_separator(expressions, properties, shown, value, faults);
    }
    let normalized = normalized(alloc, properties.datatype.get(), text)?;
    let shown = or_default(properties.default.get().as_str(), normalized.as_str());
    by_separator(expressions, properties, shown, value, faults)
}
