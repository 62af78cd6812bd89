//! Columns that come after a virtual one.
ghost use Rattle.std.specs.Prelude.{◌≡◌, ◌&&◌, ◌||◌, not, ℕ, false, length, map, IfOk, slice_index_or};
ghost use Rattle.csvw_meta_core.specs.declared.fault.MetaFault.{MetaFault};
ghost use Rattle.csvw_meta.specs.VirtualOrder.{misplaced};

use crate::push_if::push_if;
use csvw_description::ColumnDescription;
use csvw_text::Seq;
use std::alloc::{AllocError, Global};

fn is_misplaced(known: bool, is_behind: bool, column: &ColumnDescription) -> bool
    ensures { result ≡ (known && (is_behind && not column.now.is_virtual)) }
{
    known && is_behind && !column.is_virtual
}

/// Returns whether a column or an earlier one is virtual.
fn is_behind_next(known: bool, is_behind: bool, column: &ColumnDescription) -> bool
    ensures { result ≡ (is_behind || (known && column.now.is_virtual)) }
{
    is_behind || known && column.is_virtual
}

/// Returns the index of each column that is not virtual and comes after a virtual one, if both are known. It returns
/// `AllocError` if there is no memory for them.
pub(crate) fn misplaced_at(
    alloc: Global,
    known: &[bool],
    columns: &[ColumnDescription],
) -> Result<Seq<usize>, AllocError>
    requires { length known.now ≡ length columns.now }
    ensures { (fault : ℕ → MetaFault) → IfOk result (λ s. map fault s ≡ misplaced (λ i. slice_index_or known.now i false) fault false 0 columns.now) }
{
    let mut found = Vec::new(alloc);
    let mut is_behind = false;
    for (i, column) in columns.iter().enumerate() {
        let misplaced = is_misplaced(known[i], is_behind, column);
        push_if(&mut found, misplaced, i)?;
        is_behind = is_behind_next(known[i], is_behind, column);
    }
    Ok(Seq::of(found))
}
