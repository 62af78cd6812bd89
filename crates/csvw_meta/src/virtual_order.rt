//! Columns that come after a virtual one.
ghost use Rattle.std.specs.Prelude.{◌≡◌, ℕ, [], true, false, MatchOption, Contains};
ghost use Rattle.csvw_meta_core.specs.declared.fault.MetaFault.{MetaFault};
ghost use Rattle.csvw_meta.specs.VirtualOrder.{misplaced};

use csvw_description::ColumnDescription;

/// Returns the index of a column that is not virtual and comes after a virtual one, or `None` if there is none.
pub(crate) fn misplaced_at(columns: &[ColumnDescription]) -> Option<usize>
    ensures { (fault : ℕ → MetaFault) → MatchOption result (misplaced (λ i. true) fault false 0 columns.now ≡ [])
        (λ i. Contains (misplaced (λ i. true) fault false 0 columns.now) (fault i)) }
{
    let mut is_behind = false;
    for (i, column) in columns.iter().enumerate() {
        if is_behind && !column.is_virtual {
            return Some(i);
        }
        is_behind = is_behind || column.is_virtual;
    }
    None
}
