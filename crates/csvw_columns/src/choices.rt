//! What a table takes from its group if it has none of its own.
ghost use Rattle.std.specs.Prelude.{◌≡◌, IfOk};
ghost use Rattle.csvw_columns_core.specs.Inherited.{first_of};
ghost use Rattle.csvw_columns.specs.PlanOf.{dialect_of};

use csvw_description::Schema;
use csvw_records::Dialect;
use std::alloc::{AllocError, Global};

/// Returns the table's own dialect, else that of its group, else the default. It returns `AllocError` if there is no
/// memory.
pub(crate) fn dialect_of(
    alloc: Global,
    table: &Option<Dialect>,
    group: &Option<Dialect>,
) -> Result<Dialect, AllocError>
    ensures { IfOk result (λ d. d ≡ dialect_of table.now group.now) }
{
    if let Some(dialect) = table {
        return dialect.clone(alloc);
    }
    match group {
        Some(dialect) => dialect.clone(alloc),
        None => Dialect::new(alloc),
    }
}

/// Returns the table's own schema, else that of its group.
pub(crate) fn schema_of<'a>(
    table: &'a Option<Schema>,
    group: &'a Option<Schema>,
) -> &'a Option<Schema>
    ensures { result.now ≡ first_of table.now group.now }
{
    match table {
        Some(_) => table,
        None => group,
    }
}
