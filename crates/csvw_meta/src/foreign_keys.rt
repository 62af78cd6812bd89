//! The foreign keys of schemas, once the tables of the group are known (Metadata Vocabulary for Tabular Data, section
//! 5.5.2.1).
ghost use Rattle.std.specs.Prelude.{◌≡◌, IfOk};
ghost use Rattle.csvw_meta.specs.ForeignKeys.{linked, linked_table, with_foreign_keys};

use crate::table::TableFound;
use csvw_description::{Schema, TableDescription};
use csvw_meta_keys::{KeysFound, Target};
use std::alloc::{AllocError, Global};

/// Returns a schema with its foreign keys, each of which has the URL of the table that it names.
fn with_foreign_keys(
    alloc: Global,
    targets: &[Target],
    keys: &KeysFound,
    schema: Schema,
) -> Result<Schema, AllocError>
    ensures { IfOk result (λ s. s ≡ with_foreign_keys targets.now keys.now schema) }
{
    let foreign_keys = keys.foreign_keys(alloc, targets)?;
    Ok(Schema {
        foreign_keys,
        ..schema
    })
}

/// Returns a schema, if there is one, with the foreign keys that are found in it. `targets` are the tables of the group. It
/// returns `AllocError` if there is no memory.
pub(crate) fn linked(
    alloc: Global,
    targets: &[Target],
    schema: Option<Schema>,
    keys: &Option<KeysFound>,
) -> Result<Option<Schema>, AllocError>
    ensures { IfOk result (λ s. s ≡ linked targets.now schema keys.now) }
{
    match (schema, keys) {
        (Some(schema), Some(keys)) => Ok(Some(with_foreign_keys(alloc, targets, keys, schema)?)),
        (schema, _) => Ok(schema),
    }
}

/// Returns the description of a table, with the foreign keys of its own schema. It returns `AllocError` if there is no
/// memory.
pub(crate) fn linked_table(
    alloc: Global,
    targets: &[Target],
    found: TableFound,
) -> Result<TableDescription, AllocError>
    ensures { IfOk result (λ t. t ≡ linked_table targets.now found) }
{
    let table = found.table;
    let schema = linked(alloc, targets, table.schema, &found.keys)?;
    Ok(TableDescription { schema, ..table })
}
