//! Whether a fault hides a name of a schema (Metadata Vocabulary for Tabular Data, section 5.6).
ghost use Rattle.std.specs.Prelude.{◌≡◌, IfOk};
ghost use Rattle.std.specs.List.{list_any};
ghost use Rattle.csvw_meta.specs.NamesRead.{hides_declared, hides_one};
ghost use Rattle.csvw_meta.specs.References.{hides_names};

use crate::marks::Marks;
use crate::names_read::hides_item;
use csvw_description::{ColumnDescription, Schema};
use csvw_meta_faults_core::below;
use std::alloc::{AllocError, Global};

/// Returns whether a fault hides a name of the columns of the array at this pointer.
fn hides_one(
    alloc: Global,
    marks: &Marks,
    at: &str,
    columns: &[ColumnDescription],
) -> Result<bool, AllocError>
    ensures { IfOk result (λ b. b ≡ list_any (hides_one at.now 0 columns.now) marks.now.faults.now) }
{
    for (i, column) in columns.iter().enumerate() {
        let hidden = hides_item(alloc, marks, at, i, column)?;
        if hidden {
            return Ok(true);
        }
    }
    Ok(false)
}

/// Returns whether a fault hides a name that the schema at this pointer declares.
fn hides_declared(
    alloc: Global,
    marks: &Marks,
    at: &str,
    columns: &[ColumnDescription],
) -> Result<bool, AllocError>
    ensures { IfOk result (λ b. b ≡ list_any (hides_declared at.now columns.now) marks.now.faults.now) }
{
    if marks.is_at(at) {
        return Ok(true);
    }
    let array = below(alloc, at, "columns")?;
    if marks.is_at(array.as_str()) {
        return Ok(true);
    }
    hides_one(alloc, marks, array.as_str(), columns)
}

/// Returns whether a fault hides a name that the schema of the object at this pointer declares. No schema declares none.
/// It returns `AllocError` if there is no memory for a pointer.
pub(crate) fn hides_names(
    alloc: Global,
    marks: &Marks,
    at: &str,
    schema: &Option<Schema>,
) -> Result<bool, AllocError>
    ensures { IfOk result (λ b. b ≡ list_any (hides_names at.now schema.now) marks.now.faults.now) }
{
    match schema {
        Some(schema) => {
            let own = below(alloc, at, "tableSchema")?;
            hides_declared(alloc, marks, own.as_str(), schema.columns.as_slice())
        }
        None => Ok(false),
    }
}
