//! Which names and properties of columns could be read (Metadata Vocabulary for Tabular Data, section 5.6).
ghost use Rattle.std.specs.Prelude.{◌≡◌, IfOk, length};
ghost use Rattle.std.specs.List.{list_any};
ghost use Rattle.csvw_meta_core.specs.Pointer.{item_at, text_of};
ghost use Rattle.csvw_meta_core.specs.Rules.{could_read_property, hides_property};
ghost use Rattle.csvw_meta.specs.NamesRead.{hides_name, name_known};
ghost use Rattle.csvw_meta_faults.specs.Flags.{AreFlags};

use crate::marks::Marks;
use csvw_description::ColumnDescription;
use csvw_meta_core::{MetaFault, Part};
use csvw_meta_faults_core::{below, item_at};
use std::alloc::{AllocError, Global};

/// Returns whether a fault hides the name of the column at this pointer.
fn hides_name(
    alloc: Global,
    marks: &Marks,
    at: &str,
    column: &ColumnDescription,
) -> Result<bool, AllocError>
    ensures { IfOk result (λ b. b ≡ list_any (hides_name at.now column.now) marks.now.faults.now) }
{
    let hidden = marks.hides_property(alloc, at, "name")?;
    if hidden {
        return Ok(true);
    }
    if column.name.is_some() {
        return Ok(false);
    }
    let titles = below(alloc, at, "titles")?;
    Ok(marks.is_within(titles.as_str()))
}

/// Returns whether a fault hides the name of the column of an index of the array at this pointer.
pub(crate) fn hides_item(
    alloc: Global,
    marks: &Marks,
    at: &str,
    index: usize,
    column: &ColumnDescription,
) -> Result<bool, AllocError>
    ensures { IfOk result (λ b. b ≡ list_any (hides_name (item_at at.now index) column.now) marks.now.faults.now) }
{
    let item = item_at(alloc, at, index)?;
    hides_name(alloc, marks, item.as_str(), column)
}

/// Returns whether a fault hides the property of that name of the item of an index of the array at this pointer.
fn hides_item_property(
    alloc: Global,
    marks: &Marks,
    at: &str,
    index: usize,
    name: &str,
) -> Result<bool, AllocError>
    ensures { IfOk result (λ b. b ≡ list_any (hides_property (item_at at.now index) name.now) marks.now.faults.now) }
{
    let item = item_at(alloc, at, index)?;
    marks.hides_property(alloc, item.as_str(), name)
}

/// Returns for each column of the array at this pointer whether its name could be read.
fn names_known(
    alloc: Global,
    marks: &Marks,
    at: &str,
    columns: &[ColumnDescription],
) -> Result<Vec<bool>, AllocError>
    ensures { IfOk result (λ flags. AreFlags (name_known marks.now.faults.now at.now columns.now) (length columns.now) flags.items) }
{
    let mut known = Vec::new(alloc);
    for (i, column) in columns.iter().enumerate() {
        let hidden = hides_item(alloc, marks, at, i, column)?;
        known.push(!hidden)?;
    }
    Ok(known)
}

/// Returns for each of so many items of the array at this pointer whether the property of that name could be read.
fn property_known(
    alloc: Global,
    marks: &Marks,
    at: &str,
    name: &str,
    count: usize,
) -> Result<Vec<bool>, AllocError>
    ensures { IfOk result (λ flags. AreFlags (λ i. could_read_property marks.now.faults.now (item_at at.now i) name.now) count flags.items) }
{
    let mut known = Vec::new(alloc);
    for i in 0..count {
        let hidden = hides_item_property(alloc, marks, at, i, name)?;
        known.push(!hidden)?;
    }
    Ok(known)
}

/// Returns for each of these columns of the array whether its name could be read. `own` has the faults of each by itself.
pub(crate) fn names_read(
    part: &Part,
    own: &[MetaFault],
    columns: &[ColumnDescription],
) -> Result<Vec<bool>, AllocError>
    ensures { IfOk result (λ flags. AreFlags (name_known own.now (text_of part.now.at) columns.now) (length columns.now) flags.items) }
{
    let at = part.at.text(part.alloc)?;
    let marks = Marks::of(part.alloc, own)?;
    names_known(part.alloc, &marks, at.as_str(), columns)
}

/// Returns for each of so many items of the array whether the property of that name could be read. `own` has the faults of
/// each by itself.
pub(crate) fn property_read(
    part: &Part,
    own: &[MetaFault],
    name: &str,
    count: usize,
) -> Result<Vec<bool>, AllocError>
    ensures { IfOk result (λ flags. AreFlags (λ i. could_read_property own.now (item_at (text_of part.now.at) i) name.now) count flags.items) }
{
    let at = part.at.text(part.alloc)?;
    let marks = Marks::of(part.alloc, own)?;
    property_known(part.alloc, &marks, at.as_str(), name, count)
}
