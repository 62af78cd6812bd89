//! The faults of the columns of a schema together (Metadata Vocabulary for Tabular Data, section 5.6): names that are equal, and
//! virtual columns that come too early.
ghost use Rattle.std.specs.Prelude.{◌≡◌, IfOk};
ghost use Rattle.csvw_meta_core.specs.Pointer.{text_of};
ghost use Rattle.csvw_meta.specs.Schema.{column_faults, name_faults, order_faults};

use crate::faults_at::faults_at_items;
use crate::names_read::{names_read, property_read};
use crate::repeated::repeated_at;
use crate::virtual_order::misplaced_at;
use csvw_description::ColumnDescription;
use csvw_meta::schema::column_names;
use csvw_meta_core::{MetaCode, MetaFault, Part, joined};
use csvw_text::Seq;
use std::alloc::AllocError;

/// Returns `DuplicateName` at each column of the array that has the name of an earlier one.
fn name_faults(
    part: &Part,
    own: &[MetaFault],
    columns: &[ColumnDescription],
) -> Result<Seq<MetaFault>, AllocError>
    ensures { IfOk result (λ fs. fs ≡ name_faults (text_of part.now.at) own.now columns.now) }
{
    let known = names_read(part, own, columns)?;
    let names = column_names(part.alloc, columns)?;
    let indices = repeated_at(part.alloc, known.as_slice(), names.as_slice())?;
    faults_at_items(part, MetaCode::DuplicateName, indices.as_slice())
}

/// Returns `VirtualOrder` at each column of the array that is not virtual and comes after a virtual one.
fn order_faults(
    part: &Part,
    own: &[MetaFault],
    columns: &[ColumnDescription],
) -> Result<Seq<MetaFault>, AllocError>
    ensures { IfOk result (λ fs. fs ≡ order_faults (text_of part.now.at) own.now columns.now) }
{
    let known = property_read(part, own, "virtual", columns.len())?;
    let indices = misplaced_at(part.alloc, known.as_slice(), columns)?;
    faults_at_items(part, MetaCode::VirtualOrder, indices.as_slice())
}

/// Returns the faults of the columns of the array together. `own` has the faults of each by itself. It returns
/// `AllocError` if there is no memory for them.
pub(crate) fn column_faults(
    part: &Part,
    own: &[MetaFault],
    columns: &[ColumnDescription],
) -> Result<Seq<MetaFault>, AllocError>
    ensures { IfOk result (λ fs. fs ≡ column_faults (text_of part.now.at) own.now columns.now) }
{
    let names = name_faults(part, own, columns)?;
    let order = order_faults(part, own, columns)?;
    joined(names, order)
}
