//! The columns of a table, once its header is known.
ghost use Rattle.std.specs.Prelude.{◌≡◌, ◌≤◌, ◌↔◌, IfOk, IsTrue, length};
ghost use Rattle.csvw_iri.specs.Link.{iri_of};
ghost use Rattle.csvw_columns_core.specs.HeaderColumns.{column_count, from_header};
ghost use Rattle.csvw_description.specs.Plannable.{column_limit};
ghost use Rattle.csvw_columns_core.specs.SchemaColumns.{declared_columns};
ghost use Rattle.csvw_columns.specs.HeaderMatch.{columns_of, header_columns, frame_of, IsWithin, GivesColumns, Matches};
ghost use Rattle.csvw_columns.specs.Ready.{IsReady};
ghost use Rattle.csvw_columns_core.specs.Sound.{AreSound};

use crate::names::are_named_apart;
use crate::plan::TablePlan;
use csvw_columns_core::{
    Column, ColumnList, Columns, Defaults, Frame, HeaderRow, TableStop, column_count, from_header,
    header_faults,
};
use csvw_description::COLUMN_LIMIT;
use csvw_text::{Fault, Seq, both, copied_option};
use std::alloc::{AllocError, Global};

/// Returns what the columns have in common from their table.
fn frame_of(alloc: Global, plan: &TablePlan) -> Result<Frame, AllocError>
    ensures { IfOk result (λ f. f ≡ frame_of plan.now) }
{
    let url = plan.url.clone(alloc);
    let schema = plan.schema.clone(alloc);
    let table = plan.table.clone(alloc);
    let (url, (schema, table)) = both(url, both(schema, table))?;
    Ok(Frame {
        url,
        skip_columns: plan.dialect.skip_columns,
        schema,
        table,
    })
}

/// Returns the columns that come from the header.
#[tactic(auto, using(crate::proofs::ColumnLemmas::length_from_header))]
fn header_columns(
    alloc: Global,
    plan: &TablePlan,
    rows: &[HeaderRow],
    width: Option<usize>,
) -> Result<Seq<Column>, AllocError>
    requires { column_count rows.now width ≤ column_limit }
    ensures { IfOk result (λ cs. cs ≡ header_columns plan.now rows.now width) }
{
    let descriptions = from_header(alloc, rows, width)?;
    let (defaults, frame) = both(Defaults::new(alloc), frame_of(alloc, plan))?;
    let columns = frame.declared_columns(alloc, &defaults, &plan.group, descriptions.as_slice());
    drop(frame);
    drop(defaults);
    columns
}

/// Returns the number of columns.
#[tactic(auto, using(crate::proofs::ColumnLemmas::count_of))]
fn count(plan: &TablePlan, rows: &[HeaderRow], width: Option<usize>) -> usize
    ensures { result ≡ length (columns_of plan.now rows.now width) }
{
    if plan.declared.is_empty() {
        column_count(rows, width)
    } else {
        plan.declared.len()
    }
}

/// Whether the number of columns is within the limit.
fn is_within(plan: &TablePlan, rows: &[HeaderRow], width: Option<usize>) -> bool
    ensures { IsTrue result ↔ IsWithin plan.now rows.now width }
{
    count(plan, rows, width) <= COLUMN_LIMIT
}

/// Returns the columns, or `TooManyColumns` if there are over 1,024.
fn columns_of(
    alloc: Global,
    plan: &TablePlan,
    rows: &[HeaderRow],
    width: Option<usize>,
) -> Result<Seq<Column>, TableStop>
    ensures { GivesColumns plan.now rows.now width result }
{
    if !is_within(plan, rows, width) {
        return Err(TableStop::TooManyColumns);
    }
    if plan.declared.is_empty() {
        return Ok(header_columns(alloc, plan, rows, width)?);
    }
    Ok(plan.declared.clone(alloc)?)
}

/// Returns the columns, with what they have in common from their table.
fn in_table(alloc: Global, plan: &TablePlan, columns: Seq<Column>) -> Result<Columns, AllocError>
    ensures { IfOk result (λ found. found ≡ record { columns = columns; url = plan.now.url; id = plan.now.id; suppressed = plan.now.suppressed }) }
{
    let url = plan.url.clone(alloc);
    let id = copied_option(alloc, &plan.id);
    let urls = both(url, id);
    let (columns, (url, id)) = both(ColumnList::of(alloc, columns), urls)?;
    Ok(Columns {
        columns,
        url,
        id,
        suppressed: plan.suppressed,
    })
}

/// Returns the columns of a table, once its header is known, and what is wrong with the header (Metadata Vocabulary for
/// Tabular Data, sections 5.6 and 6.4; Model for Tabular Data, section 8). The columns are, in this order:
///
/// - the declared columns, if there are any;
/// - else the columns of the header rows, if there are header rows;
/// - else one for each field of the first data row, whose number of fields is `width`.
///
/// It returns `TooManyColumns` if there are over 1,024 columns. Else it returns `DuplicateName` if two columns have
/// the same name. It returns `Memory` if memory runs out. It never returns `RaggedRow`.
pub fn match_header(
    alloc: Global,
    plan: &TablePlan,
    rows: &[HeaderRow],
    width: Option<usize>,
) -> Result<(Columns, Vec<Fault>), TableStop>
    ensures matches { Matches plan.now rows.now width result }
    ensures sound { IfOk result (λ found. IsReady plan.now → AreSound found.0.columns) }
{
    let columns = columns_of(alloc, plan, rows, width)?;
    if !are_named_apart(alloc, columns.as_slice())? {
        return Err(TableStop::DuplicateName);
    }
    let wanted = plan.dialect.header_row_count;
    let faults = header_faults(alloc, plan.number, wanted, columns.as_slice(), rows);
    let columns = in_table(alloc, plan, columns);
    let (columns, faults) = both(columns, faults)?;
    Ok((columns, faults.into_vec()))
}
