//! Helpers that make the columns of a document's tables and read their rows.
ghost use Rattle.std.specs.Prelude.{◌≡◌, IfOk, IfSome, false};
ghost use Rattle.csvw_columns_core.specs.Sound.{AreSound};
ghost use Rattle.csvw_columns.specs.Ready.{AreReady, IsReady};
ghost use Rattle.csvw_records.specs.Lawful.{IsLawful};
ghost use Rattle.csvw_rows.specs.RowsState.{is_ended_of};
ghost use Rattle.csvw_annotate.specs.HasForms.{HasForms};

use csvw_annotate::{Row, annotate, annotated_rows_have_forms};
use csvw_columns::laws::each_table_is_ready;
use csvw_columns::{Columns, HeaderRow, Plan, TablePlan, match_header};
use csvw_meta::{Description, read};
use csvw_rows::{Dialect, Rows};
use csvw_text::{Fault, Seq, Text};
use std::alloc::{AllocError, Global};
use std::slice;

/// The URL of each document.
const BASE: &str = "http://example.org/";

/// Returns the description of the group in a document.
pub(crate) fn description_of(alloc: Global, meta: &str) -> Option<Description> {
    read(alloc, meta.as_bytes(), BASE).ok()
}

/// Returns the plan of a group.
pub(crate) fn planned(alloc: Global, description: Description) -> Option<Plan>
    ensures { IfSome result (λ plan. AreReady plan.tables) }
{
    match Plan::build(alloc, description) {
        Ok(plan) => Some(plan),
        Err(_) => None,
    }
}

/// Returns the plan of the group that a document describes.
pub(crate) fn plan_of(alloc: Global, meta: &str) -> Option<Plan>
    ensures { IfSome result (λ plan. AreReady plan.tables) }
{
    planned(alloc, description_of(alloc, meta)?)
}

/// Returns the table at this index, from 0.
pub(crate) fn table_at(plan: &Plan, i: usize) -> Option<&TablePlan>
    requires { AreReady plan.now.tables }
    ensures { IfSome result (λ table. IsReady table.now) }
{
    each_table_is_ready();
    match plan.tables().get(i) {
        Some(table) => Some(table),
        None => None,
    }
}

/// Returns a header row that is the first row of its source.
pub(crate) fn header(alloc: Global, cells: &[&str]) -> Result<HeaderRow, AllocError> {
    let mut texts = Vec::new(alloc);
    for cell in cells {
        texts.push(Text::copied(alloc, cell)?)?;
    }
    Ok(HeaderRow {
        source: 1,
        cells: Seq::of(texts),
    })
}

/// Returns the columns of a table with this header, and the faults of the header.
pub(crate) fn matched(
    alloc: Global,
    table: &TablePlan,
    cells: &[&str],
) -> Option<(Columns, Vec<Fault>)>
    requires { IsReady table.now }
    ensures { IfSome result (λ found. AreSound found.0.columns) }
{
    let row = header(alloc, cells).ok()?;
    match match_header(alloc, table, slice::from_ref(&row), None) {
        Ok(found) => Some(found),
        Err(_) => None,
    }
}

/// Returns the columns of a table of a plan with this header, and the faults of the header.
fn matched_at(alloc: Global, plan: &Plan, i: usize, cells: &[&str]) -> Option<(Columns, Vec<Fault>)>
    requires { AreReady plan.now.tables }
    ensures { IfSome result (λ found. AreSound found.0.columns) }
{
    matched(alloc, table_at(plan, i)?, cells)
}

/// Returns the columns of a table of a document with this header, and the faults of the header.
pub(crate) fn matched_in(
    alloc: Global,
    meta: &str,
    i: usize,
    cells: &[&str],
) -> Option<(Columns, Vec<Fault>)>
    ensures { IfSome result (λ found. AreSound found.0.columns) }
{
    let plan = plan_of(alloc, meta)?;
    matched_at(alloc, &plan, i, cells)
}

/// Returns the columns of a table of a document with this header, which has no fault.
pub(crate) fn columns_of(alloc: Global, meta: &str, i: usize, cells: &[&str]) -> Option<Columns>
    ensures { IfSome result (λ columns. AreSound columns.columns) }
{
    let (columns, faults) = matched_in(alloc, meta, i, cells)?;
    if faults.is_empty() {
        Some(columns)
    } else {
        None
    }
}

/// Returns the default dialect.
fn lawful(alloc: Global) -> Option<Dialect>
    ensures { IfSome result IsLawful }
{
    let dialect = Dialect::new(alloc).ok()?;
    match dialect.check() {
        Ok(()) => Some(dialect),
        Err(_) => None,
    }
}

/// Returns a reader by the default dialect, whose text has not ended.
fn reader(alloc: Global) -> Option<Rows>
    ensures { IfSome result (λ rows. is_ended_of rows ≡ false) }
{
    match Rows::new(alloc, lawful(alloc)?, 100) {
        Ok(rows) => Some(rows),
        Err(_) => None,
    }
}

/// Returns a reader of a text by the default dialect.
pub(crate) fn reader_of(alloc: Global, text: &str) -> Option<Rows> {
    let mut rows = reader(alloc)?;
    match rows.feed(text.as_bytes()) {
        Ok(()) => Some(rows),
        Err(_) => None,
    }
}

/// The error for a row that can't be read or annotated.
#[derive(Clone, Copy)]
pub(crate) struct Stopped;

/// Returns the next row of a text, annotated. It returns `None` for a header row, and if there is no row.
pub(crate) fn next_row(
    alloc: Global,
    columns: &Columns,
    rows: &mut Rows,
) -> Result<Option<Row>, Stopped>
    requires { AreSound columns.now.columns }
    ensures { IfOk result (λ found. IfSome found HasForms) }
{
    annotated_rows_have_forms();
    match rows.next() {
        Ok(Some(raw)) if raw.number() > 0 => match annotate(alloc, columns, &raw) {
            Ok(row) => Ok(Some(row)),
            Err(_) => Err(Stopped),
        },
        Ok(_) => Ok(None),
        Err(_) => Err(Stopped),
    }
}
