//! The columns and rows of the tables of a document.
ghost use Rattle.std.specs.Prelude.{◌≡◌, IfOk, IfSome, false};
ghost use Rattle.csvw_columns_core.specs.Sound.{AreSound};
ghost use Rattle.csvw_columns.specs.Ready.{AreReady, IsReady};
ghost use Rattle.csvw_records.specs.Lawful.{IsLawful};
ghost use Rattle.csvw_rows.specs.RowsState.{is_ended_of};

use crate::groups::BASE;
use csvw_annotate::{Row, annotate};
use csvw_api::{Description, Plan, ReadDescription};
use csvw_columns::laws::each_table_is_ready;
use csvw_columns::{Columns, HeaderRow, TablePlan, match_header};
use csvw_rows::{Dialect, Rows};
use csvw_text::{Seq, Text};
use std::alloc::{AllocError, Global};
use std::slice;

/// Returns the plan of the group that a document describes.
pub(crate) fn plan_of(alloc: Global, meta: &str) -> Option<Plan>
    ensures { IfSome result (λ plan. AreReady plan.tables) }
{
    let description = Description::read(alloc, meta.as_bytes(), BASE).ok()?;
    match Plan::build(alloc, description) {
        Ok(plan) => Some(plan),
        Err(_) => None,
    }
}

/// Returns the table at this index, from 0.
fn table_at(plan: &Plan, i: usize) -> Option<&TablePlan>
    requires { AreReady plan.now.tables }
    ensures { IfSome result (λ table. IsReady table.now) }
{
    each_table_is_ready();
    match plan.tables().get(i) {
        Some(table) => Some(table),
        None => None,
    }
}

/// Returns a header row of one cell, the first row of its source.
fn header(alloc: Global, cell: &str) -> Result<HeaderRow, AllocError> {
    let mut texts = Vec::new(alloc);
    texts.push(Text::copied(alloc, cell)?)?;
    Ok(HeaderRow {
        source: 1,
        cells: Seq::of(texts),
    })
}

/// Returns the columns of a table whose header is one cell.
fn matched(alloc: Global, table: &TablePlan, cell: &str) -> Option<Columns>
    requires { IsReady table.now }
    ensures { IfSome result (λ columns. AreSound columns.columns) }
{
    let row = header(alloc, cell).ok()?;
    match match_header(alloc, table, slice::from_ref(&row), None) {
        Ok((columns, _)) => Some(columns),
        Err(_) => None,
    }
}

/// Returns the columns of the table at this index, from 0, whose header is one cell.
fn columns_at(alloc: Global, plan: &Plan, i: usize, cell: &str) -> Option<Columns>
    requires { AreReady plan.now.tables }
    ensures { IfSome result (λ columns. AreSound columns.columns) }
{
    matched(alloc, table_at(plan, i)?, cell)
}

/// Returns the default dialect.
fn lawful(alloc: Global) -> Option<Dialect>
    ensures { IfSome result IsLawful }
{
    let dialect = Dialect::new(alloc).ok()?;
    match dialect.check() {
        Ok(()) => Some(dialect),
        Err(_) => None,
    }
}

/// Returns a reader by the default dialect, whose text has not ended.
fn reader(alloc: Global) -> Option<Rows>
    ensures { IfSome result (λ rows. is_ended_of rows ≡ false) }
{
    match Rows::new(alloc, lawful(alloc)?, 100) {
        Ok(rows) => Some(rows),
        Err(_) => None,
    }
}

/// Returns a reader of a text by the default dialect.
fn reader_of(alloc: Global, text: &str) -> Option<Rows> {
    let mut rows = reader(alloc)?;
    match rows.feed(text.as_bytes()) {
        Ok(()) => Some(rows),
        Err(_) => None,
    }
}

/// The error for a row that can't be read or annotated.
#[derive(Clone, Copy)]
struct Stopped;

/// Returns the next row of a text, annotated. It returns `None` for a header row, and if there is no row.
fn next_row(alloc: Global, columns: &Columns, rows: &mut Rows) -> Result<Option<Row>, Stopped>
    requires { AreSound columns.now.columns }
{
    match rows.next() {
        Ok(Some(raw)) if raw.number() > 0 => match annotate(alloc, columns, &raw) {
            Ok(row) => Ok(Some(row)),
            Err(_) => Err(Stopped),
        },
        Ok(_) => Ok(None),
        Err(_) => Err(Stopped),
    }
}

/// Adds the next row of a text to these rows. Returns whether nothing failed.
fn push_next(alloc: Global, columns: &Columns, rows: &mut Rows, into: &mut Vec<Row>) -> bool
    requires { AreSound columns.now.columns }
{
    match next_row(alloc, columns, rows) {
        Ok(Some(row)) => into.push(row).is_ok(),
        Ok(None) => true,
        Err(_) => false,
    }
}

/// Returns the first five rows of a text, without the header row.
fn read_rows(alloc: Global, columns: &Columns, text: &str) -> Option<Vec<Row>>
    requires { AreSound columns.now.columns }
{
    let mut rows = reader_of(alloc, text)?;
    let mut read = Vec::new(alloc);
    for _ in 0..6 {
        if !push_next(alloc, columns, &mut rows, &mut read) {
            return None;
        }
    }
    Some(read)
}

/// Returns the rows of a text of the table at this index, from 0, whose header is one cell.
pub(crate) fn rows_of(
    alloc: Global,
    plan: &Plan,
    i: usize,
    cell: &str,
    text: &str,
) -> Option<Vec<Row>>
    requires { AreReady plan.now.tables }
{
    let columns = columns_at(alloc, plan, i, cell)?;
    read_rows(alloc, &columns, text)
}
