//! Tests of copies of plain data. A copy succeeds if there is memory.
ghost use Rattle.std.specs.Prelude.{IfSome};
ghost use Rattle.csvw_columns_core.specs.Sound.{AreSound};

use crate::annotated_rows::parsed;
use crate::tables::{columns_of, description_of, header, next_row, plan_of, planned, reader_of};
use csvw_annotate::Row;
use csvw_cell::{Cell, CellValue};
use csvw_columns::{Columns, HeaderRow, Plan};
use csvw_engine::Stop;
use csvw_meta::Description;
use csvw_meta_core::{MetaCode, MetaFault};
use csvw_ntriples::{NtTriple, read};
use csvw_report::Outcome;
use csvw_rows::Rows;
use csvw_text::{Code, Fault, Kind, Place, Seq, Text};
use std::alloc::{AllocError, Global};

/// A group of two tables. One refers to the other, and has notes and a dialect.
const GROUP: &str = r#"{"@context":"http://www.w3.org/ns/csvw","tables":[
{"url":"a.csv","dc:title":[{"dc:creator":"Ann"},"b"],"dialect":{"delimiter":";"},"tableSchema":{"columns":[{"name":"ref"}],
"foreignKeys":[{"columnReference":"ref","reference":{"resource":"b.csv","columnReference":"k"}}]}},
{"url":"b.csv","tableSchema":{"columns":[{"name":"k","separator":" "}],"primaryKey":"k"}}]}"#;

/// Returns a copy of the description of `GROUP`.
fn copied_description(alloc: Global) -> Option<Description> {
    let description = description_of(alloc, GROUP)?;
    description.clone(alloc).ok()
}

/// Returns the plan of a copy of the description.
fn plan_of_copy(alloc: Global) -> Option<Plan> {
    planned(alloc, copied_description(alloc)?)
}

/// Returns a copy of the plan.
fn copied_plan(alloc: Global) -> Option<Plan> {
    let plan = plan_of(alloc, GROUP)?;
    plan.clone(alloc).ok()
}

/// Whether it is the plan of `GROUP`.
fn is_of_group(plan: &Plan) -> bool {
    match plan.tables() {
        [one, other] => {
            one.dialect.delimiter == ';'
                && one.foreign_keys.len() == 1
                && one.notes.len() == 2
                && other.primary_key.len() == 1
        }
        _ => false,
    }
}

/// Whether there is a plan of `GROUP`.
fn is_plan(plan: Option<Plan>) -> bool {
    match &plan {
        Some(plan) => is_of_group(plan),
        None => false,
    }
}

#[test]
fn descriptions_and_plans(rt: HostRuntime) {
    let alloc = rt.alloc();
    assert!(rt; is_plan(plan_of_copy(alloc)));
    assert!(rt; is_plan(copied_plan(alloc)));
}

/// Returns a copy of a header row.
fn copied_header(alloc: Global) -> Result<HeaderRow, AllocError> {
    let row = header(alloc, &["ref", "k"])?;
    row.clone(alloc)
}

#[test]
fn header_rows(rt: HostRuntime) {
    let row = copied_header(rt.alloc());
    assert!(rt; matches!(&row, Ok(row) if row.cells.len() == 2));
}

/// Returns a copy of the columns of the second table.
fn copied_columns(alloc: Global) -> Option<Columns>
    ensures { IfSome result (λ columns. AreSound columns.columns) }
{
    let columns = columns_of(alloc, GROUP, 1, &["k"])?;
    match columns.clone(alloc) {
        Ok(copy) => Some(copy),
        Err(_) => None,
    }
}

/// Whether a value is a list of so many items.
fn is_list(value: &CellValue, count: usize) -> bool {
    match value {
        CellValue::Many(items) => items.len() == count,
        CellValue::Null | CellValue::One(_) => false,
    }
}

/// Whether a copy of a cell is a list of three items.
fn copies_list(alloc: Global, cell: &Cell) -> bool {
    match cell.clone(alloc) {
        Ok(copy) => is_list(&copy.value, 3),
        Err(_) => false,
    }
}

/// Whether a copy of the cell of a text in the column `k` is a list of three items.
fn copies_cell(alloc: Global, columns: &Columns) -> bool {
    match parsed(alloc, columns, "k", "1 2 3") {
        Some(cell) => copies_list(alloc, &cell),
        None => false,
    }
}

/// Whether a row has one cell, which is a list of two items.
fn has_list(row: &Row) -> bool {
    match row.cells.as_slice() {
        [cell] => is_list(&cell.value, 2),
        _ => false,
    }
}

/// Whether a copy of a row has one cell, which is a list of two items.
fn copies_row(alloc: Global, row: &Row) -> bool {
    match row.clone(alloc) {
        Ok(copy) => has_list(&copy),
        Err(_) => false,
    }
}

/// Whether the same holds of the first row after the header.
fn copies_next(alloc: Global, columns: &Columns, rows: &mut Rows) -> bool
    requires { AreSound columns.now.columns }
{
    if rows.next().is_err() {
        return false;
    }
    match next_row(alloc, columns, rows) {
        Ok(Some(row)) => copies_row(alloc, &row),
        Ok(None) | Err(_) => false,
    }
}

/// Whether the same holds of the first row of a text.
fn copies_first(alloc: Global, columns: &Columns) -> bool
    requires { AreSound columns.now.columns }
{
    match reader_of(alloc, "k\n1 2\n") {
        Some(mut rows) => copies_next(alloc, columns, &mut rows),
        None => false,
    }
}

#[test]
fn columns_cells_and_rows(rt: HostRuntime) {
    let alloc = rt.alloc();
    let columns = copied_columns(alloc);
    assert!(rt; matches!(&columns, Some(columns) if copies_cell(alloc, columns)));
    assert!(rt; matches!(&columns, Some(columns) if copies_first(alloc, columns)));
}

/// Whether a copy of a triple has this predicate.
fn copies_triple(alloc: Global, triple: &NtTriple, predicate: &str) -> bool {
    match triple.clone(alloc) {
        Ok(copy) => copy.p.as_str() == predicate,
        Err(_) => false,
    }
}

#[test]
fn triples(rt: HostRuntime) {
    let alloc = rt.alloc();
    let triples = read(alloc, b"_:a <http://example.org/p> \"x\"@en .\n");
    assert!(rt;
        match &triples {
            Ok(triples) => match triples.as_slice() {
                [triple] => copies_triple(alloc, triple, "http://example.org/p"),
                _ => false,
            },
            Err(_) => false,
        }
    );
}

/// Returns a fault of the URL of a document.
fn fault(alloc: Global) -> Result<MetaFault, AllocError> {
    Ok(MetaFault {
        code: MetaCode::BadUrl,
        pointer: Text::copied(alloc, "/url")?,
    })
}

/// Returns the stop for a copy of a fault.
fn stop_of(alloc: Global, fault: &MetaFault) -> Result<Stop, AllocError> {
    Ok(Stop::Meta(fault.clone(alloc)?))
}

/// Whether a stop is that of this fault.
fn is_stop_for(stop: &Stop, fault: &MetaFault) -> bool {
    match stop {
        Stop::Meta(found) => found == fault,
        _ => false,
    }
}

/// Whether a stop equals its copy.
fn copies_stop(alloc: Global, stop: &Stop) -> bool {
    match stop.clone(alloc) {
        Ok(copy) => copy == *stop,
        Err(_) => false,
    }
}

/// Whether the stop for a copy of a fault is that of the fault, and equals its copy.
fn copies_fault(alloc: Global, fault: &MetaFault) -> Result<bool, AllocError> {
    let stop = stop_of(alloc, fault)?;
    Ok(is_stop_for(&stop, fault) && copies_stop(alloc, &stop))
}

/// Whether the same holds of a fault of the URL of a document.
fn copies_faults(alloc: Global) -> Result<bool, AllocError> {
    let fault = fault(alloc)?;
    copies_fault(alloc, &fault)
}

#[test]
fn stops(rt: HostRuntime) {
    assert!(rt; matches!(copies_faults(rt.alloc()), Ok(true)));
}

/// Whether an outcome equals its copy.
fn copies_outcome(alloc: Global, outcome: &Outcome) -> Result<bool, AllocError> {
    Ok(outcome.clone(alloc)? == *outcome)
}

/// Whether the outcome with this fault equals its copy.
fn copies_outcomes(alloc: Global, fault: Fault) -> Result<bool, AllocError> {
    let outcome = Outcome {
        faults: Seq::of([fault].to_vec(alloc)?),
    };
    copies_outcome(alloc, &outcome)
}

#[test]
fn outcomes(rt: HostRuntime) {
    let fault = Fault {
        kind: Kind::Error,
        code: Code::Required,
        place: Place {
            table: 1,
            row: 2,
            column: 1,
        },
    };
    assert!(rt; matches!(copies_outcomes(rt.alloc(), fault), Ok(true)));
}
