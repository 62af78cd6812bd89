//! The records of the rows of two tables.

use csvw_annotate::{AnnCell, Row};
use csvw_cell::{CellValue, Item};
use csvw_columns::Plan;
use csvw_datatype::Value;
use csvw_keys::KeyBook;
use csvw_meta::read;
use csvw_row_keys::write_records;
use csvw_streams::Counted;
use csvw_text::Seq;
use std::alloc::{AllocError, Global};
use std::process::Abort;

/// The URL of the document.
const BASE: &str = "http://example.org/";

/// A table that refers to another, which has a primary key.
const META: &str = r#"{"@context":"http://www.w3.org/ns/csvw","tables":[
{"url":"a.csv","tableSchema":{"columns":[{"name":"ref","datatype":"integer"}],
"foreignKeys":[{"columnReference":"ref","reference":{"resource":"b.csv","columnReference":"k"}}]}},
{"url":"b.csv","tableSchema":{"columns":[{"name":"k","datatype":"integer"}],"primaryKey":"k"}}]}"#;

/// The rows: the number of the table, the number in the source, and the number of the cell, or none if it is null.
static ROWS: [(u32, u64, Option<i128>); 6] = [
    (2, 2, Some(1)),
    (1, 2, Some(9)),
    (1, 3, None),
    (2, 3, Some(1)),
    (1, 4, Some(1)),
    (2, 4, Some(-2)),
];

/// The records of these rows.
const RECORDS: &str =
    "1,n1;,referenced,2,2,1\n1,n1;,referenced,2,3,1\n1,n-2;,referenced,2,4,1\n1,n9;,refers,1,2,1\n1,n1;,refers,1,4,1\n2,n1;,unique,2,2,1\n2,n1;,unique,2,3,1\n2,n-2;,unique,2,4,1\n";

/// Returns a row of one cell.
fn row_of(alloc: Global, source: u64, number: Option<i128>) -> Result<Row, AllocError> {
    let mut cell = AnnCell::new(alloc);
    if let Some(number) = number {
        cell.value = CellValue::One(Item {
            value: Value::Number(number),
            was_read: true,
        });
    }
    let mut cells = Vec::new(alloc);
    cells.push(cell)?;
    Ok(Row {
        number: 1,
        source,
        cells: Seq::of(cells),
    })
}

/// Returns what is written of the rows of a book.
fn written(alloc: Global, plan: &Plan, keys: &KeyBook) -> Option<Vec<u8>> {
    let mut w = Counted::new(Vec::new(alloc));
    match write_records(alloc, plan, keys, &mut w) {
        Ok(()) => Some(w.into_inner()),
        Err(_) => None,
    }
}

/// Returns whether the records of these rows are written, and none once they are dropped.
fn writes(alloc: Global, plan: &Plan) -> Result<bool, AllocError> {
    let mut keys = KeyBook::recording(alloc, plan)?;
    for (table, source, number) in &ROWS {
        let row = row_of(alloc, *source, *number)?;
        keys.add(*table, &row)?;
    }
    let all = written(alloc, plan, &keys);
    keys.forget_rows();
    let none = written(alloc, plan, &keys);
    Ok(
        all.is_some_and(|text| text.as_slice() == RECORDS.as_bytes())
            && none.is_some_and(|text| text.is_empty()),
    )
}

/// Returns the plan of the two tables.
fn plan_of(alloc: Global) -> Option<Plan> {
    let description = read(alloc, META.as_bytes(), BASE).ok()?;
    match Plan::build(alloc, description) {
        Ok(plan) => Some(plan),
        Err(_) => None,
    }
}

#[test]
fn rows_of_two_tables(rt: HostRuntime) {
    let plan = plan_of(rt.alloc());
    assert!(rt; matches!(&plan, Some(plan) if writes(rt.alloc(), plan) == Ok(true)));
}
