//! Tests of the header, the cells and the rows of a table, call by call.
ghost use Rattle.csvw_columns_core.specs.Sound.{AreSound};
ghost use Rattle.csvw_columns.specs.Ready.{AreReady};
ghost use Rattle.csvw_annotate.specs.HasForms.{HasForms};

use crate::tables::{columns_of, matched, matched_in, next_row, plan_of, reader_of, table_at};
use csvw_annotate::Row;
use csvw_cell::{Cell, CellValue, Item, parse};
use csvw_columns::{Columns, Plan};
use csvw_datatype::Value;
use csvw_keys::KeyBook;
use csvw_rows::Rows;
use csvw_text::{Code, Fault};
use csvw_triples::{Mode, Node, Origin, Term, Triple, VecSink, emit_row};
use std::alloc::Global;
use std::process::Abort;

/// A table without metadata of its own.
const PLAIN: &str = r#"{"@context":"http://www.w3.org/ns/csvw","url":"p.csv"}"#;

/// A table with a column of two titles, and one with only a name.
const TITLED: &str =
    r#"{"@context":"http://www.w3.org/ns/csvw","url":"p.csv","tableSchema":{"columns":[{"titles":"Id"},{"name":"n"}]}}"#;

/// A table whose column `id` is an integer.
const INTEGER: &str =
    r#"{"@context":"http://www.w3.org/ns/csvw","url":"p.csv","tableSchema":{"columns":[{"name":"id","datatype":"integer"}]}}"#;

/// A table that refers to another, which has a primary key.
const KEYS: &str = r#"{"@context":"http://www.w3.org/ns/csvw","tables":[
{"url":"a.csv","tableSchema":{"columns":[{"name":"ref","datatype":"integer"}],
"foreignKeys":[{"columnReference":"ref","reference":{"resource":"b.csv","columnReference":"k"}}]}},
{"url":"b.csv","tableSchema":{"columns":[{"name":"k","datatype":"integer"}],"primaryKey":"k"}}]}"#;

/// Returns the number of the column of this name.
fn number_of(columns: &Columns, name: &str) -> Option<u32> {
    match columns.by_name(name) {
        Some(column) => Some(column.number),
        None => None,
    }
}

/// Whether they are the columns of `PLAIN`.
fn are_named(columns: &Columns) -> bool {
    columns.len() == 2
        && number_of(columns, "id") == Some(1)
        && number_of(columns, "name") == Some(2)
        && number_of(columns, "Name") == None
}

#[test]
fn columns_have_names(rt: HostRuntime) {
    let columns = columns_of(rt.alloc(), PLAIN, 0, &["id", "name"]);
    assert!(rt; matches!(&columns, Some(columns) if are_named(columns)));
}

/// Whether these are all faults: each is a code at this table, row and column.
fn tells(faults: &[Fault], wanted: &[(Code, u32, u64, u32)]) -> bool {
    faults.len() == wanted.len()
        && faults.iter().zip(wanted.iter()).all(|(f, (code, table, row, column))| {
            f.code == *code
                && f.place.table == *table
                && f.place.row == *row
                && f.place.column == *column
        })
}

/// Whether these are all faults of a header of the first table.
fn header_tells(
    alloc: Global,
    meta: &str,
    cells: &[&str],
    wanted: &[(Code, u32, u64, u32)],
) -> bool {
    match matched_in(alloc, meta, 0, cells) {
        Some((_, faults)) => tells(faults.as_slice(), wanted),
        None => false,
    }
}

#[test]
fn a_header_of_another_title_is_told(rt: HostRuntime) {
    let wanted = [(Code::HeaderMismatch, 1, 1, 1)];
    assert!(rt; header_tells(rt.alloc(), TITLED, &["ID", "n"], &wanted));
}

/// Returns the cell of a text in the column of this name.
pub(crate) fn parsed(alloc: Global, columns: &Columns, name: &str, text: &str) -> Option<Cell> {
    let column = columns.by_name(name)?;
    match column.properties.datatype.get().check() {
        Ok(()) => parse(alloc, column, text).ok(),
        Err(_) => None,
    }
}

/// Returns the number of a cell in units of 10^-18, or the code of what is wrong with its text.
fn number_or_code(cell: &Cell) -> Result<i128, Option<Code>> {
    match &cell.value {
        CellValue::One(
            Item {
                value: Value::Number(number),
                was_read: true,
            },
        ) => Ok(*number),
        _ => Err(cell.faults.as_slice().first().copied()),
    }
}

/// Texts of a column of integers, and their values or codes.
static INTEGERS: [(&str, Result<i128, Option<Code>>); 4] = [
    ("+007", Ok(7_000_000_000_000_000_000)),
    (
        "99999999999999999999",
        Ok(99_999_999_999_999_999_999_000_000_000_000_000_000),
    ),
    ("100000000000000000000", Err(Some(Code::NumberTooLong))),
    ("", Err(None)),
];

/// Whether a text in the column `id` has this value or code.
fn is_parsed(
    alloc: Global,
    columns: &Columns,
    text: &str,
    wanted: Result<i128, Option<Code>>,
) -> bool {
    match parsed(alloc, columns, "id", text) {
        Some(cell) => number_or_code(&cell) == wanted,
        None => false,
    }
}

fn parse_each(rt: &impl Abort, alloc: Global, columns: &Columns) {
    for (text, wanted) in &INTEGERS {
        assert!(rt; is_parsed(alloc, columns, text, *wanted), "{text:?}");
    }
}

#[test]
fn texts_of_integers(rt: HostRuntime) {
    let alloc = rt.alloc();
    let columns = columns_of(alloc, INTEGER, 0, &["id"]);
    assert!(rt; columns.is_some());
    if let Some(columns) = &columns {
        parse_each(&rt, alloc, columns);
    }
}

/// Whether a triple has this predicate and text, for the subject of the first row of the first table.
fn says(triple: &Triple, predicate: &str, text: &str) -> bool {
    let is_about = match triple.s {
        Node::Blank(origin) => origin == Origin::Subject(1, 1),
        Node::Named(_) => false,
    };
    let is_text = match &triple.o {
        Term::Literal(lit) => {
            lit.text.as_str() == text
                && lit.datatype.as_str() == "http://www.w3.org/2001/XMLSchema#string"
                && lit.lang.is_none()
        }
        Term::Named(_) | Term::Blank(_) => false,
    };
    is_about && is_text && triple.p.as_str() == predicate
}

/// Puts the triples of a row of the first table into a sink. Returns whether the sink took them.
fn emit(alloc: Global, columns: &Columns, row: &Row, sink: &mut VecSink) -> bool
    requires { HasForms row.now }
{
    if row.cells.len() == columns.len() {
        emit_row(alloc, columns, Mode::Minimal, 1, row, sink).is_ok()
    } else {
        false
    }
}

/// Puts the triples of the next row into a sink, if there is one after the header. Returns whether nothing failed.
fn emit_next(alloc: Global, columns: &Columns, rows: &mut Rows, sink: &mut VecSink) -> bool
    requires { AreSound columns.now.columns }
{
    match next_row(alloc, columns, rows) {
        Ok(Some(row)) => emit(alloc, columns, &row, sink),
        Ok(None) => true,
        Err(_) => false,
    }
}

/// Whether these are the triples of Ann, whose number is 1.
fn are_of_ann(triples: &[Triple]) -> bool {
    match triples {
        [id, name] => {
            says(id, "http://example.org/p.csv#id", "1")
                && says(name, "http://example.org/p.csv#name", "Ann")
        }
        _ => false,
    }
}

/// Whether the first two rows of a text make the triples of Ann.
fn emits_ann(alloc: Global, columns: &Columns, rows: &mut Rows) -> bool
    requires { AreSound columns.now.columns }
{
    let mut sink = VecSink::new(alloc);
    let is_header = emit_next(alloc, columns, rows, &mut sink);
    let is_row = emit_next(alloc, columns, rows, &mut sink);
    is_header && is_row && are_of_ann(sink.triples())
}

/// Whether the text of a header and Ann makes them.
fn text_emits_ann(alloc: Global, columns: &Columns) -> bool
    requires { AreSound columns.now.columns }
{
    match reader_of(alloc, "id,name\n1,Ann\n") {
        Some(mut rows) => emits_ann(alloc, columns, &mut rows),
        None => false,
    }
}

#[test]
fn a_row_is_put_into_a_vector(rt: HostRuntime) {
    let columns = columns_of(rt.alloc(), PLAIN, 0, &["id", "name"]);
    assert!(rt; matches!(&columns, Some(columns) if text_emits_ann(rt.alloc(), columns)));
}

/// Adds the next row to the book, if there is one after the header. Returns whether nothing failed.
fn add_next(
    alloc: Global,
    table: u32,
    columns: &Columns,
    rows: &mut Rows,
    book: &mut KeyBook,
) -> bool
    requires { AreSound columns.now.columns }
{
    match next_row(alloc, columns, rows) {
        Ok(Some(row)) => book.add(table, &row).is_ok(),
        Ok(None) => true,
        Err(_) => false,
    }
}

/// Adds the first five rows to the book.
fn add_rows(
    alloc: Global,
    table: u32,
    columns: &Columns,
    rows: &mut Rows,
    book: &mut KeyBook,
) -> bool
    requires { AreSound columns.now.columns }
{
    for _ in 0..5 {
        if !add_next(alloc, table, columns, rows, book) {
            return false;
        }
    }
    true
}

/// Adds the rows of a text to the book.
fn add_text(alloc: Global, table: u32, columns: &Columns, text: &str, book: &mut KeyBook) -> bool
    requires { AreSound columns.now.columns }
{
    match reader_of(alloc, text) {
        Some(mut rows) => add_rows(alloc, table, columns, &mut rows, book),
        None => false,
    }
}

/// Adds the rows of a table of one column to the book.
fn add_table(
    alloc: Global,
    plan: &Plan,
    i: usize,
    name: &str,
    text: &str,
    book: &mut KeyBook,
) -> bool
    requires { AreReady plan.now.tables }
{
    let Some(table) = table_at(plan, i) else {
        return false;
    };
    match matched(alloc, table, &[name]) {
        Some((columns, _)) => add_text(alloc, table.number, &columns, text, book),
        None => false,
    }
}

/// Whether the book reports a duplicate in the second table, and none in the first.
fn has_duplicate(book: &KeyBook) -> bool {
    tells(book.duplicates(1), &[]) && tells(book.duplicates(2), &[(Code::DuplicateKey, 2, 3, 1)])
}

/// Whether these are all faults of the book at the end.
fn ends_with(book: &KeyBook, wanted: &[(Code, u32, u64, u32)]) -> bool {
    match book.finish() {
        Ok(faults) => tells(faults.as_slice(), wanted),
        Err(_) => false,
    }
}

/// The faults of the keys of both tables.
static KEY_FAULTS: [(Code, u32, u64, u32); 3] = [
    (Code::NoReferencedRow, 1, 2, 1),
    (Code::ManyReferencedRows, 1, 3, 1),
    (Code::DuplicateKey, 2, 3, 1),
];

/// Whether the book of the plan reports the faults of the rows of two tables.
fn tells_of_rows(alloc: Global, plan: &Plan, book: &mut KeyBook) -> bool
    requires { AreReady plan.now.tables }
{
    add_table(alloc, plan, 0, "ref", "ref\n9\n1\n2\n\n", book)
        && add_table(alloc, plan, 1, "k", "k\n1\n01\n2\n", book)
        && has_duplicate(book)
        && ends_with(book, &KEY_FAULTS)
}

/// Whether a new book of the plan reports them.
fn book_tells(alloc: Global, plan: &Plan) -> bool
    requires { AreReady plan.now.tables }
{
    match KeyBook::new(alloc, plan) {
        Ok(mut book) => tells_of_rows(alloc, plan, &mut book),
        Err(_) => false,
    }
}

#[test]
fn a_book_tells_of_keys(rt: HostRuntime) {
    let plan = plan_of(rt.alloc(), KEYS);
    assert!(rt; matches!(&plan, Some(plan) if book_tells(rt.alloc(), plan)));
}
