//! Tests of single cells, by calls of `parse`.

use crate::annotated_rows::parsed;
use crate::tables::columns_of;
use csvw_cell::{Cell, CellValue, Item};
use csvw_columns::Columns;
use csvw_datatype::Value;
use csvw_text::Code;
use std::alloc::Global;
use std::process::Abort;

/// What a text makes of a cell.
#[derive(Clone, Copy, Debug)]
enum Made {
    /// No value.
    Null,
    /// A number, counted in units of 10^-18.
    Number(i128),
    /// A day, counted in days since 1 January 1970.
    Day(i32),
    /// A boolean.
    Truth(bool),
    /// The text itself, as it isn't of the datatype.
    Unread(&'static str),
    /// A list of texts.
    Many(&'static [&'static str]),
}

/// A text in a column `v`, and what it makes.
#[derive(Clone, Copy, Debug)]
struct Parsed {
    text: &'static str,
    made: Made,
    faults: &'static [Code],
}

/// A document with percentages, and a bound.
const PERCENT: &str =
    r#"{"@context":"http://www.w3.org/ns/csvw","url":"p.csv","tableSchema":{"columns":[
{"name":"v","datatype":{"base":"decimal","format":{"decimalChar":"."},"maximum":"1.5"}}]}}"#;

static PERCENTS: [Parsed; 3] = [
    Parsed {
        text: "-25%",
        made: Made::Number(-250_000_000_000_000_000),
        faults: &[],
    },
    Parsed {
        text: "1.500",
        made: Made::Number(1_500_000_000_000_000_000),
        faults: &[],
    },
    Parsed {
        text: "2.0",
        made: Made::Number(2_000_000_000_000_000_000),
        faults: &[Code::AboveMaximum],
    },
];

/// A document with days that are written day first.
const DAY_FIRST: &str =
    r#"{"@context":"http://www.w3.org/ns/csvw","url":"p.csv","tableSchema":{"columns":[
{"name":"v","datatype":{"base":"date","format":"dd/MM/yyyy"}}]}}"#;

static DAYS: [Parsed; 2] = [
    Parsed {
        text: "29/02/2024",
        made: Made::Day(19_782),
        faults: &[],
    },
    Parsed {
        text: "29/02/2023",
        made: Made::Unread("29/02/2023"),
        faults: &[Code::BadDate],
    },
];

/// A document with booleans of its own texts.
const YES_NO: &str =
    r#"{"@context":"http://www.w3.org/ns/csvw","url":"p.csv","tableSchema":{"columns":[
{"name":"v","datatype":{"base":"boolean","format":"Y|N"}}]}}"#;

static TRUTHS: [Parsed; 2] = [
    Parsed {
        text: "Y",
        made: Made::Truth(true),
        faults: &[],
    },
    Parsed {
        text: "1",
        made: Made::Unread("1"),
        faults: &[Code::BadBoolean],
    },
];

/// A document with lists that must not be empty.
const LISTS: &str =
    r#"{"@context":"http://www.w3.org/ns/csvw","url":"p.csv","tableSchema":{"columns":[
{"name":"v","separator":";","ordered":true,"required":true}]}}"#;

static LISTED: [Parsed; 2] = [
    Parsed {
        text: "b;a;b",
        made: Made::Many(&["b", "a", "b"]),
        faults: &[],
    },
    Parsed {
        text: "",
        made: Made::Many(&[]),
        faults: &[Code::Required],
    },
];

/// A document with null texts and a default.
const DEFAULT: &str =
    r#"{"@context":"http://www.w3.org/ns/csvw","url":"p.csv","tableSchema":{"columns":[
{"name":"v","datatype":"integer","null":["","NA"],"default":"0"}]}}"#;

static DEFAULTS: [Parsed; 2] = [
    Parsed {
        text: "",
        made: Made::Number(0),
        faults: &[],
    },
    Parsed {
        text: "NA",
        made: Made::Null,
        faults: &[],
    },
];

/// Whether an item is this text.
fn is_text(item: &Item, text: &str) -> bool {
    matches!(&item.value, Value::Text(own) if own.as_str() == text)
}

/// Whether items are these texts, and were read.
fn are_texts(items: &[Item], texts: &[&str]) -> bool {
    items.len() == texts.len()
        && items
            .iter()
            .zip(texts)
            .all(|(item, text)| item.was_read && is_text(item, text))
}

/// Whether an item is this value.
fn is_one(item: &Item, made: Made) -> bool {
    match (&item.value, made) {
        (Value::Number(number), Made::Number(wanted)) => item.was_read && *number == wanted,
        (Value::Day(day), Made::Day(wanted)) => item.was_read && *day == wanted,
        (Value::Truth(truth), Made::Truth(wanted)) => item.was_read && *truth == wanted,
        (Value::Text(text), Made::Unread(wanted)) => !item.was_read && text.as_str() == wanted,
        _ => false,
    }
}

/// Whether a value is this one.
fn is_made(value: &CellValue, made: Made) -> bool {
    match (value, made) {
        (CellValue::Null, Made::Null) => true,
        (CellValue::Many(items), Made::Many(texts)) => are_texts(items.as_slice(), texts),
        (CellValue::One(item), _) => is_one(item, made),
        _ => false,
    }
}

/// Whether the cell is as the table says.
fn is_so(cell: &Cell, wanted: &Parsed) -> bool {
    is_made(&cell.value, wanted.made) && cell.faults.as_slice() == wanted.faults
}

fn parse_each(rt: &impl Abort, alloc: Global, columns: &Columns, texts: &[Parsed]) {
    for wanted in texts {
        let cell = parsed(alloc, columns, "v", wanted.text);
        assert!(rt;
            matches!(&cell, Some(cell) if is_so(cell, wanted)),
            "{wanted:?}"
        );
    }
}

fn parse_all(rt: &impl Abort, alloc: Global, meta: &str, texts: &[Parsed]) {
    let columns = columns_of(alloc, meta, 0, &["v"]);
    assert!(rt; columns.is_some(), "{meta}");
    if let Some(columns) = &columns {
        parse_each(rt, alloc, columns, texts);
    }
}

#[test]
fn texts_make_these_cells(rt: HostRuntime) {
    let alloc = rt.alloc();
    parse_all(&rt, alloc, PERCENT, &PERCENTS);
    parse_all(&rt, alloc, DAY_FIRST, &DAYS);
    parse_all(&rt, alloc, YES_NO, &TRUTHS);
    parse_all(&rt, alloc, LISTS, &LISTED);
    parse_all(&rt, alloc, DEFAULT, &DEFAULTS);
}
