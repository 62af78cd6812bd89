//! Tests of `rowTitles` in the profile w3c (Metadata Vocabulary for Tabular Data, section 5.5).
use crate::reading::{document, is_fault};
use csvw_description::{ColumnDescription, Description};
use csvw_meta::read_by;
use csvw_meta_core::{MetaFault, Profile};
use std::alloc::{AllocError, Global};
use std::test::Fail;

/// A schema whose columns have the names `a`, `b%20b` and `_col.3`.
const FRAME: (&str, &str) = (
    r#"{"@context":"http://www.w3.org/ns/csvw","url":"p.csv","tableSchema":{"columns":[{"name":"a"},{"titles":"b b"},{}],"#,
    r#"}}"#,
);

/// The parts that are read, each with a digit for each column: 1 if its values are titles of their rows, else 0.
const ACCEPTED: &str = r#""@type":"Schema" => 000
"rowTitles":"a" => 100
"rowTitles":["a"] => 100
"rowTitles":"b%20b" => 010
"rowTitles":["_col.3","a"] => 101
"rowTitles":["a","a"] => 100
"primaryKey":"a","rowTitles":"_col.3" => 001
"rowTitles":["a","a","a","a","a","a","a","a","a","a","a","a","a","a","a","b%20b"] => 110
"#;

/// The parts that are refused, each with the code of its fault and the pointer below the schema.
const REFUSED: &str = r#""rowTitles":"c" => BadReference /rowTitles
"rowTitles":"b b" => BadReference /rowTitles
"rowTitles":["c"] => BadReference /rowTitles/0
"rowTitles":["a","c"] => BadReference /rowTitles/1
"primaryKey":"d","rowTitles":"c" => BadReference /primaryKey
"rowTitles":1 => BadProperty /rowTitles
"rowTitles":1.5 => NotSupported /rowTitles
"rowTitles":null => BadProperty /rowTitles
"rowTitles":{} => BadProperty /rowTitles
"rowTitles":[] => BadProperty /rowTitles
"rowTitles":["a",1] => BadProperty /rowTitles/1
"rowTitles":["a","a","a","a","a","a","a","a","a","a","a","a","a","a","a","a","a"] => TooMany /rowTitles
"#;

fn read_part(alloc: Global, part: &str) -> Result<Result<Description, MetaFault>, AllocError> {
    let text = document(alloc, FRAME, part)?;
    Ok(read_by(
        alloc,
        text.as_bytes(),
        "http://example.org/m.json",
        Profile::W3c,
    ))
}

/// Returns the digit of each column.
fn digits_of(alloc: Global, columns: &[ColumnDescription]) -> Result<String, AllocError> {
    let mut digits = String::new(alloc);
    for column in columns {
        digits.push_str(if column.is_row_title { "1" } else { "0" })?;
    }
    Ok(digits)
}

/// Whether the columns of the first table of a description have these digits.
fn has_digits(alloc: Global, described: &Description, digits: &str) -> Result<bool, AllocError> {
    let Some(table) = described.tables.as_slice().first() else {
        return Ok(false);
    };
    match &table.schema {
        Some(schema) => Ok(digits_of(alloc, schema.columns.as_slice())?.as_str() == digits),
        None => Ok(false),
    }
}

fn accepts(alloc: Global, line: &str) -> Result<bool, AllocError> {
    let Some((part, digits)) = line.split_once(" => ") else {
        return Ok(false);
    };
    match read_part(alloc, part)? {
        Ok(described) => has_digits(alloc, &described, digits),
        Err(_) => Ok(false),
    }
}

fn refuses(alloc: Global, line: &str) -> Result<bool, AllocError> {
    let Some((part, expected)) = line.split_once(" => ") else {
        return Ok(false);
    };
    match read_part(alloc, part)? {
        Ok(_) => Ok(false),
        Err(fault) => is_fault(alloc, "/tableSchema", &fault, expected),
    }
}

#[test]
fn row_titles_are_read(rt: HostRuntime) -> Result<(), Fail> {
    for line in ACCEPTED.lines() {
        assert!(rt; accepts(rt.alloc(), line)?, "{line}");
    }
    Ok(())
}

#[test]
fn row_titles_are_refused(rt: HostRuntime) -> Result<(), Fail> {
    for line in REFUSED.lines() {
        assert!(rt; refuses(rt.alloc(), line)?, "{line}");
    }
    Ok(())
}
