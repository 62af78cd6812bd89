//! Keys and their spellings.

use csvw_datatype::Value;
use csvw_keys::KeyCell;
use csvw_row_keys::push_spelling;
use csvw_text::{Seq, Text};
use std::alloc::{AllocError, Global};
use std::process::Abort;

/// A number of units of 10^-18.
const ONE: i128 = 1_000_000_000_000_000_000;

/// Texts and their spellings.
static TEXTS: [(&str, &str); 6] = [
    ("", "s;"),
    ("a-b.c/d", "sa-b.c/d;"),
    ("a,b;c", "sa%2Cb%3Bc;"),
    ("50% \"x\"", "s50%25%20%22x%22;"),
    ("\r\n\u{7f}", "s%0D%0A%7F;"),
    ("\u{e9}[1]", "s\u{e9}[1];"),
];

/// Returns whether a key of these cells has the expected spelling.
fn has_spelling(alloc: Global, cells: Vec<KeyCell>, want: &str) -> Result<bool, AllocError> {
    let mut text = Vec::new(alloc);
    push_spelling(&Seq::of(cells), &mut text)?;
    Ok(text.as_slice() == want.as_bytes())
}

fn is_spelled(alloc: Global, value: Value, want: &str) -> Result<bool, AllocError> {
    let mut cells = Vec::new(alloc);
    cells.push(KeyCell::One(value))?;
    has_spelling(alloc, cells, want)
}

fn text_of(alloc: Global, text: &str) -> Result<Value, AllocError> {
    Ok(Value::Text(Text::copied(alloc, text)?))
}

fn is_text_spelled(alloc: Global, text: &str, want: &str) -> Result<bool, AllocError> {
    let value = text_of(alloc, text)?;
    is_spelled(alloc, value, want)
}

#[test]
fn texts(rt: HostRuntime) {
    for (text, want) in &TEXTS {
        assert!(rt;
            is_text_spelled(rt.alloc(), text, want) == Ok(true),
            "{want}"
        );
    }
}

#[test]
fn values_of_other_kinds(rt: HostRuntime) {
    let alloc = rt.alloc();
    assert!(rt; is_spelled(alloc, Value::Number(ONE), "n1000000000000000000;") == Ok(true));
    assert!(rt; is_spelled(alloc, Value::Number(-5), "n-5;") == Ok(true));
    assert!(rt; is_spelled(alloc, Value::Number(0), "n;") == Ok(true));
    assert!(rt; is_spelled(alloc, Value::Truth(true), "b1;") == Ok(true));
    assert!(rt; is_spelled(alloc, Value::Truth(false), "b0;") == Ok(true));
    assert!(rt; is_spelled(alloc, Value::Day(19), "d19;") == Ok(true));
    assert!(rt; is_spelled(alloc, Value::Moment(-60), "m-60;") == Ok(true));
}

/// Returns whether a key of a null cell, a list and a text has the expected spelling.
fn are_cells_spelled(alloc: Global) -> Result<bool, AllocError> {
    let mut list = Vec::new(alloc);
    list.push(text_of(alloc, "a")?)?;
    list.push(Value::Number(2))?;
    let mut cells = Vec::new(alloc);
    cells.push(KeyCell::Null)?;
    cells.push(KeyCell::Many(Seq::of(list)))?;
    cells.push(KeyCell::One(text_of(alloc, "-")?))?;
    has_spelling(alloc, cells, "-[sa;n2;]s-;")
}

#[test]
fn cells(rt: HostRuntime) {
    assert!(rt; are_cells_spelled(rt.alloc()) == Ok(true));
}
