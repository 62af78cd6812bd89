//! A test of a table at its limits. It has as many columns as allowed, each with three templates of as many
//! expressions as allowed. Together these name all columns, whose cells have characters of every kind.
use crate::running::{Ran, run_over};
use csvw_triples_core::Mode;
use std::alloc::{AllocError, Global};
use std::process::Abort;
use std::str;
use std::test::Fail;

/// The number of columns.
const COLUMNS: u32 = 1_024;

/// The number of variables of each template.
const VARIABLES: u32 = 32;

/// Characters above U+00FF: the ends of each length in UTF-8, those next to the surrogates, and some noncharacters.
const BEYOND: [char; 9] = [
    '\u{100}',
    '\u{7ff}',
    '\u{800}',
    '\u{d7ff}',
    '\u{e000}',
    '\u{fffe}',
    '\u{ffff}',
    '\u{10000}',
    '\u{10ffff}',
];

/// Returns the character in the cell of a column, from 0: those from U+0001 to U+00FF, then those above.
fn character(column: u32) -> char {
    match u8::try_from(column % 264) {
        Ok(code) if code < 255 => char::from(code.wrapping_add(1)),
        _ => BEYOND
            .get((column % 9) as usize)
            .copied()
            .unwrap_or('\u{100}'),
    }
}

/// Returns the columns, from 0, that a template names which begins with this column.
fn named(first: u32) -> [u32; 2] {
    [first % COLUMNS, (first % COLUMNS).wrapping_add(VARIABLES)]
}

fn push_expressions(out: &mut String, first: u32) -> Result<(), AllocError> {
    let [from, to] = named(first);
    for column in from..to {
        write!(out, "{{c{column}}}")?;
    }
    Ok(())
}

fn push_column(out: &mut String, column: u32) -> Result<(), AllocError> {
    let first = column.wrapping_mul(96);
    write!(out, r##"{{"name":"c{column}","aboutUrl":"#"##)?;
    push_expressions(out, first)?;
    out.push_str(r#"","propertyUrl":"http://example.org/p?"#)?;
    push_expressions(out, first.wrapping_add(32))?;
    out.push_str(r#"","valueUrl":"v/"#)?;
    push_expressions(out, first.wrapping_add(64))?;
    out.push_str(r#""}"#)
}

fn push_document(out: &mut String) -> Result<(), AllocError> {
    out.push_str(
        r#"{"@context":"http://www.w3.org/ns/csvw","url":"p.csv","dialect":{"header":false},"tableSchema":{"columns":["#,
    )?;
    for column in 0..COLUMNS {
        if column > 0 {
            out.push(',')?;
        }
        push_column(out, column)?;
    }
    out.push_str("]}}")
}

/// Returns the document, whose columns have about, property and value links.
fn document(alloc: Global) -> Result<String, AllocError> {
    let mut out = String::new(alloc);
    push_document(&mut out)?;
    Ok(out)
}

fn push_field(out: &mut String, column: u32) -> Result<(), AllocError> {
    out.push_str(if column > 0 { ",\"" } else { "\"" })?;
    let c = character(column);
    out.push(c)?;
    if c == '"' {
        out.push(c)?;
    }
    out.push('"')
}

/// Returns the one row of the table, with each field in quotes.
fn text(alloc: Global) -> Result<String, AllocError> {
    let mut out = String::new(alloc);
    for column in 0..COLUMNS {
        push_field(&mut out, column)?;
    }
    out.push('\n')?;
    Ok(out)
}

fn push_bytes(out: &mut String, bytes: &[u8]) -> Result<(), AllocError> {
    for byte in bytes {
        write!(out, "%{byte:02X}")?;
    }
    Ok(())
}

/// Adds a character as an expression of a template writes it. Except for unreserved ones, these are its bytes in UTF-8,
/// each after a `%`.
fn push_encoded(alloc: Global, out: &mut String, c: char) -> Result<(), AllocError> {
    if c.is_ascii_alphanumeric() || matches!(c, '-' | '.' | '_' | '~') {
        return out.push(c);
    }
    let mut one = String::new(alloc);
    one.push(c)?;
    push_bytes(out, one.as_bytes())
}

fn push_values(alloc: Global, out: &mut String, first: u32) -> Result<(), AllocError> {
    let [from, to] = named(first);
    for column in from..to {
        push_encoded(alloc, out, character(column))?;
    }
    Ok(())
}

fn push_triple(alloc: Global, out: &mut String, column: u32) -> Result<(), AllocError> {
    let first = column.wrapping_mul(96);
    out.push_str("<http://example.org/p.csv#")?;
    push_values(alloc, out, first)?;
    out.push_str("> <http://example.org/p?")?;
    push_values(alloc, out, first.wrapping_add(32))?;
    out.push_str("> <http://example.org/v/")?;
    push_values(alloc, out, first.wrapping_add(64))?;
    out.push_str("> .\n")
}

/// Returns a triple for each column.
fn graph(alloc: Global) -> Result<String, AllocError> {
    let mut out = String::new(alloc);
    for column in 0..COLUMNS {
        push_triple(alloc, &mut out, column)?;
    }
    Ok(out)
}

/// Returns what a run over the table leaves.
fn ran(alloc: Global) -> Result<Ran, AllocError> {
    let meta = document(alloc)?;
    let text = text(alloc)?;
    run_over(alloc, meta.as_str(), text.as_str(), Mode::Minimal)
}

#[test]
fn columns_and_templates_at_their_limits_have_links(rt: HostRuntime) -> Result<(), Fail> {
    let alloc = rt.alloc();
    let ran = ran(alloc)?;
    assert!(rt; ran.stop.is_none());
    assert!(rt; str::from_utf8(ran.graph.as_slice())? == graph(alloc)?.as_str());
    assert!(rt; ran.report.as_slice() == b"kind,code,table,row,column\n".as_slice());
    Ok(())
}
