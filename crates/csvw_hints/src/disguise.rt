//! Files that are no text in UTF-8, known by their first bytes.

use csvw_page::push_location;
use std::alloc::AllocError;

/// Returns what a file is by its first bytes, if it is no text in UTF-8, and what to do.
fn disguise(bytes: &[u8]) -> Option<&'static str> {
    if bytes.starts_with(b"\x1F\x8B") {
        return Some("the file is compressed by gzip: decompress it first");
    }
    if bytes.starts_with(b"PK\x03\x04") {
        return Some(
            "the file is a ZIP archive or a workbook (xlsx, ods): save the sheet as CSV in UTF-8",
        );
    }
    if bytes.starts_with(b"\xD0\xCF\x11\xE0") {
        return Some("the file is an old workbook (xls): save the sheet as CSV in UTF-8");
    }
    if bytes.starts_with(b"\xFF\xFE") || bytes.starts_with(b"\xFE\xFF") {
        return Some("the file is in UTF-16: save it as UTF-8");
    }
    None
}

/// Adds what a file is by its first bytes, if it is no text. Returns `AllocError` if memory runs out.
pub fn push_disguise(lines: &mut String, path: &str, bytes: &[u8]) -> Result<(), AllocError> {
    if let Some(text) = disguise(bytes) {
        push_location(lines, path)?;
        write!(lines, ": {text}\n")?;
    }
    Ok(())
}

/// The delimiters that a file may have instead, each with what to do.
const OTHERS: [(u8, &str); 3] = [
    (
        b';',
        "its first line has `;`: write `\"dialect\": {\"delimiter\": \";\"}`",
    ),
    (
        b'\t',
        "its first line has tabs: write `\"dialect\": {\"delimiter\": \"\\t\"}`",
    ),
    (
        b'|',
        "its first line has `|`: write `\"dialect\": {\"delimiter\": \"|\"}`",
    ),
];

/// Returns the bytes of the first line.
fn first_line(bytes: &[u8]) -> &[u8] {
    let end = bytes
        .iter()
        .position(|b| *b == b'\n')
        .unwrap_or(bytes.len());
    bytes.get(..end).unwrap_or(&[])
}

/// Returns what to do about the dialect, if the first line of a file doesn't have the delimiter, but another one.
pub fn dialect_hint(bytes: &[u8], delimiter: char) -> Option<&'static str> {
    let line = first_line(bytes);
    if line.starts_with(b"sep=") {
        return Some(
            "its first line is a hint for Excel: write `\"skipRows\": 1` and the `delimiter` into the dialect",
        );
    }
    if !delimiter.is_ascii() || line.contains(&(delimiter as u8)) {
        return None;
    }
    for (other, hint) in &OTHERS {
        if line.contains(other) {
            return Some(*hint);
        }
    }
    None
}
