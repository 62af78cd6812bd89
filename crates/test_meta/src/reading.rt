//! Checks of whole documents: that they are read, or refused with a fault.

use csvw_description::Description;
use csvw_meta::read;
use csvw_meta_core::{MetaCode, MetaFault};
use std::alloc::{AllocError, Global};

/// The URL of each document.
const URL: &str = "http://example.org/m.json";

fn count_in_schema(described: &Description) -> usize {
    let mut count = 0usize;
    if let Some(schema) = &described.schema {
        count = count.saturating_add(schema.warnings.len());
        for column in schema.columns.as_slice() {
            count = count.saturating_add(column.warnings.len());
        }
    }
    count
}

/// Returns the number of warnings in a description.
fn count(described: &Description) -> usize {
    let mut count = described.warnings.len();
    count = count.saturating_add(count_in_schema(described));
    for table in described.tables.as_slice() {
        count = count.saturating_add(table.warnings.len());
        if let Some(schema) = &table.schema {
            count = count.saturating_add(schema.warnings.len());
            for column in schema.columns.as_slice() {
                count = count.saturating_add(column.warnings.len());
            }
        }
    }
    count
}

/// Returns the document with a part between two texts.
pub(crate) fn document(
    alloc: Global,
    frame: (&str, &str),
    part: &str,
) -> Result<String, AllocError> {
    let (front, end) = frame;
    format!(in alloc; "{front}{part}{end}")
}

/// Returns the number of warnings of a document, or `None` if it is refused.
fn warnings(alloc: Global, text: &str) -> Option<usize> {
    match read(alloc, text.as_bytes(), URL) {
        Ok(described) => Some(count(&described)),
        Err(_) => None,
    }
}

/// Whether a document is refused with a fault of this code at this pointer.
pub(crate) fn is_refused(alloc: Global, text: &str, fault: (MetaCode, &str)) -> bool {
    match read(alloc, text.as_bytes(), URL) {
        Ok(_) => false,
        Err(found) => found.code == fault.0 && found.pointer.as_str() == fault.1,
    }
}

/// Whether the document with the part of a line between the two texts is read with the number of warnings of the line.
fn accepts(alloc: Global, frame: (&str, &str), line: &str) -> Result<bool, AllocError> {
    let Some((part, expected)) = line.split_once(" => ") else {
        return Ok(false);
    };
    let text = document(alloc, frame, part)?;
    let Some(found) = warnings(alloc, text.as_str()) else {
        return Ok(false);
    };
    Ok(expected.parse::<usize>() == Ok(found))
}

/// Whether a fault is that of a line: a code, and a pointer that follows `at`.
pub(crate) fn is_fault(
    alloc: Global,
    at: &str,
    fault: &MetaFault,
    expected: &str,
) -> Result<bool, AllocError> {
    let (code, below) = expected.split_once(' ').unwrap_or((expected, ""));
    let pointer = format!(in alloc; "{at}{below}")?;
    Ok(fault.code.name() == code && fault.pointer.as_str() == pointer.as_str())
}

/// Whether the document with the part of a line between the two texts is refused with the fault of the line. The pointer
/// begins with `at`.
fn refuses(alloc: Global, frame: (&str, &str), at: &str, line: &str) -> Result<bool, AllocError> {
    let Some((part, expected)) = line.split_once(" => ") else {
        return Ok(false);
    };
    let text = document(alloc, frame, part)?;
    match read(alloc, text.as_bytes(), URL) {
        Ok(_) => Ok(false),
        Err(fault) => is_fault(alloc, at, &fault, expected),
    }
}

/// Returns the first line whose document isn't read with the right number of warnings, or `None`. A line is a part of a
/// document, ` => ` and a number. The part is put between the two texts. It returns `AllocError` if there is no memory.
pub fn first_unread(
    alloc: Global,
    frame: (&str, &str),
    lines: &'static str,
) -> Result<Option<&'static str>, AllocError> {
    for line in lines.lines() {
        if !accepts(alloc, frame, line)? {
            return Ok(Some(line));
        }
    }
    Ok(None)
}

/// Returns the first line whose document isn't refused with its fault, or `None`. A line is a part of a document, ` => `, a
/// code, and the pointer below `at` if there is one. The part is put between the two texts. It returns `AllocError` if there
/// is no memory.
pub fn first_unrefused(
    alloc: Global,
    frame: (&str, &str),
    at: &str,
    lines: &'static str,
) -> Result<Option<&'static str>, AllocError> {
    for line in lines.lines() {
        if !refuses(alloc, frame, at, line)? {
            return Ok(Some(line));
        }
    }
    Ok(None)
}
