//! Texts, paths and pointers in lines: control characters are shown, and long ones are cut.

use crate::shown::CellShown;
use std::alloc::{AllocError, Global};
use unicode_width::UnicodeWidthChar;

/// How many characters of a text are shown. The others are left out.
const SHOWN_CHARACTERS: usize = 60;

/// How many characters of a path, a URL or a JSON Pointer are shown. The others are left out.
const LOCATION_CHARACTERS: usize = 1_000;

/// How many cells are shown before a wrong cell, and how many from it on.
const NEIGHBOURS: usize = 4;

/// Adds a character. A control character is written as `\u` and four hexadecimal digits.
fn push_shown(line: &mut String, c: char) -> Result<(), AllocError> {
    if c.is_control() {
        let code = c as u32;
        write!(line, "\\u{code:04X}")
    } else {
        line.push(c)
    }
}

/// Whether a text has printable characters of ASCII alone. Each of them is shown as it is, in one column of a terminal.
fn is_plain(text: &str) -> bool {
    text.as_bytes().iter().all(|b| matches!(*b, b' '..=b'~'))
}

/// Adds the first characters of a text, and an ellipsis if there are more than so many.
fn push_cut(line: &mut String, text: &str, most: usize) -> Result<(), AllocError> {
    if text.len() <= most && is_plain(text) {
        line.push_str(text)
    } else {
        push_characters(line, text, most)
    }
}

/// Adds a text as `push_cut` does, character by character.
fn push_characters(line: &mut String, text: &str, most: usize) -> Result<(), AllocError> {
    let mut left = most;
    for c in text.chars() {
        if left == 0 {
            return line.push('…');
        }
        left -= 1;
        push_shown(line, c)?;
    }
    Ok(())
}

/// Adds the first 60 characters of a text, and an ellipsis if there are more. A control character is written as `\u` and
/// four hexadecimal digits. Returns `AllocError` if memory runs out.
pub fn push_text(line: &mut String, text: &str) -> Result<(), AllocError> {
    push_cut(line, text, SHOWN_CHARACTERS)
}

/// Adds a path, a URL or a JSON Pointer: its first 1,000 characters, and an ellipsis if there are more. A control character
/// is written as `\u` and four hexadecimal digits. Returns `AllocError` if memory runs out.
pub fn push_location(line: &mut String, location: &str) -> Result<(), AllocError> {
    push_cut(line, location, LOCATION_CHARACTERS)
}

/// Adds a text in quotes, as `push_text` does. Returns `AllocError` if memory runs out.
pub fn push_quoted(line: &mut String, text: &str) -> Result<(), AllocError> {
    line.push('"')?;
    push_text(line, text)?;
    line.push('"')
}

/// Adds the number of a column. It adds nothing for 0, the number of no column.
pub(crate) fn push_column(line: &mut String, number: u32) -> Result<(), AllocError> {
    match number {
        0 => Ok(()),
        _ => write!(line, ", column {number}"),
    }
}

/// Returns how many columns of a terminal a line takes.
fn width(line: &str) -> usize {
    if is_plain(line) {
        return line.len();
    }
    let mut width = 0usize;
    for c in line.chars() {
        width = width.saturating_add(c.width().unwrap_or(0));
    }
    width
}

/// Where a field is in a line: how far from the start of the line, and how wide. Both count the columns of a terminal.
#[derive(Clone, Copy)]
pub(crate) struct Mark {
    /// How many columns are before the field.
    pub(crate) begin: usize,
    /// How many columns the field takes.
    pub(crate) wide: usize,
}

/// The fields of a row around a cell, as they are shown.
#[derive(Drop)]
pub(crate) struct RowShown {
    /// What is before the cell.
    pub(crate) before: String,
    /// The cell.
    pub(crate) cell: String,
    /// What is after the cell.
    pub(crate) after: String,
}

impl RowShown {
    /// Makes a row of no fields.
    pub(crate) fn new(alloc: Global) -> RowShown {
        RowShown {
            before: String::new(alloc),
            cell: String::new(alloc),
            after: String::new(alloc),
        }
    }

    /// Takes the fields of a row around a cell in place of those before. Their room is used again. Returns `AllocError` if
    /// memory runs out.
    pub(crate) fn refill(&mut self, cell: &CellShown<'_>) -> Result<(), AllocError> {
        self.before.clear();
        self.cell.clear();
        self.after.clear();
        push_fields(self, cell)
    }

    /// Returns where the cell is, if the row begins a line after so many columns.
    pub(crate) fn mark(&self, indent: usize) -> Mark {
        Mark {
            begin: width(self.before.as_str()).saturating_add(indent),
            wide: width(self.cell.as_str()),
        }
    }
}

/// Adds the field at a place of a row: to what is before the cell, to the cell, or to what is after it.
fn push_field(
    shown: &mut RowShown,
    cell: &CellShown<'_>,
    place: usize,
    field: &str,
) -> Result<(), AllocError> {
    if place < cell.place {
        push_text(&mut shown.before, field)?;
        push_shown(&mut shown.before, cell.delimiter)
    } else if place == cell.place {
        push_text(&mut shown.cell, field)
    } else {
        push_shown(&mut shown.after, cell.delimiter)?;
        push_text(&mut shown.after, field)
    }
}

/// Adds the fields of a row around a cell.
fn push_fields(shown: &mut RowShown, cell: &CellShown<'_>) -> Result<(), AllocError> {
    let first = cell.place.saturating_sub(NEIGHBOURS);
    if first > 0 {
        shown.before.push('…')?;
    }
    for i in first..cell.row.len().min(cell.place.saturating_add(NEIGHBOURS)) {
        push_field(shown, cell, i, cell.row.field(i))?;
    }
    Ok(())
}
