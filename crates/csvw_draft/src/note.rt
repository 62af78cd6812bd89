//! The lines that say what a draft left off, and what the profile w3c has for a column.

use crate::column::Column;
use crate::urls::last_part;
use csvw_streams::{Counted, LineCut, LineRoom, push_parts, push_shown, write_out};
use std::alloc::{AllocError, Global};
use std::io::Write;

/// Adds the name of a column: its title or, if it has none, its number.
fn push_column<V: Write>(
    err: &mut Counted<V>,
    room: &mut LineRoom,
    title: &str,
    number: &str,
) -> Result<(), LineCut> {
    if title.is_empty() {
        return push_parts(err, room, &[": column ", number]);
    }
    push_parts(err, room, &[": column \""])?;
    push_shown(err, room, title)?;
    push_parts(err, room, &["\""])
}

/// A line on a column.
#[derive(Clone, Copy)]
struct Line<'a> {
    /// The path of the file.
    path: &'a str,
    /// The title of the column.
    title: &'a str,
    /// The number of the column, from 1.
    number: &'a str,
    /// What is said of it.
    parts: &'a [&'a str],
}

/// Sends a line.
fn send_line<V: Write>(err: &mut Counted<V>, line: Line<'_>) -> Result<(), LineCut> {
    let mut room = LineRoom::new();
    push_parts(err, &mut room, &["csvw: "])?;
    push_shown(err, &mut room, last_part(line.path))?;
    push_column(err, &mut room, line.title, line.number)?;
    push_parts(err, &mut room, line.parts)?;
    match write_out(err, room.as_slice()) {
        Ok(()) => Ok(()),
        Err(_) => Err(LineCut),
    }
}

/// Sends a line on the column of this index, which is from 0.
fn note_column<V: Write>(
    alloc: Global,
    err: &mut Counted<V>,
    path: &str,
    (i, column): (usize, &Column),
    parts: &[&str],
) -> Result<(), AllocError> {
    let number = i.saturating_add(1).to_string(alloc)?;
    let line = Line {
        path,
        title: column.title.as_str(),
        number: number.as_str(),
        parts,
    };
    let _ = send_line(err, line);
    Ok(())
}

/// Says of which columns of a table not all values were kept. It goes on if a line can't be sent.
pub(crate) fn note_limits<V: Write>(
    alloc: Global,
    path: &str,
    columns: &[Column],
    err: &mut Counted<V>,
) -> Result<(), AllocError> {
    for (i, column) in columns.iter().enumerate() {
        if let Some(limit) = column.kept.limit() {
            let parts = [": ", limit.text(), ", so no key is looked for\n"];
            note_column(alloc, err, path, (i, column), &parts)?;
        }
    }
    Ok(())
}

/// Says for which columns of a table the profile w3c has another datatype, if the document isn't of that profile. It goes on if a line
/// can't be sent.
pub(crate) fn note_profile<V: Write>(
    alloc: Global,
    path: &str,
    columns: &[Column],
    err: &mut Counted<V>,
) -> Result<(), AllocError> {
    for (i, column) in columns.iter().enumerate() {
        if let Some(kind) = column.kind_of_w3c() {
            let parts = [": a string, and a ", kind.name(), " with `--profile w3c`\n"];
            note_column(alloc, err, path, (i, column), &parts)?;
        }
    }
    Ok(())
}
