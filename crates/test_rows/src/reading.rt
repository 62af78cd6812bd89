//! The rows that `Rows` reads of a text, written as a line.
use csvw_rows::{Dialect, RawRow, RowStop, Rows};
use std::alloc::{AllocError, Global};
use std::fmt::Write;

/// Returns a reader of at most so many rows, by a dialect. Returns `None` if memory runs out or the dialect isn't
/// lawful.
fn open(alloc: Global, dialect: Result<Dialect, AllocError>, max: u32) -> Option<Rows> {
    let Ok(dialect) = dialect else {
        return None;
    };
    if dialect.check().is_err() {
        return None;
    }
    Rows::new(alloc, dialect, u64::from(max)).ok()
}

/// Adds the bytes. Returns whether they were taken.
fn feed(rows: &mut Rows, piece: &[u8]) -> bool {
    if rows.is_ended() {
        return false;
    }
    rows.feed(piece).is_ok()
}

/// Ends the text. Returns whether that succeeded.
fn end(rows: &mut Rows) -> bool {
    if rows.is_ended() {
        return false;
    }
    rows.end().is_ok()
}

/// Writes a field.
pub(crate) fn write_field(text: &mut String, field: &str) -> Result<(), AllocError> {
    write!(text, " {field:?}")
}

/// Writes a row as its source number, its row number and its fields.
fn write_row(text: &mut String, row: RawRow<'_>) -> Result<(), AllocError> {
    write!(text, "{}/{}", row.source(), row.number())?;
    for i in 0..row.len() {
        write_field(text, row.field(i))?;
    }
    text.push_str("; ")
}

/// Writes a stop, and the number of its row.
pub(crate) fn write_stop(text: &mut String, stop: RowStop, row: u64) -> Result<(), AllocError> {
    write!(text, "{stop:?} {row}; ")
}

/// Writes the next row, or the stop with its row. Returns whether there was a row.
fn write_next(text: &mut String, rows: &mut Rows) -> Result<bool, AllocError> {
    let stop = match rows.next() {
        Ok(Some(row)) => {
            write_row(text, row)?;
            return Ok(true);
        }
        Ok(None) => return Ok(false),
        Err(stop) => stop,
    };
    write_stop(text, stop, rows.row())?;
    Ok(false)
}

/// Writes the rows that are complete now, each as its source number, its row number and its fields, and the stop with
/// its row.
fn write_rows(text: &mut String, rows: &mut Rows) -> Result<(), AllocError> {
    for _ in 0..64 {
        if !write_next(text, rows)? {
            break;
        }
    }
    Ok(())
}

/// The way in which a text is sent to a reader.
#[derive(Clone, Copy)]
pub(crate) enum Way<'a> {
    /// In pieces of so many bytes, up to the first stop. The rows are written after each piece.
    Pieces(&'a [u8], usize),
    /// In two pieces, the first of so many bytes. The rows are written at the end.
    Halves(&'a [u8], usize),
    /// In these pieces. The rows, and a bar, are written after each piece.
    Steps(&'a [&'a [u8]]),
    /// A row with CR after it, between two texts. The rows are written before the last of them, and at the end.
    Row(&'a [u8], &'a [u8], &'a [u8]),
}

fn write_pieces(
    text: &mut String,
    rows: &mut Rows,
    bytes: &[u8],
    len: usize,
) -> Result<(), AllocError> {
    for piece in bytes.chunks(len.max(1)) {
        if !feed(rows, piece) {
            break;
        }
        write_rows(text, rows)?;
    }
    if end(rows) {
        write_rows(text, rows)?;
    }
    Ok(())
}

fn write_halves(
    text: &mut String,
    rows: &mut Rows,
    bytes: &[u8],
    len: usize,
) -> Result<(), AllocError> {
    let (front, behind) = bytes.split_at(len.min(bytes.len()));
    feed(rows, front);
    feed(rows, behind);
    end(rows);
    write_rows(text, rows)
}

fn write_steps(text: &mut String, rows: &mut Rows, pieces: &[&[u8]]) -> Result<(), AllocError> {
    for piece in pieces {
        feed(rows, piece);
        write_rows(text, rows)?;
        text.push_str("| ")?;
    }
    end(rows);
    write_rows(text, rows)
}

fn write_last(text: &mut String, rows: &mut Rows, piece: &[u8]) -> Result<(), AllocError> {
    write_rows(text, rows)?;
    feed(rows, piece);
    end(rows);
    write_rows(text, rows)
}

/// Writes the rows of a text that is sent to a reader in this way.
fn write_way(text: &mut String, rows: &mut Rows, way: Way<'_>) -> Result<(), AllocError> {
    match way {
        Way::Pieces(bytes, len) => write_pieces(text, rows, bytes, len),
        Way::Halves(bytes, len) => write_halves(text, rows, bytes, len),
        Way::Steps(pieces) => write_steps(text, rows, pieces),
        Way::Row(front, row, behind) => {
            feed(rows, front);
            feed(rows, row);
            feed(rows, b"\r");
            write_last(text, rows, behind)
        }
    }
}

/// Returns whether a text that is sent to a reader in this way has the expected rows.
fn rows_give(alloc: Global, rows: &mut Rows, way: Way<'_>, want: &str) -> bool {
    let mut text = String::new(alloc);
    write_way(&mut text, rows, way).is_ok() && text.as_str() == want
}

/// Returns whether a text has the expected rows, by a dialect, with at most so many rows.
pub(crate) fn gives(
    alloc: Global,
    dialect: Result<Dialect, AllocError>,
    max: u32,
    way: Way<'_>,
    want: &str,
) -> bool {
    match open(alloc, dialect, max) {
        Some(mut rows) => rows_give(alloc, &mut rows, way, want),
        None => false,
    }
}
