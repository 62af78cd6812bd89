//! The record that stops a table, looked for in its file.

use crate::file_rows::{FileRows, LineCount, Piece};
use csvw_columns::TablePlan;
use csvw_opener::Opener;
use csvw_rows::Rows;
use csvw_streams::Counted;
use std::alloc::{AllocError, Global};
use std::io::Read;

/// What is seen of a record that stops a table.
#[derive(Clone, Copy)]
pub struct Seen {
    /// The line of the file at which it begins, from 1.
    pub line: u64,
    /// The number of its fields, if they can be read.
    pub fields: Option<usize>,
}

/// Looks for a record among the complete rows that there are. Returns `None` if the text goes on before it.
fn seek_in(rows: &mut Rows, lines: &mut LineCount, row: u64) -> Option<Seen> {
    for _ in 0..u64::MAX {
        match rows.next() {
            Ok(Some(raw)) => {
                let line = lines.pass(&raw);
                if raw.source() >= row {
                    return Some(Seen {
                        line,
                        fields: Some(raw.len()),
                    });
                }
            }
            Ok(None) => return None,
            Err(_) => {
                return Some(Seen {
                    line: lines.line,
                    fields: None,
                });
            }
        }
    }
    None
}

/// Looks for a record in a file. Returns `None` if the file ends before it.
fn seek_through<R: Read>(
    alloc: Global,
    plan: &TablePlan,
    reader: &mut R,
    row: u64,
) -> Result<Option<Seen>, AllocError> {
    let Some(mut file) = FileRows::new(alloc, plan)? else {
        return Ok(None);
    };
    let mut lines = LineCount::new();
    let mut seen = None;
    for _ in 0..u64::MAX {
        let piece = file.read(reader);
        if piece != Piece::Stopped {
            seen = seek_in(&mut file.rows, &mut lines, row);
        }
        if piece != Piece::Fed || seen.is_some() {
            break;
        }
    }
    Ok(seen)
}

/// Returns what is seen of a record of a table, if its file can be read again. Returns `AllocError` if memory runs out.
pub fn seek<O: Opener>(
    alloc: Global,
    plan: &TablePlan,
    path: &str,
    row: u64,
    opener: &mut O,
) -> Result<Option<Seen>, AllocError> {
    let Some(reader) = opener.open(path) else {
        return Ok(None);
    };
    let mut reader = Counted::new(reader);
    let seen = seek_through(alloc, plan, &mut reader, row);
    opener.close(reader);
    seen
}
