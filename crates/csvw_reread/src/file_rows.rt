//! The rows of a file that is read a second time, and the lines at which they begin.
ghost use Rattle.std.specs.Prelude.{IfOk, IfSome};
ghost use Rattle.csvw_records.specs.Lawful.{IsLawful};

use csvw_columns::TablePlan;
use csvw_records::{Dialect, Trim};
use csvw_rows::{RawRow, Rows};
use csvw_text::both;
use std::alloc::{AllocError, Global};
use std::io::Read;

/// How many bytes one read takes at most.
const PIECE: usize = 65_536;

/// How many rows of a file are read.
const MAX_ROWS: u64 = 4_000_000_000;

/// The rows of a file, and the room for a piece of it.
#[derive(Drop)]
pub(crate) struct FileRows {
    /// The rows so far.
    pub(crate) rows: Rows,
    /// The room for a piece.
    room: Vec<u8>,
}

/// What a read of a file gave to its rows.
#[derive(Clone, Copy, PartialEq, Eq)]
pub(crate) enum Piece {
    /// Some bytes.
    Fed,
    /// The end of the file.
    Ended,
    /// Nothing, since the rows stop.
    Stopped,
}

impl FileRows {
    /// Begins a file of a table. Returns `None` if its dialect reads no text.
    pub(crate) fn new(alloc: Global, plan: &TablePlan) -> Result<Option<FileRows>, AllocError> {
        let Some(dialect) = whole_dialect(alloc, plan)? else {
            return Ok(None);
        };
        let room = vec![in alloc; 0u8; PIECE];
        let (rows, room) = both(Rows::new(alloc, dialect, MAX_ROWS), room)?;
        Ok(Some(FileRows { rows, room }))
    }

    /// Reads a piece of the file. A failed read ends the file.
    pub(crate) fn read<R: Read>(&mut self, reader: &mut R) -> Piece {
        if self.rows.is_ended() {
            return Piece::Stopped;
        }
        match reader.read(self.room.as_mut_slice()) {
            Ok(n) if n > 0 => {
                match self.rows.feed(&self.room.as_slice()[..n]) {
                    Ok(()) => Piece::Fed,
                    Err(_) => Piece::Stopped,
                }
            }
            _ => {
                match self.rows.end() {
                    Ok(()) => Piece::Ended,
                    Err(_) => Piece::Stopped,
                }
            }
        }
    }
}

/// Counts the lines of a file.
#[derive(Clone, Copy)]
pub(crate) struct LineCount {
    /// The line at which the next row begins, from 1.
    pub(crate) line: u64,
    /// The number of the last row in its source, from 1. It is 0 at the start.
    source: u64,
}

/// Returns how many line breaks the fields of a row have.
fn breaks(row: &RawRow<'_>) -> u64 {
    let mut breaks = 0u64;
    for i in 0..row.len() {
        let found = row
            .field(i)
            .as_bytes()
            .iter()
            .filter(|b| **b == b'\n')
            .count();
        breaks = breaks.saturating_add(found as u64);
    }
    breaks
}

impl LineCount {
    /// Begins at the start of a file.
    pub(crate) fn new() -> LineCount {
        LineCount { line: 1, source: 0 }
    }

    /// Returns the line at which a row begins, and moves behind the row.
    pub(crate) fn pass(&mut self, row: &RawRow<'_>) -> u64 {
        let ignored = row.source().saturating_sub(self.source).saturating_sub(1);
        let begins = self.line.saturating_add(ignored);
        self.line = begins.saturating_add(1).saturating_add(breaks(row));
        self.source = row.source();
        begins
    }
}

/// Returns the dialect by which a file is read a second time. Fields aren't stripped and no column is dropped, so that all
/// line breaks can be counted. Returns `None` if it reads no text.
fn whole_dialect(alloc: Global, plan: &TablePlan) -> Result<Option<Dialect>, AllocError>
    ensures { IfOk result (λ found. IfSome found IsLawful) }
{
    let mut dialect = plan.dialect.clone(alloc)?;
    dialect.trim = Trim::No;
    dialect.skip_columns = 0;
    match dialect.check() {
        Ok(()) => Ok(Some(dialect)),
        Err(_) => Ok(None),
    }
}
