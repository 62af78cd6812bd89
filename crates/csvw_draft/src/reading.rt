//! Reads the file of a table, once.

use crate::aim::Aim;
use crate::form::{Front, form_of};
use crate::halt::Halt;
use crate::kept::Room;
use crate::table::Table;
use csvw_files::Opener;
use csvw_records::RowStop;
use csvw_rows::Rows;
use csvw_streams::Counted;
use std::alloc::{AllocError, Global};
use std::io::Read;

/// How many bytes one read takes at most, and how many bytes at the start of a file show its dialect.
const PIECE: usize = 65_536;

/// How many rows of all kinds a table may have.
const MAX_ROWS: u64 = 4_000_000_000;

/// A table's number from 1, and what its columns are read for.
#[derive(Clone, Copy)]
pub(crate) struct Place {
    /// The number.
    pub(crate) number: u32,
    /// What its columns are read for.
    pub(crate) aim: Aim,
}

/// Reads until the room is full or the reader ends. Returns how many bytes it read.
fn fill<R: Read>(reader: &mut Counted<R>, room: &mut [u8]) -> Result<usize, Halt> {
    let mut filled = 0;
    for _ in 0..u64::MAX {
        if filled >= room.len() {
            break;
        }
        match reader.read(&mut room[filled..]) {
            Ok(0) => break,
            Ok(n) => filled = usize::saturating_add(filled, n),
            Err(_) => return Err(Halt::Read),
        }
    }
    Ok(filled)
}

/// Gives a piece of a table's text to its reader, or its end if the piece is empty.
fn feed(rows: &mut Rows, piece: &[u8]) -> Result<(), RowStop> {
    if rows.is_ended() {
        Ok(())
    } else if piece.is_empty() {
        rows.end()
    } else {
        rows.feed(piece)
    }
}

/// A table that is being read.
#[derive(Drop)]
struct Reading<'a> {
    /// The table so far.
    table: &'a mut Table,
    /// Its reader of rows.
    rows: &'a mut Rows,
    /// Its number, from 1.
    number: u32,
    /// The room that is left for its texts.
    room: &'a mut Room,
}

impl Reading<'_> {
    /// Takes the rows of a piece of the table's text, or its last rows if the piece is empty.
    fn take(&mut self, piece: &[u8]) -> Result<(), Halt> {
        if let Err(stop) = feed(self.rows, piece) {
            return Err(Halt::of_row_stop(self.number, self.rows.row(), stop));
        }
        for _ in 0..u64::MAX {
            match self.rows.next() {
                Ok(Some(row)) => {
                    if let Err(misfit) = self.table.take(&row, self.room) {
                        return Err(Halt::of_misfit(self.number, row.source(), misfit));
                    }
                }
                Ok(None) => break,
                Err(stop) => {
                    return Err(Halt::of_row_stop(self.number, self.rows.row(), stop));
                }
            }
        }
        Ok(())
    }

    /// Takes all rows of a text whose first piece was read.
    fn take_all<R: Read>(
        &mut self,
        reader: &mut Counted<R>,
        piece: &mut [u8],
        filled: usize,
    ) -> Result<(), Halt> {
        let mut filled = filled;
        for _ in 0..u64::MAX {
            self.take(&piece[..filled.min(piece.len())])?;
            if filled < PIECE {
                break;
            }
            filled = fill(reader, piece)?;
        }
        self.take(&[])
    }
}

/// Reads a table to its end, in pieces.
fn read_pieces<R: Read>(
    alloc: Global,
    reader: &mut Counted<R>,
    piece: &mut [u8],
    place: Place,
    room: &mut Room,
) -> Result<Table, Halt> {
    let filled = fill(reader, piece)?;
    let front = Front {
        bytes: &piece[..filled.min(piece.len())],
        is_whole: filled < PIECE,
    };
    let form = form_of(alloc, front)?;
    let Some(mut rows) = form.rows(alloc, MAX_ROWS)? else {
        return Err(Halt::Memory);
    };
    let mut table = Table::new(alloc, form, place.aim);
    let mut reading = Reading {
        table: &mut table,
        rows: &mut rows,
        number: place.number,
        room,
    };
    reading.take_all(reader, piece, filled)?;
    table.end();
    Ok(table)
}

/// Reads a table to its end.
fn read_table<R: Read>(
    alloc: Global,
    reader: &mut Counted<R>,
    place: Place,
    room: &mut Room,
) -> Result<Table, Halt> {
    let mut buffer = vec![in alloc; 0u8; PIECE]?;
    read_pieces(alloc, reader, buffer.as_mut_slice(), place, room)
}

/// Opens the file at a path and reads the table.
pub(crate) fn read_file<O: Opener>(
    alloc: Global,
    path: &str,
    opener: &mut O,
    place: Place,
    room: &mut Room,
) -> Result<Table, Halt> {
    let Some(reader) = opener.open(path) else {
        return Err(Halt::Read);
    };
    let mut reader = Counted::new(reader);
    let read = read_table(alloc, &mut reader, place, room);
    opener.close(reader);
    read
}
