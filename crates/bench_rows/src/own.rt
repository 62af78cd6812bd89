//! A file read by `Rows`.
ghost use Rattle.std.specs.Prelude.{IfOk};
ghost use Rattle.csvw_records.specs.Lawful.{IsLawful};

use crate::counts::Counts;
use crate::stop::Stop;
use csvw_rows::{Dialect, RawRow, RowStop, Rows};
use std::alloc::Global;
use std::io::Read;

/// The greatest number of rows of all kinds.
const MAX_ROWS: u64 = 1_099_511_627_776;

/// Returns the stop for a stop of the rows.
fn stop_of(stop: RowStop) -> Stop {
    match stop {
        RowStop::Memory => Stop::Memory,
        _ => Stop::Refused,
    }
}

fn count_row(row: &RawRow, counts: &mut Counts) {
    counts.add_row();
    for i in 0..row.len() {
        counts.add_field(row.field(i));
    }
}

/// Counts the next row, if one is complete. Returns whether one was.
fn count_next(rows: &mut Rows, counts: &mut Counts) -> Result<bool, Stop> {
    match rows.next() {
        Ok(Some(row)) => {
            count_row(&row, counts);
            Ok(true)
        }
        Ok(None) => Ok(false),
        Err(stop) => Err(stop_of(stop)),
    }
}

/// Counts each row that is complete.
fn count_rows(rows: &mut Rows, counts: &mut Counts) -> Result<(), Stop> {
    for _rows in 0..MAX_ROWS {
        if !count_next(rows, counts)? {
            break;
        }
    }
    Ok(())
}

/// Adds a piece to the reader, or ends the text if the piece is empty.
fn give(rows: &mut Rows, piece: &[u8]) -> Result<(), Stop> {
    if rows.is_ended() {
        return Err(Stop::Refused);
    }
    let given = if piece.is_empty() {
        rows.end()
    } else {
        rows.feed(piece)
    };
    match given {
        Ok(()) => Ok(()),
        Err(stop) => Err(stop_of(stop)),
    }
}

/// Returns the default dialect with this delimiter, or `Usage` if no text can be read by it.
fn delimited(alloc: Global, delimiter: char) -> Result<Dialect, Stop>
    ensures { IfOk result IsLawful }
{
    let mut dialect = Dialect::new(alloc)?;
    dialect.delimiter = delimiter;
    match dialect.check() {
        Ok(()) => Ok(dialect),
        Err(_) => Err(Stop::Usage),
    }
}

fn reader(alloc: Global, delimiter: char) -> Result<Rows, Stop> {
    let dialect = delimited(alloc, delimiter)?;
    Ok(Rows::new(alloc, dialect, MAX_ROWS)?)
}

/// Returns the bytes that were read.
fn read_piece<'a, R: Read>(input: &mut R, part: &'a mut [u8]) -> Result<&'a [u8], Stop> {
    match input.read(part) {
        Ok(n) => Ok(&part[..n]),
        Err(_) => Err(Stop::Read),
    }
}

/// Counts the rows of a file. `Rows` receives at most so many bytes at once.
///
/// Returns `Usage` if that number is 0 or if no text can be read by the delimiter, and `Refused` if the file isn't
/// one by the default dialect with that delimiter. Returns `Read` if standard input fails, and `Memory` if memory
/// runs out.
pub(crate) fn count_file<R: Read>(
    alloc: Global,
    delimiter: char,
    piece: usize,
    input: &mut R,
) -> Result<Counts, Stop> {
    if piece == 0 {
        return Err(Stop::Usage);
    }
    let mut counts = Counts::new();
    let mut rows = reader(alloc, delimiter)?;
    let mut buffer = vec![in alloc; 0u8; piece]?;
    for _reads in 0..u64::MAX {
        let piece = read_piece(input, buffer.as_mut_slice())?;
        give(&mut rows, piece)?;
        count_rows(&mut rows, &mut counts)?;
        if piece.is_empty() {
            break;
        }
    }
    Ok(counts)
}
