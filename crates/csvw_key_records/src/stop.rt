//! Why the judging of records stops.

use std::error::Error;
use std::fmt;

/// The rule that a line of records breaks.
#[derive(Clone, Copy, Debug, PartialEq, Eq)]
pub enum LineFault {
    /// The line is not a record: six fields with commas between them and a line feed at the end.
    NoRecord,
    /// The last line has no line feed at its end.
    Cut,
    /// The line is longer than 16 MiB.
    TooLong,
    /// The line comes before the line before it, in byte order.
    Order,
    /// The line is the same as the line before it.
    Twice,
    /// An earlier record has the same primary key and the same row.
    Row,
}

impl LineFault {
    /// Returns what is wrong and what to do, as a sentence without its full stop.
    fn sentence(&self) -> &'static str {
        match self {
            LineFault::NoRecord => {
                "the line is no record: use whole files of records as csvw convert writes them"
            }
            LineFault::Cut =>
                "the last line has no line feed: the file was cut off, write it again",
            LineFault::TooLong => "the line is longer than 16 MiB: use shorter key cells",
            LineFault::Order => "the lines are not in byte order: sort them with LC_ALL=C sort",
            LineFault::Twice => "the line is there twice: use the records of each part once",
            LineFault::Row => {
                "two records of one row have the same primary key: use the records of each part once"
            }
        }
    }
}

impl fmt::Display for LineFault {
    fn fmt<W: fmt::Write>(&self, f: &mut fmt::Formatter<W>) -> fmt::Result {
        f.write_str(self.sentence())
    }
}

/// Why the judging of records stops.
#[derive(Clone, Copy, Debug, PartialEq, Eq)]
pub enum KeyStop {
    /// Memory ran out.
    Memory,
    /// The reader failed, or 2^40 reads were made.
    Read,
    /// The writer failed.
    Write,
    /// A line is wrong.
    Line {
        /// The number of the line, from 1. It stays at the greatest `u64`.
        line: u64,
        /// The rule that it breaks.
        fault: LineFault,
    },
}

impl fmt::Display for KeyStop {
    fn fmt<W: fmt::Write>(&self, f: &mut fmt::Formatter<W>) -> fmt::Result {
        match self {
            KeyStop::Memory => f.write_str("there is no memory: free some, and try again"),
            KeyStop::Read => f.write_str("the records could not be read: try again"),
            KeyStop::Write => f.write_str(
                "the faults could not be written: make room where they go, and try again",
            ),
            KeyStop::Line { line, fault } => write!(f, "line {line}: {fault}"),
        }
    }
}

impl Error for KeyStop {}
