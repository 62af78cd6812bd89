//! Why a part stops.

use csvw_engine_core::Stop;
use csvw_triples_core::SinkFault;
use std::alloc::AllocError;
use std::fmt;

/// What of a file the plan of the parts doesn't fit.
#[derive(Clone, Copy, Debug, PartialEq, Eq)]
pub enum Mismatch {
    /// The file is shorter than the plan says.
    ShortFile,
    /// The file is longer than the plan says.
    LongFile,
    /// No row ends where the piece ends, or the numbers of rows are others.
    Rows,
}

impl Mismatch {
    /// Returns what is different, as a sentence without its full stop.
    fn sentence(&self) -> &'static str {
        match self {
            Mismatch::ShortFile => "the file is shorter than the plan says",
            Mismatch::LongFile => "the file is longer than the plan says",
            Mismatch::Rows =>
                "the rows don't end where the plan says, or there are other numbers of them",
        }
    }
}

/// Where a plan doesn't fit a file.
#[derive(Clone, Copy, Debug, PartialEq, Eq)]
pub struct Differs {
    /// The number of the table, from 1.
    pub table: u32,
    /// The number of the part, from 1.
    pub part: u32,
    /// What is different.
    pub what: Mismatch,
}

impl fmt::Display for Differs {
    fn fmt<W: fmt::Write>(&self, f: &mut fmt::Formatter<W>) -> fmt::Result {
        write!(
            f,
            "table {} part {}: {}",
            self.table,
            self.part,
            self.what.sentence()
        )
    }
}

/// Why a part stops.
#[derive(Debug, Drop, PartialEq, Eq)]
pub enum PartStop {
    /// A table, a stream or memory stops it.
    Stop(Stop),
    /// The file of a table can't be opened or read.
    Unread {
        /// The number of the table, from 1.
        table: u32,
    },
    /// The plan isn't one of the files.
    Plan(Differs),
}

impl From<Stop> for PartStop {
    fn from(stop: Stop) -> PartStop {
        PartStop::Stop(stop)
    }
}

impl From<AllocError> for PartStop {
    fn from(_: AllocError) -> PartStop {
        PartStop::Stop(Stop::Memory)
    }
}

impl From<SinkFault> for PartStop {
    fn from(fault: SinkFault) -> PartStop {
        PartStop::Stop(Stop::from(fault))
    }
}
