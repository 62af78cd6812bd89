//! Why a run stops.

use std::alloc::AllocError;

/// Why a run stops.
#[derive(Clone, Copy, Debug, PartialEq, Eq)]
pub enum Stop {
    /// The command line names no task.
    Usage,
    /// Memory ran out.
    Memory,
    /// Standard input failed.
    Read,
    /// The reader rejected the file.
    Refused,
}

impl Stop {
    /// Returns the line that reports the stop.
    pub(crate) fn told(self) -> &'static str {
        match self {
            Stop::Usage => "rows PIECE DELIMITER <FILE, or csv <FILE",
            Stop::Memory => "Memory",
            Stop::Read => "Read",
            Stop::Refused => "Stopped",
        }
    }
}

impl From<AllocError> for Stop {
    fn from(_: AllocError) -> Stop {
        Stop::Memory
    }
}
