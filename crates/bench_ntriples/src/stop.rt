//! The reasons for which a run stops.

use csvw_ntriples::NtFault;
use csvw_triples_core::SinkFault;
use std::alloc::AllocError;

/// Why a run stops.
#[derive(Clone, Copy, Debug, PartialEq, Eq)]
pub(crate) enum Stop {
    /// The command line is not one of those that the program has.
    Usage,
    /// Memory ran out.
    Memory,
    /// Standard input failed.
    Read,
    /// Standard output failed.
    Write,
    /// The document is not N-Triples.
    Syntax,
    /// A triple was read that `NtSink` never writes. An IRI has an escaped character that can't be in an IRI as it
    /// is, or a label is not that of a note.
    NotWritable,
}

impl Stop {
    /// Returns the exit status and the line for standard error.
    pub(crate) fn told(self) -> (u8, &'static str) {
        match self {
            Stop::Syntax => (1, "Syntax"),
            Stop::Usage => (
                2,
                "count <DOCUMENT, each <DOCUMENT, copy <DOCUMENT, or write ROUNDS <DOCUMENT",
            ),
            Stop::NotWritable => (3, "NotWritable"),
            Stop::Memory => (4, "Memory"),
            Stop::Read => (4, "Read"),
            Stop::Write => (4, "Write"),
        }
    }
}

impl From<AllocError> for Stop {
    fn from(_: AllocError) -> Stop {
        Stop::Memory
    }
}

impl From<NtFault> for Stop {
    fn from(fault: NtFault) -> Stop {
        match fault {
            NtFault::Memory => Stop::Memory,
            NtFault::Syntax => Stop::Syntax,
        }
    }
}

impl From<SinkFault> for Stop {
    fn from(fault: SinkFault) -> Stop {
        match fault {
            SinkFault::Memory => Stop::Memory,
            SinkFault::Device | SinkFault::Closed => Stop::Write,
        }
    }
}
