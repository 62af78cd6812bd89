//! Why the writing of a report stops.

use std::error::Error;
use std::fmt;

/// Why the writing of a report stops.
#[derive(Clone, Copy, Debug, PartialEq, Eq)]
pub enum ReportStop {
    /// Memory ran out.
    Memory,
    /// The writer failed in this call.
    Write,
}

impl ReportStop {
    /// Returns what is wrong and what to do, as a sentence without its full stop.
    fn sentence(&self) -> &'static str {
        match self {
            ReportStop::Memory => "there is no memory: free some, and try again",
            ReportStop::Write => {
                "the report could not be written: make room where it goes, and try again"
            }
        }
    }
}

impl fmt::Display for ReportStop {
    fn fmt<W: fmt::Write>(&self, f: &mut fmt::Formatter<W>) -> fmt::Result {
        f.write_str(self.sentence())
    }
}

impl Error for ReportStop {}
