//! Why a text is no report.

use std::alloc::AllocError;
use std::error::Error;
use std::fmt;

/// Why a text is no report.
#[derive(Clone, Copy, Debug, PartialEq, Eq)]
pub enum ReportFault {
    /// Memory ran out.
    Memory,
    /// The line of this number, from 1, is not that of a fault.
    Line(u64),
}

impl From<AllocError> for ReportFault {
    ghost use Rattle.std.specs.Prelude.{◌≡◌};
    ghost use Rattle.csvw_reports.specs.declared.fault.ReportFault.TheVariants as fault;

    ghost from_gives = { λ _ e. e ≡ fault.Memory };

    fn from(_: AllocError) -> ReportFault {
        ReportFault::Memory
    }
}

impl fmt::Display for ReportFault {
    fn fmt<W: fmt::Write>(&self, f: &mut fmt::Formatter<W>) -> fmt::Result {
        match self {
            ReportFault::Memory => f.write_str("there is no memory: free some, and try again"),
            ReportFault::Line(1) => f.write_str("line 1 is not the heading of a report"),
            ReportFault::Line(line) => write!(f, "line {line} is not the line of a fault"),
        }
    }
}

impl Error for ReportFault {}
