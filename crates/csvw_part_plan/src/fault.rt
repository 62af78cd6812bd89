//! Why a text is no plan.

use std::error::Error;
use std::fmt;

/// The rule that a line of a plan breaks.
#[derive(Clone, Copy, Debug, PartialEq, Eq)]
pub enum LineFault {
    /// The first line is not the heading.
    Heading,
    /// There is no piece.
    NoPiece,
    /// The line is not seven numbers with commas between them and a line feed at the end. A number has no zeros in front.
    Numbers,
    /// The part is neither that of the line before nor the next one. A table has one piece in a part, and part 1 comes first.
    Part,
    /// The table is neither that of the line before nor the next one. Table 1 comes first.
    Table,
    /// The first piece of a table doesn't begin at byte 0 of its file. Or a later one doesn't begin where the one before it ends, or
    /// begins at byte 0.
    FirstByte,
    /// The piece ends after the greatest place of a byte.
    LastByte,
    /// A count of rows is smaller than in the piece before, or isn't 0 at byte 0 of a file.
    Rows,
    /// The header's bytes aren't those of the other pieces of the table.
    HeaderBytes,
}

impl LineFault {
    /// Returns what is wrong, as a sentence without its full stop.
    fn sentence(&self) -> &'static str {
        match self {
            LineFault::Heading => {
                "the heading must be part,table,first_byte,bytes,rows_before,data_rows_before,header_bytes"
            }
            LineFault::NoPiece => "the plan has no piece",
            LineFault::Numbers => {
                "a piece must be seven numbers with commas between them and a line feed at the end"
            }
            LineFault::Part => {
                "part must be that of the line before or the next one, from 1; a table has one piece in a part"
            }
            LineFault::Table => "table must be that of the line before or the next one, from 1",
            LineFault::FirstByte => {
                "first_byte must be 0 for the first piece of a table; for a later one where the piece before it ends, and not 0"
            }
            LineFault::LastByte => "first_byte and bytes together must be less than 2^64",
            LineFault::Rows => {
                "rows_before and data_rows_before must not fall, and are 0 for the first piece of a table"
            }
            LineFault::HeaderBytes => "header_bytes must be the same in all pieces of a table",
        }
    }
}

impl fmt::Display for LineFault {
    fn fmt<W: fmt::Write>(&self, f: &mut fmt::Formatter<W>) -> fmt::Result {
        f.write_str(self.sentence())
    }
}

/// Why a text is no plan.
#[derive(Clone, Copy, Debug, PartialEq, Eq)]
pub enum PlanFault {
    /// Memory ran out.
    Memory,
    /// A line is wrong.
    Line {
        /// The number of the line, from 1. The heading is line 1.
        line: u64,
        /// The rule that it breaks.
        fault: LineFault,
    },
}

impl fmt::Display for PlanFault {
    fn fmt<W: fmt::Write>(&self, f: &mut fmt::Formatter<W>) -> fmt::Result {
        match self {
            PlanFault::Memory => f.write_str("there is no memory: free some, and try again"),
            PlanFault::Line { line, fault } => write!(f, "line {line}: {fault}"),
        }
    }
}

impl Error for PlanFault {}
