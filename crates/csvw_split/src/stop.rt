//! Why files can't be split.

use csvw_rows::RowStop;
use std::error::Error;
use std::fmt;

/// Why files can't be split.
#[derive(Clone, Copy, Debug, PartialEq, Eq)]
pub enum SplitStop {
    /// Memory ran out.
    Memory,
    /// There is not one file for each table.
    TableCount,
    /// The dialect of a table reads no text. A metadata document without faults has no such dialect.
    Dialect {
        /// The table's number in its group, from 1.
        table: u32,
    },
    /// The pieces don't tile the files: the tables aren't numbered from 1, in order.
    NoPlan,
    /// The reader of a table failed, or 2^40 reads of it were made.
    Read {
        /// The table's number in its group, from 1.
        table: u32,
    },
    /// The file of a table has another length than was said.
    Length {
        /// The table's number in its group, from 1.
        table: u32,
    },
    /// The text of a table can't be read from this row on.
    Rows {
        /// The table's number in its group, from 1.
        table: u32,
        /// The row's number in its source, from 1.
        row: u64,
        /// What is wrong with the text.
        stop: RowStop,
    },
}

impl fmt::Display for SplitStop {
    fn fmt<W: fmt::Write>(&self, f: &mut fmt::Formatter<W>) -> fmt::Result {
        match self {
            SplitStop::Memory => f.write_str("there is no memory: free some, and try again"),
            SplitStop::TableCount => f.write_str("there must be one file for each table"),
            SplitStop::Dialect { table } => {
                write!(f, "table {table}: its dialect reads no text")
            }
            SplitStop::NoPlan => f.write_str("the pieces don't tile the files"),
            SplitStop::Read { table } => write!(f, "table {table}: its file can't be read"),
            SplitStop::Length { table } => {
                write!(f, "table {table}: its file has another length than before")
            }
            SplitStop::Rows { table, row, stop } => {
                write!(f, "table {table}, row {row}: {stop}")
            }
        }
    }
}

impl Error for SplitStop {}
