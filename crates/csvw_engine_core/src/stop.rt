//! The reasons for which a run or a session stops.

ghost use Rattle.std.specs.Prelude.{◌≡◌, IfOk};
ghost use Rattle.csvw_engine_core.specs.Stops.{of_fault, of_row_stop, of_table_stop};

use csvw_columns::TableStop;
use csvw_meta_core::MetaFault;
use csvw_rows::RowStop;
use csvw_triples_rows::SinkFault;
use std::alloc::{AllocError, AllocFailed, Global};
use std::error::Error;
use std::fmt;

/// Why a run or a session stops.
#[derive(Debug, Drop, PartialEq, Eq)]
pub enum Stop {
    /// Memory ran out.
    Memory,
    /// A reader failed in this call, or 2^40 reads were made.
    Read,
    /// A writer failed in this call, or the sink of a session was closed before.
    Write,
    /// The metadata document has this fault.
    Meta(MetaFault),
    /// The number of readers is not the number of tables.
    TableCount,
    /// The text of a table can't be read from this row on.
    Rows {
        /// The table's number in its group, from 1.
        table: u32,
        /// The row's number in its source, from 1.
        row: u64,
        /// What is wrong with the text.
        stop: RowStop,
    },
    /// A table can't be annotated from this row on.
    Table {
        /// The table's number in its group, from 1.
        table: u32,
        /// The row's number in its source, from 1.
        row: u64,
        /// What is wrong with the row or the header.
        stop: TableStop,
    },
    /// There is no table of this number.
    UnknownTable,
    /// The table was ended before, or the session was finished.
    AfterEnd,
    /// A table was not ended yet.
    NotEnded,
    /// The session stopped in an earlier call.
    Failed,
}

impl Stop {
    /// Returns an equal stop. Fails with `AllocError` if memory runs out.
    pub fn clone(&self, alloc: Global) -> Result<Stop, AllocError>
        ensures { IfOk result (λ s. s ≡ self.now) }
    {
        match self {
            Stop::Memory => Ok(Stop::Memory),
            Stop::Read => Ok(Stop::Read),
            Stop::Write => Ok(Stop::Write),
            Stop::Meta(fault) => Ok(Stop::Meta(fault.clone(alloc)?)),
            Stop::TableCount => Ok(Stop::TableCount),
            Stop::Rows { table, row, stop } => {
                Ok(Stop::Rows {
                    table: *table,
                    row: *row,
                    stop: *stop,
                })
            }
            Stop::Table { table, row, stop } => {
                Ok(Stop::Table {
                    table: *table,
                    row: *row,
                    stop: *stop,
                })
            }
            Stop::UnknownTable => Ok(Stop::UnknownTable),
            Stop::AfterEnd => Ok(Stop::AfterEnd),
            Stop::NotEnded => Ok(Stop::NotEnded),
            Stop::Failed => Ok(Stop::Failed),
        }
    }

    /// Makes a stop of the records of a table in this row. `Memory` becomes `Stop::Memory`.
    pub(crate) fn of_row_stop(table: u32, row: u64, stop: RowStop) -> Stop
        ensures { result ≡ of_row_stop table row stop }
    {
        match stop {
            RowStop::Memory => Stop::Memory,
            stop => Stop::Rows { table, row, stop },
        }
    }

    /// Makes a stop of a table from this row on. `Memory` becomes `Stop::Memory`.
    pub(crate) fn of_table_stop(table: u32, row: u64, stop: TableStop) -> Stop
        ensures { result ≡ of_table_stop table row stop }
    {
        match stop {
            TableStop::Memory => Stop::Memory,
            stop => Stop::Table { table, row, stop },
        }
    }

    /// Makes a fault of the sink a stop: `Memory` stays `Memory`, and `Device` and `Closed` become `Write`.
    pub fn of_fault(fault: SinkFault) -> Stop
        ensures { result ≡ of_fault fault }
    {
        match fault {
            SinkFault::Memory => Stop::Memory,
            SinkFault::Device | SinkFault::Closed => Stop::Write,
        }
    }
}

impl From<AllocError> for Stop {
    ghost use Rattle.csvw_engine_core.specs.declared.stop.Stop.TheVariants.{Memory};

    ghost from_gives = { λ _ e. e ≡ Memory };

    fn from(_: AllocError) -> Stop {
        Stop::Memory
    }
}

impl<T: Drop> From<AllocFailed<T>> for Stop {
    ghost use Rattle.csvw_engine_core.specs.declared.stop.Stop.TheVariants.{Memory};

    ghost from_gives = { λ _ e. e ≡ Memory };

    fn from(_: AllocFailed<T>) -> Stop {
        Stop::Memory
    }
}

impl From<SinkFault> for Stop {
    ghost from_gives = { λ fault stop. stop ≡ of_fault fault };

    fn from(fault: SinkFault) -> Stop {
        Stop::of_fault(fault)
    }
}

impl fmt::Display for Stop {
    fn fmt<W: fmt::Write>(&self, f: &mut fmt::Formatter<W>) -> fmt::Result {
        match self {
            Stop::Memory => f.write_str("there is no memory: free some, and try again"),
            Stop::Read => f.write_str("a table could not be read: look at its file, and try again"),
            Stop::Write => f.write_str(
                "the graph or the report could not be written: make room where it goes, and begin anew",
            ),
            Stop::Meta(fault) => write!(f, "{fault}"),
            Stop::TableCount => {
                f.write_str(
                    "there is not one text for each table: give as many as the metadata describes",
                )
            }
            Stop::Rows { table, row, stop } => write!(f, "table {table}, row {row}: {stop}"),
            Stop::Table { table, row, stop } => write!(f, "table {table}, row {row}: {stop}"),
            Stop::UnknownTable => {
                f.write_str(
                    "there is no table of this number: number them from 1 as the metadata does",
                )
            }
            Stop::AfterEnd => {
                f.write_str("the table was ended before: give all its text before its end")
            }
            Stop::NotEnded => f.write_str("not all tables were ended: end each table first"),
            Stop::Failed => f.write_str("the session stopped before: begin a new one"),
        }
    }
}

impl Error for Stop {}
