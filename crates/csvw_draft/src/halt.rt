//! Why a draft ends before its document is written.
ghost use Rattle.std.specs.Prelude.{◌≡◌, ◌≢◌};

use crate::table::Misfit;
use csvw_columns::TableStop;
use csvw_engine_core::Stop;
use csvw_meta::{MetaCode, MetaFault};
use csvw_records::RowStop;
use std::alloc::{AllocError, AllocFailed};

/// Why a draft ends before its document is written. No writer can be the reason.
#[derive(Drop)]
pub(crate) enum Halt {
    /// Memory ran out.
    Memory,
    /// A file can't be opened or read.
    Read,
    /// The text of a table can't be read from this row on.
    Rows {
        /// The table's number, from 1.
        table: u32,
        /// The row's number in its source, from 1.
        row: u64,
        /// What is wrong with the text.
        stop: RowStop,
    },
    /// A row has no place in the table.
    Table {
        /// The table's number, from 1.
        table: u32,
        /// The row's number in its source, from 1.
        row: u64,
        /// What is wrong with the row.
        stop: TableStop,
    },
    /// The document would have this fault.
    Meta(MetaFault),
}

impl Halt {
    /// Makes a halt of a stop of the rows of a table. `Memory` stays `Memory`.
    pub(crate) fn of_row_stop(table: u32, row: u64, stop: RowStop) -> Halt {
        match stop {
            RowStop::Memory => Halt::Memory,
            stop => Halt::Rows { table, row, stop },
        }
    }

    /// Makes a halt of a row that doesn't fit its table.
    pub(crate) fn of_misfit(table: u32, row: u64, misfit: Misfit) -> Halt {
        match misfit {
            Misfit::Memory => Halt::Memory,
            Misfit::Ragged => Halt::Table {
                table,
                row,
                stop: TableStop::RaggedRow,
            },
            Misfit::TooManyColumns => Halt::Table {
                table,
                row,
                stop: TableStop::TooManyColumns,
            },
        }
    }

    /// Makes a halt of a fault of the document. `Memory` stays `Memory`.
    pub(crate) fn of_fault(fault: MetaFault) -> Halt {
        match fault.code {
            MetaCode::Memory => Halt::Memory,
            _ => Halt::Meta(fault),
        }
    }

    /// Returns the stop of a run for the same reason. It is never `Write`.
    pub(crate) fn stop(self) -> Stop
        ensures { result ≢ Stop.Write }
    {
        match self {
            Halt::Memory => Stop::Memory,
            Halt::Read => Stop::Read,
            Halt::Rows { table, row, stop } => Stop::Rows { table, row, stop },
            Halt::Table { table, row, stop } => Stop::Table { table, row, stop },
            Halt::Meta(fault) => Stop::Meta(fault),
        }
    }
}

impl From<AllocError> for Halt {
    fn from(_: AllocError) -> Halt {
        Halt::Memory
    }
}

impl<T: Drop> From<AllocFailed<T>> for Halt {
    fn from(_: AllocFailed<T>) -> Halt {
        Halt::Memory
    }
}
