//! `TableStop`: why a table can't be read further.
ghost use Rattle.std.specs.Prelude.{◌≡◌};
ghost use Rattle.csvw_columns_core.specs.TableStops.{name_of};

use std::alloc::{AllocError, AllocFailed};
use std::error::Error;
use std::fmt;

/// Why a table can't be read further.
#[derive(Clone, Copy, Debug, PartialEq, Eq)]
pub enum TableStop {
    /// Memory ran out.
    Memory,
    /// Two columns of the table have one name.
    DuplicateName,
    /// The table has more columns than the limit.
    TooManyColumns,
    /// A row does not have one field for each column that isn't virtual.
    RaggedRow,
}

impl TableStop {
    /// Returns the name of the variant, as the program's lines spell it.
    pub fn name(&self) -> &'static str
        ensures { result.now ≡ name_of self.now }
    {
        match self {
            TableStop::Memory => "Memory",
            TableStop::DuplicateName => "DuplicateName",
            TableStop::TooManyColumns => "TooManyColumns",
            TableStop::RaggedRow => "RaggedRow",
        }
    }

    /// Returns what is wrong and what to do, as a sentence without its full stop.
    fn sentence(&self) -> &'static str {
        match self {
            TableStop::Memory => "there is no memory: free some, and try again",
            TableStop::DuplicateName => {
                "two columns have one name: rename one in the header or in the metadata"
            }
            TableStop::TooManyColumns => {
                "the header has more columns than a table may have: divide the table"
            }
            TableStop::RaggedRow => {
                "the row has not one field for each column: add the fields that are missing, or remove those that are too many"
            }
        }
    }
}

impl fmt::Display for TableStop {
    fn fmt<W: fmt::Write>(&self, f: &mut fmt::Formatter<W>) -> fmt::Result {
        f.write_str(self.sentence())
    }
}

impl Error for TableStop {}

impl From<AllocError> for TableStop {
    ghost use Rattle.csvw_columns_core.specs.declared.table_stop.TableStop.TheVariants.{Memory};

    ghost from_gives = { λ _ e. e ≡ Memory };

    fn from(_: AllocError) -> TableStop {
        TableStop::Memory
    }
}

impl<T: Drop> From<AllocFailed<T>> for TableStop {
    ghost use Rattle.csvw_columns_core.specs.declared.table_stop.TableStop.TheVariants.{Memory};

    ghost from_gives = { λ _ e. e ≡ Memory };

    fn from(_: AllocFailed<T>) -> TableStop {
        TableStop::Memory
    }
}
