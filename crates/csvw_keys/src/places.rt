//! The places at which broken keys are reported.
ghost use Rattle.std.specs.Prelude.{◌≡◌};
ghost use Rattle.csvw_keys.specs.Places.{fault_of};

use csvw_annotate::Row;
use csvw_text::{Code, Fault, Kind, Place};

/// Returns the fault of a key in a row. Its place is the row and the first column of the key.
pub(crate) fn fault_of(code: Code, table: u32, columns: &[u32], row: &Row) -> Fault
    ensures { result ≡ fault_of code table columns.now row.now.source }
{
    fault_at(code, table, columns, row.source)
}

/// Returns the same fault, by the number of the row in its source.
pub(crate) fn fault_at(code: Code, table: u32, columns: &[u32], source: u64) -> Fault
    ensures { result ≡ fault_of code table columns.now source }
{
    let column = match columns.first() {
        Some(column) => *column,
        None => 0,
    };
    Fault {
        place: Place {
            table,
            row: source,
            column,
        },
        code,
        kind: Kind::Error,
    }
}
