//! The numbers of a row.

/// The numbers of a row (Model for Tabular Data, section 4.4).
#[derive(Clone, Copy, Debug, PartialEq, Eq)]
pub struct RowNumbers {
    /// The number of the row among the data rows, from 1.
    pub number: u64,
    /// The number of the row in its source, from 1. Skipped rows, comments, blank rows and header rows count.
    pub source: u64,
}
