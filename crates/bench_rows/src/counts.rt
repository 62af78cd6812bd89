//! Rows, fields and bytes, counted.

/// The number of rows, of their fields, and of the bytes of those. A count stays at the greatest `u64`.
#[derive(Clone, Copy, Debug, PartialEq, Eq)]
pub struct Counts {
    /// The number of rows.
    pub rows: u64,
    /// The number of fields.
    pub fields: u64,
    /// The number of bytes of the fields, without quotes and terminators.
    pub bytes: u64,
}

impl Counts {
    /// Returns the counts of no rows.
    pub(crate) fn new() -> Counts {
        Counts {
            rows: 0,
            fields: 0,
            bytes: 0,
        }
    }

    /// Adds a row.
    pub(crate) fn add_row(&mut self) {
        self.rows = self.rows.saturating_add(1);
    }

    /// Adds a field.
    pub(crate) fn add_field(&mut self, field: &str) {
        self.fields = self.fields.saturating_add(1);
        self.bytes = self.bytes.saturating_add(field.len() as u64);
    }
}
