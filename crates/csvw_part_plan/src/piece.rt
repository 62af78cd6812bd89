//! `Piece`: the bytes of a table's file that a part reads.

/// The bytes of a table's file that a part reads: a line of a plan.
#[derive(Clone, Copy, Debug, PartialEq, Eq)]
pub struct Piece {
    /// The number of the part, from 1.
    pub part: u32,
    /// The number of the table, from 1.
    pub table: u32,
    /// The place of the first byte in the table's file, from 0. A row begins there.
    pub first_byte: u64,
    /// The number of bytes.
    pub bytes: u64,
    /// The number of rows of the file before the piece, of all kinds: skipped rows and comments count.
    pub rows_before: u64,
    /// The number of data rows of the file before the piece.
    pub data_rows_before: u64,
    /// The number of bytes of the front of the file that has its skipped rows and header rows. If the table has no header row, the
    /// front has the first data row.
    pub header_bytes: u64,
}
