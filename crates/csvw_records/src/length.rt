//! The greatest length of a row.

/// The greatest number of bytes of a row without its terminator.
pub const ROW_LIMIT: usize = 1_048_576;
