//! The limits of a group of tables.

/// The greatest number of tables.
pub const TABLE_LIMIT: usize = 64;

/// The greatest number of columns of a table, declared, virtual or found in its header.
pub const COLUMN_LIMIT: usize = 1024;

/// The greatest number of columns that a dialect skips.
pub const SKIP_LIMIT: u32 = 1024;
