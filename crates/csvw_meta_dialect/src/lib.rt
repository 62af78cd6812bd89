//! The dialect of a table or a group in a metadata document: a lower part of csvw_meta (Metadata Vocabulary for
//! Tabular Data, section 5.9).
//!
//! # Promises
//!
//! - A dialect is read, or a fault in it is reported: `DialectReader` (`dialect`).
//! - Each property of a dialect that is not listed for it is a warning: `DialectReader` (`unlisted`).
//! - A dialect without a fault is lawful, and skips at most 1,024 columns: the law `dialects_fit` (`IsFitDialect`).
#![tactic(auto)]

mod dialect;
mod laws;

pub use dialect::{
    CommentPrefix, DialectFound, DialectReader, Encoding, MAX_HEADER_ROWS, MAX_PREFIX,
    MAX_SKIPPED_COLUMNS, Mark, Terminator, Terminators, TrimReader,
};
pub use laws::dialects_fit;
