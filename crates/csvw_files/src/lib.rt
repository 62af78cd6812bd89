//! The bytes of a metadata document. The crate hands on the ways to open files of csvw_opener.
//!
//! # Promises
//!
//! - `read_document` returns the bytes of its reader, as far as the limit of a document shows (`IsDocument`). `Read`
//!   comes only if that reader failed (`IsReadStop`).
//! - `read_file` opens a file, reads it and hands its reader back (`ReadsFile`, `ReadsNot`).
//! - `bundle_files` returns a document with the resources that files have (`BundlesFiles`, `BundlesNot`).
//! - Tested alone: `note_unread` writes a line that names a file which can't be read, with the system's error.
#![tactic(auto)]

mod document;
mod file;
mod resources;
mod unread;

pub use csvw_opener::{Colors, FileOpener, Input, Opener, ProgressShown, STANDARD_INPUT};
pub use document::read_document;
pub use file::read_file;
pub use resources::{ResourceFile, bundle_files};
pub use unread::note_unread;
