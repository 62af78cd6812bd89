//! The reader of N-Triples documents.

mod byte_line;
mod character;
mod document;
mod enclosed;
mod label;
mod language;
mod literal;
mod runs;
mod terminal;
mod triple_line;

pub use document::{NtReader, read};
