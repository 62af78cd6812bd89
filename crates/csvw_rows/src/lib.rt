//! Rows of a CSV text, by a dialect, in whatever pieces the text comes.
//!
//! A reader `Rows` takes the bytes of a file with `feed` and `end`, and lends its header rows and data rows with
//! `next`. A row is read once, whatever the pieces. Of a row that isn't complete the reader keeps a draft. Of a skipped
//! row or a comment it keeps how far the row was read. A stop is found from there, too.
//!
//! # Promises
//!
//! For every lawful dialect and every cutting of the bytes into pieces (`Holds`, which `Rows::new`, `feed`, `end` and
//! `next` keep):
//!
//! - `next` returns the rows of the file so far one after the other, each with its source number, its row number and
//!   its fields.
//! - `None` comes only if all rows were given and there is no stop. After the end it comes only if the bytes are a
//!   file.
//! - After `None`, and after a stop other than `Memory`, `row` is the number of complete rows plus one.
//! - A stop other than `Memory` comes after all rows. It is at the shortest front that begins no file, at a byte that
//!   can't continue UTF-8 text, or at the end of bytes that are not a file.
//! - A stop stays. A later call returns it again, and `row` stays the same.
//! - `skip_to` goes on after rows whose bytes weren't fed, as if they had been fed and returned (`SkipsTo`). So one part
//!   of a file can be read alone, with the numbers of the whole.
//! - After `None` a row ends before the bytes that are unread, which `unread_bytes` counts: the law `row_ends`.
//! - The laws `given_first`, `given_first_later`, `given_begin`, `given_begin_later` and `nothing_given` connect the
//!   rows that were given with those of all bytes that begin with the bytes so far.
#![tactic(auto)]

mod breach;
mod ignored_row;
pub mod laws;
mod next;
mod raw_row;
mod rows;
mod source;

pub use csvw_records::{BadDialect, Dialect, LineTerminators, RowStop, Trim};
pub use raw_row::RawRow;
pub use rows::Rows;
