//! What helps a person with a fault or a stop: the rule that it breaks, where it is, and what was meant.
//!
//! - `push_rule` writes the rule of a column or of a key, with its values. `push_other_format` writes the format in which the text
//!   of a cell is a value, if it is none of its column's datatype. `push_no_order` writes why a value without an order breaks a bound.
//! - `place_of` returns the line and the column of a value of a document, by its JSON Pointer. `text_at` returns
//!   its text.
//! - `Scan` walks through the bytes of a document, and `Lines` counts its lines.
//! - `push_disguise` and `dialect_hint` say what a file is by its first bytes, if it can't be read as the table says.
//!
//! The crate reads no files. csvw_check_core reads them, and shows a page with these words:
//!
//! ```text
//! let mut rule = String::new(alloc);
//! push_rule(&mut rule, &table, &fault)?;
//! ```
//!
//! # Promises
//!
//! - Proved: each call is safe and ends, for all bytes of a document or a file.
//! - Tested alone: the texts of the rules and hints.
#![tactic(auto)]

mod bound;
mod disguise;
mod endings;
mod json_place;
mod key_rule;
mod no_order;
mod other_date;
mod other_day;
mod other_format;
mod other_number;
mod other_time;
mod rule;
mod tables;

pub use disguise::{dialect_hint, push_disguise};
pub use json_place::{Lines, Scan, line_and_column, place_of, text_at};
pub use no_order::push_no_order;
pub use other_format::push_other_format;
pub use rule::push_rule;
pub use tables::{Group, TableAt, Tables, field_of, name_of};
