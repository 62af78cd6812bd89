//! A text that is cut where a row ends: its rows are those of the front and then those of the rest.
//!
//! So a long table can be read in parts. A reader of the rest needs two counts of the front: its rows of all kinds, and
//! those of them that remain. It needs nothing else of the front.
//!
//! # Promises
//!
//! - The rows of the whole text are those of the front, and then those of the rest. The text is a file exactly if
//!   the rest is the rest of one (`rows_of_parts`).
//! - A U+FEFF at the start of the rest is a character of its first row.
//! - The header rows and data rows are those of the front, and then those of the rest. Source numbers and row numbers
//!   go on by the two counts (`numbers_go_on`).
#![tactic(auto)]

pub mod laws;
