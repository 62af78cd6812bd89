//! Records of a CSV text: dialects, the grammar of rows, fields and files, and where a text can no longer begin a file.
//!
//! The definitions are for characters. They are in specs/, with the pass over a row that is proved against them.
//!
//! # Promises
//!
//! - `Dialect::check` returns Ok exactly if texts can be read by the dialect (`IsLawful`).
//! - `Dialect::new` returns the defaults (`default_dialect`).
//! - `next_step` returns what a character does in a state of a row (`step_of`). `is_quoted` returns whether a state
//!   is inside quotes.
//! - `RowStop::name` returns the name of the stop (`name_of`).
//!
//! For every lawful dialect, by the laws of `laws`:
//!
//! - `have_one_list`: bytes are one list of rows at most.
//! - `fronts_grow`: the front of bytes that haven't ended begins the front of all bytes that begin with them.
//! - `first_begin` and `first_stay`: rows that come first begin the front, and stay first.
//! - `stops_part`: the place of a stop separates the fronts that begin a file from those that don't.
//! - `files_have_no_stop`: bytes that begin a file, or are one, have no stop.
//! - `record_laws`: the laws of texts, terminators, passes, rows and stops by which csvw_fields and csvw_rows are
//!   proved.
#![tactic(auto)]

mod dialect;
pub mod laws;
mod length;
mod scan;
mod stop;

pub use dialect::{BadDialect, Dialect, LineTerminators, Trim};
pub use length::ROW_LIMIT;
pub use scan::{State, Step, is_quoted, next_step};
pub use stop::RowStop;
