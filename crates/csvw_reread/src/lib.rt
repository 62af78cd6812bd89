//! What is read a second time to show faults: the rows that they are in.
//!
//! A fault names a place, and nothing of the file. A `Walker` has a page. `GroupFaults` goes through the files of a group
//! with it, and adds each fault with its line, its cell and the rule that it breaks:
//!
//! ```text
//! let faults = GroupFaults { tables, faults: found, repeats: &[] };
//! let mut walker = Walker::new(alloc, Form::Text, Color::Never, Shown::First);
//! faults.show(&mut walker, &Counts::of(alloc, found)?, opener, out)?;
//! ```
//!
//! A `Repeat` says which row has a primary key first that a later row repeats. The walk shows where that row is.
//!
//! `paths` and `paths_in_order` find the file of each table, and `swapped` two tables whose files look swapped. `seek` looks
//! for the row that stops a table.
//!
//! # Promises
//!
//! - Proved: each call is safe and ends, also if a file changed since it was read first.
//! - Tested alone: which lines, rows and files are found, and the texts of the pages.
#![tactic(auto)]

mod file_rows;
mod files;
mod first_rows;
mod group_faults;
mod record;
mod walk;

pub use files::{paths, paths_in_order, swapped};
pub use first_rows::Repeat;
pub use group_faults::GroupFaults;
pub use record::{Seen, seek};
pub use walk::{Shown, Walker};
