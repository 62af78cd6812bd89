//! Cuts the files of tables into parts of about equally many bytes, at ends of rows.
//!
//! Each file is read once, as records alone. The pieces of the parts are those of a plan (csvw_part_plan).
//!
//! # Promises
//!
//! - A row of the file ends where a piece begins, and the counts of the piece are those of the rows before it (`AreCuts`).
//! - The pieces tile the files (`Tiles`), so `read_plan` of csvw_part_plan accepts their plan. A piece that breaks a rule of plans
//!   is refused with `NoPlan`.
//! - There is a file for each table, the tables are numbered from 1, and the last piece of a table ends where its file ends
//!   (`AreWholeFiles`).
//! - The header bytes of a piece are whole rows before it, with the skipped rows and the header rows. If there is no header row, a
//!   data row is among them (`HasFront`).
//! - A file whose rows stop, or that has another length than was said, is refused with its table.
//! - Only tests check that the parts have about equally many bytes, and that none is empty.
#![tactic(auto)]

mod cuts;
mod file;
mod pieces;
mod shares;
mod splitting;
mod stop;

pub use splitting::{TableFile, split};
pub use stop::SplitStop;
