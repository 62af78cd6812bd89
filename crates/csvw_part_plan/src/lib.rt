//! Plans of parts: which bytes of which table's file each part of a run reads.
//!
//! ```text
//! part,table,first_byte,bytes,rows_before,data_rows_before,header_bytes
//! 1,1,0,41,0,0,5
//! 1,2,0,130,0,0,12
//! 2,2,130,97,9,8,12
//! ```
//!
//! Part 1 reads the whole file of table 1 and the first 130 bytes of that of table 2. Part 2 reads its rest, after 9 rows, 8 of which
//! are data rows.
//!
//! # Promises
//!
//! - `write_plan` sends exactly the text of a plan: the heading and a line for each piece (`plan_text`).
//! - `read_plan` returns exactly the pieces whose text it reads, and only if they tile the files (`Tiles`): tables, parts and bytes go
//!   on from 1, 1 and 0 without gaps, and counts of rows don't fall. Only the first piece of a table begins at byte 0.
//! - It refuses a text at its first wrong line, with the rule that is broken there (`IsRefused`). Such a text is no plan: the law
//!   `refused_is_no_plan`.
//! - `fault_after` returns the first rule that a piece breaks after those before it. Pieces that tile fronts of files, and one more
//!   that breaks no rule, tile fronts of files (`TileFront`): the law `tiling_goes_on`.
#![tactic(auto)]

mod digits;
mod fault;
pub mod laws;
mod line;
mod order;
mod parts;
mod piece;
mod reading;
mod writing;

pub use digits::{number, parted};
pub use fault::{LineFault, PlanFault};
pub use order::fault_after;
pub use parts::{file_length, next_piece, part_count, pieces_of};
pub use piece::Piece;
pub use reading::read_plan;
pub use writing::write_plan;
