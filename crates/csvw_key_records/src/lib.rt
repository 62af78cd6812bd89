//! Records of rows and keys, a line each, and the faults that they show.
//!
//! A part of a run sees a part of the rows alone, so that it can't say which rows break a key. It writes a record for each row of a
//! table that has a key or that one refers to. The records of all parts, sorted in byte order, show which rows break a key.
//!
//! ```text
//! 1,s1,referenced,1,2,1
//! 1,s1,refers,2,2,3
//! 1,s7,refers,2,3,3
//! 2,a,unique,3,2,1
//! 2,a,unique,3,5,1
//! ```
//!
//! A line has the number of the key, the key cells, the role of the row, its table, its number in its source and the first column of the
//! key. By key 1 row 2 of table 2 refers to row 2 of table 1, and row 3 of table 2 refers to no row. By key 2 row 5 of table 3 has the
//! primary key of row 2. So `judge_keys` writes these lines of a report:
//!
//! ```text
//! error,NoReferencedRow,2,3,3
//! error,DuplicateKey,3,5,1
//! ```
//!
//! # Promises
//!
//! - `push_line` adds exactly the line of a record (`line_of`). A text is the lines of one list of records at most: the law
//!   `lines_are_unique`.
//! - The faults of records are defined by counting, whatever their order (`record_faults`). The same records in another order have the
//!   same faults: the law `permutes_faults`.
//! - If `judge_keys` returns `Ok`, the reader had exactly the lines of sorted records, to its end, and the writer took exactly the lines
//!   of their faults. It returns whether there is none (`JudgesAll`).
//! - If it stops, the records before the stop are sorted, and the writer took the lines of their faults, or a front of them after
//!   `Write` (`JudgesFront`). These faults are certain: records that follow in a sorted file add faults and take none away, by the law
//!   `keeps_faults`.
//! - It stops at the first line that is wrong, with its number and the rule that it breaks: the line is that of no record, it has no line
//!   feed, it is longer than 16 MiB, or the records are not sorted with it (`IsWrong`).
//! - It does not stop at a line of sorted records that is not too long, if no row has two records of one primary key: the law
//!   `right_passes`.
#![tactic(auto)]

mod digits;
mod faults;
mod feed;
mod group;
mod judge;
mod keys;
pub mod laws;
mod line;
mod reading;
mod record;
mod run;
mod stop;

pub use keys::judge_keys;
pub use line::push_line;
pub use record::{KeyRecord, Role};
pub use stop::{KeyStop, LineFault};
