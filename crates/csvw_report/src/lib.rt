//! Reports: the faults of a run in order, and the text that lists them.
//!
//! # Promises
//!
//! - `write_report` writes the heading and a line for each fault, in the order given. After a stop a front of the
//!   report was written. The writer failed exactly if the stop is `Write` (`report`, `StopsAt`).
//! - `sorted` sorts faults by table, row, column, code and kind (`fault_cmp`). Equal faults occur as often as they
//!   came.
//! - `Outcome::valid` returns whether no fault is an error.
//! - Sorted lists of the same faults are equal: the law `sorts_to_one`.
#![tactic(auto)]

pub mod laws;
mod lines;
mod outcome;
mod reporting;
mod stop;

pub use outcome::{Outcome, sorted};
pub use reporting::write_report;
pub use stop::ReportStop;
