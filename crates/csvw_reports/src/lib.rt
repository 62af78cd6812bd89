//! Reports, read: the faults that the text of a report lists. csvw_report writes such texts.
//!
//! # Promises
//!
//! - `read_report` returns exactly the faults whose report a text is, in order (`report`).
//! - It refuses a text at its first line that is no line of a fault (`IsRefused`). Such a text is no report: the law
//!   `refused_is_no_report`.
//! - `JoinedReports` has the faults of all reports that were added (`AddsReport`), and returns them in the order of
//!   reports: `JoinedReports::into_outcome`.
#![tactic(auto)]

mod code;
mod fault;
mod joined;
pub mod laws;
mod line;
mod reading;

pub use fault::ReportFault;
pub use joined::JoinedReports;
pub use reading::read_report;
