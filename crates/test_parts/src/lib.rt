//! Tests of what the parts of a run need, by public calls: plans, splits, records of keys and their faults.
//!
//! Files and their plans were counted by hand, records and faults were written by hand, and some texts are no plans or no
//! records.
#![tactic(auto)]

#[cfg(test)]
mod key_files;
#[cfg(test)]
mod key_lines;
#[cfg(test)]
mod key_streams;
#[cfg(test)]
mod plans;
#[cfg(test)]
mod row_records;
#[cfg(test)]
mod spellings;
#[cfg(test)]
mod splits;
