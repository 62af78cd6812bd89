//! Faults of tables: what is wrong, where it is, and whether it makes a group invalid. It is the lower part of csvw_text.
//!
//! # Promises
//!
//! - `Code::name` returns the name of the code, as reports spell it (`name_of`).
//! - Faults are ordered by table, row, column, code and kind.
#![tactic(auto)]

mod fault;

pub use fault::{Code, Fault, Kind, Place};
