//! The plan of a group of tables: which columns each table has, and how its header fits them. It uses
//! csvw_columns_core.
//!
//! # Promises
//!
//! - `Plan::build` (`Builds`, `IsFreeOf`) makes the plan of a description exactly if the description can be planned,
//!   unless memory runs out. Else it returns a fault whose code says what does not hold of the description.
//! - The plan has each table with its dialect, its declared columns and their inherited properties, its keys by
//!   numbers, and the warnings of the document: `Plan::build`.
//! - The tables of each plan have numbers from 1, in order: the invariant `numbered` of `Plan`.
//! - `match_header` (`Matches`, `sound`) returns the columns of a table by its header rows, and what is wrong with
//!   them. It returns `TooManyColumns` and `DuplicateName` exactly if their names are true. If both are, it returns
//!   the first.
//! - The dialects of a plan are lawful, and the datatypes of its columns are sound: `Plan::build`, the laws
//!   `columns_of_ready_tables_are_sound` and `each_table_is_ready`.
//! - What a document describes can be planned, and a description that can be planned has no fault: the laws
//!   `described_can_be_planned` and `planned_descriptions_are_free_of_faults`.
#![tactic(auto)]

mod building;
mod checks;
mod choices;
mod heading;
pub mod laws;
mod names;
mod plan;
mod planning;
mod references;
mod warnings;

pub use csvw_columns_core::{Column, Columns, HeaderRow, TableStop};
pub use heading::match_header;
pub use plan::{ForeignKeyPlan, Plan, TablePlan};
