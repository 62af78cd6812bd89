//! Cells: the value of a cell, by the datatype and the other properties of its column, and what is wrong with it.
//!
//! # Promises
//!
//! - `parse` and `parse_into` return the value of a cell's text, and each code of what is wrong with it once and in
//!   order. They follow the nine steps of parsing cells (Model for Tabular Data, section 6.4), for every datatype
//!   (`CellOf`).
#![tactic(auto)]

mod cell;
mod codes;
mod copies;
mod item;
mod list;
mod normal;
mod over;
mod parsing;

pub use cell::{Cell, CellValue, Item};
pub use copies::copied_codes;
pub use over::parse_over;
pub use parsing::{parse, parse_into};
