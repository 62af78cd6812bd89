//! The codes of faults, of documents and of stops, explained.
//!
//! # Promises
//!
//! - Its calls are safe and end. Only tests check the text, and that each example gives its code.
#![tactic(auto)]

mod codes;
mod explaining;

pub use explaining::{push_codes, push_explanation};
