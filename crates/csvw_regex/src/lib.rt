//! Regular expressions as the `format` of texts, and whether they describe a text (Model for Tabular Data and Metadata
//! on the Web, section 6.4.6).
//!
//! The syntax is that of the Rust crate `regex`. An expression describes whole texts: `[0-9]{3}` describes `123` and not
//! `1234`.
//!
//! ```text
//! let expression = RegularExpression::of(alloc, Text::copied(alloc, "[0-9]{3}")?)?; // Some(..)
//! let mut expressions = Expressions::new(alloc);
//! expressions.fit(&expression, "123")?; // true
//! ```
//!
//! # Promises
//!
//! - `RegularExpression::of` returns an expression exactly if the text is one (`is_expression`).
//! - `RegularExpression::fits` and `Expressions::fit` return whether the expression describes the whole text
//!   (`fits_expression`). `Expressions` keeps the automata that it made.
#![tactic(auto)]

mod automaton;
mod expression;
mod expressions;

pub use expression::RegularExpression;
pub use expressions::Expressions;
