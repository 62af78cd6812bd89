//! How texts write doubles, and the one text that each value has (XML Schema Part 2, sections 3.3.4 and 3.3.5).
//!
//! A double here is a number with all of its digits, as its text writes it, or `INF`, `-INF` or `NaN`. It isn't rounded to
//! 64 or 32 bits. Two texts are one value if they are the same number: `1E3`, `1000` and `1000.0`.
//!
//! ```text
//! let text = canonical_double(alloc, "0.42546245E2")?; // Ok("42.546245")
//! ```
//!
//! # Promises
//!
//! - `canonical_double` returns the canonical text of a text's value exactly if the text is a double (`double_form`).
//! - `double_of` returns the canonical text, or `None` exactly if there is none.
//! - The law `canonical_texts_stay`: the canonical text of a double is a double, and its own canonical text.
//! - The law `equal_doubles`: two numbers have one canonical text exactly if they are equal (`IsOneNumber`).
//! - `is_double` returns whether a text is a double, and `whole_double` the canonical text of a whole number.
//! - `compare_doubles` returns how a double stands to another: numbers by their size, `-INF` below them and `INF` above
//!   them (`double_cmp`). `NaN` has no order.
#![tactic(auto)]

mod canonical;
mod double;
mod form;
mod laws;
mod numeral;
mod order;
mod plain;
mod trimmed;

pub use double::{canonical_double, double_of, is_double, whole_double};
pub use laws::{canonical_texts_stay, equal_doubles};
pub use numeral::DoubleFault;
pub use order::compare_doubles;
