//! Texts and lists that contracts see as lists: the types that all crates share.
//!
//! Contracts see a `Text` as its UTF-8 bytes and a `Seq<T>` as the list of its elements. The public data types of the
//! crates above are plain structs and enums of such types, which contracts see as records. A newtype over `Text`,
//! such as `LanguageTag`, adds its invariant. The crate also hands on the types of csvw_fault and csvw_streams.
//!
//! # Promises
//!
//! - A copy of a text or a list is equal to it (`Text`, `Seq`, `Shared`).
//! - `collapse` collapses white space as for a cell. `strip_start` and `strip_end` strip it at the start or the end.
//! - `LanguageTag::of` returns a tag only if the text is one of the grammar.
#![tactic(auto)]

mod class;
mod compared;
mod language;
mod results;
mod seq;
mod shared;
mod spaces;
mod strip;
mod text;

pub use class::{is_reserved, is_unreserved, is_white};
pub use csvw_fault::{Code, Fault, Kind, Place};
pub use csvw_streams::{Counted, Cut, write_out};
pub use language::LanguageTag;
pub use results::{both, both_copied};
pub use seq::{Copied, Seq, copied_items, copied_option};
pub use shared::Shared;
pub use spaces::collapse;
pub use strip::{strip_end, strip_start};
pub use text::Text;
