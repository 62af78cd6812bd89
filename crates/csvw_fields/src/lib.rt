//! Fields of a row, from its bytes: the layer between csvw_records and csvw_rows.
//!
//! If the delimiter and the quote of a dialect are ASCII, quotes are doubled and nothing is trimmed, a row is cut
//! among its bytes: see `Cutter`. A row that can't be cut so, or isn't whole yet, is a `Draft`. It is read on from
//! the place where reading stopped. So a piece of the text is read once. Both ways are proved against one grammar,
//! that of csvw_records, which is for characters.
//!
//! # Promises
//!
//! For every lawful dialect:
//!
//! - `Cutter::cut_row` returns the fields of a row by the grammar and where the row ends (`IsCutRow`). `row_len`
//!   returns its length (`IsRowLen`).
//! - `Draft::go_on` reads what the pass over the characters reads (`GoesOn`). It ends where the row ends, or reports
//!   the rule that is broken there.
//! - `take_fields` and `text_at`: each field is text, in the place that its bound says.
//! - `Rules::is_ignored` returns whether a row is skipped or a comment.
//! - `Symbols::of` returns the symbols by which the rows of a dialect are cut, exactly if it has such symbols
//!   (`IsSymbols`).
//! - `field_laws`: the laws of drafts and bounds by which csvw_rows is proved.
#![tactic(auto)]

mod bound;
mod cut;
mod cutter;
mod decode;
mod draft;
mod field;
pub mod laws;
mod leads;
mod marks;
mod quotes;
mod rules;
mod trim;

pub use bound::{Bound, text_at};
pub use cut::{Symbols, terminator_at};
pub use cutter::Cutter;
pub use decode::{char_count, front_len, valid_front};
pub use draft::{Draft, Reading, settled};
pub use field::all_empty;
pub use marks::Marks;
pub use rules::Rules;
