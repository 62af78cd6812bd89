//! Durations of XML Schema: the texts that write one, the canonical text of each, and their order.
//!
//! A duration has months and seconds, because a month has no fixed number of days. `P1Y` and `P12M` are one duration, and so
//! are `PT36H` and `P1DT12H`. A number and a fraction have at most 9 digits, and a duration has less than 10^9 years and
//! 10^9 days.
//!
//! ```text
//! let year = duration_text(alloc, DurationKind::Any, "P12M")?; // Some("P1Y")
//! let hours = duration_text(alloc, DurationKind::DayTime, "-PT90M")?; // Some("-PT1H30M")
//! let none = duration_text(alloc, DurationKind::YearMonth, "P1D")?; // None
//! let order = compare_durations("P1M", "P27D"); // Some(Ordering::Greater)
//! let no_order = compare_durations("P1M", "P30D"); // None
//! ```
//!
//! # Promises
//!
//! - `duration_text` returns the canonical text of the duration that a text writes (`duration_form`). It returns `None`
//!   exactly if the text writes no duration of the kind (`duration_fields`), or one of 10^9 years or 10^9 days or more.
//! - The law `one_duration_text`: a canonical text is its own canonical text.
//! - `is_duration` returns whether a text has a canonical text, and takes no memory.
//! - `compare_durations` returns the order of two durations (`duration_cmp`): less, equal or greater, exactly if the standard's
//!   four moments with one added stand so to those with the other added. It returns `None` exactly if they have no order, or if
//!   a text writes no duration.
#![tactic(auto)]

mod ascii;
mod calendar;
mod digits;
mod form;
mod order;
mod value;

pub use form::{duration_text, is_duration, one_duration_text};
pub use order::compare_durations;
pub use value::DurationKind;
