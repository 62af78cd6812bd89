//! All faults of a part of a metadata document, in order: the lower part of csvw_meta_faults (Metadata Vocabulary for
//! Tabular Data, sections 5 and 6.2).
//!
//! A reader of csvw_meta_core returns the first fault that it comes to. A [`Finder`] is a reader that also adds all
//! faults of a part to a list.
//!
//! # Promises
//!
//! - What is added for a part are the faults of the definition by which it is read, in their order: `Finder::find` (`reads`).
//! - The same holds of the context of a document (`find_context`, `context`), of annotations (`find_all_notes`,
//!   `all_notes`; `find_unlisted`, `unlisted`), and of dialects (`find_dialect`, `dialect`).
//! - Nothing but missing memory stops a call.
//!
//! # How faults are found
//!
//! Each definition of csvw_meta_core and of the crates above it has a function here, in the same form.
//!
//! - A function adds the faults of its part at the end of a list. The parts of an object follow each other.
//! - The list is all that a call returns. A value with an invariant, as a language tag, has no value in place of one that
//!   can't be read.
//! - A kind of value that has at most one fault is [`Sole`], by a law. Its reader finds the fault.
//! - What has no effect on the faults is no parameter: a default, the number of an item, the place of a warning. The
//!   contract holds for each.
//! - A rule over several values asks which of them could be read, by the faults of the part: [`Hiding`]. Their values are
//!   those of the definition, also in place of one that can't be read: [`StandIn`].
#![tactic(auto)]

mod annotations;
mod context;
mod dialect;
mod each;
mod finder;
mod hiding;
mod kinds;
mod links;
mod literal;
mod names;
mod notes;
mod others;
mod pointers;
mod property;
mod several;
mod sole;
mod stand_in;

pub use annotations::{find_all_notes, find_unlisted};
pub use context::find_context;
pub use dialect::find_dialect;
pub use each::{NumberedFinder, find_each, find_each_numbered};
pub use finder::{Finder, add_fault, add_wrong, add_wrong_as};
pub use hiding::Hiding;
pub use others::find_others;
pub use pointers::{below, item_at};
pub use property::{find_needed, find_optional, find_property};
pub use several::find_some_items;
pub use sole::{Sole, add_only, find_sole};
pub use stand_in::{StandIn, optional_value, property_value, value_at, value_or};
