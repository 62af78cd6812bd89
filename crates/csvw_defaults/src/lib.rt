//! Metadata documents with values that aren't permitted: each is left out, so that its default holds, and is warned of
//! (Metadata Vocabulary for Tabular Data, sections 4 and 5.1). Bounds may be numbers that aren't whole.
//!
//! ```text
//! let defaulted = with_defaults(alloc, document, Profile::W3c)?;
//! let description = Description::read_by(alloc, defaulted.bytes.as_slice(), url, Profile::W3c)?;
//! ```
//!
//! # Promises
//!
//! - `with_defaults` returns the bytes of the document without the values that aren't permitted, and lists these values
//!   and the bounds (`IsDefaulted`). If there are none, or in the profile `core`, the bytes stay.
//! - Whether a value is permitted follows from the name of its property and the object that has it (`is_permitted`).
//! - A `tableSchema` or a `dialect` that isn't permitted becomes an object without properties. An item of an array that isn't
//!   permitted is left out alone (`document`).
//! - The object of such a property has a property more, which no object has (`warning_name`). Readers ignore it, and warn of it with
//!   `UnknownProperty` at the place of the object.
//! - A bound that is a number but not whole becomes the text that writes it, as `"0.5"` (`bound`, `number_text`). So it is exact.
//! - A needed property is never left out: `url`, `tables`, `@context`, `columnReference`, `reference` and `resource`. All annotations stay too.
#![tactic(auto)]

mod array;
mod datatype;
mod defaulting;
mod group;
mod kept;
mod node;
mod object;
mod permitted;
mod properties;
mod schema;
mod titles;

pub use defaulting::{Defaulted, with_defaults};
