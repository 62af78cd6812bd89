//! The parts of a metadata document and the kinds of value of its properties: the lower part of csvw_meta
//! (Metadata Vocabulary for Tabular Data, section 5.1).
//!
//! A [`Part`] is a value of a document and its place. A [`Reader`] reads one kind of value from a part. It returns the
//! value, or a fault of the part.
//!
//! # Promises
//!
//! - Each kind of value that a document may hold is read, or reported as a fault in it, with the fault's pointer:
//!   `Reader::read` (`Reads`) of each kind.
//! - An unlisted property without a colon in its name is a warning: `Listed` (`others`).
//! - An unlisted property with a colon is `BadProperty` if common properties are not allowed: `Listed` (`others`).
//! - The context of a document is read at the document's own URL, or a fault in it is reported: `read_context`
//!   (`context`; section 5.2).
//! - `MetaCode::name` returns the name of the code (`name_of`).
//! - A context is read in the profile `Core`, and `Context::in_profile` returns it in another (`in_profile`).
//!
//! # How a document is read
//!
//! The contracts use a `Read` record: the faults of a part, and a value.
//!
//! - A do-notation collects the faults. The trait `Reader` has the definition of its kind of value as a ghost member.
//!   So one property is one line in the definition and one line in the code.
//! - A rule over several values checks those that could be read, whatever other faults there are (`also`).
#![tactic(auto)]

mod context;
mod fault;
mod joining;
mod kinds;
mod links;
mod numbered;
mod others;
mod part;
mod pointer;
mod profile;
mod reader;
mod several;

pub use context::{Context, read_context};
pub use fault::{MetaCode, MetaFault, Refusal};
pub use joining::joined;
pub use kinds::{
    AnyText, AnyWhole, Character, Fixed, Language, SomeText, Texts, Truth, WholeU8, WholeU32,
};
pub use links::{IdReader, UrlReader};
pub use numbered::{NumberedReader, each_numbered};
pub use others::{CommonProperty, Listed};
pub use part::Part;
pub use pointer::Pointer;
pub use profile::Profile;
pub use reader::{NotYet, OrNull, Reader, each};
pub use several::Several;
