//! The datatype that a metadata document names or describes: a lower part of csvw_meta (Metadata Vocabulary for
//! Tabular Data, section 5.11).
//!
//! # Promises
//!
//! - A name or an object is read as a datatype with its format and facets, or reported as a fault in it:
//!   `DatatypeReader` (`Reads`).
//! - The datatype that is read passes `Datatype::check`: the law `datatypes_fit` (`IsSound`).
//! - A format that is read is one of its type, and facets that are read fit the type and each other: the private laws
//!   `formats_fit` and `facets_fit`.
//!
//! The public modules have the parts of a datatype, for crates that list all faults of a document.
#![tactic(auto)]

pub mod base;
pub mod bounds;
pub mod expression;
mod facet_laws;
mod facets;
pub mod form;
pub mod format;
mod format_laws;
mod laws;
pub mod lengths;
pub mod number;
pub mod pattern;
mod reader;
pub mod truth;

pub use form::DatatypeFound;
pub use laws::datatypes_fit;
pub use reader::DatatypeReader;
