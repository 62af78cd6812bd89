//! The inherited properties of an object of a metadata document: a lower part of csvw_meta (Metadata Vocabulary for
//! Tabular Data, section 5.7).
//!
//! # Promises
//!
//! - The inherited properties of an object are read with its datatype, or a fault in them is reported: `read_inherited`
//!   (`inherited`).
//! - A property of an object that is neither of its kind nor inherited is a warning: `inheriting_warnings`
//!   (`unlisted`), and of a table or a group `annotated_warnings` (`all_warnings`).
//! - A text is read as a URI template by the grammar of csvw_template: the law `templates_are_read` (`IsTheReading`).
//!
//! The public modules have the parts of what is read, for crates that list all faults of a document.
#![tactic(auto)]

pub mod datatype;
pub mod inherited;
pub mod inherited_names;
mod laws;
pub mod template;

pub use inherited::{InheritedFound, read_inherited};
pub use inherited_names::{annotated_warnings, inheriting_warnings};
pub use laws::templates_are_read;
