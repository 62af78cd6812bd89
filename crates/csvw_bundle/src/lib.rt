//! Metadata documents that name schemas and dialects by their URLs: the objects take the place of the URLs (Metadata
//! Vocabulary for Tabular Data, section 6.1).
//!
//! ```text
//! let resources = [Resource { url, bytes }];
//! let document = bundle(alloc, document, "http://example.org/m.json", &resources)?;
//! let description = Description::read_by(alloc, document.as_slice(), "http://example.org/m.json", Profile::W3c)?;
//! ```
//!
//! # Promises
//!
//! - `bundle` returns the bytes of the document in which the object of each resource takes the place of its URL
//!   (`Bundles`). It is a `tableSchema` or a `dialect` of the group or of a table. All else of the document stays.
//! - The object of a resource has absolute links (`absolute`), no `@context`, and the URL of the resource as its `@id` if it
//!   has none (`object_of`). Links are resolved in the context of the resource.
//! - A resource that can't be read is a fault at the property that names it: `TooLong`, `NotJson`, `BadContext`, or
//!   `BadProperty` if it is no object.
//! - A URL without a resource stays a text, and reading the document reports it.
#![tactic(auto)]

mod absolute;
mod bundling;
mod members;
mod named;
mod resource;

pub use bundling::bundle;
pub use resource::Resource;
