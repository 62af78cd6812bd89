//! What a metadata document says, for its author: the tables, their dialects, columns and keys, with the defaults that
//! apply.
//!
//! ```text
//! let asked = Inspect {
//!     base: "http://example.org/t.json",
//!     meta: "t.json",
//!     resources: &[],
//!     profile: Profile::Core,
//!     form: InspectForm::Text,
//! };
//! inspect(alloc, &asked, &mut opener, &mut out)?;
//! ```
//!
//! # Promises
//!
//! - `inspect` writes the whole text or nothing, unless the writer fails (`Inspects`).
//! - If the document or a resource can't be read, or has a fault, `inspect` returns the stop and writes nothing (`Inspects`).
//! - Only tests check the text.
#![tactic(auto)]

mod asked;
mod column;
mod datatype;
mod dialect;
mod document;
mod inspecting;
mod json;
mod link;
mod property;
mod table;
mod text;
mod value;

pub use asked::{Inspect, InspectForm};
pub use csvw_files::ResourceFile;
pub use inspecting::inspect;
