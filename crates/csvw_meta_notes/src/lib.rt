//! The annotations of a metadata document, from common properties and `notes`: a lower part of csvw_meta (Metadata
//! Vocabulary for Tabular Data, sections 5.8 and 6.2).
//!
//! # Promises
//!
//! - The common properties of an object are read in the byte order of their names, and then its notes. Otherwise a
//!   fault in them is reported, with its pointer: `read_all_notes` (`all_notes`).
//! - Each property that is not listed for the kind of its object makes a warning, and so does what is ignored in
//!   annotations: `read_all_warnings` (`all_warnings`), `read_unlisted` (`unlisted`).
//! - A literal with a language has the datatype rdf:langString: the law `notes_fit`.
#![tactic(auto)]

mod annotations;
mod in_context;
mod laws;
mod literal;
mod members;
mod name;
mod node;
mod scalar;
mod unlisted;
mod value;
mod vocabulary;
mod warnings;

pub use annotations::NoteContext;
pub use in_context::{read_notes, warnings_at};
pub use laws::notes_fit;
pub use literal::{check_for_text, check_one};
pub use members::{check_literal_member, check_node_member, has_colon};
pub use name::{TypeName, TypeNames, read_name};
pub use node::NodeId;
pub use unlisted::{read_all_notes, read_all_warnings, read_unlisted};
