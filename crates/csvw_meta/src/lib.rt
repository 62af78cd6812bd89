//! Reads a metadata document: returns the description of its group of tables, or a fault of the document (Metadata
//! Vocabulary for Tabular Data).
//!
//! # Promises
//!
//! - A group is returned exactly if there is no fault in the document, and it is the group that the document describes:
//!   `read` (`document`), `read_by` (`document_by`), and the law `groups_have_no_faults` (`group_in`, `document_faults`).
//! - A document that is refused has the fault that is returned: `read`, `read_by`.
//! - A group that is read keeps the limits on tables and columns (`IsPlannable`):
//!   - its dialects are lawful, and each datatype passes `Datatype::check`;
//!   - no two declared columns of a table have one name, and no two tables have one URL;
//!   - the columns and tables that its keys name exist.
//! - In the profile `W3c`, the columns that the `rowTitles` of a schema name have `is_row_title`: `read_by`
//!   (`with_row_titles`). A name that is not that of a column is `BadReference` at the name.
//! - Each foreign key that is read has the URL of the table that it names: `read`, `read_by` (`described`). In the profile
//!   `W3c` it may name the table by the `@id` of the table's schema (`schemaReference`). If not exactly one table has such
//!   a schema, the fault is `BadReference` at the `schemaReference`.
//! - The annotations of the group and of its tables are those of their common properties and notes. The annotations of
//!   other objects are checked: `read`.
//! - A rule over several values checks those that could be read: `read`.
//! - A fault of a URL alone is `BadUrl` or `UrlTooLong` at `/url`: `plain` (`plain_description`, `IsOfUrl`).
//! - The trait `ReadDescription` has the calls as `Description::read`, `Description::read_by` and `Description::plain`.
//! - The check of column names accepts a text as a variable exactly if the grammar of csvw_template does: the law
//!   `variables_are_names` (`IsName`).
//!
//! The faults of a document are one list (`document_faults` in specs/). Three kinds of documents have one fault alone: those
//! that are too long, those whose own URL is not a URL, and those that are not JSON texts. The faults of any other document
//! are those of its context, and then those of its parts. If the context has faults, the parts are read in it as far as it
//! could be read (`usable_context`): the document's own URL takes the place of its base, and no language that of its
//! language.
//!
//! Programs need only the calls above. The public modules have the parts of what is read, for crates that list all
//! faults of a document.
#![tactic(auto)]

pub mod body;
pub mod column;
pub mod document;
mod foreign_keys;
pub mod group;
pub mod json;
pub mod laws;
pub mod name;
mod read_description;
pub mod references;
mod repeated;
pub mod schema;
pub mod table;
pub mod titles;
mod url_alone;
mod virtual_order;

pub use csvw_description::{
    ColumnDescription, Description, ForeignKey, Inherited, Note, NoteLiteral, NoteObject,
    NoteValue, Schema, TableDescription,
};
pub use csvw_meta_core::{MetaCode, MetaFault, Profile};
pub use document::{read, read_by};
pub use read_description::ReadDescription;
pub use url_alone::plain;
