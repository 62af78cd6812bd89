//! Descriptions: what a metadata document says of a group of tables, before defaults are filled in.
//!
//! A description has the dialects, schemas, columns, keys and notes of the group. Its types are plain and contracts
//! see them as records.
//!
//! # Promises
//!
//! - A `Name` has only characters that may be raw in N-Triples: the invariant of `Name`.
//! - `ColumnDescription::resolved_name` returns the name of a column: its own, else its first title percent-encoded,
//!   else `_col.` and its number (`name_of`).
//! - `Nulls::contains` returns whether a text is one of the texts that are null.
#![tactic(auto)]

mod column;
mod copies;
mod description;
mod foreign_key;
mod inherited;
mod limits;
mod name;
mod note;
mod nulls;
mod schema;
mod table;

pub use column::ColumnDescription;
pub use description::Description;
pub use foreign_key::ForeignKey;
pub use inherited::{Inherited, no_inherited};
pub use limits::{COLUMN_LIMIT, SKIP_LIMIT, TABLE_LIMIT};
pub use name::Name;
pub use note::{Note, NoteLiteral, NoteObject, NoteValue};
pub use nulls::Nulls;
pub use schema::Schema;
pub use table::TableDescription;
