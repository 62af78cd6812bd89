//! A column and what it inherits: the lower part of csvw_columns.
//!
//! # Promises
//!
//! - `Defaults::inherited` returns the properties of a column: each is the first that is present in the column, its
//!   schema, its table and the group, else its default (`properties_of`).
//! - `Defaults::new` returns the defaults (`AreDefaults`, which is also an invariant of `Defaults`).
//! - `Frame::declared_columns` returns the columns that a schema declares.
//! - `from_header` returns the columns that come from a header.
//! - `header_faults` returns what is wrong with a header.
//! - `Columns::field_count` returns how many fields a row has.
//! - `TableStop::name` returns the name of the stop (`name_of`).
//! - `Columns::by_name` and `ColumnList::by_name` return the first column of a name.
#![tactic(auto)]

mod column;
mod column_list;
mod columns;
mod copies;
mod declared;
mod header;
mod header_columns;
mod inherited;
mod properties;
mod table_stop;
mod xsd;

pub use column::Column;
pub use column_list::ColumnList;
pub use columns::Columns;
pub use declared::Frame;
pub use header::{HeaderRow, header_faults};
pub use header_columns::{column_count, from_header};
pub use properties::{Defaults, Properties};
pub use table_stop::TableStop;
