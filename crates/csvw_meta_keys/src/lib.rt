//! The primary and foreign keys of a schema in a metadata document, and its row titles: a lower part of csvw_meta
//! (Metadata Vocabulary for Tabular Data, sections 5.5, 5.5.1 and 5.5.2).
//!
//! # Promises
//!
//! - The keys and row titles of a schema are read, each name and URL with its pointer, or reported as a fault in them:
//!   `read_keys` (`keys`). The faults are `BadProperty`, `TooMany` (over 16 columns or 64 foreign keys), `BadUrl`,
//!   `UrlTooLong` and `NotSupported`. In the profile `Core` row titles and references to schemas are `NotSupported`.
//! - `check_keys` (`key_faults`) checks that each column and table that the keys and row titles name exists, and that
//!   both sides of a foreign key are equally long. Else it returns `BadReference` at the name, the URL or the foreign key.
//! - In the profile `W3c` a reference may name its table by the `@id` of the table's schema (`schemaReference`), which no
//!   other table may have: `named` (`named`).
//! - `primary_key`, `row_titles`, `foreign_keys` and `warnings` return the keys, the row titles and the warnings
//!   (`names_of`, `described`, `all_warnings`).
//!
//! The public modules have the parts of keys, for crates that list all faults of a document.
#![tactic(auto)]

pub mod column_names;
mod described;
pub mod foreign_key;
pub mod keys;
pub mod naming;
pub mod reference;

pub use column_names::KeyName;
pub use foreign_key::ForeignKeyFound;
pub use keys::{KeysFound, read_keys};
pub use naming::{Target, check_keys};
pub use reference::{NamedBy, NamedTable};
