//! All faults of a metadata document, in the order of their definitions (Metadata Vocabulary for Tabular Data, section 5).
//!
//! csvw_meta reads a document, and returns the first fault that it comes to. A program that shows a person what is wrong
//! calls `faults_in` then:
//!
//! ```text
//! match Description::read_by(alloc, bytes, base, profile) {
//!     Ok(description) => plan(description),
//!     Err(_) => {
//!         for fault in faults_in(alloc, bytes, base, profile)?.as_slice() {
//!             show(fault);
//!         }
//!     }
//! }
//! ```
//!
//! # Promises
//!
//! - The list is that of the definition, in its order: `faults_in` (`document_faults`). So each fault of the list is a fault
//!   of the document, and none is missing (`IsFault`).
//! - The list is empty exactly if the document describes a group: `faults_in` (`group_in`).
//! - The faults of a schema are listed, with those of its columns together: names that are equal, and virtual columns
//!   that come too early: `find_schema` (`schema`).
//! - The faults of a table are listed: `find_table` (`table`).
//! - The faults of the document's group, or of the one table that it is, are listed, with tables of equal URLs:
//!   `find_parts` (`parts`).
//! - The faults of the document within its context are listed, with those of what its keys and row titles name: `find_within` (`within`).
//!
//! # How faults are found
//!
//! Each function adds the faults of its part at the end of a list. A rule over several values checks those that could be
//! read, by the faults of each value by itself. The places of these faults are in sets (`Marks`), and so are names and
//! URLs, since a document may have many.
//!
//! A value that can't be read has the value in its place that the definition has. So the columns, the keys and the tables
//! are read again, with only what the rules look at (`bare_group`).
//!
//! If the base or the language of the context can't be read, the parts are read in the context as far as it could be read:
//! the document's own URL takes the place of the base, and none that of the language (`usable_context`).
#![tactic(auto)]

mod add_both;
mod body;
mod column;
mod column_rules;
mod document;
mod faults_at;
mod fronts;
mod group;
mod hidden_names;
mod marks;
mod names_read;
mod push_if;
mod references;
mod repeated;
mod schema;
mod seen;
mod seen_column;
mod seen_group;
mod seen_schema;
mod seen_table;
mod seen_titles;
mod table;
mod targets;
mod titles;
mod url_rule;
mod usable_context;
mod virtual_order;
mod within;

pub use document::faults_in;
pub use group::find_parts;
pub use schema::find_schema;
pub use table::find_table;
pub use within::find_within;
