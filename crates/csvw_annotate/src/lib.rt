//! Annotated rows: each cell with its value, its links and the codes of what is wrong with it.
//!
//! A row is annotated in the memory of the row before it: see `annotate_into`.
//!
//! # Promises
//!
//! - `annotate` and `annotate_into` return the annotated row of values, lists, links and codes. They return
//!   `RaggedRow` exactly if the row's fields don't fit the columns that aren't virtual (`Annotates`).
//! - The values of annotated rows have lexical forms: the law `annotated_rows_have_forms` (`HasForms`).
//! - `about_at`, `property_at` (`IsMadeAt`) and `value_at` (`IsValueAt`) return a link of a cell. Its column's template
//!   is expanded under the row's variables. Prefixes are replaced. The text is joined to the table's URL and made safe.
//! - `joined`: a link that fails is absent, with its code.
//! - `LinkedColumns::new` binds templates to the columns once. A bound link is the link by the template: the law
//!   `bound_links_are_links` (`BoundLinksAreLinks`).
//! - `variable` returns what the name of a column is in a template.
//!
//! # Links
//!
//! When the columns of a table are known, `LinkedColumns` binds each name in their templates to a text, to a place
//! among the values of a row, or to nothing. So a row looks up no name. If no name of a template is bound to a place,
//! its link is made then, once for all rows. Contracts see a `LinkedColumns` as its `Columns`.
//!
//! The expansion of a template stops at the limit of a link. So no link takes longer than one of that length.
#![tactic(auto)]

mod annotating;
mod bound_link;
mod bound_parts;
mod cell_names;
mod copies;
mod laws;
mod link_room;
mod linked_columns;
mod linking;
mod links;
mod numbers;
mod row;
mod row_room;
mod scope;
mod sharing;
mod simple;
mod values;

pub use annotating::{annotate, annotate_into};
pub use csvw_columns_core::TableStop;
pub use laws::annotated_rows_have_forms;
pub use linked_columns::{LinkedColumns, bound_links_are_links};
pub use links::{Links, Made, about_alone, has_own_template, has_template, joined, no_link};
pub use numbers::RowNumbers;
pub use row::{AnnCell, Row};
pub use row_room::RowRoom;
pub use values::{text_of, variable};
