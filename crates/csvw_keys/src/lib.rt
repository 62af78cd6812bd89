//! Which rows break a primary or a foreign key of a group, over whole tables and whatever the order in which their
//! rows come (Metadata Vocabulary for Tabular Data, sections 5.5.1 and 5.5.2).
//!
//! # Promises
//!
//! These hold after any rows, added in any order of their tables.
//!
//! - `KeyBook::new` (`rules_of`) starts a book of the keys of a plan. `KeyBook::add` (`KeepsKeys`, `with_row`) adds a
//!   row. If memory runs out, the book keeps the rows that it kept before.
//! - `KeyBook::finish` (`AreKeyFaults`) returns the faults of all keys over whole tables, each as often as it has
//!   causes, in the order of reports.
//! - A primary key has a fault for each row with an earlier row of equal key cells: `KeyBook::finish`.
//! - A foreign key has a fault for each row whose key cells are not all null and that does not equal exactly one row of
//!   the referenced table: `KeyBook::finish`.
//! - `KeyBook::duplicates` (`duplicates_of`) returns the faults of a table's primary key.
//! - `KeyBook::recording` (`recorded_rules`) starts a book that records the rows of the tables of a plan's keys instead.
//!   `KeyBook::recorded` (`keyed_rows`) returns the rows of a table with their keys. `KeyBook::forget_rows` drops the
//!   rows.
//! - Equal tables have equal faults: the law `equal_tables_have_equal_faults`.
//! - The order of rows of different tables does not matter: the law `tables_are_apart`.
//!
//! # What is kept
//!
//! - The book of a primary key counts each key so far (once, or more often) in an ordered map, and has the faults of the
//!   rows that repeat one.
//! - The referring rows of foreign keys are kept by one book for each table and columns. It has the key and the source
//!   number of each row. Foreign keys in the same columns of a table share it.
//! - What foreign keys refer to is counted by the book of a primary key in the same columns. If there is none, one book
//!   for each table and columns only counts.
//! - A book that records has all rows of each table and columns of a key, with their key cells and source numbers. It
//!   counts nothing.
//! - A key of one column is kept as its value (`HeldKey`). Nothing else of a row is kept.
//! - A reference is open until the end, even if its row was found. A second equal row may still come.
//!
//! # Room first, then the change
//!
//! `add` first makes room in every book. This needs memory and changes nothing that is reported. Then it adds the row
//! to each book, which cannot fail. So a row is in all books or in none.
#![tactic(auto)]

mod apart;
mod book;
mod foreign_key;
mod held;
mod held_value;
mod key;
mod key_book;
pub mod laws;
mod places;
mod primary;
mod recording;
mod recording_books;
mod referenced;
mod referring;
mod table_book;
mod tally;
mod times;

pub use key::{Key, KeyCell};
pub use key_book::KeyBook;
pub use recording::KeyedRow;
