//! The state of one table of a session: the lower part of csvw_session.
//!
//! A `Table` takes the text of its table in pieces. It gives the triples of each complete row to the sink, adds the
//! keys of the row to the book of keys, and keeps the faults of its cells.
//!
//! # Promises
//!
//! - These hold for every table of a plan, every sink and every cut of the text into pieces (`Table::new`,
//!   `feed_table`, `end_table`).
//! - After a piece that was taken, the sink gained the triples of all complete rows, and the book of keys keeps these
//!   rows. The faults of their cells were listed (`feed_table`, `TableOutcome`).
//! - At the end the rows are a whole table, with its columns and the faults of its header (`end_table`,
//!   `EndOutcome`).
//! - A stop in the text has the number of this table (`IsOf`). It comes only after all rows before it. It comes
//!   where the records stop, or the table refuses the next row or its header.
//! - `Table::skip_to` goes on after rows that are read elsewhere, as if they had been read here (`SkipsTable`).
//! - After `Memory` and `Write` the sink took a front of the triples of the rows that come first, each of them
//!   whole.
//! - After `Write` the sink is closed. If it was open, its device failed within the next triple.
#![tactic(auto)]

mod giving;
mod head;
mod skipping;
mod step;
mod stop;
mod table;

pub use giving::{end_table, feed_table};
pub use stop::Stop;
pub use table::Table;
