//! Parts of tables: the rows of a piece of a table's file, as rows of the whole table.
//!
//! A long file is cut where rows end, and each piece is read alone. `TablePart` reads the rows of a piece. Its triples,
//! the faults of its cells and its keys are those of the same rows of the whole table: row numbers and source numbers
//! go on after the rows in front. Of these it needs two counts and the front of the file with the header.
//!
//! # Promises
//!
//! - `TablePart::read` gives the table the next bytes of a reader (`ReadsPart`). The sink gained the triples of the rows
//!   that they complete, the book has their keys, and the faults of their cells are listed.
//! - `TablePart::skip_to` goes on after rows that another part reads, as if they had been read here (`SkipsTable`).
//!   So the next rows have the numbers, the triples and the faults that they have in the whole table.
//! - `TablePart::end` ends the table at the end of its file (`EndsPart`).
//! - `TablePart::rows_here` returns how many rows and data rows there are from the start of the file, if a row ends there.
//!   The bytes so far are whole rows then (`EndsAtRow`), which is what `skip_to` needs for the next piece.
//! - The triples and the faults of all pieces, one after the other, are those of the whole table: the law
//!   `pieces_join`.
//! - `run_part` reads the pieces of one part, in the order of the plan (`RunsPart`). Each reader is one that the opener
//!   returned, and is handed back. What a part gives is said for all bytes that may come before its pieces (`HaveBefore`):
//!   - The sink took the opening, if this is part 1, and then the triples of the rows of the pieces, as rows of the whole
//!     tables (`GivesPart`). A row ends where the piece ends, after as many rows and data rows as the plan says, or the
//!     file ends there.
//!   - The faults, which are sorted, are the warnings of the tables that begin in the part, the faults of their headers, and
//!     those of the cells of the rows.
//!   - If records are asked for, the lines of those of all keys of the rows were written, in some order (`SendsRecords`).
//!     The writer was flushed, and is handed back.
#![tactic(auto)]

mod fault;
pub mod laws;
mod part;
mod reading;
mod run;
mod state;
mod stop;

pub use fault::PartFault;
pub use part::{RowsBefore, TablePart};
pub use run::{PartRequest, run_part};
pub use state::PartRun;
pub use stop::{Differs, Mismatch, PartStop};
