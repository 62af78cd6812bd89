//! Sessions: pieces of many tables come in, in any order, and the triples of their rows go to a sink.
//!
//! `Session::start` opens a session over the tables of a plan. `feed` takes a piece of a table and `end` takes its
//! end. `finish` returns the faults. The program csvw_session_example is a session on one page.
//!
//! # Promises
//!
//! - These hold for every plan, sink and list of events.
//! - At the start the sink gained what the mode says of the group and its tables (`Session::start`, `Starts`). If
//!   the session is refused, the sink took a front of these triples, each of them whole (`Refuses`).
//! - A call that returns Ok took its event, and the sink has gained the graph of all complete rows (`feed` and
//!   `end`, `Takes`).
//! - `feed` and `end` return `Failed` exactly if the session stopped before. Else they return `UnknownTable` exactly
//!   if there is no such table. Else they return `AfterEnd` exactly if the session was finished or the table ended.
//!   These change nothing (`IsRefusedInOrder`).
//! - A stop in the text comes after all rows before it (`Takes`). After `Memory` and `Write` the sink took a front
//!   of the triples of the rows that come first, each of them whole.
//! - After `Write` the sink is closed. If it was open, its device failed within the next triple.
//! - `Rows`, `Table`, `Memory` and `Write` each leave a session that stopped.
//! - `finish` returns `Failed` exactly if the session stopped before, and `AfterEnd` exactly if it was finished. It
//!   returns `NotEnded` exactly if the session is open and a table wasn't ended. These change nothing
//!   (`IsUnfinishedInOrder`).
//! - `finish` returns Ok only if each table was ended. The outcome has the warnings and all faults in order, those of
//!   keys over whole tables among them (`Finishes`).
//! - `faults_so_far` returns the warnings and the faults of headers and cells so far, in order, also after a stop
//!   (`AreFaultsSoFar`).
//! - `rows_read` returns how many complete rows were read of a table (`HasRead`).
//! - `texts_grow` says how the texts of tables go on with one more event.
#![tactic(auto)]

pub mod laws;
mod session;
mod state;

pub use csvw_engine_core::Stop;
pub use session::{Refused, Session};
pub use state::State;
