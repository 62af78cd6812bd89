//! A check of a group of tables for the person at the desk: the upper part of the layer, which reads the tables through a
//! session, and lists the faults of a document that is refused.
//!
//! `show` shows the report of a run that ended. `explain_stop`, `explain_table_stop` and `explain_look_stop` show the words
//! of a stop alone. csvw_check_core is the lower part. It has the parts of a page. Below a row that repeats a primary key is
//! the first row with the key: `repeats` reads the files twice more for that.
//!
//! # Promises
//!
//! - Proved: `check` returns a status of at most 4, and ends.
//! - Tested alone, as its text is: the status is 0 if no fault is an error, 1 if one is, 3 if the document or a table
//!   can't be read, and 4 if memory, a file or a stream failed.
//! - Tested alone: the faults that it shows are those of a session (`Session::finish`). After a stop they are those so
//!   far (`Session::faults_so_far`).
#![tactic(auto)]

mod checking;
mod explaining;
mod faults;
mod keyed_rows;
mod reading;
mod repeating_rows;
mod repeats;
mod showing;
mod sink;

pub use checking::check;
pub use csvw_check_core::{
    Check, Color, Form, Halt, Profile, ResourceFile, Show, ShowTable, Shown, Strict,
};
pub use csvw_engine_core::Stop;
pub use explaining::{explain_look_stop, explain_table_stop};
pub use showing::{explain_stop, show};
