//! What one run of the program does with its words, its files and its two streams, and the status that it ends with.
//!
//! # Promises
//!
//! - `command` does what the words ask for: it opens files, writes to its two streams and returns the status
//!   (`Commands`). docs/PROMISES.md says what that is.
//! - If the report is shown in another form, or a stop is explained, the reading and the graph are still those of the
//!   run (`ShowsRun`). For a table without metadata and for a look at a document, all up to the line of the stop is that
//!   of the run (`RunsTable`, `RunsInspect`).
//! - The runs over files are those of csvw_command_runs. No status is above 4 (`command`).
#![tactic(auto)]

mod explained;
mod look;
mod program;
mod shown;
mod table;

pub use csvw_command_core::{
    CheckedGroup, DraftedFiles, Group, Inspected, JudgedKeys, Reporting, Request, SplitFiles,
    requested,
};
pub use csvw_command_runs::{tell_mistake, tell_stop};
pub use csvw_files::{Colors, FileOpener, Input, Opener, ProgressShown};
pub use program::command;
