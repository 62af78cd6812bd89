//! The words of a command line: which request they make of the program, by clap's account of them.
//!
//! # Promises
//!
//! - `requested` returns the request that the words make: the subcommand, the URL, all files in order, the options and
//!   the flags (`Asks`). Else it returns the kind of clap's error or text (`FailsBy`).
//! - `mistake_in` returns a text exactly if a request names standard input twice, names a form of reports, a colour, a
//!   profile or a shell that there is not, or has a resource that it can't have (`IsMistaken`).
//! - `split_resource` returns the URL and the file of a resource `URL=FILE`, at its last equals sign (`resource_of`).
//! - `command_line` returns the program's subcommands and arguments (`program_app`).
#![tactic(auto)]

mod after_help;
mod argument_help;
mod arguments;
mod matches;
mod mistakes;
mod request;
mod resources;
mod standard_input;
mod subcommands;

pub use mistakes::mistake_in;
pub use request::{
    CheckedGroup, DraftedFiles, Group, Inspected, JudgedKeys, Reporting, Request, SplitFiles,
    requested,
};
pub use resources::split_resource;
pub use subcommands::command_line;
