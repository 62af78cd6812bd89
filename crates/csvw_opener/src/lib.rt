//! Files by their paths: a way to open them, and that of a process.
//!
//! # Promises
//!
//! - `Opener::open` opens a file (`opens`). `Opener::close` takes its reader back, in the state in which it was left
//!   (`closes`).
//! - `FileOpener` opens the files of a file system, and standard input by the name `-`, once.
//! - Tested alone: `Opener::io_error` returns why a file can't be opened or read. `FileOpener` creates files, or empties
//!   those that are there. It shows how far a file has been read, at most four times a second, and erases the line.
#![tactic(auto)]

mod input;
mod opener;
mod progress;

pub use input::Input;
pub use opener::{Colors, FileOpener, Opener, ProgressShown, STANDARD_INPUT};
