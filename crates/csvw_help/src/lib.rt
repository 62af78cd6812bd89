//! Completions for shells, and a manual page, made from clap's own lists of commands and arguments.
//!
//! ```text
//! let command = Command::new(alloc, "bikes").about("Counts bikes").subcommand(..)?;
//! let mut text = String::new(alloc);
//! push_completions(&mut text, &command, Shell::Bash)?;
//! push_manual(&mut text, &command)?;
//! ```
//!
//! A hidden command or argument is left out. So are subcommands of subcommands.
//!
//! # Promises
//!
//! - `Shell::of` returns a shell only for its own name (`shell_name`).
//! - A text in quotes is written character by character, and no character of it ends the quotes (`posix_quoted`,
//!   `fish_quoted`).
//! - A text in the manual page is written so that no character of it is read as roff (`roff_escaped`).
//! - Only tests check the scripts and the page as a whole.
#![tactic(auto)]

mod arguments;
mod bash;
mod completions;
mod fish;
mod manual;
mod roff;
mod script;
mod shell;
mod words;
mod zsh;

pub use completions::push_completions;
pub use manual::push_manual;
pub use shell::Shell;
