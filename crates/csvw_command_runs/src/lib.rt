//! The runs of the program over its files and two streams, without the pages for people: of a group, of a part of one and
//! of a table without metadata; and what they report on standard error.
//!
//! ```text
//! let asked = GroupRun {
//!     group: &group,
//!     mode: Mode::Standard,
//! };
//! let ended = run_group(alloc, asked, &mut opener, &mut out, &mut err);
//! ```
//!
//! # Promises
//!
//! - `run_group` opens the document, its resources and the files of the tables, runs over them, and hands the readers back
//!   (`RunsGroup`). `run_plain` does so for one table (`RunsPlain`).
//! - `tell_stop` writes the line of a stop (`line_of`) and returns its status. The status is 4 if memory, a file or a
//!   stream failed, else 3 (`TellsStop`).
//! - The status of an outcome is 0 if no fault is an error, else 1 (`outcome_status`). No status is above 4.
//! - A text that is asked for goes to the output (`GivesText`). Of `run_split`, `run_keys`, `run_join` and `run_one_part`
//!   only the bound of the status is promised.
#![tactic(auto)]

mod defaults;
mod group;
mod keys;
mod line;
mod parts;
mod plain;
mod plans;
mod profile;
mod reports;
mod resources;
mod split;
mod tell;
mod texts;

pub use defaults::{is_csv, is_default, is_whole};
pub use group::{Ended, GroupRun, run_group};
pub use keys::run_keys;
pub use parts::run_one_part;
pub use plain::{PlainTable, run_plain};
pub use profile::profile_of;
pub use reports::run_join;
pub use resources::resource_files;
pub use split::run_split;
pub use tell::{REFUSED, SUCCESS, send, tell_mistake, tell_stop};
pub use texts::{give_text, run_completions, run_explain, run_manual};
