//! The page of a check: how the faults of a group of tables, its stop and its document are shown to people, as text, as
//! HTML and as JSON.
//!
//! This is the middle part of `csvw check`. It reads no tables through a session and finds no faults. The upper part,
//! csvw_check, does, and shows here what it found: `Report::show` shows a group that was read, `show_alone` why nothing of
//! it can be read, and `tell_stop` a stop. A document that is refused is shown with all of its faults (`Refused`). The
//! lower parts are csvw_page (the forms of a page), csvw_hints (rules and places) and csvw_reread (the rows of faults).
//!
//! # Promises
//!
//! - Proved: each call is safe and ends.
//! - Proved: `push_escaped` (csvw_page) adds a text with `<`, `>`, `&`, `"` and `'` replaced by character references, and
//!   nothing else changed (`escaped`).
//! - Tested alone: the texts of the pages.
#![tactic(auto)]

mod asked;
mod bound_hint;
mod datatype_hint;
mod document;
mod expected;
mod format_hint;
mod missing;
mod near;
mod objects;
mod reference_hint;
mod refused;
mod report;
mod resource_hint;
mod source;
mod status;
mod stop;
mod unknown;

pub use asked::{Check, Show, ShowTable, Strict};
pub use csvw_files::ResourceFile;
pub use csvw_hints::{Group, Tables};
pub use csvw_meta::Profile;
pub use csvw_page::{Color, DEVICE, Form, Halt, Page, REFUSED, push_escaped};
pub use csvw_reread::{Repeat, Shown, Walker, paths};
pub use document::{Alone, UnreadFile, end_page, plan_of, show_alone, tell_plain, tell_unread};
pub use refused::Refused;
pub use report::Report;
pub use source::{Document, Opened, Source, open_document, unread_file};
pub use status::{status_of, status_of_stop};
pub use stop::{Stopped, tell_memory, tell_stop};
