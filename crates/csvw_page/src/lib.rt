//! The page of a report: what is wrong with a group of tables, for people, as text, as HTML and as JSON.
//!
//! A `Page` takes faults, ignored properties, counts and stops one after the other, with all that is shown of each
//! (`FaultShown`, `UnknownShown`, `SpotShown`, `StopShown`, `MoreShown`). It writes them in its form, and `send` sends what is written
//! so far:
//!
//! ```text
//! let mut page = Page::new(alloc, Form::Html, Color::Never);
//! page.begin("metadata.json", None)?;
//! page.stop(&stop)?;
//! page.end(None)?;
//! page.send(out)?;
//! ```
//!
//! The crate reads no documents and no tables. csvw_check_core reads them, and fills the page.
//!
//! # Promises
//!
//! - Proved: each call is safe and ends.
//! - Proved: `push_escaped` adds a text with `<`, `>`, `&`, `"` and `'` replaced by character references, and nothing
//!   else changed (`escaped`).
//! - Tested alone: the texts of the pages.
#![tactic(auto)]

mod counts;
mod escape;
mod form;
mod halt;
mod html_form;
mod html_style;
mod json_form;
mod line;
mod page;
mod shown;
mod status;
mod text_form;

pub use counts::{Counts, Spot, spot_of};
pub use escape::push_escaped;
pub use form::{Color, Form};
pub use halt::Halt;
pub use line::{push_location, push_quoted, push_text};
pub use page::Page;
pub use shown::{
    CellShown, FaultShown, Meant, MoreShown, SpotShown, StopShown, Summary, UnknownShown,
};
pub use status::{DEVICE, INVALID, REFUSED, VALID};
