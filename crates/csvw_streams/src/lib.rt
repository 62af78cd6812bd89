//! Readers and writers that count their failures, and a write that reports how far it came. It is a lower part of csvw_text.
//!
//! # Promises
//!
//! - A count of failures of a `Counted` rises exactly if a call fails (`read`, `write` and `flush`). An interrupted call
//!   is made again, and is not counted.
//! - A count of ends of a `Counted` rises exactly if a read returns 0 bytes into a buffer with room (`read`).
//! - `write_out` sends all the bytes, or exactly the front that its `Cut` reports.
//! - `push_parts` and `push_shown` send a line in parts without memory: what they send and what their room has are the
//!   bytes of the line, or a write failed after a front of it (`SendsOn`, `IsCut`). Control characters are escaped.
#![tactic(auto)]

mod counted;
mod line;
mod writing;

pub use counted::Counted;
pub use line::{LineCut, LineRoom, push_parts, push_shown};
pub use writing::{Cut, write_out};
