//! Readers, writers and a sink that fail, for the tests of the other crates.
//!
//! # Promises
//!
//! - Each reader says exactly which bytes are left (`remaining`). After an error the same bytes are left.
//! - Each writer says exactly which bytes it took (`contents`). After an error it has the same bytes.
//! - `FailingSink` says exactly which triples it took (`gains`). It returns `Device` once, and `Closed` from then on.
#![tactic(auto)]

mod readers;
mod sink;
mod writers;

pub use readers::{Ended, FailingReader, Interrupted, Slow};
pub use sink::FailingSink;
pub use writers::{FlushFails, Full, Nothing, SlowWriter};
