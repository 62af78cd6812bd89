//! Calls that may run out of memory, over texts in memory. For each it prints what was returned, what its writer or its
//! value holds, and what the next call returns. hostile/refused_growths runs it with each allocation refused in turn.
//!
//! # Promises
//!
//! - It is safe and ends.
#![tactic(auto)]

mod documents;
mod groups;
mod keys;
mod marks;
mod runs;
mod sessions;
mod tables;
mod templates;

use std::io;

fn main(rt: HostRuntime) -> io::Result<()> {
    runs::print_runs(&rt)?;
    sessions::print_sessions(&rt)?;
    documents::print_documents(&rt)?;
    templates::print_templates(&rt)?;
    keys::print_keys(&rt)
}
