//! Whole runs over a group of tables: from readers to a graph in N-Triples and a report.
//!
//! `run` and `run_turns` read the tables that a metadata document describes. `plain` reads one table that a URL
//! alone describes: its group is what csvw_meta makes of the URL, and its header names its columns.
//!
//! `TripleSink`'s `gains` carries the triples from the start of a run to its end, whatever the pieces are. `Stands`
//! (csvw_session) ties them to the rows of the bytes so far, and `Annotates` (csvw_group_laws) to the graph of the
//! group. `convert_tables` turns that into bytes by the laws of csvw_ntriples.
//!
//! # Promises
//!
//! - A run that is Ok wrote the graph of the group that the document and the readers' texts are, by the mode. It
//!   reported the violations of the group (`run`, `run_turns`, `run_by` and `plain`, each by `Runs`).
//! - For each stop, a run says why it stops and what it wrote before it (`Runs`).
//! - Over an N-Triples sink a session writes whole lines of what the sink took, also if it did not start
//!   (`sessions_write_lines`, `refused_starts_write_lines`).
//! - A later call of a session that stopped changes nothing (`stopped_sessions_stay`).
//! - A run over the texts of annotated tables is Ok, unless memory runs out or the count of failures of a reader or
//!   a writer rises. It may also fail if the texts have 2^40 bytes or more, less one for each table
//!   (`good_runs_succeed`).
//! - A report that stops is a front of the report. Its writer failed exactly if the result is `Write`
//!   (`write_report`, `StopsReport`).
#![tactic(auto)]

mod flush;
mod group;
pub mod laws;
mod plan;
mod read_laws;
mod reading;
mod reporting;
mod room;
mod run_group;
mod turns;

pub use csvw_columns::TableStop;
pub use csvw_meta_core::{MetaCode, MetaFault, Profile};
pub use csvw_report::Outcome;
pub use csvw_session::{Refused, Session, Stop};
pub use csvw_triples_core::Mode;
pub use group::Way;
pub use plan::planned;
pub use reporting::write_report;
pub use room::Order;
pub use run_group::{Request, plain, run, run_by, run_turns};
