//! The library for programs: read a metadata document, plan its tables, and run them or feed them in pieces.
//!
//! A run over files and writers is one call. `meta` has the bytes of the document, `base` is its URL, and `readers` has a reader
//! for each table, in the order of the document:
//!
//! ```text
//! use csvw_api::{Counted, Mode, run};
//!
//! let mut readers = vec![in alloc; Counted::new(stations), Counted::new(levels)]?;
//! let mut out = Counted::new(graph);
//! let mut report = Counted::new(faults);
//! let ran = run(alloc, meta, base, readers.as_mut_slice(), Mode::Minimal, &mut out, &mut report);
//! match ran {
//!     Ok(outcome) => outcome.valid(),  // the graph and the report are written
//!     Err(stop) => false,              // `stop` is why, and `out` has whole lines of the rows before it
//! }
//! ```
//!
//! Tables whose bytes come in pieces, in any order, are fed to a session, over a sink of one's own ([`TripleSink`]):
//!
//! ```text
//! use csvw_api::{Description, Mode, Plan, ReadDescription, Session};
//!
//! let description = Description::read(alloc, meta, base)?;
//! let plan = Plan::build(alloc, description)?;
//! let mut session = Session::start(alloc, plan, Mode::Minimal, sink)?;
//! session.feed(1, piece)?;             // tables have numbers from 1
//! session.end(1)?;
//! let outcome = session.finish()?;     // the faults, in order
//! ```
//!
//! - `run`, `run_turns` and `plain`: csvw_engine says what they leave in `out` and `report`, for each result.
//! - `Session`: csvw_session says what its sink takes at each call; csvw_group_laws says what that is when all tables are ended.
//! - `Description::read`, `Description::read_by` and `Plan::build`: csvw_meta and csvw_columns say when they fail.
//! - `bundle`: csvw_bundle says which document it returns, whose schemas and dialects are files of their own.
//! - `with_defaults`: csvw_defaults says which values it leaves out of a document in the profile `w3c`, so that their defaults hold.
#![tactic(auto)]

pub use csvw_bundle::{Resource, bundle};
pub use csvw_columns::Plan;
pub use csvw_defaults::{Defaulted, with_defaults};
pub use csvw_engine::{Order, Request, Way, plain, run, run_by, run_turns, write_report};
pub use csvw_meta::{Description, MetaCode, MetaFault, Profile, ReadDescription};
pub use csvw_ntriples::NtSink;
pub use csvw_report::Outcome;
pub use csvw_session::{Refused, Session, Stop};
pub use csvw_text::{Code, Counted, Fault, Kind, Place};
pub use csvw_triples::{
    Lit, LitRef, Mode, Node, NodeRef, Origin, SinkFault, Term, TermRef, Triple, TripleRef,
    TripleSink, VecSink,
};
