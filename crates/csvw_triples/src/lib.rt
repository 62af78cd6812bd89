//! The triples of a group of tables: those of the opening, which come before any row, and those of each row
//! (csv2rdf, section 4.2).
//!
//! The opening describes the group and its tables in standard mode. A session puts it into its sink when it starts.
//! The crate also exports the types of csvw_triples_core and the functions of csvw_triples_rows.
//!
//! # Promises
//!
//! - Standard mode describes the group and each table that is not suppressed, with their annotations
//!   (`emit_opening`). The other modes have no opening.
//! - Every sink takes exactly these triples (`emit_opening`). After an error it took a front of them, each triple
//!   whole. After `Device` the device failed within the next triple.
//! - As a set, these triples are what csv2rdf says of the group and its tables (`opening_is_the_graphs`).
//! - The blank nodes of annotations have numbers from 1, in the order in which the triples lead to them
//!   (`notes_are_numbered_in_order`).
#![tactic(auto)]

mod draft;
mod laws;
mod names;
mod notes;
mod opening;

pub use csvw_triples_core::{
    Lit, LitRef, Mode, Node, NodeRef, Origin, SinkFault, Term, TermRef, Triple, TripleRef,
    TripleSink, VecSink,
};
pub use csvw_triples_rows::{
    Emitter, emit_row, row_triples_are_row_graph, rows_triples_are_table_graph,
};
pub use laws::{notes_are_numbered_in_order, opening_is_the_graphs};
pub use opening::emit_opening;
