//! The triples of rows: the part of csvw_triples that converts the rows of a table (csv2rdf, section 4.2).
//!
//! # Promises
//!
//! - A row with values, lists, ordered lists and links makes exactly its triples by the mode, for every sink
//!   (`emit_row`, `Emitter::emit_row`).
//! - After an error the sink took a front of these triples, each of them whole. After `Device` the device failed
//!   within the next triple (`emit_row`).
//! - As a set, the triples of a row are its graph (`row_triples_are_row_graph`). In minimal mode that is the graph
//!   of csv2rdf's minimal mode. Standard mode adds the triples about the row.
//! - Standard mode has a `csvw:describes` for the subject of each cell, null or not, whose column is not suppressed
//!   (`RowGraph`).
//! - Standard mode has a `csvw:title` for each value of a cell whose column is one of the row titles, suppressed or
//!   not. Null has none. The title is in the language of the column, or a string if that is unknown (`RowGraph`).
//! - As a set, the triples of all rows of a table are its graph (`rows_triples_are_table_graph`).
//! - After `Memory` the sink is open as before, and its count of failures is the same. After `Device` it is closed,
//!   and the count is higher if it has room. `Closed` comes only from a sink that was closed (`Ends`).
#![tactic(auto)]

mod csvw_names;
mod emitter;
mod laws;
mod literals;
mod putting;
mod rdf;
mod standard;
mod stem;
mod titles;

pub use csvw_triples_core::{
    Lit, Mode, Node, Origin, SinkFault, Term, Triple, TripleSink, VecSink,
};
pub use emitter::{Emitter, emit_row};
pub use laws::{row_triples_are_row_graph, rows_triples_are_table_graph};
pub use putting::put_all;
pub use standard::table_node;
