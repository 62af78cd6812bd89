//! N-Triples documents: a sink that writes triples as lines, and a reader (RDF 1.1 N-Triples).
//!
//! # Promises
//!
//! - A sink writes whole lines of its triples (`NtSink::put`). After a failed write the bytes end with a proper
//!   front of the line of the triple that was put, which fits the grammar. Nothing more follows.
//! - The bytes denote the triples, each blank node by its label (`written_denotes`).
//! - Labels of different blank nodes differ (`labels_differ`). The triples that are written are the same graph, up
//!   to the names of blank nodes (`labels_name_one_to_one`).
//! - Bytes denote at most one list of triples (`denotes_one_list`).
//! - A text denotes a list, line by line, exactly if it is a document of that list by the production `ntriplesDoc`
//!   (`document_is_the_grammars`). Terminals are the longest in the whole text.
//! - `read` returns that list exactly if there is one.
//! - `NtReader` returns it one triple after the other, in the memory of the longest line. The triples that it
//!   returned are those that the bytes before its place denote, also if a later line is wrong (`NtReader::next`).
//!   The document denotes them, followed by what the rest denotes (`passes_join`, `passed_then_rest`,
//!   `wrong_line_denotes_none`).
#![tactic(auto)]

mod copy;
mod laws;
mod line;
mod nt_sink;
mod reading;
mod row_label;
mod scratch;
mod term;
mod unescaped;
mod write;

pub use laws::{
    denotes_one_list, document_is_the_grammars, labels_differ, labels_name_one_to_one,
    passed_then_rest, passes_join, written_denotes, wrong_line_denotes_none,
};
pub use nt_sink::NtSink;
pub use reading::{NtReader, read};
pub use term::{NtFault, NtLit, NtNode, NtTerm, NtTriple};
