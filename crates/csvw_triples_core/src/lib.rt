//! Triples and what takes them: the lower part of csvw_triples.
//!
//! A `Triple` is a triple of RDF. Its blank nodes are named by their origins (`Origin`), not by labels. A `TripleRef`
//! is a triple whose parts are borrowed. A `TripleSink` takes triples one after the other, owned or lent. `VecSink`
//! is a sink that keeps them in a list.
//!
//! # Promises
//!
//! - A sink that returns Ok took the triple at its end (`TripleSink::put`).
//! - On every error the sink gains nothing (`TripleSink::put`).
//! - A lent triple is taken as the owned triple that it is (`TripleSink::put_ref`).
//! - After `Device` at most a proper part of the triple went out (`cuts`).
#![tactic(auto)]

mod lent;
mod mode;
mod origin;
mod sink;
mod term;
mod vec_sink;

pub use lent::{LitRef, NodeRef, TermRef, TripleRef};
pub use mode::Mode;
pub use origin::Origin;
pub use sink::{SinkFault, TripleSink};
pub use term::{Lit, Node, Term, Triple};
pub use vec_sink::VecSink;
