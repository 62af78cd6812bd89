//! Tests of the triples of an opening that a sink takes.
use crate::tables::plan_of;
use csvw_columns::Plan;
use csvw_triples::{Mode, Node, Origin, Term, Triple, VecSink, emit_opening};
use std::alloc::Global;

/// A table without metadata of its own.
const PLAIN: &str = r#"{"@context":"http://www.w3.org/ns/csvw","url":"p.csv"}"#;

/// A triple of an opening.
struct Said {
    /// Its subject.
    subject: Origin,
    /// Its predicate.
    predicate: &'static str,
    /// The IRI that is its object, or `None` if its object is the table.
    object: Option<&'static str>,
}

/// The triples of the opening of one table in standard mode, in their order.
static STANDARD: [Said; 4] = [
    Said {
        subject: Origin::Group,
        predicate: "http://www.w3.org/1999/02/22-rdf-syntax-ns#type",
        object: Some("http://www.w3.org/ns/csvw#TableGroup"),
    },
    Said {
        subject: Origin::Group,
        predicate: "http://www.w3.org/ns/csvw#table",
        object: None,
    },
    Said {
        subject: Origin::Table(1),
        predicate: "http://www.w3.org/1999/02/22-rdf-syntax-ns#type",
        object: Some("http://www.w3.org/ns/csvw#Table"),
    },
    Said {
        subject: Origin::Table(1),
        predicate: "http://www.w3.org/ns/csvw#url",
        object: Some("http://example.org/p.csv"),
    },
];

/// Whether an object is this IRI, or the table if there is none.
fn is_object(object: &Term, iri: Option<&str>) -> bool {
    match (object, iri) {
        (Term::Named(named), Some(iri)) => named.as_str() == iri,
        (Term::Blank(origin), None) => *origin == Origin::Table(1),
        _ => false,
    }
}

/// Whether a triple says this.
fn says(triple: &Triple, said: &Said) -> bool {
    let begins = matches!(&triple.s, Node::Blank(origin) if *origin == said.subject);
    begins && triple.p.as_str() == said.predicate && is_object(&triple.o, said.object)
}

/// Whether the opening of a plan in a mode has exactly these triples.
fn opens_with(alloc: Global, plan: &Plan, mode: Mode, said: &[Said]) -> bool {
    let mut sink = VecSink::new(alloc);
    let taken = emit_opening(alloc, plan, mode, &mut sink);
    let triples = sink.triples();
    taken == Ok(())
        && triples.len() == said.len()
        && triples
            .iter()
            .zip(said.iter())
            .all(|(triple, said)| says(triple, said))
}

#[test]
fn an_opening_has_the_group_and_its_table(rt: HostRuntime) {
    let alloc = rt.alloc();
    let plan = plan_of(alloc, PLAIN);
    assert!(rt; matches!(&plan, Some(plan) if opens_with(alloc, plan, Mode::Standard, &STANDARD)));
}

#[test]
fn a_minimal_graph_has_no_opening(rt: HostRuntime) {
    let alloc = rt.alloc();
    let plan = plan_of(alloc, PLAIN);
    assert!(rt; matches!(&plan, Some(plan) if opens_with(alloc, plan, Mode::Minimal, &[])));
}
