//! Converts the triples that were read into triples that can be written.

use crate::stop::Stop;
use csvw_iri::{Iri, made_safe};
use csvw_ntriples::{NtLit, NtNode, NtTerm, NtTriple};
use csvw_text::Text;
use csvw_triples_core::{Lit, Node, Origin, Term, Triple};
use itoa::Buffer;
use std::alloc::Global;

/// The datatype of a literal with a language.
pub(crate) const LANG_STRING: &str = "http://www.w3.org/1999/02/22-rdf-syntax-ns#langString";

/// Returns the number of the note with this label: `a` and a number without leading zeros.
fn note_number(name: &str) -> Option<u64> {
    let digits = name.strip_prefix("a")?;
    let number = digits.parse::<u64>().ok()?;
    let mut buffer = Buffer::new();
    if buffer.format(number) == digits {
        Some(number)
    } else {
        None
    }
}

/// Returns the note with this label. Fails with `NotWritable` if the label is not that of a note.
pub(crate) fn note(name: &Text) -> Result<Origin, Stop> {
    match note_number(name.as_str()) {
        Some(number) => Ok(Origin::Note(number)),
        None => Err(Stop::NotWritable),
    }
}

/// Returns the IRI of this text. Fails with `NotWritable` if it has a character that can't be in an IRI as it is.
pub(crate) fn iri(alloc: Global, text: &Text) -> Result<Iri, Stop> {
    let iri = made_safe(alloc, text.as_str())?;
    if iri.as_str() == text.as_str() {
        Ok(iri)
    } else {
        Err(Stop::NotWritable)
    }
}

fn node(alloc: Global, node: &NtNode) -> Result<Node, Stop> {
    match node {
        NtNode::Named(text) => Ok(Node::Named(iri(alloc, text)?)),
        NtNode::Blank(name) => Ok(Node::Blank(note(name)?)),
    }
}

fn literal(alloc: Global, read: NtLit) -> Result<Lit, Stop> {
    let NtLit {
        text,
        datatype,
        lang,
    } = read;
    let datatype = iri(alloc, &datatype)?;
    if lang.is_some() && datatype.as_str() != LANG_STRING {
        return Err(Stop::NotWritable);
    }
    Ok(Lit {
        text,
        datatype,
        lang,
    })
}

fn term(alloc: Global, read: NtTerm) -> Result<Term, Stop> {
    match read {
        NtTerm::Named(text) => Ok(Term::Named(iri(alloc, &text)?)),
        NtTerm::Blank(name) => Ok(Term::Blank(note(&name)?)),
        NtTerm::Literal(lit) => Ok(Term::Literal(literal(alloc, lit)?)),
    }
}

fn triple(alloc: Global, read: NtTriple) -> Result<Triple, Stop> {
    let NtTriple { s, p, o } = read;
    Ok(Triple {
        s: node(alloc, &s)?,
        p: iri(alloc, &p)?,
        o: term(alloc, o)?,
    })
}

/// Makes the triples that `NtSink` writes as the triples that were read. Fails with `NotWritable` if it never
/// writes such an IRI or label, and with `Memory` if memory runs out.
pub(crate) fn triples(alloc: Global, read: Vec<NtTriple>) -> Result<Vec<Triple>, Stop> {
    let mut triples = Vec::new(alloc);
    for one in read {
        let made = triple(alloc, one)?;
        let Ok(()) = triples.push(made) else {
            return Err(Stop::Memory);
        };
    }
    Ok(triples)
}
