//! Writes triples as they are read, one after the other.

use crate::convert::{LANG_STRING, iri, note};
use crate::stop::Stop;
use csvw_iri::Iri;
use csvw_ntriples::{NtLit, NtNode, NtTerm, NtTriple};
use csvw_text::Text;
use csvw_triples_core::{LitRef, NodeRef, TermRef, TripleRef, TripleSink};
use std::alloc::Global;

/// The IRIs of the triple before. An IRI that comes again in the same position is not made again.
#[derive(Drop)]
pub(crate) struct Copier {
    alloc: Global,
    /// The last subject that is an IRI.
    subject: Iri,
    /// The last predicate.
    predicate: Iri,
    /// The last object that is an IRI, or the datatype of the last literal.
    object: Iri,
}

/// Keeps the IRI of a text, unless it is the one that was kept.
fn keep(alloc: Global, kept: &mut Iri, text: &Text) -> Result<(), Stop> {
    if kept.as_str() != text.as_str() {
        *kept = iri(alloc, text)?;
    }
    Ok(())
}

impl Copier {
    /// Returns a copier that has seen no triple.
    pub(crate) fn new(alloc: Global) -> Result<Copier, Stop> {
        let none = Text::new(alloc);
        Ok(Copier {
            alloc,
            subject: iri(alloc, &none)?,
            predicate: iri(alloc, &none)?,
            object: iri(alloc, &none)?,
        })
    }

    /// Writes a triple. Fails with `NotWritable` if the sink never writes such an IRI or label.
    pub(crate) fn put<S: TripleSink>(&mut self, read: &NtTriple, sink: &mut S) -> Result<(), Stop> {
        self.keep(read)?;
        let triple = TripleRef {
            s: self.subject(&read.s)?,
            p: &self.predicate,
            o: self.object(&read.o)?,
        };
        sink.put_ref(self.alloc, &triple)?;
        Ok(())
    }

    /// Keeps the IRIs of a triple.
    fn keep(&mut self, read: &NtTriple) -> Result<(), Stop> {
        if let NtNode::Named(text) = &read.s {
            keep(self.alloc, &mut self.subject, text)?;
        }
        keep(self.alloc, &mut self.predicate, &read.p)?;
        match &read.o {
            NtTerm::Named(text) => keep(self.alloc, &mut self.object, text),
            NtTerm::Blank(_) => Ok(()),
            NtTerm::Literal(literal) => keep(self.alloc, &mut self.object, &literal.datatype),
        }
    }

    fn subject(&self, read: &NtNode) -> Result<NodeRef<'_>, Stop> {
        match read {
            NtNode::Named(_) => Ok(NodeRef::Named(&self.subject)),
            NtNode::Blank(name) => Ok(NodeRef::Blank(note(name)?)),
        }
    }

    fn object<'a>(&'a self, read: &'a NtTerm) -> Result<TermRef<'a>, Stop> {
        match read {
            NtTerm::Named(_) => Ok(TermRef::Named(&self.object)),
            NtTerm::Blank(name) => Ok(TermRef::Blank(note(name)?)),
            NtTerm::Literal(literal) => Ok(TermRef::Literal(self.literal(literal)?)),
        }
    }

    fn literal<'a>(&'a self, read: &'a NtLit) -> Result<LitRef<'a>, Stop> {
        if read.lang.is_some() && self.object.as_str() != LANG_STRING {
            return Err(Stop::NotWritable);
        }
        Ok(LitRef {
            text: read.text.as_str(),
            datatype: &self.object,
            lang: read.lang.as_ref(),
        })
    }
}
