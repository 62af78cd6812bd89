//! Triples as an N-Triples document names them, with labels for blank nodes.
ghost use Rattle.std.specs.Prelude.{◌≡◌, IfOk};

use csvw_text::{LanguageTag, Text, both, copied_option};
use std::alloc::{AllocError, Global};
use std::error::Error;
use std::fmt;

/// A subject: an IRI, or a blank node by its label.
#[derive(Debug, Drop)]
pub enum NtNode {
    /// An IRI, with its escapes resolved.
    Named(Text),
    /// A blank node, by its label without `_:`.
    Blank(Text),
}

/// A literal: its text, its datatype and perhaps its language.
#[derive(Debug, Drop)]
pub struct NtLit {
    /// Its text, with its escapes resolved.
    pub text: Text,
    /// The IRI of its datatype. It is xsd:string if none is written, and rdf:langString if there is a language.
    pub datatype: Text,
    /// Its language, if it has one.
    pub lang: Option<LanguageTag>,
}

/// An object: an IRI, a blank node by its label, or a literal.
#[derive(Debug, Drop)]
pub enum NtTerm {
    /// An IRI, with its escapes resolved.
    Named(Text),
    /// A blank node, by its label without `_:`.
    Blank(Text),
    /// A literal.
    Literal(NtLit),
}

/// A triple: its subject, predicate and object. IRIs are texts with their escapes resolved.
#[derive(Debug, Drop)]
pub struct NtTriple {
    /// Its subject.
    pub s: NtNode,
    /// Its predicate.
    pub p: Text,
    /// Its object.
    pub o: NtTerm,
}

impl NtNode {
    /// Returns an equal node. Fails with `AllocError` if memory runs out.
    pub fn clone(&self, alloc: Global) -> Result<NtNode, AllocError>
        ensures { IfOk result (λ n. n ≡ self.now) }
    {
        match self {
            NtNode::Named(iri) => Ok(NtNode::Named(iri.clone(alloc)?)),
            NtNode::Blank(label) => Ok(NtNode::Blank(label.clone(alloc)?)),
        }
    }
}

impl NtLit {
    /// Returns an equal literal. Fails with `AllocError` if memory runs out.
    pub fn clone(&self, alloc: Global) -> Result<NtLit, AllocError>
        ensures { IfOk result (λ l. l ≡ self.now) }
    {
        let lang = copied_option(alloc, &self.lang);
        let kind = both(self.datatype.clone(alloc), lang);
        let (text, (datatype, lang)) = both(self.text.clone(alloc), kind)?;
        Ok(NtLit {
            text,
            datatype,
            lang,
        })
    }
}

impl NtTerm {
    /// Returns an equal term. Fails with `AllocError` if memory runs out.
    pub fn clone(&self, alloc: Global) -> Result<NtTerm, AllocError>
        ensures { IfOk result (λ t. t ≡ self.now) }
    {
        match self {
            NtTerm::Named(iri) => Ok(NtTerm::Named(iri.clone(alloc)?)),
            NtTerm::Blank(label) => Ok(NtTerm::Blank(label.clone(alloc)?)),
            NtTerm::Literal(lit) => Ok(NtTerm::Literal(lit.clone(alloc)?)),
        }
    }
}

impl NtTriple {
    /// Returns an equal triple. Fails with `AllocError` if memory runs out.
    pub fn clone(&self, alloc: Global) -> Result<NtTriple, AllocError>
        ensures { IfOk result (λ t. t ≡ self.now) }
    {
        let ends = both(self.s.clone(alloc), self.o.clone(alloc));
        let (p, (s, o)) = both(self.p.clone(alloc), ends)?;
        Ok(NtTriple { s, p, o })
    }
}

/// Why a document was not read.
#[derive(Clone, Copy, Debug, PartialEq, Eq)]
pub enum NtFault {
    /// Memory ran out.
    Memory,
    /// The bytes are not UTF-8, or not an N-Triples document.
    Syntax,
}

impl NtFault {
    /// Returns what is wrong and what to do, as a sentence without its full stop.
    fn sentence(&self) -> &'static str {
        match self {
            NtFault::Memory => "there is no memory: free some, and try again",
            NtFault::Syntax => "the bytes are no N-Triples document: correct the line that is none",
        }
    }
}

impl fmt::Display for NtFault {
    fn fmt<W: fmt::Write>(&self, f: &mut fmt::Formatter<W>) -> fmt::Result {
        f.write_str(self.sentence())
    }
}

impl Error for NtFault {}
