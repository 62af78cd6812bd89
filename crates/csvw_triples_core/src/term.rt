//! Terms and triples (RDF 1.1 Concepts and Abstract Syntax, section 3).
ghost use Rattle.std.specs.Prelude.{◌≡◌, IfOk, is_some, true};
ghost use Rattle.csvw_iri.specs.Vocabulary.{lang_string};

use crate::Origin;
use csvw_iri::Iri;
use csvw_text::{LanguageTag, Text, copied_option};
use std::alloc::{AllocError, Global};

/// The subject of a triple: an IRI or a blank node.
#[derive(Debug, Drop)]
pub enum Node {
    /// An IRI.
    Named(Iri),
    /// A blank node, by its origin.
    Blank(Origin),
}

/// A literal: its lexical form, its datatype and perhaps its language.
#[derive(Debug, Drop)]
pub struct Lit {
    /// Its lexical form.
    pub text: Text,
    /// Its datatype.
    pub datatype: Iri,
    /// Its language, if it has one.
    pub lang: Option<LanguageTag>,
    /// If it has a language, its datatype is rdf:langString.
    pub ghost tagged: { is_some lang ≡ true → datatype ≡ lang_string },
}

/// The object of a triple: an IRI, a blank node or a literal.
#[derive(Debug, Drop)]
pub enum Term {
    /// An IRI.
    Named(Iri),
    /// A blank node, by its origin.
    Blank(Origin),
    /// A literal.
    Literal(Lit),
}

/// A triple: its subject, predicate and object.
#[derive(Debug, Drop)]
pub struct Triple {
    /// Its subject.
    pub s: Node,
    /// Its predicate.
    pub p: Iri,
    /// Its object.
    pub o: Term,
}

impl Node {
    /// Returns an equal node. Fails with `AllocError` if memory runs out.
    pub fn clone(&self, alloc: Global) -> Result<Node, AllocError>
        ensures { IfOk result (λ n. n ≡ self.now) }
    {
        match self {
            Node::Named(iri) => Ok(Node::Named(iri.clone(alloc)?)),
            Node::Blank(origin) => Ok(Node::Blank(*origin)),
        }
    }
}

impl Lit {
    ghost use Rattle.csvw_triples_core.specs.Literal.{typed_lit};

    /// Makes a literal with a datatype and without a language.
    pub fn typed(text: Text, datatype: Iri) -> Lit
        ensures { result ≡ typed_lit text datatype }
    {
        Lit {
            text,
            datatype,
            lang: None,
        }
    }

    /// Returns its lexical form. It takes no memory.
    pub fn into_text(self) -> Text
        ensures { result ≡ self.text }
    {
        let Lit {
            text,
            datatype: _,
            lang: _,
        } = self;
        text
    }

    /// Returns an equal literal. Fails with `AllocError` if memory runs out.
    pub fn clone(&self, alloc: Global) -> Result<Lit, AllocError>
        ensures { IfOk result (λ l. l ≡ self.now) }
    {
        let text = self.text.clone(alloc)?;
        let datatype = self.datatype.clone(alloc)?;
        let lang = copied_option(alloc, &self.lang)?;
        Ok(Lit {
            text,
            datatype,
            lang,
        })
    }
}

impl Term {
    /// Returns an equal term. Fails with `AllocError` if memory runs out.
    pub fn clone(&self, alloc: Global) -> Result<Term, AllocError>
        ensures { IfOk result (λ t. t ≡ self.now) }
    {
        match self {
            Term::Named(iri) => Ok(Term::Named(iri.clone(alloc)?)),
            Term::Blank(origin) => Ok(Term::Blank(*origin)),
            Term::Literal(lit) => Ok(Term::Literal(lit.clone(alloc)?)),
        }
    }
}

impl Triple {
    /// Returns an equal triple. Fails with `AllocError` if memory runs out.
    pub fn clone(&self, alloc: Global) -> Result<Triple, AllocError>
        ensures { IfOk result (λ t. t ≡ self.now) }
    {
        Ok(Triple {
            s: self.s.clone(alloc)?,
            p: self.p.clone(alloc)?,
            o: self.o.clone(alloc)?,
        })
    }
}
