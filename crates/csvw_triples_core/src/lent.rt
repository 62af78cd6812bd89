//! Triples that are lent: their parts are borrowed.
//!
//! A `TripleRef` beside a `Triple` is as a `&str` beside a `String`. It costs no memory.
ghost use Rattle.std.specs.Prelude.{◌≡◌, IfOk, is_some, true};
ghost use Rattle.csvw_iri.specs.Vocabulary.{lang_string};

use crate::{Lit, Node, Origin, Term, Triple};
use csvw_iri::Iri;
use csvw_text::{LanguageTag, Text};
use std::alloc::{AllocError, Global};

/// The subject of a triple that is lent: an IRI or a blank node.
#[derive(Clone, Copy, Debug)]
pub enum NodeRef<'a> {
    /// An IRI.
    Named(&'a Iri),
    /// A blank node, by its origin.
    Blank(Origin),
}

/// A literal that is lent: its lexical form, its datatype and perhaps its language.
#[derive(Clone, Copy, Debug)]
pub struct LitRef<'a> {
    /// Its lexical form.
    pub text: &'a str,
    /// Its datatype.
    pub datatype: &'a Iri,
    /// Its language, if it has one.
    pub lang: Option<&'a LanguageTag>,
    /// If it has a language, its datatype is rdf:langString.
    pub ghost tagged: { is_some lang ≡ true → datatype.now ≡ lang_string },
}

/// The object of a triple that is lent: an IRI, a blank node or a literal.
#[derive(Clone, Copy, Debug)]
pub enum TermRef<'a> {
    /// An IRI.
    Named(&'a Iri),
    /// A blank node, by its origin.
    Blank(Origin),
    /// A literal.
    Literal(LitRef<'a>),
}

/// A triple that is lent: its subject, predicate and object.
#[derive(Clone, Copy, Debug)]
pub struct TripleRef<'a> {
    /// Its subject.
    pub s: NodeRef<'a>,
    /// Its predicate.
    pub p: &'a Iri,
    /// Its object.
    pub o: TermRef<'a>,
}

impl Node {
    ghost use Rattle.csvw_triples_core.specs.Lent.{node_of};

    /// Lends the node. It takes no memory.
    #[inline(always)]
    pub fn as_ref(&self) -> NodeRef<'_>
        ensures { node_of result ≡ self.now }
    {
        match self {
            Node::Named(iri) => NodeRef::Named(iri),
            Node::Blank(origin) => NodeRef::Blank(*origin),
        }
    }
}

impl Lit {
    ghost use Rattle.csvw_triples_core.specs.Lent.{lit_of};

    /// Lends the literal. It takes no memory.
    #[inline(always)]
    pub fn as_ref(&self) -> LitRef<'_>
        ensures { lit_of result ≡ self.now }
    {
        LitRef {
            text: self.text.as_str(),
            datatype: &self.datatype,
            lang: self.lang.as_ref(),
        }
    }
}

impl Term {
    ghost use Rattle.csvw_triples_core.specs.Lent.{term_of};

    /// Lends the term. It takes no memory.
    #[inline(always)]
    pub fn as_ref(&self) -> TermRef<'_>
        ensures { term_of result ≡ self.now }
    {
        match self {
            Term::Named(iri) => TermRef::Named(iri),
            Term::Blank(origin) => TermRef::Blank(*origin),
            Term::Literal(lit) => TermRef::Literal(lit.as_ref()),
        }
    }
}

impl Triple {
    ghost use Rattle.csvw_triples_core.specs.Lent.{triple_of};

    /// Lends the triple. It takes no memory.
    #[inline(always)]
    pub fn as_ref(&self) -> TripleRef<'_>
        ensures { triple_of result ≡ self.now }
    {
        TripleRef {
            s: self.s.as_ref(),
            p: &self.p,
            o: self.o.as_ref(),
        }
    }
}

impl<'a> NodeRef<'a> {
    ghost use Rattle.csvw_triples_core.specs.Lent.{node_of};

    /// Returns the node that is lent, in memory of its own. Fails with `AllocError` if memory runs out.
    pub fn to_node(&self, alloc: Global) -> Result<Node, AllocError>
        ensures { IfOk result (λ n. n ≡ node_of self.now) }
    {
        match *self {
            NodeRef::Named(iri) => Ok(Node::Named(iri.clone(alloc)?)),
            NodeRef::Blank(origin) => Ok(Node::Blank(origin)),
        }
    }
}

impl<'a> LitRef<'a> {
    ghost use Rattle.csvw_triples_core.specs.Lent.{lit_of};

    /// Returns the literal that is lent, in memory of its own. Fails with `AllocError` if memory runs out.
    pub fn to_lit(&self, alloc: Global) -> Result<Lit, AllocError>
        ensures { IfOk result (λ l. l ≡ lit_of self.now) }
    {
        let text = Text::copied(alloc, self.text)?;
        let datatype = self.datatype.clone(alloc)?;
        let lang = match self.lang {
            Some(tag) => Some(tag.clone(alloc)?),
            None => None,
        };
        Ok(Lit {
            text,
            datatype,
            lang,
        })
    }
}

impl<'a> TermRef<'a> {
    ghost use Rattle.csvw_triples_core.specs.Lent.{term_of};

    /// Returns the term that is lent, in memory of its own. Fails with `AllocError` if memory runs out.
    pub fn to_term(&self, alloc: Global) -> Result<Term, AllocError>
        ensures { IfOk result (λ t. t ≡ term_of self.now) }
    {
        match *self {
            TermRef::Named(iri) => Ok(Term::Named(iri.clone(alloc)?)),
            TermRef::Blank(origin) => Ok(Term::Blank(origin)),
            TermRef::Literal(ref lit) => Ok(Term::Literal(lit.to_lit(alloc)?)),
        }
    }
}

impl<'a> TripleRef<'a> {
    ghost use Rattle.csvw_triples_core.specs.Lent.{triple_of};

    /// Returns the triple that is lent, in memory of its own. Fails with `AllocError` if memory runs out.
    pub fn to_triple(&self, alloc: Global) -> Result<Triple, AllocError>
        ensures { IfOk result (λ t. t ≡ triple_of self.now) }
    {
        Ok(Triple {
            s: self.s.to_node(alloc)?,
            p: self.p.clone(alloc)?,
            o: self.o.to_term(alloc)?,
        })
    }
}
