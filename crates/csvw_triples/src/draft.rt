//! A list of triples that grows.
ghost use Rattle.std.specs.Prelude.{◌≡◌, ◌≤◌, ◌∷◌, [], IfOk, OnOk, length};
ghost use Rattle.csvw_triples.specs.Blanks.{is_blank, object_node};

use csvw_iri::Iri;
use csvw_triples_rows::{Node, Origin, Triple};
use std::alloc::{AllocError, Global};

/// The triples of an opening so far.
#[derive(Debug, Drop)]
pub struct Draft {
    /// How many blank nodes of annotations they have.
    pub blanks: u64,
    /// The triples, in their order.
    pub triples: Vec<Triple>,
    /// Each of those blank nodes is the object of a triple of its own.
    pub ghost are_counted: { blanks ≤ length triples.items },
}

/// Returns 1 if an object of an annotation is a blank node, and 0 if it has an `@id`.
pub(crate) fn is_blank(id: &Option<Iri>) -> u64
    ensures { result ≡ is_blank id.now }
{
    match id {
        Some(_) => 0,
        None => 1,
    }
}

impl Draft {
    ghost use Rattle.csvw_triples.specs.Growing.{Grows};

    /// Makes a draft without triples. It takes no memory.
    pub fn new(alloc: Global) -> Draft
        ensures triples { result.triples.items ≡ [] }
        ensures blanks { result.blanks ≡ 0 }
    {
        Draft {
            blanks: 0,
            triples: Vec::new(alloc),
        }
    }

    /// Adds a triple whose object is not a new blank node of an annotation. Fails with `AllocError` if memory runs
    /// out.
    pub fn push(&mut self, triple: Triple) -> Result<(), AllocError>
        ensures { OnOk result (Grows self.old (triple ∷ []) 0 self.new) }
    {
        self.triples.push(triple)?;
        Ok(())
    }

    /// Returns the node of the next object: its `@id` if it has one, else the next blank node. Fails with
    /// `AllocError` if memory runs out.
    pub fn object_node(&self, alloc: Global, id: &Option<Iri>) -> Result<Node, AllocError>
        ensures { IfOk result (λ s. s ≡ object_node self.now.blanks id.now) }
    {
        match id {
            Some(iri) => Ok(Node::Named(iri.clone(alloc)?)),
            None => Ok(Node::Blank(Origin::Note(self.blanks + 1))),
        }
    }
}
