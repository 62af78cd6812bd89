//! The parts of templates that are bound, and the front of the URLs that they make.
ghost use Rattle.std.specs.Prelude.{◌≡◌, IfOk, IfSome};
ghost use Rattle.csvw_annotate.specs.Simple.{IsSimple};

use crate::simple::{SimpleLink, simple_of};
use csvw_iri::OwnFront;
use csvw_template::BoundPart;
use csvw_text::{Seq, both};
use std::alloc::{AllocError, Global};
use std::marker::Model;

/// Bound parts, with what is found once for all rows: the front of the URLs that they make. Contracts see the parts.
#[derive(Drop)]
pub struct BoundParts {
    /// The parts.
    parts: Seq<BoundPart>,
    /// The first part, if it is a literal with which URLs begin.
    front: Option<OwnFront>,
    /// The simple link that the parts are, if they are one.
    simple: Option<SimpleLink>,
}

impl Model for BoundParts {
    ghost use Rattle.std.specs.Prelude.{List, IfSome};
    ghost use Rattle.csvw_template.specs.declared.bound.BoundPart.{BoundPart};
    ghost use Rattle.csvw_annotate.specs.Simple.{IsSimple};

    ghost Value = { List BoundPart };

    ghost view = { λ b. b.parts };

    ghost invariant = { λ b. IfSome b.simple (λ link. IsSimple b.parts link.front link.place) };
}

impl BoundParts {
    /// Returns the parts with their front, or `AllocError` if memory runs out.
    pub(crate) fn new(alloc: Global, parts: Seq<BoundPart>) -> Result<BoundParts, AllocError>
        ensures { IfOk result (λ b. b ≡ parts) }
    {
        let front = front_of(alloc, parts.as_slice());
        let simple = simple_of(alloc, parts.as_slice());
        let (front, simple) = both(front, simple)?;
        Ok(BoundParts {
            parts,
            front,
            simple,
        })
    }

    /// Returns the parts.
    pub(crate) fn as_slice(&self) -> &[BoundPart]
        ensures { result.now ≡ self.now }
    {
        self.parts.as_slice()
    }

    /// Returns the front of the URLs that they make, if it is known.
    pub(crate) fn front(&self) -> Option<&OwnFront> {
        self.front.as_ref()
    }

    /// Returns the simple link that the parts are, if they are one.
    pub(crate) fn simple(&self) -> Option<&SimpleLink>
        ensures { IfSome result (λ link. IsSimple self.now link.now.front link.now.place) }
    {
        self.simple.as_ref()
    }
}

/// Returns the front that the first part is.
fn front_of(alloc: Global, parts: &[BoundPart]) -> Result<Option<OwnFront>, AllocError> {
    match parts {
        [BoundPart::Written(text), ..] => OwnFront::of(alloc, text.as_str()),
        _ => Ok(None),
    }
}
