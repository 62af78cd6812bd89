//! Links of a constant front and one percent-encoded value after it. Most templates have such links.
//!
//! The front is an absolute URL or `#`. No pass goes over the value: a percent-encoded text stays in the path, the
//! query or the fragment in which it is.
ghost use Rattle.std.specs.Prelude.{◌≡◌, ◌∷◌, [], IfOk, IfSome};
ghost use Rattle.csvw_template.specs.declared.bound.Binding.TheVariants.{At};
ghost use Rattle.csvw_annotate.specs.Simple.{IsSimple, front_text};

use csvw_iri::OwnFront;
use csvw_template::{Binding, BoundPart, Operator};
use std::alloc::{AllocError, Global};

/// The front of such links.
#[derive(Drop)]
pub enum SimpleFront {
    /// `#`: the links are fragments.
    Hash,
    /// The start of an absolute URL.
    Url(OwnFront),
}

/// A link of a constant front and one value.
#[derive(Drop)]
pub struct SimpleLink {
    /// The front of the link.
    pub(crate) front: SimpleFront,
    /// The place of the value, from 0.
    pub(crate) place: usize,
}

/// Returns the front that a text is, if it is one.
fn front_of(alloc: Global, text: &str) -> Result<Option<SimpleFront>, AllocError>
    ensures { IfOk result (λ found. IfSome found (λ front. front_text front ≡ text.now)) }
{
    if matches!(text.as_bytes(), [b'#']) {
        return Ok(Some(SimpleFront::Hash));
    }
    match OwnFront::of(alloc, text)? {
        Some(front) => Ok(Some(SimpleFront::Url(front))),
        None => Ok(None),
    }
}

/// Returns the place of the value, if there is only one.
fn place_of(bindings: &[Binding]) -> Option<usize>
    ensures { IfSome result (λ place. bindings.now ≡ At place ∷ []) }
{
    match bindings {
        [Binding::At(place)] => Some(*place),
        _ => None,
    }
}

/// Returns the simple link that bound parts are, if they are one. Returns `AllocError` if memory runs out.
pub(crate) fn simple_of(
    alloc: Global,
    parts: &[BoundPart],
) -> Result<Option<SimpleLink>, AllocError>
    ensures { IfOk result (λ found. IfSome found (λ link. IsSimple parts.now link.front link.place)) }
{
    let [
        BoundPart::Written(text),
        BoundPart::Values(Operator::Simple, bindings),
    ] = parts
    else {
        return Ok(None);
    };
    let Some(place) = place_of(bindings.as_slice()) else {
        return Ok(None);
    };
    match front_of(alloc, text.as_str())? {
        Some(front) => Ok(Some(SimpleLink { front, place })),
        None => Ok(None),
    }
}
