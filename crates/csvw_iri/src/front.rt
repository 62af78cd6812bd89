//! `OwnFront`: a constant text with which the URLs of many rows begin.
//!
//! If a template begins with an `http` or `https` URL, the pass over what is the same in each row is made once. The
//! pass over a row's text continues from there. A percent-encoded text needs no pass of its own: it stays in the
//! path, the query or the fragment in which it is.
ghost use Rattle.std.specs.Prelude.{◌≡◌, ◌++◌, IfOk, IfSome, Ok, Some, true};
ghost use Rattle.url.specs.Parts.{Parts};
ghost use Rattle.csvw_iri.specs.Encoded.{percent_encoded};
ghost use Rattle.csvw_iri.specs.Link.{link_of};
ghost use Rattle.csvw_iri.specs.Safe.{is_iri};
ghost use Rattle.csvw_iri.specs.Own.{IsOwnFront, IsOwnLink, goes_on};
ghost use Rattle.csvw_iri.specs.declared.own.Place.TheVariants.{Segment};

use crate::base::MAX_TEXT;
use crate::encoded::push_percent_encoded;
use crate::iri::Iri;
use crate::own::{Place, after, behind_scheme, goes_on, is_own};
use csvw_text::{Text, is_unreserved};
use std::alloc::{AllocError, Global};
use std::marker::Model;

/// The text with which absolute URLs begin, and the place of the pass over their bytes after it. Contracts see the
/// text.
#[derive(Drop)]
pub struct OwnFront {
    /// The text: `http://` or `https://`, and what follows that.
    text: Text,
    /// The place to which the bytes of the text lead.
    place: Place,
}

impl Model for OwnFront {
    ghost use Rattle.std.specs.Prelude.{ℕ, List};
    ghost use Rattle.csvw_iri.specs.Own.{IsOwnFront};

    ghost Value = { List ℕ };

    ghost view = { λ f. f.text };

    ghost invariant = { λ f. IsOwnFront f.text f.place };
}

impl OwnFront {
    /// Returns the front that the text is.
    ///
    /// Returns `None` if the text does not begin with `http://` or `https://`, or if the URL Standard might write it
    /// in another way. Returns `AllocError` if memory runs out.
    pub fn of(alloc: Global, text: &str) -> Result<Option<OwnFront>, AllocError>
        ensures { IfOk result (λ found. IfSome found (λ front. front ≡ text.now)) }
    {
        let Some(place) = place_behind(text) else {
            return Ok(None);
        };
        Ok(Some(OwnFront {
            text: Text::copied(alloc, text)?,
            place,
        }))
    }

    /// Returns the link of the front and then the percent-encoded text, for any base.
    ///
    /// The link is made in the memory of an IRI that is no longer needed, if no clone shares that memory. `room` is
    /// for the encoded text. Returns `None` if the link needs the parser or is longer than the limit. Returns
    /// `AllocError` if memory runs out.
    pub fn encoded_link(
        &self,
        alloc: Global,
        text: &str,
        room: &mut String,
        spare: Option<Iri>,
    ) -> Result<Option<Iri>, AllocError>
        ensures { IfOk result (λ found. IfSome found (λ iri. (base : Parts) → link_of base (self.now ++ percent_encoded text.now) ≡ Ok iri)) }
    {
        // Percent-encoding never shortens a text.
        if text.len() > MAX_TEXT {
            return Ok(None);
        }
        if !takes(self.place, text) {
            return Ok(None);
        }
        room.clear();
        push_percent_encoded(room, text)?;
        if self.text.len().saturating_add(room.len()) > MAX_TEXT {
            return Ok(None);
        }
        let iri = Iri::over(alloc, self.text.as_str(), room.as_str(), spare)?;
        Ok(Some(iri))
    }

    /// Returns true only if the text begins with the front, has at most 65,536 bytes, and is an absolute URL as the
    /// URL Standard writes it, with nothing that IRIREF forbids.
    fn is_own(&self, text: &str) -> bool
        ensures link { result ≡ true → IsOwnLink text.now }
        ensures raw { result ≡ true → is_iri text.now ≡ true }
    {
        if text.len() > MAX_TEXT {
            return false;
        }
        match behind(self.text.as_str(), text) {
            Some(rest) => goes_on(self.place, rest.as_bytes()),
            None => false,
        }
    }
}

/// Returns true only if a pass continues from the place over the percent-encoded text to an end.
fn takes(place: Place, text: &str) -> bool
    ensures { result ≡ true → goes_on (Some place) (percent_encoded text.now) ≡ true }
{
    match place {
        Place::Path | Place::Query | Place::Fragment => true,
        Place::Segment => begins_segment(text.as_bytes()),
        Place::Front | Place::Label | Place::Percent => false,
    }
}

/// Returns true only if the text does not begin a dot segment.
fn begins_segment(text: &[u8]) -> bool
    ensures { result ≡ true → goes_on (Some Segment) (percent_encoded text.now) ≡ true }
{
    match text {
        [] => true,
        [first, ..] => is_unreserved(*first as char) && *first != b'.',
    }
}

/// Returns what follows the first text, if the other text begins with it.
fn behind<'a>(first: &str, text: &'a str) -> Option<&'a str>
    ensures { IfSome result (λ rest. text.now ≡ first.now ++ rest.now) }
{
    match text.split_at_checked(first.len()) {
        Some((front, rest)) if front == first => Some(rest),
        _ => None,
    }
}

/// Returns the place to which the bytes of a text lead that begins with `http://` or `https://`.
fn place_behind(text: &str) -> Option<Place>
    ensures { IfSome result (λ place. IsOwnFront text.now place) }
{
    after(Place::Front, behind_scheme(text.as_bytes())?)
}

/// Returns true only if the text is its own link, with nothing that IRIREF forbids. Uses the front if one is given.
pub(crate) fn is_own_behind(front: Option<&OwnFront>, text: &str) -> bool
    ensures link { result ≡ true → IsOwnLink text.now }
    ensures raw { result ≡ true → is_iri text.now ≡ true }
{
    match front {
        Some(front) => front.is_own(text),
        None => is_own(text),
    }
}
