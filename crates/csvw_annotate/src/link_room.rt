//! `LinkRoom`: the memory in which links are made, row after row.
//!
//! It keeps the links that were made last. If nothing else has one any more, the next link is made in its memory.
ghost use Rattle.std.specs.Prelude.{◌≡◌, ◌++◌, IfOk, IfSome, string_bytes};
ghost use Rattle.csvw_iri.specs.Encoded.{percent_encoded};
ghost use Rattle.csvw_iri.specs.Link.{link_of};
ghost use Rattle.csvw_template.specs.Bound.{expand_bound};
ghost use Rattle.csvw_annotate.specs.BoundLinks.{link_in};
ghost use Rattle.csvw_annotate.specs.Links.{outcome};
ghost use Rattle.csvw_annotate.specs.Simple.{front_text};

use crate::bound_link::BoundLink;
use crate::bound_parts::BoundParts;
use crate::links::{Made, outcome, too_long};
use crate::simple::SimpleFront;
use csvw_iri::{Base, Iri, MAX_TEXT, OwnFront, link_over};
use csvw_template::{Fit, Values, push_bound_within};
use std::alloc::{AllocError, Global};

/// The number of links that are kept. In most tables they are those of a row and of the row before it, which the last
/// triple still has.
const KEPT: usize = 16;

/// The memory in which links are made, row after row.
#[derive(Drop)]
pub struct LinkRoom {
    /// The allocator of more memory.
    alloc: Global,
    /// The text of the link that was made last.
    text: String,
    /// The links that were made last. Other links are made in the memory of those that nothing else has any more.
    kept: Vec<Option<Iri>>,
    /// The place of the link that is replaced next.
    next: usize,
}

impl LinkRoom {
    /// Returns memory for links. It takes none yet.
    pub fn new(alloc: Global) -> LinkRoom {
        LinkRoom {
            alloc,
            text: String::new(alloc),
            kept: Vec::new(alloc),
            next: 0,
        }
    }

    /// Returns a bound link in a row of these values, in a table of this URL. Returns `AllocError` if memory runs
    /// out.
    pub(crate) fn link_in<V: Values>(
        &mut self,
        base: &Base,
        link: &BoundLink,
        values: &V,
    ) -> Result<Made, AllocError>
        requires { V.can_look_up values.now }
        ensures { IfOk result (λ l. l ≡ link_in base.now (V.values values.now) link.now) }
    {
        match link {
            BoundLink::Same(made) => made.clone(self.alloc),
            BoundLink::Varying(parts) => match self.simple_in(base, parts, values)? {
                Some(made) => Ok(made),
                None => self.expanded_in(base, parts, values),
            },
        }
    }

    /// Returns the link of the expansion of the parts in a row of these values. The expansion stops at the limit.
    fn expanded_in<V: Values>(
        &mut self,
        base: &Base,
        parts: &BoundParts,
        values: &V,
    ) -> Result<Made, AllocError>
        requires { V.can_look_up values.now }
        ensures { IfOk result (λ l. l ≡ outcome (link_of base.now (expand_bound (V.values values.now) parts.now))) }
    {
        self.text.clear();
        match push_bound_within(&mut self.text, parts.as_slice(), values, MAX_TEXT)? {
            Fit::Whole => self.link(base, parts.front()),
            Fit::TooLong => Ok(too_long()),
        }
    }

    /// Returns the link by the parts in a row of these values, if it is a simple one that needs no parser.
    fn simple_in<V: Values>(
        &mut self,
        base: &Base,
        parts: &BoundParts,
        values: &V,
    ) -> Result<Option<Made>, AllocError>
        requires { V.can_look_up values.now }
        ensures { IfOk result (λ found. IfSome found (λ made. made ≡ outcome (link_of base.now (expand_bound (V.values values.now) parts.now)))) }
    {
        let Some(simple) = parts.simple() else {
            return Ok(None);
        };
        match values.text(simple.place) {
            Some(text) => self.simple_link(base, &simple.front, text),
            None => Ok(None),
        }
    }

    /// Returns the link of a front and the percent-encoded text after it, if it needs no parser.
    fn simple_link(
        &mut self,
        base: &Base,
        front: &SimpleFront,
        text: &str,
    ) -> Result<Option<Made>, AllocError>
        ensures { IfOk result (λ found. IfSome found (λ made.
            made ≡ outcome (link_of base.now (front_text front.now ++ percent_encoded text.now)))) }
    {
        let spare = self.take();
        let found = match front {
            SimpleFront::Hash => base.encoded_fragment(self.alloc, text, &mut self.text, spare)?,
            SimpleFront::Url(url) => url.encoded_link(self.alloc, text, &mut self.text, spare)?,
        };
        let Some(iri) = found else {
            return Ok(None);
        };
        self.keep(iri.clone(self.alloc)?)?;
        Ok(Some(Made {
            iri: Some(iri),
            is_bad: false,
            is_too_long: false,
        }))
    }

    /// Returns the link of the text, which begins with the front if there is one.
    fn link(&mut self, base: &Base, front: Option<&OwnFront>) -> Result<Made, AllocError>
        ensures { IfOk result (λ l. l ≡ outcome (link_of base.now (string_bytes self.old.text))) }
    {
        let spare = self.take();
        let made = outcome(link_over(self.alloc, base, self.text.as_str(), front, spare))?;
        if let Some(iri) = &made.iri {
            self.keep(iri.clone(self.alloc)?)?;
        }
        Ok(made)
    }

    /// Returns the link that was kept longest.
    fn take(&mut self) -> Option<Iri>
        ensures { self.new.text ≡ self.old.text }
    {
        match self.kept.get_mut(self.next) {
            Some(place) => place.take(),
            None => None,
        }
    }

    /// Keeps a link.
    fn keep(&mut self, iri: Iri) -> Result<(), AllocError> {
        match self.kept.get_mut(self.next) {
            Some(place) => *place = Some(iri),
            None => self.kept.push(Some(iri))?,
        }
        self.next = if self.next < KEPT - 1 {
            self.next + 1
        } else {
            0
        };
        Ok(())
    }
}
