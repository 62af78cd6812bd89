//! `Base`: a URL without a fragment, against which texts resolve.
ghost use Rattle.std.specs.Prelude.{◌≡◌, ◌++◌, IfOk, IfSome, Some, None, Ok, true, false, codes};
ghost use Rattle.csvw_iri.specs.Encoded.{percent_encoded};
ghost use Rattle.csvw_iri.specs.Safe.{is_iri, has_hash};
ghost use Rattle.csvw_iri.specs.Link.{base_of, iri_of, link_of, url_of, without_fragment};
ghost use Rattle.csvw_iri.specs.Own.{IsFragmentLink};
ghost use Rattle.csvw_text.specs.Gives.{Gives};
ghost use Rattle.csvw_iri.specs.Fault.{refusal};

use crate::encoded::push_percent_encoded;
use crate::fault::IriFault;
use crate::iri::Iri;
use crate::safe::made_safe;
use csvw_text::Copied;
use std::alloc::{AllocError, Global};
use std::marker::Model;
use url::{ParseError, Url};

/// The greatest number of bytes of a text to resolve.
pub const MAX_TEXT: usize = 65536;

/// A URL without a fragment.
#[derive(Debug, Drop)]
pub struct Base {
    url: Url,
    iri: Iri,
}

impl Model for Base {
    ghost use Rattle.std.specs.Prelude.{◌≡◌, None, false};
    ghost use Rattle.url.specs.Parts.{Parts, parts_code};
    ghost use Rattle.csvw_iri.specs.Link.{IsBase};

    ghost Value = { Parts };

    ghost coded = { parts_code };

    ghost view = { λ b. b.url };

    ghost invariant = { λ b. IsBase b.url b.iri };
}

impl Copied for Base {
    fn copied(&self, alloc: Global) -> Result<Base, AllocError> {
        self.clone(alloc)
    }
}

impl Base {
    /// Returns the URL that the text is, without its fragment.
    ///
    /// Returns `UrlTooLong` if the text has more than 65,536 bytes. Otherwise returns `BadUrl` if the text is not a
    /// URL (URL Standard, section 4.4). Returns `Memory` if memory runs out.
    pub fn new(alloc: Global, text: &str) -> Result<Base, IriFault>
        ensures { Gives (λ b. b) refusal result (base_of None text.now) }
    {
        Ok(Base::of(alloc, parsed(alloc, text)?)?)
    }

    /// Returns the URL that the text resolves to against this one, without its fragment. The faults are those of
    /// `new`.
    pub fn join(&self, alloc: Global, text: &str) -> Result<Base, IriFault>
        ensures { Gives (λ b. b) refusal result (base_of (Some self.now) text.now) }
    {
        Ok(Base::of(alloc, self.joined(text)?)?)
    }

    /// Returns the URL, made safe. It has no `#`.
    pub fn iri(&self) -> &Iri
        ensures value { result.now ≡ iri_of self.now }
        ensures no_hash { has_hash result.now ≡ false }
    {
        &self.iri
    }

    /// Returns an equal base, or `AllocError` if memory runs out.
    pub fn clone(&self, alloc: Global) -> Result<Base, AllocError>
        ensures { IfOk result (λ b. b ≡ self.now) }
    {
        Ok(Base {
            url: self.url.clone()?,
            iri: self.iri.clone(alloc)?,
        })
    }

    /// Returns the link of a fragment with its `#`, for which `is_fragment` is true: the IRI and then the text, in
    /// the memory of another IRI.
    pub(crate) fn fragment_link(
        &self,
        alloc: Global,
        text: &str,
        spare: Option<Iri>,
    ) -> Result<Iri, AllocError>
        requires link { IsFragmentLink text.now }
        requires raw { is_iri text.now ≡ true }
        ensures { IfOk result (λ i. link_of self.now text.now ≡ Ok i) }
    {
        Iri::over(alloc, self.iri.as_str(), text, spare)
    }

    /// Returns the link of `#` and the percent-encoded text.
    ///
    /// The link is made in the memory of an IRI that is no longer needed, if no clone shares that memory. `room` is
    /// for the text with its `#`. Returns `None` if the text is longer than the limit. Returns `AllocError` if memory
    /// runs out.
    pub fn encoded_fragment(
        &self,
        alloc: Global,
        text: &str,
        room: &mut String,
        spare: Option<Iri>,
    ) -> Result<Option<Iri>, AllocError>
        ensures { IfOk result (λ found. IfSome found (λ iri. link_of self.now (codes "#" ++ percent_encoded text.now) ≡ Ok iri)) }
    {
        // Percent-encoding never shortens a text.
        if text.len() > MAX_TEXT {
            return Ok(None);
        }
        room.clear();
        room.push('#')?;
        push_percent_encoded(room, text)?;
        if room.len() > MAX_TEXT {
            return Ok(None);
        }
        let iri = self.fragment_link(alloc, room.as_str(), spare)?;
        Ok(Some(iri))
    }

    fn of(alloc: Global, url: Url) -> Result<Base, AllocError>
        ensures { IfOk result (λ b. b ≡ without_fragment url) }
    {
        let url = cut(url)?;
        let iri = made_safe(alloc, url.as_str())?;
        Ok(Base { url, iri })
    }

    #[tactic(auto, unfolding(crate::specs::Link::url_of))]
    pub(crate) fn joined(&self, text: &str) -> Result<Url, IriFault>
        ensures { Gives (λ u. u) refusal result (url_of (Some self.now) text.now) }
    {
        if text.len() > MAX_TEXT {
            return Err(IriFault::UrlTooLong);
        }
        match self.url.join(text) {
            Ok(url) => Ok(url),
            Err(ParseError::OutOfMemory) => Err(IriFault::Memory),
            Err(ParseError::Overflow) => Err(IriFault::Memory),
            Err(_) => Err(IriFault::BadUrl),
        }
    }
}

#[tactic(auto, unfolding(crate::specs::Link::url_of))]
fn parsed(alloc: Global, text: &str) -> Result<Url, IriFault>
    ensures { Gives (λ u. u) refusal result (url_of None text.now) }
{
    if text.len() > MAX_TEXT {
        return Err(IriFault::UrlTooLong);
    }
    match Url::parse(alloc, text) {
        Ok(url) => Ok(url),
        Err(ParseError::OutOfMemory) => Err(IriFault::Memory),
        Err(ParseError::Overflow) => Err(IriFault::Memory),
        Err(_) => Err(IriFault::BadUrl),
    }
}

fn cut(mut url: Url) -> Result<Url, AllocError>
    ensures value { IfOk result (λ u. u ≡ without_fragment url) }
{
    if url.fragment().is_none() {
        return Ok(url);
    }
    match url.set_fragment(None) {
        Ok(()) => Ok(url),
        Err(_) => Err(AllocError),
    }
}
