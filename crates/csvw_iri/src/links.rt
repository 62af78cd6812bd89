//! Links: the IRI that a text means against a base.
ghost use Rattle.std.specs.Prelude.{◌≡◌};
ghost use Rattle.csvw_iri.specs.Link.{LongTextsHaveNoLink, resolved, link_of};
ghost use Rattle.csvw_text.specs.Gives.{Gives};
ghost use Rattle.csvw_iri.specs.Fault.{refusal};

use crate::base::Base;
use crate::fault::IriFault;
use crate::front::{OwnFront, is_own_behind};
use crate::iri::Iri;
use crate::own::{is_fragment, is_own};
use crate::prefix::expand_prefix;
use crate::safe::made_safe;
use std::alloc::Global;

/// Returns the IRI that the text resolves to against the base (URL Standard, section 4.4), made safe.
///
/// Returns `UrlTooLong` if the text has more than 65,536 bytes. Otherwise returns `BadUrl` if the text does not
/// resolve to a URL. Returns `Memory` if memory runs out.
pub fn resolve(alloc: Global, base: &Base, text: &str) -> Result<Iri, IriFault>
    ensures { Gives (λ i. i) refusal result (resolved base.now text.now) }
{
    let url = base.joined(text)?;
    Ok(made_safe(alloc, url.as_str())?)
}

/// Returns the IRI that the text resolves to once its prefix is replaced.
///
/// The faults are those of `resolve`. The limit applies to the text after its prefix is replaced.
pub fn link(alloc: Global, base: &Base, text: &str) -> Result<Iri, IriFault>
    ensures { Gives (λ i. i) refusal result (link_of base.now text.now) }
{
    link_over(alloc, base, text, None, None)
}

/// Returns the same link as `link`, with the same faults.
///
/// If the link is found without a parser, it is made in the memory of an IRI that is no longer needed, unless a clone
/// shares that memory. It is found sooner if the text begins with the front that is given. The text may begin
/// otherwise.
pub fn link_over(
    alloc: Global,
    base: &Base,
    text: &str,
    front: Option<&OwnFront>,
    spare: Option<Iri>,
) -> Result<Iri, IriFault>
    ensures { Gives (λ i. i) refusal result (link_of base.now text.now) }
{
    if is_own_behind(front, text) {
        return Ok(Iri::over(alloc, text, "", spare)?);
    }
    if is_fragment(text) {
        return Ok(base.fragment_link(alloc, text, spare)?);
    }
    link_by_base(alloc, base, text)
}

/// A law: a text that is longer than the limit has no link, since no prefix is replaced by a shorter text.
pub fn long_texts_have_no_link()
    ensures { LongTextsHaveNoLink }
{}

fn link_by_base(alloc: Global, base: &Base, text: &str) -> Result<Iri, IriFault>
    ensures { Gives (λ i. i) refusal result (link_of base.now text.now) }
{
    let expanded = expand_prefix(alloc, text)?;
    if is_own(expanded.as_str()) {
        return Ok(Iri::of(alloc, expanded)?);
    }
    resolve(alloc, base, expanded.as_str())
}
