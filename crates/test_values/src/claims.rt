//! The claims of the rows of the tables.
use crate::bases::{has_fragment, joins};
use crate::encoded::{encodes, is_behind, is_fragment, is_unseen, is_unseen_fragment};
use crate::iri_limits::all_give;
use crate::iris::{is_less, is_made, is_one, is_shown_as, makes_copies};
use crate::links::{expands, gives, is_replaced, stays};
use crate::own::{follows, gives_own, is_no_front};
use crate::telling::{base_tells, tells};
use csvw_iri::{Base, link, resolve};
use std::alloc::{AllocError, Global};

/// The claim of a row about a text and the expected result, with a base.
#[derive(Clone, Copy)]
pub(crate) enum Claim {
    /// The base of the text is the expected one.
    IsBase,
    /// The text joins to the expected base, on a copy of the base.
    Joins,
    /// The base with the text as its fragment is the expected IRI.
    HasFragment,
    /// The text resolves to the expected IRI.
    Resolves,
    /// The link of the text is the expected one.
    Links,
    /// The text resolves to the expected IRI, and its link is the same.
    Gives,
    /// `resolve`, `link` and `join` return the expected result.
    AllGive,
    /// The text is a prefix that is replaced by the expected IRI.
    IsReplaced,
    /// The text is a prefix that stays if `//` follows.
    Stays,
    /// The expansion of the text is the expected one.
    Expands,
    /// The text resolves and links to the expected IRI, also in the memory of an earlier link and after fronts.
    GivesOwn,
    /// The link of the text is the base's IRI and the text.
    Follows,
    /// The text is not a front.
    IsNoFront,
    /// The text percent-encoded is the expected one.
    Encodes,
    /// The link of the text after this front has the expected percent-encoded text.
    IsBehind(&'static str),
    /// The text after this front has no link without a parser.
    IsUnseen(&'static str),
    /// The link of the text as a fragment has the expected percent-encoded text.
    IsFragment,
    /// The text as a fragment has no link without a parser.
    IsUnseenFragment,
    /// The text made safe is the expected one.
    IsMade,
    /// The two texts are one IRI once they are made safe.
    IsOne,
    /// The text is the lesser IRI.
    IsLess,
    /// The IRI of the text equals its copy.
    MakesCopies,
    /// The IRI of the text is displayed as the expected text.
    IsShown,
}

impl Claim {
    /// Returns whether the claim holds.
    pub(crate) fn holds(
        self,
        alloc: Global,
        base: &Base,
        text: &str,
        want: &str,
    ) -> Result<bool, AllocError> {
        match self {
            Claim::IsBase => Ok(base_tells(alloc, Base::new(alloc, text), want)),
            Claim::Joins => joins(alloc, base, text, want),
            Claim::HasFragment => has_fragment(alloc, base, text, want),
            Claim::Resolves => Ok(tells(alloc, resolve(alloc, base, text), want)),
            Claim::Links => Ok(tells(alloc, link(alloc, base, text), want)),
            Claim::Gives => Ok(gives(alloc, base, text, want)),
            Claim::AllGive => Ok(all_give(alloc, base, text, want)),
            Claim::IsReplaced => is_replaced(alloc, base, text, want),
            Claim::Stays => stays(alloc, base, text),
            Claim::Expands => expands(alloc, text, want),
            Claim::GivesOwn => Ok(gives_own(alloc, base, text, want)),
            Claim::Follows => follows(alloc, base, text),
            Claim::IsNoFront => is_no_front(alloc, text),
            Claim::Encodes => encodes(alloc, text, want),
            Claim::IsBehind(front) => is_behind(alloc, base, front, text, want),
            Claim::IsUnseen(front) => is_unseen(alloc, front, text),
            Claim::IsFragment => is_fragment(alloc, base, text, want),
            Claim::IsUnseenFragment => is_unseen_fragment(alloc, base, text),
            Claim::IsMade => is_made(alloc, text, want),
            Claim::IsOne => is_one(alloc, text, want),
            Claim::IsLess => is_less(alloc, text, want),
            Claim::MakesCopies => makes_copies(alloc, text),
            Claim::IsShown => is_shown_as(alloc, text, want),
        }
    }
}
