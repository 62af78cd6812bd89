//! IRIs that are made safe.
use crate::claims::Claim;
use crate::tables::Case;
use csvw_iri::{is_raw, is_raw_text, made_safe};
use std::alloc::{AllocError, Global};
use std::process::Abort;

/// A text with each kind of character that may not be in an IRI.
const FORBIDDEN: &str = "\u{0}\n !\"#$<=>[\\]^_`{|}~\u{7F}é";

/// The text made safe.
const SAFE: &str = "%00%0A%20!%22#$%3C=%3E[%5C]%5E_%60%7B%7C%7D~\u{7F}é";

/// The cases of IRIs that are made safe.
pub(crate) static CASES: [Case; 5] = [
    (Claim::IsMade, (FORBIDDEN, 0), (SAFE, 0)),
    (Claim::IsOne, ("a|", 0), ("a%7C", 0)),
    (Claim::IsLess, ("a|", 0), ("b", 0)),
    (Claim::MakesCopies, ("a|", 0), ("", 0)),
    (Claim::IsShown, ("a|", 0), ("\"a%7C\"", 0)),
];

/// Returns whether a text that is made safe is the expected one.
pub(crate) fn is_made(alloc: Global, text: &str, want: &str) -> Result<bool, AllocError> {
    let iri = made_safe(alloc, text)?;
    Ok(iri.as_str() == want)
}

/// Returns whether two texts are one IRI once they are made safe.
pub(crate) fn is_one(alloc: Global, a: &str, b: &str) -> Result<bool, AllocError> {
    Ok(made_safe(alloc, a)? == made_safe(alloc, b)?)
}

/// Returns whether the first of two texts is the lesser IRI.
pub(crate) fn is_less(alloc: Global, a: &str, b: &str) -> Result<bool, AllocError> {
    Ok(made_safe(alloc, a)? < made_safe(alloc, b)?)
}

/// Returns whether a text's IRI equals its copy.
pub(crate) fn makes_copies(alloc: Global, text: &str) -> Result<bool, AllocError> {
    let iri = made_safe(alloc, text)?;
    Ok(iri.clone(alloc)? == iri)
}

/// Returns whether a text's IRI is displayed as the expected text.
pub(crate) fn is_shown_as(alloc: Global, text: &str, want: &str) -> Result<bool, AllocError> {
    let iri = made_safe(alloc, text)?;
    let shown = format!(in alloc; "{iri:?}")?;
    Ok(shown.as_str() == want)
}

#[test]
fn characters_are_raw(rt: HostRuntime) {
    assert!(rt; is_raw('é') && !is_raw('|'));
    assert!(rt; is_raw_text(SAFE) && !is_raw_text(FORBIDDEN));
}
