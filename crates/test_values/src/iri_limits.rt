//! Texts of 65,536 bytes, which is the limit, and longer ones.
use crate::claims::Claim;
use crate::links::gives;
use crate::tables::Case;
use crate::telling::base_tells;
use csvw_iri::Base;
use std::alloc::Global;

/// The text before the letters of long links.
const FRONT: &str = "http://example.org/x/";

/// The cases against `http://example.org/p.csv`. The limit of a link applies to its text with its prefix replaced,
/// here by 25 bytes.
pub(crate) static TEXTS: [Case; 8] = [
    (Claim::AllGive, ("", 65536), ("http://example.org/", 65536)),
    (Claim::IsBase, ("", 65536), ("BadUrl", 0)),
    (Claim::AllGive, ("", 65537), ("UrlTooLong", 0)),
    (Claim::IsBase, ("", 65537), ("UrlTooLong", 0)),
    (
        Claim::Links,
        ("dc:", 65511),
        ("http://purl.org/dc/terms/", 65511),
    ),
    (Claim::Resolves, ("dc:", 65511), ("dc:", 65511)),
    (Claim::Links, ("dc:", 65512), ("UrlTooLong", 0)),
    (Claim::Resolves, ("dc:", 65512), ("dc:", 65512)),
];

/// The cases of percent-encoded texts, against a base.
pub(crate) static ENCODED: [Case; 4] = [
    (
        Claim::IsBehind(FRONT),
        ("", 65_536 - FRONT.len()),
        ("", 65_536 - FRONT.len()),
    ),
    (Claim::IsUnseen(FRONT), ("", 65_537 - FRONT.len()), ("", 0)),
    (Claim::IsFragment, ("", 65_535), ("", 65_535)),
    (Claim::IsUnseenFragment, ("", 65_536), ("", 0)),
];

/// Returns whether each call that takes this base returns the expected result.
pub(crate) fn all_give(alloc: Global, base: &Base, text: &str, want: &str) -> bool {
    gives(alloc, base, text, want) && base_tells(alloc, base.join(alloc, text), want)
}
