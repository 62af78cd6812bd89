//! Links without a parser: URLs as the URL Standard writes them, and fragments.
//!
//! The expansion of a template is mostly an `http` or `https` URL as the URL Standard writes it, or a fragment. One
//! pass over its bytes finds that. Its link is then the text itself, or the base's IRI and the text. Any other text
//! is parsed.
ghost use Rattle.std.specs.Prelude.{◌≡◌, ◌≤◌, ◌++◌, true, Some, IfSome, codes, length, drop};
ghost use Rattle.csvw_iri.specs.Safe.{is_iri};
ghost use Rattle.csvw_iri.specs.Own.{IsOwnLink, IsFragmentLink, IsOfScheme};
ghost use Rattle.csvw_iri.specs.Own.{is_plain, is_lower, is_of_label, of_label, of_path, of_query, step, is_end, goes_on, after};

use crate::base::MAX_TEXT;
use crate::safe::is_raw;
use percent_encoding::{AsciiSet, NON_ALPHANUMERIC, ascii_set};

/// All of ASCII except `%` and the characters that are unreserved in a URI (RFC 3986, section 2.3).
const BUT_STAYING: AsciiSet = ascii_set!(
    NON_ALPHANUMERIC
        .remove(b'%')
        .remove(b'-')
        .remove(b'.')
        .remove(b'_')
        .remove(b'~')
);

/// The place of a pass over the bytes after `http://`.
#[derive(Clone, Copy, Debug, PartialEq, Eq)]
pub(crate) enum Place {
    /// Before a label of the host.
    Front,
    /// In a label.
    Label,
    /// Before a segment of the path.
    Segment,
    /// After a `%` that begins a segment.
    Percent,
    /// In a segment.
    Path,
    /// In the query.
    Query,
    /// In the fragment.
    Fragment,
}

/// Returns whether the byte is an ASCII character that may be raw in an IRIREF.
fn is_plain(b: u8) -> bool
    ensures { result ≡ is_plain b }
{
    b < 127 && is_raw(b as char)
}

fn is_lower(b: u8) -> bool
    ensures { result ≡ is_lower b }
{
    matches!(b, b'a'..=b'z')
}

fn is_of_label(b: u8) -> bool
    ensures { result ≡ is_of_label b }
{
    matches!(b, b'a'..=b'z' | b'0'..=b'9' | b'-')
}

fn of_label(b: u8) -> Option<Place>
    ensures { result ≡ of_label b }
{
    if is_of_label(b) {
        Some(Place::Label)
    } else if b == b'.' {
        Some(Place::Front)
    } else if b == b'/' {
        Some(Place::Segment)
    } else {
        None
    }
}

fn of_path(b: u8) -> Option<Place>
    ensures { result ≡ of_path b }
{
    if b == b'/' {
        Some(Place::Segment)
    } else if b == b'?' {
        Some(Place::Query)
    } else if b == b'#' {
        Some(Place::Fragment)
    } else if is_plain(b) {
        Some(Place::Path)
    } else {
        None
    }
}

fn of_query(b: u8) -> Option<Place>
    ensures { result ≡ of_query b }
{
    if b == b'#' {
        Some(Place::Fragment)
    } else if is_plain(b) && b != b'\'' {
        Some(Place::Query)
    } else {
        None
    }
}

/// Returns the place after the byte, or `None` if the URL Standard might write the bytes in another way.
fn step(place: Place, b: u8) -> Option<Place>
    ensures { result ≡ step place b }
{
    match place {
        Place::Front if is_lower(b) => Some(Place::Label),
        Place::Front => None,
        Place::Label => of_label(b),
        Place::Segment if b == b'.' => None,
        Place::Segment if b == b'%' => Some(Place::Percent),
        Place::Segment => of_path(b),
        Place::Percent if b == b'2' => None,
        Place::Percent => of_path(b),
        Place::Path => of_path(b),
        Place::Query => of_query(b),
        Place::Fragment if is_plain(b) => Some(Place::Fragment),
        Place::Fragment => None,
    }
}

fn is_end(place: Place) -> bool
    ensures { result ≡ is_end place }
{
    !matches!(place, Place::Front | Place::Label)
}

/// Returns true only if the byte leaves the place as it is.
///
/// In a label such a byte is a letter in lower case or a digit. In a segment, the query or the fragment it is a
/// character that is unreserved in a URI, or `%`.
#[tactic(auto, using(crate::proofs::StayingLemmas::staying))]
fn stays(place: Place, b: u8) -> bool
    ensures { result ≡ true → step place b ≡ Some place }
{
    match place {
        Place::Label => matches!(b, b'a'..=b'z' | b'0'..=b'9'),
        Place::Path | Place::Query | Place::Fragment => {
            // Most are letters in lower case or digits.
            matches!(b, b'a'..=b'z' | b'0'..=b'9') || !BUT_STAYING.should_percent_encode(b)
        }
        Place::Front | Place::Segment | Place::Percent => false,
    }
}

/// Returns how many of the first bytes leave the place as it is. It may count fewer.
fn staying(place: Place, bytes: &[u8]) -> usize
    ensures within { result ≤ length bytes.now }
    ensures stays { goes_on (Some place) (drop result bytes.now) ≡ goes_on (Some place) bytes.now }
{
    for (i, b) in bytes.iter().enumerate() {
        if !stays(place, *b) {
            return i;
        }
    }
    bytes.len()
}

/// Returns whether the bytes continue from the place to an end.
pub(crate) fn goes_on(from: Place, bytes: &[u8]) -> bool
    ensures { result ≡ goes_on (Some from) bytes.now }
{
    let mut place = from;
    let mut rest = bytes;
    while let Some((b, behind)) = rest.split_first() {
        match step(place, *b) {
            None => return false,
            Some(next) => place = next,
        }
        // Most bytes stay in their label, segment, query or fragment.
        rest = &behind[staying(place, behind)..];
    }
    is_end(place)
}

/// Returns the place to which the bytes lead from a place, or `None` if the URL Standard might write them in another
/// way.
pub(crate) fn after(from: Place, bytes: &[u8]) -> Option<Place>
    ensures { result ≡ after (Some from) bytes.now }
{
    let mut place = from;
    for b in bytes {
        match step(place, *b) {
            None => return None,
            Some(next) => place = next,
        }
    }
    Some(place)
}

/// Returns what follows `http://` or `https://`.
pub(crate) fn behind_scheme(text: &[u8]) -> Option<&[u8]>
    ensures { IfSome result (λ rest. IsOfScheme text.now rest.now) }
{
    match text.strip_prefix(b"http://") {
        Some(rest) => Some(rest),
        None => text.strip_prefix(b"https://"),
    }
}

/// Returns what follows `#`.
fn behind_hash(text: &[u8]) -> Option<&[u8]>
    ensures { IfSome result (λ rest. text.now ≡ codes "#" ++ rest.now) }
{
    text.strip_prefix(b"#")
}

/// Returns true only if the text is its own link.
///
/// Such a text has at most 65,536 bytes. It is an absolute URL as the URL Standard writes it, with nothing that IRIREF
/// forbids.
pub(crate) fn is_own(text: &str) -> bool
    ensures link { result ≡ true → IsOwnLink text.now }
    ensures raw { result ≡ true → is_iri text.now ≡ true }
{
    if text.len() > MAX_TEXT {
        return false;
    }
    match behind_scheme(text.as_bytes()) {
        Some(rest) => goes_on(Place::Front, rest),
        None => false,
    }
}

/// Returns true only if the link of the text is the base's IRI and then the text.
///
/// Such a text has at most 65,536 bytes. It is `#` and ASCII characters that may be raw in an IRIREF.
pub(crate) fn is_fragment(text: &str) -> bool
    ensures link { result ≡ true → IsFragmentLink text.now }
    ensures raw { result ≡ true → is_iri text.now ≡ true }
{
    if text.len() > MAX_TEXT {
        return false;
    }
    match behind_hash(text.as_bytes()) {
        Some(rest) => goes_on(Place::Fragment, rest),
        None => false,
    }
}
