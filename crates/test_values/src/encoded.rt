//! Texts percent-encoded, and links that end with them.
use crate::claims::Claim;
use crate::tables::Table;
use crate::telling::tells;
use csvw_iri::{Base, Iri, OwnFront, link, push_percent_encoded};
use std::alloc::{AllocError, Global};

/// Texts and their percent-encoded forms, as Python's `urllib.parse.quote` returns them if only `-._~` are safe.
const ENCODED: &str = "\
abc=>abc
Z-9_~.=>Z-9_~.
a b=>a%20b
100%=>100%25
%2e=>%252e
a/b?c#d=>a%2Fb%3Fc%23d
it's=>it%27s
é€=>%C3%A9%E2%82%AC
😀=>%F0%9F%98%80
=>";

/// Texts that aren't known to begin a segment without a parser, as they may be dot segments.
const DOTS: &str = "\
.
..
.a
%2e
é";

/// The base of the fragments.
pub(crate) const BASE: &str = "http://example.org/d/p.csv?v=1";

/// The tables of the texts. After fronts there may be texts that begin with an unreserved character other than `.`.
pub(crate) static TABLES: [Table; 11] = [
    Table {
        base: BASE,
        claim: Claim::Encodes,
        rows: ENCODED,
    },
    Table {
        base: BASE,
        claim: Claim::IsBehind("http://example.org/x/"),
        rows: ENCODED,
    },
    Table {
        base: BASE,
        claim: Claim::IsBehind("https://example.org/x/a"),
        rows: ENCODED,
    },
    Table {
        base: BASE,
        claim: Claim::IsBehind("http://example.org/x?q="),
        rows: ENCODED,
    },
    Table {
        base: BASE,
        claim: Claim::IsBehind("http://example.org/x#"),
        rows: ENCODED,
    },
    Table {
        base: BASE,
        claim: Claim::IsBehind("http://example.org/x/?"),
        rows: ENCODED,
    },
    Table {
        base: BASE,
        claim: Claim::IsFragment,
        rows: ENCODED,
    },
    Table {
        base: BASE,
        claim: Claim::IsUnseen("http://example.org/x/"),
        rows: DOTS,
    },
    Table {
        base: BASE,
        claim: Claim::IsUnseen("http://exa"),
        rows: "a",
    },
    Table {
        base: BASE,
        claim: Claim::IsUnseen("http://example."),
        rows: "a",
    },
    Table {
        base: BASE,
        claim: Claim::IsUnseen("http://example.org/a/%"),
        rows: "a",
    },
];

/// Returns whether an IRI was found and is the expected one.
fn is_iri(found: Option<Iri>, want: &str) -> bool {
    match found {
        Some(iri) => iri.as_str() == want,
        None => false,
    }
}

/// Returns whether the link of a front and a text is the expected one, in the memory of an earlier one.
fn follows(alloc: Global, own: &OwnFront, text: &str, want: &str) -> Result<bool, AllocError> {
    let mut room = String::new(alloc);
    let first = own.encoded_link(alloc, text, &mut room, None)?;
    Ok(is_iri(own.encoded_link(alloc, text, &mut room, first)?, want))
}

/// Returns whether a text is a front, and another text after it has the expected link.
fn is_front(alloc: Global, front: &str, text: &str, want: &str) -> Result<bool, AllocError> {
    match OwnFront::of(alloc, front)? {
        Some(own) => follows(alloc, &own, text, want),
        None => Ok(false),
    }
}

/// Returns whether the link of a front and a text is the link that the general way makes of both.
fn is_linked(
    alloc: Global,
    base: &Base,
    front: &str,
    text: &str,
    encoded: &str,
) -> Result<bool, AllocError> {
    let want = format!(in alloc; "{front}{encoded}")?;
    let is_general = tells(alloc, link(alloc, base, want.as_str()), want.as_str());
    Ok(is_general && is_front(alloc, front, text, want.as_str())?)
}

/// Returns whether a text is linked after a front, or isn't linked without a parser as it may be a dot segment.
pub(crate) fn is_behind(
    alloc: Global,
    base: &Base,
    front: &str,
    text: &str,
    encoded: &str,
) -> Result<bool, AllocError> {
    if front.ends_with('/') && encoded.starts_with('%') {
        is_unseen(alloc, front, text)
    } else {
        is_linked(alloc, base, front, text, encoded)
    }
}

/// Returns whether the link of a fragment to a base is the expected one, in the memory of an earlier one.
fn is_added(alloc: Global, base: &Base, text: &str, want: &str) -> Result<bool, AllocError> {
    let mut room = String::new(alloc);
    let first = base.encoded_fragment(alloc, text, &mut room, None)?;
    let again = base.encoded_fragment(alloc, text, &mut room, first)?;
    Ok(is_iri(again, want))
}

/// Returns whether the link of a fragment is the base, `#` and the encoded text.
pub(crate) fn is_fragment(
    alloc: Global,
    base: &Base,
    text: &str,
    encoded: &str,
) -> Result<bool, AllocError> {
    let fragment = format!(in alloc; "#{encoded}")?;
    let want = format!(in alloc; "{BASE}#{encoded}")?;
    let is_general = tells(alloc, link(alloc, base, fragment.as_str()), want.as_str());
    Ok(is_general && is_added(alloc, base, text, want.as_str())?)
}

/// Returns whether this front and a text have no link without a parser.
fn has_no_link(alloc: Global, own: &OwnFront, text: &str) -> Result<bool, AllocError> {
    let mut room = String::new(alloc);
    Ok(own.encoded_link(alloc, text, &mut room, None)?.is_none())
}

/// Returns whether a front and a text have no link without a parser.
pub(crate) fn is_unseen(alloc: Global, front: &str, text: &str) -> Result<bool, AllocError> {
    match OwnFront::of(alloc, front)? {
        Some(own) => has_no_link(alloc, &own, text),
        None => Ok(false),
    }
}

/// Returns whether a fragment has no link to this base without a parser.
pub(crate) fn is_unseen_fragment(
    alloc: Global,
    base: &Base,
    text: &str,
) -> Result<bool, AllocError> {
    let mut room = String::new(alloc);
    Ok(
        base.encoded_fragment(alloc, text, &mut room, None)?
            .is_none(),
    )
}

/// Returns whether a text percent-encoded is the expected one.
pub(crate) fn encodes(alloc: Global, text: &str, want: &str) -> Result<bool, AllocError> {
    let mut out = String::new(alloc);
    push_percent_encoded(&mut out, text)?;
    Ok(out.as_str() == want)
}
