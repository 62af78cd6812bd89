//! Bases.
use crate::claims::Claim;
use crate::tables::Table;
use crate::telling::base_tells;
use csvw_iri::{Base, is_raw_text, with_fragment};
use std::alloc::{AllocError, Global};

/// Texts, and after `=>` their bases.
const BASES: &str = "\
http://example.org/p|q.csv=>http://example.org/p%7Cq.csv
http://example.org/p.csv?q#f=>http://example.org/p.csv?q
HTTP://EXAMPLE.org:80/a/../b#x=>http://example.org/b
http://example.org=>http://example.org/
urn:a:b#c=>urn:a:b
http://é.example/?ü#ö=>http://xn--9ca.example/?%C3%BC
p.csv=>BadUrl
http://[=>BadUrl";

/// Texts, and after `=>` the bases that they join to against `http://example.org/d/meta.json`.
const JOINED: &str = "\
p|q.csv#x=>http://example.org/d/p%7Cq.csv
dc:x=>dc:x
http://[=>BadUrl
../p.csv=>http://example.org/p.csv";

pub(crate) static TABLES: [Table; 3] = [
    Table {
        base: "http://example.org/",
        claim: Claim::IsBase,
        rows: BASES,
    },
    Table {
        base: "http://example.org/d/meta.json",
        claim: Claim::Joins,
        rows: JOINED,
    },
    Table {
        base: "http://example.org/p.csv?a#b",
        claim: Claim::HasFragment,
        rows: "row=7=>http://example.org/p.csv?a#row=7",
    },
];

/// Returns whether a text joins to the expected base, on a copy of a base.
pub(crate) fn joins(
    alloc: Global,
    base: &Base,
    text: &str,
    want: &str,
) -> Result<bool, AllocError> {
    let copy = base.clone(alloc)?;
    Ok(base_tells(alloc, copy.join(alloc, text), want))
}

/// Returns whether a base with this fragment, which has to be raw, is the expected IRI.
pub(crate) fn has_fragment(
    alloc: Global,
    base: &Base,
    fragment: &str,
    want: &str,
) -> Result<bool, AllocError> {
    if !is_raw_text(fragment) {
        return Ok(false);
    }
    let iri = with_fragment(alloc, base.iri(), fragment)?;
    Ok(iri.as_str() == want)
}
