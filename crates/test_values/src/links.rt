//! Links and what they resolve to.
use crate::claims::Claim;
use crate::tables::Table;
use crate::telling::tells;
use csvw_iri::{Base, expand_prefix, link, resolve};
use std::alloc::{AllocError, Global};

/// The prefixes of the CSVW context, and after `=>` their IRIs.
const PREFIXES: &str = "\
dc=>http://purl.org/dc/terms/
dcterms=>http://purl.org/dc/terms/
dc11=>http://purl.org/dc/elements/1.1/
foaf=>http://xmlns.com/foaf/0.1/
schema=>http://schema.org/
skos=>http://www.w3.org/2004/02/skos/core#
rdf=>http://www.w3.org/1999/02/22-rdf-syntax-ns#
rdfs=>http://www.w3.org/2000/01/rdf-schema#
owl=>http://www.w3.org/2002/07/owl#
xsd=>http://www.w3.org/2001/XMLSchema#
dcat=>http://www.w3.org/ns/dcat#
csvw=>http://www.w3.org/ns/csvw#
prov=>http://www.w3.org/ns/prov#
org=>http://www.w3.org/ns/org#
oa=>http://www.w3.org/ns/oa#
qb=>http://purl.org/linked-data/cube#
void=>http://rdfs.org/ns/void#";

/// Texts, and after `=>` what they resolve to against `http://example.org/d/p.csv?v=1`.
const TEXTS: &str = "\
=>http://example.org/d/p.csv?v=1
q.csv=>http://example.org/d/q.csv
../q.csv=>http://example.org/q.csv
./a/../b=>http://example.org/d/b
a/./b/..=>http://example.org/d/a/
/r=>http://example.org/r
//h.example/x=>http://h.example/x
?x y=>http://example.org/d/p.csv?x%20y
#f=>http://example.org/d/p.csv?v=1#f
#a b|c=>http://example.org/d/p.csv?v=1#a%20b%7Cc
a|b`c^d{e}\"<f>=>http://example.org/d/a%7Cb%60c%5Ed%7Be%7D%22%3Cf%3E
?q|`^{}\"<>=>http://example.org/d/p.csv?q%7C%60%5E%7B%7D%22%3C%3E
\\r=>http://example.org/r
\u{20} s\t=>http://example.org/d/s
é/ü.csv=>http://example.org/d/%C3%A9/%C3%BC.csv
😀=>http://example.org/d/%F0%9F%98%80
http://bücher.example/é=>http://xn--bcher-kva.example/%C3%A9
%zz%41=>http://example.org/d/%zz%41
HTTP://EX.org:80/%7e=>http://ex.org/%7e
mailto:a b=>mailto:a%20b
dc://x=>dc://x
DC:x=>dc:x
:x=>http://example.org/d/:x
http://[=>BadUrl
http://h.example:99999/=>BadUrl
//=>BadUrl";

/// Texts without a prefix, one on each line.
const OTHERS: &str = "dc\n\n:x\nDc:x\nex:y\n dc:x\ndct:x\ndc://x";

/// The base of the texts.
const BASE: &str = "http://example.org/d/p.csv?v=1#f";

pub(crate) static TABLES: [Table; 5] = [
    Table {
        base: "http://example.org/p.csv",
        claim: Claim::IsReplaced,
        rows: PREFIXES,
    },
    Table {
        base: BASE,
        claim: Claim::Stays,
        rows: PREFIXES,
    },
    Table {
        base: BASE,
        claim: Claim::Expands,
        rows: OTHERS,
    },
    Table {
        base: BASE,
        claim: Claim::Expands,
        rows: "dc:dc:x=>http://purl.org/dc/terms/dc:x",
    },
    Table {
        base: BASE,
        claim: Claim::Gives,
        rows: TEXTS,
    },
];

/// Returns whether a text resolves to the expected IRI, and its link is the same.
pub(crate) fn gives(alloc: Global, base: &Base, text: &str, want: &str) -> bool {
    tells(alloc, resolve(alloc, base, text), want) && tells(alloc, link(alloc, base, text), want)
}

/// Returns whether a prefix is replaced by an IRI in a link.
pub(crate) fn is_replaced(
    alloc: Global,
    base: &Base,
    prefix: &str,
    iri: &str,
) -> Result<bool, AllocError> {
    let text = format!(in alloc; "{prefix}:a:b")?;
    let want = format!(in alloc; "{iri}a:b")?;
    Ok(tells(alloc, link(alloc, base, text.as_str()), want.as_str()))
}

/// Returns whether a prefix stays if `//` follows.
pub(crate) fn stays(alloc: Global, base: &Base, prefix: &str) -> Result<bool, AllocError> {
    let text = format!(in alloc; "{prefix}://x")?;
    Ok(gives(alloc, base, text.as_str(), text.as_str()))
}

/// Returns whether a text has this expansion.
pub(crate) fn expands(alloc: Global, text: &str, want: &str) -> Result<bool, AllocError> {
    let expansion = expand_prefix(alloc, text)?;
    Ok(expansion.as_str() == want)
}
