//! Texts whose links need no parser, and texts that are nearly such texts.
use crate::claims::Claim;
use crate::links::gives;
use crate::tables::Table;
use crate::telling::tells;
use csvw_iri::{Base, OwnFront, link, link_over};
use std::alloc::{AllocError, Global};

/// Texts that are their own links, one on each line.
const OWN: &str = "\
http://example.org/x/abc
https://example.org/x/a%20b
http://example.org/
http://a.b-c.d0/x//y/
http://example.org/x/%C3%A9
http://example.org/x/%41/%7e
http://example.org/x?q=1&r=/../#f
http://example.org/x#a?b#c
http://example.org/x/a..b/c.
http://example.org/!$&'()*+,;=:@[]~_
http://example.org/%zz
https://example.org./x
http://example..org/x
http://1.2.3.4/x
http://1a.example/x
http://example.1a/x
http://example.org/.a/..b
http://example.org/a/%2f/%20
https://example.org:80/x
http://u:p@example.org/x
http://exa_mple.org/x
http://[::1]/x
ftp://example.org/a
dc://example.org/x";

/// Fragments, one on each line. The link of each is the base's IRI and the fragment.
const FRAGMENTS: &str = "\
#
#1
#a?b#c/../d
#dc:x
#a%20b
#%";

/// Other texts, and after `=>` what they resolve to.
const OTHERS: &str = "\
http://example.org=>http://example.org/
http://EXAMPLE.org/x=>http://example.org/x
HTTP://example.org/x=>http://example.org/x
http://1.2.3/x=>http://1.2.0.3/x
http://0x7f.1/x=>http://127.0.0.1/x
http://example.org/a/../b=>http://example.org/b
http://example.org/a/.=>http://example.org/a/
http://example.org/a/./b=>http://example.org/a/b
http://example.org/a/..=>http://example.org/
http://example.org/a/%2e/b=>http://example.org/a/b
http://example.org/a/%2E%2e/b=>http://example.org/b
http://example.org/a/.%2e=>http://example.org/
http://example.org/a/%2e#x=>http://example.org/a/#x
http:///x=>http://x/
http://=>BadUrl
https:///example.org/x=>https://example.org/x
http:/example.org/x=>http://example.org/example.org/x
http:example.org/x=>http://example.org/d/example.org/x
http://example.org:80/x=>http://example.org/x
https://example.org:443/x=>https://example.org/x
http://@example.org/x=>http://example.org/x
http://example.org\\x=>http://example.org/x
http://example.org/x\\y=>http://example.org/x/y
http://example.org/x\ty=>http://example.org/xy
http://example.org/é=>http://example.org/%C3%A9
http://exämple.org/x=>http://xn--exmple-cua.org/x
http://example.org/x?é'=>http://example.org/x?%C3%A9%27
http://example.org/x#é=>http://example.org/x#%C3%A9
http://example.org/x y=>http://example.org/x%20y
http://example.org/x?y z=>http://example.org/x?y%20z
http://example.org/x|y^z`{}=>http://example.org/x%7Cy%5Ez%60%7B%7D
http://example.org/x?<>\"{}|^=>http://example.org/x?%3C%3E%22%7B%7D%7C%5E
http://example.org/x#<>\"{}|^\\=>http://example.org/x#%3C%3E%22%7B%7D%7C%5E%5C
http://exa%6Dple.org/x=>http://example.org/x
#a b=>http://example.org/d/p.csv?v=1#a%20b
# a=>http://example.org/d/p.csv?v=1#%20a
#a\tb=>http://example.org/d/p.csv?v=1#ab
#é=>http://example.org/d/p.csv?v=1#%C3%A9
#<>\"{}|^`\\=>http://example.org/d/p.csv?v=1#%3C%3E%22%7B%7D%7C%5E%60%5C
\u{20}#x=>http://example.org/d/p.csv?v=1#x
\u{20}http://example.org/x=>http://example.org/x
http://example.org/x\u{7f}=>http://example.org/x%7F
#x\u{7f}=>http://example.org/d/p.csv?v=1#x%7F";

/// Fronts of some of the texts, one on each line, over which one pass is enough.
const FRONTS: &str = "\
http://
http://e
http://example.
http://example.org/
https://example.org/x/a%
http://example.org/a/
http://example.org/a/%
http://example.org/x?q=1
http://example.org/x#";

/// Texts over which one pass is not enough, one on each line.
const NO_FRONTS: &str = "\
#
ftp://example.org/a
HTTP://example.org/
http:/
http://1
http://example.org/.
http://example.org/%2
http://example.org/x y
http://example.org:80/x";

/// The base of the texts.
const BASE: &str = "http://example.org/d/p.csv?v=1";

pub(crate) static TABLES: [Table; 4] = [
    Table {
        base: BASE,
        claim: Claim::GivesOwn,
        rows: OWN,
    },
    Table {
        base: BASE,
        claim: Claim::Follows,
        rows: FRAGMENTS,
    },
    Table {
        base: BASE,
        claim: Claim::GivesOwn,
        rows: OTHERS,
    },
    Table {
        base: BASE,
        claim: Claim::IsNoFront,
        rows: NO_FRONTS,
    },
];

/// Returns whether a text resolves to the expected IRI and both links are the same, also in the memory of an earlier
/// one and after fronts.
pub(crate) fn gives_own(alloc: Global, base: &Base, text: &str, want: &str) -> bool {
    gives(alloc, base, text, want)
        && gives_over(alloc, base, text, want)
        && gives_behind(alloc, base, text, want)
}

/// Returns whether a text has the expected link in the memory of an earlier one.
fn gives_over(alloc: Global, base: &Base, text: &str, want: &str) -> bool {
    match link(alloc, base, "http://example.org/earlier") {
        Ok(spare) => tells(alloc, link_over(alloc, base, text, None, Some(spare)), want),
        Err(_) => false,
    }
}

/// Returns whether a text has the expected link after each front.
fn gives_behind(alloc: Global, base: &Base, text: &str, want: &str) -> bool {
    for line in FRONTS.lines() {
        if !gives_behind_one(alloc, base, line, text, want) {
            return false;
        }
    }
    true
}

/// Returns whether a line is a front, and a text has the expected link after it.
fn gives_behind_one(alloc: Global, base: &Base, line: &str, text: &str, want: &str) -> bool {
    match OwnFront::of(alloc, line) {
        Ok(Some(front)) => tells(
            alloc,
            link_over(alloc, base, text, Some(&front), None),
            want,
        ),
        _ => false,
    }
}

/// Returns whether the link of a text is the base's IRI and then the text.
pub(crate) fn follows(alloc: Global, base: &Base, text: &str) -> Result<bool, AllocError> {
    let want = format!(in alloc; "{BASE}{text}")?;
    Ok(gives_own(alloc, base, text, want.as_str()))
}

/// Returns whether one pass over a text isn't enough.
pub(crate) fn is_no_front(alloc: Global, text: &str) -> Result<bool, AllocError> {
    Ok(OwnFront::of(alloc, text)?.is_none())
}
