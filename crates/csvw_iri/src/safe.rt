//! Texts made safe: what IRIREF forbids is percent-encoded.
ghost use Rattle.std.specs.Prelude.{◌≡◌, ◌++◌, not, IfOk, OnOk, string_bytes, encode_utf8, true, if◌then◌else◌};
ghost use Rattle.percent_encoding.specs.Percent.{percent_encode_byte};
ghost use Rattle.csvw_iri.specs.Safe.{is_forbidden, is_iri, safe};

use crate::iri::Iri;
use percent_encoding::percent_encode_byte;
use std::alloc::{AllocError, Global};

/// Returns whether the character may be raw in an IRIREF (N-Triples 1.1, section 7): it is none of U+0000 to U+0020
/// and none of `<>"{}|^` with backquote and backslash.
pub fn is_raw(c: char) -> bool
    ensures { result ≡ not (is_forbidden c) }
{
    !(c <= ' ' || matches!(c, '"' | '<' | '>' | '\\' | '^' | '`' | '{' | '|' | '}'))
}

/// Returns whether each character of the text may be raw in an IRIREF.
pub fn is_raw_text(text: &str) -> bool
    ensures { result ≡ is_iri text.now }
{
    let bytes = text.as_bytes();
    for b in bytes {
        if !is_raw(*b as char) {
            return false;
        }
    }
    true
}

/// Returns the text with what IRIREF forbids percent-encoded, or `AllocError` if memory runs out.
pub fn made_safe(alloc: Global, text: &str) -> Result<Iri, AllocError>
    ensures { IfOk result (λ i. i ≡ safe text.now) }
{
    Iri::of(alloc, safe_text(alloc, text)?)
}

/// Returns the IRI of a text whose characters may all be raw, or `AllocError` if memory runs out.
pub fn named(alloc: Global, text: &str) -> Result<Iri, AllocError>
    requires { is_iri text.now ≡ true }
    ensures { IfOk result (λ i. i ≡ text.now) }
{
    Iri::of(alloc, String::from_str(alloc, text)?)
}

#[tactic(auto, using(crate::proofs::SafeLemmas::unchanged))]
fn safe_text(alloc: Global, text: &str) -> Result<String, AllocError>
    ensures { IfOk result (λ s. string_bytes s ≡ safe text.now) }
{
    // Most texts are safe already.
    if is_raw_text(text) {
        return String::from_str(alloc, text);
    }
    let mut out = String::new(alloc);
    for c in text.chars() {
        push_safe(&mut out, c)?;
    }
    Ok(out)
}

fn push_safe(out: &mut String, c: char) -> Result<(), AllocError>
    ensures { OnOk result (string_bytes out.new
        ≡ string_bytes out.old ++ (if is_forbidden c then percent_encode_byte c else encode_utf8 c)) }
{
    if is_raw(c) {
        out.push(c)
    } else {
        out.push_str(percent_encode_byte(c as u8))
    }
}
