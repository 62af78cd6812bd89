//! Texts percent-encoded, with and without reserved characters and triplets kept.
ghost use Rattle.std.specs.Prelude.{◌≡◌, ◌≤◌, ◌++◌, OnOk, string_bytes, length, take, drop, true};
ghost use Rattle.std.specs.List.{list_all};
ghost use Rattle.csvw_template.specs.Expand.{is_plain, encoded, kept, kept_byte, begins_triplet};

use crate::names::is_hex;
use crate::part::Operator;
use csvw_iri::push_percent_encoded;
use csvw_text::{is_reserved, is_unreserved};
use percent_encoding::percent_encode_byte;
use std::alloc::AllocError;

/// Adds a text as the operator encodes it.
pub(crate) fn push_encoded(
    out: &mut String,
    operator: Operator,
    text: &str,
) -> Result<(), AllocError>
    ensures { OnOk result (string_bytes out.new ≡ string_bytes out.old ++ encoded operator text.now) }
{
    match operator {
        Operator::Simple => push_percent_encoded(out, text),
        Operator::Reserved | Operator::Fragment => push_kept(out, text),
    }
}

/// Adds a text with reserved characters and triplets as they are.
#[tactic(auto, using(crate::proofs::KeptLemmas::keeping, crate::proofs::PlainLemmas::plain_stays))]
pub(crate) fn push_kept(out: &mut String, text: &str) -> Result<(), AllocError>
    ensures { OnOk result (string_bytes out.new ≡ string_bytes out.old ++ kept text.now) }
{
    if is_plain_text(text) {
        return out.push_str(text);
    }
    let mut rest = text.as_bytes();
    while !rest.is_empty() {
        if is_triplet(rest) {
            push_triplet(out, rest)?;
            rest = skip(rest, 3);
        } else {
            push_kept_byte(out, rest[0])?;
            rest = skip(rest, 1);
        }
    }
    Ok(())
}

/// Returns whether each character is unreserved or reserved.
pub(crate) fn is_plain_text(text: &str) -> bool
    ensures { result ≡ list_all is_plain text.now }
{
    let bytes = text.as_bytes();
    for b in bytes {
        if !is_plain(*b) {
            return false;
        }
    }
    true
}

fn is_plain(b: u8) -> bool
    ensures { result ≡ is_plain b }
{
    is_unreserved(b as char) || is_reserved(b as char)
}

fn skip(text: &[u8], n: usize) -> &[u8]
    requires { n ≤ length text.now }
    ensures { result.now ≡ drop n text.now }
{
    &text[n..]
}

fn push_triplet(out: &mut String, text: &[u8]) -> Result<(), AllocError>
    requires { begins_triplet text.now ≡ true }
    ensures { OnOk result (string_bytes out.new ≡ string_bytes out.old ++ take 3 text.now) }
{
    out.push('%')?;
    out.push(text[1] as char)?;
    out.push(text[2] as char)
}

fn is_triplet(text: &[u8]) -> bool
    ensures value { result ≡ begins_triplet text.now }
    ensures long { begins_triplet text.now ≡ true → 3 ≤ length text.now }
{
    match text {
        [b'%', high, low, ..] => is_hex(*high) && is_hex(*low),
        _ => false,
    }
}

fn push_kept_byte(out: &mut String, b: u8) -> Result<(), AllocError>
    ensures { OnOk result (string_bytes out.new ≡ string_bytes out.old ++ kept_byte b) }
{
    if is_plain(b) {
        out.push(b as char)
    } else {
        out.push_str(percent_encode_byte(b))
    }
}
