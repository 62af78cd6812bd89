//! The white space that a dialect strips from the texts of fields (tab, line feed, carriage return, space).
ghost use Rattle.std.specs.Prelude.{◌≡◌, ◌≤◌, ◌+◌, true, length, take, drop, map, chars, encode_utf8_all, slice_range, OnOk};
ghost use Rattle.std.specs.Str.{is_utf8};
ghost use Rattle.csvw_fields.specs.Bounds.{is_apart, apart_all, texts_apart};
ghost use Rattle.csvw_records.specs.Grammar.{trimmed};

use crate::bound::{Bound, text_at};
use csvw_records::Trim;
use csvw_text::{strip_end, strip_start};
use std::alloc::AllocError;

/// Returns how many bytes are stripped at the start of a text, and how many remain after them.
fn kept(trim: Trim, text: &str) -> (usize, usize)
    ensures within { result.0 + result.1 ≤ length text.now }
    ensures text { is_utf8 (take result.1 (drop result.0 text.now)) ≡ true }
    ensures value { take result.1 (drop result.0 text.now) ≡ encode_utf8_all (trimmed trim (chars text.now)) }
{
    match trim {
        Trim::No => (0, text.len()),
        Trim::Start => {
            let rest = strip_start(text);
            (text.len() - rest.len(), rest.len())
        }
        Trim::End => (0, strip_end(text).len()),
        Trim::Both => {
            let rest = strip_start(text);
            (text.len() - rest.len(), strip_end(rest).len())
        }
    }
}

/// Returns the bound of the text of a field that is stripped.
fn trimmed_bound(trim: Trim, texts: &[u8], bound: Bound) -> Bound
    requires { is_apart texts.now bound ≡ true }
    ensures apart { is_apart texts.now result ≡ true }
    ensures text { slice_range texts.now result.from result.to ≡ encode_utf8_all (trimmed trim (chars (slice_range texts.now bound.from bound.to))) }
{
    let (start, len) = kept(trim, text_at(texts, texts, bound));
    let from = bound.from + start;
    Bound {
        from,
        to: from + len,
        apart: true,
    }
}

/// Replaces the bounds of fields by those of their stripped texts. Returns `AllocError` if memory runs out.
pub(crate) fn trim_fields(
    trim: Trim,
    texts: &[u8],
    bounds: &[Bound],
    fields: &mut Vec<Bound>,
) -> Result<(), AllocError>
    requires { apart_all texts.now bounds.now ≡ true }
    ensures bounded { apart_all texts.now fields.new.items ≡ true }
    ensures texts { OnOk result (texts_apart texts.now fields.new.items
        ≡ map (λ x. encode_utf8_all (trimmed trim (chars x))) (texts_apart texts.now bounds.now)) }
{
    fields.clear();
    for bound in bounds {
        fields.push(trimmed_bound(trim, texts, *bound))?;
    }
    Ok(())
}
