//! Steps 1 and 2 of a cell: white space.
//!
//! A text that these steps leave as it is isn't copied for them.
ghost use Rattle.std.specs.Prelude.{◌≡◌, true, IfOk, encode_utf8_all, if◌then◌else◌};
ghost use Rattle.std.specs.List.{list_any};
ghost use Rattle.std.specs.Str.{chars};
ghost use Rattle.std.specs.String.{string_bytes};
ghost use Rattle.csvw_text.specs.Collapse.{is_break, is_space, spaced};
ghost use Rattle.csvw_cell.specs.CellOf.{normalized};

use csvw_datatype::{Datatype, WhiteSpace};
use csvw_text::collapse;
use std::alloc::{AllocError, Global};

fn is_space(b: u8) -> bool
    ensures { result ≡ is_space b }
{
    // Most bytes are greater than all white space.
    b <= b' ' && matches!(b, b'\r' | b'\n' | b'\t' | b' ')
}

fn any_space(bytes: &[u8]) -> bool
    ensures { result ≡ list_any is_space bytes.now }
{
    bytes.iter().any(|b| is_space(*b))
}

/// Returns whether some byte is white space. It looks at four bytes at a time.
fn has_space_byte(bytes: &[u8]) -> bool
    ensures { result ≡ list_any is_space bytes.now }
{
    let mut rest = bytes;
    loop {
        match rest {
            [a, b, c, d, behind @ ..] if (*a).min(*b).min((*c).min(*d)) > b' ' => rest = behind,
            _ => return any_space(rest),
        }
    }
}

/// Returns whether some character is white space. All white space is ASCII, so the bytes decide.
fn has_space(text: &str) -> bool
    ensures { result ≡ list_any is_space (chars text.now) }
{
    has_space_byte(text.as_bytes())
}

/// Returns true only if steps 1 and 2 leave the text as it is.
pub(crate) fn is_normal(datatype: &Datatype, text: &str) -> bool
    ensures { result ≡ true → normalized datatype.now text.now ≡ text.now }
{
    match datatype.white_space() {
        WhiteSpace::Preserve => true,
        WhiteSpace::Replace | WhiteSpace::Collapse => !has_space(text),
    }
}

/// Returns a space in place of a line break or a tab.
fn spaced(c: char) -> char
    ensures { result ≡ (if is_break c then 32 else c) }
{
    match c {
        '\r' | '\n' | '\t' => ' ',
        _ => c,
    }
}

/// Returns a text with a space in place of each line break and each tab, or `AllocError` if memory runs out.
fn replaced(alloc: Global, text: &str) -> Result<String, AllocError>
    ensures { IfOk result (λ s. string_bytes s ≡ encode_utf8_all (spaced (chars text.now))) }
{
    let mut out = String::new(alloc);
    for c in text.chars() {
        out.push(spaced(c))?;
    }
    Ok(out)
}

/// Returns a copy of a text, or `AllocError` if memory runs out.
fn copied(alloc: Global, text: &str) -> Result<String, AllocError>
    ensures { IfOk result (λ s. string_bytes s ≡ text.now) }
{
    let mut out = String::new(alloc);
    out.push_str(text)?;
    Ok(out)
}

/// Returns the text that steps 1 and 2 make of a text, or `AllocError` if memory runs out.
pub(crate) fn normalized(
    alloc: Global,
    datatype: &Datatype,
    text: &str,
) -> Result<String, AllocError>
    ensures { IfOk result (λ s. string_bytes s ≡ normalized datatype.now text.now) }
{
    match datatype.white_space() {
        WhiteSpace::Preserve => copied(alloc, text),
        WhiteSpace::Replace => replaced(alloc, text),
        WhiteSpace::Collapse => collapse(alloc, text),
    }
}
