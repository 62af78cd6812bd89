//! Reads texts between delimiters: IRIs and the strings of literals, with their escapes.
ghost use Rattle.std.specs.Prelude.{◌≡◌, ◌<◌, ◌≤◌, ℕ, List, MatchOption, length};
ghost use Rattle.std.specs.Option.{SomeIff};
ghost use Rattle.std.specs.Str.Parse.{AllDigits, digits_value};
ghost use Rattle.csvw_ntriples.specs.Reading.{mark_of, is_raw_in, escape_in, Begins, BeginsDigits, ReadsBytes, Finds};

use super::character::{is_raw_in_iri, is_raw_in_string};
use crate::NtFault;
use csvw_text::Text;
use std::alloc::Global;

/// The bytes that a text has room for at first. Most IRIs and literals fit, and don't grow then.
const ROOM: usize = 48;

/// The kinds of texts between delimiters.
#[derive(Clone, Copy)]
pub(crate) enum Enclosed {
    /// An IRI, up to `>`.
    Iri,
    /// The string of a literal, up to `"`.
    Literal,
}

fn is_mark(kind: Enclosed, c: char) -> bool
    ensures { result ≡ Rattle.std.specs.Prelude.nat_eq c (mark_of kind) }
{
    match kind {
        Enclosed::Iri => c == '>',
        Enclosed::Literal => c == '"',
    }
}

fn is_raw(kind: Enclosed, c: char) -> bool
    ensures { result ≡ is_raw_in kind c }
{
    match kind {
        Enclosed::Iri => is_raw_in_iri(c),
        Enclosed::Literal => is_raw_in_string(c),
    }
}

fn escape(kind: Enclosed, letter: char) -> Option<char>
    ensures { result ≡ escape_in kind letter }
{
    match kind {
        Enclosed::Iri => None,
        Enclosed::Literal => match letter {
            't' => Some('\t'),
            'b' => Some('\u{8}'),
            'n' => Some('\n'),
            'r' => Some('\r'),
            'f' => Some('\u{c}'),
            '"' | '\'' | '\\' => Some(letter),
            _ => None,
        },
    }
}

fn hex_value(digits: &[char]) -> Option<u32>
    requires { length digits.now ≤ 8 }
    ensures { SomeIff result (AllDigits 16 digits.now) (digits_value 16 digits.now) }
{
    let mut value = 0u32;
    for d in digits {
        value = value * 16 + d.to_digit(16)?;
    }
    Some(value)
}

/// Reads the hexadecimal digits at the front. Returns the character of that number and the text after the digits.
fn numbered(text: &[char], count: usize) -> Option<(char, &[char])>
    requires { count ≤ 8 }
    ensures { MatchOption result
        ((c : ℕ) (rest : List ℕ) → BeginsDigits count text.now c rest → ⊥)
        (λ r. BeginsDigits count text.now r.0 r.1.now) }
{
    if text.len() < count {
        return None;
    }
    let (digits, rest) = text.split_at(count);
    let value = hex_value(digits)?;
    let c = char::from_u32(value)?;
    Some((c, rest))
}

/// Reads the piece at the front. Returns the character that it means and the text after it.
fn piece(kind: Enclosed, text: &[char]) -> Option<(char, &[char])>
    ensures { MatchOption result
        ((c : ℕ) (rest : List ℕ) → Begins kind text.now c rest → ⊥)
        (λ r. Begins kind text.now r.0 r.1.now × (length r.1.now < length text.now)) }
{
    let (first, after) = text.split_first()?;
    if is_raw(kind, *first) {
        return Some((*first, after));
    }
    if *first != '\\' {
        return None;
    }
    let (letter, rest) = after.split_first()?;
    match *letter {
        'u' => numbered(rest, 4),
        'U' => numbered(rest, 8),
        other => Some((escape(kind, other)?, rest)),
    }
}

/// Reads the text up to the closing delimiter. Returns it and the text after the delimiter.
pub(crate) fn body(alloc: Global, kind: Enclosed, text: &[char]) -> Result<(Text, &[char]), NtFault>
    ensures { Finds (ReadsBytes kind text.now) result }
{
    let Ok(mut value) = String::with_capacity(alloc, ROOM) else {
        return Err(NtFault::Memory);
    };
    let mut rest = text;
    while let Some((first, after)) = rest.split_first() {
        if is_mark(kind, *first) {
            return Ok((Text::of(value), after));
        }
        let Some((c, next)) = piece(kind, rest) else {
            return Err(NtFault::Syntax);
        };
        let Ok(()) = value.push(c) else {
            return Err(NtFault::Memory);
        };
        rest = next;
    }
    Err(NtFault::Syntax)
}
