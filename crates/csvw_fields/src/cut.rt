//! The fields of a row, found among its bytes. A symbol that is ASCII is its own byte. No byte of another character
//! is below 128.
ghost use Rattle.std.specs.Prelude.{◌≡◌, ◌≢◌, ◌≤◌, ◌<◌, ◌+◌, ◌^◌, None, true, false, length, drop, IfOk, IfSome, MatchOption, slice_index};
ghost use Rattle.std.specs.Str.{is_utf8};
ghost use Rattle.csvw_fields.specs.Bounds.{lent_bound, moved};
ghost use Rattle.csvw_fields.specs.Cuts.{IsSymbols, NoneBefore, IsBehind, IsLent};
ghost use Rattle.csvw_records.specs.Grammar.{terminator_len};
ghost use Rattle.csvw_records.specs.Lawful.{IsLawful};

use crate::bound::Bound;
use csvw_records::{Dialect, Trim};

/// The symbols of a dialect, as bytes. The quote is a symbol only if fields may be `quoted`.
#[derive(Clone, Copy, Debug, PartialEq, Eq)]
pub struct Symbols {
    /// The delimiter.
    pub delimiter: u8,
    /// The quote. It is the delimiter if no field may be quoted.
    pub quote: u8,
    /// Whether fields may be quoted.
    pub quoted: bool,
}

impl Symbols {
    /// Returns the symbols of a dialect, if its rows are cut among their bytes. Returns `None` for any other dialect.
    pub fn of(dialect: &Dialect) -> Option<Symbols>
        ensures symbols { IfSome result (IsSymbols dialect.now) }
        ensures none { result ≡ None → (s : Symbols) → ¬ (IsSymbols dialect.now s) }
    {
        if dialect.trim != Trim::No || !dialect.double_quote {
            return None;
        }
        let delimiter = ascii(dialect.delimiter)?;
        match dialect.quote_char {
            Some(quote) => Some(Symbols {
                delimiter,
                quote: ascii(quote)?,
                quoted: true,
            }),
            None => Some(Symbols {
                delimiter,
                quote: delimiter,
                quoted: false,
            }),
        }
    }
}

fn ascii(c: char) -> Option<u8>
    ensures { MatchOption result (128 ≤ c) (λ b. (b ≡ c) × (b < 128)) }
{
    if c.is_ascii() { Some(c as u8) } else { None }
}

/// A field that was found. Its places are counted from its first byte.
#[derive(Clone, Copy, Debug, PartialEq, Eq)]
pub struct Cut {
    /// The bound of the text of the field.
    pub bound: Bound,
    /// The place after the field, in bytes. The next field is there or, if the field `ends` the row, the terminator.
    pub next: usize,
    /// Whether the terminator is there.
    pub ends: bool,
}

/// Returns the number of bytes of the terminator at the start, or 0 if there is none.
pub fn terminator_at(d: &Dialect, rest: &[u8]) -> usize
    ensures value { result ≡ terminator_len d.now rest.now }
    ensures within { result ≤ length rest.now }
{
    match rest {
        [b'\r', b'\n', ..] if d.line_terminators.crlf => 2,
        [b'\n', ..] if d.line_terminators.lf => 1,
        _ => 0,
    }
}

/// Returns the bound of a text among the bytes that were read.
pub(crate) fn lent(from: usize, to: usize) -> Bound
    ensures { result ≡ lent_bound from to }
{
    Bound {
        from,
        to,
        apart: false,
    }
}

/// Returns the field with this text, if a delimiter or a terminator is at this place after it.
pub(crate) fn behind(
    d: &Dialect,
    symbols: Symbols,
    rest: &[u8],
    bound: Bound,
    at: usize,
) -> Option<Cut>
    requires { at ≤ length rest.now }
    ensures { IfSome result (IsBehind d.now symbols rest.now bound at) }
{
    let (_, after) = rest.split_at(at);
    if 0 < terminator_at(d, after) {
        return Some(Cut {
            bound,
            next: at,
            ends: true,
        });
    }
    if at < rest.len() && rest[at] == symbols.delimiter {
        return Some(Cut {
            bound,
            next: at + 1,
            ends: false,
        });
    }
    None
}

/// Returns the last field of a row, without quotes. The first symbol is a line feed, at this place.
pub(crate) fn cut_last(d: &Dialect, symbols: Symbols, rest: &[u8], at: usize) -> Option<Cut>
    requires lawful { IsLawful d.now }
    requires symbols { IsSymbols d.now symbols }
    requires text { is_utf8 rest.now ≡ true }
    requires within { at < length rest.now }
    requires stands { slice_index rest.now at ≡ 10 }
    requires first { NoneBefore symbols rest.now at }
    ensures { IfSome result (IsLent d.now rest.now) }
{
    if d.line_terminators.crlf && 0 < at && rest[at - 1] == b'\r' {
        return Some(Cut {
            bound: lent(0, at - 1),
            next: at - 1,
            ends: true,
        });
    }
    if d.line_terminators.lf {
        return Some(Cut {
            bound: lent(0, at),
            next: at,
            ends: true,
        });
    }
    None
}

impl Cut {
    /// Returns the bound of the text of a field that begins at this place.
    pub(crate) fn bound_at(self, at: usize) -> Bound
        requires ordered { self.bound.from ≤ self.bound.to }
        requires within { self.bound.apart ≡ false → at + self.bound.to < 2 ^ 64 }
        ensures { result ≡ moved at self.bound }
    {
        if self.bound.apart {
            return self.bound;
        }
        lent(at + self.bound.from, at + self.bound.to)
    }
}
