//! `Marks`: the places of the symbols of a row among its bytes. Many bytes are looked at together.
ghost use Rattle.std.specs.Prelude.{◌≡◌, ℕ, List, Bool, true, ◌+◌, ◌^◌, ◌<◌, ◌≤◌, length};
ghost use Rattle.memchr.specs.Find.{is_byte3};
ghost use Rattle.csvw_fields.specs.Marked.{is_symbol, is_quote, AreMarks, IsAhead};

use crate::cut::Symbols;
use memchr::memchr3;
use std::simd::prelude::*;

/// The number of bytes that are looked at together.
const LANES: usize = 64;

/// The bytes of a part of a text that are symbols. The mask has a bit for each byte, the lowest for the first.
#[derive(Clone, Copy, Debug, PartialEq, Eq)]
pub struct Marks {
    /// The place of the part's first byte, from 0.
    from: usize,
    /// The number of bytes of the part, 64 at most.
    len: usize,
    /// The bits.
    mask: u64,
}

impl Marks {
    /// Returns marks of no bytes.
    pub fn none() -> Marks
        ensures { (test : ℕ → Bool) (text : List ℕ) → AreMarks test text result }
    {
        Marks {
            from: 0,
            len: 0,
            mask: 0,
        }
    }

    /// Returns whether this place is in the part.
    fn has(self, at: usize) -> bool
        requires { self.from + self.len < 2 ^ 64 }
        ensures { result ≡ true → (self.from ≤ at) × (at < self.from + self.len) }
    {
        // A place before the part wraps to one after it.
        at.wrapping_sub(self.from) < self.len
    }

    /// Returns how many bytes of the part come before its first symbol from this place on.
    fn ahead(self, at: usize) -> Option<usize>
        requires low { self.from ≤ at }
        requires high { at < self.from + self.len }
        requires few { self.len ≤ LANES }
        ensures { (test : ℕ → Bool) (text : List ℕ) → AreMarks test text self → IsAhead test text at (self.from + self.len) result }
    {
        let mask = self.mask >> (at - self.from);
        if mask == 0 {
            return None;
        }
        Some(mask.trailing_zeros() as usize)
    }
}

/// Returns the marks of the bytes from this place on.
fn marks_from(delimiter: u8, quote: u8, text: &[u8], from: usize) -> Marks
    requires { from + LANES ≤ length text.now }
    ensures marks { AreMarks (is_byte3 delimiter quote 10) text.now result }
    ensures from { result.from ≡ from }
    ensures len { result.len ≡ LANES }
{
    let bytes = u8x64::from_slice(&text[from..]);
    let found = bytes.simd_eq(u8x64::splat(delimiter))
        | bytes.simd_eq(u8x64::splat(quote))
        | bytes.simd_eq(u8x64::splat(b'\n'));
    Marks {
        from,
        len: LANES,
        mask: found.to_bitmask(),
    }
}

/// Returns how many bytes from this place on come before the first symbol, if one follows. It makes the marks anew.
/// Its arguments are two bytes and not `Symbols`, which each of its many callers would have to write to memory.
#[inline(never)]
fn look_on(delimiter: u8, quote: u8, text: &[u8], at: usize, marks: &mut Marks) -> Option<usize>
    requires marks { AreMarks (is_byte3 delimiter quote 10) text.now marks.old }
    requires within { at ≤ length text.now }
    ensures marks { AreMarks (is_byte3 delimiter quote 10) text.now marks.new }
    ensures ahead { IsAhead (is_byte3 delimiter quote 10) text.now at (length text.now) result }
{
    if text.len() - at < LANES {
        let (_, rest) = text.split_at(at);
        return memchr3(delimiter, quote, b'\n', rest);
    }
    *marks = marks_from(delimiter, quote, text, at);
    if let Some(len) = marks.ahead(at) {
        return Some(len);
    }
    let (_, rest) = text.split_at(at + LANES);
    let len = memchr3(delimiter, quote, b'\n', rest)?;
    Some(LANES + len)
}

/// Returns how many bytes from this place on come before the first symbol, if one follows.
#[inline(always)]
pub(crate) fn next_symbol(
    symbols: Symbols,
    text: &[u8],
    at: usize,
    marks: &mut Marks,
) -> Option<usize>
    requires marks { AreMarks (is_symbol symbols) text.now marks.old }
    requires within { at ≤ length text.now }
    ensures marks { AreMarks (is_symbol symbols) text.now marks.new }
    ensures ahead { IsAhead (is_symbol symbols) text.now at (length text.now) result }
{
    if marks.has(at) {
        if let Some(len) = marks.ahead(at) {
            return Some(len);
        }
    }
    look_on(symbols.delimiter, symbols.quote, text, at, marks)
}

/// Returns how many bytes from this place on come before the first quote, if one follows.
#[inline(always)]
pub(crate) fn next_quote(
    symbols: Symbols,
    text: &[u8],
    at: usize,
    marks: &mut Marks,
) -> Option<usize>
    requires marks { AreMarks (is_symbol symbols) text.now marks.old }
    requires within { at ≤ length text.now }
    ensures marks { AreMarks (is_symbol symbols) text.now marks.new }
    ensures ahead { IsAhead (is_quote symbols) text.now at (length text.now) result }
{
    let mut from = at;
    while let Some(len) = next_symbol(symbols, text, from, marks) {
        if text[from + len] == symbols.quote {
            return Some(from + len - at);
        }
        from += len + 1;
    }
    None
}
