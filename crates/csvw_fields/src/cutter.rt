//! `Cutter`: the rows of a text, cut at the symbols of a dialect.
//!
//! Masks of 64 bytes, which are kept from row to row, and `memchr` find the symbols. A row that is cut takes no
//! memory of its own. The text of a field is lent from the bytes. If it isn't the same as the bytes there, it is
//! written to a second buffer.
ghost use Rattle.std.specs.Prelude.{◌≡◌, ◌≢◌, ◌≤◌, ◌<◌, ◌+◌, ◌-◌, None, true, false, length, drop, IfOk, IfSome, MatchOption, slice_index};
ghost use Rattle.std.specs.Str.{is_utf8};
ghost use Rattle.csvw_records.specs.Lawful.{IsLawful};
ghost use Rattle.csvw_records.specs.Lengths.{row_limit};
ghost use Rattle.csvw_fields.specs.Bounds.{are_bounds};
ghost use Rattle.csvw_fields.specs.Cuts.{IsSymbols, IsCut, IsUnescaped, Grows, IsCutRow, IsRowLen};
ghost use Rattle.csvw_fields.specs.Marked.{is_symbol, is_quote, AreMarks, StandsAhead};

use crate::bound::Bound;
use crate::cut::{Cut, Symbols, behind, cut_last, lent, terminator_at};
use crate::marks::{Marks, next_quote, next_symbol};
use crate::rules::Rules;
use csvw_records::{Dialect, ROW_LIMIT};
use std::alloc::AllocError;

/// Cuts the rows of a text at the symbols of a dialect.
#[derive(Clone, Copy)]
pub struct Cutter<'a> {
    /// The dialect.
    dialect: &'a Dialect,
    /// The symbols of the dialect.
    symbols: Symbols,
    /// The text as bytes.
    text: &'a [u8],
    ghost lawful: { IsLawful dialect.now },
    ghost same_symbols: { IsSymbols dialect.now symbols },
}

impl<'a> Cutter<'a> {
    ghost use Rattle.csvw_fields.specs.Cutters.{dialect_of, symbols_of, text_of, IsCutterOf};

    /// Returns the cutter of a text by these rules, or `None` if they have no symbols.
    pub fn of(rules: &'a Rules, text: &'a [u8]) -> Option<Cutter<'a>>
        ensures { MatchOption result (rules.now.symbols ≡ None) (IsCutterOf rules.now text.now) }
    {
        let symbols = rules.symbols?;
        Some(Cutter {
            dialect: &rules.dialect,
            symbols,
            text,
        })
    }

    /// Returns whether a quote is at this place.
    fn has_quote(self, at: usize) -> bool
        ensures stands { result ≡ true → (at < length self.entry.text.now) × (slice_index self.entry.text.now at ≡ self.entry.symbols.quote) }
        ensures other { result ≡ false → at < length self.entry.text.now → slice_index self.entry.text.now at ≢ self.entry.symbols.quote }
    {
        at < self.text.len() && self.text[at] == self.symbols.quote
    }

    /// Writes what the characters inside quotes mean after the texts of a buffer. They begin at this place, and so
    /// many bytes come before the first quote. Returns how many bytes come before the quote that closes them.
    fn unescape(
        self,
        start: usize,
        first: usize,
        marks: &mut Marks,
        spare: &mut Vec<u8>,
    ) -> Result<Option<usize>, AllocError>
        requires marks { AreMarks (is_symbol self.symbols) self.text.now marks.old }
        requires within { start ≤ length self.text.now }
        requires text { is_utf8 (drop start self.text.now) ≡ true }
        requires first { StandsAhead (is_quote self.symbols) self.text.now start (length self.text.now) first }
        ensures marks { AreMarks (is_symbol self.entry.symbols) self.entry.text.now marks.new }
        ensures grows { Grows spare.old.items spare.new.items }
        ensures value { IfOk result (λ o. IfSome o
            (IsUnescaped self.entry.symbols.quote (drop start self.entry.text.now) spare.old.items spare.new.items)) }
    {
        let mut at = start;
        let mut len = first;
        while self.has_quote(at + len + 1) {
            spare.extend_from_slice(&self.text[at..at + len + 1])?;
            at += len + 2;
            let Some(next) = next_quote(self.symbols, self.text, at, marks) else {
                return Ok(None);
            };
            len = next;
        }
        if len > 0 {
            spare.extend_from_slice(&self.text[at..at + len])?;
        }
        Ok(Some(at + len - start))
    }

    /// Cuts a field in quotes with an escape, if so many bytes come before the first quote inside. Its text is
    /// written after those of the second buffer.
    fn cut_escaped(
        self,
        start: usize,
        first: usize,
        marks: &mut Marks,
        spare: &mut Vec<u8>,
    ) -> Result<Option<Cut>, AllocError>
        requires marks { AreMarks (is_symbol self.symbols) self.text.now marks.old }
        requires within { start < length self.text.now }
        requires text { is_utf8 (drop start self.text.now) ≡ true }
        requires quoted { self.symbols.quoted ≡ true }
        requires quote { slice_index self.text.now start ≡ self.symbols.quote }
        requires first { StandsAhead (is_quote self.symbols) self.text.now (start + 1) (length self.text.now) first }
        ensures marks { AreMarks (is_symbol self.entry.symbols) self.entry.text.now marks.new }
        ensures grows { Grows spare.old.items spare.new.items }
        ensures cut { IfOk result (λ o. IfSome o (IsCut self.entry.dialect.now (drop start self.entry.text.now) spare.new.items)) }
    {
        let from = spare.len();
        let Some(close) = self.unescape(start + 1, first, marks, spare)? else {
            return Ok(None);
        };
        let to = spare.len();
        let bound = Bound {
            from,
            to,
            apart: true,
        };
        let (_, rest) = self.text.split_at(start);
        Ok(behind(self.dialect, self.symbols, rest, bound, close + 2))
    }

    /// Cuts a field in quotes. Its text is lent from the bytes or, if a quote is doubled, written after those of the
    /// second buffer.
    fn cut_quoted(
        self,
        start: usize,
        marks: &mut Marks,
        spare: &mut Vec<u8>,
    ) -> Result<Option<Cut>, AllocError>
        requires marks { AreMarks (is_symbol self.symbols) self.text.now marks.old }
        requires within { start < length self.text.now }
        requires text { is_utf8 (drop start self.text.now) ≡ true }
        requires quoted { self.symbols.quoted ≡ true }
        requires quote { slice_index self.text.now start ≡ self.symbols.quote }
        ensures marks { AreMarks (is_symbol self.entry.symbols) self.entry.text.now marks.new }
        ensures grows { Grows spare.old.items spare.new.items }
        ensures cut { IfOk result (λ o. IfSome o (IsCut self.entry.dialect.now (drop start self.entry.text.now) spare.new.items)) }
    {
        let Some(first) = next_quote(self.symbols, self.text, start + 1, marks) else {
            return Ok(None);
        };
        if self.has_quote(start + first + 2) {
            return self.cut_escaped(start, first, marks, spare);
        }
        let (_, rest) = self.text.split_at(start);
        Ok(behind(
            self.dialect,
            self.symbols,
            rest,
            lent(1, first + 1),
            first + 2,
        ))
    }

    /// Cuts the field that begins at this place, if that needs no look at each of its characters. So many bytes come
    /// before its first symbol, which is not a delimiter. Its text is lent from the bytes or, if a quote is doubled,
    /// written after those of the second buffer.
    fn cut_field(
        self,
        start: usize,
        len: usize,
        marks: &mut Marks,
        spare: &mut Vec<u8>,
    ) -> Result<Option<Cut>, AllocError>
        requires marks { AreMarks (is_symbol self.symbols) self.text.now marks.old }
        requires within { start ≤ length self.text.now }
        requires text { is_utf8 (drop start self.text.now) ≡ true }
        requires first { StandsAhead (is_symbol self.symbols) self.text.now start (length self.text.now) len }
        requires other { slice_index self.text.now (start + len) ≢ self.symbols.delimiter }
        ensures marks { AreMarks (is_symbol self.entry.symbols) self.entry.text.now marks.new }
        ensures grows { Grows spare.old.items spare.new.items }
        ensures cut { IfOk result (λ o. IfSome o (IsCut self.entry.dialect.now (drop start self.entry.text.now) spare.new.items)) }
    {
        if self.text[start + len] == b'\n' {
            let (_, rest) = self.text.split_at(start);
            return Ok(cut_last(self.dialect, self.symbols, rest, len));
        }
        if 0 < len {
            return Ok(None);
        }
        self.cut_quoted(start, marks, spare)
    }

    /// Cuts the fields of the row that begins at this place, a byte from 0. Returns the place of its terminator.
    ///
    /// Returns `None` if the row isn't whole, or if it needs a look at each of its characters. Returns `AllocError`
    /// if memory runs out. The marks can be used for the rows after it, too.
    pub fn cut_row(
        self,
        start: usize,
        marks: &mut Marks,
        bounds: &mut Vec<Bound>,
        spare: &mut Vec<u8>,
    ) -> Result<Option<usize>, AllocError>
        requires marks { AreMarks (is_symbol (symbols_of self)) (text_of self) marks.old }
        requires within { start ≤ length (text_of self) }
        requires text { is_utf8 (drop start (text_of self)) ≡ true }
        ensures marks { AreMarks (is_symbol (symbols_of self.entry)) (text_of self.entry) marks.new }
        ensures bounded { are_bounds (text_of self.entry) spare.new.items bounds.new.items ≡ true }
        ensures row { IfOk result (λ o. IfSome o
            (λ at. IsCutRow (dialect_of self.entry) (text_of self.entry) start at spare.new.items bounds.new.items)) }
    {
        bounds.clear();
        spare.clear();
        let mut at = start;
        while let Some(len) = next_symbol(self.symbols, self.text, at, marks) {
            if self.text[at + len] == self.symbols.delimiter {
                bounds.push(lent(at, at + len))?;
                at += len + 1;
                continue;
            }
            let Some(cut) = self.cut_field(at, len, marks, spare)? else {
                return Ok(None);
            };
            bounds.push(cut.bound_at(at))?;
            at += cut.next;
            if cut.ends {
                return Ok(Some(at));
            }
        }
        Ok(None)
    }

    /// Returns how many bytes the row from `start` has with its terminator, which is at `at`. Returns `None` if the
    /// row is too long.
    pub fn row_len(self, start: usize, at: usize) -> Option<usize>
        requires start { start ≤ at }
        requires within { at ≤ length (text_of self) }
        ensures len { IfSome result (IsRowLen (dialect_of self.entry) (text_of self.entry) start at) }
        ensures long { result ≡ None → row_limit < at - start }
    {
        if at - start > ROW_LIMIT {
            return None;
        }
        let (_, behind) = self.text.split_at(at);
        Some(at - start + terminator_at(self.dialect, behind))
    }
}
