//! `Draft`: the front of a row whose end wasn't read yet, which is read on when more bytes come.
//!
//! Many characters are read at once if none of them, or each pair of doubled quotes, means anything else.
ghost use Rattle.std.specs.Prelude.{◌≡◌, ◌≤◌, ◌+◌, true, false, [], ◌∷◌, ◌++◌, length, take, drop, chars, map, encode_utf8_all, IfOk, OnOk};
ghost use Rattle.std.specs.Str.{is_utf8};
ghost use Rattle.csvw_fields.specs.Bounds.{apart_all, texts_apart};
ghost use Rattle.csvw_records.specs.Grammar.{trimmed};
ghost use Rattle.csvw_records.specs.NextRow.{settled};
ghost use Rattle.csvw_records.specs.declared.scan.State.TheVariants.{Start, Inside};

use crate::bound::Bound;
use crate::cut::terminator_at;
use crate::quotes::doubled_quotes;
use crate::rules::Rules;
use crate::trim::trim_fields;
use csvw_records::laws::record_laws;
use csvw_records::{Dialect, RowStop, State, Step, Trim, is_quoted, next_step};
use std::alloc::{AllocError, Global};
use std::mem::swap;

/// The result of reading on.
#[derive(Clone, Copy, Debug, PartialEq, Eq)]
pub enum Reading {
    /// The text ended within the row.
    Unfinished,
    /// A terminator follows the row.
    Ended,
    /// The next character breaks a rule, or the last text ended within quotes.
    Broken(RowStop),
}

/// The front of a row: the values of its fields and the place in a field at which it ends. The last field isn't
/// whole.
#[derive(Drop)]
pub struct Draft {
    /// The number of bytes of the row that were read.
    read: usize,
    /// The place in a field at which the front ends.
    state: State,
    /// The place in `texts` at which the last field begins, in bytes from 0.
    from: usize,
    /// The values of all fields, one after the other.
    texts: Vec<u8>,
    /// The bounds of the whole fields in `texts`.
    bounds: Vec<Bound>,
    ghost within: { from ≤ length texts.items },
    ghost is_text: { is_utf8 (drop from texts.items) ≡ true },
    ghost bounded: { apart_all texts.items bounds.items ≡ true },
}

impl Draft {
    ghost use Rattle.csvw_fields.specs.Drafts.{read_of, state_of, values_of, current_of, IsFresh, IsDraft, Keeps, Steps, Reads, GoesOn};

    /// Returns a draft of which nothing was read.
    pub fn new(alloc: Global) -> Draft
        ensures { IsFresh result }
    {
        Draft {
            read: 0,
            state: State::Start,
            from: 0,
            texts: Vec::new(alloc),
            bounds: Vec::new(alloc),
        }
    }

    /// Forgets what was read.
    pub fn clear(&mut self)
        ensures { IsFresh self.new }
    {
        self.read = 0;
        self.state = State::Start;
        self.from = 0;
        self.texts.clear();
        self.bounds.clear();
    }

    /// Returns the number of bytes of the row that were read.
    pub fn read_len(&self) -> usize
        ensures { result ≡ read_of self.now }
    {
        self.read
    }

    /// Returns the place in a field at which reading stopped.
    pub fn state(&self) -> State
        ensures { result ≡ state_of self.now }
    {
        self.state
    }

    /// Adds a character to the last field.
    fn keep(&mut self, c: char) -> Result<(), AllocError>
        ensures read { read_of self.new ≡ read_of self.old }
        ensures state { state_of self.new ≡ state_of self.old }
        ensures values { values_of self.new ≡ values_of self.old }
        ensures current { OnOk result (current_of self.new ≡ current_of self.old ++ c ∷ []) }
    {
        let mut bytes = [0; 4];
        let text = c.encode_utf8(&mut bytes);
        self.texts.extend_from_slice(text.as_bytes())
    }

    /// Ends the last field, and begins one after it.
    fn close_field(&mut self) -> Result<(), AllocError>
        ensures read { read_of self.new ≡ read_of self.old }
        ensures state { state_of self.new ≡ state_of self.old }
        ensures values { OnOk result (values_of self.new ≡ values_of self.old ++ current_of self.old ∷ []) }
        ensures current { OnOk result (current_of self.new ≡ []) }
    {
        let to = self.texts.len();
        self.bounds.push(Bound {
            from: self.from,
            to,
            apart: true,
        })?;
        self.from = to;
        Ok(())
    }

    /// Reads one character. `ends` says whether a terminator begins with it.
    fn step(&mut self, d: &Dialect, c: char, ends: bool) -> Result<Reading, AllocError>
        ensures read { read_of self.new ≡ read_of self.old }
        ensures steps { IfOk result (Steps d.now self.old self.new c ends) }
    {
        match next_step(d, self.state, c, ends) {
            Step::Keep(next) => {
                self.keep(c)?;
                self.state = next;
                Ok(Reading::Unfinished)
            }
            Step::Skip(next) => {
                self.state = next;
                Ok(Reading::Unfinished)
            }
            Step::Open => {
                self.from = self.texts.len();
                self.state = State::Inside;
                Ok(Reading::Unfinished)
            }
            Step::Next => {
                self.close_field()?;
                self.state = State::Start;
                Ok(Reading::Unfinished)
            }
            Step::End => {
                self.close_field()?;
                Ok(Reading::Ended)
            }
            Step::Stop(stop) => Ok(Reading::Broken(stop)),
        }
    }

    /// Reads what is text of the last field for sure, and returns what is left.
    fn keep_text<'a>(&mut self, rules: &Rules, rest: &'a str) -> Result<&'a str, AllocError>
        ensures read { read_of self.new ≡ read_of self.old }
        ensures keeps { IfOk result (λ left. Keeps rules.now.dialect self.old self.new rest.now left.now) }
    {
        let left = self.keep_clean(rules, rest)?;
        self.keep_quotes(rules, left)
    }

    /// Reads text in which nothing has a meaning of its own, and returns what is left.
    fn keep_clean<'a>(&mut self, rules: &Rules, rest: &'a str) -> Result<&'a str, AllocError>
        ensures read { read_of self.new ≡ read_of self.old }
        ensures keeps { IfOk result (λ left. Keeps rules.now.dialect self.old self.new rest.now left.now) }
    {
        record_laws();
        let len = rules.leads.clean_len(&rules.dialect, self.state, rest);
        let (text, left) = rest.split_at(len);
        self.texts.extend_from_slice(text.as_bytes())?;
        Ok(left)
    }

    /// Reads doubled quotes, and returns what is left.
    fn keep_quotes<'a>(&mut self, rules: &Rules, rest: &'a str) -> Result<&'a str, AllocError>
        ensures read { read_of self.new ≡ read_of self.old }
        ensures keeps { IfOk result (λ left. Keeps rules.now.dialect self.old self.new rest.now left.now) }
    {
        let count = doubled_quotes(&rules.dialect, self.state, rest);
        let (quotes, _) = rest.split_at(count);
        let (_, left) = rest.split_at(count + count);
        self.texts.extend_from_slice(quotes.as_bytes())?;
        Ok(left)
    }

    /// Reads the row on, up to its end or the end of the text. `end` is the number of bytes of the text and of what
    /// was read.
    fn read(&mut self, rules: &Rules, text: &str, end: usize) -> Result<Reading, AllocError>
        requires { end ≡ read_of self.old + length text.now }
        ensures { IfOk result (Reads rules.now.dialect self.old self.new text.now) }
    {
        record_laws();
        let mut rest = text;
        loop {
            let left = self.keep_text(rules, rest)?;
            let mut behind = left.chars();
            let Some(c) = behind.next() else {
                self.read = end;
                return Ok(Reading::Unfinished);
            };
            let at = end - left.len();
            let ends = 0 < terminator_at(&rules.dialect, left.as_bytes());
            match self.step(&rules.dialect, c, ends)? {
                Reading::Unfinished => rest = behind.as_str(),
                Reading::Ended => {
                    self.read = at;
                    return Ok(Reading::Ended);
                }
                Reading::Broken(stop) => {
                    self.read = at;
                    return Ok(Reading::Broken(stop));
                }
            }
        }
    }

    /// Reads the row on. The text is all of the row that there is, with what was read before. The end of the last
    /// text ends its row. Returns `AllocError` if memory runs out.
    pub fn go_on(&mut self, rules: &Rules, rest: &str, is_last: bool) -> Result<Reading, AllocError>
        requires { IsDraft rules.now.dialect self.old rest.now }
        ensures { IfOk result (GoesOn rules.now.dialect is_last self.new rest.now) }
    {
        if is_last {
            self.finish(rules, rest)
        } else {
            self.read_settled(rules, rest)
        }
    }

    /// Reads the row on to its end or to the end of the text.
    fn finish(&mut self, rules: &Rules, rest: &str) -> Result<Reading, AllocError>
        requires { IsDraft rules.now.dialect self.old rest.now }
        ensures { IfOk result (GoesOn rules.now.dialect true self.new rest.now) }
    {
        record_laws();
        let (_, behind) = rest.split_at(self.read);
        match self.read(rules, behind, rest.len())? {
            Reading::Unfinished => {
                if is_quoted(self.state) {
                    return Ok(Reading::Broken(RowStop::UnclosedQuote));
                }
                self.close_field()?;
                Ok(Reading::Ended)
            }
            Reading::Ended => Ok(Reading::Ended),
            Reading::Broken(stop) => Ok(Reading::Broken(stop)),
        }
    }

    /// Reads the row on, as far as it is settled.
    fn read_settled(&mut self, rules: &Rules, rest: &str) -> Result<Reading, AllocError>
        requires { IsDraft rules.now.dialect self.old rest.now }
        ensures { IfOk result (GoesOn rules.now.dialect false self.new rest.now) }
    {
        record_laws();
        let (_, behind) = rest.split_at(self.read);
        let text = settled(&rules.dialect, behind);
        let end = rest.len() - (behind.len() - text.len());
        self.read(rules, text, end)
    }

    /// Returns the fields of a row that has ended, stripped, and forgets the row. Returns `AllocError` if memory runs
    /// out.
    pub fn take_fields(
        &mut self,
        trim: Trim,
        fields: &mut Vec<Bound>,
        spare: &mut Vec<u8>,
    ) -> Result<(), AllocError>
        ensures bounded { apart_all spare.new.items fields.new.items ≡ true }
        ensures texts { OnOk result (texts_apart spare.new.items fields.new.items ≡ map (λ x. encode_utf8_all (trimmed trim x)) (values_of self.old)) }
        ensures fresh { IsFresh self.new }
    {
        let given = self.give(trim, fields, spare);
        self.clear();
        given
    }

    /// Moves out the texts of the fields. The fields stay without their texts.
    fn give(
        &mut self,
        trim: Trim,
        fields: &mut Vec<Bound>,
        spare: &mut Vec<u8>,
    ) -> Result<(), AllocError>
        ensures bounded { apart_all spare.new.items fields.new.items ≡ true }
        ensures texts { OnOk result (texts_apart spare.new.items fields.new.items ≡ map (λ x. encode_utf8_all (trimmed trim x)) (values_of self.old)) }
    {
        fields.clear();
        spare.clear();
        self.from = 0;
        swap(&mut self.texts, spare);
        match trim {
            Trim::No => {
                swap(&mut self.bounds, fields);
                Ok(())
            }
            Trim::Start | Trim::End | Trim::Both => {
                let given = trim_fields(trim, spare.as_slice(), self.bounds.as_slice(), fields);
                self.bounds.clear();
                given
            }
        }
    }
}

/// Returns the text without a CR at its end that may begin a terminator.
pub fn settled<'a>(d: &Dialect, text: &'a str) -> &'a str
    ensures front { result.now ≡ take (length result.now) text.now }
    ensures chars { chars result.now ≡ settled d.now (chars text.now) }
    ensures bytes { result.now ≡ settled d.now text.now }
{
    record_laws();
    let len = text.len();
    if d.line_terminators.crlf && 0 < len && text.as_bytes()[len - 1] == b'\r' {
        text.split_at(len - 1).0
    } else {
        text
    }
}
