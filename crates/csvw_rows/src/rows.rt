//! `Rows`: a reader of rows.
ghost use Rattle.std.specs.Prelude.{◌≡◌, ◌≤◌, ◌<◌, ◌-◌, ◌+◌, ◌^◌, ℕ, true, false, [], length, drop, map, encode_utf8_all, IfOk, OnOk, IfSome, Some, Ok};
ghost use Rattle.std.specs.Str.{is_utf8};
ghost use Rattle.std.specs.Borrow.{sem};
ghost use Rattle.csvw_fields.specs.Bounds.{are_bounds};
ghost use Rattle.csvw_records.specs.Lawful.{IsLawful};
ghost use Rattle.csvw_fields.specs.Drafts.{IsDraft};
ghost use Rattle.csvw_fields.specs.Marked.{Marked};
ghost use Rattle.csvw_rows.specs.IgnoredRows.{IsSearched};
ghost use Rattle.csvw_rows.specs.SourceState.{rest_bytes};

use crate::breach::shown_len;
use crate::ignored_row::line_end;
use crate::next::{After, Known, Turn, is_last};
use crate::raw_row::RawRow;
use crate::source::Source;
use csvw_fields::laws::field_laws;
use csvw_fields::{Bound, Cutter, Draft, Marks, Reading, Rules, all_empty, settled, terminator_at};
use csvw_records::laws::record_laws;
use csvw_records::{Dialect, ROW_LIMIT, RowStop, is_quoted};
use std::alloc::{AllocError, Global};

/// A reader of the rows of a text that comes in pieces of bytes.
#[derive(Drop)]
pub struct Rows {
    /// The rules of the dialect.
    rules: Rules,
    /// The greatest number of rows of all kinds.
    max_rows: u64,
    /// The text that wasn't read yet.
    source: Source,
    /// Whether the text has ended.
    ended: bool,
    /// The number of rows of all kinds that were read.
    row: u64,
    /// The number of header rows and data rows among them.
    remained: u64,
    /// The bytes after a place that are symbols.
    marks: Marks,
    /// The bounds of the fields that were read last.
    fields: Vec<Bound>,
    /// The texts of the fields whose quotes were doubled.
    spare: Vec<u8>,
    /// The front of a row that wasn't complete.
    draft: Draft,
    /// The number of bytes at the start that belong to a comment or a skipped row for sure.
    searched: usize,
    /// The stop that was returned, if there was one.
    stop: Option<RowStop>,
    ghost few: { max_rows < 2 ^ 64 - 1 },
    ghost counted: { row ≤ max_rows },
    ghost remained_few: { remained ≤ row },
    ghost marked: { Marked rules.symbols source.text.items marks },
    ghost bounded: { are_bounds source.text.items spare.items fields.items ≡ true },
    ghost drafted: { IsDraft rules.dialect draft (rest_bytes source) },
    ghost none_ends: { IsSearched rules.dialect searched (rest_bytes source) },
}

impl Rows {
    ghost use Rattle.csvw_rows.specs.RowsState.{is_ended_of, fields_of, unread, reading_of, stop_of, after_of, last_of};
    ghost use Rattle.csvw_rows.specs.RowsState.{Holds, Passes, AreFront, HasFields, Refills, Feeds, Closes, Advances};
    ghost use Rattle.csvw_rows.specs.RowsState.{Turns, KeepsStop, WaitsThere, IsReadable, IsReadRow, IsWrongRow};
    ghost use Rattle.csvw_rows.specs.RowsState.{IsIgnoredNext, IsIgnoredRead, IsOpenFront, IsSettledLen, EndsIgnored};
    ghost use Rattle.csvw_rows.specs.RowsState.{may_become_comment, sure_of, IsKnown};
    ghost use Rattle.csvw_rows.specs.RowsLending.{RestsAdvanced};
    ghost use Rattle.csvw_rows.specs.Skips.{can_skip, remained_of, unread_bytes_of, SkipsTo};
    ghost use Rattle.csvw_rows.specs.SourceState.{rest_of};
    ghost use Rattle.csvw_rows.specs.RowValue.{row_of};
    ghost use Rattle.csvw_rows.specs.NextRows.{is_last};

    /// Returns a reader of no bytes yet, or `AllocError` if memory runs out.
    ///
    /// The reader reads at most `max_rows` rows of all kinds. The dialect must have passed `check`.
    pub fn new(alloc: Global, dialect: Dialect, max_rows: u64) -> Result<Rows, AllocError>
        requires lawful { IsLawful dialect }
        requires few { max_rows < 2 ^ 64 - 1 }
        ensures ended { IfOk result (λ r. is_ended_of r ≡ false) }
        ensures holds { IfOk result (λ r. Holds r dialect max_rows [] false []) }
    {
        field_laws();
        Ok(Rows {
            rules: Rules::new(alloc, dialect)?,
            max_rows,
            source: Source::new(alloc),
            ended: false,
            row: 0,
            remained: 0,
            marks: Marks::none(),
            fields: Vec::new(alloc),
            spare: Vec::new(alloc),
            draft: Draft::new(alloc),
            searched: 0,
            stop: None,
        })
    }

    /// Returns whether the text has ended: `end` was called.
    pub fn is_ended(&self) -> bool
        ensures { result ≡ is_ended_of self.now }
    {
        self.ended
    }

    /// Returns the source number of the row that is being read, from 1. It is the number of complete rows plus one.
    /// After a stop it stays the same.
    pub fn row(&self) -> u64
        ensures { result ≡ reading_of self.now }
    {
        self.row + 1
    }

    /// Returns the number of header rows and data rows among the complete rows.
    pub fn remained(&self) -> u64
        ensures { result ≡ remained_of self.now }
    {
        self.remained
    }

    /// Returns the number of bytes that were fed and that no row has which was read. After `next` returned `None`, a row
    /// ends before them: the law `row_ends`.
    pub fn unread_bytes(&self) -> usize
        ensures { result ≡ unread_bytes_of self.now }
    {
        self.source.unread_bytes()
    }

    /// Goes on after rows whose bytes aren't fed, as if they had been fed and all their rows returned. There are `rows`
    /// rows of all kinds from the start of the file then, and `remained` header rows and data rows among them.
    ///
    /// Returns false, and changes nothing, if the text has ended, if a stop was returned, if bytes are unread, or if
    /// no reader can have these numbers.
    pub fn skip_to(&mut self, rows: u64, remained: u64) -> bool
        ensures result { result ≡ can_skip self.old rows remained }
        ensures skips { result ≡ true → SkipsTo self.old self.new rows remained }
        ensures same { result ≡ false → self.new ≡ self.old }
    {
        record_laws();
        if self.ended || self.stop.is_some() || self.unread_bytes() > 0 {
            return false;
        }
        if remained > rows || rows > self.max_rows {
            return false;
        }
        self.source.begin();
        self.row = rows;
        self.remained = remained;
        true
    }

    /// Adds some more bytes of the text. Returns the stop that was returned before, or `Memory` if memory runs out.
    /// The text must not have ended.
    pub fn feed(&mut self, piece: &[u8]) -> Result<(), RowStop>
        requires { is_ended_of self.old ≡ false }
        ensures ended { is_ended_of self.new ≡ false }
        ensures feeds { Feeds self.old self.new piece.now result }
        ensures keeps { KeepsStop self.old self.new result }
    {
        record_laws();
        field_laws();
        if let Some(stop) = self.stop {
            return Err(stop);
        }
        self.fields.clear();
        self.marks = Marks::none();
        match self.source.push(piece) {
            Ok(()) => Ok(()),
            Err(_) => {
                self.draft.clear();
                self.searched = 0;
                self.stop = Some(RowStop::Memory);
                Err(RowStop::Memory)
            }
        }
    }

    /// Ends the text. Returns the stop that was returned before. The text must not have ended.
    pub fn end(&mut self) -> Result<(), RowStop>
        requires { is_ended_of self.old ≡ false }
        ensures ended { is_ended_of self.new ≡ true }
        ensures closes { Closes self.old self.new result }
        ensures keeps { KeepsStop self.old self.new result }
    {
        self.ended = true;
        match self.stop {
            Some(stop) => Err(stop),
            None => Ok(()),
        }
    }

    /// Returns the next header row or data row that is complete.
    ///
    /// Returns `None` if there is none yet or, after `end`, if there are no more. A stop is returned at its place,
    /// after all rows before it, and by every later call. Returns `Memory` if memory runs out.
    pub fn next(&mut self) -> Result<Option<RawRow<'_>>, RowStop>
        ensures* after { sem 𝓛 (RestsAdvanced self.entry result) }
    {
        match self.advance() {
            Ok(true) => Ok(Some(self.given_row())),
            Ok(false) => Ok(None),
            Err(stop) => Err(stop),
        }
    }

    fn given_row(&self) -> RawRow<'_>
        ensures { row_of result ≡ last_of self.now }
    {
        let columns = self.rules.dialect.skip_columns as usize;
        let (_, bounds) = self
            .fields
            .as_slice()
            .split_at(columns.min(self.fields.len()));
        let headers = u64::from(self.rules.dialect.header_row_count);
        let source = self.row;
        let number = self.remained.saturating_sub(headers);
        let text = self.source.items();
        RawRow::new(text, self.spare.as_slice(), bounds, source, number)
    }

    /// Reads up to the next row that is given.
    fn advance(&mut self) -> Result<bool, RowStop>
        ensures advances { Advances self.old self.new result }
        ensures keeps { KeepsStop self.old self.new result }
    {
        if let Some(stop) = self.stop {
            return Err(stop);
        }
        match self.read_on() {
            Ok(given) => Ok(given),
            Err(stop) => {
                self.stop = Some(stop);
                Err(stop)
            }
        }
    }

    fn read_on(&mut self) -> Result<bool, RowStop>
        ensures advances { Advances self.old self.new result }
        ensures stop { stop_of self.new ≡ stop_of self.old }
    {
        loop {
            match self.turn() {
                Ok(Turn::Given) => return Ok(true),
                Ok(Turn::Waits) => return Ok(false),
                Ok(Turn::Passed) => {}
                Err(stop) => return Err(stop),
            }
        }
    }

    /// Returns what comes after the characters that there are.
    fn after(&self) -> After
        ensures { result ≡ after_of self.now }
    {
        if self.source.is_bad() || self.ended && self.source.is_cut() {
            After::NoText
        } else if self.ended {
            After::Nothing
        } else {
            After::More
        }
    }

    /// Finds the fields of the row at the front among its bytes, if that is possible. Returns the number of its bytes
    /// with its terminator.
    fn cut(&mut self) -> Result<Option<usize>, AllocError>
        ensures refills { Refills self.old self.new }
        ensures row { IfOk result (λ o. IfSome o (HasFields self.new)) }
    {
        record_laws();
        let Some(cutter) = Cutter::of(&self.rules, self.source.items()) else {
            return Ok(None);
        };
        let rest = self.source.rest();
        if 0 < self.draft.read_len()
            || self.row >= self.max_rows
            || self.rules.is_ignored(self.row, rest)
        {
            return Ok(None);
        }
        let start = self.source.taken();
        let Some(at) = cutter.cut_row(start, &mut self.marks, &mut self.fields, &mut self.spare)?
        else {
            return Ok(None);
        };
        Ok(cutter.row_len(start, at))
    }

    /// Reads one more row.
    fn turn(&mut self) -> Result<Turn, RowStop>
        ensures turns { Turns self.old self.new result }
        ensures stop { stop_of self.new ≡ stop_of self.old }
    {
        record_laws();
        if let Some(len) = self.cut()? {
            return Ok(self.pass_fields(len));
        }
        match self.read_front()? {
            Known::Row(len) => Ok(self.pass_fields(len)),
            Known::Ignored(len) => {
                self.pass(len);
                Ok(Turn::Passed)
            }
            Known::Waits => Ok(Turn::Waits),
            Known::Stop(stop) => Err(stop),
        }
    }

    /// Reads the row at the front on from the place where reading stopped.
    fn read_front(&mut self) -> Result<Known, AllocError>
        ensures refills { Refills self.old self.new }
        ensures known { IfOk result (IsKnown self.new) }
    {
        record_laws();
        if self.source.rest().is_empty() {
            return Ok(self.waits());
        }
        if self.row >= self.max_rows {
            return Ok(Known::Stop(RowStop::TooManyRows));
        }
        if self.rules.is_ignored(self.row, self.source.rest()) {
            return Ok(self.read_ignored());
        }
        if self.may_become_comment() {
            return Ok(self.open_front(self.source.rest().len()));
        }
        self.read_draft()
    }

    /// Returns what is known of the front if no row is complete, none is too long and no rule is broken.
    fn waits(&self) -> Known
        requires { WaitsThere self.now }
        ensures { IsKnown self.now result }
    {
        match self.after() {
            After::More | After::Nothing => Known::Waits,
            After::NoText => Known::Stop(RowStop::NotUtf8),
        }
    }

    /// Returns whether the text has ended and all of it is characters.
    fn is_last(&self) -> bool
        ensures { result ≡ is_last (after_of self.now) }
    {
        is_last(self.after())
    }

    /// Returns whether the row at the front isn't known to be a comment, but may become one.
    fn may_become_comment(&self) -> bool
        ensures { result ≡ may_become_comment self.now }
    {
        !self.is_last() && self.rules.may_be_comment(self.source.rest())
    }

    /// Reads the skipped row or comment at the front on from the place where reading stopped.
    fn read_ignored(&mut self) -> Known
        requires { IsIgnoredNext self.old }
        ensures refills { Refills self.old self.new }
        ensures known { IsKnown self.new result }
    {
        record_laws();
        match self.ignored_end() {
            Some(len) => self.ended_ignored(len),
            None => {
                self.searched = self.settled_len();
                self.open_front(self.searched)
            }
        }
    }

    /// Returns the number of bytes after which the skipped row or comment at the front ends.
    fn ignored_end(&self) -> Option<usize>
        ensures { EndsIgnored self.now result }
    {
        record_laws();
        let rest = self.source.rest();
        match line_end(&self.rules.dialect, rest.as_bytes(), self.searched) {
            Some(len) => Some(len),
            None if self.is_last() => Some(rest.len()),
            None => None,
        }
    }

    /// Returns the number of bytes that there are, without a CR at the end that may begin a terminator.
    fn settled_len(&self) -> usize
        ensures { IsSettledLen self.now result }
    {
        settled(&self.rules.dialect, self.source.rest()).len()
    }

    /// Returns what is known of the skipped row or comment at the front, which ends after so many bytes.
    fn ended_ignored(&self, len: usize) -> Known
        requires next { IsIgnoredNext self.now }
        requires read { IsIgnoredRead self.now len }
        ensures { IsKnown self.now result }
    {
        record_laws();
        if len > ROW_LIMIT {
            return Known::Stop(RowStop::RowTooLong);
        }
        let (_, behind) = self.source.rest().as_bytes().split_at(len);
        Known::Ignored(len + terminator_at(&self.rules.dialect, behind))
    }

    /// Returns what is known of the front if no row is complete. So many bytes belong to the next row for sure.
    fn open_front(&self, len: usize) -> Known
        requires { IsOpenFront self.now len }
        ensures { IsKnown self.now result }
    {
        record_laws();
        if len > ROW_LIMIT {
            return Known::Stop(RowStop::RowTooLong);
        }
        self.waits()
    }

    /// Reads the row with fields at the front on from the place where reading stopped.
    fn read_draft(&mut self) -> Result<Known, AllocError>
        requires { IsReadable self.old }
        ensures refills { Refills self.old self.new }
        ensures known { IfOk result (IsKnown self.new) }
    {
        record_laws();
        field_laws();
        let is_last = self.is_last();
        match self.draft.go_on(&self.rules, self.source.rest(), is_last) {
            Ok(Reading::Unfinished) => Ok(self.open_front(self.sure_len())),
            Ok(Reading::Ended) => {
                let len = self.draft.read_len();
                let trim = self.rules.dialect.trim;
                self.draft
                    .take_fields(trim, &mut self.fields, &mut self.spare)?;
                Ok(self.ended_row(len))
            }
            Ok(Reading::Broken(stop)) => {
                let at = self.draft.read_len();
                let len = shown_len(&self.rules, self.source.rest(), at);
                self.draft.clear();
                Ok(self.broken_row(len, stop))
            }
            Err(e) => {
                self.draft.clear();
                Err(e)
            }
        }
    }

    /// Returns what is known of the row at the front if a rule is broken in it, as so many bytes show.
    fn broken_row(&self, len: usize, stop: RowStop) -> Known
        requires readable { IsReadable self.now }
        requires wrong { IsWrongRow self.now len stop }
        ensures { IsKnown self.now result }
    {
        record_laws();
        if len > ROW_LIMIT {
            return Known::Stop(RowStop::RowTooLong);
        }
        Known::Stop(stop)
    }

    /// Returns how many bytes of an unfinished row belong to it for sure. A CR may begin its terminator, but not
    /// within quotes.
    fn sure_len(&self) -> usize
        ensures { result ≡ sure_of self.now }
    {
        if is_quoted(self.draft.state()) {
            self.source.rest().len()
        } else {
            self.draft.read_len()
        }
    }

    /// Returns what is known of the row at the front, which ends after so many bytes and whose fields were found.
    fn ended_row(&self, len: usize) -> Known
        requires readable { IsReadable self.now }
        requires read { IsReadRow self.now len }
        ensures { IsKnown self.now result }
    {
        record_laws();
        if len > ROW_LIMIT {
            return Known::Stop(RowStop::RowTooLong);
        }
        let (_, behind) = self.source.rest().as_bytes().split_at(len);
        Known::Row(len + terminator_at(&self.rules.dialect, behind))
    }

    /// Moves to the place after a row and its terminator.
    fn pass(&mut self, len: usize)
        requires within { len ≤ length (rest_bytes self.old.source) }
        requires text { is_utf8 (drop len (rest_bytes self.old.source)) ≡ true }
        requires few { self.old.row < self.old.max_rows }
        ensures passes { (count : ℕ) → AreFront self.old len count → Passes self.old self.new count }
        ensures remained { self.new.remained ≡ self.old.remained }
        ensures fields { fields_of self.new ≡ fields_of self.old }
        ensures bounds { self.new.fields ≡ self.old.fields }
    {
        field_laws();
        self.source.take(len);
        self.draft.clear();
        self.searched = 0;
        self.row += 1;
    }

    /// Moves to the place after a row whose fields were found. The row is given unless it is blank.
    fn pass_fields(&mut self, len: usize) -> Turn
        requires { HasFields self.old len }
        ensures turns { Turns self.old self.new (Ok result) }
        ensures stop { stop_of self.new ≡ stop_of self.old }
    {
        record_laws();
        field_laws();
        self.pass(len);
        if self.rules.dialect.skip_blank_rows && all_empty(self.fields.as_slice()) {
            return Turn::Passed;
        }
        self.remained += 1;
        Turn::Given
    }
}
