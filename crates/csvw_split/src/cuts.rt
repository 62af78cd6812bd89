//! The places of a file where pieces begin.
ghost use Rattle.std.specs.Prelude.{◌≡◌, ◌+◌, ◌<◌, ◌≤◌, ◌++◌, ℕ, List, [], length, true, None, IfOk, IfSome, IsSome, OnOk};
ghost use Rattle.csvw_columns.specs.declared.plan.TablePlan.{TablePlan as ThePlan};
ghost use Rattle.csvw_split.specs.Front.{front_rows};

use crate::file::{FileRows, Halt};
use crate::shares::Shares;
use csvw_columns::TablePlan;
use csvw_rows::RowStop;
use csvw_text::Seq;
use std::alloc::{AllocError, Global};

/// A place of a file where a piece begins.
#[derive(Clone, Copy)]
pub(crate) struct Cut {
    /// The place of the first byte.
    pub(crate) first_byte: u64,
    /// The number of rows of all kinds before it.
    pub(crate) rows_before: u64,
    /// The number of data rows before it.
    pub(crate) data_rows_before: u64,
}

/// The start of a file.
pub(crate) const START: Cut = Cut {
    first_byte: 0,
    rows_before: 0,
    data_rows_before: 0,
};

/// What is to be found in a file.
#[derive(Clone, Copy)]
struct Wanted {
    /// The number of rows that are skipped.
    skip_rows: u64,
    /// The number of header rows and data rows in its front.
    front_rows: u64,
    /// The place from which on the next piece is to begin.
    next: u64,
    /// The shares of all files, at this one.
    shares: Shares,
}

/// A file while it is cut.
#[derive(Drop)]
pub(crate) struct FileCuts {
    /// Its rows so far.
    file: FileRows,
    /// The number of bytes that it is to have.
    length: u64,
    /// The number of bytes that were read.
    bytes: u64,
    /// What is to be found.
    wanted: Wanted,
    /// The number of bytes of its front, once it was read.
    header_bytes: Option<u64>,
    /// The last cut.
    last: Cut,
    /// The cuts after the start.
    cuts: Seq<Cut>,
    ghost within: { bytes ≤ length },
}

/// The cuts of a whole file.
#[derive(Drop)]
pub(crate) struct WholeCuts {
    /// The cuts after the start.
    pub(crate) cuts: Seq<Cut>,
    /// The number of bytes of the file.
    pub(crate) length: u64,
    /// The number of bytes of its front.
    pub(crate) header_bytes: u64,
}

/// Returns the number of header rows and data rows that make the columns known: the header rows or, without them, the first data row.
fn front_rows(table: &TablePlan) -> u64
    ensures { result ≡ front_rows table.now }
{
    u64::from(table.dialect.header_row_count).max(1)
}

/// Returns the number of bytes of the first line, with its line feed.
fn line_len(bytes: &[u8]) -> usize
    ensures within { result ≤ length bytes.now }
    ensures some { 0 < length bytes.now → 0 < result }
{
    match bytes.iter().position(|b| *b == b'\n') {
        Some(at) => at + 1,
        None => bytes.len(),
    }
}

impl FileCuts {
    ghost use Rattle.csvw_split.specs.Cuts.{Cuts, IsCutUp, left_of};
    ghost use Rattle.csvw_split.specs.Front.{IsFront};

    /// Begins a file of this length. Returns `None` if the dialect of its table reads no text.
    pub(crate) fn new(
        alloc: Global,
        table: &TablePlan,
        length: u64,
        shares: Shares,
    ) -> Result<Option<FileCuts>, AllocError>
        ensures cuts { IfOk result (λ found. IfSome found (λ f. Cuts f table.now [])) }
        ensures left { IfOk result (λ found. IfSome found (λ f. left_of f ≡ length)) }
    {
        let dialect = table.dialect.clone(alloc)?;
        if dialect.check().is_err() {
            return Ok(None);
        }
        let wanted = Wanted {
            skip_rows: dialect.skip_rows,
            front_rows: front_rows(table),
            next: shares.next_after(0),
            shares,
        };
        Ok(Some(FileCuts {
            file: FileRows::new(alloc, dialect)?,
            length,
            bytes: 0,
            wanted,
            header_bytes: None,
            last: START,
            cuts: Seq::new(alloc),
        }))
    }

    /// Returns how many bytes the file is to have after those that were read.
    pub(crate) fn left(&self) -> u64
        ensures { result ≡ left_of self.now }
    {
        self.length - self.bytes
    }

    /// Returns how many of these bytes are fed at once: a line, while the end of the front or of a piece is looked for.
    fn step_len(&self, bytes: &[u8]) -> usize
        ensures within { result ≤ length bytes.now }
        ensures some { 0 < length bytes.now → 0 < result }
    {
        if self.header_bytes.is_none() || self.wanted.next <= self.bytes {
            return line_len(bytes);
        }
        let left = self.wanted.next - self.bytes;
        if left < bytes.len() as u64 {
            left as usize
        } else {
            bytes.len()
        }
    }

    /// Returns whether the front of the file was just read.
    fn is_at_front_end(&self) -> bool
        ensures none { result ≡ true → self.now.header_bytes ≡ None }
        ensures front { result ≡ true → (t : ThePlan) (text : List ℕ) → Cuts self.now t text → IsFront t text self.now.bytes }
    {
        if self.header_bytes.is_some() || !self.file.is_at_row_end() {
            return false;
        }
        if self.file.row_count() < self.wanted.skip_rows {
            return false;
        }
        self.file.given() >= self.wanted.front_rows
    }

    /// Notes the length of the front, if it was just read.
    fn note_front(&mut self)
        ensures cuts { (t : ThePlan) (text : List ℕ) → Cuts self.old t text → Cuts self.new t text }
        ensures left { left_of self.new ≡ left_of self.old }
    {
        if self.is_at_front_end() {
            self.header_bytes = Some(self.bytes);
        }
    }

    /// Adds the number of the bytes that were fed.
    fn count(&mut self, bytes: &[u8])
        requires { length bytes.now ≤ left_of self.old }
        ensures count { self.new.bytes ≡ self.old.bytes + length bytes.now }
        ensures file { self.new.file ≡ self.old.file }
        ensures cuts { self.new.cuts ≡ self.old.cuts }
        ensures wanted { self.new.wanted ≡ self.old.wanted }
        ensures header { self.new.header_bytes ≡ self.old.header_bytes }
        ensures left { left_of self.new + length bytes.now ≡ left_of self.old }
    {
        self.bytes += bytes.len() as u64;
    }

    /// Feeds some bytes.
    fn feed(&mut self, bytes: &[u8]) -> Result<(), Halt>
        requires { length bytes.now ≤ left_of self.old }
        ensures cuts { OnOk result ((t : ThePlan) (text : List ℕ) → Cuts self.old t text → Cuts self.new t (text ++ bytes.now)) }
        ensures left { OnOk result (left_of self.new + length bytes.now ≡ left_of self.old) }
    {
        self.file.feed(bytes)?;
        self.count(bytes);
        Ok(())
    }

    /// Returns whether a piece may begin here: it is wanted, it isn't empty, the front was read, and the piece before it has a data row.
    fn may_begin(&self) -> bool
        ensures { result ≡ true → IsSome self.now.header_bytes }
    {
        self.wanted.next <= self.bytes
            && self.header_bytes.is_some()
            && self.bytes < self.length
            && self.file.data_rows() > self.last.data_rows_before
    }

    /// Adds a cut here, if a piece begins here.
    fn cut(&mut self) -> Result<(), AllocError>
        ensures cuts { OnOk result ((t : ThePlan) (text : List ℕ) → Cuts self.old t text → Cuts self.new t text) }
        ensures left { left_of self.new ≡ left_of self.old }
    {
        if !self.may_begin() || !self.file.is_at_row_end() {
            return Ok(());
        }
        let cut = Cut {
            first_byte: self.bytes,
            rows_before: self.file.row_count(),
            data_rows_before: self.file.data_rows(),
        };
        self.cuts.push(cut)?;
        self.last = cut;
        self.wanted.next = self.wanted.shares.next_after(self.bytes);
        Ok(())
    }

    /// Takes some bytes, at most one line while the end of the front or of a piece is looked for.
    fn step(&mut self, bytes: &[u8]) -> Result<(), Halt>
        requires { length bytes.now ≤ left_of self.old }
        ensures cuts { OnOk result ((t : ThePlan) (text : List ℕ) → Cuts self.old t text → Cuts self.new t (text ++ bytes.now)) }
        ensures left { OnOk result (left_of self.new + length bytes.now ≡ left_of self.old) }
    {
        self.feed(bytes)?;
        self.note_front();
        match self.cut() {
            Ok(()) => Ok(()),
            Err(_) => {
                Err(Halt {
                    row: 0,
                    stop: RowStop::Memory,
                })
            }
        }
    }

    /// Takes a piece that was read.
    pub(crate) fn take(&mut self, piece: &[u8]) -> Result<(), Halt>
        requires { length piece.now ≤ left_of self.old }
        ensures cuts { OnOk result ((t : ThePlan) (text : List ℕ) → Cuts self.old t text → Cuts self.new t (text ++ piece.now)) }
    {
        let mut rest = piece;
        while !rest.is_empty() {
            let (step, after) = rest.split_at(self.step_len(rest));
            self.step(step)?;
            rest = after;
        }
        Ok(())
    }

    /// Ends the file. Returns the cuts.
    pub(crate) fn end(self) -> Result<WholeCuts, Halt>
        requires { left_of self ≡ 0 }
        ensures { IfOk result (λ whole. (t : ThePlan) (text : List ℕ) → Cuts self t text → IsCutUp t text whole) }
    {
        let FileCuts {
            file,
            length,
            header_bytes,
            cuts,
            ..
        } = self;
        file.end()?;
        Ok(WholeCuts {
            cuts,
            length,
            header_bytes: header_bytes.unwrap_or(length),
        })
    }
}
