//! The rows of a file that is read as records alone.
ghost use Rattle.std.specs.Prelude.{◌≡◌, ◌+◌, ◌-◌, ◌++◌, ℕ, List, Bool, true, false, [], length, IfOk, OnOk};
ghost use Rattle.csvw_records.specs.Lawful.{IsLawful};
ghost use Rattle.csvw_records.specs.declared.dialect.Dialect.{Dialect as TheDialect};
ghost use Rattle.csvw_rows.specs.RowsState.{is_ended_of};
ghost use Rattle.csvw_split.specs.Passing.{Passes, PassesMany};

use csvw_records::Dialect;
use csvw_rows::{RowStop, Rows};
use std::alloc::{AllocError, Global};

/// How many rows of a file are read.
const MAX_ROWS: u64 = 4_000_000_000;

/// A stop of the rows, with its place.
#[derive(Clone, Copy)]
pub(crate) struct Halt {
    /// The row's number in its source, from 1.
    pub(crate) row: u64,
    /// What is wrong with the text.
    pub(crate) stop: RowStop,
}

/// Reads the next row. Returns whether there was one.
fn pass_one(rows: &mut Rows) -> Result<bool, RowStop>
    ensures { Passes rows.old rows.new result }
{
    match rows.next() {
        Ok(Some(_)) => Ok(true),
        Ok(None) => Ok(false),
        Err(stop) => Err(stop),
    }
}

/// Reads the rows that are complete. Returns their number.
fn pass(rows: &mut Rows) -> Result<u64, Halt>
    ensures ended { is_ended_of rows.new ≡ is_ended_of rows.old }
    ensures count { IfOk result (PassesMany rows.old rows.new) }
{
    for count in 0..u64::MAX {
        match pass_one(rows) {
            Ok(true) => {}
            Ok(false) => return Ok(count),
            Err(stop) => {
                let row = rows.row();
                return Err(Halt { row, stop });
            }
        }
    }
    Ok(u64::MAX)
}

/// The rows of a file so far. Its text hasn't ended.
#[derive(Drop)]
pub(crate) struct FileRows {
    /// The reader of rows.
    rows: Rows,
    /// The number of header rows among those that remain.
    headers: u64,
    /// The number of header rows and data rows that are complete.
    given: u64,
    ghost is_open: { is_ended_of rows ≡ false },
}

impl FileRows {
    ghost use Rattle.csvw_split.specs.FileState.{Follows, HasGiven, HasRows, data_rows_of, given_of, rows_of};

    /// Returns the rows of no bytes yet, or `AllocError` if memory runs out.
    pub(crate) fn new(alloc: Global, dialect: Dialect) -> Result<FileRows, AllocError>
        requires { IsLawful dialect }
        ensures { IfOk result (λ file. Follows file dialect []) }
    {
        let headers = u64::from(dialect.header_row_count);
        Ok(FileRows {
            rows: Rows::new(alloc, dialect, MAX_ROWS)?,
            headers,
            given: 0,
        })
    }

    /// Returns the number of complete rows of all kinds.
    pub(crate) fn row_count(&self) -> u64
        ensures { result ≡ rows_of self.now }
    {
        self.rows.row() - 1
    }

    /// Returns the number of header rows and data rows that are complete.
    pub(crate) fn given(&self) -> u64
        ensures { result ≡ given_of self.now }
    {
        self.given
    }

    /// Returns the number of data rows that are complete.
    pub(crate) fn data_rows(&self) -> u64
        ensures { result ≡ data_rows_of self.now }
    {
        self.given.saturating_sub(self.headers)
    }

    /// Returns whether a row ends where the bytes end.
    pub(crate) fn is_at_row_end(&self) -> bool
        ensures rows { (d : TheDialect) (text : List ℕ) → Follows self.now d text → result ≡ true → HasRows d text (rows_of self.now) (data_rows_of self.now) }
        ensures given { (d : TheDialect) (text : List ℕ) → Follows self.now d text → result ≡ true → HasGiven d text (rows_of self.now) (given_of self.now) }
    {
        self.rows.unread_bytes() == 0 && self.rows.row() > 1
    }

    /// Adds some more bytes, and reads the rows that are complete.
    pub(crate) fn feed(&mut self, piece: &[u8]) -> Result<(), Halt>
        ensures { OnOk result ((d : TheDialect) (text : List ℕ) → Follows self.old d text → Follows self.new d (text ++ piece.now)) }
    {
        if let Err(stop) = self.rows.feed(piece) {
            let row = self.rows.row();
            return Err(Halt { row, stop });
        }
        let count = pass(&mut self.rows)?;
        self.given = self.given.saturating_add(count);
        Ok(())
    }

    /// Ends the text. Returns the stop of the rows.
    pub(crate) fn end(self) -> Result<(), Halt> {
        let FileRows {
            mut rows,
            headers: _,
            given: _,
        } = self;
        if let Err(stop) = rows.end() {
            let row = rows.row();
            return Err(Halt { row, stop });
        }
        match pass(&mut rows) {
            Ok(_) => Ok(()),
            Err(halt) => Err(halt),
        }
    }
}
