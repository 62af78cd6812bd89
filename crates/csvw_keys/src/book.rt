//! What is kept of rows for keys.
ghost use Rattle.std.specs.Prelude.{◌≡◌, ◌++◌, ℕ, true, false, List, Some, None, IfOk, MatchOption, OnOk};
ghost use Rattle.csvw_annotate.specs.declared.row.Row.{Row};
ghost use Rattle.csvw_keys.specs.Books.{KeepsBook, IsRoomy, book_rows, book_times, counts_in, duplicates_in, is_primary_of, lists_in};
ghost use Rattle.csvw_keys.specs.Books.{no_rows, purpose_of, rows_in, told, told_reference};
ghost use Rattle.csvw_keys.specs.Books.{book_records, recorded_in, records_in, times_in};
ghost use Rattle.csvw_keys.specs.Books.{Counts, Keeps, Lists, Records};
ghost use Rattle.csvw_keys.specs.contracts.held.HeldKeyOrd.TheImpl as derived;
ghost use Rattle.csvw_keys.specs.KeyRules.{KeyRule, reference_rule};
ghost use Rattle.csvw_keys.specs.KeyRules.KeyRule.{Unique};
ghost use Rattle.csvw_keys.specs.Tables.{with_row};
ghost use Rattle.csvw_keys.specs.Tallies.{tally_times};

use crate::foreign_key::ForeignKey;
use crate::held::HeldKey;
use crate::primary::PrimaryBook;
use crate::recording::{KeyedRow, RecordingBook};
use crate::referenced::ReferencedBook;
use crate::referring::{Referring, ReferringBook};
use crate::table_book::{TableBook, add, make_room};
use crate::tally::Tally;
use csvw_annotate::Row;
use csvw_columns::ForeignKeyPlan;
use csvw_text::{Fault, Seq};
use std::alloc::{AllocError, Global};

/// A key, or what is kept of the rows so far for keys.
#[derive(Drop)]
pub(crate) enum Book {
    /// For a primary key.
    Primary(PrimaryBook),
    /// For foreign keys to columns that are not a primary key.
    Referenced(ReferencedBook),
    /// For foreign keys in the same columns of a table.
    Referring(ReferringBook),
    /// A foreign key. It keeps no rows.
    Foreign(ForeignKey),
    /// For records of the rows of a table with their keys in some columns.
    Recording(RecordingBook),
}

fn copied(alloc: Global, numbers: &[u32]) -> Result<Seq<u32>, AllocError>
    ensures { IfOk result (λ s. s ≡ numbers.now) }
{
    Ok(Seq::of(Vec::from_slice(alloc, numbers)?))
}

/// Returns the book of a primary key without rows, in the columns of these numbers, from 1, or `AllocError` if there
/// is no memory.
pub(crate) fn primary_book(alloc: Global, table: u32, columns: &[u32]) -> Result<Book, AllocError>
    ensures purpose { IfOk result (λ b. purpose_of b ≡ Keeps (Unique table columns.now)) }
    ensures keeps { IfOk result (λ b. KeepsBook b no_rows) }
{
    let columns = copied(alloc, columns)?;
    Ok(Book::Primary(PrimaryBook::new(alloc, table, columns)))
}

/// Returns the book that counts the keys of a table, without rows, in the columns of these numbers, from 1, or
/// `AllocError` if there is no memory.
pub(crate) fn referenced_book(
    alloc: Global,
    table: u32,
    columns: &[u32],
) -> Result<Book, AllocError>
    ensures purpose { IfOk result (λ b. purpose_of b ≡ Counts table columns.now) }
    ensures keeps { IfOk result (λ b. KeepsBook b no_rows) }
{
    let columns = copied(alloc, columns)?;
    Ok(Book::Referenced(ReferencedBook::new(alloc, table, columns)))
}

/// Returns the book of the rows of a table that refer by the columns of these numbers, from 1. It has no rows. It is an
/// `AllocError` if there is no memory.
pub(crate) fn referring_book(alloc: Global, table: u32, columns: &[u32]) -> Result<Book, AllocError>
    ensures purpose { IfOk result (λ b. purpose_of b ≡ Lists table columns.now) }
    ensures keeps { IfOk result (λ b. KeepsBook b no_rows) }
{
    let columns = copied(alloc, columns)?;
    Ok(Book::Referring(ReferringBook::new(alloc, table, columns)))
}

/// Returns the book of the rows of a table with their keys in the columns of these numbers, from 1. It has no rows. It
/// is an `AllocError` if there is no memory.
pub(crate) fn recording_book(alloc: Global, table: u32, columns: &[u32]) -> Result<Book, AllocError>
    ensures purpose { IfOk result (λ b. purpose_of b ≡ Records table columns.now) }
    ensures keeps { IfOk result (λ b. KeepsBook b no_rows) }
{
    let columns = copied(alloc, columns)?;
    Ok(Book::Recording(RecordingBook::new(alloc, table, columns)))
}

/// Returns the book of a foreign key of a table, or `AllocError` if there is no memory.
pub(crate) fn reference_book(
    alloc: Global,
    table: u32,
    key: &ForeignKeyPlan,
) -> Result<Book, AllocError>
    ensures purpose { IfOk result (λ b. purpose_of b ≡ Keeps (reference_rule table key.now)) }
    ensures keeps { IfOk result (λ b. KeepsBook b no_rows) }
{
    let columns = copied(alloc, key.columns.as_slice())?;
    let referenced = copied(alloc, key.referenced.as_slice())?;
    Ok(Book::Foreign(ForeignKey {
        table,
        columns,
        referenced_table: key.table,
        referenced,
    }))
}

/// Returns how often each key of a table in these columns occurs, by the first book that counts it.
pub(crate) fn tally_in<'a>(
    books: &'a [Book],
    table: u32,
    columns: &[u32],
) -> Option<&'a Tally<HeldKey>>
    ensures { MatchOption result (times_in table columns.now books.now ≡ None)
        (λ tally. times_in table columns.now books.now ≡ Some (tally_times derived.ghosts.cmp tally.now.ahead tally.now.counts)) }
{
    for book in books {
        if let Some(tally) = book.tally(table, columns) {
            return Some(tally);
        }
    }
    None
}

/// Returns the rows of a table that refer by these columns, by the first book that keeps them.
pub(crate) fn referring_in<'a>(
    books: &'a [Book],
    table: u32,
    columns: &[u32],
) -> Option<&'a [Referring]>
    ensures { MatchOption result (rows_in table columns.now books.now ≡ None) (λ rows. rows_in table columns.now books.now ≡ Some rows.now) }
{
    for book in books {
        if let Some(rows) = book.referring(table, columns) {
            return Some(rows);
        }
    }
    None
}

/// Returns the rows of a table with their keys in these columns, by the first book that records them.
pub(crate) fn recorded_in<'a>(
    books: &'a [Book],
    table: u32,
    columns: &[u32],
) -> Option<&'a [KeyedRow]>
    ensures { MatchOption result (recorded_in table columns.now books.now ≡ None)
        (λ rows. recorded_in table columns.now books.now ≡ Some rows.now) }
{
    for book in books {
        if let Some(rows) = book.recorded(table, columns) {
            return Some(rows);
        }
    }
    None
}

impl Book {
    /// Makes room for a row of a table, or returns `AllocError` if there is no memory. It changes nothing that is
    /// reported.
    pub(crate) fn make_room(
        &mut self,
        alloc: Global,
        table: u32,
        row: &Row,
    ) -> Result<(), AllocError>
        ensures purpose { purpose_of self.new ≡ purpose_of self.old }
        ensures keeps { (tables : ℕ → List Row) → KeepsBook self.old tables → KeepsBook self.new tables }
        ensures roomy { OnOk result (IsRoomy self.new table row.now) }
    {
        match self {
            Book::Primary(book) => make_room(book, alloc, table, row),
            Book::Referenced(book) => make_room(book, alloc, table, row),
            Book::Referring(book) => make_room(book, alloc, table, row),
            Book::Recording(book) => make_room(book, alloc, table, row),
            Book::Foreign(_) => Ok(()),
        }
    }

    /// Adds the row that the book has room for.
    pub(crate) fn add(&mut self, table: u32, row: &Row)
        ensures purpose { purpose_of self.new ≡ purpose_of self.old }
        ensures keeps { IsRoomy self.old table row.now → (tables : ℕ → List Row) → KeepsBook self.old tables
            → KeepsBook self.new (with_row tables table row.now) }
    {
        match self {
            Book::Primary(book) => add(book, table, row),
            Book::Referenced(book) => add(book, table, row),
            Book::Referring(book) => add(book, table, row),
            Book::Recording(book) => add(book, table, row),
            Book::Foreign(_) => {}
        }
    }

    /// Drops all rows. It takes no memory.
    pub(crate) fn forget(&mut self, alloc: Global)
        ensures purpose { purpose_of self.new ≡ purpose_of self.old }
        ensures keeps { KeepsBook self.new no_rows }
    {
        match self {
            Book::Primary(book) => book.forget(alloc),
            Book::Referenced(book) => book.forget(alloc),
            Book::Referring(book) => book.forget(alloc),
            Book::Recording(book) => book.forget(alloc),
            Book::Foreign(_) => {}
        }
    }

    /// Returns how often each key of a table in these columns occurs, if this book counts it.
    fn tally(&self, table: u32, columns: &[u32]) -> Option<&Tally<HeldKey>>
        ensures { MatchOption result (counts_in table columns.now (purpose_of self.now) ≡ false)
            (λ tally. (counts_in table columns.now (purpose_of self.now) ≡ true)
            × (tally_times derived.ghosts.cmp tally.now.ahead tally.now.counts ≡ book_times self.now)) }
    {
        match self {
            Book::Primary(book) => {
                if book.table == table && book.columns.as_slice() == columns {
                    Some(&book.tally)
                } else {
                    None
                }
            }
            Book::Referenced(book) => {
                if book.table == table && book.columns.as_slice() == columns {
                    Some(&book.tally)
                } else {
                    None
                }
            }
            Book::Referring(_) | Book::Foreign(_) | Book::Recording(_) => None,
        }
    }

    /// Returns the rows of a table that refer by these columns, if this book keeps them.
    fn referring(&self, table: u32, columns: &[u32]) -> Option<&[Referring]>
        ensures { MatchOption result (lists_in table columns.now (purpose_of self.now) ≡ false)
            (λ rows. (lists_in table columns.now (purpose_of self.now) ≡ true) × (rows.now ≡ book_rows self.now)) }
    {
        match self {
            Book::Referring(book) => book.rows_in(table, columns),
            Book::Primary(_) | Book::Referenced(_) | Book::Foreign(_) => None,
            Book::Recording(_) => None,
        }
    }

    /// Returns the rows of a table with their keys in these columns, if this book records them.
    fn recorded(&self, table: u32, columns: &[u32]) -> Option<&[KeyedRow]>
        ensures { MatchOption result (records_in table columns.now (purpose_of self.now) ≡ false)
            (λ rows. (records_in table columns.now (purpose_of self.now) ≡ true) × (rows.now ≡ book_records self.now)) }
    {
        match self {
            Book::Recording(book) => book.rows_in(table, columns),
            Book::Primary(_) | Book::Referenced(_) | Book::Foreign(_) => None,
            Book::Referring(_) => None,
        }
    }

    /// Adds the faults of this book to these faults. It uses the rows and the counts of all books.
    pub(crate) fn tell(
        &self,
        alloc: Global,
        books: &[Book],
        faults: &mut Vec<Fault>,
    ) -> Result<(), AllocError>
        ensures { OnOk result (faults.new.items ≡ faults.old.items ++ told books.now self.now) }
    {
        match self {
            Book::Primary(book) => faults.extend_from_slice(book.faults()),
            Book::Referenced(_) | Book::Referring(_) | Book::Recording(_) => Ok(()),
            Book::Foreign(key) => tell_reference(alloc, books, key, faults),
        }
    }

    /// Returns the faults of this book if it is that of the primary key of this table.
    pub(crate) fn duplicates(&self, table: u32) -> Option<&[Fault]>
        ensures { MatchOption result (is_primary_of table self.now ≡ false)
            (λ faults. (is_primary_of table self.now ≡ true) × (faults.now ≡ duplicates_in self.now)) }
    {
        match self {
            Book::Primary(book) => {
                if book.table == table {
                    Some(book.faults())
                } else {
                    None
                }
            }
            Book::Referenced(_) | Book::Referring(_) | Book::Foreign(_) => None,
            Book::Recording(_) => None,
        }
    }
}

/// Adds the faults of the rows that refer by a foreign key to these faults.
fn tell_reference(
    alloc: Global,
    books: &[Book],
    key: &ForeignKey,
    faults: &mut Vec<Fault>,
) -> Result<(), AllocError>
    ensures { OnOk result (faults.new.items ≡ faults.old.items ++ told_reference books.now key.now) }
{
    let Some(rows) = referring_in(books, key.table, key.columns.as_slice()) else {
        return Ok(());
    };
    match tally_in(books, key.referenced_table, key.referenced.as_slice()) {
        Some(tally) => faults.append(&mut key.faults(alloc, rows, tally)?),
        None => Ok(()),
    }
}
