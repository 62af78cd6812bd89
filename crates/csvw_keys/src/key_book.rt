//! The keys of a group.
ghost use Rattle.std.specs.Prelude.{◌≡◌, ◌++◌, [], ℕ, true, false, List, All, IfOk, MatchOption, MatchResult, OnOk, flat_map, map};
ghost use Rattle.std.specs.List.{list_any};
ghost use Rattle.csvw_annotate.specs.declared.row.Row.{Row};
ghost use Rattle.csvw_keys.specs.Books.{KeepsBook, KeepsKeys, IsMore, IsRoomy, counts_in, first_told, is_served, lists_in, no_rows};
ghost use Rattle.csvw_keys.specs.Books.{purpose_of, purposes_of, rules_in, told};
ghost use Rattle.csvw_keys.specs.KeyRules.{KeyRule, AreKeyFaults, duplicates_of, primary_rules, reference_rule, rules_of, table_rules};
ghost use Rattle.csvw_keys.specs.KeyRules.{is_recorded, recorded_rules};
ghost use Rattle.csvw_keys.specs.RecordingBooks.{keyed_rows};
ghost use Rattle.csvw_keys.specs.Tables.{with_row};

use crate::book::{
    Book, primary_book, recorded_in, reference_book, referenced_book, referring_book, referring_in,
    tally_in,
};
use crate::recording::KeyedRow;
use crate::recording_books::recording_books;
use csvw_annotate::Row;
use csvw_columns::{ForeignKeyPlan, Plan, TablePlan};
use csvw_report::sorted;
use csvw_text::{Fault, Seq};
use std::alloc::{AllocError, Global};

/// The keys of a group: what is kept of the rows so far of its tables, for its primary and foreign keys (Metadata
/// Vocabulary for Tabular Data, sections 5.5.1 and 5.5.2). It keeps the cells of a row's keys and its place and
/// nothing else.
#[derive(Drop)]
pub struct KeyBook {
    /// The allocator for what is kept.
    alloc: Global,
    /// A book of each key, in the order of the tables. For each table these are the primary key, then its foreign
    /// keys. After these is one book for each table and columns that refer, and one for each table and columns that
    /// are referenced and are not a primary key. In a book that records there is one for each table and columns.
    books: Vec<Book>,
}

fn push_primary(
    alloc: Global,
    table: u32,
    columns: &[u32],
    books: &mut Vec<Book>,
) -> Result<(), AllocError>
    ensures rules { OnOk result (rules_in books.new.items ≡ rules_in books.old.items ++ primary_rules table columns.now) }
    ensures keeps { OnOk result (All (λ b. KeepsBook b no_rows) books.old.items → All (λ b. KeepsBook b no_rows) books.new.items) }
{
    if columns.is_empty() {
        return Ok(());
    }
    let book = primary_book(alloc, table, columns)?;
    books.push(book)?;
    Ok(())
}

fn push_references(
    alloc: Global,
    table: u32,
    keys: &[ForeignKeyPlan],
    books: &mut Vec<Book>,
) -> Result<(), AllocError>
    ensures rules { OnOk result (rules_in books.new.items ≡ rules_in books.old.items ++ map (reference_rule table) keys.now) }
    ensures keeps { OnOk result (All (λ b. KeepsBook b no_rows) books.old.items → All (λ b. KeepsBook b no_rows) books.new.items) }
{
    for key in keys {
        let book = reference_book(alloc, table, key)?;
        books.push(book)?;
    }
    Ok(())
}

fn push_table(alloc: Global, plan: &TablePlan, books: &mut Vec<Book>) -> Result<(), AllocError>
    ensures rules { OnOk result (rules_in books.new.items ≡ rules_in books.old.items ++ table_rules plan.now) }
    ensures keeps { OnOk result (All (λ b. KeepsBook b no_rows) books.old.items → All (λ b. KeepsBook b no_rows) books.new.items) }
{
    push_primary(alloc, plan.number, plan.primary_key.as_slice(), books)?;
    push_references(alloc, plan.number, plan.foreign_keys.as_slice(), books)
}

fn books_of(alloc: Global, plans: &[TablePlan]) -> Result<Vec<Book>, AllocError>
    ensures rules { IfOk result (λ v. rules_in v.items ≡ flat_map table_rules plans.now) }
    ensures keeps { IfOk result (λ v. All (λ b. KeepsBook b no_rows) v.items) }
{
    let mut books = Vec::new(alloc);
    for plan in plans {
        push_table(alloc, plan, &mut books)?;
    }
    Ok(books)
}

/// Ensures that a book keeps the rows of a table that refer by these columns.
fn list_rows(
    alloc: Global,
    table: u32,
    columns: &[u32],
    books: &mut Vec<Book>,
) -> Result<(), AllocError>
    ensures more { OnOk result (IsMore books.old.items books.new.items) }
    ensures listed { OnOk result (list_any (lists_in table columns.now) (purposes_of books.new.items) ≡ true) }
{
    if referring_in(books.as_slice(), table, columns).is_some() {
        return Ok(());
    }
    let book = referring_book(alloc, table, columns)?;
    books.push(book)?;
    Ok(())
}

/// Ensures that a book counts the keys of a table in these columns.
fn count_keys(
    alloc: Global,
    table: u32,
    columns: &[u32],
    books: &mut Vec<Book>,
) -> Result<(), AllocError>
    ensures more { OnOk result (IsMore books.old.items books.new.items) }
    ensures counted { OnOk result (list_any (counts_in table columns.now) (purposes_of books.new.items) ≡ true) }
{
    if tally_in(books.as_slice(), table, columns).is_some() {
        return Ok(());
    }
    let book = referenced_book(alloc, table, columns)?;
    books.push(book)?;
    Ok(())
}

/// Ensures that books keep the rows that refer by a foreign key of a table, and count what it refers to.
fn serve(
    alloc: Global,
    table: u32,
    key: &ForeignKeyPlan,
    books: &mut Vec<Book>,
) -> Result<(), AllocError>
    ensures more { OnOk result (IsMore books.old.items books.new.items) }
    ensures served { OnOk result (is_served (purposes_of books.new.items) (reference_rule table key.now) ≡ true) }
{
    list_rows(alloc, table, key.columns.as_slice(), books)?;
    count_keys(alloc, key.table, key.referenced.as_slice(), books)?;
    Ok(())
}

/// Ensures the same for each of the foreign keys of a table.
fn serve_keys(
    alloc: Global,
    table: u32,
    keys: &[ForeignKeyPlan],
    books: &mut Vec<Book>,
) -> Result<(), AllocError>
    ensures more { OnOk result (IsMore books.old.items books.new.items) }
    ensures served { OnOk result (All (λ rule. is_served (purposes_of books.new.items) rule ≡ true) (map (reference_rule table) keys.now)) }
{
    for key in keys {
        serve(alloc, table, key, books)?;
    }
    Ok(())
}

/// Ensures the same for each of the foreign keys of these tables.
fn serve_tables(alloc: Global, plans: &[TablePlan], books: &mut Vec<Book>) -> Result<(), AllocError>
    ensures more { OnOk result (IsMore books.old.items books.new.items) }
    ensures served { OnOk result (All (λ rule. is_served (purposes_of books.new.items) rule ≡ true) (flat_map table_rules plans.now)) }
{
    for plan in plans {
        serve_keys(alloc, plan.number, plan.foreign_keys.as_slice(), books)?;
    }
    Ok(())
}

/// Makes room for a row of a table in each book, or returns `AllocError` if there is no memory.
fn make_room(alloc: Global, books: &mut [Book], table: u32, row: &Row) -> Result<(), AllocError>
    ensures purposes { purposes_of books.new ≡ purposes_of books.old }
    ensures keeps { (tables : ℕ → List Row) → All (λ b. KeepsBook b tables) books.old → All (λ b. KeepsBook b tables) books.new }
    ensures roomy { OnOk result (All (λ b. IsRoomy b table row.now) books.new) }
{
    for i in 0..books.len() {
        books[i].make_room(alloc, table, row)?;
    }
    Ok(())
}

/// Adds the row that there is room for to each book.
fn add_to_each(books: &mut [Book], table: u32, row: &Row)
    ensures purposes { purposes_of books.new ≡ purposes_of books.old }
    ensures keeps { All (λ b. IsRoomy b table row.now) books.old → (tables : ℕ → List Row)
        → All (λ b. KeepsBook b tables) books.old → All (λ b. KeepsBook b (with_row tables table row.now)) books.new }
{
    for i in 0..books.len() {
        books[i].add(table, row);
    }
}

/// Drops all rows of each book.
fn forget_each(alloc: Global, books: &mut [Book])
    ensures purposes { purposes_of books.new ≡ purposes_of books.old }
    ensures keeps { All (λ b. KeepsBook b no_rows) books.new }
{
    for i in 0..books.len() {
        books[i].forget(alloc);
    }
}

/// Returns the faults of the books, one book after the other.
fn all_told(alloc: Global, books: &[Book]) -> Result<Vec<Fault>, AllocError>
    ensures { IfOk result (λ faults. faults.items ≡ flat_map (told books.now) books.now) }
{
    let mut faults = Vec::new(alloc);
    for book in books {
        book.tell(alloc, books, &mut faults)?;
    }
    Ok(faults)
}

/// Returns the faults of the first book of the primary key of a table, or nothing if there is none.
fn first_told(books: &[Book], table: u32) -> &[Fault]
    ensures { result.now ≡ first_told table books.now }
{
    for book in books {
        if let Some(faults) = book.duplicates(table) {
            return faults;
        }
    }
    &[]
}

impl KeyBook {
    /// Makes the book of the keys of a plan, without rows, or returns `AllocError` if there is no memory.
    pub fn new(alloc: Global, plan: &Plan) -> Result<KeyBook, AllocError>
        ensures { IfOk result (λ book. KeepsKeys book (rules_of plan.now) no_rows) }
    {
        let mut books = books_of(alloc, plan.tables())?;
        serve_tables(alloc, plan.tables(), &mut books)?;
        Ok(KeyBook { alloc, books })
    }

    /// Makes a book that records the rows of the tables of a plan's keys, each with its key, and finds no fault. For each
    /// table and columns that a key needs it keeps the rows once. It has no rows. It is an `AllocError` if there is no
    /// memory.
    pub fn recording(alloc: Global, plan: &Plan) -> Result<KeyBook, AllocError>
        ensures no_keys { IfOk result (λ book. KeepsKeys book [] no_rows) }
        ensures records { IfOk result (λ book. KeepsKeys book (recorded_rules (rules_of plan.now)) no_rows) }
    {
        let books = recording_books(alloc, plan.tables())?;
        Ok(KeyBook { alloc, books })
    }

    /// Adds a row at the end of the table of this number, from 1. It returns `AllocError` if there is no memory. Then
    /// the book keeps the rows that it kept before.
    pub fn add(&mut self, table: u32, row: &Row) -> Result<(), AllocError>
        ensures { (rules : List KeyRule) (tables : ℕ → List Row) → KeepsKeys self.old rules tables
            → MatchResult result (λ _. KeepsKeys self.new rules (with_row tables table row.now)) (λ _. KeepsKeys self.new rules tables) }
    {
        make_room(self.alloc, self.books.as_mut_slice(), table, row)?;
        add_to_each(self.books.as_mut_slice(), table, row);
        Ok(())
    }

    /// Returns the rows so far of the table of this number, from 1, each with its key in these columns. If the book does
    /// not record them, it returns `None`. It takes no memory.
    pub fn recorded(&self, table: u32, columns: &[u32]) -> Option<&[KeyedRow]>
        ensures { (rules : List KeyRule) (tables : ℕ → List Row) → KeepsKeys self.now rules tables
            → MatchOption result (is_recorded table columns.now rules ≡ false) (λ rows. rows.now ≡ keyed_rows columns.now (tables table)) }
    {
        recorded_in(self.books.as_slice(), table, columns)
    }

    /// Drops the rows so far. The book keeps the same keys and records the same columns. It takes no memory.
    pub fn forget_rows(&mut self)
        ensures purposes { purposes_of self.new.books.items ≡ purposes_of self.old.books.items }
        ensures keeps { (rules : List KeyRule) (tables : ℕ → List Row) → KeepsKeys self.old rules tables → KeepsKeys self.new rules no_rows }
    {
        forget_each(self.alloc, self.books.as_mut_slice());
    }

    /// Returns the faults of the rows so far of the table of this number, from 1, by its primary key. It takes no
    /// memory.
    pub fn duplicates(&self, table: u32) -> &[Fault]
        ensures { (rules : List KeyRule) (tables : ℕ → List Row) → KeepsKeys self.now rules tables
            → result.now ≡ duplicates_of table tables rules }
    {
        first_told(self.books.as_slice(), table)
    }

    /// Returns the faults of the rows of all tables by their keys, in the order of reports, or `AllocError` if there
    /// is no memory.
    pub fn finish(&self) -> Result<Vec<Fault>, AllocError>
        ensures { IfOk result (λ faults. (rules : List KeyRule) (tables : ℕ → List Row) → KeepsKeys self.now rules tables
            → AreKeyFaults rules tables faults.items) }
    {
        let faults = all_told(self.alloc, self.books.as_slice())?;
        Ok(sorted(Seq::of(faults)).into_vec())
    }
}
