//! What is kept of the rows of one table.
ghost use Rattle.std.specs.Prelude.{◌≡◌, ◌++◌, ◌∷◌, [], ℕ, List, OnOk};
ghost use Rattle.csvw_annotate.specs.declared.row.Row.{Row as TheRow};
ghost use Rattle.csvw_keys.specs.Tables.{with_row};

use csvw_annotate::Row;
use std::alloc::{AllocError, Global};

/// A book of the rows of one table. A row is added in two steps. Only the first step needs memory.
pub(crate) trait TableBook {
    /// The number of its table.
    ghost table_of: { Self → ℕ };

    /// The numbers of its key's columns.
    ghost columns_of: { Self → List ℕ };

    /// The book keeps what it needs of these rows.
    ghost keeps: { Self → List TheRow → Type 0 };

    /// There is room in the book for a row.
    ghost is_staged: { Self → TheRow → Type 0 };

    /// The number of its table, from 1.
    fn table(&self) -> u32
        ensures { result ≡ table_of self.now };

    /// Makes room for a row of its table, or returns `AllocError` if there is no memory.
    fn make_own_room(&mut self, alloc: Global, row: &Row) -> Result<(), AllocError>
        ensures table { table_of self.new ≡ table_of self.old }
        ensures columns { columns_of self.new ≡ columns_of self.old }
        ensures keeps { (rows : List TheRow) → keeps self.old rows → keeps self.new rows }
        ensures staged { OnOk result (is_staged self.new row.now) };

    /// Adds the row of its table that the book has room for.
    fn add_own(&mut self, row: &Row)
        ensures table { table_of self.new ≡ table_of self.old }
        ensures columns { columns_of self.new ≡ columns_of self.old }
        ensures keeps { is_staged self.old row.now → (rows : List TheRow) → keeps self.old rows → keeps self.new (rows ++ row.now ∷ []) };

    /// Drops all rows. It takes no memory.
    fn forget(&mut self, alloc: Global)
        ensures table { table_of self.new ≡ table_of self.old }
        ensures columns { columns_of self.new ≡ columns_of self.old }
        ensures keeps { keeps self.new [] };
}

/// Makes room for a row of a table. It does nothing if the table is not the book's own. It returns `AllocError` if
/// there is no memory.
pub(crate) fn make_room<B: TableBook>(
    book: &mut B,
    alloc: Global,
    table: u32,
    row: &Row,
) -> Result<(), AllocError>
    ensures table { B.table_of book.new ≡ B.table_of book.old }
    ensures columns { B.columns_of book.new ≡ B.columns_of book.old }
    ensures keeps { (rows : List TheRow) → B.keeps book.old rows → B.keeps book.new rows }
    ensures staged { OnOk result (table ≡ B.table_of book.old → B.is_staged book.new row.now) }
{
    if table == book.table() {
        book.make_own_room(alloc, row)
    } else {
        Ok(())
    }
}

/// Adds the row of a table that the book has room for. It does nothing if the table is not the book's own.
pub(crate) fn add<B: TableBook>(book: &mut B, table: u32, row: &Row)
    ensures table { B.table_of book.new ≡ B.table_of book.old }
    ensures columns { B.columns_of book.new ≡ B.columns_of book.old }
    ensures keeps { (table ≡ B.table_of book.old → B.is_staged book.old row.now) → (tables : ℕ → List TheRow)
        → B.keeps book.old (tables (B.table_of book.old))
        → B.keeps book.new (with_row tables table row.now (B.table_of book.old)) }
{
    if table == book.table() {
        book.add_own(row);
    }
}
