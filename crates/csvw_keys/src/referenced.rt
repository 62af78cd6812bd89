//! The rows of a table that a foreign key refers to.
ghost use Rattle.std.specs.Prelude.{◌≡◌, []};
ghost use Rattle.csvw_keys.specs.ReferenceBooks.{IsReferencedStaged, KeepsReferenced};

use crate::held::{HeldKey, held_of};
use crate::table_book::TableBook;
use crate::tally::Tally;
use csvw_annotate::Row;
use csvw_text::Seq;
use std::alloc::{AllocError, Global};

/// How often each key occurs among the rows so far.
#[derive(Drop)]
pub struct ReferencedBook {
    /// The number of its table, from 1.
    pub(crate) table: u32,
    /// The numbers of the referenced columns, from 1.
    pub(crate) columns: Seq<u32>,
    pub(crate) tally: Tally<HeldKey>,
}

impl ReferencedBook {
    /// Makes the book without rows. It takes no memory.
    pub fn new(alloc: Global, table: u32, columns: Seq<u32>) -> ReferencedBook
        ensures table { result.table ≡ table }
        ensures columns { result.columns ≡ columns }
        ensures keeps { KeepsReferenced result [] }
    {
        ReferencedBook {
            table,
            columns,
            tally: Tally::new(alloc),
        }
    }
}

impl TableBook for ReferencedBook {
    ghost table_of = { λ book. book.table };

    ghost columns_of = { λ book. book.columns };

    ghost keeps = { λ book rows. KeepsReferenced book rows };

    ghost is_staged = { λ book row. IsReferencedStaged book row };

    fn table(&self) -> u32 {
        self.table
    }

    fn make_own_room(&mut self, alloc: Global, row: &Row) -> Result<(), AllocError> {
        let key = held_of(alloc, self.columns.as_slice(), row)?;
        self.tally.make_room(alloc, key)
    }

    fn add_own(&mut self, _row: &Row) {
        let _ = self.tally.count();
    }

    fn forget(&mut self, alloc: Global) {
        self.tally = Tally::new(alloc);
    }
}
