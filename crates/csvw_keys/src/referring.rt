//! The rows of a table that refer to others by foreign keys in the same columns.
ghost use Rattle.std.specs.Prelude.{◌≡◌, ◌<◌, ◌++◌, ◌&&◌, [], true, false, MatchOption, bytes_eq, nat_eq};
ghost use Rattle.std.specs.Vec.{vec_len, vec_capacity};
ghost use Rattle.csvw_keys.specs.ReferenceBooks.{IsReferringStaged, KeepsReferring, kept};

use crate::held::{HeldKey, held_of, is_null_held};
use crate::table_book::TableBook;
use csvw_annotate::Row;
use csvw_text::Seq;
use std::alloc::{AllocError, Global};

/// A row that refers to others.
#[derive(Drop)]
pub struct Referring {
    /// Its key.
    pub(crate) key: HeldKey,
    /// Its number in its source, from 1.
    pub(crate) source: u64,
}

/// The rows so far whose key cells aren't all null.
#[derive(Drop)]
pub struct ReferringBook {
    /// The number of its table, from 1.
    pub(crate) table: u32,
    /// The numbers of the key's columns, from 1.
    pub(crate) columns: Seq<u32>,
    /// The rows, in order.
    pub(crate) rows: Vec<Referring>,
    /// The key of the row that is added next.
    next: Option<HeldKey>,
}

impl ReferringBook {
    /// Makes the book without rows. It takes no memory.
    pub fn new(alloc: Global, table: u32, columns: Seq<u32>) -> ReferringBook
        ensures table { result.table ≡ table }
        ensures columns { result.columns ≡ columns }
        ensures keeps { KeepsReferring result [] }
    {
        ReferringBook {
            table,
            columns,
            rows: Vec::new(alloc),
            next: None,
        }
    }

    /// Returns the rows, in order, if they are those of this table that refer by these columns.
    pub fn rows_in(&self, table: u32, columns: &[u32]) -> Option<&[Referring]>
        ensures { MatchOption result ((nat_eq self.now.table table && bytes_eq self.now.columns columns.now) ≡ false)
            (λ rows. ((nat_eq self.now.table table && bytes_eq self.now.columns columns.now) ≡ true) × (rows.now ≡ self.now.rows.items)) }
    {
        if self.table == table && self.columns.as_slice() == columns {
            Some(self.rows.as_slice())
        } else {
            None
        }
    }
}

impl TableBook for ReferringBook {
    ghost table_of = { λ book. book.table };

    ghost columns_of = { λ book. book.columns };

    ghost keeps = { λ book rows. KeepsReferring book rows };

    ghost is_staged = { λ book row. IsReferringStaged book row };

    fn table(&self) -> u32 {
        self.table
    }

    fn make_own_room(&mut self, alloc: Global, row: &Row) -> Result<(), AllocError> {
        let key = held_of(alloc, self.columns.as_slice(), row)?;
        self.rows.reserve(1)?;
        self.next = Some(key);
        Ok(())
    }

    fn add_own(&mut self, row: &Row) {
        let Some(key) = self.next.take() else {
            return;
        };
        refer(&mut self.rows, key, row.source);
    }

    fn forget(&mut self, _alloc: Global) {
        self.rows.clear();
    }
}

/// Adds a row if its key refers to others. There must be room for it.
fn refer(rows: &mut Vec<Referring>, key: HeldKey, source: u64)
    ensures { vec_len rows.old < vec_capacity rows.old → rows.new.items ≡ rows.old.items ++ kept key source }
{
    if is_null_held(&key) {
        return;
    }
    let _ = rows.push(Referring { key, source });
}
