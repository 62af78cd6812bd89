//! The rows of a table, each with its key in some columns.
ghost use Rattle.std.specs.Prelude.{◌≡◌, ◌<◌, ◌++◌, ◌∷◌, ◌&&◌, [], true, false, MatchOption, bytes_eq, nat_eq};
ghost use Rattle.std.specs.Vec.{vec_len, vec_capacity};
ghost use Rattle.csvw_keys.specs.RecordingBooks.{IsRecordingStaged, KeepsRecording, keyed};

use crate::key::{Key, key_of};
use crate::table_book::TableBook;
use csvw_annotate::Row;
use csvw_text::Seq;
use std::alloc::{AllocError, Global};

/// A row by its key.
#[derive(Drop)]
pub struct KeyedRow {
    /// Its key cells.
    pub key: Key,
    /// Its number in its source, from 1.
    pub source: u64,
}

/// The rows so far, with their keys.
#[derive(Drop)]
pub struct RecordingBook {
    /// The number of its table, from 1.
    pub(crate) table: u32,
    /// The numbers of the key's columns, from 1.
    pub(crate) columns: Seq<u32>,
    /// The rows, in order.
    pub(crate) rows: Vec<KeyedRow>,
    /// The key of the row that is added next.
    next: Option<Key>,
}

impl RecordingBook {
    /// Makes the book without rows. It takes no memory.
    pub fn new(alloc: Global, table: u32, columns: Seq<u32>) -> RecordingBook
        ensures table { result.table ≡ table }
        ensures columns { result.columns ≡ columns }
        ensures keeps { KeepsRecording result [] }
    {
        RecordingBook {
            table,
            columns,
            rows: Vec::new(alloc),
            next: None,
        }
    }

    /// Returns the rows, in order, if they are those of this table with their keys in these columns.
    pub fn rows_in(&self, table: u32, columns: &[u32]) -> Option<&[KeyedRow]>
        ensures { MatchOption result ((nat_eq self.now.table table && bytes_eq self.now.columns columns.now) ≡ false)
            (λ rows. ((nat_eq self.now.table table && bytes_eq self.now.columns columns.now) ≡ true) × (rows.now ≡ self.now.rows.items)) }
    {
        if self.table == table && self.columns.as_slice() == columns {
            Some(self.rows.as_slice())
        } else {
            None
        }
    }
}

impl TableBook for RecordingBook {
    ghost table_of = { λ book. book.table };

    ghost columns_of = { λ book. book.columns };

    ghost keeps = { λ book rows. KeepsRecording book rows };

    ghost is_staged = { λ book row. IsRecordingStaged book row };

    fn table(&self) -> u32 {
        self.table
    }

    fn make_own_room(&mut self, alloc: Global, row: &Row) -> Result<(), AllocError> {
        let key = key_of(alloc, self.columns.as_slice(), row)?;
        self.rows.reserve(1)?;
        self.next = Some(key);
        Ok(())
    }

    fn add_own(&mut self, row: &Row) {
        let Some(key) = self.next.take() else {
            return;
        };
        note_row(&mut self.rows, key, row.source);
    }

    fn forget(&mut self, _alloc: Global) {
        self.rows.clear();
    }
}

/// Adds a row. There must be room for it.
fn note_row(rows: &mut Vec<KeyedRow>, key: Key, source: u64)
    ensures { vec_len rows.old < vec_capacity rows.old → rows.new.items ≡ rows.old.items ++ keyed key source ∷ [] }
{
    let _ = rows.push(KeyedRow { key, source });
}
