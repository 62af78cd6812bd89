//! The rows of a table that have the primary key of an earlier row.
ghost use Rattle.std.specs.Prelude.{◌≡◌, ◌<◌, ◌++◌, [], List};
ghost use Rattle.std.specs.Vec.{vec_len, vec_capacity};
ghost use Rattle.csvw_annotate.specs.declared.row.Row.{Row};
ghost use Rattle.csvw_keys.specs.Duplicates.{duplicate_faults};
ghost use Rattle.csvw_keys.specs.Places.{fault_of};
ghost use Rattle.csvw_keys.specs.PrimaryBooks.{IsStaged, KeepsPrimary, noted};

use crate::held::{HeldKey, held_of};
use crate::places::fault_of;
use crate::table_book::TableBook;
use crate::tally::Tally;
use crate::times::Times;
use csvw_annotate::Row;
use csvw_text::{Code, Fault, Seq};
use std::alloc::{AllocError, Global};

/// A primary key, its keys so far and their faults.
#[derive(Drop)]
pub struct PrimaryBook {
    /// The number of its table, from 1.
    pub(crate) table: u32,
    /// The numbers of its columns, from 1.
    pub(crate) columns: Seq<u32>,
    pub(crate) tally: Tally<HeldKey>,
    found: Vec<Fault>,
}

impl PrimaryBook {
    /// Makes the book without rows. It takes no memory.
    pub fn new(alloc: Global, table: u32, columns: Seq<u32>) -> PrimaryBook
        ensures table { result.table ≡ table }
        ensures columns { result.columns ≡ columns }
        ensures keeps { KeepsPrimary result [] }
    {
        PrimaryBook {
            table,
            columns,
            tally: Tally::new(alloc),
            found: Vec::new(alloc),
        }
    }

    /// Returns the faults of the rows, in order.
    pub fn faults(&self) -> &[Fault]
        ensures found { result.now ≡ self.now.found.items }
        ensures keeps { (rows : List Row) → KeepsPrimary self.now rows
            → result.now ≡ duplicate_faults self.now.table self.now.columns rows }
    {
        self.found.as_slice()
    }
}

impl TableBook for PrimaryBook {
    ghost table_of = { λ book. book.table };

    ghost columns_of = { λ book. book.columns };

    ghost keeps = { λ book rows. KeepsPrimary book rows };

    ghost is_staged = { λ book row. IsStaged book row };

    fn table(&self) -> u32 {
        self.table
    }

    fn make_own_room(&mut self, alloc: Global, row: &Row) -> Result<(), AllocError> {
        let key = held_of(alloc, self.columns.as_slice(), row)?;
        self.tally.make_room(alloc, key)?;
        self.found.reserve(1)?;
        Ok(())
    }

    fn add_own(&mut self, row: &Row) {
        let fault = fault_of(Code::DuplicateKey, self.table, self.columns.as_slice(), row);
        note(&mut self.found, self.tally.count(), fault);
    }

    fn forget(&mut self, alloc: Global) {
        self.tally = Tally::new(alloc);
        self.found.clear();
    }
}

/// Adds the fault of a row if its key was there before. There must be room for it.
fn note(found: &mut Vec<Fault>, times: Times, fault: Fault)
    ensures { vec_len found.old < vec_capacity found.old → found.new.items ≡ found.old.items ++ noted times fault }
{
    match times {
        Times::Never => {}
        Times::Once | Times::Often => {
            let _ = found.push(fault);
        }
    }
}
