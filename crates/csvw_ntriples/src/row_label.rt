//! The label of a row's blank node.
//!
//! The part of the label that all rows of a table have in common stays from row to row.
ghost use Rattle.std.specs.Prelude.{◌≡◌, ◌++◌, true, false, length, OnOk};
ghost use Rattle.csvw_ntriples.specs.Front.{rows_front};
ghost use Rattle.csvw_ntriples.specs.Written.{blank_text};
ghost use Rattle.csvw_triples_core.specs.declared.origin.Origin.TheVariants as origin;

use crate::scratch::Scratch;
use crate::write::{push_number, push_part};
use std::alloc::{AllocError, Global};

/// Keeps the blank node of the row that was named last. Most blank nodes belong to the row of the one before.
#[derive(Drop)]
pub(crate) struct RowLabel {
    /// Whether a row was named.
    is_known: bool,
    /// Its table, from 1.
    table: u32,
    /// Its number among the data rows, from 1.
    row: u64,
    /// Its blank node.
    text: Scratch,
    /// How many bytes of it come before the number of the row.
    front: usize,
    ghost is_label: { is_known ≡ true → text ≡ blank_text (origin.Row table row) },
    ghost begins: { is_known ≡ true → front ≡ length (rows_front table) },
}

impl RowLabel {
    /// Makes a label of no row. It takes no memory.
    pub(crate) fn new(alloc: Global) -> RowLabel {
        RowLabel {
            is_known: false,
            table: 0,
            row: 0,
            text: Scratch::new(alloc),
            front: 0,
        }
    }

    /// Becomes the part that the blank nodes of all rows of a table begin with. Most rows are of the table of the
    /// row before.
    fn begin(&mut self, table: u32) -> Result<(), AllocError>
        ensures known { self.new.is_known ≡ false }
        ensures text { OnOk result (self.new.text ≡ rows_front table) }
        ensures front { OnOk result (self.new.front ≡ length (rows_front table)) }
    {
        if self.is_known && self.table == table {
            self.is_known = false;
            self.text.truncate(self.front);
            return Ok(());
        }
        self.is_known = false;
        self.text.truncate(0);
        self.text.push_fixed(b"_:")?;
        push_part(&mut self.text, b't', table)?;
        self.text.push_fixed(b"r")?;
        self.front = self.text.len();
        Ok(())
    }

    /// Becomes the blank node of a row.
    fn name(&mut self, table: u32, row: u64) -> Result<(), AllocError>
        ensures { OnOk result (self.new.text ≡ blank_text (origin.Row table row)) }
    {
        if self.is_known && self.table == table && self.row == row {
            return Ok(());
        }
        self.begin(table)?;
        push_number(&mut self.text, row)?;
        self.table = table;
        self.row = row;
        self.is_known = true;
        Ok(())
    }

    /// Adds the blank node of a row.
    pub(crate) fn push(&mut self, out: &mut Scratch, table: u32, row: u64) -> Result<(), AllocError>
        ensures { OnOk result (out.new ≡ out.old ++ blank_text (origin.Row table row)) }
    {
        self.name(table, row)?;
        out.push(self.text.as_slice())
    }
}
