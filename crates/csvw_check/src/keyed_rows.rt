//! The rows of a file that is read again, each with its key.
ghost use Rattle.std.specs.Prelude.{◌≡◌, false};
ghost use Rattle.csvw_columns.specs.Ready.{IsReady};
ghost use Rattle.csvw_engine_core.specs.Tables.{is_ended};

use csvw_columns::{Plan, TablePlan};
use csvw_engine_core::{Table, end_table, feed_table};
use csvw_keys::{KeyBook, KeyedRow};
use csvw_text::both;
use csvw_triples_core::{Mode, VecSink};
use std::alloc::{AllocError, Global};
use std::io::Read;

/// How many bytes one read takes at most.
const PIECE: usize = 65_536;

/// The rows of a table's file, each with its key, and the room for a piece of the file.
#[derive(Drop)]
pub(crate) struct KeyedRows {
    /// The rows so far.
    table: Table,
    /// The keys of the rows of the last piece.
    keys: KeyBook,
    /// A sink that gets no triple, since none is made.
    sink: VecSink,
    /// The room for a piece.
    room: Vec<u8>,
}

impl KeyedRows {
    /// Begins the file of a table of a plan.
    pub(crate) fn new(
        alloc: Global,
        plan: &Plan,
        table: &TablePlan,
    ) -> Result<KeyedRows, AllocError>
        requires { IsReady table.now }
    {
        let room = vec![in alloc; 0u8; PIECE];
        let (keys, room) = both(KeyBook::recording(alloc, plan), room)?;
        let (table, rest) = both(Table::new(alloc, table, Mode::Validate), Ok((keys, room)))?;
        let (keys, room) = rest;
        Ok(KeyedRows {
            table,
            keys,
            sink: VecSink::new(alloc),
            room,
        })
    }

    /// Reads a piece of the file. Returns whether the file goes on. A failed read ends the file.
    pub(crate) fn read<R: Read>(&mut self, table: &TablePlan, reader: &mut R) -> bool
        requires { IsReady table.now }
    {
        if self.table.is_ended() {
            return false;
        }
        self.keys.forget_rows();
        match reader.read(self.room.as_mut_slice()) {
            Ok(n) if n > 0 => self.feed(table, n),
            _ => {
                self.end(table);
                false
            }
        }
    }

    /// Takes the first bytes of the room as the next piece. Returns whether the file goes on.
    fn feed(&mut self, table: &TablePlan, n: usize) -> bool
        requires ready { IsReady table.now }
        requires not_ended { is_ended self.old.table ≡ false }
    {
        let piece = self.room.as_slice().get(..n).unwrap_or(&[]);
        let fed = feed_table(
            table,
            &mut self.table,
            piece,
            &mut self.sink,
            &mut self.keys,
        );
        fed.is_ok()
    }

    /// Ends the file.
    fn end(&mut self, table: &TablePlan)
        requires ready { IsReady table.now }
        requires not_ended { is_ended self.old.table ≡ false }
    {
        let _ = end_table(table, &mut self.table, &mut self.sink, &mut self.keys);
    }

    /// Returns the rows of the last piece, each with its primary key.
    pub(crate) fn rows(&self, table: &TablePlan) -> &[KeyedRow] {
        self.keys
            .recorded(table.number, table.primary_key.as_slice())
            .unwrap_or(&[])
    }
}
