//! A piece of a table that is read.
ghost use Rattle.std.specs.Prelude.{◌≡◌, IfOk, IfSome, MatchOption, OnOk, false, true, ◌++◌};
ghost use Rattle.csvw_columns.specs.Ready.{IsReady};
ghost use Rattle.csvw_engine_core.specs.Skipping.{SkipsTable, can_skip_table};
ghost use Rattle.csvw_engine_core.specs.Tables.{IsNewTable, faults_of, header_faults_of, is_ended, outlets};
ghost use Rattle.csvw_parts.specs.Parts.{EndsAtRow, EndsPart, HasNoRow, IsNoRowEnd, ReadsPart};

use crate::fault::PartFault;
use crate::reading::{PIECE, buffer_of, read_piece};
use csvw_columns::TablePlan;
use csvw_engine_core::{Stop, Table, end_table, feed_table};
use csvw_keys::KeyBook;
use csvw_rows::laws::row_ends;
use csvw_text::{Counted, Fault, Seq};
use csvw_triples_rows::{Mode, TripleSink};
use std::alloc::{AllocError, Global};
use std::io::Read;

/// How many rows come before a piece.
#[derive(Clone, Copy, Debug, PartialEq, Eq)]
pub struct RowsBefore {
    /// The rows of all kinds: header rows, data rows, skipped rows, comments and blank rows.
    pub rows: u64,
    /// The data rows.
    pub data_rows: u64,
}

/// A piece of a table that is read: the plan of its table, and its state.
#[derive(Drop)]
pub struct TablePart<'a> {
    /// Where its memory comes from.
    alloc: Global,
    /// The plan of its table.
    plan: &'a TablePlan,
    /// The state of its table.
    table: Table,
}

impl<'a> TablePart<'a> {
    /// Starts a table of which nothing was read. Fails with `AllocError` if memory runs out.
    pub fn new(alloc: Global, plan: &'a TablePlan, mode: Mode) -> Result<TablePart<'a>, AllocError>
        requires { IsReady plan.now }
        ensures plan { IfOk result (λ part. part.plan.now ≡ plan.entry.now) }
        ensures table { IfOk result (λ part. IsNewTable plan.entry.now mode part.table) }
    {
        let table = Table::new(alloc, plan, mode)?;
        Ok(TablePart { alloc, plan, table })
    }

    /// Goes on after rows that another part reads, as if they had been read here. The faults of cells so far are
    /// dropped.
    ///
    /// Returns false, and changes nothing, if the bytes so far don't make the columns of the table, if a row is being
    /// read, or if there can't be so many rows.
    pub fn skip_to(&mut self, before: RowsBefore) -> bool
        ensures plan { self.new.plan ≡ self.old.plan }
        ensures result { result ≡ can_skip_table self.old.plan.now self.old.table before.rows before.data_rows }
        ensures skips { result ≡ true → SkipsTable self.old.plan.now self.old.table self.new.table before.rows before.data_rows }
        ensures same { result ≡ false → self.new.table ≡ self.old.table }
    {
        self.table.skip_to(self.plan, before.rows, before.data_rows)
    }

    /// Reads the next `count` bytes of a reader. The triples of each complete row go to the sink, its keys to the book,
    /// and the faults of its cells are listed.
    ///
    /// It fails with `ShortFile` if the reader ends before, with the stop of the table, with `Read` if the reader
    /// failed, and with `Memory` if there is no buffer.
    pub fn read<R: Read, S: TripleSink>(
        &mut self,
        reader: &mut Counted<R>,
        count: u64,
        sink: &mut S,
        keys: &mut KeyBook,
    ) -> Result<(), PartFault>
        requires ready { IsReady self.old.plan.now }
        requires not_ended { is_ended self.old.table ≡ false }
        ensures plan { self.new.plan ≡ self.old.plan }
        ensures reads { ReadsPart S.gains S.cuts S.is_open S.failed R.remaining self.old.plan.now self.old.table self.new.table reader.old reader.new count
            (outlets sink.old keys.old) (outlets sink.new keys.new) result }
    {
        let mut buffer = buffer_of(self.alloc, PIECE)?;
        let room = buffer.as_mut_slice();
        let plan = self.plan;
        let mut left = count;
        while left > 0 {
            let n = read_piece(reader, room, left)?;
            feed_table(plan, &mut self.table, &room[..n], sink, keys)?;
            left -= n as u64;
        }
        Ok(())
    }

    /// Ends the table: its file ends where reading ended. It fails as `end_table` of csvw_engine_core does.
    pub fn end<S: TripleSink>(&mut self, sink: &mut S, keys: &mut KeyBook) -> Result<(), Stop>
        requires ready { IsReady self.old.plan.now }
        requires not_ended { is_ended self.old.table ≡ false }
        ensures plan { self.new.plan ≡ self.old.plan }
        ensures ends { EndsPart S.gains S.cuts S.is_open S.failed self.old.plan.now self.old.table self.new.table
            (outlets sink.old keys.old) (outlets sink.new keys.new) result }
    {
        end_table(self.plan, &mut self.table, sink, keys)
    }

    /// Returns how many rows there are from the start of the file, or `None` if no row ends where reading ended, or if the
    /// header isn't complete there.
    pub fn rows_here(&self) -> Option<RowsBefore>
        ensures ends { MatchOption result (IsNoRowEnd self.now) (λ here. EndsAtRow self.now here.rows here.data_rows) }
        ensures none { IfSome result (λ here. HasNoRow self.now here.rows here.data_rows) }
    {
        row_ends();
        if self.table.unread_bytes() > 0 {
            return None;
        }
        let data_rows = self.table.data_rows_read(self.plan)?;
        Some(RowsBefore {
            rows: self.table.rows_read(),
            data_rows,
        })
    }

    /// Adds the faults of its header. Fails with `AllocError` if memory runs out.
    pub fn list_header_faults(&self, faults: &mut Seq<Fault>) -> Result<(), AllocError>
        ensures { OnOk result (faults.new ≡ faults.old ++ header_faults_of self.now.table) }
    {
        self.table.list_header_faults(faults)
    }

    /// Adds the faults of the cells of its rows so far, without those in front. Fails with `AllocError` if memory runs
    /// out.
    pub fn list_cell_faults(&self, faults: &mut Seq<Fault>) -> Result<(), AllocError>
        ensures { OnOk result (faults.new ≡ faults.old ++ faults_of self.now.table) }
    {
        self.table.list_cell_faults(faults)
    }
}
