//! The state of one table.
//!
//! `TableHolds` says of the state, for every text so far, which rows of the source it gave and which annotated rows
//! they are. Header rows come first, as many as the dialect says, and then data rows. `feed_table` and `end_table`
//! say by their results how that goes on (`TableOutcome`, `EndOutcome`). Nothing depends on where a piece ends.
ghost use Rattle.std.specs.Prelude.{◌≡◌, ◌+◌, ◌++◌, ◌∷◌, [], length, IfOk, OnOk};
ghost use Rattle.csvw_records.specs.Lawful.{IsLawful};
ghost use Rattle.csvw_engine_core.specs.Faults.{cell_faults, row_faults, table_faults};
ghost use Rattle.csvw_columns.specs.Ready.{IsReady};
ghost use Rattle.csvw_rows.specs.RowsState.{reading_of};
ghost use Rattle.csvw_engine_core.specs.Tables.{IsNewTable, Steps, RowFits, SettlesTable, faults_of, header_faults_of, is_ended};

use crate::head::Head;
use crate::step::{Step, annotated};
use crate::stop::Stop;
use csvw_annotate::{Row, RowRoom, annotate_into, annotated_rows_have_forms};
use csvw_columns::{Column, TablePlan};
use csvw_rows::Rows;
use csvw_rows::laws::given_first;
use csvw_text::{Code, Fault, Kind, Place, Seq};
use csvw_triples_rows::Mode;
use std::alloc::{AllocError, Global};

/// How many rows of all kinds a table may have.
const MAX_ROWS: u64 = 4_000_000_000;

/// The state of one table.
#[derive(Drop)]
pub struct Table {
    /// Where its memory comes from.
    pub(crate) alloc: Global,
    /// Its number in its group, from 1.
    pub(crate) number: u32,
    /// Which triples its rows make.
    pub(crate) mode: Mode,
    /// The reader of its text.
    pub(crate) rows: Rows,
    /// Its header so far.
    pub(crate) head: Head,
    /// The faults of its cells so far.
    pub(crate) faults: Seq<Fault>,
    /// The memory in which its rows are annotated.
    pub(crate) room: RowRoom,
}

impl Table {
    /// Makes a table whose text was not read yet. Fails with `AllocError` if memory runs out.
    pub fn new(alloc: Global, plan: &TablePlan, mode: Mode) -> Result<Table, AllocError>
        requires { IsLawful plan.now.dialect }
        ensures { IfOk result (λ t. IsNewTable plan.now mode t) }
    {
        Ok(Table {
            alloc,
            number: plan.number,
            mode,
            rows: Rows::new(alloc, plan.dialect.clone(alloc)?, MAX_ROWS)?,
            head: Head::new(alloc),
            faults: Seq::new(alloc),
            room: RowRoom::new(alloc),
        })
    }

    /// Returns the number of complete rows of its text that were read. Rows of all kinds count.
    pub fn rows_read(&self) -> u64
        ensures { result + 1 ≡ reading_of self.now.rows }
    {
        self.rows.row() - 1
    }

    /// Returns whether its text has ended.
    pub fn is_ended(&self) -> bool
        ensures { result ≡ is_ended self.now }
    {
        self.rows.is_ended()
    }
}

/// Reads the next row of a table and annotates it, in the memory of a row that is no longer needed and in the table's
/// room. The loan of the reader ends here.
pub(crate) fn next_row(plan: &TablePlan, table: &mut Table, spare: Row) -> Result<Step, Stop>
    requires { IsReady plan.now }
    ensures { Steps plan.now table.old table.new result }
{
    given_first();
    annotated_rows_have_forms();
    let alloc = table.alloc;
    match table.rows.next() {
        Ok(Some(raw)) => {
            let head = &mut table.head;
            let room = &mut table.room;
            match &head.columns {
                Some(columns) => {
                    let row = annotate_into(alloc, columns, &raw, spare, room);
                    Ok(Step::Row(annotated(plan, &raw, row)?))
                }
                None => head.begin(alloc, plan, &raw, spare, room),
            }
        }
        Ok(None) => Ok(Step::Nothing),
        Err(stop) => Err(Stop::of_row_stop(plan.number, table.rows.row(), stop)),
    }
}

/// Lists the faults of a cell.
fn tell_cell(faults: &mut Seq<Fault>, place: Place, codes: &[Code]) -> Result<(), AllocError>
    ensures { OnOk result (faults.new ≡ faults.old ++ cell_faults place codes.now) }
{
    for code in codes {
        faults.push(Fault {
            kind: Kind::Error,
            code: *code,
            place,
        })?;
    }
    Ok(())
}

/// Lists the faults of the cells of a row.
fn tell_row(
    faults: &mut Seq<Fault>,
    table: u32,
    columns: &[Column],
    row: &Row,
) -> Result<(), AllocError>
    requires { length row.now.cells ≡ length columns.now }
    ensures { OnOk result (faults.new ≡ faults.old ++ row_faults table columns.now row.now) }
{
    for (column, cell) in columns.iter().zip(row.cells.as_slice()) {
        let place = Place {
            table,
            row: row.source,
            column: column.number,
        };
        tell_cell(faults, place, cell.faults.as_slice())?;
    }
    Ok(())
}

impl Table {
    /// Adds the faults of its header, and then those of its cells so far. Fails with `AllocError` if memory runs
    /// out.
    pub fn list_faults(&self, faults: &mut Seq<Fault>) -> Result<(), AllocError>
        ensures { OnOk result (faults.new ≡ faults.old ++ header_faults_of self.now ++ faults_of self.now) }
    {
        faults.extend_from_slice(self.head.faults.as_slice())?;
        faults.extend_from_slice(self.faults.as_slice())
    }

    /// Lists the faults of the cells of a row.
    pub(crate) fn tell(&mut self, row: &Row) -> Result<(), AllocError>
        requires { RowFits self.old.head.columns row.now }
        ensures same { self.new ≡ record self.old { faults = self.new.faults } }
        ensures told { OnOk result (self.new.faults ≡ self.old.faults ++ table_faults self.old.number self.old.head.columns (row.now ∷ [])) }
    {
        let head = &self.head;
        match &head.columns {
            Some(columns) => tell_row(
                &mut self.faults,
                self.number,
                columns.columns().columns.as_slice(),
                row,
            ),
            None => unreachable!(),
        }
    }

    /// Makes the columns if the text ended before they were known.
    pub(crate) fn settle(&mut self, plan: &TablePlan) -> Result<(), Stop>
        requires { IsReady plan.now }
        ensures { SettlesTable plan.now self.old self.new result }
    {
        if self.head.columns.is_some() {
            return Ok(());
        }
        self.head.settle(self.alloc, plan, None, 0)
    }
}
