//! Gives the rows of a table to the sink, and their keys to the book of keys.
//!
//! `next_row` ends the loan of the row that the reader lends, and returns an owned step. The loop in this file
//! calls it.
ghost use Rattle.std.specs.Prelude.{◌≡◌, ◌++◌, ◌∷◌, [], ℕ, List, Bool, true, false, IfOk, IfErr, OnOk, Some, None};
ghost use Rattle.csvw_records.specs.RowValue.{Given};
ghost use Rattle.csvw_columns.specs.Ready.{IsReady};
ghost use Rattle.csvw_annotate.specs.declared.row.Row.{Row as TheRow};
ghost use Rattle.csvw_triples_core.specs.declared.mode.Mode.{Mode as TheMode};
ghost use Rattle.csvw_engine_core.specs.Stops.{IsOf};
ghost use Rattle.csvw_engine_core.specs.Tables.{RowFits, is_ended, Gives, TableHolds, TableOutcome, EndOutcome, outlets, table_triples};

use crate::step::Step;
use crate::stop::Stop;
use crate::table::{Table, next_row};
use csvw_annotate::Row;
use csvw_columns::TablePlan;
use csvw_keys::KeyBook;
use csvw_rows::laws::{given_first, given_first_later};
use csvw_triples_rows::{Emitter, TripleSink};

/// Puts the triples of a row into the sink.
fn give<S: TripleSink>(
    emitter: &mut Emitter,
    table: &Table,
    row: &Row,
    sink: &mut S,
) -> Result<(), Stop>
    requires { RowFits table.now.head.columns row.now }
    ensures { Gives S.gains S.cuts S.is_open S.failed (table_triples table.now.mode table.now.number table.now.head.columns (row.now ∷ []))
        sink.old sink.new result }
{
    match &table.head.columns {
        Some(columns) => {
            emitter.emit_row(columns.columns(), table.mode, table.number, row, sink)?;
            Ok(())
        }
        None => unreachable!(),
    }
}

/// Gives each complete row to the sink, adds its keys, and lists its faults. The rows share the memory of one row
/// and of one literal, and the table's room.
fn drain<S: TripleSink>(
    plan: &TablePlan,
    table: &mut Table,
    sink: &mut S,
    keys: &mut KeyBook,
) -> Result<(), Stop>
    requires { IsReady plan.now }
    ensures ended { is_ended table.new ≡ is_ended table.old }
    ensures own { IfErr result (λ stop. IsOf plan.now.number stop) }
    ensures drains { (mode : TheMode) (bytes : List ℕ) (ended : Bool) (given : List Given) (rows : List TheRow)
        → TableHolds plan.now mode table.old bytes ended given rows
        → TableOutcome S.gains S.cuts S.is_open S.failed plan.now mode bytes ended given rows table.old table.new
        (outlets sink.old keys.old) (outlets sink.new keys.new) result }
{
    let alloc = table.alloc;
    given_first();
    let mut emitter = Emitter::boxed(alloc)?;
    let mut spare = Row::new(alloc);
    loop {
        match next_row(plan, table, spare)? {
            Step::Row(row) => {
                table.tell(&row)?;
                keys.add(table.number, &row)?;
                give(&mut *emitter, table, &row, sink)?;
                spare = row;
            }
            Step::Header => spare = Row::new(alloc),
            Step::Nothing => return Ok(()),
        }
    }
}

/// Takes a piece of the table's text, and gives each complete row to the sink.
///
/// It fails with `Rows` or `Table` if a row can't be read or annotated, after all rows before it. These have the number
/// of this table. It fails with `Write` if the sink's device failed or the sink was closed before, and with `Memory` if
/// memory runs out.
pub fn feed_table<S: TripleSink>(
    plan: &TablePlan,
    table: &mut Table,
    piece: &[u8],
    sink: &mut S,
    keys: &mut KeyBook,
) -> Result<(), Stop>
    requires ready { IsReady plan.now }
    requires not_ended { is_ended table.old ≡ false }
    ensures ended { is_ended table.new ≡ false }
    ensures own { IfErr result (λ stop. IsOf plan.now.number stop) }
    ensures feeds { (mode : TheMode) (bytes : List ℕ) (given : List Given) (rows : List TheRow)
        → TableHolds plan.now mode table.old bytes false given rows
        → TableOutcome S.gains S.cuts S.is_open S.failed plan.now mode (bytes ++ piece.now) false given rows table.old table.new
        (outlets sink.old keys.old) (outlets sink.new keys.new) result }
{
    given_first_later();
    match table.rows.feed(piece) {
        Ok(()) => drain(plan, table, sink, keys),
        Err(stop) => Err(Stop::of_row_stop(plan.number, table.rows.row(), stop)),
    }
}

/// Takes the end of the table's text, and gives each row that is left to the sink. It fails as `feed_table` does.
pub fn end_table<S: TripleSink>(
    plan: &TablePlan,
    table: &mut Table,
    sink: &mut S,
    keys: &mut KeyBook,
) -> Result<(), Stop>
    requires ready { IsReady plan.now }
    requires not_ended { is_ended table.old ≡ false }
    ensures own { IfErr result (λ stop. IsOf plan.now.number stop) }
    ensures ends { (mode : TheMode) (bytes : List ℕ) (given : List Given) (rows : List TheRow)
        → TableHolds plan.now mode table.old bytes false given rows
        → EndOutcome S.gains S.cuts S.is_open S.failed plan.now mode bytes given rows table.old table.new
        (outlets sink.old keys.old) (outlets sink.new keys.new) result }
{
    given_first();
    match table.rows.end() {
        Ok(()) => {
            drain(plan, table, sink, keys)?;
            table.settle(plan)
        }
        Err(stop) => Err(Stop::of_row_stop(plan.number, table.rows.row(), stop)),
    }
}
