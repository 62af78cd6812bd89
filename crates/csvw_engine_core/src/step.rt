//! One more row of the source: a header row or a data row of the table.
ghost use Rattle.csvw_columns_core.specs.declared.columns.Columns.{Columns};
ghost use Rattle.csvw_annotate.specs.Annotated.{Annotates};
ghost use Rattle.csvw_rows.specs.RowValue.{row_of};
ghost use Rattle.csvw_columns.specs.Ready.{IsReady};
ghost use Rattle.csvw_engine_core.specs.Stepping.{AnnotatesRow, Begins};

use crate::head::Head;
use crate::stop::Stop;
use csvw_annotate::{Row, RowRoom, annotate_into};
use csvw_columns::{TablePlan, TableStop};
use csvw_rows::RawRow;
use std::alloc::Global;

/// The result of one call of the reader.
pub(crate) enum Step {
    /// The next row.
    Row(Row),
    /// A header row.
    Header,
    /// No further row is complete.
    Nothing,
}

/// Returns the annotated row, or the stop of the table if the row can't be annotated.
pub(crate) fn annotated(
    plan: &TablePlan,
    raw: &RawRow,
    row: Result<Row, TableStop>,
) -> Result<Row, Stop>
    ensures { (columns : Columns) → Annotates columns (row_of raw.now) row → AnnotatesRow plan.now columns (row_of raw.now) result }
{
    match row {
        Ok(row) => Ok(row),
        Err(stop) => Err(Stop::of_table_stop(plan.number, raw.source(), stop)),
    }
}

impl Head {
    /// Takes a row while the columns are not known: a header row or, without header rows, the first data row.
    pub(crate) fn begin(
        &mut self,
        alloc: Global,
        plan: &TablePlan,
        raw: &RawRow,
        spare: Row,
        room: &mut RowRoom,
    ) -> Result<Step, Stop>
        requires { IsReady plan.now }
        ensures { Begins plan.now (row_of raw.now) self.old self.new result }
    {
        if plan.dialect.header_row_count > 0 {
            self.take(alloc, plan, raw)?;
            return Ok(Step::Header);
        }
        self.settle(alloc, plan, Some(raw.len()), raw.source())?;
        match &self.columns {
            Some(columns) => {
                let row = annotate_into(alloc, columns, raw, spare, room);
                Ok(Step::Row(annotated(plan, raw, row)?))
            }
            None => unreachable!(),
        }
    }
}
