//! The header of a table, as far as its rows were read.
ghost use Rattle.std.specs.Prelude.{◌≡◌, IfOk};
ghost use Rattle.csvw_rows.specs.RowValue.{row_of};
ghost use Rattle.csvw_engine_core.specs.Annotated.{header_row, source_of};
ghost use Rattle.csvw_columns.specs.Ready.{IsReady};
ghost use Rattle.csvw_engine_core.specs.Soundness.{AreSoundIf, AreSoundIf-prop};

use crate::stop::Stop;
use csvw_annotate::LinkedColumns;
use csvw_columns::{HeaderRow, TablePlan, match_header};
use csvw_rows::RawRow;
use csvw_text::{Fault, Seq, Text};
use std::alloc::{AllocError, Global};

/// The header of a table, as far as its rows were read.
#[derive(Drop)]
pub(crate) struct Head {
    /// The header rows so far.
    pub(crate) rows: Seq<HeaderRow>,
    /// The columns. They are known after the last header row or, without header rows, from the first data row on.
    pub(crate) columns: Option<LinkedColumns>,
    /// The faults of the header, once the columns are known.
    pub(crate) faults: Seq<Fault>,
    ghost sound: { AreSoundIf columns } by { AreSoundIf-prop columns },
}

/// Makes a row of the source a header row.
fn header_row(alloc: Global, raw: &RawRow) -> Result<HeaderRow, AllocError>
    ensures { IfOk result (λ h. h ≡ header_row (row_of raw.now)) }
{
    let mut cells = Vec::new(alloc);
    for i in 0..raw.len() {
        cells.push(Text::copied(alloc, raw.field(i))?)?;
    }
    Ok(HeaderRow {
        source: raw.source(),
        cells: Seq::of(cells),
    })
}

/// Returns the source number of the first of these rows, or `source` if there are none.
fn source_of(rows: &[HeaderRow], source: u64) -> u64
    ensures { result ≡ source_of rows.now source }
{
    match rows.first() {
        Some(row) => row.source,
        None => source,
    }
}

impl Head {
    ghost use Rattle.csvw_engine_core.specs.Heads.{IsNewHead, Settles, TakesHeader};

    /// Makes a header of which nothing is known.
    pub(crate) fn new(alloc: Global) -> Head
        ensures { IsNewHead result }
    {
        Head {
            rows: Seq::new(alloc),
            columns: None,
            faults: Seq::new(alloc),
        }
    }

    /// Makes the columns from the header rows so far. Without header rows it makes them from the number of fields
    /// of the first data row, which has this source number.
    pub(crate) fn settle(
        &mut self,
        alloc: Global,
        plan: &TablePlan,
        width: Option<usize>,
        source: u64,
    ) -> Result<(), Stop>
        requires { IsReady plan.now }
        ensures { Settles plan.now width source self.old self.new result }
    {
        match match_header(alloc, plan, self.rows.as_slice(), width) {
            Ok((columns, faults)) => {
                self.columns = Some(LinkedColumns::new(alloc, columns)?);
                self.faults = Seq::of(faults);
                Ok(())
            }
            Err(stop) => {
                let row = source_of(self.rows.as_slice(), source);
                Err(Stop::of_table_stop(plan.number, row, stop))
            }
        }
    }

    /// Takes a header row. After the last one the columns are known.
    pub(crate) fn take(&mut self, alloc: Global, plan: &TablePlan, raw: &RawRow) -> Result<(), Stop>
        requires { IsReady plan.now }
        ensures { TakesHeader plan.now (row_of raw.now) self.old self.new result }
    {
        self.rows.push(header_row(alloc, raw)?)?;
        if self.rows.len() == plan.dialect.header_row_count as usize {
            return self.settle(alloc, plan, None, 0);
        }
        Ok(())
    }
}
