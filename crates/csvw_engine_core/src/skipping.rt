//! A table that goes on after rows that are read elsewhere.
ghost use Rattle.std.specs.Prelude.{◌≡◌, ◌++◌, true, false, OnOk};
ghost use Rattle.csvw_engine_core.specs.Annotated.{header_count};
ghost use Rattle.csvw_engine_core.specs.Skipping.{can_skip_table, HasDataRows, SkipsTable};
ghost use Rattle.csvw_engine_core.specs.Tables.{faults_of, header_faults_of};
ghost use Rattle.csvw_rows.specs.Skips.{remained_of, unread_bytes_of};

use crate::table::Table;
use csvw_columns::TablePlan;
use csvw_rows::laws::given_begin_later;
use csvw_text::{Fault, Seq};
use std::alloc::AllocError;

impl Table {
    /// Returns the number of bytes that were fed and that no row has which was read.
    pub fn unread_bytes(&self) -> usize
        ensures { result ≡ unread_bytes_of self.now.rows }
    {
        self.rows.unread_bytes()
    }

    /// Returns the number of data rows that were read, or `None` if the header isn't complete.
    pub fn data_rows_read(&self, plan: &TablePlan) -> Option<u64>
        ensures { HasDataRows (header_count plan.now) (remained_of self.now.rows) result }
    {
        let headers = u64::from(plan.dialect.header_row_count);
        self.rows.remained().checked_sub(headers)
    }

    /// Goes on after rows that are read elsewhere, as if their bytes had been fed. There are `rows` rows of all kinds
    /// from the start of the file then, and `data_rows` data rows among them. The faults of cells so far are dropped.
    ///
    /// Returns false, and changes nothing, if the columns aren't known yet, or if the reader can't skip to that row: the
    /// text has ended or stopped, bytes are unread, or no reader can have these numbers.
    pub fn skip_to(&mut self, plan: &TablePlan, rows: u64, data_rows: u64) -> bool
        ensures result { result ≡ can_skip_table plan.now self.old rows data_rows }
        ensures skips { result ≡ true → SkipsTable plan.now self.old self.new rows data_rows }
        ensures same { result ≡ false → self.new ≡ self.old }
    {
        given_begin_later();
        if self.head.columns.is_none() {
            return false;
        }
        let headers = u64::from(plan.dialect.header_row_count);
        let Some(remained) = headers.checked_add(data_rows) else {
            return false;
        };
        if !self.rows.skip_to(rows, remained) {
            return false;
        }
        self.faults = Seq::new(self.alloc);
        true
    }

    /// Adds the faults of its header. Fails with `AllocError` if memory runs out.
    pub fn list_header_faults(&self, faults: &mut Seq<Fault>) -> Result<(), AllocError>
        ensures { OnOk result (faults.new ≡ faults.old ++ header_faults_of self.now) }
    {
        faults.extend_from_slice(self.head.faults.as_slice())
    }

    /// Adds the faults of its cells so far. Fails with `AllocError` if memory runs out.
    pub fn list_cell_faults(&self, faults: &mut Seq<Fault>) -> Result<(), AllocError>
        ensures { OnOk result (faults.new ≡ faults.old ++ faults_of self.now) }
    {
        faults.extend_from_slice(self.faults.as_slice())
    }
}
