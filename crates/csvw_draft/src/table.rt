//! One table while its rows are read.

use crate::aim::Aim;
use crate::column::Column;
use crate::form::{Comments, Form, is_blank};
use crate::kept::Room;
use csvw_rows::RawRow;
use std::alloc::{AllocError, AllocFailed, Global};

/// How many columns a table may have.
const MAX_COLUMNS: usize = 1_024;

/// Why a row can't be a row of the table.
#[derive(Clone, Copy)]
pub(crate) enum Misfit {
    /// Memory ran out.
    Memory,
    /// It doesn't have one field for each column.
    Ragged,
    /// The header has more columns than a table may have.
    TooManyColumns,
}

impl From<AllocError> for Misfit {
    fn from(_: AllocError) -> Misfit {
        Misfit::Memory
    }
}

impl<T: Drop> From<AllocFailed<T>> for Misfit {
    fn from(_: AllocFailed<T>) -> Misfit {
        Misfit::Memory
    }
}

/// What is known of a table after some of its rows.
#[derive(Drop)]
pub(crate) struct Table {
    alloc: Global,
    /// What its dialect was found to be.
    pub(crate) form: Form,
    /// What its columns are read for.
    aim: Aim,
    /// Its columns, once its header was read.
    pub(crate) columns: Vec<Column>,
    /// Whether its header was read.
    pub(crate) has_header: bool,
    /// Whether there is a data row.
    pub(crate) has_row: bool,
    /// Whether there is a blank row before the header.
    begins_blank: bool,
    /// Whether a blank row after the header has a field for each column.
    has_blank: bool,
    /// Whether a blank row after the header hasn't.
    has_short_blank: bool,
}

impl Table {
    /// Makes a table with no row yet. It takes no memory.
    pub(crate) fn new(alloc: Global, form: Form, aim: Aim) -> Table {
        Table {
            alloc,
            form,
            aim,
            columns: Vec::new(alloc),
            has_header: false,
            has_row: false,
            begins_blank: false,
            has_blank: false,
            has_short_blank: false,
        }
    }

    /// Takes one more row. The first one that isn't blank is the header.
    pub(crate) fn take(&mut self, row: &RawRow<'_>, room: &mut Room) -> Result<(), Misfit> {
        if is_blank(row) {
            self.take_blank(row);
            return Ok(());
        }
        if !self.has_header {
            return self.take_header(row);
        }
        if row.len() != self.columns.len() {
            return Err(Misfit::Ragged);
        }
        self.has_row = true;
        for (i, column) in self.columns.as_mut_slice().iter_mut().enumerate() {
            if i < row.len() {
                column.take(row.field(i), room)?;
            }
        }
        Ok(())
    }

    fn take_blank(&mut self, row: &RawRow<'_>) {
        if !self.has_header {
            self.begins_blank = true;
        } else if row.len() == self.columns.len() {
            self.has_blank = true;
        } else {
            self.has_short_blank = true;
        }
    }

    fn take_header(&mut self, row: &RawRow<'_>) -> Result<(), Misfit> {
        if row.len() > MAX_COLUMNS {
            return Err(Misfit::TooManyColumns);
        }
        self.has_header = true;
        for i in 0..row.len() {
            self.columns.push(Column::new(
                self.alloc,
                row.field(i),
                self.aim,
                self.form.delimiter,
            )?)?;
        }
        Ok(())
    }

    /// Returns whether its dialect has to skip blank rows: those before the header, and those with fewer or more fields than
    /// columns.
    pub(crate) fn skips_blank_rows(&self) -> bool {
        self.begins_blank || self.has_short_blank
    }

    /// Ends the table. Blank rows that aren't skipped are rows with an empty cell in each column.
    pub(crate) fn end(&mut self) {
        if !self.has_blank || self.skips_blank_rows() {
            return;
        }
        self.has_row = true;
        for column in self.columns.as_mut_slice() {
            column.take_empty();
        }
    }
}
