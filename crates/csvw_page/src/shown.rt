//! What a page shows: faults, ignored properties, counts and stops, each with all that is shown of it.

use crate::counts::{Counts, Spot};
use csvw_rows::RawRow;
use csvw_text::{Fault, Kind};

/// A wrong cell, in its row.
#[derive(Clone, Copy)]
pub struct CellShown<'a> {
    /// The row.
    pub row: RawRow<'a>,
    /// The place of the cell among the fields of the row, from 0.
    pub place: usize,
    /// The text of the cell.
    pub text: &'a str,
    /// The delimiter of the table.
    pub delimiter: char,
}

/// A fault, with all that is shown of it.
#[derive(Clone, Copy)]
pub struct FaultShown<'a> {
    /// The fault.
    pub fault: Fault,
    /// The path of the file.
    pub path: &'a str,
    /// The line of the file at which the row begins, from 1. It is 0 if it isn't known.
    pub line: u64,
    /// The number of the row among the data rows, from 1. It is 0 for a header row.
    pub number: u64,
    /// The name of the column. It is empty for a fault of no column.
    pub name: &'a str,
    /// The cell in its row, if they are known.
    pub cell: Option<CellShown<'a>>,
    /// The rule that the fault breaks: lines, each with four spaces before it. It is empty if there are no values to show.
    pub rule: &'a str,
}

/// Where the row of a fault is, as far as it is known.
#[derive(Clone, Copy)]
pub(crate) enum RowPlace {
    /// The fault is in no row.
    Nowhere,
    /// The row has this source number. Its line isn't known.
    Record(u64),
    /// The header row begins at this line.
    Header(u64),
    /// The data row begins at this line, and has this row number.
    Data(u64, u64),
}

impl FaultShown<'_> {
    /// Returns where its row is.
    pub(crate) fn row_place(&self) -> RowPlace {
        match (self.fault.place.row, self.line, self.number) {
            (0, _, _) => RowPlace::Nowhere,
            (row, 0, _) => RowPlace::Record(row),
            (_, line, 0) => RowPlace::Header(line),
            (_, line, number) => RowPlace::Data(line, number),
        }
    }
}

/// Returns the name of a kind.
pub(crate) fn kind_name(kind: Kind) -> &'static str {
    match kind {
        Kind::Error => "error",
        Kind::Warning => "warning",
    }
}

/// Why a property is ignored, and what is meant by its name, as far as it is known.
#[derive(Clone, Copy)]
pub enum Meant {
    /// Its object doesn't have it. What is meant isn't known.
    Nothing,
    /// Its object has it, but its value isn't permitted.
    Value,
    /// The property of this name, which is near.
    Name(&'static str),
    /// The property of the same name in this object.
    Object(&'static str),
}

/// A property of the document that is ignored.
#[derive(Clone, Copy)]
pub struct UnknownShown<'a> {
    /// The path of the document.
    pub path: &'a str,
    /// The line of the document at which the name is, from 1. It is 0 if it isn't known.
    pub line: u64,
    /// The column of that line, from 1.
    pub column: u64,
    /// The JSON Pointer of the property. It is empty if it isn't known.
    pub pointer: &'a str,
    /// The name.
    pub name: &'a str,
    /// The object that doesn't have the property, with its article. It is empty if it isn't known.
    pub object: &'static str,
    /// What is meant.
    pub meant: Meant,
}

/// Faults of one code in one column.
#[derive(Clone, Copy)]
pub struct SpotShown<'a> {
    /// The column and the code.
    pub spot: Spot,
    /// How many faults there are.
    pub times: u64,
    /// The path of the file.
    pub path: &'a str,
}

/// Faults of the document with one code that are not shown.
#[derive(Clone, Copy)]
pub struct MoreShown<'a> {
    /// The path of the document.
    pub path: &'a str,
    /// The name of the code.
    pub name: &'a str,
    /// How many faults there are.
    pub times: u64,
}

/// Why the document or a table wasn't read, with all that is shown of it.
#[derive(Clone, Copy)]
pub struct StopShown<'a> {
    /// Its name.
    pub name: &'a str,
    /// What is wrong and what to do.
    pub sentence: &'a str,
    /// The path of the file. It is empty if the stop is of no file.
    pub path: &'a str,
    /// The number of the table, from 1. It is 0 if the stop is of no table.
    pub table: u32,
    /// The number of the row in its source, from 1. It is 0 if the stop is of no row.
    pub row: u64,
    /// The line of the file, from 1. It is 0 if it isn't known.
    pub line: u64,
    /// The column of that line, from 1. It is 0 if it isn't known.
    pub column: u64,
    /// The JSON Pointer of a value of the document. It is empty if the stop is of no value.
    pub pointer: &'a str,
    /// What else helps: lines of text.
    pub hints: &'a str,
}

/// Where a stop is in its file, as far as it is known.
#[derive(Clone, Copy)]
pub(crate) enum StopPlace {
    /// The stop is at no place of a file.
    Nowhere,
    /// The row has this source number. Its line isn't known.
    Record(u64),
    /// The stop is in this line.
    Line(u64),
    /// The stop is in this line, at this column.
    Character(u64, u64),
}

impl StopShown<'_> {
    /// Returns where it is in its file.
    pub(crate) fn place(&self) -> StopPlace {
        match (self.row, self.line, self.column) {
            (0, 0, _) => StopPlace::Nowhere,
            (row, 0, _) => StopPlace::Record(row),
            (_, line, 0) => StopPlace::Line(line),
            (_, line, column) => StopPlace::Character(line, column),
        }
    }
}

/// What was found of a group.
#[derive(Clone, Copy)]
pub struct Summary<'a> {
    /// The path of each table's file.
    pub paths: &'a [String],
    /// The number of rows that were read of each table. There are none if they aren't known.
    pub rows: &'a [u64],
    /// How often each code occurs in each column.
    pub totals: &'a Counts,
    /// The status.
    pub status: u8,
}
