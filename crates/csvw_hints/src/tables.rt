//! The tables of a group, their files, and the names of their columns.

use csvw_columns::{Plan, TablePlan};
use csvw_columns_core::Column;

/// A document and the files of its tables.
#[derive(Clone, Copy, Debug)]
pub struct Group<'a> {
    /// The absolute URL of the document.
    pub base: &'a str,
    /// The path of the document.
    pub meta: &'a str,
    /// The paths of the tables' files.
    pub files: &'a [&'a str],
}

/// A group of tables that is shown.
#[derive(Clone, Copy)]
pub struct Tables<'a> {
    /// What was asked.
    pub group: Group<'a>,
    /// The bytes of the document.
    pub document: &'a [u8],
    /// What the document says.
    pub plan: &'a Plan,
    /// The path of each table's file.
    pub paths: &'a [String],
}

/// A table of a group, whose faults are shown.
#[derive(Clone, Copy)]
pub struct TableAt<'a> {
    /// The group.
    pub tables: &'a Tables<'a>,
    /// Its plan.
    pub plan: &'a TablePlan,
    /// The path of its file.
    pub path: &'a str,
}

impl<'a> Tables<'a> {
    /// Returns the plan of the table of a number, counted from 1.
    pub fn plan_at(&self, number: u32) -> Option<&'a TablePlan> {
        let place = u32::checked_sub(number, 1)?;
        self.plan.tables().get(place as usize)
    }

    /// Returns the path of the file of the table of a number, counted from 1.
    pub fn path_at(&self, number: u32) -> Option<&'a str> {
        let place = u32::checked_sub(number, 1)?;
        let path = self.paths.get(place as usize)?;
        Some(path.as_str())
    }
}

/// Returns the declared column of a number, counted from 1.
pub(crate) fn declared(plan: &TablePlan, column: u32) -> Option<&Column> {
    let place = u32::checked_sub(column, 1)?;
    plan.declared.as_slice().get(place as usize)
}

/// Returns the place of a column's field in a row, from 0, or `None` if it is the place of no column.
pub fn field_of(plan: &TablePlan, column: u32) -> Option<usize> {
    let place = usize::checked_sub(column as usize, 1)?;
    place.checked_add(plan.dialect.skip_columns as usize)
}

/// Returns the name of a declared column: its first title, else its name.
pub(crate) fn title_of(column: &Column) -> &str {
    match column.titles.as_slice().first() {
        Some(title) => title.as_str(),
        None => column.name.as_str(),
    }
}

/// Returns the name of a column: its first title, else its name, else its field in the header.
pub fn name_of<'a>(plan: &'a TablePlan, header: &'a [String], column: u32) -> &'a str {
    let Some(field) = field_of(plan, column) else {
        return "";
    };
    if let Some(column) = declared(plan, column) {
        return title_of(column);
    }
    match header.get(field) {
        Some(title) => title.as_str(),
        None => "",
    }
}
