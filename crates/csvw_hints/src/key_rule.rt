//! The columns of a key, and what a foreign key refers to.

use crate::tables::{TableAt, declared, title_of};
use csvw_columns::{ForeignKeyPlan, TablePlan};
use csvw_page::{push_location, push_quoted};
use std::alloc::AllocError;

/// Adds columns of a table, by their numbers and names.
fn push_columns(text: &mut String, plan: &TablePlan, columns: &[u32]) -> Result<(), AllocError> {
    text.push_str(if columns.len() == 1 {
        "column"
    } else {
        "columns"
    })?;
    for (i, column) in columns.iter().enumerate() {
        let number = *column;
        text.push_str(if i > 0 { ", " } else { " " })?;
        write!(text, "{number}")?;
        if let Some(column) = declared(plan, number) {
            text.push(' ')?;
            push_quoted(text, title_of(column))?;
        }
    }
    Ok(())
}

/// Adds the columns of the primary key.
pub(crate) fn push_primary_key(text: &mut String, plan: &TablePlan) -> Result<(), AllocError> {
    text.push_str("    primary key: ")?;
    push_columns(text, plan, plan.primary_key.as_slice())?;
    text.push('\n')
}

/// Adds the columns of a foreign key, and the table and the columns that it refers to.
fn push_foreign_key(
    text: &mut String,
    table: &TableAt<'_>,
    key: &ForeignKeyPlan,
) -> Result<(), AllocError> {
    text.push_str("    foreign key: ")?;
    push_columns(text, table.plan, key.columns.as_slice())?;
    let number = key.table;
    write!(text, ", to table {number}")?;
    if let Some(path) = table.tables.path_at(number) {
        text.push(' ')?;
        push_location(text, path)?;
    }
    if let Some(plan) = table.tables.plan_at(number) {
        text.push_str(", ")?;
        push_columns(text, plan, key.referenced.as_slice())?;
    }
    text.push('\n')
}

/// Adds the foreign keys whose first column this is.
pub(crate) fn push_foreign_keys(
    text: &mut String,
    table: &TableAt<'_>,
    column: u32,
) -> Result<(), AllocError> {
    for key in table.plan.foreign_keys.as_slice() {
        if key.columns.as_slice().first().copied() == Some(column) {
            push_foreign_key(text, table, key)?;
        }
    }
    Ok(())
}
