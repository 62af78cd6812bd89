//! A table.

use crate::property::{Property, default, given, number, optional, text_of_iri, truth};
use crate::value::Shown;
use csvw_columns::{ForeignKeyPlan, TablePlan};

/// Returns the properties of a table, but its dialect and its schema.
pub(crate) fn table_properties(plan: &TablePlan) -> [Property<'_>; 5] {
    [
        given("number", Shown::Number(u64::from(plan.number))),
        given("url", Shown::Text(plan.url.iri().as_str())),
        optional("@id", text_of_iri(&plan.id)),
        truth("suppressOutput", plan.suppressed),
        number("notes", plan.notes.len() as u64, 0),
    ]
}

/// Returns the columns whose values are titles of their rows, if there are some.
fn row_titles(plan: &TablePlan) -> Property<'_> {
    let columns = plan.declared.as_slice();
    let shown = if columns.iter().any(|column| column.is_row_title) {
        Shown::RowTitles(columns)
    } else {
        Shown::Nothing
    };
    given("rowTitles", shown)
}

/// Returns the primary key and the row titles of a table.
pub(crate) fn key_properties(plan: &TablePlan) -> [Property<'_>; 2] {
    let key = plan.primary_key.as_slice();
    let names = Shown::Names(plan.declared.as_slice(), key);
    let primary_key = if key.is_empty() {
        default("primaryKey", names)
    } else {
        given("primaryKey", names)
    };
    [primary_key, row_titles(plan)]
}

/// Returns the columns of a foreign key, and the table and the columns that it refers to.
pub(crate) fn foreign_key_properties<'a>(
    tables: &'a [TablePlan],
    plan: &'a TablePlan,
    key: &'a ForeignKeyPlan,
) -> [Property<'a>; 2] {
    let columns = Shown::Names(plan.declared.as_slice(), key.columns.as_slice());
    let place = (key.table as usize).saturating_sub(1);
    let reference = match tables.get(place) {
        Some(table) => Shown::Reference(table, key.referenced.as_slice()),
        None => Shown::Nothing,
    };
    [
        given("columnReference", columns),
        given("reference", reference),
    ]
}
