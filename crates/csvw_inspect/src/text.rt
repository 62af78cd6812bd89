//! A document as lines.

use crate::asked::Inspect;
use crate::column::{column_properties, link_properties};
use crate::datatype::datatype_properties;
use crate::dialect::dialect_properties;
use crate::document::{document_properties, kind_of, warning_properties};
use crate::link::{example_row, set_column};
use crate::property::{Origin, Property};
use crate::table::{foreign_key_properties, key_properties, table_properties};
use crate::value::value_of;
use csvw_columns::{Plan, TablePlan};
use csvw_columns_core::Column;
use std::alloc::{AllocError, Global};

/// Spaces, at least as many as a name has letters.
const SPACES: &str = "                    ";

/// Returns the length of the longest name of the properties that are shown.
fn width_of(properties: &[Property<'_>]) -> usize {
    let mut width = 0usize;
    for property in properties {
        if property.is_shown() {
            width = width.max(property.name.len());
        }
    }
    width
}

/// Adds a property, if it is shown: its name, spaces up to `width` characters, and its value.
fn push_property(
    text: &mut String,
    indent: &str,
    width: usize,
    property: &Property<'_>,
) -> Result<(), AllocError> {
    if !property.is_shown() {
        return Ok(());
    }
    let name = property.name;
    let spaces = SPACES.get(name.len()..width).unwrap_or("");
    let origin = match property.origin {
        Origin::Default => " (default)",
        Origin::Document => "",
    };
    let value = value_of(*text.allocator(), property.value)?;
    write!(text, "{indent}{name}{spaces}  {value}{origin}\n")
}

/// Adds properties under a heading, a line each, with their values below one another.
fn push_properties(
    text: &mut String,
    heading: &str,
    indent: &str,
    properties: &[Property<'_>],
) -> Result<(), AllocError> {
    text.push_str(heading)?;
    let width = width_of(properties);
    for property in properties {
        push_property(text, indent, width, property)?;
    }
    Ok(())
}

/// Adds a column with its datatype.
fn push_column(text: &mut String, number: usize, column: &Column) -> Result<(), AllocError> {
    write!(text, "  column {number}\n")?;
    push_properties(text, "", "    ", &column_properties(column))?;
    let datatype = column.properties.datatype.get();
    push_properties(
        text,
        "    datatype\n",
        "      ",
        &datatype_properties(datatype),
    )
}

/// Adds links in the example row, if there are some.
fn push_links(text: &mut String, links: &[Property<'_>]) -> Result<(), AllocError> {
    if width_of(links) == 0 {
        return Ok(());
    }
    push_properties(text, "    links of an example row\n", "      ", links)
}

/// Adds the columns of a table.
fn push_columns(text: &mut String, table: &TablePlan) -> Result<(), AllocError> {
    if table.declared.is_empty() {
        return text.push_str("  columns from the header\n");
    }
    let alloc = *text.allocator();
    let mut vars = example_row(alloc, table)?;
    for (i, column) in table.declared.as_slice().iter().enumerate() {
        set_column(&mut vars, alloc, column)?;
        push_column(text, i.saturating_add(1), column)?;
        push_links(text, &link_properties(table, column, &vars))?;
    }
    Ok(())
}

/// Adds the foreign keys of a table.
fn push_foreign_keys(
    text: &mut String,
    tables: &[TablePlan],
    table: &TablePlan,
) -> Result<(), AllocError> {
    for (i, key) in table.foreign_keys.as_slice().iter().enumerate() {
        let number = i.saturating_add(1);
        write!(text, "  foreign key {number}\n")?;
        push_properties(
            text,
            "",
            "    ",
            &foreign_key_properties(tables, table, key),
        )?;
    }
    Ok(())
}

/// Adds a table.
fn push_table(
    text: &mut String,
    number: usize,
    tables: &[TablePlan],
    table: &TablePlan,
) -> Result<(), AllocError> {
    write!(text, "\ntable {number}\n")?;
    push_properties(text, "", "  ", &table_properties(table))?;
    let dialect = dialect_properties(&table.dialect);
    push_properties(text, "  dialect\n", "    ", &dialect)?;
    push_columns(text, table)?;
    push_properties(text, "  keys\n", "    ", &key_properties(table))?;
    push_foreign_keys(text, tables, table)
}

/// Adds the warnings of a document.
fn push_warnings(text: &mut String, bytes: &[u8], plan: &Plan) -> Result<(), AllocError> {
    let kind = kind_of(*text.allocator(), bytes, plan);
    for (i, fault) in plan.warnings().iter().enumerate() {
        let number = i.saturating_add(1);
        write!(text, "\nwarning {number}\n")?;
        push_properties(text, "", "  ", &warning_properties(kind, fault))?;
    }
    Ok(())
}

/// Adds the tables of a document.
fn push_tables(text: &mut String, tables: &[TablePlan]) -> Result<(), AllocError> {
    for (i, table) in tables.iter().enumerate() {
        push_table(text, i.saturating_add(1), tables, table)?;
    }
    Ok(())
}

/// Returns a document with these bytes as lines.
pub(crate) fn lines_of(
    alloc: Global,
    asked: &Inspect<'_>,
    bytes: &[u8],
    plan: &Plan,
) -> Result<String, AllocError> {
    let mut text = String::new(alloc);
    push_properties(
        &mut text,
        "document\n",
        "  ",
        &document_properties(asked, plan),
    )?;
    push_tables(&mut text, plan.tables())?;
    push_warnings(&mut text, bytes, plan)?;
    Ok(text)
}
