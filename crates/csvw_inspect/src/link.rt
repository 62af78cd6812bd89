//! The templates of links, and what they expand to in an example row.

use csvw_columns::TablePlan;
use csvw_columns_core::Column;
use csvw_iri::{IriFault, link};
use csvw_records::Dialect;
use csvw_template::{Operator, Part, Template, Var, Vars};
use csvw_text::Text;
use percent_encoding::percent_decode;
use serde_json::Value;
use std::alloc::{AllocError, Global};

/// A template, and what it is expanded by.
#[derive(Clone, Copy)]
pub(crate) struct LinkAt<'a> {
    /// The table.
    pub(crate) table: &'a TablePlan,
    /// The variables of the example row of the table.
    pub(crate) vars: &'a Vars,
    /// The template.
    pub(crate) template: &'a Template,
}

/// Adds an expression of a template as it was read.
fn push_expression(
    text: &mut String,
    operator: Operator,
    names: &[Text],
) -> Result<(), AllocError> {
    text.push_str(match operator {
        Operator::Simple => "{",
        Operator::Reserved => "{+",
        Operator::Fragment => "{#",
    })?;
    for (i, name) in names.iter().enumerate() {
        if i > 0 {
            text.push(',')?;
        }
        text.push_str(name.as_str())?;
    }
    text.push('}')
}

/// Returns the text that a template was read from.
pub(crate) fn template_text(alloc: Global, template: &Template) -> Result<String, AllocError> {
    let mut text = String::new(alloc);
    for part in template.parts() {
        match part {
            Part::Literal(literal) => text.push_str(literal.as_str())?,
            Part::Expression(operator, names) => {
                push_expression(&mut text, *operator, names.as_slice())?;
            }
        }
    }
    Ok(text)
}

/// Lets a name stand for a number.
fn set_number(vars: &mut Vars, alloc: Global, name: &str, number: u64) -> Result<(), AllocError> {
    vars.set(name, Var::One(Text::of(number.to_string(alloc)?)))
}

/// Lets the name of a column stand for its cell in the example row: the cell of a column `id` is `id-1`.
fn set_cell(vars: &mut Vars, alloc: Global, column: &Column) -> Result<(), AllocError> {
    if column.is_virtual {
        return Ok(());
    }
    let name = column.name.as_str();
    let cell = format!(in alloc; "{name}-1")?;
    vars.set(name, Var::One(Text::of(cell)))
}

/// Returns the number of the first data row in its source, if no row is a comment or blank.
fn first_row(dialect: &Dialect) -> u64 {
    let header = u64::from(dialect.header_row_count);
    dialect.skip_rows.saturating_add(header).saturating_add(1)
}

/// Returns the variables of the example row of a table.
pub(crate) fn example_row(alloc: Global, table: &TablePlan) -> Result<Vars, AllocError> {
    let mut vars = Vars::new(alloc);
    set_number(&mut vars, alloc, "_row", 1)?;
    set_number(&mut vars, alloc, "_sourceRow", first_row(&table.dialect))?;
    for column in table.declared.as_slice() {
        set_cell(&mut vars, alloc, column)?;
    }
    Ok(vars)
}

/// Lets `_name` stand for a name without its percent-encoding.
fn set_name(vars: &mut Vars, alloc: Global, name: &str) -> Result<(), AllocError> {
    let mut bytes = Vec::new(alloc);
    percent_decode(name.as_bytes()).append_to(&mut bytes)?;
    let text = String::from_utf8_lossy(alloc, bytes.as_slice())?;
    vars.set("_name", Var::One(Text::of(text)))
}

/// Lets the names that a column has for itself stand for its number and its name.
pub(crate) fn set_column(
    vars: &mut Vars,
    alloc: Global,
    column: &Column,
) -> Result<(), AllocError> {
    set_number(vars, alloc, "_column", u64::from(column.number))?;
    match column.source_number {
        Some(source) => set_number(vars, alloc, "_sourceColumn", source)?,
        None => vars.set("_sourceColumn", Var::Undefined)?,
    }
    set_name(vars, alloc, column.name.as_str())
}

/// Returns the link of a template in the example row, or null if it is none.
pub(crate) fn link_value(alloc: Global, at: LinkAt<'_>) -> Result<Value, AllocError> {
    let expanded = at.template.expand(alloc, at.vars)?;
    match link(alloc, &at.table.url, expanded.as_str()) {
        Ok(iri) => Value::try_from_str(alloc, iri.as_str()),
        Err(IriFault::Memory) => Err(AllocError),
        Err(_) => Ok(Value::Null),
    }
}
