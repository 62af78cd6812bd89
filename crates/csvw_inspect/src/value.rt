//! Values of properties, before and after they are written as JSON.

use crate::datatype::{bound_value, format_value};
use crate::document::{Kind, pointer_of};
use crate::link::{LinkAt, link_value, template_text};
use csvw_columns::TablePlan;
use csvw_columns_core::Column;
use csvw_datatype::{Format, Value as Bound};
use csvw_template::Template;
use csvw_text::{Place, Text};
use serde_json::{Value, json};
use std::alloc::{AllocError, Global};

/// The value of a property, as the plan has it.
#[derive(Clone, Copy)]
pub(crate) enum Shown<'a> {
    /// The property isn't shown.
    Nothing,
    /// Null.
    Null,
    /// A boolean.
    Truth(bool),
    /// A number.
    Number(u64),
    /// A text of one character.
    Character(char),
    /// A text.
    Text(&'a str),
    /// A list of texts.
    Texts(&'a [Text]),
    /// A list of texts of the program.
    Words(&'static [&'static str]),
    /// The names of the columns that have these numbers, from 1.
    Names(&'a [Column], &'a [u32]),
    /// The names of those of these columns whose values are titles of their rows.
    RowTitles(&'a [Column]),
    /// A table, and the numbers of those of its columns that a foreign key refers to.
    Reference(&'a TablePlan, &'a [u32]),
    /// The text of a template.
    Template(&'a Template),
    /// What a template expands to in an example row.
    Link(LinkAt<'a>),
    /// A bound of a datatype.
    Bound(&'a Bound),
    /// A format of a datatype.
    Format(&'a Format),
    /// The JSON Pointer of a description.
    Pointer(Kind, Place),
}

/// Returns a text of one character.
pub(crate) fn character(alloc: Global, c: char) -> Result<Value, AllocError> {
    let mut text = String::new(alloc);
    text.push(c)?;
    Ok(Value::String(text))
}

/// Returns a list of texts.
fn texts(alloc: Global, texts: &[Text]) -> Result<Value, AllocError> {
    let mut values = Vec::new(alloc);
    for text in texts {
        values.push(Value::try_from_str(alloc, text.as_str())?)?;
    }
    Ok(Value::Array(values))
}

/// Returns a list of words.
fn words(alloc: Global, words: &[&str]) -> Result<Value, AllocError> {
    let mut values = Vec::new(alloc);
    for word in words {
        values.push(Value::try_from_str(alloc, *word)?)?;
    }
    Ok(Value::Array(values))
}

/// Returns the names of the columns that have these numbers, from 1.
fn names(alloc: Global, columns: &[Column], numbers: &[u32]) -> Result<Value, AllocError> {
    let mut names = Vec::new(alloc);
    for number in numbers {
        let place = (*number as usize).saturating_sub(1);
        if let Some(column) = columns.get(place) {
            names.push(Value::try_from_str(alloc, column.name.as_str())?)?;
        }
    }
    Ok(Value::Array(names))
}

/// Returns the names of the columns whose values are titles of their rows.
fn row_titles(alloc: Global, columns: &[Column]) -> Result<Value, AllocError> {
    let mut names = Vec::new(alloc);
    for column in columns {
        if column.is_row_title {
            names.push(Value::try_from_str(alloc, column.name.as_str())?)?;
        }
    }
    Ok(Value::Array(names))
}

/// Returns what a foreign key refers to: a table, and the names of its columns that have these numbers.
fn reference(alloc: Global, table: &TablePlan, numbers: &[u32]) -> Result<Value, AllocError> {
    let columns = names(alloc, table.declared.as_slice(), numbers)?;
    let url = table.url.iri().as_str();
    json!(in alloc; { "resource": url, "columnReference": columns })
}

/// Returns a value.
pub(crate) fn value_of(alloc: Global, shown: Shown<'_>) -> Result<Value, AllocError> {
    match shown {
        Shown::Nothing | Shown::Null => Ok(Value::Null),
        Shown::Truth(truth) => Ok(Value::Bool(truth)),
        Shown::Number(number) => Ok(Value::from(number)),
        Shown::Character(c) => character(alloc, c),
        Shown::Text(text) => Value::try_from_str(alloc, text),
        Shown::Texts(list) => texts(alloc, list),
        Shown::Words(list) => words(alloc, list),
        Shown::Names(columns, numbers) => names(alloc, columns, numbers),
        Shown::RowTitles(columns) => row_titles(alloc, columns),
        Shown::Reference(table, numbers) => reference(alloc, table, numbers),
        Shown::Template(template) => Ok(Value::String(template_text(alloc, template)?)),
        Shown::Link(link) => link_value(alloc, link),
        Shown::Bound(bound) => bound_value(alloc, bound),
        Shown::Format(format) => format_value(alloc, format),
        Shown::Pointer(kind, place) => Ok(Value::String(pointer_of(alloc, kind, place)?)),
    }
}
