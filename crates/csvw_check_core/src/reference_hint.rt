//! What helps with a name of a column, a table or a schema that isn't there (Metadata Vocabulary for Tabular Data, sections
//! 5.5.1 and 5.5.2).

use csvw_meta::{MetaCode, MetaFault};
use csvw_page::{push_location, push_quoted};
use serde_json::Value;
use std::alloc::{AllocError, Global};

/// How many names of columns are listed.
const LISTED: usize = 10;

/// The sides of a foreign key.
const UNEQUAL: &str =
    "    the two properties \"columnReference\" of a foreign key don't name equally many columns\n";

/// What properties that only the profile w3c has need.
const PROFILE_NEEDED: &str = "    the profile w3c has this property: write `--profile w3c`\n";

/// Returns the pointer of the schema that a pointer goes through, up to a property that names columns of the schema's own
/// table, if it does so.
fn schema_of(pointer: &str) -> Option<&str> {
    if let Some((schema, _)) = pointer.split_once("/primaryKey") {
        return Some(schema);
    }
    if let Some((schema, _)) = pointer.split_once("/rowTitles") {
        return Some(schema);
    }
    let (schema, within) = pointer.split_once("/foreignKeys/")?;
    match within.contains("/reference/") {
        true => None,
        false => Some(schema),
    }
}

/// Adds the name of a column, or its number if its description has no name. Its place among the columns is from 0.
fn push_column_name(hints: &mut String, column: &Value, place: usize) -> Result<(), AllocError> {
    let separator = match place {
        0 => ": the columns of the table are ",
        _ => ", ",
    };
    hints.push_str(separator)?;
    match column.get("name").and_then(Value::as_str) {
        Some(name) => push_quoted(hints, name),
        None => write!(hints, "column {}", place.saturating_add(1)),
    }
}

/// Adds the first names of the columns of the schema at a pointer.
fn push_columns(hints: &mut String, document: &Value, schema: &str) -> Result<(), AllocError> {
    let columns = document
        .pointer(schema)
        .and_then(|schema| schema.get("columns"));
    let Some(columns) = columns.and_then(Value::as_array) else {
        return Ok(());
    };
    for (place, column) in columns.iter().take(LISTED).enumerate() {
        push_column_name(hints, column, place)?;
    }
    if columns.len() > LISTED {
        hints.push_str(", …")?;
    }
    Ok(())
}

/// Adds that there is no column of a name, and which columns there are.
fn push_no_column(
    hints: &mut String,
    document: &Value,
    name: &str,
    pointer: &str,
) -> Result<(), AllocError> {
    let Some(schema) = schema_of(pointer) else {
        hints.push_str("    the table of the \"reference\" has no column with the name ")?;
        push_quoted(hints, name)?;
        return hints.push('\n');
    };
    hints.push_str("    the table has no column with the name ")?;
    push_quoted(hints, name)?;
    push_columns(hints, document, schema)?;
    hints.push('\n')
}

/// Adds that there is no table of a URL.
fn push_no_table(hints: &mut String, url: &str) -> Result<(), AllocError> {
    hints.push_str("    no table of the document has the \"url\" ")?;
    push_location(hints, url)?;
    hints.push('\n')
}

/// Adds that there is no schema of an identifier, or that several tables have it.
fn push_no_schema(hints: &mut String, id: &str) -> Result<(), AllocError> {
    hints.push_str("    no table, or more than one, has the schema with the \"@id\" ")?;
    push_location(hints, id)?;
    hints.push('\n')
}

/// Adds what helps with a reference at a pointer of a document.
fn push_missing_part(
    hints: &mut String,
    document: &Value,
    pointer: &str,
) -> Result<(), AllocError> {
    let Some(value) = document.pointer(pointer) else {
        return Ok(());
    };
    let Some(name) = value.as_str() else {
        return hints.push_str(UNEQUAL);
    };
    if pointer.ends_with("/resource") {
        push_no_table(hints, name)
    } else if pointer.ends_with("/schemaReference") {
        push_no_schema(hints, name)
    } else {
        push_no_column(hints, document, name, pointer)
    }
}

/// Adds what is missing, if the fault is that of a reference: a line of text.
pub(crate) fn push_reference_hint(
    hints: &mut String,
    alloc: Global,
    bytes: &[u8],
    fault: &MetaFault,
) -> Result<(), AllocError> {
    match Value::from_slice(alloc, bytes) {
        Ok(document) => push_missing_part(hints, &document, fault.pointer.as_str()),
        Err(_) => Ok(()),
    }
}

/// Adds that a property needs the profile w3c, if the fault is at such a property.
pub(crate) fn push_profile_hint(hints: &mut String, fault: &MetaFault) -> Result<(), AllocError> {
    let pointer = fault.pointer.as_str();
    let is_property = pointer.ends_with("/rowTitles") || pointer.ends_with("/schemaReference");
    if is_property && fault.code == MetaCode::NotSupported {
        hints.push_str(PROFILE_NEEDED)
    } else {
        Ok(())
    }
}
