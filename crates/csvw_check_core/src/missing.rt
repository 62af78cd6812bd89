//! The properties that an object of a document needs and doesn't have (Metadata Vocabulary for Tabular Data, section 5).

use serde_json::Value;
use std::alloc::{AllocError, Global};

/// Returns the properties that the object at a pointer needs.
fn needed(pointer: &str) -> &'static [&'static str] {
    let mut tokens = pointer.rsplit('/');
    let last = tokens.next().unwrap_or("");
    let before = tokens.next().unwrap_or("");
    match (before, last) {
        ("", "") | ("tables", _) => &["url"],
        ("foreignKeys", _) => &["columnReference", "reference"],
        (_, "reference") => &["resource", "columnReference"],
        _ => &[],
    }
}

/// Whether the object at a pointer has a member of this name.
fn has(alloc: Global, document: &Value, pointer: &str, name: &str) -> Result<bool, AllocError> {
    let member = format!(in alloc; "{pointer}/{name}")?;
    Ok(document.pointer(member.as_str()).is_some())
}

/// Whether the object at a pointer has a property that takes the place of this one. A `schemaReference` takes that of a
/// `resource`. In the profile `core` it has a fault of its own.
fn is_replaced(
    alloc: Global,
    document: &Value,
    pointer: &str,
    name: &str,
) -> Result<bool, AllocError> {
    match name {
        "resource" => has(alloc, document, pointer, "schemaReference"),
        _ => Ok(false),
    }
}

/// Adds the properties that the object at a pointer needs and doesn't have. A document with `tables` needs none.
pub(crate) fn push_missing(
    hints: &mut String,
    alloc: Global,
    bytes: &[u8],
    pointer: &str,
) -> Result<(), AllocError> {
    let Ok(document) = Value::from_slice(alloc, bytes) else {
        return Ok(());
    };
    let is_object = match document.pointer(pointer) {
        Some(value) => value.is_object(),
        None => false,
    };
    if !is_object || has(alloc, &document, pointer, "tables")? {
        return Ok(());
    }
    for name in needed(pointer) {
        let is_there = has(alloc, &document, pointer, name)?
            || is_replaced(alloc, &document, pointer, name)?;
        if !is_there {
            write!(hints, "    the property \"{name}\" is missing\n")?;
        }
    }
    Ok(())
}
