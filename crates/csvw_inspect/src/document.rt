//! A document, and its warnings.

use crate::asked::Inspect;
use crate::property::{Property, given, number, optional, text_of_iri};
use crate::value::Shown;
use csvw_columns::Plan;
use csvw_text::{Fault, Place};
use serde_json::Value;
use std::alloc::{AllocError, Global};

/// What a document describes.
#[derive(Clone, Copy)]
pub(crate) enum Kind {
    /// One table alone.
    Table,
    /// A group of tables.
    Group,
}

/// Returns what a document describes, whose bytes were read as this plan. It reads them again if there are warnings.
pub(crate) fn kind_of(alloc: Global, bytes: &[u8], plan: &Plan) -> Kind {
    if plan.warnings().is_empty() {
        return Kind::Group;
    }
    let bytes = bytes.strip_prefix(b"\xEF\xBB\xBF").unwrap_or(bytes);
    match Value::from_slice(alloc, bytes) {
        Ok(value) if value.get("tables").is_none() => Kind::Table,
        _ => Kind::Group,
    }
}

/// Returns the JSON Pointer of the description at a place: of the document, of a table or of a column.
pub(crate) fn pointer_of(alloc: Global, kind: Kind, place: Place) -> Result<String, AllocError> {
    let mut pointer = String::new(alloc);
    if let Kind::Group = kind
        && let Some(table) = place.table.checked_sub(1)
    {
        write!(pointer, "/tables/{table}")?;
    }
    if let Some(column) = place.column.checked_sub(1) {
        write!(pointer, "/tableSchema/columns/{column}")?;
    }
    Ok(pointer)
}

/// Returns a warning: its code, and the JSON Pointer of the description that has it.
pub(crate) fn warning_properties(kind: Kind, fault: &Fault) -> [Property<'static>; 2] {
    [
        given("code", Shown::Text(fault.code.name())),
        given("pointer", Shown::Pointer(kind, fault.place)),
    ]
}

/// Returns the properties of the document and of its group.
pub(crate) fn document_properties<'a>(asked: &'a Inspect<'a>, plan: &'a Plan) -> [Property<'a>; 4] {
    [
        given("path", Shown::Text(asked.meta)),
        given("url", Shown::Text(asked.base)),
        optional("@id", text_of_iri(&plan.id)),
        number("notes", plan.notes.len() as u64, 0),
    ]
}
