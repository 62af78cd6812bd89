//! What to write in place of a datatype that isn't supported (Metadata Vocabulary for Tabular Data, section 5.11.1).

use crate::bound_hint::{bound_hint, facets_hint};
use crate::format_hint::format_hint;
use crate::near::near_name;
use csvw_datatype::Simple;
use csvw_meta::{MetaCode, MetaFault};
use csvw_page::push_text;
use serde_json::Value;
use std::alloc::{AllocError, Global};

/// The names of the datatypes that there are.
const NAMES: [&str; 47] = [
    "string",
    "anyURI",
    "boolean",
    "decimal",
    "integer",
    "long",
    "int",
    "short",
    "byte",
    "nonNegativeInteger",
    "positiveInteger",
    "unsignedLong",
    "unsignedInt",
    "unsignedShort",
    "unsignedByte",
    "nonPositiveInteger",
    "negativeInteger",
    "date",
    "dateTime",
    "datetime",
    "dateTimeStamp",
    "any",
    "anyAtomicType",
    "token",
    "xml",
    "html",
    "json",
    "number",
    "double",
    "float",
    "language",
    "Name",
    "NMTOKEN",
    "time",
    "gYear",
    "gYearMonth",
    "gMonth",
    "gMonthDay",
    "gDay",
    "normalizedString",
    "QName",
    "hexBinary",
    "base64Binary",
    "binary",
    "duration",
    "dayTimeDuration",
    "yearMonthDuration",
];

/// Adds that a name is that of no datatype, and the one that is near.
fn push_no_datatype(hints: &mut String, name: &str) -> Result<(), AllocError> {
    let near = near_name(*hints.allocator(), name, &[&NAMES])?;
    hints.push_str("    ")?;
    push_text(hints, name)?;
    hints.push_str(" is no datatype of the standard")?;
    match near {
        Some(near) => write!(hints, ": did you mean {near}?\n"),
        None => hints.push('\n'),
    }
}

/// Adds what to write in place of the datatype of a name.
fn push_instead(hints: &mut String, name: &str) -> Result<(), AllocError> {
    if let Some(Simple::Other(_) | Simple::Floating(_)) = Simple::of(name) {
        return write!(
            hints,
            "    the profile w3c has the datatype {name}: write `--profile w3c`\n"
        );
    }
    if Simple::of(name).is_some() {
        return Ok(());
    }
    push_no_datatype(hints, name)
}

/// Whether a pointer is that of the name of a datatype.
fn is_of_datatype(pointer: &str) -> bool {
    pointer.ends_with("/datatype") || pointer.ends_with("/datatype/base")
}

/// Returns the name of the datatype at a pointer, if it isn't supported.
fn name_at<'a>(document: &'a Value, code: MetaCode, pointer: &str) -> Option<&'a str> {
    if code == MetaCode::NotSupported && is_of_datatype(pointer) {
        document.pointer(pointer)?.as_str()
    } else {
        None
    }
}

/// Adds what to write in place of a bound that is refused, if the fault is at one.
pub(crate) fn push_bound_hint(
    hints: &mut String,
    alloc: Global,
    bytes: &[u8],
    fault: &MetaFault,
) -> Result<(), AllocError> {
    let Ok(document) = Value::from_slice(alloc, bytes) else {
        return Ok(());
    };
    match bound_hint(alloc, &document, fault.code, fault.pointer.as_str())? {
        Some(hint) => hints.push_str(hint),
        None => Ok(()),
    }
}

/// Adds what to write in place of a datatype, a format or a bound that is refused, if the fault is at one.
pub(crate) fn push_datatype_hint(
    hints: &mut String,
    alloc: Global,
    bytes: &[u8],
    fault: &MetaFault,
) -> Result<(), AllocError> {
    let pointer = fault.pointer.as_str();
    let Ok(document) = Value::from_slice(alloc, bytes) else {
        return Ok(());
    };
    if let Some(name) = name_at(&document, fault.code, pointer) {
        return push_instead(hints, name);
    }
    let hint = format_hint(&document, fault.code, pointer);
    match hint.or(facets_hint(&document, fault.code, pointer)) {
        Some(hint) => hints.push_str(hint),
        None => push_bound_hint(hints, alloc, bytes, fault),
    }
}
