//! What helps with a fault at the URL of a schema or a dialect, or in the resource of that URL.

use csvw_hints::text_at;
use csvw_meta::{MetaCode, MetaFault};
use csvw_page::push_location;
use std::alloc::AllocError;

/// Returns a pointer as far as the first property of a name, if it has one.
fn as_far_as<'a>(pointer: &'a str, name: &str) -> Option<&'a str> {
    let at = pointer.find(name)?;
    pointer.get(..at.saturating_add(name.len()))
}

/// Returns a pointer as far as the schema or the dialect that it goes through, if it goes through one.
fn property_in(pointer: &str) -> Option<&str> {
    match as_far_as(pointer, "/tableSchema") {
        Some(property) => Some(property),
        None => as_far_as(pointer, "/dialect"),
    }
}

/// Adds how to give the file of a resource. The URL of the option is absolute.
fn push_give(hints: &mut String, url: &str) -> Result<(), AllocError> {
    let is_absolute = url.contains("://");
    hints.push_str("    give its file: --profile w3c --resource ")?;
    push_location(hints, if is_absolute { url } else { "URL" })?;
    hints.push_str("=FILE")?;
    if !is_absolute {
        hints.push_str(", where URL is the absolute URL of ")?;
        push_location(hints, url)?;
    }
    hints.push('\n')
}

/// Adds that a fault is in the file of a resource.
fn push_wrong(hints: &mut String, url: &str) -> Result<(), AllocError> {
    hints.push_str("    the fault is in the file of ")?;
    push_location(hints, url)?;
    hints.push('\n')
}

/// Adds what helps with a fault at the URL of a resource, or in the resource. It adds nothing for another fault.
pub(crate) fn push_resource_hint(
    hints: &mut String,
    bytes: &[u8],
    fault: &MetaFault,
) -> Result<(), AllocError> {
    let pointer = fault.pointer.as_str();
    let Some(property) = property_in(pointer) else {
        return Ok(());
    };
    let Some(url) = text_at(bytes, property) else {
        return Ok(());
    };
    match fault.code {
        MetaCode::NotSupported if property.len() == pointer.len() => push_give(hints, url),
        MetaCode::Memory => Ok(()),
        _ => push_wrong(hints, url),
    }
}
