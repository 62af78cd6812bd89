//! Checks of lists of faults, each against a line.

use csvw_iri::Base;
use csvw_meta_core::{Context, MetaFault, Part, Pointer, Profile};
use csvw_meta_faults::faults_in;
use csvw_meta_faults_core::{find_all_notes, find_context, find_dialect, find_unlisted};
use serde_json::Value;
use std::alloc::{AllocError, Global};

/// The URL of each document.
const URL: &str = "http://example.org/m.json";

/// What is looked for faults.
#[derive(Clone, Copy)]
pub enum Kind {
    /// A whole document.
    Document,
    /// The context of a document.
    Context,
    /// A dialect.
    Dialect,
    /// The annotations of a group or a table.
    Notes,
    /// The annotations of another object.
    Unlisted,
}

/// Returns a context without a language.
fn context(alloc: Global, base: &Base) -> Result<Context, AllocError> {
    Ok(Context {
        base: base.clone(alloc)?,
        language: None,
        profile: Profile::Core,
    })
}

/// Adds the faults of a part.
fn find(
    kind: Kind,
    part: &Part,
    base: &Base,
    faults: &mut Vec<MetaFault>,
) -> Result<(), AllocError> {
    match kind {
        Kind::Context => find_context(part, base, faults),
        Kind::Dialect => find_dialect(part, &context(part.alloc, base)?, faults),
        Kind::Notes => find_all_notes(part, base, faults),
        Kind::Unlisted => find_unlisted(part, base, faults),
        Kind::Document => Ok(()),
    }
}

/// Writes a fault: its code and, unless it is at the whole document, its pointer.
fn write_fault(text: &mut String, fault: &MetaFault) -> Result<(), AllocError> {
    text.push_str(fault.code.name())?;
    let pointer = fault.pointer.as_str();
    if !pointer.is_empty() {
        text.push_str(" ")?;
        text.push_str(pointer)?;
    }
    Ok(())
}

/// Writes the faults with `; ` between two of them, or `none`.
fn written(alloc: Global, faults: &[MetaFault]) -> Result<String, AllocError> {
    let mut text = String::new(alloc);
    for fault in faults {
        if !text.is_empty() {
            text.push_str("; ")?;
        }
        write_fault(&mut text, fault)?;
    }
    if text.is_empty() {
        text.push_str("none")?;
    }
    Ok(text)
}

/// Returns the faults of a part, or `None` if it is no JSON text.
fn faults(alloc: Global, kind: Kind, document: &str) -> Result<Option<String>, AllocError> {
    let Ok(value) = Value::from_str(alloc, document) else {
        return Ok(None);
    };
    let Ok(base) = Base::new(alloc, URL) else {
        return Ok(None);
    };
    let part = Part {
        alloc,
        at: Pointer::Root,
        value: &value,
    };
    let mut found = Vec::new(alloc);
    find(kind, &part, &base, &mut found)?;
    Ok(Some(written(alloc, found.as_slice())?))
}

/// Returns the faults of a whole document. A document that begins with `{C` or `{W` has the context of the vocabulary. One
/// that begins with `{W` is in the profile w3c, and each other one in core.
fn document_faults(alloc: Global, document: &str) -> Result<Option<String>, AllocError> {
    let mut text = String::new(alloc);
    let in_w3c = document.strip_prefix("{W");
    let profile = match in_w3c {
        Some(_) => Profile::W3c,
        None => Profile::Core,
    };
    match document.strip_prefix("{C").or(in_w3c) {
        Some(rest) => {
            text.push_str("{\"@context\":\"http://www.w3.org/ns/csvw\"")?;
            text.push_str(rest)?;
        }
        None => text.push_str(document)?,
    }
    let found = faults_in(alloc, text.as_bytes(), URL, profile)?;
    Ok(Some(written(alloc, found.as_slice())?))
}

/// Returns the faults of a document or a part, or `None` if it is a part and no JSON text.
fn faults_of(alloc: Global, kind: Kind, text: &str) -> Result<Option<String>, AllocError> {
    match kind {
        Kind::Document => document_faults(alloc, text),
        _ => faults(alloc, kind, text),
    }
}

/// Whether a document has the faults of its line.
fn is_right(alloc: Global, kind: Kind, line: &str) -> Result<bool, AllocError> {
    let Some((document, expected)) = line.split_once(" => ") else {
        return Ok(false);
    };
    match faults_of(alloc, kind, document)? {
        Some(found) => Ok(found.as_str() == expected),
        None => Ok(false),
    }
}

/// Returns the first line whose document has other faults, or `None`. A line is a document, ` => `, and its faults or
/// `none`. Each fault is a code and a pointer, with `; ` between two of them. It returns `AllocError` if there is no memory.
pub fn first_wrong(
    alloc: Global,
    kind: Kind,
    lines: &'static str,
) -> Result<Option<&'static str>, AllocError> {
    for line in lines.lines() {
        if !is_right(alloc, kind, line)? {
            return Ok(Some(line));
        }
    }
    Ok(None)
}
