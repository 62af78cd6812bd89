//! The bytes of a document without the values that aren't permitted.
ghost use Rattle.std.specs.Prelude.{◌≡◌, ◌≤◌, [], IfOk, Some, option_map};
ghost use Rattle.json.specs.Json.{document as document_of};
ghost use Rattle.json.specs.Value.{value_view};
ghost use Rattle.serde_json.specs.Data.{depth};
ghost use Rattle.serde_json.specs.Read.{max_depth};
ghost use Rattle.serde_json.specs.View.{view};
ghost use Rattle.csvw_meta.specs.Json.{json_of, without_bom};
ghost use Rattle.csvw_defaults.specs.Documents.{AreBytesOf, IsDefaulted, IsLeftOf, IsOf, of_json};
ghost use Rattle.csvw_defaults.specs.Ignored.{document};
ghost use Rattle.csvw_defaults.specs.Sources.{source_in, source_of};

use crate::group::document;
use crate::node::{Node, Written};
use csvw_meta::document::MAX_DOCUMENT;
use csvw_meta::json::{json_of, without_bom};
use csvw_meta_core::{MetaFault, Part, Pointer, Profile, Refusal};
use csvw_text::Seq;
use json::{Error, Scratch, Value as Source};
use serde_json::Value;
use std::alloc::{AllocError, Global};

/// A document whose values are all of kinds that are permitted.
#[derive(Debug, Drop)]
pub struct Defaulted {
    /// The bytes of the document.
    pub bytes: Vec<u8>,
    /// The values that are ignored or read as texts, in the order of the document. Each is the fault that it is in the profile `core`:
    /// `BadProperty` at the JSON Pointer of a value that is ignored, and `NotSupported` at that of a bound that isn't whole, which is read as
    /// the text that writes it.
    pub changed: Seq<MetaFault>,
}

/// Returns the bytes of what is left of a document. They begin with U+FEFF, which readers drop.
fn bytes_of(alloc: Global, value: &Value) -> Result<Vec<u8>, AllocError>
    requires { depth (view value.now) ≤ max_depth }
    ensures { IfOk result (λ bytes. AreBytesOf (view value.now) bytes.items) }
{
    let text = value.to_string(alloc)?;
    let mut bytes = Vec::from_slice(alloc, b"\xEF\xBB\xBF")?;
    bytes.extend_from_slice(text.as_str().as_bytes())?;
    Ok(bytes)
}

/// Returns a document that stays as it is.
fn unchanged(alloc: Global, bytes: Vec<u8>) -> Defaulted
    ensures bytes { result.bytes.items ≡ bytes.items }
    ensures changed { result.changed ≡ [] }
{
    Defaulted {
        bytes,
        changed: Seq::new(alloc),
    }
}

/// What is left of a document.
#[derive(Drop)]
struct Left {
    /// Its bytes, or none if the document stays as it is.
    bytes: Option<Vec<u8>>,
    /// The values that are ignored or read as texts.
    faults: Vec<MetaFault>,
}

/// Returns what is left of a document that was read, by its value as it is written.
#[tactic(auto, using(crate::proofs::DepthLemmas::document_is))]
fn left_of(alloc: Global, value: &Value, source: Written<'_, '_>) -> Result<Left, AllocError>
    requires { depth (view value.now) ≤ max_depth }
    ensures { IfOk result (λ left. IsLeftOf
        (document [] (source_of source.entry) (view value.now)) (option_map (λ v. v.items) left.bytes) left.faults.items) }
{
    let node = Node {
        part: Part {
            alloc,
            at: Pointer::Root,
            value,
        },
        source,
    };
    let mut faults = Vec::new(alloc);
    let left = document(&node, &mut faults)?;
    let bytes = match faults.is_empty() {
        true => None,
        false => Some(bytes_of(alloc, &left)?),
    };
    Ok(Left { bytes, faults })
}

/// Returns the value of a text as it is written, or `None` if it can't be read.
fn parsed<'t>(
    alloc: Global,
    text: &'t str,
    scratch: &'t mut Scratch,
) -> Result<Option<Source<'t>>, AllocError>
    ensures { IfOk result (λ source. option_map value_view source ≡ document_of text.now) }
{
    match Source::parse(alloc, text, scratch) {
        Ok(source) => Ok(Some(source)),
        Err(Error::OutOfMemory) => Err(AllocError),
        Err(_) => Ok(None),
    }
}

/// Returns what is left of a document that was read, and drops its value as it is written.
fn left_beside(alloc: Global, value: &Value, source: Source<'_>) -> Result<Left, AllocError>
    requires { depth (view value.now) ≤ max_depth }
    ensures { IfOk result (λ left. IsLeftOf
        (document [] (Some (value_view source.entry)) (view value.now)) (option_map (λ v. v.items) left.bytes) left.faults.items) }
{
    let left = left_of(alloc, value, Written::Known(&source));
    drop(source);
    left
}

/// Returns what is left of a document that was read from a text.
fn left_in(alloc: Global, value: &Value, text: &str) -> Result<Left, AllocError>
    requires { depth (view value.now) ≤ max_depth }
    ensures { IfOk result (λ left. IsLeftOf (document [] (document_of text.now) (view value.now)) (option_map (λ v. v.items) left.bytes) left.faults.items) }
{
    let mut scratch = Scratch::new(alloc);
    match parsed(alloc, text, &mut scratch)? {
        Some(source) => left_beside(alloc, value, source),
        None => left_of(alloc, value, Written::Unknown),
    }
}

/// Returns what is left of a document that was read from these bytes.
fn left_of_bytes(alloc: Global, value: &Value, bytes: &[u8]) -> Result<Left, AllocError>
    requires { depth (view value.now) ≤ max_depth }
    ensures { IfOk result (λ left. IsLeftOf (document [] (source_in bytes.now) (view value.now)) (option_map (λ v. v.items) left.bytes) left.faults.items) }
{
    match str::from_utf8(bytes) {
        Ok(text) => left_in(alloc, value, text),
        Err(_) => left_of(alloc, value, Written::Unknown),
    }
}

/// Returns a document that was read from these bytes, by what is left of it.
#[tactic(auto, using(crate::proofs::LeftLemmas::becomes_other, crate::proofs::LeftLemmas::stays_same))]
fn of_value(alloc: Global, bytes: Vec<u8>, value: &Value) -> Result<Defaulted, AllocError>
    requires { depth (view value.now) ≤ max_depth }
    ensures { IfOk result (λ r. IsOf (of_json (source_in (without_bom bytes.items)) (Some (view value.now))) bytes.items r.bytes.items r.changed) }
{
    let left = left_of_bytes(alloc, value, without_bom(bytes.as_slice()))?;
    let changed = Seq::of(left.faults);
    match left.bytes {
        Some(bytes) => Ok(Defaulted { bytes, changed }),
        None => Ok(Defaulted { bytes, changed }),
    }
}

/// Returns the bytes of a document in the profile `w3c` without the values that aren't permitted, in which bounds that are numbers but not
/// whole are texts. Lists these values and bounds.
///
/// The bytes stay if there are none. They stay too in the profile `core`, and if they are too long or no JSON. It returns `AllocError` if memory
/// runs out.
#[tactic(auto, using(crate::proofs::DepthLemmas::depth_read))]
pub fn with_defaults(
    alloc: Global,
    bytes: Vec<u8>,
    profile: Profile,
) -> Result<Defaulted, AllocError>
    ensures { IfOk result (λ r. IsDefaulted profile bytes.items r.bytes.items r.changed) }
{
    if profile == Profile::Core || bytes.len() > MAX_DOCUMENT {
        return Ok(unchanged(alloc, bytes));
    }
    match json_of(alloc, without_bom(bytes.as_slice())) {
        Ok(value) => of_value(alloc, bytes, &value),
        Err(Refusal::Memory) => Err(AllocError),
        Err(Refusal::Fault(_)) => Ok(unchanged(alloc, bytes)),
    }
}
