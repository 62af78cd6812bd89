//! The bytes of a document with the objects of its resources.
ghost use Rattle.std.specs.Prelude.{◌≡◌, [], IfOk};
ghost use Rattle.serde_json.specs.View.{view};
ghost use Rattle.csvw_bundle.specs.Bundles.{AreBytesOf, Bundles, Writes, document_base, group};

use crate::named::{Bundle, group};
use crate::resource::Resource;
use csvw_iri::{Base, IriFault};
use csvw_meta::document::MAX_DOCUMENT;
use csvw_meta::json::{json_of, without_bom};
use csvw_meta_core::{Part, Pointer, Refusal, read_context};
use serde_json::Value;
use std::alloc::{AllocError, Global};

/// Returns the base of a document's URLs. It is the document's own URL if the context can't be read.
fn document_base(alloc: Global, own: Base, value: &Value) -> Result<Base, AllocError>
    ensures { IfOk result (λ base. base ≡ document_base own (view value.now)) }
{
    let part = Part {
        alloc,
        at: Pointer::Root,
        value,
    };
    match read_context(&part, &own) {
        Ok(context) => Ok(context.base),
        Err(Refusal::Memory) => Err(AllocError),
        Err(Refusal::Fault(_)) => Ok(own),
    }
}

/// Returns the bytes of a value. They begin with U+FEFF, which readers drop.
fn bytes_of(alloc: Global, value: &Value) -> Result<Vec<u8>, AllocError>
    ensures { IfOk result (λ bytes. AreBytesOf (view value.now) bytes.items) }
{
    let text = value.to_string(alloc)?;
    let mut bytes = Vec::from_slice(alloc, b"\xEF\xBB\xBF")?;
    bytes.extend_from_slice(text.as_str().as_bytes())?;
    Ok(bytes)
}

/// Returns the bytes of a document that was read, in which the objects of the resources take the place of their URLs.
fn written(
    alloc: Global,
    own: Base,
    value: &Value,
    resources: &[Resource],
) -> Result<Vec<u8>, Refusal>
    ensures { Writes (group resources.now (document_base own (view value.now)) [] (view value.now)) result }
{
    let base = document_base(alloc, own, value)?;
    let bundle = Bundle {
        resources,
        base: &base,
    };
    let part = Part {
        alloc,
        at: Pointer::Root,
        value,
    };
    let document = group(bundle, &part)?;
    Ok(bytes_of(alloc, &document)?)
}

/// Returns the bytes of a document at its own URL, in which the objects of the resources take the place of their URLs.
///
/// The document stays as it is if there are no resources, or if it is too long or no JSON. It stays too if its own URL is none. A resource that can't be read is a
/// fault at the property that names it: `TooLong` over 1,048,576 bytes, `NotJson`, `BadContext`, or `BadProperty` if it is no
/// object. It returns `Memory` if memory runs out.
#[tactic(auto, using(crate::proofs::BytesLemmas::bundles))]
pub fn bundle(
    alloc: Global,
    bytes: Vec<u8>,
    base: &str,
    resources: &[Resource],
) -> Result<Vec<u8>, Refusal>
    ensures { Bundles resources.now base.now bytes.items result }
{
    if resources.is_empty() || bytes.len() > MAX_DOCUMENT {
        return Ok(bytes);
    }
    let own = match Base::new(alloc, base) {
        Ok(own) => own,
        Err(IriFault::Memory) => return Err(Refusal::Memory),
        Err(IriFault::UrlTooLong | IriFault::BadUrl) => return Ok(bytes),
    };
    match json_of(alloc, without_bom(bytes.as_slice())) {
        Ok(value) => written(alloc, own, &value, resources),
        Err(Refusal::Memory) => Err(Refusal::Memory),
        Err(Refusal::Fault(_)) => Ok(bytes),
    }
}
