//! A file that a document names by its URL, and its object.
ghost use Rattle.std.specs.Prelude.{◌≡◌, IfOk, OnOk, codes};
ghost use Rattle.serde_json.specs.Data.{string, put};
ghost use Rattle.serde_json.specs.View.{view, members_view};
ghost use Rattle.csvw_iri.specs.Link.{iri_of};
ghost use Rattle.csvw_bundle.specs.Absolute.{absolute_members};
ghost use Rattle.csvw_bundle.specs.Resources.{Gives, identified, object_of, of_value, own_base, without};

use crate::absolute::absolute_members;
use csvw_iri::Base;
use csvw_meta::document::MAX_DOCUMENT;
use csvw_meta::json::{json_of, without_bom};
use csvw_meta_core::{MetaCode, Part, Pointer, Refusal, read_context};
use serde_json::{Map, Value, put};
use std::alloc::{AllocError, Global};

/// A file that a document may name by its URL, in place of a schema or a dialect.
#[derive(Debug, Drop)]
pub struct Resource {
    /// The URL.
    pub url: Base,
    /// The bytes of the file.
    pub bytes: Vec<u8>,
}

/// Returns the base of the links of a resource, or `None` if its context can't be read.
fn own_base(alloc: Global, url: &Base, value: &Value) -> Result<Option<Base>, AllocError>
    ensures { IfOk result (λ found. found ≡ own_base url.now (view value.now)) }
{
    if value.get("@context").is_none() {
        return Ok(Some(url.clone(alloc)?));
    }
    let part = Part {
        alloc,
        at: Pointer::Root,
        value,
    };
    match read_context(&part, url) {
        Ok(context) => Ok(Some(context.base)),
        Err(Refusal::Memory) => Err(AllocError),
        Err(Refusal::Fault(_)) => Ok(None),
    }
}

/// Gives an object a URL as its `@id`.
fn identify(alloc: Global, url: &Base, object: &mut Map<String, Value>) -> Result<(), AllocError>
    ensures { OnOk result (members_view object.new.entries ≡ put (codes "@id") (string (iri_of url.now)) (members_view object.old.entries)) }
{
    let id = Value::String(String::from_str(alloc, url.iri().as_str())?);
    put(object, alloc, "@id", id)
}

/// Returns the object of a resource from its members, whose links are relative to a base.
fn own_object(
    alloc: Global,
    url: &Base,
    base: &Base,
    value: &Value,
    members: &Map<String, Value>,
) -> Result<Map<String, Value>, AllocError>
    ensures { IfOk result (λ m. members_view m.entries ≡ identified (iri_of url.now) (view value.now)
        (without (codes "@context") (absolute_members base.now (members_view members.now.entries)))) }
{
    let mut object = absolute_members(alloc, base, members)?;
    drop(object.remove("@context"));
    if value.get("@id").is_none() {
        identify(alloc, url, &mut object)?;
    }
    Ok(object)
}

fn of_value(alloc: Global, url: &Base, value: &Value) -> Result<Map<String, Value>, MetaCode>
    ensures { Gives (of_value url.now (view value.now)) result }
{
    let Value::Object(members) = value else {
        return Err(MetaCode::BadProperty);
    };
    let Ok(base) = own_base(alloc, url, value) else {
        return Err(MetaCode::Memory);
    };
    let Some(base) = base else {
        return Err(MetaCode::BadContext);
    };
    match own_object(alloc, url, &base, value, members) {
        Ok(object) => Ok(object),
        Err(_) => Err(MetaCode::Memory),
    }
}

/// Returns the object of the bytes that a URL has, or the code of why there is none: `TooLong`, `NotJson`, `BadProperty`
/// if they are no object, `BadContext`, or `Memory`.
pub(crate) fn object_of(
    alloc: Global,
    url: &Base,
    bytes: &[u8],
) -> Result<Map<String, Value>, MetaCode>
    ensures { Gives (object_of url.now bytes.now) result }
{
    if bytes.len() > MAX_DOCUMENT {
        return Err(MetaCode::TooLong);
    }
    match json_of(alloc, without_bom(bytes)) {
        Ok(value) => of_value(alloc, url, &value),
        Err(Refusal::Memory) => Err(MetaCode::Memory),
        Err(Refusal::Fault(_)) => Err(MetaCode::NotJson),
    }
}
