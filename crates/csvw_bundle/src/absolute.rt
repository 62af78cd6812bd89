//! Copies of values whose link properties are resolved against a base.
ghost use Rattle.std.specs.Prelude.{◌≡◌, [], IfOk, string_bytes};
ghost use Rattle.serde_json.specs.View.{view, items_view, members_view};
ghost use Rattle.csvw_bundle.specs.Absolute.{absolute, absolute_items, absolute_members, is_link, link_text, text_at};

use csvw_iri::{Base, IriFault, resolve};
use serde_json::{Map, Value, put};
use std::alloc::{AllocError, Global};

/// Whether a property of this name is a link property.
fn is_link(name: &str) -> bool
    ensures { result ≡ is_link name.now }
{
    matches!(name, "@id" | "resource" | "schemaReference")
}

/// Returns the URL to which a text resolves, or the text if it names a blank node or is no URL.
fn link_text(alloc: Global, base: &Base, text: &str) -> Result<String, AllocError>
    ensures { IfOk result (λ s. string_bytes s ≡ link_text base.now text.now) }
{
    if text.starts_with("_:") {
        return String::from_str(alloc, text);
    }
    match resolve(alloc, base, text) {
        Ok(url) => String::from_str(alloc, url.as_str()),
        Err(IriFault::Memory) => Err(AllocError),
        Err(IriFault::UrlTooLong | IriFault::BadUrl) => String::from_str(alloc, text),
    }
}

/// Returns a text that is the value of a property of this name.
fn text_at(alloc: Global, base: &Base, name: &str, text: &str) -> Result<String, AllocError>
    ensures { IfOk result (λ s. string_bytes s ≡ text_at base.now name.now text.now) }
{
    if is_link(name) {
        link_text(alloc, base, text)
    } else {
        String::from_str(alloc, text)
    }
}

/// Returns the value of a property of this name, with its links resolved.
#[cycle(absolute)]
fn absolute(alloc: Global, base: &Base, name: &str, value: &Value) -> Result<Value, AllocError>
    ensures { IfOk result (λ v. view v ≡ absolute base.now name.now (view value.now)) }
{
    match value {
        Value::Null => Ok(Value::Null),
        Value::Bool(truth) => Ok(Value::Bool(*truth)),
        Value::Number(number) => Ok(Value::Number(*number)),
        Value::String(text) => Ok(Value::String(text_at(alloc, base, name, text.as_str())?)),
        Value::Array(items) => Ok(Value::Array(absolute_items(alloc, base, items)?)),
        Value::Object(members) => Ok(Value::Object(absolute_members(alloc, base, members)?)),
    }
}

#[cycle(absolute)]
fn absolute_items(alloc: Global, base: &Base, items: &Vec<Value>) -> Result<Vec<Value>, AllocError>
    ensures { IfOk result (λ v. items_view v.items ≡ absolute_items base.now (items_view items.now.items)) }
{
    let mut resolved = Vec::new(alloc);
    for item in items {
        resolved.push(absolute(alloc, base, "", item)?)?;
    }
    Ok(resolved)
}

/// Returns the members of an object, with their links resolved. It returns `AllocError` if memory runs out.
#[cycle(absolute)]
pub(crate) fn absolute_members(
    alloc: Global,
    base: &Base,
    members: &Map<String, Value>,
) -> Result<Map<String, Value>, AllocError>
    ensures { IfOk result (λ m. members_view m.entries ≡ absolute_members base.now (members_view members.now.entries)) }
{
    let mut resolved = Map::new(alloc);
    for (name, value) in members.iter() {
        let value = absolute(alloc, base, name.as_str(), value)?;
        put(&mut resolved, alloc, name.as_str(), value)?;
    }
    Ok(resolved)
}
