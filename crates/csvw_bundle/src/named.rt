//! Groups and tables, in which the objects of resources take the place of their URLs.
ghost use Rattle.std.specs.Prelude.{◌≡◌, MatchResult, Some, option_copied};
ghost use Rattle.serde_json.specs.Data.{string};
ghost use Rattle.serde_json.specs.View.{view, items_view};
ghost use Rattle.csvw_iri.specs.Link.{base_of};
ghost use Rattle.csvw_meta_core.specs.Pointer.{text_of};
ghost use Rattle.csvw_meta_core.specs.Read.{fine};
ghost use Rattle.csvw_meta_core.specs.Reads.{Fails};
ghost use Rattle.csvw_bundle.specs.Members.{ReadsAs};
ghost use Rattle.csvw_bundle.specs.Bundles.{find, group, may_be_named, named, of_url, table, table_items, tables};

use crate::members::{MemberReader, each_member};
use crate::resource::{Resource, object_of};
use csvw_iri::{Base, IriFault};
use csvw_meta_core::{MetaCode, Part, Refusal};
use serde_json::Value;
use std::alloc::Global;

/// What the parts of a document are bundled with.
#[derive(Clone, Copy)]
pub(crate) struct Bundle<'a> {
    /// The resources.
    pub(crate) resources: &'a [Resource],
    /// The base of the document's URLs.
    pub(crate) base: &'a Base,
}

/// Returns the first resource of a URL.
fn find<'a>(resources: &'a [Resource], url: &Base) -> Option<&'a Resource>
    ensures { option_copied result ≡ find resources.now url.now }
{
    for resource in resources {
        if resource.url.iri().as_str() == url.iri().as_str() {
            return Some(resource);
        }
    }
    None
}

/// Returns a text as a value.
fn text_value(alloc: Global, text: &str) -> Result<Value, Refusal>
    ensures { MatchResult result (λ v. view v ≡ string text.now) (λ e. e ≡ Refusal.Memory) }
{
    Ok(Value::String(String::from_str(alloc, text)?))
}

/// Returns the object of the resource that a text names. A text that names none stays.
fn of_text(bundle: Bundle<'_>, part: &Part, text: &str) -> Result<Value, Refusal>
    ensures { ReadsAs result (of_url bundle.entry.resources.now (text_of part.now.at) text.now (base_of (Some bundle.entry.base.now) text.now)) }
{
    let url = match bundle.base.join(part.alloc, text) {
        Ok(url) => url,
        Err(IriFault::Memory) => return Err(Refusal::Memory),
        Err(IriFault::UrlTooLong | IriFault::BadUrl) => return text_value(part.alloc, text),
    };
    let Some(resource) = find(bundle.resources, &url) else {
        return text_value(part.alloc, text);
    };
    match object_of(part.alloc, &url, resource.bytes.as_slice()) {
        Ok(object) => Ok(Value::Object(object)),
        Err(MetaCode::Memory) => Err(Refusal::Memory),
        Err(code) => Err(part.refused(code)),
    }
}

/// Returns the value of a property that may be a URL in place of an object.
fn named(bundle: Bundle<'_>, part: &Part) -> Result<Value, Refusal>
    ensures { ReadsAs result (named bundle.entry.resources.now bundle.entry.base.now (text_of part.now.at) (view part.now.value.now)) }
{
    match part.value {
        Value::String(text) => of_text(bundle, part, text.as_str()),
        _ => Ok(part.value.clone()?),
    }
}

/// Whether the property of a table of this name may be a URL in place of an object.
fn may_be_named(name: &str) -> bool
    ensures { result ≡ may_be_named name.now }
{
    matches!(name, "tableSchema" | "dialect")
}

/// Reads the properties of a table.
#[derive(Drop)]
struct TableMembers<'a> {
    /// What the document is bundled with.
    bundle: Bundle<'a>,
    /// The table.
    part: &'a Part<'a>,
}

impl<'a> MemberReader for TableMembers<'a> {
    ghost use Rattle.csvw_meta_core.specs.Pointer.{text_of};
    ghost use Rattle.csvw_bundle.specs.Bundles.{table_member};

    ghost reads = { λ r. table_member r.bundle.resources.now r.bundle.base.now (text_of r.part.now.at) };

    fn read(&self, name: &str, value: &Value) -> Result<Value, Refusal> {
        if may_be_named(name) {
            return named(self.bundle, &self.part.member(name, value));
        }
        Ok(value.clone()?)
    }
}

/// Reads a table of a group.
fn table(bundle: Bundle<'_>, part: &Part) -> Result<Value, Refusal>
    ensures { ReadsAs result (table bundle.entry.resources.now bundle.entry.base.now (text_of part.now.at) (view part.now.value.now)) }
{
    match part.value {
        Value::Object(members) => Ok(Value::Object(each_member(
            part.alloc,
            &TableMembers { bundle, part },
            members,
        )?)),
        _ => Ok(part.value.clone()?),
    }
}

/// Reads the tables of a group.
fn table_items(bundle: Bundle<'_>, part: &Part, items: &[Value]) -> Result<Vec<Value>, Refusal>
    ensures { MatchResult result (λ v. table_items bundle.entry.resources.now bundle.entry.base.now (text_of part.now.at) 0 (items_view items.now) ≡ fine (items_view v.items))
        (λ e. Fails e (table_items bundle.entry.resources.now bundle.entry.base.now (text_of part.now.at) 0 (items_view items.now)).faults) }
{
    let mut read = Vec::new(part.alloc);
    for (i, item) in items.iter().enumerate() {
        read.push(table(bundle, &part.item(i, item))?)?;
    }
    Ok(read)
}

/// Reads the value of `tables`.
fn tables(bundle: Bundle<'_>, part: &Part) -> Result<Value, Refusal>
    ensures { ReadsAs result (tables bundle.entry.resources.now bundle.entry.base.now (text_of part.now.at) (view part.now.value.now)) }
{
    match part.value {
        Value::Array(items) => Ok(Value::Array(table_items(bundle, part, items.as_slice())?)),
        _ => Ok(part.value.clone()?),
    }
}

/// Reads the properties of a group, or of a table that is the document.
#[derive(Drop)]
struct GroupMembers<'a> {
    /// What the document is bundled with.
    bundle: Bundle<'a>,
    /// The document.
    part: &'a Part<'a>,
}

impl<'a> MemberReader for GroupMembers<'a> {
    ghost use Rattle.csvw_meta_core.specs.Pointer.{text_of};
    ghost use Rattle.csvw_bundle.specs.Bundles.{group_member};

    ghost reads = { λ r. group_member r.bundle.resources.now r.bundle.base.now (text_of r.part.now.at) };

    fn read(&self, name: &str, value: &Value) -> Result<Value, Refusal> {
        if name == "tables" {
            return tables(self.bundle, &self.part.member(name, value));
        }
        let table = TableMembers {
            bundle: self.bundle,
            part: self.part,
        };
        table.read(name, value)
    }
}

/// Returns the document with the objects of the resources in place of their URLs. A value that is no object stays.
pub(crate) fn group(bundle: Bundle<'_>, part: &Part) -> Result<Value, Refusal>
    ensures { ReadsAs result (group bundle.entry.resources.now bundle.entry.base.now (text_of part.now.at) (view part.now.value.now)) }
{
    match part.value {
        Value::Object(members) => Ok(Value::Object(each_member(
            part.alloc,
            &GroupMembers { bundle, part },
            members,
        )?)),
        _ => Ok(part.value.clone()?),
    }
}
