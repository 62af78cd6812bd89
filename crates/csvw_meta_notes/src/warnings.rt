//! The warnings on the annotations of a metadata document (Metadata Vocabulary for Tabular Data, section 4.1).
ghost use Rattle.std.specs.Prelude.{◌≡◌, ◌++◌, IfOk, OnOk, if◌then◌else◌, []};
ghost use Rattle.serde_json.specs.View.{view, items_view, members_view};
ghost use Rattle.csvw_meta_core.specs.Others.{has_colon};
ghost use Rattle.csvw_meta_notes.specs.Warnings.{warned, all_warned, members_warned, unless_ignored, common_warned, annotation_warnings, note_warnings};

use crate::members::{has_at, has_colon};
use csvw_text::{Code, Fault, Kind, Place, Seq};
use serde_json::{Map, Value};
use std::alloc::{AllocError, Global};

#[cycle(warnings)]
fn add_value(place: Place, value: &Value, warnings: &mut Vec<Fault>) -> Result<(), AllocError>
    ensures { OnOk result (warnings.new.items ≡ warnings.old.items ++ warned place (view value.now)) }
{
    match value {
        Value::Array(items) => add_items(place, items.as_slice(), warnings),
        Value::Object(members) => add_members(place, members, warnings),
        Value::Null => Ok(()),
        Value::Bool(_) => Ok(()),
        Value::Number(_) => Ok(()),
        Value::String(_) => Ok(()),
    }
}

#[cycle(warnings)]
fn add_items(place: Place, items: &[Value], warnings: &mut Vec<Fault>) -> Result<(), AllocError>
    ensures { OnOk result (warnings.new.items ≡ warnings.old.items ++ all_warned place (items_view items.now)) }
{
    for item in items {
        add_value(place, item, warnings)?;
    }
    Ok(())
}

#[cycle(warnings)]
fn add_members(
    place: Place,
    members: &Map<String, Value>,
    warnings: &mut Vec<Fault>,
) -> Result<(), AllocError>
    ensures { OnOk result (warnings.new.items ≡ warnings.old.items ++ members_warned place (members_view members.now.entries)) }
{
    for (name, value) in members.iter() {
        add_member(place, name.as_str(), value, warnings)?;
    }
    Ok(())
}

#[cycle(warnings)]
fn add_member(
    place: Place,
    name: &str,
    value: &Value,
    warnings: &mut Vec<Fault>,
) -> Result<(), AllocError>
    ensures { OnOk result (warnings.new.items ≡ warnings.old.items ++ unless_ignored place name.now (warned place (view value.now))) }
{
    if has_colon(name) {
        return add_value(place, value, warnings);
    }
    if !has_at(name) {
        warnings.push(Fault {
            place,
            code: Code::UnknownProperty,
            kind: Kind::Warning,
        })?;
    }
    Ok(())
}

fn add_common(
    place: Place,
    name: &str,
    value: &Value,
    warnings: &mut Vec<Fault>,
) -> Result<(), AllocError>
    ensures { OnOk result (warnings.new.items ≡ warnings.old.items ++ (if has_colon name.now then warned place (view value.now) else [])) }
{
    if has_colon(name) {
        return add_value(place, value, warnings);
    }
    Ok(())
}

fn common_warnings(
    alloc: Global,
    place: Place,
    members: &Map<String, Value>,
) -> Result<Seq<Fault>, AllocError>
    ensures { IfOk result (λ w. w ≡ common_warned place (members_view members.now.entries)) }
{
    let mut warnings = Vec::new(alloc);
    for (name, value) in members.iter() {
        add_common(place, name.as_str(), value, &mut warnings)?;
    }
    Ok(Seq::of(warnings))
}

/// Returns a warning at this place for each property that is ignored inside the common properties of an object. It
/// returns `AllocError` if there is no memory.
pub(crate) fn annotation_warnings(
    alloc: Global,
    place: Place,
    object: &Value,
) -> Result<Seq<Fault>, AllocError>
    ensures { IfOk result (λ w. w ≡ annotation_warnings place (view object.now)) }
{
    match object {
        Value::Object(members) => common_warnings(alloc, place, members),
        _ => Ok(Seq::new(alloc)),
    }
}

/// Returns a warning at this place for each property that is ignored inside the property `notes` of an object. It
/// returns `AllocError` if there is no memory.
pub(crate) fn note_warnings(
    alloc: Global,
    place: Place,
    object: &Value,
) -> Result<Seq<Fault>, AllocError>
    ensures { IfOk result (λ w. w ≡ note_warnings place (view object.now)) }
{
    let mut warnings = Vec::new(alloc);
    if let Some(notes) = object.get("notes") {
        add_value(place, notes, &mut warnings)?;
    }
    Ok(Seq::of(warnings))
}
