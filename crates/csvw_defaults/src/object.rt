//! Objects, each member of which is judged by its name (Metadata Vocabulary for Tabular Data, section 5.1.5).
ghost use Rattle.json.specs.Json.{Json};
ghost use Rattle.std.specs.Prelude.{◌≡◌, ◌++◌, [], List, ℕ, Option, IfOk, OnOk, codes, map, option_map, string_bytes};
ghost use Rattle.serde_json.specs.Data.{Data, null, object, no_members, put};
ghost use Rattle.serde_json.specs.View.{view, members_view};
ghost use Rattle.csvw_meta_core.specs.Pointer.{below, text_of};
ghost use Rattle.csvw_defaults.specs.Sources.{source_of};
ghost use Rattle.csvw_defaults.specs.Ignored.{object_item, object_property, text_or_object};
ghost use Rattle.csvw_defaults.specs.Judged.{Judged, replaced};
ghost use Rattle.csvw_defaults.specs.Keeping.{IsLeft, put_kept};
ghost use Rattle.csvw_defaults.specs.Parts.{and_name, ignored_names, kept_members, left_of, member_faults, object_of, warning_name, with_warnings};

use crate::kept::{Kept, add_fault, ignore, keep};
use crate::node::Node;
use csvw_meta_core::{MetaCode, MetaFault};
use serde_json::{Map, Value, put};
use std::alloc::{AllocError, Global};

/// The rules of an object's properties. The ghost member `rule` defines them, by the name, the place and the value.
pub(crate) trait Properties {
    ghost rule: { Self → List ℕ → List ℕ → Option Json → Data → Judged };

    /// Returns what is left of the value of a property, and adds the values in it that are ignored. Fails with `AllocError` if
    /// memory runs out.
    fn judge(
        &self,
        name: &str,
        node: &Node,
        faults: &mut Vec<MetaFault>,
    ) -> Result<Kept, AllocError>
        ensures faults { OnOk result (faults.new.items ≡ faults.old.items
            ++ (rule self.now name.now (text_of node.now.part.at) (source_of node.now.source) (view node.now.part.value.now)).faults) }
        ensures left { IfOk result (IsLeft (rule self.now name.now (text_of node.now.part.at) (source_of node.now.source) (view node.now.part.value.now))) };
}

/// What is left of the members of an object.
#[derive(Drop)]
pub(crate) struct KeptMembers<'a> {
    /// The members that are left.
    pub(crate) members: Map<String, Value>,
    /// The names of the members that are warned of.
    pub(crate) ignored: Vec<&'a str>,
}

/// Adds a name, if it is warned of.
fn push_if<'a>(
    ignored: &mut Vec<&'a str>,
    is_ignored: bool,
    name: &'a str,
) -> Result<(), AllocError>
    ensures { OnOk result (map (λ name. name.now) ignored.new.items ≡ map (λ name. name.now) ignored.old.items ++ and_name is_ignored name.now []) }
{
    if is_ignored {
        ignored.push(name)?;
    }
    Ok(())
}

/// Puts a member that is left, if there is one.
fn put_kept(
    left: &mut Map<String, Value>,
    alloc: Global,
    name: &str,
    value: Option<Value>,
) -> Result<(), AllocError>
    ensures { OnOk result (members_view left.new.entries ≡ put_kept name.now (option_map view value) (members_view left.old.entries)) }
{
    match value {
        Some(value) => put(left, alloc, name, value),
        None => Ok(()),
    }
}

/// Returns what is left of the members of an object at a place, and adds the values in them that are ignored.
pub(crate) fn judge_members<'a, 's, 't, P: Properties>(
    properties: &P,
    node: &'a Node<'a, 's, 't>,
    members: &'a Map<String, Value>,
    faults: &mut Vec<MetaFault>,
) -> Result<KeptMembers<'a>, AllocError>
    ensures faults { OnOk result (faults.new.items ≡ faults.old.items
        ++ member_faults (P.rule properties.now) (text_of node.now.part.at) (source_of node.now.source) (members_view members.now.entries)) }
    ensures members { IfOk result (λ kept. members_view kept.members.entries
        ≡ kept_members (P.rule properties.now) (text_of node.now.part.at) (source_of node.now.source) (members_view members.now.entries)) }
    ensures ignored { IfOk result (λ kept. map (λ name. name.now) kept.ignored.items
        ≡ ignored_names (P.rule properties.now) (text_of node.now.part.at) (source_of node.now.source) (members_view members.now.entries)) }
{
    let mut left = Map::new(node.part.alloc);
    let mut ignored = Vec::new(node.part.alloc);
    for (name, value) in members.iter() {
        let name = name.as_str();
        let kept = properties.judge(name, &node.member(name, value), faults)?;
        push_if(&mut ignored, kept.is_ignored, name)?;
        put_kept(&mut left, node.part.alloc, name, kept.value)?;
    }
    Ok(KeptMembers {
        members: left,
        ignored,
    })
}

/// Returns the name of a member of which readers warn.
fn warning_name(alloc: Global, name: &str) -> Result<String, AllocError>
    ensures { IfOk result (λ s. string_bytes s ≡ warning_name name.now) }
{
    let mut warning = String::from_str(alloc, name)?;
    warning.push_str(" is ignored")?;
    Ok(warning)
}

/// Adds a member to warn of each of these names.
fn add_warnings(
    alloc: Global,
    names: &[&str],
    members: &mut Map<String, Value>,
) -> Result<(), AllocError>
    ensures { OnOk result (members_view members.new.entries ≡ with_warnings (map (λ name. name.now) names.now) (members_view members.old.entries)) }
{
    for name in names {
        let warning = warning_name(alloc, name)?;
        put(members, alloc, warning.as_str(), Value::Null)?;
    }
    Ok(())
}

/// Returns what is left of the members of an object with those to warn of, and adds the values in it that are ignored.
pub(crate) fn left_of<P: Properties>(
    properties: &P,
    node: &Node,
    members: &Map<String, Value>,
    faults: &mut Vec<MetaFault>,
) -> Result<Map<String, Value>, AllocError>
    ensures faults { OnOk result (faults.new.items ≡ faults.old.items
        ++ member_faults (P.rule properties.now) (text_of node.now.part.at) (source_of node.now.source) (members_view members.now.entries)) }
    ensures members { IfOk result (λ left. members_view left.entries
        ≡ left_of (P.rule properties.now) (text_of node.now.part.at) (source_of node.now.source) (members_view members.now.entries)) }
{
    let KeptMembers {
        mut members,
        ignored,
    } = judge_members(properties, node, members, faults)?;
    add_warnings(node.part.alloc, ignored.as_slice(), &mut members)?;
    Ok(members)
}

/// Returns what is left of an object, and adds the values in it that are ignored.
pub(crate) fn judge_object<P: Properties>(
    properties: &P,
    node: &Node,
    members: &Map<String, Value>,
    faults: &mut Vec<MetaFault>,
) -> Result<Kept, AllocError>
    ensures faults { OnOk result (faults.new.items ≡ faults.old.items
        ++ (object_of (P.rule properties.now) (text_of node.now.part.at) (source_of node.now.source) (members_view members.now.entries)).faults) }
    ensures left { IfOk result (IsLeft (object_of (P.rule properties.now)
        (text_of node.now.part.at) (source_of node.now.source) (members_view members.now.entries))) }
{
    let left = left_of(properties, node, members, faults)?;
    Ok(Kept {
        value: Some(Value::Object(left)),
        is_ignored: false,
    })
}

/// Judges a value that may be an object or a text.
pub(crate) fn text_or_object<P: Properties>(
    properties: &P,
    node: &Node,
    faults: &mut Vec<MetaFault>,
) -> Result<Kept, AllocError>
    ensures faults { OnOk result (faults.new.items ≡ faults.old.items
        ++ (text_or_object (P.rule properties.now) (text_of node.now.part.at) (source_of node.now.source) (view node.now.part.value.now)).faults) }
    ensures left { IfOk result (IsLeft (text_or_object (P.rule properties.now)
        (text_of node.now.part.at) (source_of node.now.source) (view node.now.part.value.now))) }
{
    match node.part.value {
        Value::Object(members) => judge_object(properties, node, members, faults),
        Value::String(_) => keep(node.part.value),
        _ => ignore(node, faults),
    }
}

/// Judges an item that may be an object.
pub(crate) fn object_item<P: Properties>(
    properties: &P,
    node: &Node,
    faults: &mut Vec<MetaFault>,
) -> Result<Kept, AllocError>
    ensures faults { OnOk result (faults.new.items ≡ faults.old.items
        ++ (object_item (P.rule properties.now) (text_of node.now.part.at) (source_of node.now.source) (view node.now.part.value.now)).faults) }
    ensures left { IfOk result (IsLeft (object_item (P.rule properties.now)
        (text_of node.now.part.at) (source_of node.now.source) (view node.now.part.value.now))) }
{
    match node.part.value {
        Value::Object(members) => judge_object(properties, node, members, faults),
        _ => ignore(node, faults),
    }
}

/// Ignores a value, which counts as an object without properties.
fn replace(node: &Node, faults: &mut Vec<MetaFault>) -> Result<Kept, AllocError>
    ensures faults { OnOk result (faults.new.items ≡ faults.old.items ++ (replaced (text_of node.now.part.at) (object no_members)).faults) }
    ensures left { IfOk result (IsLeft (replaced (text_of node.now.part.at) (object no_members))) }
{
    add_fault(MetaCode::BadProperty, node, faults)?;
    Ok(Kept {
        value: Some(Value::Object(Map::new(node.part.alloc))),
        is_ignored: true,
    })
}

/// Judges the value of an object property. It may be an object, or the URL of one.
pub(crate) fn object_property<P: Properties>(
    properties: &P,
    node: &Node,
    faults: &mut Vec<MetaFault>,
) -> Result<Kept, AllocError>
    ensures faults { OnOk result (faults.new.items ≡ faults.old.items
        ++ (object_property (P.rule properties.now) (text_of node.now.part.at) (source_of node.now.source) (view node.now.part.value.now)).faults) }
    ensures left { IfOk result (IsLeft (object_property (P.rule properties.now)
        (text_of node.now.part.at) (source_of node.now.source) (view node.now.part.value.now))) }
{
    match node.part.value {
        Value::Object(members) => judge_object(properties, node, members, faults),
        Value::String(_) => keep(node.part.value),
        _ => replace(node, faults),
    }
}
