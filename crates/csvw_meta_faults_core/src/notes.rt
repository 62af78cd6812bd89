//! The faults of annotations, down the JSON tree (Metadata Vocabulary for Tabular Data, sections 5.8 and 6.2).
ghost use Rattle.std.specs.Prelude.{◌≡◌, ◌++◌, OnOk, Option, List, ℕ, codes};
ghost use Rattle.serde_json.specs.Find.{get};
ghost use Rattle.serde_json.specs.View.{view, items_view, members_view};
ghost use Rattle.csvw_meta_core.specs.Pointer.{text_of};
ghost use Rattle.csvw_meta_notes.specs.Annotations.{described, if_common, noted, all_noted, common};
ghost use Rattle.csvw_meta_notes.specs.Nodes.{node};

use crate::literal::{find_in_node_members, find_literal, find_scalar};
use crate::names::find_name;
use crate::property::{find_optional, find_property};
use csvw_iri::Base;
use csvw_meta_core::{MetaFault, Part, Pointer};
use csvw_meta_notes::{NodeId, TypeNames, has_colon};
use serde_json::{Map, Value};
use std::alloc::{AllocError, Global};

/// What annotations are read with. Their language has no effect on their faults.
#[derive(Clone, Copy)]
pub(crate) struct Scope<'a> {
    /// The allocator for the faults.
    pub(crate) alloc: Global,
    /// The base against which `@id`s are resolved.
    pub(crate) base: &'a Base,
}

/// Adds the faults of the notes of the value at that place. The predicate has no effect on them.
#[cycle(notes)]
fn find_value<'p>(
    scope: &Scope,
    at: &'p Pointer<'p>,
    value: &'p Value,
    faults: &mut Vec<MetaFault>,
) -> Result<(), AllocError>
    ensures { (language : Option (List ℕ)) (key : List ℕ) → OnOk result (faults.new.items ≡ faults.old.items
        ++ (noted scope.now.base.now language key (text_of at.now) (view value.now)).faults) }
{
    let part = Part {
        alloc: scope.alloc,
        at: *at,
        value,
    };
    match value {
        Value::Null => Ok(()),
        Value::Bool(_) => Ok(()),
        Value::Number(_) => find_scalar(&part, faults),
        Value::String(_) => Ok(()),
        Value::Array(items) => find_items(scope, at, items.as_slice(), faults),
        Value::Object(members) => find_object(scope, &part, members, faults),
    }
}

/// Adds the faults of the notes of the items of the array at that place.
#[cycle(notes)]
pub(crate) fn find_items<'p>(
    scope: &Scope,
    at: &'p Pointer<'p>,
    items: &'p [Value],
    faults: &mut Vec<MetaFault>,
) -> Result<(), AllocError>
    ensures { (language : Option (List ℕ)) (key : List ℕ) → OnOk result (faults.new.items ≡ faults.old.items
        ++ (all_noted scope.now.base.now language key (text_of at.now) 0 (items_view items.now)).faults) }
{
    for (i, item) in items.iter().enumerate() {
        find_value(scope, &Pointer::Item(at, i), item, faults)?;
    }
    Ok(())
}

/// Adds the faults of the object that the part is. The object has these members.
#[cycle(notes)]
fn find_object<'p>(
    scope: &Scope,
    part: &'p Part<'p>,
    members: &'p Map<String, Value>,
    faults: &mut Vec<MetaFault>,
) -> Result<(), AllocError>
    ensures { (language : Option (List ℕ)) → OnOk result (faults.new.items ≡ faults.old.items
        ++ (described scope.now.base.now (text_of part.now.at) (view part.now.value.now) (members_view members.now.entries)
        (common scope.now.base.now language (text_of part.now.at) (members_view members.now.entries))
        (get (codes "@value") (view part.now.value.now))).faults) }
{
    match part.value.get("@value") {
        Some(value) => find_literal(part, members, value, faults),
        None => find_node(scope, part, members, faults),
    }
}

#[cycle(notes)]
fn find_node<'p>(
    scope: &Scope,
    part: &'p Part<'p>,
    members: &'p Map<String, Value>,
    faults: &mut Vec<MetaFault>,
) -> Result<(), AllocError>
    ensures { (language : Option (List ℕ)) → OnOk result (faults.new.items ≡ faults.old.items
        ++ (node scope.now.base.now (text_of part.now.at) (view part.now.value.now) (members_view members.now.entries)
        (common scope.now.base.now language (text_of part.now.at) (members_view members.now.entries))).faults) }
{
    find_in_node_members(part, members, faults)?;
    find_optional(part, &NodeId { base: scope.base }, "@id", faults)?;
    find_property(part, &TypeNames, "@type", faults)?;
    find_members(scope, &part.at, members, faults)
}

/// Adds the faults of the common properties among the members of the object at that place.
#[cycle(notes)]
pub(crate) fn find_members<'p>(
    scope: &Scope,
    at: &'p Pointer<'p>,
    members: &'p Map<String, Value>,
    faults: &mut Vec<MetaFault>,
) -> Result<(), AllocError>
    ensures { (language : Option (List ℕ)) → OnOk result (faults.new.items ≡ faults.old.items
        ++ (common scope.now.base.now language (text_of at.now) (members_view members.now.entries)).faults) }
{
    for (name, value) in members.iter() {
        let name = name.as_str();
        find_in_member(scope, name, &Pointer::Member(at, name), value, faults)?;
    }
    Ok(())
}

/// Adds the faults of the property of that name, if it is a common property. Its value is at that place.
#[cycle(notes)]
fn find_in_member<'p>(
    scope: &Scope,
    name: &'p str,
    at: &'p Pointer<'p>,
    value: &'p Value,
    faults: &mut Vec<MetaFault>,
) -> Result<(), AllocError>
    ensures { (language : Option (List ℕ)) → OnOk result (faults.new.items ≡ faults.old.items
        ++ (if_common (text_of at.now) name.now (view value.now)
        (λ key. noted scope.now.base.now language key (text_of at.now) (view value.now))).faults) }
{
    if !has_colon(name) {
        return Ok(());
    }
    let part = Part {
        alloc: scope.alloc,
        at: *at,
        value,
    };
    find_name(&part, name, faults)?;
    find_value(scope, at, value, faults)
}
