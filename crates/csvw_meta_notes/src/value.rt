//! The notes of values, down the JSON tree (Metadata Vocabulary for Tabular Data, sections 5.8 and 6.2).
ghost use Rattle.std.specs.Prelude.{◌≡◌, ◌++◌, codes, OnOk};
ghost use Rattle.serde_json.specs.View.{view, items_view, members_view};
ghost use Rattle.serde_json.specs.Find.{get};
ghost use Rattle.csvw_meta_core.specs.Pointer.{text_of};
ghost use Rattle.csvw_meta_core.specs.Read.{under};
ghost use Rattle.csvw_meta_core.specs.Reads.{Reads};
ghost use Rattle.csvw_meta_notes.specs.Adds.{Adds};
ghost use Rattle.csvw_meta_notes.specs.Nodes.{node};
ghost use Rattle.csvw_meta_notes.specs.Annotations.{note, described, if_common, noted, all_noted, common};
ghost use Rattle.csvw_meta_notes.specs.Scalars.{scalar};
ghost use Rattle.csvw_description.specs.declared.note.NoteValue.TheVariants as value;

use crate::literal::read_literal;
use crate::members::{check_node_members, has_colon};
use crate::name::{TypeNames, read_name};
use crate::node::NodeId;
use crate::scalar::read_scalar;
use crate::vocabulary::Vocabulary;
use csvw_description::{Note, NoteObject, NoteValue};
use csvw_iri::{Base, Iri};
use csvw_meta_core::{Part, Pointer, Refusal};
use csvw_text::{LanguageTag, Seq};
use serde_json::{Map, Value};
use std::alloc::{AllocError, Global};

/// The context in which annotations are read.
#[derive(Clone, Copy)]
pub(crate) struct Scope<'a> {
    /// The allocator for what is read.
    pub(crate) alloc: Global,
    /// The base against which `@id`s are resolved.
    pub(crate) base: &'a Base,
    /// The language of texts.
    pub(crate) language: &'a Option<LanguageTag>,
    /// The IRIs that any annotation may use.
    pub(crate) vocabulary: &'a Vocabulary,
}

fn add(alloc: Global, key: &Iri, value: NoteValue, found: &mut Vec<Note>) -> Result<(), AllocError>
    ensures { OnOk result (found.new.items ≡ found.old.items ++ note key.now value) }
{
    let key = key.clone(alloc)?;
    found.push(Note { key, value })?;
    Ok(())
}

fn add_scalar(scope: &Scope, key: &Iri, part: &Part, found: &mut Vec<Note>) -> Result<(), Refusal>
    ensures { Adds result found.old.items found.new.items (under (λ l. note key.now (value.Literal l))
        (scalar scope.now.language.now (text_of part.now.at) (view part.now.value.now))) }
{
    let literal = read_scalar(part, scope.vocabulary, scope.language)?;
    add(part.alloc, key, NoteValue::Literal(literal), found)?;
    Ok(())
}

/// Adds the notes of the value at that place, with this predicate.
#[cycle(value)]
fn add_value<'p>(
    scope: &Scope,
    key: &Iri,
    at: &'p Pointer<'p>,
    value: &'p Value,
    found: &mut Vec<Note>,
) -> Result<(), Refusal>
    ensures { Adds result found.old.items found.new.items
        (noted scope.now.base.now scope.now.language.now key.now (text_of at.now) (view value.now)) }
{
    let part = Part {
        alloc: scope.alloc,
        at: *at,
        value,
    };
    match value {
        Value::Null => Ok(()),
        Value::Bool(_) => add_scalar(scope, key, &part, found),
        Value::Number(_) => add_scalar(scope, key, &part, found),
        Value::String(_) => add_scalar(scope, key, &part, found),
        Value::Array(items) => add_items(scope, key, at, items.as_slice(), found),
        Value::Object(members) => {
            let value = read_object(scope, &part, members)?;
            add(part.alloc, key, value, found)?;
            Ok(())
        }
    }
}

/// Adds the notes of the items of the array at that place, with this predicate.
#[cycle(value)]
pub(crate) fn add_items<'p>(
    scope: &Scope,
    key: &Iri,
    at: &'p Pointer<'p>,
    items: &'p [Value],
    found: &mut Vec<Note>,
) -> Result<(), Refusal>
    ensures { Adds result found.old.items found.new.items
        (all_noted scope.now.base.now scope.now.language.now key.now (text_of at.now) 0 (items_view items.now)) }
{
    for (i, item) in items.iter().enumerate() {
        add_value(scope, key, &Pointer::Item(at, i), item, found)?;
    }
    Ok(())
}

/// Reads the object that the part is. The object has these members.
#[cycle(value)]
fn read_object<'p>(
    scope: &Scope,
    part: &'p Part<'p>,
    members: &'p Map<String, Value>,
) -> Result<NoteValue, Refusal>
    ensures { Reads result (described scope.now.base.now (text_of part.now.at) (view part.now.value.now) (members_view members.now.entries)
        (common scope.now.base.now scope.now.language.now (text_of part.now.at) (members_view members.now.entries))
        (get (codes "@value") (view part.now.value.now))) }
{
    match part.value.get("@value") {
        Some(value) => {
            let literal = read_literal(part, scope.vocabulary, members, value)?;
            Ok(NoteValue::Literal(literal))
        }
        None => Ok(NoteValue::Object(read_node(scope, part, members)?)),
    }
}

#[cycle(value)]
fn read_node<'p>(
    scope: &Scope,
    part: &'p Part<'p>,
    members: &'p Map<String, Value>,
) -> Result<NoteObject, Refusal>
    ensures { Reads result (node scope.now.base.now (text_of part.now.at) (view part.now.value.now) (members_view members.now.entries)
        (common scope.now.base.now scope.now.language.now (text_of part.now.at) (members_view members.now.entries))) }
{
    check_node_members(part, members)?;
    let id = part.optional(&NodeId { base: scope.base }, "@id")?;
    let types = part.property(&TypeNames, Seq::new(part.alloc), "@type")?;
    let mut notes = Vec::new(part.alloc);
    add_members(scope, &part.at, members, &mut notes)?;
    Ok(NoteObject {
        id,
        types,
        notes: Seq::of(notes),
    })
}

/// Adds the notes of the common properties among the members of the object at that place.
#[cycle(value)]
pub(crate) fn add_members<'p>(
    scope: &Scope,
    at: &'p Pointer<'p>,
    members: &'p Map<String, Value>,
    found: &mut Vec<Note>,
) -> Result<(), Refusal>
    ensures { Adds result found.old.items found.new.items
        (common scope.now.base.now scope.now.language.now (text_of at.now) (members_view members.now.entries)) }
{
    for (name, value) in members.iter() {
        let name = name.as_str();
        add_member(scope, name, &Pointer::Member(at, name), value, found)?;
    }
    Ok(())
}

/// Adds the notes of the property of that name, if it is a common property. Its value is at that place.
#[cycle(value)]
#[tactic(auto, using(crate::proofs::ReadLemmas::fails_first))]
fn add_member<'p>(
    scope: &Scope,
    name: &'p str,
    at: &'p Pointer<'p>,
    value: &'p Value,
    found: &mut Vec<Note>,
) -> Result<(), Refusal>
    ensures { Adds result found.old.items found.new.items
        (if_common (text_of at.now) name.now (view value.now)
        (λ key. noted scope.now.base.now scope.now.language.now key (text_of at.now) (view value.now))) }
{
    if !has_colon(name) {
        return Ok(());
    }
    let part = Part {
        alloc: scope.alloc,
        at: *at,
        value,
    };
    let key = read_name(&part, name)?;
    add_value(scope, &key, at, value, found)
}
