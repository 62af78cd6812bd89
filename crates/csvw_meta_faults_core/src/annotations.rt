//! The faults of the annotations of an object: its common properties and its `notes` (Metadata Vocabulary for Tabular
//! Data, section 5.8).
ghost use Rattle.std.specs.Prelude.{◌≡◌, ◌++◌, OnOk, Option, List, ℕ};
ghost use Rattle.serde_json.specs.View.{view};
ghost use Rattle.csvw_fault.specs.declared.fault.Place.{Place as ThePlace};
ghost use Rattle.csvw_meta_core.specs.Pointer.{text_of};
ghost use Rattle.csvw_meta_notes.specs.Annotations.{annotations, note_items, notes};
ghost use Rattle.csvw_meta_notes.specs.Unlisted.{all_notes, unlisted};

use crate::finder::add_wrong;
use crate::notes::{Scope, find_items, find_members};
use csvw_iri::Base;
use csvw_meta_core::{MetaFault, Part};
use serde_json::Value;
use std::alloc::AllocError;

fn find_annotations(part: &Part, base: &Base, faults: &mut Vec<MetaFault>) -> Result<(), AllocError>
    ensures { (language : Option (List ℕ)) → OnOk result (faults.new.items ≡ faults.old.items
        ++ (annotations base.now language (text_of part.now.at) (view part.now.value.now)).faults) }
{
    let scope = Scope {
        alloc: part.alloc,
        base,
    };
    match part.value {
        Value::Object(members) => find_members(&scope, &part.at, members, faults),
        _ => Ok(()),
    }
}

fn find_note_items(part: &Part, base: &Base, faults: &mut Vec<MetaFault>) -> Result<(), AllocError>
    ensures { (language : Option (List ℕ)) → OnOk result (faults.new.items ≡ faults.old.items
        ++ (note_items base.now language (text_of part.now.at) (view part.now.value.now)).faults) }
{
    let scope = Scope {
        alloc: part.alloc,
        base,
    };
    match part.value {
        Value::Array(items) => find_items(&scope, &part.at, items.as_slice(), faults),
        _ => add_wrong(part, faults),
    }
}

fn find_notes(part: &Part, base: &Base, faults: &mut Vec<MetaFault>) -> Result<(), AllocError>
    ensures { (language : Option (List ℕ)) → OnOk result (faults.new.items ≡ faults.old.items
        ++ (notes base.now language (text_of part.now.at) (view part.now.value.now)).faults) }
{
    match part.value.get("notes") {
        None => Ok(()),
        Some(value) => find_note_items(&part.member("notes", value), base, faults),
    }
}

/// Adds the faults of the annotations of a group or a table: those of its common properties in the byte order of their
/// names, then those of its `notes`. The language of the context has no effect on them. It returns `AllocError` if there
/// is no memory for them.
#[tactic(auto, unfolding(csvw_meta_notes::specs::Unlisted::all_notes))]
pub fn find_all_notes(
    part: &Part,
    base: &Base,
    faults: &mut Vec<MetaFault>,
) -> Result<(), AllocError>
    ensures { (language : Option (List ℕ)) → OnOk result (faults.new.items ≡ faults.old.items
        ++ (all_notes base.now language (text_of part.now.at) (view part.now.value.now)).faults) }
{
    find_annotations(part, base, faults)?;
    find_notes(part, base, faults)
}

/// Adds the faults of the common properties of an object whose annotations are not kept, in the byte order of their
/// names. The language of the context, and the names and the place of its warnings, have no effect on them. It returns
/// `AllocError` if there is no memory for them.
pub fn find_unlisted(
    part: &Part,
    base: &Base,
    faults: &mut Vec<MetaFault>,
) -> Result<(), AllocError>
    ensures { (language : Option (List ℕ)) (names : List (List ℕ)) (place : ThePlace) → OnOk result (faults.new.items ≡ faults.old.items
        ++ (unlisted base.now language names place (text_of part.now.at) (view part.now.value.now)).faults) }
{
    find_annotations(part, base, faults)
}
