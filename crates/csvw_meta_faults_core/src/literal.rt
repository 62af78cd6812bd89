//! The faults of literals and of the members of objects in annotations (Metadata Vocabulary for Tabular Data, section
//! 6.2).
ghost use Rattle.std.specs.Prelude.{◌≡◌, ◌++◌, OnOk, Option, List, ℕ, codes};
ghost use Rattle.serde_json.specs.Find.{get};
ghost use Rattle.serde_json.specs.View.{view, members_view};
ghost use Rattle.csvw_meta_core.specs.Pointer.{text_of};
ghost use Rattle.csvw_meta_notes.specs.Literals.{one_of, for_text, literal};
ghost use Rattle.csvw_meta_notes.specs.Members.{literal_member, node_member, each_member};
ghost use Rattle.csvw_meta_notes.specs.Scalars.{scalar};

use crate::finder::{add_fault, add_wrong};
use crate::property::find_optional;
use crate::sole::add_only;
use csvw_meta_core::{Language, MetaCode, MetaFault, Part};
use csvw_meta_notes::{
    TypeName, check_for_text, check_literal_member, check_node_member, check_one,
};
use serde_json::{Map, Value};
use std::alloc::AllocError;

fn find_in_literal_member(
    part: &Part,
    name: &str,
    value: &Value,
    faults: &mut Vec<MetaFault>,
) -> Result<(), AllocError>
    ensures { OnOk result (faults.new.items ≡ faults.old.items
        ++ (literal_member (text_of part.now.at) name.now (view value.now)).faults) }
{
    add_only(check_literal_member(part, name, value), faults)
}

fn find_in_literal_members(
    part: &Part,
    members: &Map<String, Value>,
    faults: &mut Vec<MetaFault>,
) -> Result<(), AllocError>
    ensures { OnOk result (faults.new.items ≡ faults.old.items
        ++ (each_member literal_member (text_of part.now.at) (members_view members.now.entries)).faults) }
{
    for (name, value) in members.iter() {
        find_in_literal_member(part, name.as_str(), value, faults)?;
    }
    Ok(())
}

fn find_in_node_member(
    part: &Part,
    name: &str,
    value: &Value,
    faults: &mut Vec<MetaFault>,
) -> Result<(), AllocError>
    ensures { OnOk result (faults.new.items ≡ faults.old.items
        ++ (node_member (text_of part.now.at) name.now (view value.now)).faults) }
{
    add_only(check_node_member(part, name, value), faults)
}

/// Adds the faults of the members of a node that are none of its own.
pub(crate) fn find_in_node_members(
    part: &Part,
    members: &Map<String, Value>,
    faults: &mut Vec<MetaFault>,
) -> Result<(), AllocError>
    ensures { OnOk result (faults.new.items ≡ faults.old.items
        ++ (each_member node_member (text_of part.now.at) (members_view members.now.entries)).faults) }
{
    for (name, value) in members.iter() {
        find_in_node_member(part, name.as_str(), value, faults)?;
    }
    Ok(())
}

/// Adds the fault of a literal that is a text, a number or a boolean. The language has no effect on it.
pub(crate) fn find_scalar(part: &Part, faults: &mut Vec<MetaFault>) -> Result<(), AllocError>
    ensures { (language : Option (List ℕ)) → OnOk result (faults.new.items ≡ faults.old.items
        ++ (scalar language (text_of part.now.at) (view part.now.value.now)).faults) }
{
    match part.value {
        Value::Bool(_) => Ok(()),
        Value::Number(number) if number.is_f64() => {
            add_fault(part, MetaCode::NotSupported, faults)
        }
        Value::Number(_) => Ok(()),
        Value::String(_) => Ok(()),
        _ => add_wrong(part, faults),
    }
}

fn find_one(part: &Part, faults: &mut Vec<MetaFault>) -> Result<(), AllocError>
    ensures { OnOk result (faults.new.items ≡ faults.old.items
        ++ (one_of (text_of part.now.at) (get (codes "@language") (view part.now.value.now)) (get (codes "@type") (view part.now.value.now))).faults) }
{
    add_only(check_one(part), faults)
}

fn find_for_text(part: &Part, value: &Value, faults: &mut Vec<MetaFault>) -> Result<(), AllocError>
    ensures { OnOk result (faults.new.items ≡ faults.old.items
        ++ (for_text (text_of part.now.at) (view value.now) (get (codes "@language") (view part.now.value.now))).faults) }
{
    add_only(check_for_text(part, value), faults)
}

/// Adds the faults of the literal of the object that the part is. The object has these members and that `@value`.
#[tactic(auto, unfolding(csvw_meta_notes::specs::Literals::literal))]
pub(crate) fn find_literal(
    part: &Part,
    members: &Map<String, Value>,
    value: &Value,
    faults: &mut Vec<MetaFault>,
) -> Result<(), AllocError>
    ensures { OnOk result (faults.new.items ≡ faults.old.items
        ++ (literal (text_of part.now.at) (view part.now.value.now) (members_view members.now.entries) (view value.now)).faults) }
{
    find_in_literal_members(part, members, faults)?;
    find_one(part, faults)?;
    find_for_text(part, value, faults)?;
    find_scalar(&part.member("@value", value), faults)?;
    let tag = Language {
        wrong: MetaCode::BadProperty,
    };
    find_optional(part, &tag, "@language", faults)?;
    find_optional(part, &TypeName, "@type", faults)
}
