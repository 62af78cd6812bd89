//! The faults of the context of a document (Metadata Vocabulary for Tabular Data, section 5.2).
ghost use Rattle.std.specs.Prelude.{◌≡◌, ◌++◌, OnOk};
ghost use Rattle.serde_json.specs.View.{view, items_view, members_view};
ghost use Rattle.csvw_meta_core.specs.Pointer.{text_of};
ghost use Rattle.csvw_meta_core.specs.Context.{is_vocabulary, stranger, strangers, context_base, further_context, second_item, other_items};
ghost use Rattle.csvw_meta_core.specs.Context.{context_items, context_value, context};

use crate::finder::{Finder, add_fault, add_wrong_as};
use crate::property::find_optional;
use csvw_iri::{Base, IriFault};
use csvw_meta_core::{Language, MetaCode, MetaFault, Part};
use serde_json::{Map, Value};
use std::alloc::AllocError;

fn is_vocabulary(value: &Value) -> bool
    ensures { result ≡ is_vocabulary (view value.now) }
{
    match value {
        Value::String(text) => text.as_str() == "http://www.w3.org/ns/csvw",
        _ => false,
    }
}

fn find_in_member(
    part: &Part,
    name: &str,
    value: &Value,
    faults: &mut Vec<MetaFault>,
) -> Result<(), AllocError>
    ensures { OnOk result (faults.new.items ≡ faults.old.items ++ (stranger (text_of part.now.at) name.now (view value.now)).faults) }
{
    if matches!(name, "@language" | "@base") {
        return Ok(());
    }
    add_wrong_as(&part.member(name, value), MetaCode::BadContext, faults)
}

fn find_strangers(
    part: &Part,
    members: &Map<String, Value>,
    faults: &mut Vec<MetaFault>,
) -> Result<(), AllocError>
    ensures { OnOk result (faults.new.items ≡ faults.old.items ++ (strangers (text_of part.now.at) (members_view members.now.entries)).faults) }
{
    for (name, value) in members.iter() {
        find_in_member(part, name.as_str(), value, faults)?;
    }
    Ok(())
}

fn find_base(part: &Part, base: &Base, faults: &mut Vec<MetaFault>) -> Result<(), AllocError>
    ensures { OnOk result (faults.new.items ≡ faults.old.items
        ++ (context_base base.now (text_of part.now.at) (view part.now.value.now)).faults) }
{
    let Some(text) = part.value.as_str() else {
        return add_wrong_as(part, MetaCode::BadContext, faults);
    };
    match base.join(part.alloc, text) {
        Ok(_) => Ok(()),
        Err(IriFault::Memory) => Err(AllocError),
        Err(IriFault::UrlTooLong) => add_fault(part, MetaCode::UrlTooLong, faults),
        Err(IriFault::BadUrl) => add_fault(part, MetaCode::BadUrl, faults),
    }
}

#[tactic(auto, unfolding(csvw_meta_core::specs::Context::further_context))]
fn find_further(
    part: &Part,
    base: &Base,
    members: &Map<String, Value>,
    faults: &mut Vec<MetaFault>,
) -> Result<(), AllocError>
    ensures { OnOk result (faults.new.items ≡ faults.old.items
        ++ (further_context base.now (text_of part.now.at) (view part.now.value.now) (members_view members.now.entries)).faults) }
{
    find_strangers(part, members, faults)?;
    let language = Language {
        wrong: MetaCode::BadContext,
    };
    find_optional(part, &language, "@language", faults)?;
    match part.value.get("@base") {
        None => Ok(()),
        Some(value) => find_base(&part.member("@base", value), base, faults),
    }
}

fn find_in_second(
    part: &Part,
    base: &Base,
    second: &Value,
    faults: &mut Vec<MetaFault>,
) -> Result<(), AllocError>
    ensures { OnOk result (faults.new.items ≡ faults.old.items ++ (second_item base.now (text_of part.now.at) (view second.now)).faults) }
{
    match second {
        Value::Object(members) => find_further(&part.item(1, second), base, members, faults),
        _ => add_fault(part, MetaCode::BadContext, faults),
    }
}

fn find_in_others(
    part: &Part,
    base: &Base,
    others: &[Value],
    faults: &mut Vec<MetaFault>,
) -> Result<(), AllocError>
    ensures { OnOk result (faults.new.items ≡ faults.old.items ++ (other_items base.now (text_of part.now.at) (items_view others.now)).faults) }
{
    match others {
        [] => Ok(()),
        [second] => find_in_second(part, base, second, faults),
        _ => add_fault(part, MetaCode::BadContext, faults),
    }
}

fn find_in_items(
    part: &Part,
    base: &Base,
    items: &[Value],
    faults: &mut Vec<MetaFault>,
) -> Result<(), AllocError>
    ensures { OnOk result (faults.new.items ≡ faults.old.items ++ (context_items base.now (text_of part.now.at) (items_view items.now)).faults) }
{
    match items.split_first() {
        Some((first, others)) if is_vocabulary(first) => find_in_others(part, base, others, faults),
        _ => add_fault(part, MetaCode::BadContext, faults),
    }
}

fn find_in_value(part: &Part, base: &Base, faults: &mut Vec<MetaFault>) -> Result<(), AllocError>
    ensures { OnOk result (faults.new.items ≡ faults.old.items
        ++ (context_value base.now (text_of part.now.at) (view part.now.value.now)).faults) }
{
    match part.value {
        Value::Array(items) => find_in_items(part, base, items.as_slice(), faults),
        _ if is_vocabulary(part.value) => Ok(()),
        _ => add_wrong_as(part, MetaCode::BadContext, faults),
    }
}

/// Adds the faults of the context of the document that the part is, at the document's own URL. It returns `AllocError`
/// if there is no memory for them.
pub fn find_context(part: &Part, base: &Base, faults: &mut Vec<MetaFault>) -> Result<(), AllocError>
    ensures { OnOk result (faults.new.items ≡ faults.old.items
        ++ (context base.now (text_of part.now.at) (view part.now.value.now)).faults) }
{
    match part.value.get("@context") {
        None => add_wrong_as(part, MetaCode::BadContext, faults),
        Some(value) => find_in_value(&part.member("@context", value), base, faults),
    }
}
