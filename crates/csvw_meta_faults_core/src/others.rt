//! The faults of the properties of an object that the vocabulary doesn't list for it (Metadata Vocabulary for Tabular
//! Data, sections 4.1 and 5.8).
ghost use Rattle.std.specs.Prelude.{◌≡◌, ◌++◌, OnOk};
ghost use Rattle.serde_json.specs.View.{view, members_view};
ghost use Rattle.csvw_fault.specs.declared.fault.Place.{Place as ThePlace};
ghost use Rattle.csvw_meta_core.specs.Listed.{all_names};
ghost use Rattle.csvw_meta_core.specs.Others.{is_among, names_of, judged, other, others_in, others};
ghost use Rattle.csvw_meta_core.specs.Pointer.{text_of};

use crate::finder::{Finder, add_wrong};
use csvw_meta_core::{CommonProperty, Listed, MetaFault, Part};
use csvw_meta_notes::has_colon;
use serde_json::{Map, Value};
use std::alloc::AllocError;

impl<'a> Finder for Listed<'a> {
    fn find(&self, part: &Part, faults: &mut Vec<MetaFault>) -> Result<(), AllocError> {
        find_others(part, self, faults)
    }
}

/// Adds the fault of each common property of an object that does not allow them. The place of the warnings has no effect
/// on the faults. It returns `AllocError` if there is no memory for them.
pub fn find_others(
    part: &Part,
    listed: &Listed,
    faults: &mut Vec<MetaFault>,
) -> Result<(), AllocError>
    ensures { (place : ThePlace) → OnOk result (faults.new.items ≡ faults.old.items
        ++ (others (all_names listed.now) listed.now.common place (text_of part.now.at) (view part.now.value.now)).faults) }
{
    match part.value {
        Value::Object(members) => find_in_others(part, listed, members, faults),
        _ => Ok(()),
    }
}

fn find_in_others(
    part: &Part,
    listed: &Listed,
    members: &Map<String, Value>,
    faults: &mut Vec<MetaFault>,
) -> Result<(), AllocError>
    ensures { (place : ThePlace) → OnOk result (faults.new.items ≡ faults.old.items
        ++ (others_in (all_names listed.now) listed.now.common place (text_of part.now.at) (members_view members.now.entries)).faults) }
{
    for (name, value) in members.iter() {
        find_in_other(part, listed, name.as_str(), value, faults)?;
    }
    Ok(())
}

fn find_in_other(
    part: &Part,
    listed: &Listed,
    name: &str,
    value: &Value,
    faults: &mut Vec<MetaFault>,
) -> Result<(), AllocError>
    ensures { OnOk result (faults.new.items ≡ faults.old.items
        ++ (other (all_names listed.now) listed.now.common (text_of part.now.at) name.now (view value.now)).faults) }
{
    if is_among(listed.names, name) || is_among(listed.shared, name) {
        return Ok(());
    }
    if has_colon(name) {
        return find_common(listed.common, &part.member(name, value), faults);
    }
    Ok(())
}

fn find_common(
    common: CommonProperty,
    property: &Part,
    faults: &mut Vec<MetaFault>,
) -> Result<(), AllocError>
    ensures { OnOk result (faults.new.items ≡ faults.old.items
        ++ (judged common (text_of property.now.at) (view property.now.value.now)).faults) }
{
    match common {
        CommonProperty::Allowed => Ok(()),
        CommonProperty::Refused => add_wrong(property, faults),
    }
}

fn is_among(names: &[&str], name: &str) -> bool
    ensures { result ≡ is_among (names_of names.now) name.now }
{
    for listed in names {
        if *listed == name {
            return true;
        }
    }
    false
}
