//! The faults of the properties of an object.
ghost use Rattle.std.specs.Prelude.{◌≡◌, ◌++◌, OnOk};
ghost use Rattle.serde_json.specs.View.{view};
ghost use Rattle.csvw_meta_core.specs.Pointer.{text_of};
ghost use Rattle.csvw_meta_core.specs.Read.{property, optional, needed};

use crate::finder::{Finder, add_fault};
use csvw_meta_core::{MetaCode, MetaFault, Part};
use std::alloc::AllocError;

/// Adds the faults of a property of this object. A missing property has none. The default that the definition has in its
/// place has no effect. It returns `AllocError` if there is no memory for the faults.
pub fn find_property<R: Finder>(
    part: &Part,
    reader: &R,
    name: &str,
    faults: &mut Vec<MetaFault>,
) -> Result<(), AllocError>
    ensures { (default : R.Output) → OnOk result (faults.new.items ≡ faults.old.items
        ++ (property (R.reads reader.now) default (text_of part.now.at) (view part.now.value.now) name.now).faults) }
{
    match part.value.get(name) {
        None => Ok(()),
        Some(value) => reader.find(&part.member(name, value), faults),
    }
}

/// Adds the faults of a property of this object. A missing property has none. It returns `AllocError` if there is no
/// memory for the faults.
pub fn find_optional<R: Finder>(
    part: &Part,
    reader: &R,
    name: &str,
    faults: &mut Vec<MetaFault>,
) -> Result<(), AllocError>
    ensures { OnOk result (faults.new.items ≡ faults.old.items
        ++ (optional (R.reads reader.now) (text_of part.now.at) (view part.now.value.now) name.now).faults) }
{
    match part.value.get(name) {
        None => Ok(()),
        Some(value) => reader.find(&part.member(name, value), faults),
    }
}

/// Adds the faults of a property of this object. If the property is missing, the fault is `BadProperty` at the object.
/// It returns `AllocError` if there is no memory for the faults.
pub fn find_needed<R: Finder>(
    part: &Part,
    reader: &R,
    name: &str,
    faults: &mut Vec<MetaFault>,
) -> Result<(), AllocError>
    ensures { (dummy : R.Output) → OnOk result (faults.new.items ≡ faults.old.items
        ++ (needed (R.reads reader.now) dummy (text_of part.now.at) (view part.now.value.now) name.now).faults) }
{
    match part.value.get(name) {
        None => add_fault(part, MetaCode::BadProperty, faults),
        Some(value) => reader.find(&part.member(name, value), faults),
    }
}
