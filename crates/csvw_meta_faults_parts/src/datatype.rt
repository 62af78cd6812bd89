//! The faults of datatypes (Metadata Vocabulary for Tabular Data, section 5.11).
ghost use Rattle.std.specs.Prelude.{◌≡◌, ◌++◌, OnOk, ℕ};
ghost use Rattle.serde_json.specs.View.{view};
ghost use Rattle.csvw_fault.specs.declared.fault.Place.{Place as ThePlace};
ghost use Rattle.csvw_meta_core.specs.Pointer.{text_of};
ghost use Rattle.csvw_meta_datatype.specs.Datatypes.{datatype};
ghost use Rattle.csvw_meta_inherited.specs.Datatype.{given_datatype};

use crate::form::find_form;
use crate::leaf::Leaf;
use csvw_iri::Base;
use csvw_meta_core::{Context, MetaFault, Part, Profile};
use csvw_meta_datatype::base::BaseReader;
use csvw_meta_faults_core::find_sole;
use serde_json::Value;
use std::alloc::AllocError;

/// Adds the faults of a datatype: the name of a built-in one, or an object.
#[tactic(auto, unfolding(csvw_meta_datatype::specs::Datatypes::datatype))]
fn find_datatype_here(
    profile: Profile,
    base: &Base,
    part: &Part,
    faults: &mut Vec<MetaFault>,
) -> Result<(), AllocError>
    ensures { (place : ThePlace) → OnOk result (faults.new.items ≡ faults.old.items
        ++ (datatype profile base.now place (text_of part.now.at) (view part.now.value.now)).faults) }
{
    let name = Leaf {
        reader: BaseReader { profile },
    };
    match part.value {
        Value::Object(_) => find_form(profile, base, part, faults),
        _ => find_sole(part, &name, faults),
    }
}

/// Adds the faults of the property `datatype`.
#[tactic(auto, unfolding(csvw_meta_inherited::specs::Datatype::given_datatype))]
pub fn find_datatype(
    context: &Context,
    part: &Part,
    faults: &mut Vec<MetaFault>,
) -> Result<(), AllocError>
    ensures { (table column : ℕ) → OnOk result (faults.new.items ≡ faults.old.items
        ++ (given_datatype context.now table column (text_of part.now.at) (view part.now.value.now)).faults) }
{
    match part.value.get("datatype") {
        None => Ok(()),
        Some(value) => {
            let datatype = part.member("datatype", value);
            find_datatype_here(context.profile, &context.base, &datatype, faults)
        }
    }
}
