//! The faults of foreign keys (Metadata Vocabulary for Tabular Data, section 5.5.2.1).
ghost use Rattle.std.specs.Prelude.{◌≡◌, ◌++◌, OnOk};
ghost use Rattle.serde_json.specs.View.{view};
ghost use Rattle.csvw_fault.specs.declared.fault.Place.{Place as ThePlace};
ghost use Rattle.csvw_meta_core.specs.Pointer.{text_of};
ghost use Rattle.csvw_meta_keys.specs.ForeignKeys.{foreign_key, foreign_key_of};

use crate::column_names::NamesFinder;
use crate::reference::find_reference;
use crate::refused::find_refused;
use csvw_meta_core::{Context, MetaFault, Part};
use csvw_meta_faults_core::{add_wrong, find_needed};
use csvw_meta_keys::foreign_key::FOREIGN_KEY;
use serde_json::Value;
use std::alloc::AllocError;

/// Adds the faults of the foreign key that an object is.
#[tactic(auto, unfolding(csvw_meta_keys::specs::ForeignKeys::foreign_key_of))]
fn find_foreign_key_of(
    context: &Context,
    part: &Part,
    faults: &mut Vec<MetaFault>,
) -> Result<(), AllocError>
    ensures { (place : ThePlace) → OnOk result (faults.new.items ≡ faults.old.items
        ++ (foreign_key_of context.now.profile context.now.base place (text_of part.now.at) (view part.now.value.now)).faults) }
{
    find_refused(&FOREIGN_KEY, part, faults)?;
    find_needed(part, &NamesFinder, "columnReference", faults)?;
    find_reference(context, part, faults)
}

/// Adds the faults of a foreign key.
pub fn find_foreign_key(
    context: &Context,
    part: &Part,
    faults: &mut Vec<MetaFault>,
) -> Result<(), AllocError>
    ensures { (place : ThePlace) → OnOk result (faults.new.items ≡ faults.old.items
        ++ (foreign_key context.now.profile context.now.base place (text_of part.now.at) (view part.now.value.now)).faults) }
{
    match part.value {
        Value::Object(_) => find_foreign_key_of(context, part, faults),
        _ => add_wrong(part, faults),
    }
}
