//! The faults of common properties of an object that can't have them (Metadata Vocabulary for Tabular Data, section 5.8).
ghost use Rattle.std.specs.Prelude.{◌≡◌, ◌++◌, [], OnOk};
ghost use Rattle.serde_json.specs.View.{view};
ghost use Rattle.csvw_fault.specs.declared.fault.Place.{Place as ThePlace};
ghost use Rattle.csvw_meta_core.specs.Others.{names_of, others};
ghost use Rattle.csvw_meta_core.specs.Pointer.{text_of};
ghost use Rattle.csvw_meta_core.specs.declared.others.CommonProperty.TheVariants.{Refused};

use csvw_meta_core::{CommonProperty, Listed, MetaFault, Part};
use csvw_meta_faults_core::find_others;
use csvw_text::Place;
use std::alloc::AllocError;

/// Adds the faults of the common properties of an object that can't have them. These are the names that are listed for
/// it.
pub fn find_refused(
    names: &[&str],
    part: &Part,
    faults: &mut Vec<MetaFault>,
) -> Result<(), AllocError>
    ensures { (place : ThePlace) → OnOk result (faults.new.items ≡ faults.old.items
        ++ (others (names_of names.now ++ []) Refused place (text_of part.now.at) (view part.now.value.now)).faults) }
{
    let listed = Listed {
        names,
        shared: &[],
        common: CommonProperty::Refused,
        place: Place {
            table: 0,
            row: 0,
            column: 0,
        },
    };
    find_others(part, &listed, faults)
}
