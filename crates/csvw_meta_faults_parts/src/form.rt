//! The faults of datatypes that objects describe (Metadata Vocabulary for Tabular Data, section 5.11.2).
ghost use Rattle.std.specs.Prelude.{◌≡◌, ◌++◌, OnOk};
ghost use Rattle.serde_json.specs.View.{view};
ghost use Rattle.csvw_fault.specs.declared.fault.Place.{Place as ThePlace};
ghost use Rattle.csvw_meta_core.specs.Pointer.{text_of};
ghost use Rattle.csvw_meta_datatype.specs.Datatypes.{form};

use crate::based::find_based;
use csvw_iri::Base;
use csvw_meta_core::{Fixed, IdReader, MetaFault, Part, Profile};
use csvw_meta_faults_core::{find_optional, find_unlisted};
use std::alloc::AllocError;

/// Adds the faults of the datatype that an object describes. Its `@id` is resolved against the base.
#[tactic(auto, unfolding(csvw_meta_datatype::specs::Datatypes::form))]
pub fn find_form(
    profile: Profile,
    base: &Base,
    part: &Part,
    faults: &mut Vec<MetaFault>,
) -> Result<(), AllocError>
    ensures { (place : ThePlace) → OnOk result (faults.new.items ≡ faults.old.items
        ++ (form profile base.now place (text_of part.now.at) (view part.now.value.now)).faults) }
{
    find_optional(part, &IdReader { base }, "@id", faults)?;
    find_optional(part, &Fixed { text: "Datatype" }, "@type", faults)?;
    find_unlisted(part, base, faults)?;
    find_based(profile, part, faults)
}
