//! The faults of the lengths of a datatype (Metadata Vocabulary for Tabular Data, section 5.11.2).
ghost use Rattle.std.specs.Prelude.{◌≡◌, ◌++◌, IfOk, OnOk, None};
ghost use Rattle.serde_json.specs.View.{view};
ghost use Rattle.csvw_meta_core.specs.Pointer.{text_of};
ghost use Rattle.csvw_meta_datatype.specs.Lengths.{lengths};
ghost use Rattle.csvw_meta_faults_parts.specs.Leaves.{length_has_one, length_stands_in};

use crate::leaf::{Leaf, OneFault, Replaced};
use csvw_datatype::Simple;
use csvw_meta_core::{MetaFault, Part};
use csvw_meta_datatype::lengths::{LengthReader, Lengths};
use csvw_meta_faults_core::{find_property, property_value};
use std::alloc::AllocError;

impl OneFault for LengthReader {
    ghost at_most_one = { λ r. length_has_one r.simple };
}

impl Replaced for LengthReader {
    ghost dummy = { λ _. None };

    fn replacement(&self) -> Option<u64> {
        None
    }

    ghost is_replaced = { λ r. length_stands_in r.simple };
}

/// Adds the faults of the lengths of a datatype of this type.
#[tactic(auto, unfolding(csvw_meta_datatype::specs::Lengths::lengths))]
pub fn find_lengths(
    simple: Simple,
    part: &Part,
    faults: &mut Vec<MetaFault>,
) -> Result<(), AllocError>
    ensures { OnOk result (faults.new.items ≡ faults.old.items ++ (lengths simple (text_of part.now.at) (view part.now.value.now)).faults) }
{
    let length = Leaf {
        reader: LengthReader { simple },
    };
    find_property(part, &length, "length", faults)?;
    find_property(part, &length, "minLength", faults)?;
    find_property(part, &length, "maxLength", faults)
}

/// Returns the lengths that can be read.
#[tactic(auto, unfolding(csvw_meta_datatype::specs::Lengths::lengths))]
pub fn lengths_seen(simple: Simple, part: &Part) -> Result<Lengths, AllocError>
    ensures { IfOk result (λ l. l ≡ (lengths simple (text_of part.now.at) (view part.now.value.now)).value) }
{
    let reader = Leaf {
        reader: LengthReader { simple },
    };
    let length = property_value(part, &reader, "length")?;
    let min_length = property_value(part, &reader, "minLength")?;
    let max_length = property_value(part, &reader, "maxLength")?;
    Ok(Lengths {
        length,
        min_length,
        max_length,
    })
}
