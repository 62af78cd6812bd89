//! The faults of the bounds of a datatype (Metadata Vocabulary for Tabular Data, section 5.11.2).
ghost use Rattle.std.specs.Prelude.{◌≡◌, ◌++◌, IfOk, OnOk, None};
ghost use Rattle.serde_json.specs.View.{view};
ghost use Rattle.csvw_meta_core.specs.Pointer.{text_of};
ghost use Rattle.csvw_meta_datatype.specs.Bounds.{bounds};
ghost use Rattle.csvw_meta_faults_parts.specs.Leaves.{bound_has_one, bound_stands_in};

use crate::leaf::{Leaf, OneFault, Replaced};
use csvw_datatype::{Simple, Value};
use csvw_meta_core::{MetaFault, Part};
use csvw_meta_datatype::bounds::{BoundReader, Bounds};
use csvw_meta_faults_core::{find_property, property_value};
use std::alloc::AllocError;

impl OneFault for BoundReader {
    ghost at_most_one = { λ r. bound_has_one r.simple };
}

impl Replaced for BoundReader {
    ghost dummy = { λ _. None };

    fn replacement(&self) -> Option<Value> {
        None
    }

    ghost is_replaced = { λ r. bound_stands_in r.simple };
}

/// Adds the faults of the bounds of a datatype of this type.
#[tactic(auto, unfolding(csvw_meta_datatype::specs::Bounds::bounds))]
pub fn find_bounds(
    simple: Simple,
    part: &Part,
    faults: &mut Vec<MetaFault>,
) -> Result<(), AllocError>
    ensures { OnOk result (faults.new.items ≡ faults.old.items ++ (bounds simple (text_of part.now.at) (view part.now.value.now)).faults) }
{
    let bound = Leaf {
        reader: BoundReader { simple },
    };
    find_property(part, &bound, "minimum", faults)?;
    find_property(part, &bound, "minInclusive", faults)?;
    find_property(part, &bound, "minExclusive", faults)?;
    find_property(part, &bound, "maximum", faults)?;
    find_property(part, &bound, "maxInclusive", faults)?;
    find_property(part, &bound, "maxExclusive", faults)
}

/// Returns the bounds that can be read.
#[tactic(auto, unfolding(csvw_meta_datatype::specs::Bounds::bounds))]
pub fn bounds_seen(simple: Simple, part: &Part) -> Result<Bounds, AllocError>
    ensures { IfOk result (λ b. b ≡ (bounds simple (text_of part.now.at) (view part.now.value.now)).value) }
{
    let reader = Leaf {
        reader: BoundReader { simple },
    };
    let minimum = property_value(part, &reader, "minimum")?;
    let min_inclusive = property_value(part, &reader, "minInclusive")?;
    let min_exclusive = property_value(part, &reader, "minExclusive")?;
    let maximum = property_value(part, &reader, "maximum")?;
    let max_inclusive = property_value(part, &reader, "maxInclusive")?;
    let max_exclusive = property_value(part, &reader, "maxExclusive")?;
    Ok(Bounds {
        minimum,
        min_inclusive,
        min_exclusive,
        maximum,
        max_inclusive,
        max_exclusive,
    })
}
