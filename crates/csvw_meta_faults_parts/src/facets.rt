//! The faults of facets (Metadata Vocabulary for Tabular Data, section 5.11.2).
ghost use Rattle.std.specs.Prelude.{◌≡◌, ◌++◌, IfOk, OnOk};
ghost use Rattle.serde_json.specs.View.{view};
ghost use Rattle.csvw_meta_core.specs.Pointer.{text_of};
ghost use Rattle.csvw_meta_datatype.specs.Facets.{each_facet, facets};

use crate::bounds::{bounds_seen, find_bounds};
use crate::lengths::{find_lengths, lengths_seen};
use csvw_datatype::{Facets, Simple};
use csvw_meta_core::{MetaCode, MetaFault, Part};
use csvw_meta_faults_core::add_fault;
use std::alloc::AllocError;

/// Adds the faults of each facet by itself.
#[tactic(auto, unfolding(csvw_meta_datatype::specs::Facets::each_facet))]
fn find_each_facet(
    simple: Simple,
    part: &Part,
    faults: &mut Vec<MetaFault>,
) -> Result<(), AllocError>
    ensures { OnOk result (faults.new.items ≡ faults.old.items ++ (each_facet simple (text_of part.now.at) (view part.now.value.now)).faults) }
{
    find_lengths(simple, part, faults)?;
    find_bounds(simple, part, faults)
}

/// Returns the facets that can be read.
#[tactic(auto, unfolding(csvw_meta_datatype::specs::Facets::each_facet))]
fn facets_seen(simple: Simple, part: &Part) -> Result<Facets, AllocError>
    ensures { IfOk result (λ f. f ≡ (each_facet simple (text_of part.now.at) (view part.now.value.now)).value) }
{
    let lengths = lengths_seen(simple, part)?;
    let bounds = bounds_seen(simple, part)?;
    Ok(Facets {
        length: lengths.length,
        min_length: lengths.min_length,
        max_length: lengths.max_length,
        minimum: bounds.minimum,
        min_inclusive: bounds.min_inclusive,
        min_exclusive: bounds.min_exclusive,
        maximum: bounds.maximum,
        max_inclusive: bounds.max_inclusive,
        max_exclusive: bounds.max_exclusive,
    })
}

/// Adds the faults of the facets of a datatype of this type.
pub fn find_facets(
    simple: Simple,
    part: &Part,
    faults: &mut Vec<MetaFault>,
) -> Result<(), AllocError>
    ensures { OnOk result (faults.new.items ≡ faults.old.items ++ (facets simple (text_of part.now.at) (view part.now.value.now)).faults) }
{
    find_each_facet(simple, part, faults)?;
    let facets = facets_seen(simple, part)?;
    if !facets.agree(simple) {
        return add_fault(part, MetaCode::BadDatatype, faults);
    }
    Ok(())
}
