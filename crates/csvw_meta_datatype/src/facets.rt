//! Facets (Metadata Vocabulary for Tabular Data, section 5.11.2).
ghost use Rattle.std.specs.Prelude.{◌≡◌};
ghost use Rattle.serde_json.specs.View.{view};
ghost use Rattle.csvw_meta_core.specs.Pointer.{text_of};
ghost use Rattle.csvw_meta_core.specs.Reads.{Reads};
ghost use Rattle.csvw_meta_datatype.specs.Facets.{each_facet};

use crate::bounds::read_bounds;
use crate::lengths::read_lengths;
use csvw_datatype::{Facets, Simple};
use csvw_meta_core::{MetaCode, Part, Reader, Refusal};

/// Reads the facets of the datatype that an object describes. A facet that doesn't fit the type is `BadDatatype` at its
/// value. If one facet excludes what another requires, the fault is `BadDatatype` at the object.
#[derive(Drop)]
pub struct FacetsReader {
    /// The datatype's `base`.
    pub simple: Simple,
}

#[tactic(auto, using(crate::proofs::ReadLemmas::fails_first), unfolding(crate::specs::Facets::each_facet))]
fn each_facet(simple: Simple, part: &Part) -> Result<Facets, Refusal>
    ensures { Reads result (each_facet simple (text_of part.now.at) (view part.now.value.now)) }
{
    let lengths = read_lengths(simple, part)?;
    let bounds = read_bounds(simple, part)?;
    Ok(Facets {
        length: lengths.length,
        min_length: lengths.min_length,
        max_length: lengths.max_length,
        minimum: bounds.minimum,
        min_inclusive: bounds.min_inclusive,
        min_exclusive: bounds.min_exclusive,
        maximum: bounds.maximum,
        max_inclusive: bounds.max_inclusive,
        max_exclusive: bounds.max_exclusive,
    })
}

impl Reader for FacetsReader {
    ghost use Rattle.csvw_meta_datatype.specs.Facets.{facets};

    type Output = Facets;

    ghost reads = { λ r. facets r.simple };

    #[tactic(auto, using(crate::proofs::ReadLemmas::fails_first))]
    fn read(&self, part: &Part) -> Result<Facets, Refusal> {
        let facets = each_facet(self.simple, part)?;
        if !facets.agree(self.simple) {
            return Err(part.refused(MetaCode::BadDatatype));
        }
        Ok(facets)
    }
}
