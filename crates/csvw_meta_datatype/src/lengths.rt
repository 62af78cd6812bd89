//! The lengths of a datatype (Metadata Vocabulary for Tabular Data, section 5.11.2).
ghost use Rattle.std.specs.Prelude.{◌≡◌};
ghost use Rattle.serde_json.specs.View.{view};
ghost use Rattle.csvw_meta_core.specs.Pointer.{text_of};
ghost use Rattle.csvw_meta_core.specs.Reads.{Reads};
ghost use Rattle.csvw_meta_datatype.specs.Lengths.{length, lengths};

use csvw_datatype::Simple;
use csvw_meta_core::{MetaCode, Part, Reader, Refusal};

/// Reads a length in characters. It is `BadDatatype` on a type that isn't string or derived from it.
#[derive(Drop)]
pub struct LengthReader {
    /// The datatype's `base`.
    pub simple: Simple,
}

impl Reader for LengthReader {
    type Output = Option<u64>;

    ghost reads = { λ r. length r.simple };

    fn read(&self, part: &Part) -> Result<Option<u64>, Refusal> {
        let Some(length) = part.value.as_u64() else {
            return Err(part.wrong());
        };
        if self.simple.has_length() {
            Ok(Some(length))
        } else {
            Err(part.refused(MetaCode::BadDatatype))
        }
    }
}

/// The lengths of a datatype, in characters. `None`: it does not have the length.
#[derive(Drop)]
pub struct Lengths {
    /// `length`: the length of each text.
    pub length: Option<u64>,
    /// `minLength`: the least length.
    pub min_length: Option<u64>,
    /// `maxLength`: the greatest length.
    pub max_length: Option<u64>,
}

#[tactic(auto, using(crate::proofs::ReadLemmas::fails_first), unfolding(crate::specs::Lengths::lengths))]
pub(crate) fn read_lengths(simple: Simple, part: &Part) -> Result<Lengths, Refusal>
    ensures { Reads result (lengths simple (text_of part.now.at) (view part.now.value.now)) }
{
    let reader = LengthReader { simple };
    let length = part.property(&reader, None, "length")?;
    let min_length = part.property(&reader, None, "minLength")?;
    let max_length = part.property(&reader, None, "maxLength")?;
    Ok(Lengths {
        length,
        min_length,
        max_length,
    })
}
