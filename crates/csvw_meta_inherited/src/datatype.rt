//! The datatype of an object, with the warnings on it (Metadata Vocabulary for Tabular Data, section 5.11).
ghost use Rattle.std.specs.Prelude.{◌≡◌, IfOk};
ghost use Rattle.serde_json.specs.View.{view};
ghost use Rattle.csvw_meta_core.specs.Pointer.{text_of};
ghost use Rattle.csvw_meta_core.specs.Reads.{Reads};
ghost use Rattle.csvw_meta_inherited.specs.Datatype.{split, given_datatype};

use csvw_datatype::Datatype;
use csvw_meta_core::{Context, Part, Refusal};
use csvw_meta_datatype::{DatatypeFound, DatatypeReader};
use csvw_text::{Fault, Place, Seq, Shared};
use std::alloc::{AllocError, Global};

/// The datatype of an object, and the warnings on it.
#[derive(Drop)]
pub struct DatatypeGiven {
    /// The datatype, or `None` if the object has none of its own.
    pub datatype: Option<Shared<Datatype>>,
    /// A warning for each property of the datatype that is ignored.
    pub warnings: Seq<Fault>,
}

/// Returns the datatype and the warnings on it apart, or `AllocError` if there is no memory.
pub fn split(alloc: Global, found: Option<DatatypeFound>) -> Result<DatatypeGiven, AllocError>
    ensures { IfOk result (λ g. g ≡ split found) }
{
    match found {
        None => Ok(DatatypeGiven {
            datatype: None,
            warnings: Seq::new(alloc),
        }),
        Some(found) => Ok(DatatypeGiven {
            datatype: Some(Shared::new(alloc, found.datatype)?),
            warnings: found.warnings,
        }),
    }
}

/// Reads the datatype in the object of a column. The column and its table have these numbers. The column number is 0
/// if the object is not a column. The table number is 0 for the group.
#[tactic(auto, unfolding(crate::specs::Datatype::given_datatype))]
pub(crate) fn read_datatype(
    context: &Context,
    table: u32,
    column: u32,
    part: &Part,
) -> Result<DatatypeGiven, Refusal>
    ensures { Reads result (given_datatype context.now table column (text_of part.now.at) (view part.now.value.now)) }
{
    let reader = DatatypeReader {
        profile: context.profile,
        base: &context.base,
        place: Place {
            table,
            row: 0,
            column,
        },
    };
    let found = part.optional(&reader, "datatype")?;
    Ok(split(part.alloc, found)?)
}
