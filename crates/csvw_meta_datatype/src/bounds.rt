//! The bounds of a datatype (Metadata Vocabulary for Tabular Data, section 5.11.2).
ghost use Rattle.std.specs.Prelude.{◌≡◌};
ghost use Rattle.serde_json.specs.View.{view};
ghost use Rattle.csvw_meta_core.specs.Pointer.{text_of};
ghost use Rattle.csvw_meta_core.specs.Reads.{Reads};
ghost use Rattle.csvw_meta_datatype.specs.Bounds.{is_dated, bound, bound_found, bound_of_integer, bounds};

use csvw_datatype::{Simple, Value as Bound};
use csvw_meta_core::{MetaCode, Part, Reader, Refusal};
use serde_json::Value;

/// Reads a bound: a text in the default format of the type or, for a type of numbers, a whole number. It is
/// `BadDatatype` if it is not a value of the type, or if the values of the type have no order.
#[derive(Drop)]
pub struct BoundReader {
    /// The datatype's `base`.
    pub simple: Simple,
}

impl Reader for BoundReader {
    type Output = Option<Bound>;

    ghost reads = { λ r. bound r.simple };

    fn read(&self, part: &Part) -> Result<Option<Bound>, Refusal> {
        match part.value {
            Value::String(text) => { bound_found(part, self.simple.bound(part.alloc, text)?) }
            Value::Number(number) => bound_of_integer(self.simple, part, number.as_i128()),
            _ => Err(part.wrong()),
        }
    }
}

fn bound_found(part: &Part, bound: Option<Bound>) -> Result<Option<Bound>, Refusal>
    ensures { Reads result (bound_found (text_of part.now.at) bound) }
{
    match bound {
        Some(bound) => Ok(Some(bound)),
        None => Err(part.refused(MetaCode::BadDatatype)),
    }
}

fn bound_of_integer(
    simple: Simple,
    part: &Part,
    integer: Option<i128>,
) -> Result<Option<Bound>, Refusal>
    ensures { Reads result (bound_of_integer simple (text_of part.now.at) (view part.now.value.now) integer) }
{
    match integer {
        Some(integer) if !is_dated(simple) => {
            bound_found(part, simple.whole_bound(part.alloc, integer)?)
        }
        _ => Err(part.wrong()),
    }
}

/// Whether the values of a type are days, moments, times, parts of dates or durations. Their bounds are only texts.
fn is_dated(simple: Simple) -> bool
    ensures { result ≡ is_dated simple }
{
    match simple {
        Simple::Day | Simple::Moment => true,
        Simple::Other(text_type) => text_type.is_ordered(),
        _ => false,
    }
}

/// The bounds of a datatype. `None`: it does not have the bound.
#[derive(Drop)]
pub struct Bounds {
    /// `minimum`: another name of `minInclusive`.
    pub minimum: Option<Bound>,
    /// `minInclusive`: the least value.
    pub min_inclusive: Option<Bound>,
    /// `minExclusive`: a value that is less than each value.
    pub min_exclusive: Option<Bound>,
    /// `maximum`: another name of `maxInclusive`.
    pub maximum: Option<Bound>,
    /// `maxInclusive`: the greatest value.
    pub max_inclusive: Option<Bound>,
    /// `maxExclusive`: a value that is greater than each value.
    pub max_exclusive: Option<Bound>,
}

#[tactic(auto, using(crate::proofs::ReadLemmas::fails_first), unfolding(crate::specs::Bounds::bounds))]
pub(crate) fn read_bounds(simple: Simple, part: &Part) -> Result<Bounds, Refusal>
    ensures { Reads result (bounds simple (text_of part.now.at) (view part.now.value.now)) }
{
    let reader = BoundReader { simple };
    let minimum = part.property(&reader, None, "minimum")?;
    let min_inclusive = part.property(&reader, None, "minInclusive")?;
    let min_exclusive = part.property(&reader, None, "minExclusive")?;
    let maximum = part.property(&reader, None, "maximum")?;
    let max_inclusive = part.property(&reader, None, "maxInclusive")?;
    let max_exclusive = part.property(&reader, None, "maxExclusive")?;
    Ok(Bounds {
        minimum,
        min_inclusive,
        min_exclusive,
        maximum,
        max_inclusive,
        max_exclusive,
    })
}
