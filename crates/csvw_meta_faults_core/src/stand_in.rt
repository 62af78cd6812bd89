//! The values that definitions have in place of those that can't be read.
ghost use Rattle.std.specs.Prelude.{◌≡◌, IfOk, List, ℕ, Some, false};
ghost use Rattle.serde_json.specs.Data.{Data};
ghost use Rattle.serde_json.specs.View.{view};
ghost use Rattle.csvw_meta_core.specs.Pointer.{text_of};
ghost use Rattle.csvw_meta_core.specs.Read.{optional, property};
ghost use Rattle.csvw_meta_faults_core.specs.StandsIn.{StandsIn, truth_stands_in, or_null_stands};

use csvw_meta_core::{OrNull, Part, Reader, Refusal, Truth};
use std::alloc::AllocError;

/// A kind of value whose definition has one value in place of each that can't be read, by a law.
pub trait StandIn: Reader {
    ghost dummy: { Self → Self.Output };

    /// Returns the value in place of one that can't be read.
    fn stand_in(&self) -> Self::Output
        ensures { result ≡ dummy self.now };

    ghost stands_in: { (r : Self) (at : List ℕ) (d : Data) → StandsIn (dummy r) (Self.reads r at d) };
}

impl StandIn for Truth {
    ghost dummy = { λ _. false };

    fn stand_in(&self) -> bool {
        false
    }

    ghost stands_in = { λ _. truth_stands_in };
}

impl<R: StandIn> StandIn for OrNull<R> {
    ghost dummy = { λ r. Some (R.dummy r.reader) };

    fn stand_in(&self) -> Option<R::Output> {
        Some(self.reader.stand_in())
    }

    ghost stands_in = { λ r. or_null_stands (R.dummy r.reader) (R.reads r.reader) (R.stands_in r.reader) };
}

/// Returns the value of the part in its definition, whatever faults it has. It returns `AllocError` if memory runs out.
pub fn value_at<R: StandIn>(part: &Part, reader: &R) -> Result<R::Output, AllocError>
    ensures { IfOk result (λ v. v ≡ (R.reads reader.now (text_of part.now.at) (view part.now.value.now)).value) }
{
    match reader.read(part) {
        Ok(value) => Ok(value),
        Err(Refusal::Memory) => Err(AllocError),
        Err(Refusal::Fault(_)) => Ok(reader.stand_in()),
    }
}

/// Returns the value of a property in its definition, whatever faults it has. The default is the value that stands in.
/// It returns `AllocError` if memory runs out.
pub fn property_value<R: StandIn>(
    part: &Part,
    reader: &R,
    name: &str,
) -> Result<R::Output, AllocError>
    ensures { IfOk result (λ v. v ≡ (property (R.reads reader.now) (R.dummy reader.now) (text_of part.now.at) (view part.now.value.now) name.now).value) }
{
    match part.value.get(name) {
        None => Ok(reader.stand_in()),
        Some(value) => value_at(&part.member(name, value), reader),
    }
}

/// Returns the value of a property in its definition, whatever faults it has, or the default if the property is missing.
/// It returns `AllocError` if memory runs out.
pub fn value_or<R: StandIn>(
    part: &Part,
    reader: &R,
    default: R::Output,
    name: &str,
) -> Result<R::Output, AllocError>
    ensures { IfOk result (λ v. v ≡ (property (R.reads reader.now) default (text_of part.now.at) (view part.now.value.now) name.now).value) }
{
    match part.value.get(name) {
        None => Ok(default),
        Some(value) => value_at(&part.member(name, value), reader),
    }
}

/// Returns the value of a property in its definition, whatever faults it has, or `None` if the property is missing. It
/// returns `AllocError` if memory runs out.
pub fn optional_value<R: StandIn>(
    part: &Part,
    reader: &R,
    name: &str,
) -> Result<Option<R::Output>, AllocError>
    ensures { IfOk result (λ v. v ≡ (optional (R.reads reader.now) (text_of part.now.at) (view part.now.value.now) name.now).value) }
{
    match part.value.get(name) {
        None => Ok(None),
        Some(value) => Ok(Some(value_at(&part.member(name, value), reader)?)),
    }
}
