//! Kinds of value that have at most one fault.
ghost use Rattle.std.specs.Prelude.{◌≡◌, ◌++◌, OnOk, List, ℕ};
ghost use Rattle.serde_json.specs.Data.{Data};
ghost use Rattle.serde_json.specs.View.{view};
ghost use Rattle.csvw_meta_core.specs.Pointer.{text_of};
ghost use Rattle.csvw_meta_core.specs.Read.{Read};
ghost use Rattle.csvw_meta_core.specs.Reads.{Reads};
ghost use Rattle.csvw_meta_faults_core.specs.Sole.{AtMostOne};

use csvw_meta_core::{MetaFault, Part, Reader, Refusal};
use std::alloc::AllocError;

/// A kind of value that has at most one fault, by a law.
pub trait Sole: Reader {
    ghost has_one: { (r : Self) (at : List ℕ) (d : Data) → AtMostOne (Self.reads r at d).faults };
}

/// Adds the fault that a call has returned, which read a part with at most one fault. It returns `AllocError` if the call
/// had no memory, or if there is none for the fault.
#[tactic(auto, using(crate::proofs::SoleLemmas::is_sole))]
pub fn add_only<A: Drop>(
    read: Result<A, Refusal>,
    faults: &mut Vec<MetaFault>,
) -> Result<(), AllocError>
    ensures { (r : Read A) → Reads read r → AtMostOne r.faults → OnOk result (faults.new.items ≡ faults.old.items ++ r.faults) }
{
    match read {
        Ok(_) => Ok(()),
        Err(Refusal::Memory) => Err(AllocError),
        Err(Refusal::Fault(fault)) => {
            faults.push(fault)?;
            Ok(())
        }
    }
}

/// Adds the fault of the part if it has one. It returns `AllocError` if there is no memory to read the part, or for the
/// fault.
pub fn find_sole<R: Sole>(
    part: &Part,
    reader: &R,
    faults: &mut Vec<MetaFault>,
) -> Result<(), AllocError>
    ensures { OnOk result (faults.new.items ≡ faults.old.items ++ (R.reads reader.now (text_of part.now.at) (view part.now.value.now)).faults) }
{
    add_only(reader.read(part), faults)
}
