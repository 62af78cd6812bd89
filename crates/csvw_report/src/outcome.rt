//! `Outcome`: what a run found that did not stop.
ghost use Rattle.std.specs.Prelude.{◌≡◌, IfOk};
ghost use Rattle.std.specs.List.{list_all};
ghost use Rattle.std.specs.List.Sorted.{IsPermutation, IsSorted};
ghost use Rattle.csvw_report.specs.Order.{fault_cmp, is_no_error};

use csvw_text::{Fault, Kind, Seq};
use std::alloc::{AllocError, Global};

/// What a run found that did not stop.
#[derive(Debug, Drop, PartialEq, Eq)]
pub struct Outcome {
    /// The violated constraints, sorted.
    pub faults: Seq<Fault>,
}

fn is_no_error(fault: &Fault) -> bool
    ensures { result ≡ is_no_error fault.now }
{
    match fault.kind {
        Kind::Error => false,
        Kind::Warning => true,
    }
}

impl Outcome {
    /// Returns whether no fault is an error. There may be warnings.
    pub fn valid(&self) -> bool
        ensures { result ≡ list_all is_no_error self.now.faults }
    {
        self.faults
            .as_slice()
            .iter()
            .all(|fault| is_no_error(fault))
    }

    /// Returns an equal outcome, or `AllocError` if memory runs out.
    pub fn clone(&self, alloc: Global) -> Result<Outcome, AllocError>
        ensures { IfOk result (λ o. o ≡ self.now) }
    {
        Ok(Outcome {
            faults: Seq::of(self.faults.as_slice().to_vec(alloc)?),
        })
    }
}

/// Returns the faults in the order of reports: by table, row, column, code and kind. Equal faults occur as often as
/// they came.
pub fn sorted(faults: Seq<Fault>) -> Seq<Fault>
    ensures same { IsPermutation faults result }
    ensures order { IsSorted fault_cmp result }
{
    let mut faults = faults.into_vec();
    faults.sort_unstable();
    Seq::of(faults)
}
