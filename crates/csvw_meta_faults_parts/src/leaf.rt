//! Kinds of value of the crates below that have at most one fault.
ghost use Rattle.std.specs.Prelude.{◌≡◌, List, ℕ};
ghost use Rattle.serde_json.specs.Data.{Data};
ghost use Rattle.csvw_meta_faults_core.specs.Sole.{AtMostOne};
ghost use Rattle.csvw_meta_faults_core.specs.StandsIn.{StandsIn};

use csvw_meta_core::{MetaFault, Part, Reader, Refusal};
use csvw_meta_faults_core::{Finder, Sole, StandIn, find_sole};
use std::alloc::AllocError;

/// A reader whose definition has at most one fault, by a law.
pub trait OneFault: Reader {
    ghost at_most_one: { (r : Self) (at : List ℕ) (d : Data) → AtMostOne (Self.reads r at d).faults };
}

/// A reader whose definition has one value in place of each that can't be read, by a law.
pub trait Replaced: OneFault {
    ghost dummy: { Self → Self.Output };

    /// Returns the value in place of one that can't be read.
    fn replacement(&self) -> Self::Output
        ensures { result ≡ dummy self.now };

    ghost is_replaced: { (r : Self) (at : List ℕ) (d : Data) → StandsIn (dummy r) (Self.reads r at d) };
}

/// A kind of value with at most one fault.
#[derive(Drop)]
pub struct Leaf<R> {
    /// The reader of the kind.
    pub reader: R,
}

impl<R: OneFault> Reader for Leaf<R> {
    type Output = R::Output;

    ghost reads = { λ r. R.reads r.reader };

    fn read(&self, part: &Part) -> Result<R::Output, Refusal> {
        self.reader.read(part)
    }
}

impl<R: OneFault> Sole for Leaf<R> {
    ghost has_one = { λ r. R.at_most_one r.reader };
}

impl<R: OneFault> Finder for Leaf<R> {
    fn find(&self, part: &Part, faults: &mut Vec<MetaFault>) -> Result<(), AllocError> {
        find_sole(part, self, faults)
    }
}

impl<R: Replaced> StandIn for Leaf<R> {
    ghost dummy = { λ r. R.dummy r.reader };

    fn stand_in(&self) -> R::Output {
        self.reader.replacement()
    }

    ghost stands_in = { λ r. R.is_replaced r.reader };
}
