//! Booleans as a kind of value with at most one fault.
ghost use Rattle.std.specs.Prelude.{false};
ghost use Rattle.csvw_meta_faults_core.specs.Sole.{truth_has_one};
ghost use Rattle.csvw_meta_faults_parts.specs.Leaves.{truth_stands_in};

use crate::leaf::{OneFault, Replaced};
use csvw_meta_core::Truth;

impl OneFault for Truth {
    ghost at_most_one = { λ _. truth_has_one };
}

impl Replaced for Truth {
    ghost dummy = { λ _. false };

    fn replacement(&self) -> bool {
        false
    }

    ghost is_replaced = { λ _. truth_stands_in };
}
