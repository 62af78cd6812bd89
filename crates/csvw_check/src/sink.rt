//! A sink for a check, which needs no graph.
ghost use Rattle.std.specs.Prelude.{◌≡◌};

use csvw_triples_core::{SinkFault, Triple, TripleSink};

/// A sink that takes each triple and keeps nothing.
#[derive(Drop)]
pub(crate) struct NoGraph {}

impl TripleSink for NoGraph {
    ghost use Rattle.std.specs.Prelude.{true};
    ghost use Rattle.std.proofs.Common.{rules};

    ghost gains = { λ _ _ _. Unit {0} };

    ghost cuts = { λ _ _ _. ⊥ };

    ghost is_open = { λ _. true };

    ghost failed = { λ _. 0 };

    fn failures(&self) -> u64 {
        0
    }

    fn put(&mut self, _: &Triple) -> Result<(), SinkFault> {
        Ok(())
    }

    ghost stays = { λ s. tt };

    ghost goes_on = { λ a b c xs ys p q. tt };
}
