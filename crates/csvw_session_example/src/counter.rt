//! A sink that counts triples.
ghost use Rattle.std.specs.Prelude.{◌≡◌, ◌+◌, length};

use csvw_api::{SinkFault, Triple, TripleSink};

/// Counts the triples that it takes.
#[derive(Drop)]
pub(crate) struct Counter {
    count: u64,
}

impl Counter {
    /// Makes a sink that took no triple.
    pub(crate) fn new() -> Counter
        ensures { result.count ≡ 0 }
    {
        Counter { count: 0 }
    }

    /// Returns how many triples it took.
    pub(crate) fn count(&self) -> u64
        ensures { result ≡ self.now.count }
    {
        self.count
    }
}

impl TripleSink for Counter {
    ghost use Rattle.std.specs.Prelude.{true};
    ghost use Rattle.std.proofs.Common.{rules, length-append, arith};

    ghost gains = { λ old ts new. new.count ≡ old.count + length ts };

    ghost cuts = { λ _ _ _. ⊥ };

    ghost is_open = { λ _. true };

    ghost failed = { λ _. 0 };

    fn failures(&self) -> u64 {
        0
    }

    fn put(&mut self, _: &Triple) -> Result<(), SinkFault> {
        let Some(count) = self.count.checked_add(1) else {
            return Err(SinkFault::Memory);
        };
        self.count = count;
        Ok(())
    }

    ghost stays = { λ s. Prim.search rules };

    ghost goes_on = { λ a b c xs ys p q. Prim.search (rules, length-append) };
}
