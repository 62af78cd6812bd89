//! A sink that fails.
ghost use Rattle.std.specs.Prelude.{◌≡◌, true, false, [], ◌++◌};
ghost use Rattle.std.proofs.Common.{rules, append_assoc, append-nil};

use csvw_triples_core::{SinkFault, Triple, TripleSink};
use std::alloc::Global;

/// A sink that keeps a limited number of triples in a list. Its device fails at the next triple. From then on it is
/// closed.
#[derive(Drop)]
pub struct FailingSink {
    /// The triples that it took.
    kept: Vec<Triple>,
    /// How many triples it still takes.
    room: u64,
    is_open: bool,
    failures: u64,
    alloc: Global,
}

impl FailingSink {
    /// Makes a sink with room for so many triples. It takes no memory.
    pub fn new(alloc: Global, room: u64) -> FailingSink {
        FailingSink {
            kept: Vec::new(alloc),
            room,
            is_open: true,
            failures: 0,
            alloc,
        }
    }

    /// Returns the triples that it took.
    pub fn triples(&self) -> &[Triple] {
        self.kept.as_slice()
    }
}

impl TripleSink for FailingSink {
    ghost gains = { λ old ts new. new.kept.items ≡ old.kept.items ++ ts };

    ghost cuts = { λ old _ new. (new.kept ≡ old.kept) × (old.is_open ≡ true) × (new.is_open ≡ false) };

    ghost is_open = { λ s. s.is_open };

    ghost failed = { λ s. s.failures };

    fn failures(&self) -> u64 {
        self.failures
    }

    fn put(&mut self, triple: &Triple) -> Result<(), SinkFault> {
        if !self.is_open {
            return Err(SinkFault::Closed);
        }
        if self.room == 0 {
            self.is_open = false;
            self.failures = self.failures.saturating_add(1);
            return Err(SinkFault::Device);
        }
        let Ok(copy) = triple.clone(self.alloc) else {
            return Err(SinkFault::Memory);
        };
        match self.kept.push(copy) {
            Ok(()) => {
                self.room -= 1;
                Ok(())
            }
            Err(_) => Err(SinkFault::Memory),
        }
    }

    ghost stays = { λ s. Prim.search rules };

    ghost goes_on = { λ a b c xs ys p q. Prim.search (rules, append_assoc) };
}
