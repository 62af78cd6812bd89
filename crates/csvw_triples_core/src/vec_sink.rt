//! A sink that keeps its triples in memory.
ghost use Rattle.std.specs.Prelude.{◌≡◌, [], true, ◌++◌};
ghost use Rattle.std.proofs.Common.{rules, append_assoc, append-nil};
ghost use Rattle.csvw_triples_core.specs.VecSink.{triples_of};

use crate::{SinkFault, Triple, TripleRef, TripleSink};
use std::alloc::Global;

/// A sink that keeps its triples in a list.
#[derive(Debug, Drop)]
pub struct VecSink {
    items: Vec<Triple>,
    alloc: Global,
}

impl VecSink {
    /// Makes a sink without triples. It takes no memory.
    pub fn new(alloc: Global) -> VecSink
        ensures { triples_of result ≡ [] }
    {
        VecSink {
            items: Vec::new(alloc),
            alloc,
        }
    }

    /// Returns the triples so far.
    pub fn triples(&self) -> &[Triple]
        ensures { result.now ≡ triples_of self.now }
    {
        self.items.as_slice()
    }
}

impl TripleSink for VecSink {
    ghost gains = { λ old ts new. triples_of new ≡ triples_of old ++ ts };

    ghost cuts = { λ _ _ _. ⊥ };

    ghost is_open = { λ _. true };

    ghost failed = { λ _. 0 };

    fn failures(&self) -> u64 {
        0
    }

    fn put(&mut self, triple: &Triple) -> Result<(), SinkFault> {
        self.put_ref(self.alloc, &triple.as_ref())
    }

    fn put_ref(&mut self, _: Global, triple: &TripleRef<'_>) -> Result<(), SinkFault> {
        let Ok(copy) = triple.to_triple(self.alloc) else {
            return Err(SinkFault::Memory);
        };
        match self.items.push(copy) {
            Ok(()) => Ok(()),
            Err(_) => Err(SinkFault::Memory),
        }
    }

    ghost stays = { λ s. Prim.search rules };

    ghost goes_on = { λ a b c xs ys p q. Prim.search (rules, append_assoc) };
}
