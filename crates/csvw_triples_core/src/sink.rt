//! The trait of sinks for triples.
//!
//! `TripleSink` has the relation `gains old triples new` on two states of a sink. Two laws hold of it. A sink that
//! nothing happened to gains nothing (`stays`), and gains compose (`goes_on`). So generic code can say exactly
//! which triples a sink took. On every error a sink gains nothing.
//!
//! A second relation, `cuts old triple new`, says within which triple a device failed. That triple comes next after
//! the whole triples that were taken (`FrontOf`).
ghost use Rattle.std.specs.Prelude.{◌≡◌, ◌≢◌, ◌+◌, ◌<◌, ◌^◌, ◌-◌, List, [], ◌∷◌, ◌++◌, ℕ, Bool, true, false, OnOk, OnErr, IsTrue, Err, ◌↔◌};
ghost use Rattle.csvw_triples_core.specs.declared.term.Triple.{Triple as TheTriple};
ghost use Rattle.csvw_triples_core.specs.Lent.{triple_of};

use crate::{Triple, TripleRef};
use std::alloc::{AllocError, Global};
use std::error::Error;
use std::fmt;

/// Why a sink did not take a triple. After `Device` at most a proper part of the triple went out. After the other
/// faults nothing went out.
#[derive(Clone, Copy, Debug, PartialEq, Eq)]
pub enum SinkFault {
    /// Memory ran out. A later call may succeed.
    Memory,
    /// The device failed in this call. The sink takes no more triples.
    Device,
    /// The device failed in an earlier call.
    Closed,
}

impl SinkFault {
    /// Returns what is wrong and what to do, as a sentence without its full stop.
    fn sentence(&self) -> &'static str {
        match self {
            SinkFault::Memory => "there is no memory: free some, and try again",
            SinkFault::Device => {
                "the graph could not be written: make room where it goes, and begin anew"
            }
            SinkFault::Closed => "the graph could not be written before: begin anew",
        }
    }
}

impl fmt::Display for SinkFault {
    fn fmt<W: fmt::Write>(&self, f: &mut fmt::Formatter<W>) -> fmt::Result {
        f.write_str(self.sentence())
    }
}

impl Error for SinkFault {}

impl From<AllocError> for SinkFault {
    ghost use Rattle.csvw_triples_core.specs.declared.sink.SinkFault.TheVariants.{Memory};

    ghost from_gives = { λ _ e. e ≡ Memory };

    fn from(_: AllocError) -> SinkFault {
        SinkFault::Memory
    }
}

/// A sink: it takes triples one after the other.
pub trait TripleSink {
    /// The sink went from the first state to the second and took exactly these triples, each whole, in this order.
    ghost gains: { Self → List TheTriple → Self → Type 0 };

    /// The device failed within this triple. Between the two states at most a proper part of it went out.
    ghost cuts: { Self → TheTriple → Self → Type 0 };

    /// No device has failed so far.
    ghost is_open: { Self → Bool };

    /// How often a device has failed.
    ghost failed: { Self → ℕ };

    /// Returns how often a device has failed.
    fn failures(&self) -> u64
        ensures { result ≡ failed self.now };

    /// Takes a triple at the end. On every error the sink gains nothing.
    ///
    /// - `Memory` if memory runs out. The sink is open or closed as before.
    /// - `Device` if the device failed in this call, within this triple. The sink is closed from then on, and the
    ///   count of failures is one higher, unless it was 2^64 - 1.
    /// - `Closed` exactly if the sink was closed before.
    fn put(&mut self, triple: &Triple) -> Result<(), SinkFault>
        ensures ok { OnOk result (gains self.old (triple.now ∷ []) self.new) }
        ensures err { OnErr result (gains self.old [] self.new) }
        ensures cut { result ≡ Err SinkFault.Device → cuts self.old triple.now self.new }
        ensures open { OnOk result (IsTrue (is_open self.new)) }
        ensures closed { (result ≡ Err SinkFault.Closed) ↔ (is_open self.old ≡ false) }
        ensures memory { result ≢ Err SinkFault.Device → is_open self.new ≡ is_open self.old }
        ensures no_failure { result ≢ Err SinkFault.Device → failed self.new ≡ failed self.old }
        ensures device { result ≡ Err SinkFault.Device → is_open self.new ≡ false }
        ensures failure { result ≡ Err SinkFault.Device → failed self.old < 2 ^ 64 - 1 → failed self.new ≡ failed self.old + 1 };

    /// Takes a lent triple at the end, as the owned triple that it is. On every error the sink gains nothing.
    ///
    /// The default body makes the owned triple and calls `put`. A sink that needs no owned triple has a body of its
    /// own, which takes no memory for the triple.
    ///
    /// - `Memory` if memory runs out. The sink is open or closed as before.
    /// - `Device` if the device failed in this call, within this triple. The sink is closed from then on, and the
    ///   count of failures is one higher, unless it was 2^64 - 1.
    /// - `Closed` only if the sink was closed before. A closed sink fails with it, unless memory runs out.
    fn put_ref(&mut self, alloc: Global, triple: &TripleRef<'_>) -> Result<(), SinkFault>
        ensures ok { OnOk result (gains self.old (triple_of triple.now ∷ []) self.new) }
        ensures err { OnErr result (gains self.old [] self.new) }
        ensures cut { result ≡ Err SinkFault.Device → cuts self.old (triple_of triple.now) self.new }
        ensures open { OnOk result (IsTrue (is_open self.new)) }
        ensures closed { result ≡ Err SinkFault.Closed → is_open self.old ≡ false }
        ensures refused { is_open self.old ≡ false → result ≢ Err SinkFault.Memory → result ≡ Err SinkFault.Closed }
        ensures memory { result ≢ Err SinkFault.Device → is_open self.new ≡ is_open self.old }
        ensures no_failure { result ≢ Err SinkFault.Device → failed self.new ≡ failed self.old }
        ensures device { result ≡ Err SinkFault.Device → is_open self.new ≡ false }
        ensures failure { result ≡ Err SinkFault.Device → failed self.old < 2 ^ 64 - 1 → failed self.new ≡ failed self.old + 1 }
    {
        let Ok(owned) = triple.to_triple(alloc) else {
            return Err(SinkFault::Memory);
        };
        self.put(&owned)
    }

    /// A sink to which nothing happens gains nothing.
    ghost stays: { (s : Self) → gains s [] s };

    /// The triples of two steps are the triples of the first step and then those of the second.
    ghost goes_on: { (a b c : Self) (xs ys : List TheTriple) → gains a xs b → gains b ys c → gains a (xs ++ ys) c };
}
