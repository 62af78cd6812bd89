//! A sink that writes N-Triples.
ghost use Rattle.std.specs.Prelude.{◌≡◌, true, false, []};
ghost use Rattle.csvw_ntriples.specs.NtSink.{sink_out, sink_is_open};

use crate::line::Line;
use csvw_text::{Counted, write_out};
use csvw_triples_core::{SinkFault, Triple, TripleRef, TripleSink};
use std::alloc::Global;
use std::io::Write;

/// Writes each triple as a line of N-Triples. It makes the whole line in memory, from the parts of the triple that it
/// is lent, and sends it with `write_out`.
/// After a line that was cut off it sends nothing more: each later `put` fails with `Closed`.
#[derive(Drop)]
pub struct NtSink<'a, W> {
    out: &'a mut Counted<W>,
    line: Line,
    is_open: bool,
    alloc: Global,
}

impl<'a, W: Write> NtSink<'a, W> {
    /// Makes a sink that writes after the bytes that the writer has. It takes no memory.
    pub fn new(alloc: Global, out: &'a mut Counted<W>) -> NtSink<'a, W>
        ensures same_reference { (sink_out result).ghost_name ≡ out.entry.ghost_name }
        ensures out { (sink_out result).now ≡ out.entry.now }
        ensures open { sink_is_open result ≡ true }
    {
        NtSink {
            out,
            line: Line::new(alloc),
            is_open: true,
            alloc,
        }
    }

    /// Returns the writer. It takes no memory.
    pub fn into_inner(self) -> &'a mut Counted<W>
        ensures same_reference { result.ghost_name ≡ (sink_out self.entry).ghost_name }
        ensures value { result.now ≡ (sink_out self.entry).now }
    {
        let NtSink {
            out,
            line: _,
            is_open: _,
            alloc: _,
        } = self;
        out
    }
}

impl<'a, W: Write> TripleSink for NtSink<'a, W> {
    ghost use Rattle.csvw_ntriples.specs.Sending.{IsCutIn, Sends};
    ghost use Rattle.std.proofs.Common.{refl, ◌∙◌};
    ghost use Rattle.std.specs.List.{AllByRecursion};
    ghost use Rattle.csvw_ntriples.specs.SendingLaws.{all_fit, sends_nothing, sends_on};
    ghost use Rattle.csvw_ntriples.specs.Writable.{TripleFits};
    ghost use Rattle.csvw_streams.specs.Counted.{inner_of, failures_of};
    ghost use Rattle.csvw_ntriples.specs.NtSink.{sink_out, sink_is_open};

    ghost gains = { λ a ts b.
        ((sink_out b).ghost_name ≡ (sink_out a).ghost_name) × AllByRecursion TripleFits ts
        × Sends (W.contents (inner_of (sink_out a).now)) (sink_is_open a) ts
        (W.contents (inner_of (sink_out b).now)) (sink_is_open b) };

    ghost cuts = { λ a t b.
        ((sink_out b).ghost_name ≡ (sink_out a).ghost_name) × (sink_is_open a ≡ true) × (sink_is_open b ≡ false)
        × IsCutIn t (W.contents (inner_of (sink_out a).now)) (W.contents (inner_of (sink_out b).now)) [] };

    ghost is_open = { λ s. sink_is_open s };

    ghost failed = { λ s. failures_of (sink_out s).now };

    fn failures(&self) -> u64 {
        self.out.failures()
    }

    fn put(&mut self, triple: &Triple) -> Result<(), SinkFault> {
        if !self.is_open {
            return Err(SinkFault::Closed);
        }
        self.put_ref(self.alloc, &triple.as_ref())
    }

    fn put_ref(&mut self, _: Global, triple: &TripleRef<'_>) -> Result<(), SinkFault> {
        if !self.is_open {
            return Err(SinkFault::Closed);
        }
        let Ok(()) = self.line.refill(triple) else {
            return Err(SinkFault::Memory);
        };
        match write_out(self.out, self.line.bytes.as_slice()) {
            Ok(()) => Ok(()),
            Err(_) => {
                self.is_open = false;
                Err(SinkFault::Device)
            }
        }
    }

    ghost stays = { λ s. (refl, tt, sends_nothing (W.contents (inner_of (sink_out s).now)) (sink_is_open s)) };

    ghost goes_on = { λ a b c xs ys p q. (
      q.0 ∙ p.0,
      all_fit xs ys p.1 q.1,
      sends_on (W.contents (inner_of (sink_out a).now)) (W.contents (inner_of (sink_out b).now))
          (W.contents (inner_of (sink_out c).now)) (sink_is_open a) (sink_is_open b) (sink_is_open c) xs ys p.2 q.2,
    ) };
}
