//! `KeyFeed`: the bytes of records as they come, cut into lines.
ghost use Rattle.std.specs.Prelude.{◌≡◌, ◌++◌, [], List, ℕ, Option, OnOk, IfErr, IfOk};
ghost use Rattle.csvw_streams.specs.Streams.{Stream, Sends};
ghost use Rattle.csvw_key_records.specs.Runs.{EndsValid, EndsWrong, Fed, Feeds, IsOwn, StopsFeed, next};
ghost use Rattle.csvw_key_records.specs.declared.stop.KeyStop.TheVariants as stop;
ghost use Rattle.csvw_key_records.specs.declared.stop.LineFault.TheVariants as fault;

use crate::run::KeyRun;
use crate::stop::{KeyStop, LineFault};
use csvw_text::Counted;
use std::alloc::Global;
use std::io::Write;

/// The most bytes of a line. Keys are the cells of a row, and a row of such a size is no row of a table. So a file that has no line
/// feeds can't take all memory.
const MAX_LINE: usize = 16_777_216;

/// The bytes that came so far.
#[derive(Drop)]
pub(crate) struct KeyFeed {
    /// The whole lines.
    run: KeyRun,
    /// The bytes after them.
    unread: Vec<u8>,
}

impl KeyFeed {
    /// Returns a feed of no bytes.
    pub(crate) fn new(alloc: Global) -> KeyFeed
        ensures { (s : Stream) → Sends s [] → Fed result [] s }
    {
        KeyFeed {
            run: KeyRun::new(alloc),
            unread: Vec::new(alloc),
        }
    }

    /// Takes some more bytes.
    pub(crate) fn feed<W: Write>(
        &mut self,
        alloc: Global,
        piece: &[u8],
        out: &mut Counted<W>,
    ) -> Result<(), KeyStop>
        ensures ok { OnOk result (Feeds W.contents self.old self.new out.old out.new piece.now) }
        ensures stop { IfErr result (λ reason. StopsFeed W.contents self.old out.old out.new piece.now reason) }
        ensures own { IfErr result IsOwn }
    {
        if self.unread.extend_from_slice(piece).is_err() {
            return Err(KeyStop::Memory);
        }
        let rest = match self.run.take_lines(self.unread.as_slice(), out) {
            Ok(rest) => rest,
            Err(stop) => return Err(stop),
        };
        if rest.len() > MAX_LINE {
            return Err(self.run.wrong(LineFault::TooLong));
        }
        match Vec::from_slice(alloc, rest) {
            Ok(rest) => {
                self.unread = rest;
                Ok(())
            }
            Err(_) => Err(KeyStop::Memory),
        }
    }

    /// Ends the bytes. Returns whether there was no fault.
    pub(crate) fn end(&self) -> Result<bool, KeyStop>
        ensures ok { IfOk result (λ valid. EndsValid self.now valid) }
        ensures stop { IfErr result (λ reason. EndsWrong self.now reason) }
        ensures cut { IfErr result (λ reason. reason ≡ stop.Line (next self.now.run.lines) fault.Cut) }
    {
        if self.unread.as_slice().is_empty() {
            Ok(self.run.is_valid())
        } else {
            Err(self.run.wrong(LineFault::Cut))
        }
    }
}
