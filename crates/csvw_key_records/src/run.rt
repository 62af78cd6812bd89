//! `KeyRun`: whole lines, judged one after the other.
ghost use Rattle.std.specs.Prelude.{◌≡◌, [], ◌++◌, ℕ, List, Option, OnErr, OnOk, IfErr, IfOk, flat_map};
ghost use Rattle.std.specs.Option.{option_to_list};
ghost use Rattle.csvw_report.specs.Report.{line};
ghost use Rattle.csvw_streams.specs.Streams.{IsCut, Sends, stream_of};
ghost use Rattle.csvw_key_records.specs.Runs.{GoesOn, HasNoEnd, IsLine, IsOfLine, IsOwn, StopsIn, TakesLines, Took, next, stop_by, valid_after};
ghost use Rattle.csvw_key_records.specs.declared.stop.KeyStop.TheVariants as stop;

use crate::digits::parted;
use crate::faults::write_fault;
use crate::judge::{Disorder, KeyJudge};
use crate::reading::line_at;
use crate::stop::{KeyStop, LineFault};
use csvw_text::{Counted, Fault};
use std::alloc::Global;
use std::io::Write;

/// The lines of records that were judged.
#[derive(Drop)]
pub(crate) struct KeyRun {
    /// The faults of the records.
    judge: KeyJudge,
    /// The number of lines. It stays at the greatest `u64`.
    lines: u64,
    /// Whether there was no fault.
    valid: bool,
}

impl KeyRun {
    /// Returns a run of no lines.
    pub(crate) fn new(alloc: Global) -> KeyRun
        ensures { Took result [] [] }
    {
        KeyRun {
            judge: KeyJudge::new(alloc),
            lines: 0,
            valid: true,
        }
    }

    /// Returns whether there was no fault.
    pub(crate) fn is_valid(&self) -> bool
        ensures { result ≡ self.now.valid }
    {
        self.valid
    }

    /// Returns the stop of a fault of the next line.
    pub(crate) fn wrong(&self, fault: LineFault) -> KeyStop
        ensures { result ≡ stop.Line (next self.now.lines) fault }
    {
        KeyStop::Line {
            line: self.lines.saturating_add(1),
            fault,
        }
    }

    /// Returns the stop of a line that can't follow those before it.
    fn stop_of(&self, disorder: Disorder) -> KeyStop
        ensures { result ≡ stop_by self.now.lines disorder }
    {
        match disorder {
            Disorder::Memory => KeyStop::Memory,
            Disorder::Order => self.wrong(LineFault::Order),
            Disorder::Twice => self.wrong(LineFault::Twice),
            Disorder::Row => self.wrong(LineFault::Row),
        }
    }

    /// Counts a line, and writes its fault.
    fn settle<W: Write>(
        &mut self,
        fault: Option<Fault>,
        out: &mut Counted<W>,
    ) -> Result<(), KeyStop>
        ensures judge { self.new.judge ≡ self.old.judge }
        ensures lines { self.new.lines ≡ next self.old.lines }
        ensures valid { self.new.valid ≡ valid_after self.old.valid fault }
        ensures ok { OnOk result (Sends (stream_of W.contents out.old out.new) (flat_map line (option_to_list fault))) }
        ensures cut { IfErr result (λ reason. (reason ≡ stop.Write) × IsCut (stream_of W.contents out.old out.new) (flat_map line (option_to_list fault))) }
    {
        self.lines = self.lines.saturating_add(1);
        let Some(fault) = fault else {
            return Ok(());
        };
        self.valid = false;
        match write_fault(out, fault) {
            Ok(()) => Ok(()),
            Err(_) => Err(KeyStop::Write),
        }
    }

    /// Takes a line.
    fn take_line<W: Write>(&mut self, text: &[u8], out: &mut Counted<W>) -> Result<(), KeyStop>
        requires { IsLine text.now }
        ensures ok { OnOk result (GoesOn W.contents self.old self.new out.old out.new text.now) }
        ensures stop { IfErr result (λ reason. StopsIn W.contents self.old out.old out.new text.now reason) }
        ensures own { IfErr result IsOfLine }
    {
        let Some(line) = line_at(text) else {
            return Err(self.wrong(LineFault::NoRecord));
        };
        match self.judge.take(line) {
            Ok(fault) => self.settle(fault, out),
            Err(disorder) => Err(self.stop_of(disorder)),
        }
    }

    /// Takes all whole lines of a text. Returns what follows the last line feed.
    pub(crate) fn take_lines<'a, W: Write>(
        &mut self,
        text: &'a [u8],
        out: &mut Counted<W>,
    ) -> Result<&'a [u8], KeyStop>
        ensures ok { IfOk result (λ rest. TakesLines W.contents self.old self.new out.old out.new text.now rest.now × HasNoEnd rest.now) }
        ensures stop { IfErr result (λ reason. StopsIn W.contents self.old out.old out.new text.now reason) }
        ensures own { IfErr result IsOwn }
    {
        let mut rest = text;
        while let Some((body, after)) = parted(rest, b'\n') {
            if let Err(stop) = self.take_line(&rest[..body.len() + 1], out) {
                return Err(stop);
            }
            rest = after;
        }
        Ok(rest)
    }
}
