//! Flushes the writers at the end of a run.
ghost use Rattle.std.specs.Prelude.{◌≡◌, ◌↔◌, Err, IfErr, IsTrue};
ghost use Rattle.std.specs.Io.KnownBytes.{Keeps};
ghost use Rattle.csvw_streams.specs.Count.{after_call};
ghost use Rattle.csvw_streams.specs.Counted.{inner_of, failures_of};
ghost use Rattle.csvw_engine_core.specs.declared.stop.Stop.TheVariants as stop;
ghost use Rattle.csvw_engine.specs.Flushes.{IsFlushed};

use csvw_session::Stop;
use csvw_text::Counted;
use std::io::Write;

/// Returns whether a run stopped because its writer failed. Nothing more is sent to that writer.
pub(crate) fn is_failed_write<T>(ran: &Result<T, Stop>) -> bool
    ensures { IsTrue result ↔ (ran.now ≡ Err stop.Write) }
{
    matches!(ran, Err(Stop::Write))
}

/// Flushes a writer. Fails with `Write` if that fails.
pub(crate) fn flush<W: Write>(w: &mut Counted<W>) -> Result<(), Stop>
    ensures keeps { Keeps (W.contents (inner_of w.old)) (W.contents (inner_of w.new)) }
    ensures count { failures_of w.new ≡ after_call result (failures_of w.old) }
    ensures write { IfErr result (λ reason. reason ≡ stop.Write) }
{
    match w.flush() {
        Ok(()) => Ok(()),
        Err(_) => Err(Stop::Write),
    }
}

/// Flushes what a run wrote before its result is returned. Returns `Write` if that fails.
pub(crate) fn flush_after<T: Drop, W: Write>(
    w: &mut Counted<W>,
    ran: Result<T, Stop>,
) -> Result<T, Stop>
    ensures keeps { Keeps (W.contents (inner_of w.old)) (W.contents (inner_of w.new)) }
    ensures flushed { IsFlushed ran result (failures_of w.old) (failures_of w.new) }
{
    flush(w)?;
    ran
}
