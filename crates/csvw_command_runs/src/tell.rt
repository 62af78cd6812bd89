//! What the program tells of its end, and the status that it ends with.
ghost use Rattle.std.specs.Prelude.{◌≡◌, true, false};
ghost use Rattle.csvw_command_runs.specs.Answers.{TellsStop};
ghost use Rattle.csvw_command_runs.specs.Status.{stop_status, outcome_status};
ghost use Rattle.csvw_streams.specs.Streams.{IsCut, Sends, Tells, stream_of};

use crate::line::send_stop;
use csvw_engine::{Outcome, Stop};
use csvw_text::{Counted, write_out};
use std::io::Write;

/// The tables were read to their ends, and no fault is an error; or help was asked for.
pub const SUCCESS: u8 = 0;
/// The tables were read to their ends, and a fault is an error.
pub(crate) const FAULTS: u8 = 1;
/// The command line was refused.
const USAGE: u8 = 2;
/// The metadata or a table was refused. No stop has a status below it.
pub const REFUSED: u8 = 3;
/// A file or a stream failed, or there was no memory.
const DEVICE: u8 = 4;

/// Sends some bytes and flushes. Returns whether all of them went out.
pub fn send<W: Write>(w: &mut Counted<W>, bytes: &[u8]) -> bool
    ensures sent { result ≡ true → Sends (stream_of W.contents w.old w.new) bytes.now }
    ensures cut { result ≡ false → IsCut (stream_of W.contents w.old w.new) bytes.now }
{
    let Ok(()) = write_out(w, bytes) else {
        return false;
    };
    w.flush().is_ok()
}

fn stop_status(stop: &Stop) -> u8
    ensures { result ≡ stop_status stop.now }
{
    match stop {
        Stop::Memory | Stop::Read | Stop::Write => DEVICE,
        _ => REFUSED,
    }
}

/// Reports a stop in one line. Returns its status: 4 if memory, a file or a stream failed, else 3. If the line can't be
/// sent, the status is all that is reported.
pub fn tell_stop<V: Write>(stop: &Stop, err: &mut Counted<V>) -> u8
    ensures { TellsStop stop.now (stream_of V.contents err.old err.new) result }
{
    send_stop(err, stop);
    stop_status(stop)
}

/// Reports a mistake of the command line. Returns its status, 2, even if the text can't be sent.
pub fn tell_mistake<V: Write>(text: &str, err: &mut Counted<V>) -> u8
    ensures told { Tells (stream_of V.contents err.old err.new) text.now }
    ensures status { result ≡ 2 }
{
    let _ = send(err, text.as_bytes());
    USAGE
}

/// Reports in one line why the plan of a part is refused. Returns its status, 3, even if the line can't be sent.
pub fn tell_refused<V: Write>(line: &str, err: &mut Counted<V>) -> u8
    ensures told { Tells (stream_of V.contents err.old err.new) line.now }
    ensures status { result ≡ 3 }
{
    let _ = send(err, line.as_bytes());
    REFUSED
}

/// Reports in one line which file can't be opened or read. Returns its status, 4, even if the line can't be sent.
pub fn tell_unread<V: Write>(line: &str, err: &mut Counted<V>) -> u8
    ensures told { Tells (stream_of V.contents err.old err.new) line.now }
    ensures status { result ≡ 4 }
{
    let _ = send(err, line.as_bytes());
    DEVICE
}

/// The status of a run that came to its end.
pub fn outcome_status(outcome: &Outcome) -> u8
    ensures { result ≡ outcome_status outcome.now }
{
    if outcome.valid() { SUCCESS } else { FAULTS }
}
