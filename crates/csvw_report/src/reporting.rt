//! The text of a report, sent to a writer.
ghost use Rattle.std.specs.Prelude.{◌≡◌, OnOk, IfErr, flat_map};
ghost use Rattle.csvw_streams.specs.Streams.{stream_of, Sends};
ghost use Rattle.csvw_report.specs.Report.{line, report};
ghost use Rattle.csvw_report.specs.Stops.{StopsAt};

use crate::lines::lines_of;
use crate::stop::ReportStop;
use csvw_text::{Counted, Fault, write_out};
use std::alloc::Global;
use std::io::Write;

/// The number of faults that are sent at once: some 64 KiB of lines.
const FAULTS_AT_ONCE: usize = 1024;

fn send<V: Write>(w: &mut Counted<V>, text: &[u8]) -> Result<(), ReportStop>
    ensures ok { OnOk result (Sends (stream_of V.contents w.old w.new) text.now) }
    ensures stop { IfErr result (λ stop. StopsAt (stream_of V.contents w.old w.new) text.now stop) }
{
    match write_out(w, text) {
        Ok(()) => Ok(()),
        Err(_) => Err(ReportStop::Write),
    }
}

fn send_lines<V: Write>(
    alloc: Global,
    faults: &[Fault],
    w: &mut Counted<V>,
) -> Result<(), ReportStop>
    ensures ok { OnOk result (Sends (stream_of V.contents w.old w.new) (flat_map line faults.now)) }
    ensures stop { IfErr result (λ stop. StopsAt (stream_of V.contents w.old w.new) (flat_map line faults.now) stop) }
{
    let text = lines_of(alloc, faults)?;
    send(w, text.as_slice())
}

/// Writes the heading and a line for each fault, in the order given. It keeps the lines of some faults in memory at a
/// time.
///
/// Returns `Write` if the writer fails, and `Memory` if memory runs out. What was written before a stop is a front of
/// the report.
pub fn write_report<V: Write>(
    alloc: Global,
    faults: &[Fault],
    w: &mut Counted<V>,
) -> Result<(), ReportStop>
    ensures ok { OnOk result (Sends (stream_of V.contents w.old w.new) (report faults.now)) }
    ensures stop { IfErr result (λ stop. StopsAt (stream_of V.contents w.old w.new) (report faults.now) stop) }
{
    send(w, b"kind,code,table,row,column\n")?;
    let mut sent = 0;
    while sent < faults.len() {
        let end = faults.len().min(sent.saturating_add(FAULTS_AT_ONCE));
        send_lines(alloc, &faults[sent..end], w)?;
        sent = end;
    }
    Ok(())
}
