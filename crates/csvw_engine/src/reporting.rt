//! The report of a run.
ghost use Rattle.std.specs.Prelude.{◌≡◌, IfErr, OnOk};
ghost use Rattle.csvw_report.specs.Report.{report};
ghost use Rattle.csvw_streams.specs.Streams.{stream_of, Sends};
ghost use Rattle.csvw_engine.specs.Reporting.{Reports, StopsReport};

use csvw_report::{Outcome, ReportStop};
use csvw_session::Stop;
use csvw_text::{Counted, Fault};
use std::alloc::Global;
use std::io::Write;

/// Writes the report: its heading, and a line for each fault in the order given. Fails with `Memory` if memory runs
/// out, and with `Write` if the writer failed. What was written before is a front of the report.
pub fn write_report<V: Write>(
    alloc: Global,
    faults: &[Fault],
    w: &mut Counted<V>,
) -> Result<(), Stop>
    ensures ok { OnOk result (Sends (stream_of V.contents w.old w.new) (report faults.now)) }
    ensures stop { IfErr result (StopsReport (stream_of V.contents w.old w.new) (report faults.now)) }
{
    match csvw_report::write_report(alloc, faults, w) {
        Ok(()) => Ok(()),
        Err(ReportStop::Memory) => Err(Stop::Memory),
        Err(ReportStop::Write) => Err(Stop::Write),
    }
}

/// Writes the report of what the tables returned, if they were read to their ends.
pub(crate) fn tell<V: Write>(
    alloc: Global,
    ran: Result<Outcome, Stop>,
    report: &mut Counted<V>,
) -> Result<Outcome, Stop>
    ensures { Reports ran (stream_of V.contents report.old report.new) result }
{
    let outcome = ran?;
    write_report(alloc, outcome.faults.as_slice(), report)?;
    Ok(outcome)
}
