//! The lines of faults, as records of CSV (RFC 4180).
ghost use Rattle.std.specs.Prelude.{◌≡◌, IfErr, IfOk, OnOk, flat_map};
ghost use Rattle.std.specs.Io.KnownBytes.{Appends};
ghost use Rattle.csv.specs.Writing.{text_written};
ghost use Rattle.csvw_report.specs.Report.{kind_name, line};
ghost use Rattle.csvw_report.specs.Records.{IsReady};
ghost use Rattle.csvw_report.specs.declared.stop.ReportStop.TheVariants as stop;

use crate::stop::ReportStop;
use csv::Writer;
use csvw_text::{Fault, Kind};
use itoa::Buffer;
use std::alloc::Global;
use std::io::Write;

fn kind_name(kind: Kind) -> &'static str
    ensures { result.now ≡ kind_name kind }
{
    match kind {
        Kind::Error => "error",
        Kind::Warning => "warning",
    }
}

/// Writes the record of a fault.
fn write_fault<W: Write + Drop>(rows: &mut Writer<W>, fault: &Fault) -> Result<(), csv::Error>
    requires { IsReady rows.old }
    ensures text { OnOk result (Appends (text_written W.contents rows.old) (text_written W.contents rows.new) (line fault.now)) }
    ensures ready { OnOk result (IsReady rows.new) }
{
    let mut table = Buffer::new();
    let mut row = Buffer::new();
    let mut column = Buffer::new();
    rows.write_fields(&[
        kind_name(fault.kind).as_bytes(),
        fault.code.name().as_bytes(),
        table.format(fault.place.table).as_bytes(),
        row.format(fault.place.row).as_bytes(),
        column.format(fault.place.column).as_bytes(),
    ])?;
    Ok(())
}

/// Returns the lines of these faults, in memory.
pub(crate) fn lines_of(alloc: Global, faults: &[Fault]) -> Result<Vec<u8>, ReportStop>
    ensures text { IfOk result (λ text. text.items ≡ flat_map line faults.now) }
    ensures memory { IfErr result (λ reason. reason ≡ stop.Memory) }
{
    let mut rows = Writer::from_writer(Vec::new(alloc));
    for fault in faults {
        if write_fault(&mut rows, fault).is_err() {
            return Err(ReportStop::Memory);
        }
    }
    match rows.into_inner() {
        Ok(text) => Ok(text),
        Err(_) => Err(ReportStop::Memory),
    }
}
