//! The line of a fault, written.
ghost use Rattle.std.specs.Prelude.{◌≡◌, ◌++◌, OnErr, OnOk};
ghost use Rattle.csvw_report.specs.Report.{kind_name, line};
ghost use Rattle.csvw_streams.specs.Lines.{SendsOn};
ghost use Rattle.csvw_streams.specs.Streams.{IsCut, Sends, stream_of};

use csvw_streams::{LineCut, LineRoom, push_parts};
use csvw_text::{Counted, Fault, Kind, write_out};
use itoa::Buffer;
use std::io::Write;

/// Returns the name of a kind, as reports spell it.
fn kind_name(kind: Kind) -> &'static str
    ensures { result.now ≡ kind_name kind }
{
    match kind {
        Kind::Error => "error",
        Kind::Warning => "warning",
    }
}

/// Adds the line of a fault, and sends what doesn't fit.
fn push_fault<W: Write>(
    w: &mut Counted<W>,
    room: &mut LineRoom,
    fault: Fault,
) -> Result<(), LineCut>
    ensures ok { OnOk result (SendsOn (stream_of W.contents w.old w.new) room.old.items (line fault) room.new.items) }
    ensures cut { OnErr result (IsCut (stream_of W.contents w.old w.new) (room.old.items ++ line fault)) }
{
    let mut table = Buffer::new();
    let mut row = Buffer::new();
    let mut column = Buffer::new();
    push_parts(
        w,
        room,
        &[
            kind_name(fault.kind),
            ",",
            fault.code.name(),
            ",",
            table.format(fault.place.table),
            ",",
            row.format(fault.place.row),
            ",",
            column.format(fault.place.column),
            "\n",
        ],
    )
}

/// Writes the line of a fault. If a write fails or takes nothing, it returns `LineCut`, and a front of the line was written.
pub(crate) fn write_fault<W: Write>(w: &mut Counted<W>, fault: Fault) -> Result<(), LineCut>
    ensures ok { OnOk result (Sends (stream_of W.contents w.old w.new) (line fault)) }
    ensures cut { OnErr result (IsCut (stream_of W.contents w.old w.new) (line fault)) }
{
    let mut room = LineRoom::new();
    push_fault(w, &mut room, fault)?;
    match write_out(w, room.as_slice()) {
        Ok(()) => Ok(()),
        Err(_) => Err(LineCut),
    }
}
