//! The line that reports a stop. It needs no memory, and a document can't break it: control characters are escaped.
ghost use Rattle.std.specs.Prelude.{◌++◌, OnErr, OnOk, codes};
ghost use Rattle.csvw_command_runs.specs.Answers.{ended_line};
ghost use Rattle.csvw_command_runs.specs.Lines.{line_at, line_of, meta_line};
ghost use Rattle.csvw_streams.specs.Lines.{SendsOn};
ghost use Rattle.csvw_streams.specs.Streams.{IsCut, Tells, stream_of};

use crate::tell::send;
use csvw_engine::{MetaFault, Stop};
use csvw_streams::{Counted, LineCut, LineRoom, push_parts, push_shown};
use itoa::Buffer;
use std::io::Write;

/// Adds the name of a stop that has no place.
fn push_name<W: Write>(w: &mut Counted<W>, room: &mut LineRoom, name: &str) -> Result<(), LineCut>
    ensures ok { OnOk result (SendsOn (stream_of W.contents w.old w.new) room.old.items (codes "csvw: " ++ name.now) room.new.items) }
    ensures cut { OnErr result (IsCut (stream_of W.contents w.old w.new) (room.old.items ++ (codes "csvw: " ++ name.now))) }
{
    push_parts(w, room, &["csvw: ", name])
}

/// Adds the name of a stop, and the table and row at which it is.
fn push_place<W: Write>(
    w: &mut Counted<W>,
    room: &mut LineRoom,
    name: &str,
    table: u32,
    row: u64,
) -> Result<(), LineCut>
    ensures ok { OnOk result (SendsOn (stream_of W.contents w.old w.new) room.old.items (line_at name.now table row) room.new.items) }
    ensures cut { OnErr result (IsCut (stream_of W.contents w.old w.new) (room.old.items ++ line_at name.now table row)) }
{
    let mut table_digits = Buffer::new();
    let mut row_digits = Buffer::new();
    let table = table_digits.format(table);
    let row = row_digits.format(row);
    push_parts(w, room, &["csvw: ", name, " table ", table, " row ", row])
}

/// Adds the code and the pointer of a fault of the document.
fn push_meta<W: Write>(
    w: &mut Counted<W>,
    room: &mut LineRoom,
    fault: &MetaFault,
) -> Result<(), LineCut>
    ensures ok { OnOk result (SendsOn (stream_of W.contents w.old w.new) room.old.items (meta_line fault.now) room.new.items) }
    ensures cut { OnErr result (IsCut (stream_of W.contents w.old w.new) (room.old.items ++ meta_line fault.now)) }
{
    push_parts(w, room, &["csvw: metadata ", fault.code.name(), " "])?;
    push_shown(w, room, fault.pointer.as_str())
}

/// Adds the line of a stop, without its end.
fn push_stop<W: Write>(w: &mut Counted<W>, room: &mut LineRoom, stop: &Stop) -> Result<(), LineCut>
    ensures ok { OnOk result (SendsOn (stream_of W.contents w.old w.new) room.old.items (line_of stop.now) room.new.items) }
    ensures cut { OnErr result (IsCut (stream_of W.contents w.old w.new) (room.old.items ++ line_of stop.now)) }
{
    match stop {
        Stop::Memory => push_name(w, room, "Memory"),
        Stop::Read => push_name(w, room, "Read"),
        Stop::Write => push_name(w, room, "Write"),
        Stop::TableCount => push_name(w, room, "TableCount"),
        Stop::UnknownTable => push_name(w, room, "UnknownTable"),
        Stop::AfterEnd => push_name(w, room, "AfterEnd"),
        Stop::NotEnded => push_name(w, room, "NotEnded"),
        Stop::Failed => push_name(w, room, "Failed"),
        Stop::Meta(fault) => push_meta(w, room, fault),
        Stop::Rows { table, row, stop } => push_place(w, room, stop.name(), *table, *row),
        Stop::Table { table, row, stop } => push_place(w, room, stop.name(), *table, *row),
    }
}

/// Adds the line of a stop, with its end.
fn push_line<W: Write>(w: &mut Counted<W>, room: &mut LineRoom, stop: &Stop) -> Result<(), LineCut>
    ensures ok { OnOk result (SendsOn (stream_of W.contents w.old w.new) room.old.items (ended_line stop.now) room.new.items) }
    ensures cut { OnErr result (IsCut (stream_of W.contents w.old w.new) (room.old.items ++ ended_line stop.now)) }
{
    push_stop(w, room, stop)?;
    push_parts(w, room, &["\n"])
}

/// Sends the line of a stop, as far as the stream takes it.
pub(crate) fn send_stop<W: Write>(w: &mut Counted<W>, stop: &Stop)
    ensures { Tells (stream_of W.contents w.old w.new) (ended_line stop.now) }
{
    let mut room = LineRoom::new();
    if push_line(w, &mut room, stop).is_ok() {
        let _ = send(w, room.as_slice());
    }
}
