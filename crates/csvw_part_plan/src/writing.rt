//! `write_plan`: the text of a plan, sent to a writer.
ghost use Rattle.std.specs.Prelude.{OnErr, OnOk, ◌++◌};
ghost use Rattle.csvw_streams.specs.Lines.{SendsOn};
ghost use Rattle.csvw_streams.specs.Streams.{IsCut, Sends, stream_of};
ghost use Rattle.csvw_part_plan.specs.Plans.{line, plan_text};

use crate::piece::Piece;
use crate::reading::HEADING;
use csvw_streams::{Counted, LineCut, LineRoom, push_parts, write_out};
use itoa::Buffer;
use std::io::Write;

/// Adds the line of a piece.
fn push_piece<W: Write>(
    w: &mut Counted<W>,
    room: &mut LineRoom,
    piece: &Piece,
) -> Result<(), LineCut>
    ensures ok { OnOk result (SendsOn (stream_of W.contents w.old w.new) room.old.items (line piece.now) room.new.items) }
    ensures cut { OnErr result (IsCut (stream_of W.contents w.old w.new) (room.old.items ++ line piece.now)) }
{
    let mut part = Buffer::new();
    let mut table = Buffer::new();
    let mut first_byte = Buffer::new();
    let mut bytes = Buffer::new();
    let mut rows = Buffer::new();
    let mut data_rows = Buffer::new();
    let mut header_bytes = Buffer::new();
    push_parts(
        w,
        room,
        &[
            part.format(piece.part),
            ",",
            table.format(piece.table),
            ",",
            first_byte.format(piece.first_byte),
            ",",
            bytes.format(piece.bytes),
            ",",
            rows.format(piece.rows_before),
            ",",
            data_rows.format(piece.data_rows_before),
            ",",
            header_bytes.format(piece.header_bytes),
            "\n",
        ],
    )
}

/// Adds the heading and the lines of the pieces.
fn push_plan<W: Write>(
    w: &mut Counted<W>,
    room: &mut LineRoom,
    pieces: &[Piece],
) -> Result<(), LineCut>
    ensures ok { OnOk result (SendsOn (stream_of W.contents w.old w.new) room.old.items (plan_text pieces.now) room.new.items) }
    ensures cut { OnErr result (IsCut (stream_of W.contents w.old w.new) (room.old.items ++ plan_text pieces.now)) }
{
    push_parts(w, room, &[HEADING])?;
    for piece in pieces {
        push_piece(w, room, piece)?;
    }
    Ok(())
}

/// Writes a plan: the heading and a line for each piece. Returns `LineCut` if a write fails or takes nothing. A front of the plan was
/// written by then.
pub fn write_plan<W: Write>(pieces: &[Piece], w: &mut Counted<W>) -> Result<(), LineCut>
    ensures ok { OnOk result (Sends (stream_of W.contents w.old w.new) (plan_text pieces.now)) }
    ensures cut { OnErr result (IsCut (stream_of W.contents w.old w.new) (plan_text pieces.now)) }
{
    let mut room = LineRoom::new();
    push_plan(w, &mut room, pieces)?;
    match write_out(w, room.as_slice()) {
        Ok(()) => Ok(()),
        Err(_) => Err(LineCut),
    }
}
