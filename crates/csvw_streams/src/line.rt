//! Lines that are sent in parts from room of a fixed size, so that they need no memory.
ghost use Rattle.std.specs.Prelude.{◌≡◌, ◌<◌, ◌++◌, OnErr, OnOk, map};
ghost use Rattle.std.specs.List.{concat};
ghost use Rattle.csvw_streams.specs.Lines.{SendsOn, hex_digit, shown, shown_text};
ghost use Rattle.csvw_streams.specs.Streams.{IsCut, Sends, stream_of};

use crate::{Counted, write_out};
use arrayvec::ArrayVec;
use std::io::Write;

/// How many bytes of a line are kept before they are sent.
const ROOM: usize = 512;

/// The bytes of a line that are not sent yet.
pub type LineRoom = ArrayVec<u8, ROOM>;

/// A line was cut off: a write failed or took nothing.
#[derive(Clone, Copy, Debug, PartialEq, Eq)]
pub struct LineCut;

/// Sends bytes. Fails if a write fails or takes nothing.
fn send<W: Write>(w: &mut Counted<W>, bytes: &[u8]) -> Result<(), LineCut>
    ensures ok { OnOk result (Sends (stream_of W.contents w.old w.new) bytes.now) }
    ensures cut { OnErr result (IsCut (stream_of W.contents w.old w.new) bytes.now) }
{
    match write_out(w, bytes) {
        Ok(()) => Ok(()),
        Err(_) => Err(LineCut),
    }
}

/// Adds bytes to the room. If they don't fit, sends what is there and then the bytes. Fails if a write fails or takes
/// nothing.
fn push<W: Write>(w: &mut Counted<W>, room: &mut LineRoom, bytes: &[u8]) -> Result<(), LineCut>
    ensures ok { OnOk result (SendsOn (stream_of W.contents w.old w.new) room.old.items bytes.now room.new.items) }
    ensures cut { OnErr result (IsCut (stream_of W.contents w.old w.new) (room.old.items ++ bytes.now)) }
{
    match room.try_extend_from_slice(bytes) {
        Ok(()) => Ok(()),
        Err(_) => {
            send(w, room.as_slice())?;
            room.clear();
            send(w, bytes)
        }
    }
}

/// Adds texts to the room, one after the other, and sends what doesn't fit. Fails if a write fails or takes nothing.
pub fn push_parts<W: Write>(
    w: &mut Counted<W>,
    room: &mut LineRoom,
    parts: &[&str],
) -> Result<(), LineCut>
    ensures ok { OnOk result (SendsOn (stream_of W.contents w.old w.new) room.old.items (concat (map (λ part. part.now) parts.now)) room.new.items) }
    ensures cut { OnErr result (IsCut (stream_of W.contents w.old w.new) (room.old.items ++ concat (map (λ part. part.now) parts.now))) }
{
    for part in parts {
        push(w, room, part.as_bytes())?;
    }
    Ok(())
}

/// Adds a character to the room, a control character as `\u` and four hexadecimal digits. Fails if a write fails or
/// takes nothing.
fn push_char<W: Write>(w: &mut Counted<W>, room: &mut LineRoom, c: char) -> Result<(), LineCut>
    ensures ok { OnOk result (SendsOn (stream_of W.contents w.old w.new) room.old.items (shown c) room.new.items) }
    ensures cut { OnErr result (IsCut (stream_of W.contents w.old w.new) (room.old.items ++ shown c)) }
{
    if c.is_control() {
        let code = c as u32;
        return push(
            w,
            room,
            &[
                b'\\',
                b'u',
                b'0',
                b'0',
                hex_digit(code / 16),
                hex_digit(code % 16),
            ],
        );
    }
    let mut bytes = [0; 4];
    push(w, room, c.encode_utf8(&mut bytes).as_bytes())
}

/// Returns the hexadecimal digit of a number below 16, in upper case.
fn hex_digit(n: u32) -> u8
    requires { n < 16 }
    ensures { result ≡ hex_digit n }
{
    if n < 10 {
        b'0' + n as u8
    } else {
        b'A' + (n - 10) as u8
    }
}

/// Adds a text to the room, each control character as `\u` and four hexadecimal digits, so that it stays on its line.
/// Fails if a write fails or takes nothing.
pub fn push_shown<W: Write>(
    w: &mut Counted<W>,
    room: &mut LineRoom,
    text: &str,
) -> Result<(), LineCut>
    ensures ok { OnOk result (SendsOn (stream_of W.contents w.old w.new) room.old.items (shown_text text.now) room.new.items) }
    ensures cut { OnErr result (IsCut (stream_of W.contents w.old w.new) (room.old.items ++ shown_text text.now)) }
{
    let mut pushed = Ok(());
    for c in text.chars() {
        if pushed.is_ok() {
            pushed = push_char(w, room, c);
        }
    }
    pushed
}
