//! The line that reports a file which can't be read. It needs no memory.

use arrayvec::ArrayString;
use csvw_streams::{Counted, LineCut, LineRoom, push_parts, push_shown, write_out};
use std::fmt::Write as _;
use std::io::{self, Write};

/// The longest text of the system's error, in bytes. What is longer is cut off.
const ERROR_BYTES: usize = 128;

/// Adds the system's error, if it is known.
fn push_error<W: Write>(
    error: &Option<io::Error>,
    err: &mut Counted<W>,
    room: &mut LineRoom,
) -> Result<(), LineCut> {
    let Some(error) = error else {
        return Ok(());
    };
    let mut text = ArrayString::<ERROR_BYTES>::new();
    let _ = write!(text, "{error}");
    push_parts(err, room, &[": ", text.as_str()])
}

/// Adds the line of the file at a path to the room. Control characters of the path are escaped.
fn push_line<W: Write>(
    path: &str,
    error: &Option<io::Error>,
    err: &mut Counted<W>,
    room: &mut LineRoom,
) -> Result<(), LineCut> {
    push_parts(err, room, &["csvw: "])?;
    push_shown(err, room, path)?;
    push_parts(err, room, &[": the file can't be opened or read"])?;
    push_error(error, err, room)?;
    push_parts(err, room, &["\n"])
}

/// Writes a line that the file at a path can't be opened or read, with the system's error if it is known, as far as the
/// stream takes it.
pub fn note_unread<W: Write>(path: &str, error: Option<io::Error>, err: &mut Counted<W>) {
    let mut room = LineRoom::new();
    if push_line(path, &error, err, &mut room).is_ok() {
        let _ = write_out(err, room.as_slice());
    }
}
