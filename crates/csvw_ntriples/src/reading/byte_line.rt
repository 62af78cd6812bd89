//! Reads the first line of the bytes of a document.
ghost use Rattle.std.specs.Prelude.{◌≡◌, ◌<◌, chars, length, Err, IsUtf8, OnOk};
ghost use Rattle.csvw_ntriples.specs.Character.{is_break};
ghost use Rattle.csvw_ntriples.specs.Passing.{BytesGive, IsFirstLine};
ghost use Rattle.csvw_ntriples.specs.Reading.{Answers};

use super::triple_line::line;
use crate::{NtFault, NtTriple};
use std::alloc::Global;

fn is_line_break(byte: u8) -> bool
    ensures { result ≡ is_break byte }
{
    byte == b'\r' || byte == b'\n'
}

/// Returns the bytes before the first line break, and those after it. No bytes follow the last line.
pub(crate) fn first_line(bytes: &[u8]) -> (&[u8], &[u8])
    ensures line { IsFirstLine bytes.now result.0.now result.1.now }
    ensures shorter { 0 < length bytes.now → length result.1.now < length bytes.now }
{
    for (i, byte) in bytes.iter().enumerate() {
        if is_line_break(*byte) {
            return (&bytes[..i], &bytes[i + 1..]);
        }
    }
    (bytes, &[])
}

/// Writes the characters of a line into the buffer, in place of those that it has. Fails with `Syntax` if the bytes
/// are not UTF-8, and with `Memory` if memory runs out.
fn decode(bytes: &[u8], characters: &mut Vec<char>) -> Result<(), NtFault>
    ensures decoded { OnOk result (IsUtf8 bytes.now × (characters.new.items ≡ chars bytes.now)) }
    ensures fault { result ≡ Err NtFault.Syntax → IsUtf8 bytes.now → ⊥ }
{
    let Ok(text) = std::str::from_utf8(bytes) else {
        return Err(NtFault::Syntax);
    };
    characters.clear();
    match characters.extend(text.chars()) {
        Ok(()) => Ok(()),
        Err(_) => Err(NtFault::Memory),
    }
}

/// Reads the triple of a line. Returns `None` if the line has only spaces, tabs and perhaps a comment. The buffer
/// keeps its memory from line to line.
pub(crate) fn triple_of(
    alloc: Global,
    bytes: &[u8],
    characters: &mut Vec<char>,
) -> Result<Option<NtTriple>, NtFault>
    ensures { Answers (BytesGive bytes.now) result }
{
    decode(bytes, characters)?;
    line(alloc, characters)
}
