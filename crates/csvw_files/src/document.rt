//! The bytes of a metadata document.
ghost use Rattle.std.specs.Prelude.{◌≡◌, ◌<◌, IfErr, IfOk, OnOk, length};
ghost use Rattle.csvw_streams.specs.Counted.{inner_of, failures_of};
ghost use Rattle.csvw_files.specs.Documents.{IsDocument, IsReadStop, ReadsOn};

use csvw_engine_core::Stop;
use csvw_streams::Counted;
use std::alloc::{AllocError, Global};
use std::io::Read;

/// How many bytes of a document are read at most: one more than it may have.
const DOCUMENT_BYTES: usize = 1_048_577;

/// How many bytes one read takes at most.
const PIECE: usize = 65_536;

fn buffer_of(alloc: Global, len: usize) -> Result<Vec<u8>, AllocError>
    ensures { IfOk result (λ v. length v.items ≡ len) }
{
    vec![in alloc; 0u8; len]
}

/// Reads a piece into its room, and adds it to the bytes so far. Returns whether the reader goes on.
fn read_piece<R: Read>(
    reader: &mut Counted<R>,
    room: &mut [u8],
    bytes: &mut Vec<u8>,
) -> Result<bool, Stop>
    requires { 0 < length room.old }
    ensures { ReadsOn R.remaining reader.old reader.new (length room.old) bytes.old.items bytes.new.items result }
{
    let Ok(n) = reader.read(room) else {
        return Err(Stop::Read);
    };
    if n == 0 {
        return Ok(false);
    }
    match bytes.extend_from_slice(&room[..n]) {
        Ok(()) => Ok(true),
        Err(_) => Err(Stop::Memory),
    }
}

/// Reads a metadata document to its end, or one byte past its limit. `Read` where the reader failed, `Memory` where there is none.
pub fn read_document<R: Read>(alloc: Global, reader: &mut Counted<R>) -> Result<Vec<u8>, Stop>
    ensures document { IfOk result (λ bytes. IsDocument (R.remaining (inner_of reader.old)) bytes.items) }
    ensures steady { OnOk result (failures_of reader.new ≡ failures_of reader.old) }
    ensures stop { IfErr result (IsReadStop reader.old reader.new) }
{
    let Ok(mut buffer) = buffer_of(alloc, PIECE) else {
        return Err(Stop::Memory);
    };
    let room = buffer.as_mut_slice();
    let mut bytes = Vec::new(alloc);
    while bytes.len() < DOCUMENT_BYTES {
        let wanted = room.len().min(DOCUMENT_BYTES - bytes.len());
        if !read_piece(reader, &mut room[..wanted], &mut bytes)? {
            return Ok(bytes);
        }
    }
    Ok(bytes)
}
