//! Gives a table so many bytes of a reader.
ghost use Rattle.std.specs.Prelude.{◌≡◌, ◌<◌, ◌≤◌, IfOk, false, length};
ghost use Rattle.csvw_columns.specs.Ready.{IsReady};
ghost use Rattle.csvw_engine_core.specs.Tables.{is_ended, outlets};
ghost use Rattle.csvw_parts.specs.Pieces.{GivesPiece};

use crate::fault::PartFault;
use csvw_text::Counted;
use std::alloc::{AllocError, Global};
use std::io::Read;

/// The most bytes of one read.
pub(crate) const PIECE: usize = 65_536;

/// Returns a buffer for a read.
pub(crate) fn buffer_of(alloc: Global, len: usize) -> Result<Vec<u8>, AllocError>
    ensures { IfOk result (λ v. length v.items ≡ len) }
{
    vec![in alloc; 0u8; len]
}

/// Reads at most `left` bytes into a buffer. Returns how many, which is at least one.
pub(crate) fn read_piece<R: Read>(
    reader: &mut Counted<R>,
    room: &mut [u8],
    left: u64,
) -> Result<usize, PartFault>
    requires room { 0 < length room.old }
    requires left { 0 < left }
    ensures room { length room.new ≡ length room.old }
    ensures piece { GivesPiece R.remaining reader.old reader.new room.new left result }
{
    let wanted = match usize::try_from(left) {
        Ok(left) => left.min(room.len()),
        Err(_) => room.len(),
    };
    match reader.read(&mut room[..wanted]) {
        Ok(0) => Err(PartFault::ShortFile),
        Ok(n) => Ok(n),
        Err(_) => Err(PartFault::Read),
    }
}
