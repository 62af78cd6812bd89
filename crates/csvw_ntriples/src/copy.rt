//! Copies bytes without a call of a function. Two blocks that overlap cover a length between the sizes of blocks.
ghost use Rattle.std.specs.Prelude.{◌≡◌, ◌+◌, ◌≤◌, length};
ghost use Rattle.csvw_ntriples.specs.PlainCopy.{IsCopied};

use crate::scratch::overwrite;

/// Copies `N` bytes, from the place `at` on. Places count from 0.
#[inline(always)]
pub(crate) fn copy_at<const N: usize>(room: &mut [u8], bytes: &[u8], at: usize)
    requires within { at + N ≤ length bytes.now }
    requires copied { IsCopied bytes.now room.old at }
    ensures { IsCopied bytes.now room.new (at + N) }
{
    let (_, rest) = bytes.split_at(at);
    if let Some(found) = rest.first_chunk::<N>() {
        let (_, behind) = room.split_at_mut(at);
        overwrite(behind, found);
    }
}

/// Copies bytes over as many others. Most names have 16 to 64 bytes.
#[inline(always)]
pub(crate) fn copy_name(room: &mut [u8], bytes: &[u8])
    requires { length room.old ≡ length bytes.now }
    ensures { room.new ≡ bytes.now }
{
    let len = bytes.len();
    if len < 16 || len > 64 {
        room.copy_from_slice(bytes);
    } else if len <= 32 {
        copy_at::<16>(room, bytes, 0);
        copy_at::<16>(room, bytes, len - 16);
    } else {
        copy_at::<32>(room, bytes, 0);
        copy_at::<32>(room, bytes, len - 32);
    }
}
