//! Bytes that are made again and again in the same memory.
ghost use Rattle.std.specs.Prelude.{◌≡◌, ◌+◌, ◌≤◌, ◌∷◌, [], ◌++◌, length, take, drop, flat_map, IfOk, OnOk, MatchBool};
ghost use Rattle.csvw_ntriples.specs.Written.{escaped};

use crate::copy::copy_name;
use crate::unescaped::copy_plain;
use std::alloc::{AllocError, Global};
use std::marker::Model;

/// Bytes that are made again and again in the same memory. It has spare room, so that most additions are one
/// comparison and one copy.
#[derive(Drop)]
pub(crate) struct Scratch {
    /// The room. It begins with the bytes.
    room: Vec<u8>,
    /// How many bytes there are.
    len: usize,
}

impl Model for Scratch {
    ghost use Rattle.std.specs.Prelude.{ℕ, List, ◌≤◌, length, take};

    ghost Value = { List ℕ };

    ghost view = { λ s. take s.len s.room.items };

    ghost invariant = { λ s. s.len ≤ length s.room.items };
}

/// Makes room for `more` bytes after the first `len` ones.
#[cold]
#[inline(never)]
fn widen(room: &mut Vec<u8>, len: usize, more: usize) -> Result<(), AllocError>
    requires { len ≤ length room.old.items }
    ensures same { take len room.new.items ≡ take len room.old.items }
    ensures long { len ≤ length room.new.items }
    ensures room { OnOk result (len + more ≤ length room.new.items) }
{
    let Some(least) = len.checked_add(more) else {
        return Err(AllocError);
    };
    room.resize(least.saturating_mul(2), 0)
}

/// Writes bytes over the first bytes of the room.
#[inline(always)]
pub(crate) fn overwrite<const N: usize>(room: &mut [u8], bytes: &[u8; N])
    requires { N ≤ length room.old }
    ensures { room.new ≡ bytes.now ++ drop N room.old }
{
    if let Some(place) = room.first_chunk_mut::<N>() {
        *place = *bytes;
    }
}

impl Scratch {
    /// Makes it without bytes. It takes no memory.
    pub(crate) fn new(alloc: Global) -> Scratch
        ensures { result ≡ [] }
    {
        Scratch {
            room: Vec::new(alloc),
            len: 0,
        }
    }

    /// Returns the bytes.
    pub(crate) fn as_slice(&self) -> &[u8]
        ensures value { result.now ≡ self.now }
    {
        &self.room.as_slice()[..self.len]
    }

    /// Returns how many bytes there are.
    pub(crate) fn len(&self) -> usize
        ensures { result ≡ length self.now }
    {
        self.len
    }

    /// Keeps the first `n` bytes.
    pub(crate) fn truncate(&mut self, n: usize)
        ensures { self.new ≡ take n self.old }
    {
        if n < self.len {
            self.len = n;
        }
    }

    /// Adds bytes at the end.
    #[inline(always)]
    pub(crate) fn push(&mut self, bytes: &[u8]) -> Result<(), AllocError>
        ensures { OnOk result (self.new ≡ self.old ++ bytes.now) }
    {
        let start = self.len;
        if self.room.len() - start < bytes.len() {
            widen(&mut self.room, start, bytes.len())?;
        }
        let end = start + bytes.len();
        self.room.as_mut_slice()[start..end].copy_from_slice(bytes);
        self.len = end;
        Ok(())
    }

    /// Adds the bytes of a name at the end.
    #[inline(always)]
    pub(crate) fn push_name(&mut self, bytes: &[u8]) -> Result<(), AllocError>
        ensures { OnOk result (self.new ≡ self.old ++ bytes.now) }
    {
        let start = self.len;
        if self.room.len() - start < bytes.len() {
            widen(&mut self.room, start, bytes.len())?;
        }
        let end = start + bytes.len();
        copy_name(&mut self.room.as_mut_slice()[start..end], bytes);
        self.len = end;
        Ok(())
    }

    /// Adds bytes at the end if it sees that none of them is escaped. Returns whether it did.
    #[inline(always)]
    pub(crate) fn push_plain(&mut self, bytes: &[u8]) -> Result<bool, AllocError>
        ensures { IfOk result (λ is_done. MatchBool is_done (self.new ≡ self.old ++ flat_map escaped bytes.now) (self.new ≡ self.old)) }
    {
        let start = self.len;
        if self.room.len() - start < bytes.len() {
            widen(&mut self.room, start, bytes.len())?;
        }
        let end = start + bytes.len();
        if !copy_plain(&mut self.room.as_mut_slice()[start..end], bytes) {
            return Ok(false);
        }
        self.len = end;
        Ok(true)
    }

    /// Adds bytes at the end whose number the compiler knows, so that the copy needs no call.
    #[inline(always)]
    pub(crate) fn push_fixed<const N: usize>(&mut self, bytes: &[u8; N]) -> Result<(), AllocError>
        ensures { OnOk result (self.new ≡ self.old ++ bytes.now) }
    {
        let start = self.len;
        if self.room.len() - start < N {
            widen(&mut self.room, start, N)?;
        }
        overwrite(&mut self.room.as_mut_slice()[start..], bytes);
        self.len = start + N;
        Ok(())
    }
}
