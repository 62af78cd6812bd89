//! Writers that keep their bytes in memory.
ghost use Rattle.std.specs.Prelude.{[], Some};

use std::alloc::Global;
use std::io::{self, ErrorKind, Write};

/// A writer with room for a limited number of bytes.
#[derive(Drop)]
pub struct Full {
    /// How many bytes it still takes.
    pub room: usize,
    /// The bytes that it took.
    pub taken: Vec<u8>,
}

impl Full {
    /// Makes a writer with room for so many bytes. It takes no memory.
    pub fn new(alloc: Global, room: usize) -> Full {
        Full {
            room,
            taken: Vec::new(alloc),
        }
    }
}

impl Write for Full {
    ghost contents = { λ w. Some w.taken.items };

    fn write(&mut self, buf: &[u8]) -> io::Result<usize> {
        let most = buf.len().min(self.room);
        if most == 0 {
            return Err(io::Error::from(ErrorKind::StorageFull));
        }
        if self.taken.extend_from_slice(&buf[..most]).is_err() {
            return Err(io::Error::from(ErrorKind::OutOfMemory));
        }
        self.room -= most;
        Ok(most)
    }

    fn flush(&mut self) -> io::Result<()> {
        Ok(())
    }
}

/// A writer that takes one byte a call. Every second call is interrupted, the first one too.
#[derive(Drop)]
pub struct SlowWriter {
    /// The bytes that it took.
    pub taken: Vec<u8>,
    /// Whether the next call takes a byte.
    is_ready: bool,
}

impl SlowWriter {
    /// Makes a writer without bytes. It takes no memory.
    pub fn new(alloc: Global) -> SlowWriter {
        SlowWriter {
            taken: Vec::new(alloc),
            is_ready: false,
        }
    }
}

impl Write for SlowWriter {
    ghost contents = { λ w. Some w.taken.items };

    fn write(&mut self, buf: &[u8]) -> io::Result<usize> {
        if !self.is_ready {
            self.is_ready = true;
            return Err(io::Error::from(ErrorKind::Interrupted));
        }
        self.is_ready = false;
        let most = buf.len().min(1);
        self.taken.write(&buf[..most])
    }

    fn flush(&mut self) -> io::Result<()> {
        Ok(())
    }
}

/// A writer that takes nothing: each write returns 0.
#[derive(Drop)]
pub struct Nothing;

impl Write for Nothing {
    ghost contents = { λ _. Some [] };

    fn write(&mut self, _buf: &[u8]) -> io::Result<usize> {
        Ok(0)
    }

    fn flush(&mut self) -> io::Result<()> {
        Ok(())
    }
}

/// A writer that takes all bytes, and whose flush fails.
#[derive(Drop)]
pub struct FlushFails {
    /// The bytes that it took.
    pub taken: Vec<u8>,
}

impl FlushFails {
    /// Makes a writer without bytes. It takes no memory.
    pub fn new(alloc: Global) -> FlushFails {
        FlushFails {
            taken: Vec::new(alloc),
        }
    }
}

impl Write for FlushFails {
    ghost contents = { λ w. Some w.taken.items };

    fn write(&mut self, buf: &[u8]) -> io::Result<usize> {
        self.taken.write(buf)
    }

    fn flush(&mut self) -> io::Result<()> {
        Err(io::Error::from(ErrorKind::StorageFull))
    }
}
