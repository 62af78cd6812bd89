//! Readers over bytes in memory.
ghost use Rattle.std.specs.Prelude.{[], Some};

use std::io::{self, ErrorKind, Read};

/// A reader that returns one of these bytes at a time.
#[derive(Drop)]
pub struct Slow<'a>(pub &'a [u8]);

impl<'a> Read for Slow<'a> {
    ghost remaining = { λ s. Some s.0.now };

    fn read(&mut self, buf: &mut [u8]) -> io::Result<usize> {
        let most = buf.len().min(1);
        self.0.read(&mut buf[..most])
    }
}

/// A reader that fails after some reads, and from then on.
#[derive(Drop)]
pub struct FailingReader<'a> {
    /// The bytes that it has left.
    pub rest: &'a [u8],
    /// How many bytes a read returns at most, at least 1.
    pub piece: usize,
    /// How many reads it still makes before it fails.
    pub reads: u64,
}

impl<'a> Read for FailingReader<'a> {
    ghost remaining = { λ r. Some r.rest.now };

    fn read(&mut self, buf: &mut [u8]) -> io::Result<usize> {
        if self.reads == 0 {
            return Err(io::Error::from(ErrorKind::BrokenPipe));
        }
        self.reads -= 1;
        let most = buf.len().min(self.piece.max(1));
        self.rest.read(&mut buf[..most])
    }
}

/// A reader that returns nothing more.
#[derive(Drop)]
pub struct Ended;

impl Read for Ended {
    ghost remaining = { λ _. Some [] };

    fn read(&mut self, _buf: &mut [u8]) -> io::Result<usize> {
        Ok(0)
    }
}

/// A reader whose every second read is interrupted, the first one too. The other reads return one byte at a time.
#[derive(Drop)]
pub struct Interrupted<'a> {
    /// The bytes that it has left.
    rest: &'a [u8],
    /// Whether the next read returns a byte.
    is_ready: bool,
}

impl<'a> Interrupted<'a> {
    /// Makes a reader of these bytes.
    pub fn new(rest: &'a [u8]) -> Interrupted<'a> {
        Interrupted {
            rest,
            is_ready: false,
        }
    }
}

impl<'a> Read for Interrupted<'a> {
    ghost remaining = { λ r. Some r.rest.now };

    fn read(&mut self, buf: &mut [u8]) -> io::Result<usize> {
        if !self.is_ready {
            self.is_ready = true;
            return Err(io::Error::from(ErrorKind::Interrupted));
        }
        self.is_ready = false;
        let most = buf.len().min(1);
        self.rest.read(&mut buf[..most])
    }
}
