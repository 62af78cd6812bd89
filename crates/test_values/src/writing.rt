//! Writes that are cut off.
use csvw_text::{Counted, Cut, write_out};
use std::alloc::Global;
use std::io;
use std::io::Write;
use std::process::Abort;

/// A writer that takes one byte a call, and fails after so many bytes.
#[derive(Drop)]
struct SlowWriter {
    room: usize,
    taken: Vec<u8>,
}

impl Write for SlowWriter {
    fn write(&mut self, buf: &[u8]) -> io::Result<usize> {
        let Some(first) = buf.first() else {
            return Ok(0);
        };
        if self.room == 0 {
            return Err(io::Error::from(io::ErrorKind::BrokenPipe));
        }
        let Ok(()) = self.taken.push(*first) else {
            return Err(io::Error::from(io::ErrorKind::OutOfMemory));
        };
        self.room -= 1;
        Ok(1)
    }

    fn flush(&mut self) -> io::Result<()> {
        Ok(())
    }
}

/// A writer that takes nothing.
#[derive(Drop)]
struct FullWriter;

impl Write for FullWriter {
    fn write(&mut self, _buf: &[u8]) -> io::Result<usize> {
        Ok(0)
    }

    fn flush(&mut self) -> io::Result<()> {
        Err(io::Error::from(io::ErrorKind::StorageFull))
    }
}

/// Returns whether a write of `abc` has the expected result, if the writer takes these bytes and then fails.
fn is_written(alloc: Global, taken: &[u8], written: Result<(), Cut>, failures: u64) -> bool {
    let mut w = Counted::new(SlowWriter {
        room: taken.len(),
        taken: Vec::new(alloc),
    });
    let is_answer = write_out(&mut w, b"abc") == written && w.failures() == failures;
    w.into_inner().taken.as_slice() == taken && is_answer
}

#[test]
fn goes_on_byte_by_byte(rt: HostRuntime) {
    assert!(rt; is_written(rt.alloc(), b"abc", Ok(()), 0));
}

#[test]
fn tells_how_many_bytes_went_out(rt: HostRuntime) {
    assert!(rt; is_written(rt.alloc(), b"ab", Err(Cut { sent: 2 }), 1));
}

#[test]
fn a_writer_that_takes_nothing_is_a_cut(rt: HostRuntime) {
    let mut w = Counted::new(FullWriter);
    assert_eq!(rt; write_out(&mut w, b"abc"), Err(Cut { sent: 0 }));
    assert!(rt; w.flush().is_err());
    assert_eq!(rt; w.failures(), 2);
    assert!(rt; write_out(&mut w, b"").is_ok());
}
