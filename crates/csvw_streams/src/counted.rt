//! Readers and writers that count their failures.
ghost use Rattle.std.specs.Prelude.{◌≡◌, ℕ, List, Option};
ghost use Rattle.std.specs.Io.KnownBytes.{Keeps, ReadConsumes, WriteAppends};
ghost use Rattle.std.specs.Io.{ReadsAtMost, WritesAtMost};

use std::io::{self, ErrorKind, Read, Write};

/// A reader or writer with a count of its failures: of the calls that returned an error, and of the
/// writes that took nothing of some bytes. It also counts the reads that reported the end: those that
/// returned 0 bytes although the buffer has room. Each count stays at the greatest `u64`. A call that is
/// interrupted (`ErrorKind::Interrupted`) is made again, and isn't counted.
#[derive(Drop)]
pub struct Counted<T> {
    inner: T,
    failures: u64,
    ends: u64,
}

impl<T> Counted<T> {
    ghost use Rattle.csvw_streams.specs.Counted.{inner_of, failures_of, ends_of};

    /// A reader or writer that hasn't failed and hasn't reported its end.
    pub fn new(inner: T) -> Counted<T>
        ensures inner { inner_of result ≡ inner }
        ensures failures { failures_of result ≡ 0 }
        ensures ends { ends_of result ≡ 0 }
    {
        Counted {
            inner,
            failures: 0,
            ends: 0,
        }
    }

    /// How often it failed.
    pub fn failures(&self) -> u64
        ensures { result ≡ failures_of self.now }
    {
        self.failures
    }

    /// How many reads reported the end: they returned 0 bytes although the buffer had room.
    pub fn ends(&self) -> u64
        ensures { result ≡ ends_of self.now }
    {
        self.ends
    }

    /// The reader or writer.
    pub fn into_inner(self) -> T
        ensures { result ≡ inner_of self }
    {
        let Counted {
            inner,
            failures: _,
            ends: _,
        } = self;
        inner
    }
}

/// Reads; a call that is interrupted is made again.
fn read_again<R: Read>(reader: &mut R, buf: &mut [u8]) -> io::Result<usize>
    ensures bound { ReadsAtMost result buf.new }
    ensures bytes { ReadConsumes (R.remaining reader.old) (R.remaining reader.new) result buf.new }
{
    for _ in 0..u64::MAX {
        match reader.read(buf) {
            Err(fault) if fault.kind() == ErrorKind::Interrupted => {}
            result => return result,
        }
    }
    reader.read(buf)
}

/// Writes after a call that was interrupted; a call that is interrupted is made again.
fn write_again<W: Write>(writer: &mut W, buf: &[u8]) -> io::Result<usize>
    ensures bound { WritesAtMost result buf.now }
    ensures bytes { WriteAppends (W.contents writer.old) (W.contents writer.new) result buf.now }
{
    for _ in 0..u64::MAX {
        match writer.write(buf) {
            Err(fault) if fault.kind() == ErrorKind::Interrupted => {}
            result => return result,
        }
    }
    writer.write(buf)
}

/// Flushes; a call that is interrupted is made again.
fn flush_again<W: Write>(writer: &mut W) -> io::Result<()>
    ensures { Keeps (W.contents writer.old) (W.contents writer.new) }
{
    for _ in 0..u64::MAX {
        match writer.flush() {
            Err(fault) if fault.kind() == ErrorKind::Interrupted => {}
            result => return result,
        }
    }
    writer.flush()
}

impl<R: Read> Read for Counted<R> {
    ghost use Rattle.csvw_streams.specs.Counted.{inner_of, failures_of, ends_of};
    ghost use Rattle.csvw_streams.specs.Count.{after_call, after_read};

    ghost remaining = { λ c. R.remaining (inner_of c) };

    fn read(&mut self, buf: &mut [u8]) -> io::Result<usize>
        ensures bound { ReadsAtMost result buf.new }
        ensures bytes { ReadConsumes (R.remaining (inner_of self.old)) (R.remaining (inner_of self.new)) result buf.new }
        ensures count { failures_of self.new ≡ after_call result (failures_of self.old) }
        ensures ends { ends_of self.new ≡ after_read result buf.new (ends_of self.old) }
    {
        let has_room = !buf.is_empty();
        let result = read_again(&mut self.inner, buf);
        match &result {
            Ok(n) => {
                if *n == 0 && has_room {
                    self.ends = self.ends.saturating_add(1);
                }
            }
            Err(_) => self.failures = self.failures.saturating_add(1),
        }
        result
    }
}

impl<W: Write> Counted<W> {
    ghost use Rattle.csvw_streams.specs.Counted.{inner_of, failures_of, ends_of};
    ghost use Rattle.csvw_streams.specs.Count.{after_write};

    /// Returns the result of a write that returned an error or took nothing of some bytes: it writes again if the
    /// call was interrupted, and counts a failure. It is seldom called, so it stays out of the callers of `write`.
    #[cold]
    #[inline(never)]
    fn settle(&mut self, first: io::Result<usize>, buf: &[u8]) -> io::Result<usize>
        ensures bound { WritesAtMost first buf.now → WritesAtMost result buf.now }
        ensures bytes { (held : Option (List ℕ)) → WriteAppends held (W.contents (inner_of self.old)) first buf.now
            → WriteAppends held (W.contents (inner_of self.new)) result buf.now }
        ensures count { failures_of self.new ≡ after_write result buf.now (failures_of self.old) }
        ensures ends { ends_of self.new ≡ ends_of self.old }
    {
        let result = match first {
            Err(fault) if fault.kind() == ErrorKind::Interrupted => write_again(
                &mut self.inner,
                buf,
            ),
            other => other,
        };
        let failed = match &result {
            Ok(n) => *n == 0 && !buf.is_empty(),
            Err(_) => true,
        };
        if failed {
            self.failures = self.failures.saturating_add(1);
        }
        result
    }
}

impl<W: Write> Write for Counted<W> {
    ghost use Rattle.csvw_streams.specs.Counted.{inner_of, failures_of, ends_of};
    ghost use Rattle.csvw_streams.specs.Count.{after_call, after_write};

    ghost contents = { λ c. W.contents (inner_of c) };

    fn write(&mut self, buf: &[u8]) -> io::Result<usize>
        ensures bound { WritesAtMost result buf.now }
        ensures bytes { WriteAppends (W.contents (inner_of self.old)) (W.contents (inner_of self.new)) result buf.now }
        ensures count { failures_of self.new ≡ after_write result buf.now (failures_of self.old) }
        ensures ends { ends_of self.new ≡ ends_of self.old }
    {
        let result = self.inner.write(buf);
        let failed = match &result {
            Ok(n) => *n == 0 && !buf.is_empty(),
            Err(_) => true,
        };
        if failed {
            return self.settle(result, buf);
        }
        result
    }

    fn flush(&mut self) -> io::Result<()>
        ensures bytes { Keeps (W.contents (inner_of self.old)) (W.contents (inner_of self.new)) }
        ensures count { failures_of self.new ≡ after_call result (failures_of self.old) }
        ensures ends { ends_of self.new ≡ ends_of self.old }
    {
        let result = flush_again(&mut self.inner);
        if result.is_err() {
            self.failures = self.failures.saturating_add(1);
        }
        result
    }
}
