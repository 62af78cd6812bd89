//! Readers and writers that are slow or fail, and a line that doesn't end.

use crate::key_files::name_of;
use csvw_key_records::judge_keys;
use csvw_text::Counted;
use std::alloc::{AllocError, Global};
use std::io;
use test_fakes::{FailingReader, Full, Slow, SlowWriter};

/// Three records with two faults.
const RECORDS: &str = "1,a,unique,1,2,1\n1,a,unique,1,3,1\n2,b,refers,2,4,3\n";

/// The lines of their faults.
const FAULTS: &str = "error,DuplicateKey,1,3,1\nerror,NoReferencedRow,2,4,3\n";

/// Returns whether a reader and a writer of a byte at a time change nothing.
fn is_slow_the_same(alloc: Global) -> Result<bool, AllocError> {
    let mut reader = Counted::new(Slow(RECORDS.as_bytes()));
    let mut out = Counted::new(SlowWriter::new(alloc));
    let result = judge_keys(alloc, &mut reader, &mut out);
    let name = name_of(alloc, result)?;
    let written = out.into_inner();
    Ok(name.as_str() == "invalid" && written.taken.as_slice() == FAULTS.as_bytes())
}

/// Returns whether a reader that fails after so many reads of 10 bytes stops the run, with the faults so far.
fn stops_at_read(alloc: Global, reads: u64, faults: usize) -> Result<bool, AllocError> {
    let mut reader = Counted::new(FailingReader {
        rest: RECORDS.as_bytes(),
        piece: 10,
        reads,
    });
    let mut out = Counted::new(Vec::new(alloc));
    let result = judge_keys(alloc, &mut reader, &mut out);
    let name = name_of(alloc, result)?;
    let written = out.into_inner();
    Ok(
        name.as_str() == "Read"
            && written.as_slice() == FAULTS.as_bytes().get(..faults).unwrap_or(b"x".as_slice()),
    )
}

/// Returns whether a writer that takes so many bytes stops the run.
fn stops_at_write(alloc: Global, room: usize) -> Result<bool, AllocError> {
    let mut reader = Counted::new(RECORDS.as_bytes());
    let mut out = Counted::new(Full::new(alloc, room));
    let result = judge_keys(alloc, &mut reader, &mut out);
    let name = name_of(alloc, result)?;
    let written = out.into_inner();
    Ok(name.as_str() == "Write" && Some(written.taken.as_slice()) == FAULTS.as_bytes().get(..room))
}

/// Returns whether a line that doesn't end stops the run.
fn stops_at_long_line(alloc: Global) -> Result<bool, AllocError> {
    let mut reader = Counted::new(io::repeat(b'1'));
    let mut out = Counted::new(Vec::new(alloc));
    let result = judge_keys(alloc, &mut reader, &mut out);
    let name = name_of(alloc, result)?;
    let written = out.into_inner();
    Ok(name.as_str() == "1 TooLong" && written.is_empty())
}

#[test]
fn slow(rt: HostRuntime) {
    assert!(rt; is_slow_the_same(rt.alloc()) == Ok(true));
}

#[test]
fn readers_that_fail(rt: HostRuntime) {
    for (reads, faults) in &[(0, 0), (1, 0), (3, 0), (4, 25), (6, 53)] {
        assert!(rt;
            stops_at_read(rt.alloc(), *reads, *faults) == Ok(true),
            "{reads}"
        );
    }
}

#[test]
fn writers_that_fail(rt: HostRuntime) {
    for room in &[0, 1, 24, 25, 52] {
        assert!(rt; stops_at_write(rt.alloc(), *room) == Ok(true), "{room}");
    }
}

#[test]
fn lines_that_do_not_end(rt: HostRuntime) {
    assert!(rt; stops_at_long_line(rt.alloc()) == Ok(true));
}
