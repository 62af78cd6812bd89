//! Runs whose writers fail.

use crate::runs::{File, PLAIN, status_of};
use csvw_text::Counted;
use std::alloc::Global;
use std::io::{self, Write};
use test_fakes::{FlushFails, Full};

/// The line on standard error if a writer fails.
const STOP: &[u8] = b"csvw: Write\n";

/// Returns whether a run whose graph has more bytes than its writer has room for reports that, after the front that
/// has room.
fn tells_a_full_writer(alloc: Global, files: &[File<'_>], front: &[u8]) -> bool {
    let mut out = Counted::new(Full::new(alloc, front.len()));
    let mut err = Counted::new(Vec::new(alloc));
    let status = status_of(alloc, PLAIN, files, &mut out, &mut err);
    let out = out.into_inner().taken;
    let err = err.into_inner();
    status == Some(4) && out.as_slice() == front && err.as_slice() == STOP
}

static NAMES: [File<'static>; 1] = [File {
    path: "p.csv",
    bytes: b"id,name\n1,Ann\n",
}];

#[test]
fn a_writer_that_fails_has_a_front_of_the_graph(rt: HostRuntime) {
    // 50 bytes
    let front = b"_:t1r1s <http://example.org/p.csv#id> \"1\" .\n_:t1r1";
    assert!(rt; tells_a_full_writer(rt.alloc(), &NAMES, front));
}

/// A table whose second row has one field too many.
static RAGGED: [File<'static>; 1] = [File {
    path: "p.csv",
    bytes: b"id\n1\n2,3\n",
}];

/// The result of a run whose writer's flush fails.
#[derive(Drop)]
struct Lost {
    /// Its status.
    status: u8,
    /// How often the writer failed.
    failures: u64,
    /// What standard error got.
    err: &'static [u8],
}

/// Returns whether a run of these words over a table whose writer's flush fails has this result.
fn leaves(alloc: Global, words: &str, lost: &Lost) -> bool {
    let mut out = Counted::new(FlushFails::new(alloc));
    let mut err = Counted::new(Vec::new(alloc));
    let status = status_of(alloc, words, &RAGGED, &mut out, &mut err);
    let err = err.into_inner();
    status == Some(lost.status) && out.failures() == lost.failures && err.as_slice() == lost.err
}

#[test]
fn a_flush_that_fails_is_reported_in_place_of_a_stop_in_a_table(rt: HostRuntime) {
    let lost = Lost {
        status: 4,
        failures: 1,
        err: STOP,
    };
    assert!(rt; leaves(rt.alloc(), PLAIN, &lost));
}

#[test]
fn nothing_is_flushed_before_the_tables(rt: HostRuntime) {
    let lost = Lost {
        status: 3,
        failures: 0,
        err: b"csvw: metadata BadUrl /url\n",
    };
    assert!(rt; leaves(rt.alloc(), "csvw plain http://[ p.csv", &lost));
}

/// A writer that keeps its bytes until it is flushed.
#[derive(Drop)]
struct Kept {
    /// The bytes that wait for a flush.
    waiting: Vec<u8>,
    /// The bytes that were flushed.
    flushed: Vec<u8>,
}

impl Write for Kept {
    fn write(&mut self, buf: &[u8]) -> io::Result<usize> {
        match self.waiting.extend_from_slice(buf) {
            Ok(()) => Ok(buf.len()),
            Err(_) => Err(io::Error::from(io::ErrorKind::OutOfMemory)),
        }
    }

    fn flush(&mut self) -> io::Result<()> {
        if self
            .flushed
            .extend_from_slice(self.waiting.as_slice())
            .is_err()
        {
            return Err(io::Error::from(io::ErrorKind::OutOfMemory));
        }
        self.waiting.clear();
        Ok(())
    }
}

/// The graph of `NAMES`: 92 bytes.
const GRAPH: &[u8] =
    b"_:t1r1s <http://example.org/p.csv#id> \"1\" .\n_:t1r1s <http://example.org/p.csv#name> \"Ann\" .\n";

#[test]
fn the_graph_is_flushed_where_the_report_fails(rt: HostRuntime) {
    let alloc = rt.alloc();
    let mut out = Counted::new(Kept {
        waiting: Vec::new(alloc),
        flushed: Vec::new(alloc),
    });
    let mut err = Counted::new(Full::new(alloc, 0));
    let status = status_of(alloc, PLAIN, &NAMES, &mut out, &mut err);
    assert!(rt; status == Some(4));
    assert!(rt; out.into_inner().flushed.as_slice() == GRAPH);
}
