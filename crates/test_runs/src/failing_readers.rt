//! Runs whose readers fail, or return little at a time.

use crate::device_cases::CASES;
use crate::devices::{Case, Failure, ORDERS, graph_before, run_case};
use crate::running::{Order, is_report};
use csvw_engine::Stop;
use csvw_text::Counted;
use std::alloc::{AllocError, Global};
use std::io::Read;
use std::process::Abort;
use test_fakes::{Ended, FailingReader, Interrupted, Slow};

/// How many bytes a read returns at most: 1, 5, or more than any text of the cases has.
const PIECES: [u32; 3] = [1, 5, 64];

/// Returns a reader of each text, each of which returns pieces of at most so many bytes. One may fail.
fn readers_of(
    alloc: Global,
    case: &Case,
    piece: u32,
    failure: Option<Failure>,
) -> Result<Vec<Counted<FailingReader<'static>>>, AllocError> {
    let mut readers = Vec::new(alloc);
    for (i, table) in case.tables.iter().enumerate() {
        readers.push(Counted::new(FailingReader {
            rest: table.text,
            piece: piece as usize,
            reads: Failure::reads_before(failure, i),
        }))?;
    }
    Ok(readers)
}

/// Returns the sum of the failures of the readers.
fn failures_of<R>(readers: &[Counted<R>]) -> u64 {
    let mut sum = 0u64;
    for reader in readers {
        sum = sum.saturating_add(reader.failures());
    }
    sum
}

/// Returns whether these are the bytes of this graph, if there is one.
fn is_graph(bytes: &[u8], graph: Option<String>) -> bool {
    match graph {
        Some(graph) => bytes == graph.as_bytes(),
        None => false,
    }
}

/// Returns whether a run over these readers stops with `Read`, after the rows that are complete before the failure.
fn stops_after(
    alloc: Global,
    case: &Case,
    order: Order,
    readers: &mut [Counted<FailingReader<'static>>],
    graph: Option<String>,
) -> bool {
    let mut out = Counted::new(Vec::new(alloc));
    let mut report = Counted::new(Vec::new(alloc));
    let ran = run_case(alloc, case, order, readers, &mut out, &mut report);
    matches!(ran, Err(Stop::Read))
        && failures_of(readers) == 1
        && is_graph(out.into_inner().as_slice(), graph)
        && report.into_inner().is_empty()
}

/// Returns whether a run stops at this read, after the rows that are complete before it.
fn stops_at(alloc: Global, case: &Case, order: Order, piece: u32, failure: Failure) -> bool {
    let graph = graph_before(alloc, case, order, u64::from(piece), Some(failure));
    match readers_of(alloc, case, piece, Some(failure)) {
        Ok(mut readers) => stops_after(alloc, case, order, readers.as_mut_slice(), graph),
        Err(_) => false,
    }
}

/// Returns how many reads of these pieces a text needs, the read that reports its end among them.
fn reads_of(text: &[u8], piece: u32) -> u64 {
    let piece = u64::from(piece).max(1);
    (text.len() as u64).div_ceil(piece).saturating_add(1)
}

/// Returns whether a run stops at each read of each table.
fn stops_at_each(alloc: Global, case: &Case, order: Order, piece: u32) -> bool {
    for (table, described) in case.tables.iter().enumerate() {
        for read in 0..reads_of(described.text, piece) {
            let read = read.saturating_add(1);
            if !stops_at(alloc, case, order, piece, Failure { table, read }) {
                return false;
            }
        }
    }
    true
}

#[test]
fn a_run_stops_at_each_read_that_fails(rt: HostRuntime) {
    let alloc = rt.alloc();
    for case in &CASES {
        for order in ORDERS {
            for piece in PIECES {
                assert!(rt; stops_at_each(alloc, case, order, piece), "{}", case.what);
            }
        }
    }
}

/// Returns whether a run over these readers leaves the whole graph and the report. Its reads return pieces of at most
/// so many bytes.
fn is_whole<R: Read>(
    alloc: Global,
    case: &Case,
    order: Order,
    readers: &mut [Counted<R>],
    piece: u32,
) -> bool {
    let graph = graph_before(alloc, case, order, u64::from(piece), None);
    let mut out = Counted::new(Vec::new(alloc));
    let mut report = Counted::new(Vec::new(alloc));
    let ran = run_case(alloc, case, order, readers, &mut out, &mut report);
    ran.is_ok()
        && failures_of(readers) == 0
        && is_graph(out.into_inner().as_slice(), graph)
        && is_report(report.into_inner().as_slice(), case.faults)
}

/// Returns whether a run whose readers return pieces of at most so many bytes leaves the whole graph and the report.
fn ends_with(alloc: Global, case: &Case, order: Order, piece: u32) -> bool {
    match readers_of(alloc, case, piece, None) {
        Ok(mut readers) => is_whole(alloc, case, order, readers.as_mut_slice(), piece),
        Err(_) => false,
    }
}

/// Returns a reader of each text that returns a byte at a time.
fn slow_readers(alloc: Global, case: &Case) -> Result<Vec<Counted<Slow<'static>>>, AllocError> {
    let mut readers = Vec::new(alloc);
    for table in case.tables {
        readers.push(Counted::new(Slow(table.text)))?;
    }
    Ok(readers)
}

/// Returns a reader of each text that returns a byte at a time, and is interrupted before each.
fn interrupted_readers(
    alloc: Global,
    case: &Case,
) -> Result<Vec<Counted<Interrupted<'static>>>, AllocError> {
    let mut readers = Vec::new(alloc);
    for table in case.tables {
        readers.push(Counted::new(Interrupted::new(table.text)))?;
    }
    Ok(readers)
}

/// Returns whether a run over readers that return a byte at a time leaves the whole graph and the report.
fn ends_byte_by_byte(alloc: Global, case: &Case, order: Order) -> bool {
    match slow_readers(alloc, case) {
        Ok(mut readers) => is_whole(alloc, case, order, readers.as_mut_slice(), 1),
        Err(_) => false,
    }
}

/// Returns whether a run over readers that are interrupted leaves the whole graph and the report.
fn ends_over_interrupts(alloc: Global, case: &Case, order: Order) -> bool {
    match interrupted_readers(alloc, case) {
        Ok(mut readers) => is_whole(alloc, case, order, readers.as_mut_slice(), 1),
        Err(_) => false,
    }
}

#[test]
fn pieces_of_any_length_make_the_same_graph(rt: HostRuntime) {
    let alloc = rt.alloc();
    for case in &CASES {
        for order in ORDERS {
            for piece in PIECES {
                assert!(rt; ends_with(alloc, case, order, piece), "{}", case.what);
            }
            assert!(rt; ends_byte_by_byte(alloc, case, order), "{}", case.what);
            assert!(rt; ends_over_interrupts(alloc, case, order), "{}", case.what);
        }
    }
}

/// Returns whether a run over a reader that returns nothing leaves no graph, and reports that there is no header.
fn ends_at_once(alloc: Global, case: &Case, order: Order) -> bool {
    let mut readers = [Counted::new(Ended)];
    let mut out = Counted::new(Vec::new(alloc));
    let mut report = Counted::new(Vec::new(alloc));
    let ran = run_case(alloc, case, order, &mut readers, &mut out, &mut report);
    ran.is_ok()
        && out.into_inner().is_empty()
        && is_report(
            report.into_inner().as_slice(),
            "error,HeaderMissing,1,0,0\n",
        )
}

#[test]
fn a_reader_that_returns_nothing_is_an_empty_file(rt: HostRuntime) {
    let alloc = rt.alloc();
    for order in ORDERS {
        assert!(rt; ends_at_once(alloc, &CASES[0], order));
    }
}
