//! Two tables with keys, of which one byte each is fed in turn.
use crate::examples::KEYS;
use crate::left::{has_lines, report_of};
use crate::sessions::{BASE, by_bytes, started};
use csvw_engine::run_turns;
use csvw_ntriples::NtSink;
use csvw_session::{Session, Stop};
use csvw_text::Counted;
use csvw_triples_core::{Mode, TripleSink};
use std::alloc::{AllocError, Global};
use std::process::Abort;
use std::str;
use test_fakes::{Full, Slow};

const TEXTS: [&'static [u8]; 2] = [b"ref\n9\n1\n2\n\n", b"k\n1\n01\n2\n"];

/// The graph in minimal mode, its lines sorted.
const GRAPH: [&str; 6] = [
    "_:t1r1s <http://example.org/a.csv#ref> \"9\"^^<http://www.w3.org/2001/XMLSchema#integer> .",
    "_:t1r2s <http://example.org/a.csv#ref> \"1\"^^<http://www.w3.org/2001/XMLSchema#integer> .",
    "_:t1r3s <http://example.org/a.csv#ref> \"2\"^^<http://www.w3.org/2001/XMLSchema#integer> .",
    "_:t2r1s <http://example.org/b.csv#k> \"1\"^^<http://www.w3.org/2001/XMLSchema#integer> .",
    "_:t2r2s <http://example.org/b.csv#k> \"1\"^^<http://www.w3.org/2001/XMLSchema#integer> .",
    "_:t2r3s <http://example.org/b.csv#k> \"2\"^^<http://www.w3.org/2001/XMLSchema#integer> .",
];

const REPORT: &str =
    "kind,code,table,row,column\nerror,NoReferencedRow,1,2,1\nerror,ManyReferencedRows,1,3,1\nerror,DuplicateKey,2,3,1\n";

/// The first lines in standard mode: the opening, and the first triple of the first complete row.
const FRONT: [&str; 8] = [
    "_:g <http://www.w3.org/1999/02/22-rdf-syntax-ns#type> <http://www.w3.org/ns/csvw#TableGroup> .",
    "_:g <http://www.w3.org/ns/csvw#table> _:t1 .",
    "_:g <http://www.w3.org/ns/csvw#table> _:t2 .",
    "_:t1 <http://www.w3.org/1999/02/22-rdf-syntax-ns#type> <http://www.w3.org/ns/csvw#Table> .",
    "_:t1 <http://www.w3.org/ns/csvw#url> <http://example.org/a.csv> .",
    "_:t2 <http://www.w3.org/1999/02/22-rdf-syntax-ns#type> <http://www.w3.org/ns/csvw#Table> .",
    "_:t2 <http://www.w3.org/ns/csvw#row> _:t2r1 .",
    "_:t2 <http://www.w3.org/ns/csvw#url> <http://example.org/b.csv> .",
];

/// Feeds a byte of each text in turn, and finishes the session. Returns its report.
fn told<S: TripleSink>(alloc: Global, session: &mut Session<S>) -> Option<Vec<u8>> {
    match by_bytes(session, TEXTS) {
        Ok(()) => report_of(alloc, session),
        Err(_) => None,
    }
}

/// Returns the report of a session whose graph goes to a writer.
fn told_into(alloc: Global, graph: &mut Counted<Vec<u8>>) -> Option<Vec<u8>> {
    let mut session = started(alloc, KEYS, Mode::Minimal, NtSink::new(alloc, graph))?;
    let report = told(alloc, &mut session);
    session.into_sink();
    report
}

/// Returns whether a session whose graph goes to a writer has this report.
fn tells(alloc: Global, graph: &mut Counted<Vec<u8>>, report: &str) -> bool {
    match told_into(alloc, graph) {
        Some(told) => told.as_slice() == report.as_bytes(),
        None => false,
    }
}

#[test]
fn tables_in_turn_give_graph_and_report(rt: HostRuntime) {
    let alloc = rt.alloc();
    let mut graph = Counted::new(Vec::new(alloc));
    assert!(rt; tells(alloc, &mut graph, REPORT));
    assert!(rt; has_lines(alloc, graph.into_inner().as_slice(), &GRAPH));
}

/// Returns how many bytes the lines of the front have.
fn front_len() -> usize {
    let mut len = 0usize;
    for line in FRONT {
        len = len.saturating_add(line.len()).saturating_add(1);
    }
    len
}

/// Makes a writer with room for the front and 9 more bytes.
fn full(alloc: Global) -> Counted<Full> {
    Counted::new(Full::new(alloc, front_len().saturating_add(9)))
}

/// Returns whether these bytes are the front, and then a part of a line with this number of bytes.
fn is_cut(alloc: Global, taken: &[u8], len: usize) -> bool {
    let Ok(text) = str::from_utf8(taken) else {
        return false;
    };
    match text.rsplit_once('\n') {
        Some((lines, cut)) => cut.len() == len && has_lines(alloc, lines.as_bytes(), &FRONT),
        None => false,
    }
}

/// Returns whether a session stops at its writer, and takes nothing more.
fn stops<S: TripleSink>(session: &mut Session<S>) -> bool {
    matches!(by_bytes(session, TEXTS), Err(Stop::Write))
        && matches!(session.feed(1, b"\n"), Err(Stop::Failed))
}

/// Returns whether a session whose graph goes to this writer stops.
fn stops_at(alloc: Global, out: &mut Counted<Full>) -> bool {
    match started(alloc, KEYS, Mode::Standard, NtSink::new(alloc, out)) {
        Some(mut session) => {
            let stopped = stops(&mut session);
            session.into_sink();
            stopped
        }
        None => false,
    }
}

#[test]
fn whole_lines_stand_before_a_write_that_fails(rt: HostRuntime) {
    let alloc = rt.alloc();
    let mut out = full(alloc);
    assert!(rt; stops_at(alloc, &mut out));
    assert!(rt; is_cut(alloc, out.into_inner().taken.as_slice(), 9));
}

/// Makes a reader of each text that returns one byte at a time.
fn readers_of(alloc: Global) -> Result<Vec<Counted<Slow<'static>>>, AllocError> {
    let mut readers = Vec::new(alloc);
    for text in TEXTS {
        readers.push(Counted::new(Slow(text)))?;
    }
    Ok(readers)
}

/// Returns whether a run that reads a byte of each text in turn stops at its writer.
fn stops_in_turn(alloc: Global, out: &mut Counted<Full>, report: &mut Counted<Vec<u8>>) -> bool {
    let Ok(mut readers) = readers_of(alloc) else {
        return false;
    };
    let ran = run_turns(
        alloc,
        KEYS.as_bytes(),
        BASE,
        readers.as_mut_slice(),
        Mode::Standard,
        out,
        report,
    );
    matches!(ran, Err(Stop::Write))
}

#[test]
fn a_run_reads_tables_in_turn(rt: HostRuntime) {
    let alloc = rt.alloc();
    let mut out = full(alloc);
    let mut report = Counted::new(Vec::new(alloc));
    assert!(rt; stops_in_turn(alloc, &mut out, &mut report));
    assert!(rt; is_cut(alloc, out.into_inner().taken.as_slice(), 9));
    assert!(rt; report.into_inner().is_empty());
}
