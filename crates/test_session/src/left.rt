//! The graphs and reports that sessions and runs leave.
use csvw_report::write_report;
use csvw_session::Session;
use csvw_text::{Counted, Fault};
use csvw_triples_core::TripleSink;
use std::alloc::{AllocError, Global};
use std::str;

/// The graph and the report of some tables.
#[derive(Drop)]
pub(crate) struct Left {
    /// The graph, in N-Triples.
    pub(crate) graph: Vec<u8>,
    /// The report.
    pub(crate) report: Vec<u8>,
}

/// Returns the report of these faults.
fn report(alloc: Global, faults: &[Fault]) -> Option<Vec<u8>> {
    let mut report = Counted::new(Vec::new(alloc));
    match write_report(alloc, faults, &mut report) {
        Ok(()) => Some(report.into_inner()),
        Err(_) => None,
    }
}

/// Finishes a session, and returns its report.
pub(crate) fn report_of<S: TripleSink>(alloc: Global, session: &mut Session<S>) -> Option<Vec<u8>> {
    match session.finish() {
        Ok(outcome) => report(alloc, outcome.faults.as_slice()),
        Err(_) => None,
    }
}

/// Returns the lines of a text, sorted.
fn sorted_lines<'a>(alloc: Global, text: &'a str) -> Result<Vec<&'a str>, AllocError> {
    let mut lines = text.lines().collect::<Vec<&str>>(alloc)?;
    lines.sort()?;
    Ok(lines)
}

/// Returns the lines of a graph, sorted.
fn lines_of(alloc: Global, graph: &[u8]) -> Option<Vec<&str>> {
    sorted_lines(alloc, str::from_utf8(graph).ok()?).ok()
}

/// Returns whether a graph has exactly these lines, in any order.
pub(crate) fn has_lines(alloc: Global, graph: &[u8], lines: &[&str]) -> bool {
    match lines_of(alloc, graph) {
        Some(found) => found.as_slice() == lines,
        None => false,
    }
}

/// Returns whether both are the same graph, as sets of lines.
fn is_same_graph(alloc: Global, a: &[u8], b: &[u8]) -> bool {
    match lines_of(alloc, b) {
        Some(lines) => has_lines(alloc, a, lines.as_slice()),
        None => false,
    }
}

/// Returns whether both have the same graph, as sets of lines, and the same report.
pub(crate) fn are_same(alloc: Global, a: &Left, b: &Left) -> bool {
    is_same_graph(alloc, a.graph.as_slice(), b.graph.as_slice())
        && a.report.as_slice() == b.report.as_slice()
}
