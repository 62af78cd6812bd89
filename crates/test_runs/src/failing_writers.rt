//! Runs whose writers fail, or take little at a time.

use crate::device_cases::CASES;
use crate::devices::{Case, ORDERS, graph_before, run_texts};
use crate::running::{Order, is_report};
use csvw_engine::Stop;
use csvw_text::Counted;
use std::alloc::Global;
use std::io::Write;
use std::process::Abort;
use test_fakes::{FlushFails, Full, Nothing, SlowWriter};

/// More bytes than any text of the cases has.
const WHOLE: u64 = 65_536;

/// Returns the graph of a run whose readers return each text whole.
fn graph_of(alloc: Global, case: &Case, order: Order) -> Option<String> {
    graph_before(alloc, case, order, WHOLE, None)
}

/// Returns whether a run over this writer stops with `Write`, and writes no report.
fn is_stopped<W: Write>(alloc: Global, case: &Case, order: Order, out: &mut Counted<W>) -> bool {
    let mut report = Counted::new(Vec::new(alloc));
    let ran = run_texts(alloc, case, order, out, &mut report);
    matches!(ran, Err(Stop::Write)) && report.into_inner().is_empty()
}

/// Returns whether a run over a writer with room for so many bytes stops with them, and calls the writer no more
/// after it failed.
fn stops_with(alloc: Global, case: &Case, order: Order, front: &[u8]) -> bool {
    let mut out = Counted::new(Full::new(alloc, front.len()));
    is_stopped(alloc, case, order, &mut out)
        && out.failures() == 1
        && out.into_inner().taken.as_slice() == front
}

/// Returns whether runs over writers with room for each proper front of the graph stop with that front.
fn stops_with_each(alloc: Global, case: &Case, order: Order, graph: &[u8]) -> bool {
    for room in 0..graph.len() {
        if !stops_with(alloc, case, order, &graph[..room]) {
            return false;
        }
    }
    true
}

/// Returns whether a run over a writer with room for just the graph is Ok.
fn fits(alloc: Global, case: &Case, order: Order, graph: &[u8]) -> bool {
    let mut out = Counted::new(Full::new(alloc, graph.len()));
    let mut report = Counted::new(Vec::new(alloc));
    let ran = run_texts(alloc, case, order, &mut out, &mut report);
    ran.is_ok()
        && out.failures() == 0
        && out.into_inner().taken.as_slice() == graph
        && is_report(report.into_inner().as_slice(), case.faults)
}

/// Returns whether runs over writers with room for so many bytes leave so many bytes of the graph.
fn fills_each(alloc: Global, case: &Case, order: Order) -> bool {
    match graph_of(alloc, case, order) {
        Some(graph) => {
            stops_with_each(alloc, case, order, graph.as_bytes())
                && fits(alloc, case, order, graph.as_bytes())
        }
        None => false,
    }
}

#[test]
fn a_writer_has_as_many_bytes_as_it_has_room_for(rt: HostRuntime) {
    let alloc = rt.alloc();
    for case in &CASES {
        assert!(rt; fills_each(alloc, case, Order::OneByOne), "{}", case.what);
    }
}

#[test]
fn a_writer_has_as_many_bytes_in_turn(rt: HostRuntime) {
    let alloc = rt.alloc();
    for case in &CASES {
        assert!(rt; fills_each(alloc, case, Order::InTurn), "{}", case.what);
    }
}

/// Returns whether a second run over a writer that failed adds nothing to its bytes.
fn stays_full(alloc: Global, case: &Case, order: Order) -> bool {
    let mut out = Counted::new(Full::new(alloc, 50));
    let stops = is_stopped(alloc, case, order, &mut out);
    let stops_again = is_stopped(alloc, case, order, &mut out);
    stops && stops_again && out.failures() == 2 && out.into_inner().taken.len() == 50
}

#[test]
fn a_writer_that_failed_gets_nothing_in_a_later_run(rt: HostRuntime) {
    let alloc = rt.alloc();
    for case in &CASES {
        for order in ORDERS {
            assert!(rt; stays_full(alloc, case, order), "{}", case.what);
        }
    }
}

/// Returns whether these are the bytes of the graph of the case.
fn is_graph_of(alloc: Global, case: &Case, order: Order, bytes: &[u8]) -> bool {
    match graph_of(alloc, case, order) {
        Some(graph) => bytes == graph.as_bytes(),
        None => false,
    }
}

/// Returns whether a run over writers that take one byte a call leaves the whole graph and the report.
fn goes_byte_by_byte(alloc: Global, case: &Case, order: Order) -> bool {
    let mut out = Counted::new(SlowWriter::new(alloc));
    let mut report = Counted::new(SlowWriter::new(alloc));
    let ran = run_texts(alloc, case, order, &mut out, &mut report);
    ran.is_ok()
        && out.failures() == 0
        && report.failures() == 0
        && is_graph_of(alloc, case, order, out.into_inner().taken.as_slice())
        && is_report(report.into_inner().taken.as_slice(), case.faults)
}

/// Returns whether a run whose flush of the graph fails stops, with the whole graph and report written.
fn stops_at_flush(alloc: Global, case: &Case, order: Order) -> bool {
    let mut out = Counted::new(FlushFails::new(alloc));
    let mut report = Counted::new(Vec::new(alloc));
    let ran = run_texts(alloc, case, order, &mut out, &mut report);
    matches!(ran, Err(Stop::Write))
        && out.failures() == 1
        && is_graph_of(alloc, case, order, out.into_inner().taken.as_slice())
        && is_report(report.into_inner().as_slice(), case.faults)
}

/// Returns whether a run whose flush of the report fails stops, with the whole graph and report written.
fn stops_at_last_flush(alloc: Global, case: &Case, order: Order) -> bool {
    let mut out = Counted::new(Vec::new(alloc));
    let mut report = Counted::new(FlushFails::new(alloc));
    let ran = run_texts(alloc, case, order, &mut out, &mut report);
    matches!(ran, Err(Stop::Write))
        && report.failures() == 1
        && is_graph_of(alloc, case, order, out.into_inner().as_slice())
        && is_report(report.into_inner().taken.as_slice(), case.faults)
}

/// Returns whether a run whose report has no room stops, with the whole graph written.
fn stops_at_report<V: Write>(
    alloc: Global,
    case: &Case,
    order: Order,
    report: &mut Counted<V>,
) -> bool {
    let mut out = Counted::new(Vec::new(alloc));
    let ran = run_texts(alloc, case, order, &mut out, report);
    matches!(ran, Err(Stop::Write))
        && report.failures() == 1
        && is_graph_of(alloc, case, order, out.into_inner().as_slice())
}

#[test]
fn writers_may_take_one_byte_a_call(rt: HostRuntime) {
    let alloc = rt.alloc();
    for case in &CASES {
        for order in ORDERS {
            assert!(rt; goes_byte_by_byte(alloc, case, order), "{}", case.what);
        }
    }
}

#[test]
fn the_graph_is_whole_if_a_flush_or_the_report_fails(rt: HostRuntime) {
    let alloc = rt.alloc();
    for case in &CASES {
        for order in ORDERS {
            let full = &mut Counted::new(Full::new(alloc, 0));
            assert!(rt; stops_at_flush(alloc, case, order), "{}", case.what);
            assert!(rt; stops_at_last_flush(alloc, case, order), "{}", case.what);
            assert!(rt; stops_at_report(alloc, case, order, full), "{}", case.what);
            let nothing = &mut Counted::new(Nothing);
            assert!(rt;
                stops_at_report(alloc, case, order, nothing),
                "{}",
                case.what
            );
        }
    }
}

/// Returns whether a run over a writer that takes nothing stops at its first call.
fn stops_at_once(alloc: Global, case: &Case, order: Order) -> bool {
    let mut out = Counted::new(Nothing);
    is_stopped(alloc, case, order, &mut out) && out.failures() == 1
}

#[test]
fn a_writer_that_takes_nothing_has_failed(rt: HostRuntime) {
    let alloc = rt.alloc();
    for case in &CASES {
        for order in ORDERS {
            assert!(rt; stops_at_once(alloc, case, order), "{}", case.what);
        }
    }
}
