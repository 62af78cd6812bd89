//! Sessions over a sink that fails, and an N-Triples sink whose writer fails.
use crate::examples::{EXAMPLES, Example};
use crate::sessions::started;
use crate::tables::plan_of;
use csvw_ntriples::NtSink;
use csvw_session::{Refused, Session, Stop};
use csvw_text::Counted;
use csvw_triples::{Mode, SinkFault, Triple, TripleSink, VecSink};
use std::alloc::Global;
use std::process::Abort;
use test_fakes::{FailingSink, Full};

/// Feeds each text whole, and ends its table. It stops at the first stop.
fn fed<S: TripleSink>(session: &mut Session<S>, texts: &[&[u8]]) -> Result<(), Stop> {
    let mut table = 0u32;
    for text in texts {
        table = table.saturating_add(1);
        session.feed(table, text)?;
        session.end(table)?;
    }
    Ok(())
}

/// Returns whether each later call of a session that stopped returns `Failed`.
fn stays_stopped<S: TripleSink>(session: &mut Session<S>) -> bool {
    session.feed(1, b"x\n") == Err(Stop::Failed)
        && session.feed(9, b"") == Err(Stop::Failed)
        && session.end(1) == Err(Stop::Failed)
        && session.finish() == Err(Stop::Failed)
}

/// Returns the sink of a session that stopped with `Write`, and returns `Failed` from then on.
fn stopped(mut session: Session<FailingSink>, texts: &[&[u8]]) -> Option<FailingSink> {
    let stops = fed(&mut session, texts) == Err(Stop::Write) && stays_stopped(&mut session);
    let sink = session.into_sink();
    if stops { Some(sink) } else { None }
}

/// Returns the sink of a session that was refused with `Write`.
fn refused(refused: Refused<FailingSink>) -> Option<FailingSink> {
    let Refused { stop, sink } = refused;
    if stop == Stop::Write {
        Some(sink)
    } else {
        None
    }
}

/// Returns the sink of a session over a sink with room for so many triples, if the session stopped with `Write`.
fn sink_of(alloc: Global, example: &Example, mode: Mode, room: u64) -> Option<FailingSink> {
    let plan = plan_of(alloc, example.meta)?;
    match Session::start(alloc, plan, mode, FailingSink::new(alloc, room)) {
        Ok(session) => stopped(session, example.texts),
        Err(fault) => refused(fault),
    }
}

/// Returns the triples as N-Triples.
fn text_of(alloc: Global, triples: &[Triple]) -> Option<Vec<u8>> {
    let mut out = Counted::new(Vec::new(alloc));
    if is_put(alloc, triples, &mut out) {
        Some(out.into_inner())
    } else {
        None
    }
}

/// Writes triples as N-Triples. Returns whether that succeeded.
fn is_put(alloc: Global, triples: &[Triple], out: &mut Counted<Vec<u8>>) -> bool {
    let mut sink = NtSink::new(alloc, out);
    let is_put = triples.iter().all(|triple| sink.put(triple).is_ok());
    sink.into_inner();
    is_put
}

/// Returns whether both lists have equal triples.
fn are_equal(alloc: Global, a: &[Triple], b: &[Triple]) -> bool {
    match (text_of(alloc, a), text_of(alloc, b)) {
        (Some(a), Some(b)) => a.as_slice() == b.as_slice(),
        _ => false,
    }
}

/// Returns whether a session over a sink that fails at the triple after these stops, with these triples taken.
fn takes(alloc: Global, example: &Example, mode: Mode, front: &[Triple]) -> bool {
    match sink_of(alloc, example, mode, front.len() as u64) {
        Some(sink) => sink.failures() == 1 && are_equal(alloc, sink.triples(), front),
        None => false,
    }
}

/// Returns whether that is so for each proper front of these triples.
fn takes_each_front(alloc: Global, example: &Example, mode: Mode, all: &[Triple]) -> bool {
    for n in 0..all.len() {
        if !takes(alloc, example, mode, &all[..n]) {
            return false;
        }
    }
    true
}

/// Returns the sink of a session that took all texts.
pub(crate) fn whole(alloc: Global, example: &Example, mode: Mode) -> Option<VecSink> {
    let mut session = started(alloc, example.meta, mode, VecSink::new(alloc))?;
    let is_fed = fed(&mut session, example.texts).is_ok();
    let sink = session.into_sink();
    if is_fed { Some(sink) } else { None }
}

/// Returns whether a session has so many triples, and sessions whose sinks fail take each front of them.
fn is_cut_anywhere(alloc: Global, example: &Example, mode: Mode, count: usize) -> bool {
    match whole(alloc, example, mode) {
        Some(sink) => {
            let all = sink.triples();
            all.len() == count && takes_each_front(alloc, example, mode, all)
        }
        None => false,
    }
}

/// How many triples the examples have, in minimal and in standard mode.
const COUNTS: [[usize; 2]; 3] = [[15, 47], [11, 25], [6, 48]];

#[test]
fn a_sink_that_fails_has_the_triples_before(rt: HostRuntime) {
    let alloc = rt.alloc();
    for (example, [minimal, standard]) in EXAMPLES.iter().zip(COUNTS) {
        assert!(rt;
            is_cut_anywhere(alloc, example, Mode::Minimal, minimal),
            "{}",
            example.meta
        );
        assert!(rt;
            is_cut_anywhere(alloc, example, Mode::Standard, standard),
            "{}",
            example.meta
        );
    }
}

/// Puts the first triple twice into an N-Triples sink. Returns both results.
fn put_twice(
    alloc: Global,
    triples: &[Triple],
    out: &mut Counted<Full>,
) -> Option<[Result<(), SinkFault>; 2]> {
    let first = triples.first()?;
    let mut sink = NtSink::new(alloc, out);
    let results = [sink.put(first), sink.put(first)];
    sink.into_inner();
    Some(results)
}

/// Returns whether an N-Triples sink whose writer has room for these bytes of the first triple of a session fails with
/// `Device` and then with `Closed`, and calls its writer no more.
fn closes(alloc: Global, example: &Example, front: &[u8]) -> bool {
    let Some(sink) = whole(alloc, example, Mode::Minimal) else {
        return false;
    };
    let mut out = Counted::new(Full::new(alloc, front.len()));
    let results = put_twice(alloc, sink.triples(), &mut out);
    results == Some([Err(SinkFault::Device), Err(SinkFault::Closed)])
        && out.failures() == 1
        && out.into_inner().taken.as_slice() == front
}

#[test]
fn a_sink_whose_writer_failed_is_closed(rt: HostRuntime) {
    let alloc = rt.alloc();
    let [_, _, keys] = &EXAMPLES;
    assert!(rt; closes(alloc, keys, b""));
    assert!(rt; closes(alloc, keys, b"_:t1r1s <h"));
    assert!(rt;
        closes(
            alloc,
            keys,
            b"_:t1r1s <http://example.org/a.csv#ref> \"9\"^^<http://www.w3.org/2001/XMLSchema#integer> ."
        )
    );
}
