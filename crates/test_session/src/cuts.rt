//! Compares sessions, whose events come in generated orders and cuts, with a run over the same texts.
ghost use Rattle.std.specs.Prelude.{◌<◌};

use crate::examples::{EXAMPLES, Example};
use crate::left::{Left, are_same, report_of};
use crate::sessions::{BASE, started};
use csvw_engine::run;
use csvw_ntriples::NtSink;
use csvw_session::{Session, Stop};
use csvw_text::Counted;
use csvw_triples_core::{Mode, TripleSink};
use std::alloc::{AllocError, Global};
use std::process::Abort;

/// A linear congruential generator.
#[derive(Drop)]
struct Numbers(u64);

impl Numbers {
    /// Returns a number below n.
    fn below(&mut self, n: u64) -> u64
        requires { 0 < n }
        ensures { result < n }
    {
        self.0 = self
            .0
            .wrapping_mul(6_364_136_223_846_793_005)
            .wrapping_add(1_442_695_040_888_963_407);
        (self.0 >> 33) % n
    }
}

/// A table whose text comes in pieces.
#[derive(Drop)]
struct Source {
    /// Its number, from 1.
    table: u32,
    /// The part of its text that was not fed yet.
    rest: &'static [u8],
    /// Whether the table was ended.
    ended: bool,
}

/// Makes a table for each text. Tables are numbered from 1.
fn sources_of(alloc: Global, texts: &[&'static [u8]]) -> Result<Vec<Source>, AllocError> {
    let mut sources = Vec::new(alloc);
    let mut table = 0u32;
    for text in texts {
        table = table.saturating_add(1);
        sources.push(Source {
            table,
            rest: *text,
            ended: false,
        })?;
    }
    Ok(sources)
}

/// Feeds a piece of at most 6 bytes, or ends the table after its last one.
fn step<S: TripleSink>(
    session: &mut Session<S>,
    source: &mut Source,
    numbers: &mut Numbers,
) -> Result<(), Stop> {
    if source.ended {
        return Ok(());
    }
    if source.rest.is_empty() {
        source.ended = true;
        return session.end(source.table);
    }
    let len = source.rest.len().min(numbers.below(7) as usize);
    let (piece, rest) = source.rest.split_at(len);
    source.rest = rest;
    session.feed(source.table, piece)
}

/// Feeds and ends all tables, in an order that the numbers choose.
fn feed_all<S: TripleSink>(
    session: &mut Session<S>,
    sources: &mut [Source],
    numbers: &mut Numbers,
) -> Result<(), Stop> {
    let many = sources.len() as u64;
    for _ in 0..2_000 {
        if many == 0 {
            return Ok(());
        }
        let i = numbers.below(many) as usize;
        if let Some(source) = sources.get_mut(i) {
            step(session, source, numbers)?;
        }
    }
    Ok(())
}

/// Feeds and ends all tables, in an order that a seed chooses. Returns whether there was memory and no stop.
fn is_fed<S: TripleSink>(
    alloc: Global,
    session: &mut Session<S>,
    texts: &[&'static [u8]],
    seed: u64,
) -> bool {
    match sources_of(alloc, texts) {
        Ok(mut sources) => feed_all(session, sources.as_mut_slice(), &mut Numbers(seed)).is_ok(),
        Err(_) => false,
    }
}

/// Returns the report of a session that is fed in an order that a seed chooses.
fn told<S: TripleSink>(
    alloc: Global,
    session: &mut Session<S>,
    texts: &[&'static [u8]],
    seed: u64,
) -> Option<Vec<u8>> {
    if is_fed(alloc, session, texts, seed) {
        report_of(alloc, session)
    } else {
        None
    }
}

/// Returns the report of a session that is fed in an order that a seed chooses, and whose graph goes to a writer.
fn told_into(
    alloc: Global,
    example: &Example,
    mode: Mode,
    seed: u64,
    graph: &mut Counted<Vec<u8>>,
) -> Option<Vec<u8>> {
    let mut session = started(alloc, example.meta, mode, NtSink::new(alloc, graph))?;
    let report = told(alloc, &mut session, example.texts, seed);
    session.into_sink();
    report
}

/// Returns what a session leaves that is fed in an order that a seed chooses.
fn fed(alloc: Global, example: &Example, mode: Mode, seed: u64) -> Option<Left> {
    let mut graph = Counted::new(Vec::new(alloc));
    match told_into(alloc, example, mode, seed, &mut graph) {
        Some(report) => Some(Left {
            graph: graph.into_inner(),
            report,
        }),
        None => None,
    }
}

/// Makes a reader of each text.
fn readers_of(
    alloc: Global,
    texts: &[&'static [u8]],
) -> Result<Vec<Counted<&'static [u8]>>, AllocError> {
    let mut readers = Vec::new(alloc);
    for text in texts {
        readers.push(Counted::new(*text))?;
    }
    Ok(readers)
}

/// Makes a run whose graph and report go to these writers. Returns whether it ends with a report.
fn is_run(
    alloc: Global,
    example: &Example,
    mode: Mode,
    graph: &mut Counted<Vec<u8>>,
    report: &mut Counted<Vec<u8>>,
) -> bool {
    match readers_of(alloc, example.texts) {
        Ok(mut readers) => run(
            alloc,
            example.meta.as_bytes(),
            BASE,
            readers.as_mut_slice(),
            mode,
            graph,
            report,
        )
        .is_ok(),
        Err(_) => false,
    }
}

/// Returns what a run leaves.
fn ran(alloc: Global, example: &Example, mode: Mode) -> Option<Left> {
    let mut graph = Counted::new(Vec::new(alloc));
    let mut report = Counted::new(Vec::new(alloc));
    if is_run(alloc, example, mode, &mut graph, &mut report) {
        Some(Left {
            graph: graph.into_inner(),
            report: report.into_inner(),
        })
    } else {
        None
    }
}

/// Returns whether a session that is fed in the order of a seed leaves this.
fn leaves(alloc: Global, example: &Example, mode: Mode, seed: u64, expected: &Left) -> bool {
    match fed(alloc, example, mode, seed) {
        Some(left) => are_same(alloc, &left, expected),
        None => false,
    }
}

/// Returns whether the sessions of 34 seeds leave this.
fn each_leaves(alloc: Global, example: &Example, mode: Mode, expected: &Left) -> bool {
    (0..34).all(|seed| leaves(alloc, example, mode, seed, expected))
}

/// Returns whether the sessions of 34 seeds leave what a run leaves.
fn agree(alloc: Global, example: &Example, mode: Mode) -> bool {
    match ran(alloc, example, mode) {
        Some(expected) => each_leaves(alloc, example, mode, &expected),
        None => false,
    }
}

#[test]
fn any_order_of_events_leaves_what_a_run_leaves(rt: HostRuntime) {
    let alloc = rt.alloc();
    for example in &EXAMPLES {
        assert!(rt; agree(alloc, example, Mode::Minimal));
        assert!(rt; agree(alloc, example, Mode::Standard));
    }
}
