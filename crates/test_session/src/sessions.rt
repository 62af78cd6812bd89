//! Sessions over the tables of a document.
ghost use Rattle.std.specs.Prelude.{IfSome};
ghost use Rattle.csvw_columns.specs.Ready.{AreReady};

use csvw_columns::Plan;
use csvw_meta::read;
use csvw_session::{Session, Stop};
use csvw_triples_core::{Mode, TripleSink};
use std::alloc::Global;

/// The URL of each document.
pub(crate) const BASE: &str = "http://example.org/";

/// Returns the plan of the group that a document describes.
fn plan_of(alloc: Global, meta: &str) -> Option<Plan>
    ensures { IfSome result (λ plan. AreReady plan.tables) }
{
    let description = read(alloc, meta.as_bytes(), BASE).ok()?;
    match Plan::build(alloc, description) {
        Ok(plan) => Some(plan),
        Err(_) => None,
    }
}

/// Starts a session over the tables of a document.
pub(crate) fn started<S: TripleSink + Drop>(
    alloc: Global,
    meta: &str,
    mode: Mode,
    sink: S,
) -> Option<Session<S>> {
    let plan = plan_of(alloc, meta)?;
    match Session::start(alloc, plan, mode, sink) {
        Ok(session) => Some(session),
        Err(_) => None,
    }
}

/// Feeds a byte of each text in turn, the first table first, and then ends each table. It stops at the first stop.
pub(crate) fn by_bytes<S: TripleSink>(
    session: &mut Session<S>,
    texts: [&[u8]; 2],
) -> Result<(), Stop> {
    let [first, second] = texts;
    for i in 0..first.len().max(second.len()) {
        if let Some(byte) = first.get(i) {
            session.feed(1, &[*byte])?;
        }
        if let Some(byte) = second.get(i) {
            session.feed(2, &[*byte])?;
        }
    }
    session.end(1)?;
    session.end(2)
}
