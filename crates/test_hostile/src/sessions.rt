//! Sessions over pieces of two tables, and what they return after their end or a stop.
ghost use Rattle.csvw_columns.specs.Ready.{AreReady};

use crate::groups::KEYS;
use crate::marks::{print_marks, print_result};
use crate::runs::ROOM;
use crate::tables::plan_of;
use csvw_api::{Counted, Mode, NtSink, Outcome, Plan, Session, Stop, TripleSink};
use std::alloc::Global;
use std::io;

/// The events in their order: the number of the table, and a piece or `None` for the end.
static EVENTS: [(u32, Option<&'static str>); 9] = [
    (1, Some("re")),
    (2, Some("k\n1\n0")),
    (1, Some("f\n9\n1")),
    (2, Some("1\n")),
    (1, Some("\n2\n\n")),
    (2, Some("2")),
    (2, None),
    (1, Some("")),
    (1, None),
];

/// Passes the events to a session, and finishes it.
fn fed<S: TripleSink>(session: &mut Session<S>) -> Result<Outcome, Stop> {
    for (table, piece) in &EVENTS {
        match piece {
            Some(piece) => session.feed(*table, piece.as_bytes())?,
            None => session.end(*table)?,
        }
    }
    session.finish()
}

/// Passes a call to a session that was finished or stopped. Prints what it returns.
fn print_again<S: TripleSink>(rt: &HostRuntime, session: &mut Session<S>) -> io::Result<()> {
    let fed = session.feed(1, b"1\n");
    let ended = session.end(2);
    let finished = session.finish();
    print!(rt; "; again {fed:?} {ended:?} ")?;
    print_result(rt, &finished)
}

fn print_fed<S: TripleSink>(rt: &HostRuntime, session: &mut Session<S>) -> io::Result<()> {
    let result = fed(session);
    print_result(rt, &result)?;
    print_again(rt, session)
}

/// Prints what a session whose graph goes to a writer returns.
fn print_over(
    rt: &HostRuntime,
    plan: Plan,
    mode: Mode,
    graph: &mut Counted<Vec<u8>>,
) -> io::Result<()>
    requires { AreReady plan.tables }
{
    let alloc = rt.alloc();
    match Session::start(alloc, plan, mode, NtSink::new(alloc, graph)) {
        Ok(mut session) => {
            let printed = print_fed(rt, &mut session);
            session.into_sink();
            printed
        }
        Err(refused) => print!(rt; "refused {:?}", refused.stop),
    }
}

fn print_into(rt: &HostRuntime, mode: Mode, mut graph: Counted<Vec<u8>>) -> io::Result<()> {
    let Some(plan) = plan_of(rt.alloc(), KEYS) else {
        return println!(rt; "no plan");
    };
    print_over(rt, plan, mode, &mut graph)?;
    print!(rt; "; graph")?;
    print_marks(rt, graph.into_inner().as_slice())?;
    println!(rt; "")
}

fn room(alloc: Global) -> Option<Counted<Vec<u8>>> {
    match Vec::with_capacity(alloc, ROOM) {
        Ok(room) => Some(Counted::new(room)),
        Err(_) => None,
    }
}

fn print_session(rt: &HostRuntime, name: &str, mode: Mode) -> io::Result<()> {
    print!(rt; "session {name}: ")?;
    match room(rt.alloc()) {
        Some(graph) => print_into(rt, mode, graph),
        None => println!(rt; "no room"),
    }
}

/// Prints what sessions return, and what their writers hold.
pub(crate) fn print_sessions(rt: &HostRuntime) -> io::Result<()> {
    print_session(rt, "minimal", Mode::Minimal)?;
    print_session(rt, "standard", Mode::Standard)
}
