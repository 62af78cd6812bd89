//! A program that feeds a session: pieces of two tables come as over two connections, and a sink counts their
//! triples as they come.
#![tactic(auto)]

mod counter;
mod session;

use counter::Counter;
use csvw_api::{Counted, Outcome, Session, Stop, write_report};
use session::session_over;
use std::io;

/// An event of a connection.
enum Arrived {
    /// A piece of its text.
    Piece(&'static str),
    /// Its end.
    End,
}

/// The events in their order: the number of the table, from 1, and a piece or the end.
const ARRIVED: [(u32, Arrived); 9] = [
    (1, Arrived::Piece("Station,River,To")),
    (
        2,
        Arrived::Piece("station;day;level\nBS;2024-05-01;612\nBS;20"),
    ),
    (1, Arrived::Piece("wns\nBS,Rhein,Basel;Birsfelden\n")),
    (2, Arrived::Piece("24-05-02;-\nKO;2024")),
    (1, Arrived::Piece("KO,Mosel,Koblenz")),
    (2, Arrived::Piece("-05-01;198\n")),
    (2, Arrived::End),
    (1, Arrived::Piece("\n,Main,Frankfurt")),
    (1, Arrived::End),
];

/// Passes the events to the session, and prints how many triples there are after each.
fn take(rt: &HostRuntime, session: &mut Session<Counter>) -> io::Result<Result<Outcome, Stop>> {
    for (table, arrived) in &ARRIVED {
        let taken = match arrived {
            Arrived::Piece(piece) => session.feed(*table, piece.as_bytes()),
            Arrived::End => session.end(*table),
        };
        if let Err(stop) = taken {
            return Ok(Err(stop));
        }
        println!(rt; "table {table}: {} triples", session.sink().count())?;
    }
    Ok(session.finish())
}

/// Prints how many triples there are in all, and reports the faults of the tables.
fn report(rt: &HostRuntime, counter: &Counter, outcome: &Outcome) -> io::Result<()> {
    println!(rt; "{} triples in all", counter.count())?;
    let mut out = Counted::new(rt.stdout());
    match write_report(rt.alloc(), outcome.faults.as_slice(), &mut out) {
        Ok(()) => Ok(()),
        Err(stop) => eprintln!(rt; "no report: {stop:?}"),
    }
}

fn main(rt: HostRuntime) -> io::Result<()> {
    let Some(mut session) = session_over(rt.alloc()) else {
        return eprintln!(rt; "the session did not start");
    };
    let taken = take(&rt, &mut session);
    let counter = session.into_sink();
    match taken? {
        Ok(outcome) => report(&rt, &counter, &outcome),
        Err(stop) => eprintln!(rt; "the session stopped: {stop:?}"),
    }
}
