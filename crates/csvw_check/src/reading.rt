//! The tables, read through a session.
ghost use Rattle.std.specs.Prelude.{IfOk};
ghost use Rattle.csvw_columns.specs.Ready.{AreReady};

use crate::sink::NoGraph;
use csvw_check_core::Halt;
use csvw_columns::Plan;
use csvw_engine_core::Stop;
use csvw_files::Opener;
use csvw_session::Session;
use csvw_streams::Counted;
use csvw_text::{Fault, Seq, both};
use csvw_triples_core::Mode;
use std::alloc::{AllocError, Global};
use std::io::Read;

/// How many bytes one read takes at most.
const PIECE: usize = 65_536;

/// What the tables were found to be.
#[derive(Drop)]
pub(crate) struct Found {
    /// The faults, in the order of reports. After a stop those that were found before it.
    pub(crate) faults: Seq<Fault>,
    /// The reason if the tables weren't read to their ends.
    pub(crate) stop: Option<Stop>,
    /// The number of the table whose file was read at the stop, from 1. It is 0 if there was no stop.
    pub(crate) table: u32,
    /// The number of complete rows that were read of each table. Rows of all kinds count.
    pub(crate) rows: Seq<u64>,
}

/// A stop, with the number of the table whose file was read, from 1.
#[derive(Drop)]
struct StopAt {
    table: u32,
    stop: Stop,
}

/// Reads a file to its end into the session.
fn read_to_end<R: Read>(
    session: &mut Session<NoGraph>,
    t: u32,
    reader: &mut Counted<R>,
    room: &mut [u8],
) -> Result<(), Stop> {
    for _ in 0..u64::MAX {
        match reader.read(room) {
            Ok(0) => return session.end(t),
            Ok(n) => session.feed(t, &room[..n])?,
            Err(_) => return Err(Stop::Read),
        }
    }
    Err(Stop::Read)
}

/// Opens the file at a path and reads it into the session.
fn read_file<O: Opener>(
    session: &mut Session<NoGraph>,
    t: u32,
    path: &str,
    opener: &mut O,
    room: &mut [u8],
) -> Result<(), Stop> {
    let Some(reader) = opener.open(path) else {
        return Err(Stop::Read);
    };
    let mut reader = Counted::new(reader);
    let read = read_to_end(session, t, &mut reader, room);
    opener.close(reader);
    read
}

/// Reads the file of each table into the session, one after the other.
fn read_files<O: Opener>(
    session: &mut Session<NoGraph>,
    paths: &[String],
    opener: &mut O,
    room: &mut [u8],
) -> Result<(), StopAt> {
    let mut t = 0;
    for path in paths {
        t = u32::saturating_add(t, 1);
        if let Err(stop) = read_file(session, t, path.as_str(), opener, room) {
            return Err(StopAt { table: t, stop });
        }
    }
    Ok(())
}

/// Returns how many rows were read of each of so many tables.
fn rows_of(
    alloc: Global,
    session: &Session<NoGraph>,
    tables: usize,
) -> Result<Seq<u64>, AllocError> {
    let mut rows = Seq::new(alloc);
    let mut t = 0;
    for _ in 0..tables {
        t = u32::saturating_add(t, 1);
        rows.push(session.rows_read(t).unwrap_or(0))?;
    }
    Ok(rows)
}

/// Reads the tables of a session from the files at these paths. Halts only if memory runs out.
fn read_session<O: Opener>(
    alloc: Global,
    session: &mut Session<NoGraph>,
    paths: &[String],
    opener: &mut O,
) -> Result<Found, Halt> {
    let mut room = vec![in alloc; 0u8; PIECE]?;
    match read_files(session, paths, opener, room.as_mut_slice()) {
        Ok(()) => found_whole(alloc, session, paths.len()),
        Err(at) => found_before(alloc, session, at, paths.len()),
    }
}

/// Reads the tables of a plan from the files at these paths, one path for each table. Halts only if memory runs out.
pub(crate) fn read<O: Opener>(
    alloc: Global,
    plan: &Plan,
    paths: &[String],
    opener: &mut O,
) -> Result<Found, Halt>
    requires { AreReady plan.now.tables }
{
    let plan = plan.clone(alloc)?;
    let Ok(mut session) = Session::start(alloc, plan, Mode::Validate, NoGraph {}) else {
        return Err(Halt::Memory);
    };
    let found = read_session(alloc, &mut session, paths, opener);
    let _ = session.into_sink();
    found
}

/// Finishes the session. Returns what so many tables were found to be.
fn found_whole(
    alloc: Global,
    session: &mut Session<NoGraph>,
    tables: usize,
) -> Result<Found, Halt> {
    let Ok(outcome) = session.finish() else {
        return Err(Halt::Memory);
    };
    let rows = rows_of(alloc, session, tables)?;
    Ok(Found {
        faults: outcome.faults,
        stop: None,
        table: 0,
        rows,
    })
}

/// Returns what so many tables were found to be before a stop.
fn found_before(
    alloc: Global,
    session: &Session<NoGraph>,
    at: StopAt,
    tables: usize,
) -> Result<Found, Halt> {
    let (faults, rows) = both(session.faults_so_far(), rows_of(alloc, session, tables))?;
    Ok(Found {
        faults,
        stop: Some(at.stop),
        table: at.table,
        rows,
    })
}
