//! Reads the tables of a group and writes their graph as N-Triples.
ghost use Rattle.std.specs.Prelude.{◌≡◌, ◌<◌, ◌-◌, ◌^◌, length};
ghost use Rattle.csvw_streams.specs.Streams.{stream_of};
ghost use Rattle.csvw_columns.specs.Ready.{AreReady};
ghost use Rattle.csvw_session.specs.Sessions.{Starts};
ghost use Rattle.csvw_engine.specs.Groups.{Converts, TakesTables};
ghost use Rattle.csvw_engine.specs.Rooms.{IsOrder, IsRoomFor, order_in};

use crate::room::{Order, Room, read_all};
use csvw_columns::Plan;
use csvw_group_laws::laws::{
    sessions_annotate, sessions_give_all, stopped_sessions_give_parts, taken_events_are_tables,
};
use csvw_ntriples::{NtSink, labels_name_one_to_one, written_denotes};
use csvw_report::Outcome;
use csvw_session::{Refused, Session, Stop};
use csvw_text::Counted;
use csvw_triples::opening_is_the_graphs;
use csvw_triples_core::{Mode, TripleSink};
use std::alloc::Global;
use std::io::{Read, Write};

/// What is written of tables, and the order in which they are read.
#[derive(Clone, Copy)]
pub struct Way {
    /// Which triples are written.
    pub mode: Mode,
    /// The order in which the tables are read.
    pub order: Order,
}

/// Reads the tables of a session that has just started to their ends, and finishes it.
fn take_tables<R: Read, S: TripleSink>(
    session: &mut Session<S>,
    readers: &mut [Counted<R>],
    room: &mut Room,
) -> Result<Outcome, Stop>
    requires room { IsRoomFor (length readers.old) room.old }
    requires few { length readers.old < 2 ^ 32 - 1 }
    ensures { (sink : S) → Starts S.gains S.is_open S.failed session.old.plan session.old.mode sink session.old
        → length readers.old ≡ length session.old.plan.tables
        → TakesTables S.gains S.cuts S.is_open S.failed R.remaining (IsOrder (order_in room.old.going)) session.old.mode session.old.plan
        readers.old readers.new sink session.new.sink result }
{
    sessions_annotate::<S>();
    sessions_give_all::<S>();
    stopped_sessions_give_parts::<S>();
    taken_events_are_tables::<S>();
    read_all(session, readers, room)?;
    session.finish()
}

/// Reads the tables of a plan to their ends, and writes their graph.
pub(crate) fn convert_tables<R: Read, W: Write>(
    alloc: Global,
    plan: Plan,
    way: Way,
    readers: &mut [Counted<R>],
    out: &mut Counted<W>,
) -> Result<Outcome, Stop>
    requires ready { AreReady plan.tables }
    requires many { length readers.old ≡ length plan.tables }
    requires few { length readers.old < 2 ^ 32 - 1 }
    ensures { Converts R.remaining (IsOrder way.order) way.mode plan readers.old readers.new (stream_of W.contents out.old out.new) result }
{
    written_denotes();
    labels_name_one_to_one();
    opening_is_the_graphs();
    let Ok(mut room) = Room::new(alloc, way.order, readers.len()) else {
        return Err(Stop::Memory);
    };
    let sink = NtSink::new(alloc, out);
    match Session::start(alloc, plan, way.mode, sink) {
        Ok(mut session) => {
            let ran = take_tables(&mut session, readers, &mut room);
            let _ = session.into_sink().into_inner();
            ran
        }
        Err(Refused { stop, sink }) => {
            let _ = sink.into_inner();
            Err(stop)
        }
    }
}
