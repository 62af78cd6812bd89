//! The order in which the tables of a session are read, and the buffers for it.
ghost use Rattle.std.specs.Prelude.{◌≡◌, ◌<◌, ◌-◌, ◌^◌, ℕ, [], IfOk, length};
ghost use Rattle.csvw_session.specs.Sessions.{Stands};
ghost use Rattle.csvw_engine.specs.Reading.{IsSame, Reads};
ghost use Rattle.csvw_engine.specs.TurnsReading.{AreOpen};
ghost use Rattle.csvw_engine.specs.Rooms.{IsOrder, IsRoomFor, order_in};
ghost use Rattle.csvw_engine.specs.Texts.{piece_limit};

use crate::reading::read_tables;
use crate::turns::read_turns;
use csvw_session::{Session, Stop};
use csvw_text::Counted;
use csvw_triples_core::TripleSink;
use std::alloc::{AllocError, Global};
use std::io::Read;

/// The order in which tables are read.
#[derive(Clone, Copy)]
pub enum Order {
    /// One table after the other.
    TableByTable,
    /// A piece of each table in turn.
    InTurns,
}

/// The buffers that reading needs.
#[derive(Drop)]
pub(crate) struct Room {
    /// The buffer for a piece of a table.
    piece: Vec<u8>,
    /// Which tables are open, if they are read in turn.
    going: Option<Vec<bool>>,
}

/// How many bytes one read takes at most.
const PIECE: usize = 65_536;

fn buffer_of(alloc: Global, len: usize) -> Result<Vec<u8>, AllocError>
    ensures { IfOk result (λ v. length v.items ≡ len) }
{
    vec![in alloc; 0u8; len]
}

/// Makes a list of `many` times `true`.
fn all_open(alloc: Global, many: usize) -> Result<Vec<bool>, AllocError>
    ensures many { IfOk result (λ v. length v.items ≡ many) }
    ensures all_open { IfOk result (λ v. AreOpen v.items) }
{
    vec![in alloc; true; many]
}

impl Room {
    /// Makes the buffers for this number of tables. Fails with `AllocError` if memory runs out.
    pub(crate) fn new(alloc: Global, order: Order, many: usize) -> Result<Room, AllocError>
        ensures room { IfOk result (λ room. IsRoomFor many room) }
        ensures order { IfOk result (λ room. order_in room.going ≡ order) }
    {
        let piece = buffer_of(alloc, PIECE)?;
        let going = match order {
            Order::TableByTable => None,
            Order::InTurns => Some(all_open(alloc, many)?),
        };
        Ok(Room { piece, going })
    }
}

/// Reads the readers of all tables of a session, each to its end.
pub(crate) fn read_all<R: Read, S: TripleSink>(
    session: &mut Session<S>,
    readers: &mut [Counted<R>],
    room: &mut Room,
) -> Result<(), Stop>
    requires room { IsRoomFor (length readers.old) room.old }
    requires few { length readers.old < 2 ^ 32 - 1 }
    ensures same { IsSame session.old session.new }
    ensures reads { (start : S) → Stands S.gains S.is_open S.failed start [] session.old
        → length readers.old ≡ length session.old.plan.tables
        → Reads S.gains S.cuts S.is_open S.failed R.remaining (IsOrder (order_in room.old.going)) piece_limit start readers.old readers.new
        session.old session.new result }
{
    let piece = room.piece.as_mut_slice();
    match &mut room.going {
        None => read_tables(session, readers, piece),
        Some(going) => read_turns(session, readers, going.as_mut_slice(), piece),
    }
}
