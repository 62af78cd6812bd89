//! Reads tables in turn, a piece of each.
ghost use Rattle.std.specs.Prelude.{◌≡◌, ◌<◌, ◌+◌, ◌^◌, ◌-◌, ℕ, List, [], length, slice_get, MatchOption, Some, true, false};
ghost use Rattle.csvw_streams.specs.declared.counted.Counted.{Counted as TheReader};
ghost use Rattle.csvw_streams.specs.Counted.{failures_of};
ghost use Rattle.csvw_session.specs.Events.{Event, text_of};
ghost use Rattle.csvw_session.specs.Sessions.{Stands};
ghost use Rattle.csvw_engine.specs.ReadOrder.{AreInTurn, AreReadIn};
ghost use Rattle.csvw_engine.specs.Reading.{Gave, IsSame, Reads};
ghost use Rattle.csvw_engine.specs.TurnsReading.{AreOpen, IsFirstFrom, IsNextFrom, IsOpen, NoneFrom, PieceReads};

use crate::reading::MAX_READS;
use csvw_session::laws::texts_grow;
use csvw_session::{Session, Stop};
use csvw_text::Counted;
use csvw_triples_core::TripleSink;
use std::io::Read;

/// Returns the first open table at the place `from` or after it. Places count from 0.
fn open_from(going: &[bool], from: usize) -> Option<usize>
    ensures { MatchOption result (NoneFrom from going.now) (λ i. IsFirstFrom from going.now i) }
{
    for i in from..going.len() {
        if going[i] {
            return Some(i);
        }
    }
    None
}

/// Returns the next open table: the first one at the place `from` or after it, else the first of all.
fn next_open(going: &[bool], from: usize) -> Option<usize>
    ensures { MatchOption result (NoneFrom 0 going.now) (λ i. IsNextFrom from going.now i) }
{
    match open_from(going, from) {
        Some(i) => Some(i),
        None => open_from(going, 0),
    }
}

/// Takes what one read of the reader of table `t`, from 1, returns: a piece, or the end. Returns whether the table
/// goes on.
fn read_piece<R: Read, S: TripleSink>(
    session: &mut Session<S>,
    t: u32,
    reader: &mut Counted<R>,
    piece: &mut [u8],
) -> Result<bool, Stop>
    requires { 0 < length piece.old }
    ensures same { IsSame session.old session.new }
    ensures room { length piece.new ≡ length piece.old }
    ensures reads { (start : S) (many limit : ℕ) (events : List Event) (first : TheReader R) → Stands S.gains S.is_open S.failed start events session.old
        → IsOpen session.old piece.old many limit events t → Gave R.remaining first reader.old (text_of events t) false
        → failures_of reader.old ≡ failures_of first
        → PieceReads S.gains S.cuts S.is_open S.failed R.remaining start (AreReadIn AreInTurn many limit) events t
        first reader.new session.old session.new (length events + 1) result }
{
    texts_grow();
    let Ok(n) = reader.read(piece) else {
        return Err(Stop::Read);
    };
    if n == 0 {
        session.end(t)?;
        return Ok(false);
    }
    session.feed(t, &piece[..n])?;
    Ok(true)
}

/// Reads the readers of all tables of a session, each to its end. Pieces have at most the length of `piece`. It
/// reads each open table once, from the first on, before it reads any of them again. `going` has a `true` for each
/// table. Each read gives the session a piece that is not empty, or the end of its table.
///
/// Fails with `Read` if a reader failed, or after 2^40 reads. Else it fails with the stop of the session.
pub fn read_turns<R: Read, S: TripleSink>(
    session: &mut Session<S>,
    readers: &mut [Counted<R>],
    going: &mut [bool],
    piece: &mut [u8],
) -> Result<(), Stop>
    requires room { 0 < length piece.old }
    requires few { length readers.old < 2 ^ 32 - 1 }
    requires many { length going.old ≡ length readers.old }
    requires all_open { AreOpen going.old }
    ensures same { IsSame session.old session.new }
    ensures reads { (start : S) → Stands S.gains S.is_open S.failed start [] session.old
        → length readers.old ≡ length session.old.plan.tables
        → Reads S.gains S.cuts S.is_open S.failed R.remaining AreInTurn (length piece.old) start readers.old readers.new session.old session.new result }
{
    texts_grow();
    let mut reads = 0;
    let mut from = 0;
    while reads < MAX_READS {
        let Some(i) = next_open(going, from) else {
            return Ok(());
        };
        reads += 1;
        let goes_on = read_piece(session, i as u32 + 1, &mut readers[i], piece)?;
        going[i] = goes_on;
        from = i + 1;
    }
    Err(Stop::Read)
}
