//! Reads tables for a session: each to its end, one after the other or a piece of each in turn.
//!
//! Both orders use one description of a read. The session took its bytes, or its end, as one more event of that
//! table (`GoesOn`). The contracts describe the events so far by the texts that they make. Only the loops differ:
//! they choose which table is next.
//!
//! # Promises
//!
//! - `read_tables` reads each table to its end before the next (`AreTableByTable`). `read_turns` reads each open
//!   table once in turn, from the first on (`AreInTurn`).
//! - Each read gives the session a piece with at least one byte, or the end of its table (`AreReads`).
//! - The bytes that each reader gave are the text of its table. A reader reported its end exactly if its table was
//!   ended, and no reader failed (`Reads`).
//! - `Read` comes only if a reader failed or exactly 2^40 reads were made. Each other stop is the session's, with
//!   the event at which it stopped (`Reads`).
//! - There are no more reads than the tables have bytes and ends (`reads_are_bytes`).
ghost use Rattle.std.specs.Prelude.{◌≡◌, ◌<◌, ◌^◌, ◌-◌, ℕ, List, [], length};
ghost use Rattle.csvw_session.specs.Events.{Event};
ghost use Rattle.csvw_session.specs.Sessions.{Stands};
ghost use Rattle.csvw_engine.specs.ReadOrder.{AreReadIn, AreTableByTable};
ghost use Rattle.csvw_engine.specs.Reading.{IsSame, Reads};
ghost use Rattle.csvw_engine.specs.TableReading.{IsNext, TableReads};

use csvw_session::laws::texts_grow;
use csvw_session::{Session, Stop};
use csvw_text::Counted;
use csvw_triples_core::TripleSink;
use std::io::Read;

/// How many reads one run makes at most: 2^40.
pub(crate) const MAX_READS: u64 = 1_099_511_627_776;

/// Reads table `t`, from 1, to its end. `reads` counts the reads of the run.
fn read_table<R: Read, S: TripleSink>(
    session: &mut Session<S>,
    t: u32,
    reader: &mut Counted<R>,
    piece: &mut [u8],
    reads: &mut u64,
) -> Result<(), Stop>
    requires { 0 < length piece.old }
    ensures same { IsSame session.old session.new }
    ensures room { length piece.new ≡ length piece.old }
    ensures reads { (start : S) (many limit : ℕ) (events : List Event) → Stands S.gains S.is_open S.failed start events session.old
        → IsNext session.old piece.old many limit events t → length events ≡ reads.old
        → TableReads S.gains S.cuts S.is_open S.failed R.remaining start (AreReadIn AreTableByTable many limit) events t
        reader.old reader.new session.old session.new reads.new result }
{
    texts_grow();
    while *reads < MAX_READS {
        *reads += 1;
        let Ok(n) = reader.read(piece) else {
            return Err(Stop::Read);
        };
        if n == 0 {
            return session.end(t);
        }
        session.feed(t, &piece[..n])?;
    }
    Err(Stop::Read)
}

/// Reads the readers of all tables of a session, from the first on, each to its end. Pieces have at most the length
/// of `piece`. Each read gives the session a piece that is not empty, or the end of its table.
///
/// Fails with `Read` if a reader failed, or after 2^40 reads. Else it fails with the stop of the session.
pub fn read_tables<R: Read, S: TripleSink>(
    session: &mut Session<S>,
    readers: &mut [Counted<R>],
    piece: &mut [u8],
) -> Result<(), Stop>
    requires room { 0 < length piece.old }
    requires few { length readers.old < 2 ^ 32 - 1 }
    ensures same { IsSame session.old session.new }
    ensures reads { (start : S) → Stands S.gains S.is_open S.failed start [] session.old
        → length readers.old ≡ length session.old.plan.tables
        → Reads S.gains S.cuts S.is_open S.failed R.remaining AreTableByTable (length piece.old) start readers.old readers.new session.old session.new result }
{
    texts_grow();
    let mut reads = 0;
    for i in 0..readers.len() {
        read_table(session, i as u32 + 1, &mut readers[i], piece, &mut reads)?;
    }
    Ok(())
}
