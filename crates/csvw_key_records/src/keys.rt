//! `judge_keys`: the faults of a file of sorted records.
ghost use Rattle.std.specs.Prelude.{◌≡◌, ◌<◌, [], IfErr, IfOk, length};
ghost use Rattle.csvw_streams.specs.Streams.{Stream, Sends};
ghost use Rattle.csvw_key_records.specs.Runs.{Fed};
ghost use Rattle.csvw_key_records.specs.JudgesKeys.{Gives, JudgesAll, JudgesFront};

use crate::feed::KeyFeed;
use crate::stop::KeyStop;
use csvw_text::Counted;
use std::alloc::{AllocError, Global};
use std::io::{Read, Write};

/// The most bytes of one read. A line that is longer is looked through anew with each read, so the reads are large.
const PIECE: usize = 1_048_576;

/// How many reads are made. It is more than a file has pieces.
const MAX_READS: u64 = 1_099_511_627_776;

/// Returns a buffer for a read.
fn buffer_of(alloc: Global, len: usize) -> Result<Vec<u8>, AllocError>
    ensures { IfOk result (λ v. length v.items ≡ len) }
{
    vec![in alloc; 0u8; len]
}

/// Reads some bytes. Returns how many. It is 0 at the end.
fn read_some<R: Read>(reader: &mut Counted<R>, room: &mut [u8]) -> Result<usize, KeyStop>
    requires { 0 < length room.old }
    ensures room { length room.new ≡ length room.old }
    ensures bytes { Gives R.remaining reader.old reader.new room.new result }
{
    match reader.read(room) {
        Ok(n) => Ok(n),
        Err(_) => Err(KeyStop::Read),
    }
}

/// Feeds the bytes of a reader, by reads into a room.
fn feed_all<R: Read, W: Write>(
    alloc: Global,
    feed: &mut KeyFeed,
    room: &mut [u8],
    reader: &mut Counted<R>,
    out: &mut Counted<W>,
) -> Result<bool, KeyStop>
    requires room { 0 < length room.old }
    requires new { (s : Stream) → Sends s [] → Fed feed.old [] s }
    ensures ok { IfOk result (λ valid. JudgesAll R.remaining W.contents reader.old reader.new out.old out.new valid) }
    ensures stop { IfErr result (λ reason. JudgesFront R.remaining W.contents reader.old reader.new out.old out.new reason) }
{
    for _reads in 0..MAX_READS {
        let n = match read_some(reader, room) {
            Ok(n) => n,
            Err(stop) => return Err(stop),
        };
        if n == 0 {
            return feed.end();
        }
        if let Err(stop) = feed.feed(alloc, &room[..n], out) {
            return Err(stop);
        }
    }
    Err(KeyStop::Read)
}

/// Judges the records of a reader, which are sorted in the byte order of their lines, and writes a line of a report for each fault. The
/// faults are in the order of the records that make them certain. Returns whether there is no fault. In memory it keeps the last line and
/// the bytes of a read. A line that has not ended is kept up to 16 MiB and one read.
///
/// It stops at a line that is no record, and at a line that does not come after the line before it. What was written before a stop is
/// the faults of the records before it. A last line without a line feed is no record.
pub fn judge_keys<R: Read, W: Write>(
    alloc: Global,
    reader: &mut Counted<R>,
    out: &mut Counted<W>,
) -> Result<bool, KeyStop>
    ensures ok { IfOk result (λ valid. JudgesAll R.remaining W.contents reader.old reader.new out.old out.new valid) }
    ensures stop { IfErr result (λ reason. JudgesFront R.remaining W.contents reader.old reader.new out.old out.new reason) }
{
    let mut feed = KeyFeed::new(alloc);
    let mut room = match buffer_of(alloc, PIECE) {
        Ok(room) => room,
        Err(_) => return Err(KeyStop::Memory),
    };
    feed_all(alloc, &mut feed, room.as_mut_slice(), reader, out)
}
