//! The run of one table without metadata.
ghost use Rattle.std.specs.Prelude.{◌≤◌};
ghost use Rattle.csvw_command_runs.specs.Plain.{RunsPlain};
ghost use Rattle.csvw_streams.specs.Streams.{stream_of};

use crate::group::{Ended, end_of, tell_end};
use crate::tell::tell_stop;
use csvw_engine::{Stop, plain};
use csvw_files::Opener;
use csvw_text::Counted;
use std::alloc::Global;
use std::io::Write;

/// A table without metadata.
#[derive(Clone, Copy)]
pub struct PlainTable<'a> {
    /// Its URL.
    pub url: &'a str,
    /// The file that has it.
    pub file: &'a str,
    /// Whether a stop is explained.
    pub explain: bool,
}

/// Converts a table. Returns how the run ended; a stop is reported on `err`.
pub fn run_plain<O: Opener, W: Write, V: Write>(
    alloc: Global,
    table: PlainTable<'_>,
    opener: &mut O,
    out: &mut Counted<W>,
    err: &mut Counted<V>,
) -> Ended
    ensures runs { RunsPlain O.opens O.closes O.Reader.remaining table.entry.url.now table.entry.file.now opener.old opener.new
        (stream_of W.contents out.old out.new) (stream_of V.contents err.old err.new) result.status }
    ensures bound { result.status ≤ 4 }
{
    let Some(reader) = opener.open(table.file) else {
        let status = tell_stop(&Stop::Read, err);
        return end_of(alloc, Err(Stop::Read), status);
    };
    let mut input = Counted::new(reader);
    let ran = plain(alloc, table.url, &mut input, out, err);
    opener.close(input);
    let status = tell_end(&ran, err);
    end_of(alloc, ran, status)
}
