//! The run of one table without metadata, and the explanation of its stop.
ghost use Rattle.std.specs.Prelude.{◌≤◌};
ghost use Rattle.csvw_command.specs.Commands.{RunsTable};
ghost use Rattle.csvw_streams.specs.Streams.{stream_of};

use crate::explained::{StoppedTable, explain_table};
use csvw_command_runs::{PlainTable, REFUSED, run_plain};
use csvw_files::Opener;
use csvw_text::Counted;
use std::alloc::Global;
use std::io::Write;

/// Converts a table. A stop is explained on `err`, if that is asked for. Returns the exit status.
pub(crate) fn run_table<O: Opener, W: Write, V: Write>(
    alloc: Global,
    table: PlainTable<'_>,
    opener: &mut O,
    out: &mut Counted<W>,
    err: &mut Counted<V>,
) -> u8
    ensures runs { RunsTable O.opens O.closes O.Reader.remaining table.entry.explain table.entry.url.now table.entry.file.now
        opener.old opener.new (stream_of W.contents out.old out.new) (stream_of V.contents err.old err.new) result }
    ensures bound { result ≤ 4 }
{
    let ended = run_plain(alloc, table, opener, out, err);
    let status = ended.status;
    if !table.explain {
        return status;
    }
    if status < REFUSED {
        return status;
    }
    let Some(stop) = &ended.stop else {
        return status;
    };
    let stopped = StoppedTable {
        url: table.url,
        file: table.file,
        stop,
    };
    explain_table(alloc, stopped, opener, err);
    status
}
