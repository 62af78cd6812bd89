//! Stops that are explained behind their line: of one table without metadata, and of a look at a document.
ghost use Rattle.csvw_command.specs.Explained.{TellsText};
ghost use Rattle.csvw_streams.specs.Streams.{stream_of};

use crate::shown::color_of;
use csvw_check::{Form, Show, ShowTable, Shown, explain_look_stop, explain_table_stop};
use csvw_command_runs::send;
use csvw_engine::Stop;
use csvw_files::Opener;
use csvw_inspect::Inspect;
use csvw_text::Counted;
use std::alloc::Global;
use std::io::Write;

/// Sends the words of a stop. The stop was reported before, and its status stays if they can't be made or sent.
fn send_words<V: Write>(words: Counted<Vec<u8>>, err: &mut Counted<V>)
    ensures { TellsText (stream_of V.contents err.old err.new) }
{
    let words = words.into_inner();
    let _ = send(err, words.as_slice());
}

/// A table without metadata whose run stopped.
#[derive(Clone, Copy)]
pub(crate) struct StoppedTable<'a> {
    /// Its URL.
    pub(crate) url: &'a str,
    /// The file that has it.
    pub(crate) file: &'a str,
    /// Why its run stopped.
    pub(crate) stop: &'a Stop,
}

/// Explains the stop of a table on `err`. The file may be opened again.
pub(crate) fn explain_table<O: Opener, V: Write>(
    alloc: Global,
    table: StoppedTable<'_>,
    opener: &mut O,
    err: &mut Counted<V>,
)
    ensures { TellsText (stream_of V.contents err.old err.new) }
{
    let asked = ShowTable {
        url: table.url,
        file: table.file,
        color: color_of(None, opener.colors().err),
        stop: table.stop,
    };
    let mut words = Counted::new(Vec::new(alloc));
    let _ = explain_table_stop(alloc, &asked, opener, &mut words);
    send_words(words, err);
}

/// A document that isn't shown.
#[derive(Clone, Copy)]
pub(crate) struct StoppedLook<'a> {
    /// What was asked of the inspection.
    pub(crate) asked: &'a Inspect<'a>,
    /// Why the document isn't shown.
    pub(crate) stop: &'a Stop,
}

/// Explains on `err` why a document isn't shown. The document may be opened again.
pub(crate) fn explain_look<O: Opener, V: Write>(
    alloc: Global,
    look: StoppedLook<'_>,
    opener: &mut O,
    err: &mut Counted<V>,
)
    ensures { TellsText (stream_of V.contents err.old err.new) }
{
    let asked = Show {
        base: look.asked.base,
        meta: look.asked.meta,
        files: &[],
        resources: look.asked.resources,
        profile: look.asked.profile,
        shown: Shown::First,
        form: Form::Text,
        color: color_of(None, opener.colors().err),
        faults: &[],
        stop: Some(look.stop),
    };
    let mut words = Counted::new(Vec::new(alloc));
    let _ = explain_look_stop(alloc, &asked, opener, &mut words);
    send_words(words, err);
}
