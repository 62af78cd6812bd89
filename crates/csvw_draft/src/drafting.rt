//! `draft`: from the paths to the document.
ghost use Rattle.std.specs.Prelude.{◌≡◌, ◌≢◌, true, false, Ok, Err, OnOk, IfOk, IfErr, string_bytes};
ghost use Rattle.csvw_streams.specs.Streams.{IsCut, IsIdle, Sends, stream_of};
ghost use Rattle.csvw_draft.specs.Drafts.{IsDocument, SendsDocument, CutsDocument, url_of};

use crate::aim::Aim;
use crate::asked::Draft;
use crate::document::document;
use crate::halt::Halt;
use crate::kept::{Purpose, Room};
use crate::keys::Named;
use crate::note::{note_limits, note_profile};
use crate::reading::{Place, read_file};
use crate::table::Table;
use crate::urls::{last_part, urls_of};
use csvw_columns::Plan;
use csvw_engine_core::Stop;
use csvw_files::{Opener, note_unread};
use csvw_meta::{Description, MetaFault, Profile, ReadDescription};
use csvw_streams::{Counted, write_out};
use std::alloc::{AllocError, Global};
use std::io::Write;

/// The URL of a document whose own URL isn't known.
const UNKNOWN_URL: &str = "file:///metadata.json";

/// Writes a first metadata document of some tables to `out`. It reads each file once.
///
/// The document has no fault in its profile at the URL of `base`, or at `UNKNOWN_URL`. `Read` comes if a file can't be opened or read. `Rows` and
/// `Table` come if a text has no rows, or its rows no columns, as in a run. `Meta` comes if the document would have a fault: the base
/// is no URL, two files have one URL, or there is no file, more than 64 or too much text. `err` has a line for each column whose values
/// weren't all kept, and for each one that is a string but isn't in the profile w3c.
pub fn draft<O: Opener, W: Write, V: Write>(
    alloc: Global,
    asked: &Draft<'_>,
    opener: &mut O,
    out: &mut Counted<W>,
    err: &mut Counted<V>,
) -> Result<(), Stop>
    ensures sent { OnOk result (SendsDocument asked.now.profile (url_of asked.now) (stream_of W.contents out.old out.new)) }
    ensures cut { result ≡ Err Stop.Write → CutsDocument asked.now.profile (url_of asked.now) (stream_of W.contents out.old out.new) }
    ensures idle { IfErr result (λ stop. stop ≢ Stop.Write → IsIdle (stream_of W.contents out.old out.new)) }
{
    match drafted(alloc, asked, opener, err) {
        Ok(text) => {
            if send(out, text.as_bytes()) {
                Ok(())
            } else {
                Err(Stop::Write)
            }
        }
        Err(halt) => Err(halt.stop()),
    }
}

/// Sends some bytes and flushes. Returns whether all of them went out.
fn send<W: Write>(out: &mut Counted<W>, bytes: &[u8]) -> bool
    ensures sent { result ≡ true → Sends (stream_of W.contents out.old out.new) bytes.now }
    ensures cut { result ≡ false → IsCut (stream_of W.contents out.old out.new) bytes.now }
{
    let Ok(()) = write_out(out, bytes) else {
        return false;
    };
    out.flush().is_ok()
}

/// Returns the URL of the document.
fn url_of<'a>(asked: &Draft<'a>) -> &'a str
    ensures { result.now ≡ url_of asked.now }
{
    match asked.base {
        Some(base) => base,
        None => UNKNOWN_URL,
    }
}

/// Returns the text of the document.
fn drafted<O: Opener, V: Write>(
    alloc: Global,
    asked: &Draft<'_>,
    opener: &mut O,
    err: &mut Counted<V>,
) -> Result<String, Halt>
    ensures { IfOk result (λ text. IsDocument asked.now.profile (url_of asked.now) (string_bytes text)) }
{
    let text = written(alloc, asked, opener, err)?;
    match judged(alloc, text.as_bytes(), url_of(asked), asked.profile) {
        Ok(()) => Ok(text),
        Err(fault) => Err(Halt::of_fault(fault)),
    }
}

/// Returns the text of the document before it is judged.
fn written<O: Opener, V: Write>(
    alloc: Global,
    asked: &Draft<'_>,
    opener: &mut O,
    err: &mut Counted<V>,
) -> Result<String, Halt> {
    let mut tables = Vec::new(alloc);
    push_tables(&mut tables, asked, opener, err)?;
    let urls = urls_of(alloc, asked.files)?;
    Ok(document(alloc, asked.base, tables.as_slice(), urls.as_slice())?)
}

/// Reads the document as a run does. Fails with its fault, if it has one.
fn judged(alloc: Global, bytes: &[u8], url: &str, profile: Profile) -> Result<(), MetaFault>
    ensures { OnOk result (IsDocument profile url.now bytes.now) }
{
    let description = Description::read_by(alloc, bytes, url, profile)?;
    Plan::build(alloc, description)?;
    Ok(())
}

/// Opens the file at a path and reads the table. A file that can't be opened or read is named on `err`.
fn read_named<O: Opener, V: Write>(
    path: &str,
    opener: &mut O,
    place: Place,
    room: &mut Room,
    reports: (Global, &mut Counted<V>),
) -> Result<Table, Halt> {
    let (alloc, err) = reports;
    let read = read_file(alloc, path, opener, place, room);
    if let Err(Halt::Read) = &read {
        note_unread(path, opener.io_error(path), err);
    }
    read
}

/// Adds the table of each file.
fn push_tables<O: Opener, V: Write>(
    tables: &mut Vec<Named>,
    asked: &Draft<'_>,
    opener: &mut O,
    err: &mut Counted<V>,
) -> Result<(), Halt> {
    let alloc = *tables.allocator();
    let mut room = Room::new();
    let mut place = Place {
        number: 0,
        aim: Aim {
            purpose: if asked.files.len() > 1 {
                Purpose::AnyKey
            } else {
                Purpose::PrimaryKey
            },
            profile: asked.profile,
        },
    };
    for path in asked.files {
        place.number = place.number.saturating_add(1);
        let table = read_named(path, opener, place, &mut room, (alloc, err))?;
        tables.push(Named::new(alloc, table))?;
        if let Some(named) = tables.last_mut() {
            note_limits(alloc, path, named.table.columns.as_slice(), err)?;
            note_profile(alloc, path, named.table.columns.as_slice(), err)?;
            named.find(stem(path))?;
        }
    }
    Ok(())
}

/// Returns the name of a file without what follows its last dot.
fn stem(path: &str) -> &str {
    let last = last_part(path);
    match last.rsplit_once('.') {
        Some((stem, _)) if !stem.is_empty() => stem,
        _ => last,
    }
}
