//! Runs over the files of a group of tables.
ghost use Rattle.std.specs.Prelude.{◌≡◌, ◌≤◌, IfErr, IfOk, map};
ghost use Rattle.csvw_command_runs.specs.Groups.{BundlesMeta, BundlesNoMeta, ClosesAll, EndsSo, Leaves, OpensAll, OpensGroup, OpensNot, ReadsMeta, ReadsNoMeta, RunsGroup};
ghost use Rattle.csvw_command_runs.specs.Groups.{StopsOpening, order_of};
ghost use Rattle.csvw_streams.specs.Streams.{stream_of};

use crate::profile::profile_of;
use crate::resources::resource_files;
use crate::tell::{outcome_status, tell_stop};
use csvw_command_core::Group;
use csvw_defaults::with_defaults;
use csvw_engine::{Order, Outcome, Request, Stop, Way, run_by};
use csvw_files::{Opener, bundle_files, read_file};
use csvw_text::{Counted, Fault, Seq};
use csvw_triples_core::Mode;
use std::alloc::Global;
use std::io::{Read, Write};

/// What a run over a group reads.
#[derive(Drop)]
struct Opened<R> {
    /// The bytes of the metadata document.
    meta: Vec<u8>,
    /// The files of the tables.
    readers: Vec<Counted<R>>,
}

/// Opens the files of all tables.
fn open_all<O: Opener>(
    alloc: Global,
    files: &[&str],
    opener: &mut O,
) -> Result<Vec<Counted<O::Reader>>, Stop>
    ensures opened { IfOk result (λ readers. OpensAll O.opens opener.old (map (λ file. file.now) files.now) readers.items opener.new) }
    ensures stop { IfErr result (λ reason. StopsOpening O.opens opener.old (map (λ file. file.now) files.now) opener.new reason) }
{
    let mut readers = Vec::new(alloc);
    for file in files {
        let Some(reader) = opener.open(file) else {
            return Err(Stop::Read);
        };
        let Ok(()) = readers.push(Counted::new(reader)) else {
            return Err(Stop::Memory);
        };
    }
    Ok(readers)
}

/// Reads the metadata, and the resources that take the place of their URLs in it. Each reader is handed back as soon as it
/// was read, also if it failed.
fn bundle_meta<O: Opener>(alloc: Global, group: &Group<'_>, opener: &mut O) -> Result<Vec<u8>, Stop>
    ensures read { IfOk result (λ bytes. BundlesMeta O.opens O.closes O.Reader.remaining group.now opener.old opener.new bytes.items) }
    ensures stop { IfErr result (λ reason. BundlesNoMeta O.opens O.closes O.Reader.remaining group.now opener.old opener.new reason) }
{
    let Ok(resources) = resource_files(alloc, group.resources.as_slice()) else {
        return Err(Stop::Memory);
    };
    match read_file(alloc, group.meta, opener) {
        Ok(own) => bundle_files(alloc, own, group.base, resources.as_slice(), opener),
        Err(stop) => Err(stop),
    }
}

/// Reads the metadata with its resources. In the profile `w3c` the values that aren't permitted are left out.
fn read_meta<O: Opener>(alloc: Global, group: &Group<'_>, opener: &mut O) -> Result<Vec<u8>, Stop>
    ensures read { IfOk result (λ bytes. ReadsMeta O.opens O.closes O.Reader.remaining group.now opener.old opener.new bytes.items) }
    ensures stop { IfErr result (λ reason. ReadsNoMeta O.opens O.closes O.Reader.remaining group.now opener.old opener.new reason) }
{
    let whole = match bundle_meta(alloc, group, opener) {
        Ok(whole) => whole,
        Err(stop) => return Err(stop),
    };
    match with_defaults(alloc, whole, profile_of(group.profile)) {
        Ok(defaulted) => Ok(defaulted.bytes),
        Err(_) => Err(Stop::Memory),
    }
}

/// Reads the metadata, and then opens the files of the tables.
fn open_group<O: Opener>(
    alloc: Global,
    group: &Group<'_>,
    opener: &mut O,
) -> Result<Opened<O::Reader>, Stop>
    ensures opened { IfOk result (λ opened. OpensGroup O.opens O.closes O.Reader.remaining group.now opener.old opener.new
        opened.meta.items opened.readers.items) }
    ensures stop { IfErr result (λ reason. OpensNot O.opens O.closes O.Reader.remaining group.now opener.old opener.new reason) }
{
    let meta = match read_meta(alloc, group, opener) {
        Ok(meta) => meta,
        Err(stop) => return Err(stop),
    };
    match open_all(alloc, group.files.as_slice(), opener) {
        Ok(readers) => Ok(Opened { meta, readers }),
        Err(stop) => Err(stop),
    }
}

/// Hands back the readers of all tables, in order.
fn close_all<O: Opener>(readers: Vec<Counted<O::Reader>>, opener: &mut O)
    ensures { ClosesAll O.closes opener.old readers.items opener.new }
{
    for reader in readers {
        opener.close(reader);
    }
}

/// Returns the status of a run, and reports its stop.
pub fn tell_end<V: Write>(ran: &Result<Outcome, Stop>, err: &mut Counted<V>) -> u8
    ensures end { EndsSo ran.now (stream_of V.contents err.old err.new) result }
    ensures bound { result ≤ 4 }
{
    match ran {
        Ok(outcome) => outcome_status(outcome),
        Err(stop) => tell_stop(stop, err),
    }
}

/// Returns the order in which the tables are read: a piece of each in turn, or one after the other.
fn order_of(turns: bool) -> Order
    ensures { result ≡ order_of turns }
{
    match turns {
        true => Order::InTurns,
        false => Order::TableByTable,
    }
}

/// Runs over the tables of a group. The graph goes to `out` and the report to `err`. If no graph is asked for, the report
/// goes to `out`.
fn run_to<R: Read, W: Write, V: Write>(
    alloc: Global,
    request: Request<'_>,
    readers: &mut [Counted<R>],
    out: &mut Counted<W>,
    err: &mut Counted<V>,
) -> Result<Outcome, Stop>
    ensures { Leaves R.remaining request.entry.way.mode request.entry.way.order request.entry.profile request.entry.meta.now
        request.entry.base.now readers.old readers.new
        (stream_of W.contents out.old out.new) (stream_of V.contents err.old err.new) result }
{
    match request.way.mode {
        Mode::Validate => run_by(alloc, request, readers, err, out),
        Mode::Minimal => run_by(alloc, request, readers, out, err),
        Mode::Standard => run_by(alloc, request, readers, out, err),
    }
}

/// A group, and what is written of it.
#[derive(Clone, Copy)]
pub struct GroupRun<'a> {
    /// The group.
    pub group: &'a Group<'a>,
    /// Which triples are written; in mode `Validate` only the report.
    pub mode: Mode,
}

/// How a run over the files of a group ended.
#[derive(Debug, Drop)]
pub struct Ended {
    /// Why it stopped, if it did.
    pub stop: Option<Stop>,
    /// The faults that were found, of any kind, in the order of reports. There are none after a stop.
    pub faults: Seq<Fault>,
    /// The exit status.
    pub status: u8,
}

/// Returns how a run ended that has this status.
pub fn end_of(alloc: Global, ran: Result<Outcome, Stop>, status: u8) -> Ended
    ensures { result.status ≡ status }
{
    match ran {
        Ok(outcome) => Ended {
            stop: None,
            faults: outcome.faults,
            status,
        },
        Err(stop) => Ended {
            stop: Some(stop),
            faults: Seq::new(alloc),
            status,
        },
    }
}

/// Runs over the files of a group. The graph goes to `out` and the report to `err`. In mode `Validate` the report goes to
/// `out`. Returns how the run ended; a stop is reported on `err`.
pub fn run_group<O: Opener, W: Write, V: Write>(
    alloc: Global,
    asked: GroupRun<'_>,
    opener: &mut O,
    out: &mut Counted<W>,
    err: &mut Counted<V>,
) -> Ended
    ensures runs { RunsGroup O.opens O.closes O.Reader.remaining asked.entry.mode asked.entry.group.now opener.old opener.new
        (stream_of W.contents out.old out.new) (stream_of V.contents err.old err.new) result.status }
    ensures bound { result.status ≤ 4 }
{
    let GroupRun { group, mode } = asked;
    match open_group(alloc, group, opener) {
        Ok(Opened { meta, mut readers }) => {
            let request = Request {
                meta: meta.as_slice(),
                base: group.base,
                profile: profile_of(group.profile),
                way: Way {
                    mode,
                    order: order_of(group.turns),
                },
            };
            let ran = run_to(alloc, request, readers.as_mut_slice(), out, err);
            close_all(readers, opener);
            let status = tell_end(&ran, err);
            end_of(alloc, ran, status)
        }
        Err(stop) => {
            let status = tell_stop(&stop, err);
            end_of(alloc, Err(stop), status)
        }
    }
}
