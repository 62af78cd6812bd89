//! The plan of the parts of a group's files.
ghost use Rattle.std.specs.Prelude.{◌≤◌};

use crate::plans::{DocumentFile, FileStop, plan_of, unread};
use crate::tell::{SUCCESS, tell_mistake, tell_stop};
use csvw_columns::Plan;
use csvw_command_core::SplitFiles;
use csvw_engine::Stop;
use csvw_files::Opener;
use csvw_part_plan::{Piece, write_plan};
use csvw_split::{SplitStop, TableFile, split};
use csvw_text::{Counted, Seq};
use std::alloc::Global;
use std::io::Write;

/// What is told of a file whose length isn't known.
const NO_LENGTH: &str = "csvw: standard input can't be split, and no pipe can: name files\n";

/// Why there is no plan.
#[derive(Drop)]
enum NoPlan<'a> {
    /// A file can't be read, or the run stops.
    Stop(FileStop<'a>),
    /// The length of a file isn't known.
    NoLength,
}

impl<'a> From<Stop> for NoPlan<'a> {
    fn from(stop: Stop) -> NoPlan<'a> {
        NoPlan::Stop(FileStop::Stop(stop))
    }
}

/// Returns the stop of a run whose files can't be split. A plan has no dialect that reads no text, and its tables are
/// numbered from 1.
fn stop_of<'a>(stop: SplitStop, paths: &[&'a str]) -> FileStop<'a> {
    match stop {
        SplitStop::Memory => FileStop::Stop(Stop::Memory),
        SplitStop::TableCount => FileStop::Stop(Stop::TableCount),
        SplitStop::Dialect { .. } | SplitStop::NoPlan => FileStop::Stop(Stop::UnknownTable),
        SplitStop::Read { table } | SplitStop::Length { table } => unread(table, paths),
        SplitStop::Rows { table, row, stop } => { FileStop::Stop(Stop::Rows { table, row, stop }) }
    }
}

/// Opens a file whose length is known.
fn open_file<'a, O: Opener>(
    path: &'a str,
    opener: &mut O,
) -> Result<TableFile<O::Reader>, NoPlan<'a>> {
    let Some(reader) = opener.open(path) else {
        return Err(NoPlan::Stop(FileStop::Unread(path)));
    };
    let reader = Counted::new(reader);
    match opener.length(path) {
        Some(length) => Ok(TableFile { reader, length }),
        None => {
            opener.close(reader);
            Err(NoPlan::NoLength)
        }
    }
}

/// Opens the files of all tables.
fn open_files<'a, O: Opener>(
    alloc: Global,
    paths: &[&'a str],
    opener: &mut O,
) -> Result<Vec<TableFile<O::Reader>>, NoPlan<'a>> {
    let mut files = Vec::new(alloc);
    for path in paths {
        let file = open_file(path, opener)?;
        if files.push(file).is_err() {
            return Err(NoPlan::from(Stop::Memory));
        }
    }
    Ok(files)
}

/// Hands back the readers of all tables, in order.
fn close_files<O: Opener>(files: Vec<TableFile<O::Reader>>, opener: &mut O) {
    for file in files {
        opener.close(file.reader);
    }
}

/// Opens the files of planned tables, and returns the pieces of their parts.
fn split_files<'a, O: Opener>(
    alloc: Global,
    plan: &Plan,
    asked: &SplitFiles<'a>,
    opener: &mut O,
) -> Result<Seq<Piece>, NoPlan<'a>> {
    let mut files = open_files(alloc, asked.files.as_slice(), opener)?;
    let pieces = split(alloc, plan.tables(), files.as_mut_slice(), asked.parts);
    close_files(files, opener);
    match pieces {
        Ok(pieces) => Ok(pieces),
        Err(stop) => Err(NoPlan::Stop(stop_of(stop, asked.files.as_slice()))),
    }
}

/// Returns the pieces of the parts.
fn pieces_of<'a, O: Opener>(
    alloc: Global,
    asked: &'a SplitFiles<'a>,
    opener: &mut O,
) -> Result<Seq<Piece>, NoPlan<'a>> {
    let document = DocumentFile {
        path: asked.meta,
        base: asked.base,
        profile: asked.profile,
        resources: asked.resources.as_slice(),
    };
    match plan_of(alloc, document, opener) {
        Ok(plan) => split_files(alloc, &plan, asked, opener),
        Err(stop) => Err(NoPlan::Stop(stop)),
    }
}

/// Writes the plan of the parts of a group's files to `out`. Returns the status.
pub fn run_split<O: Opener, W: Write, V: Write>(
    alloc: Global,
    asked: &SplitFiles<'_>,
    opener: &mut O,
    out: &mut Counted<W>,
    err: &mut Counted<V>,
) -> u8
    ensures { result ≤ 4 }
{
    let pieces = match pieces_of(alloc, asked, opener) {
        Ok(pieces) => pieces,
        Err(NoPlan::Stop(stop)) => return stop.tell(opener, err),
        Err(NoPlan::NoLength) => return tell_mistake(NO_LENGTH, err),
    };
    if write_plan(pieces.as_slice(), out).is_err() || out.flush().is_err() {
        return tell_stop(&Stop::Write, err);
    }
    SUCCESS
}
