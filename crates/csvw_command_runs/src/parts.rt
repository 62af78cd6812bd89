//! Runs over the rows of one part of a group.
ghost use Rattle.std.specs.Prelude.{◌≤◌, IfOk};
ghost use Rattle.csvw_columns.specs.Ready.{AreReady};

use crate::defaults::is_default;
use crate::group::GroupRun;
use crate::plans::{DocumentFile, FileStop, plan_of, read_file, unread};
use crate::tell::{outcome_status, tell_mistake, tell_refused, tell_stop};
use csvw_columns::Plan;
use csvw_command_core::Group;
use csvw_engine::{Outcome, Stop, write_report};
use csvw_files::{Opener, STANDARD_INPUT};
use csvw_ntriples::NtSink;
use csvw_part_plan::{Piece, part_count, read_plan};
use csvw_parts::{PartRequest, PartStop, run_part};
use csvw_text::{Counted, Seq};
use csvw_triples_core::{Mode, TripleSink};
use std::alloc::{AllocError, Global};
use std::io::Write;

/// What is told if a part has no plan, or a plan no part, or keys none of them.
const TOGETHER: &str = "csvw: --part and --plan go together, and --keys goes with them\n";

/// What is told if a part is asked for a page.
const CSV_ALONE: &str =
    "csvw: a part has a report in CSV; --report, --strict and --explain are for whole runs\n";

/// What is told if there is no part of the number.
const NO_PART: &str = "csvw: the plan has no part of this number; parts are numbered from 1\n";

/// What is told if the keys of a part have no file.
const KEYS: &str =
    "csvw: the group has keys, which can't be judged by one part; write those of its rows with --keys KEYS, for `csvw keys`\n";

/// What is told if the keys would be written over a file that is read.
const KEYS_READ: &str = "csvw: --keys names a file that is read, or standard input\n";

/// Why a part isn't run.
#[derive(Drop)]
enum NoRun<'a> {
    /// The command line is wrong in this way.
    Mistake(&'static str),
    /// The plan or a file is refused, with this line.
    Refused(String),
    /// A file can't be read, or it stops.
    Stop(FileStop<'a>),
}

impl<'a> From<FileStop<'a>> for NoRun<'a> {
    fn from(stop: FileStop<'a>) -> NoRun<'a> {
        NoRun::Stop(stop)
    }
}

impl<'a> From<AllocError> for NoRun<'a> {
    fn from(_: AllocError) -> NoRun<'a> {
        NoRun::Stop(FileStop::Stop(Stop::Memory))
    }
}

/// The plan of the parts, and the number of the one that is asked for.
#[derive(Drop)]
struct Part {
    /// The pieces of all parts.
    pieces: Seq<Piece>,
    /// The number, from 1.
    number: u32,
}

/// Reads the plan of the parts.
fn read_part<'a, O: Opener>(
    alloc: Global,
    group: &Group<'a>,
    opener: &mut O,
) -> Result<Part, NoRun<'a>> {
    let (Some(number), Some(path)) = (group.part, group.plan) else {
        return Err(NoRun::Mistake(TOGETHER));
    };
    if !is_default(group) {
        return Err(NoRun::Mistake(CSV_ALONE));
    }
    let Ok(number) = number.parse::<u32>() else {
        return Err(NoRun::Mistake(NO_PART));
    };
    let text = read_file(alloc, path, opener)?;
    match read_plan(alloc, text.as_slice()) {
        Ok(pieces) => {
            if number == 0 || number > part_count(pieces.as_slice()) {
                return Err(NoRun::Mistake(NO_PART));
            }
            Ok(Part { pieces, number })
        }
        Err(fault) => {
            let mut line = String::new(alloc);
            write!(line, "csvw: plan {fault}\n")?;
            Err(NoRun::Refused(line))
        }
    }
}

/// Whether the keys would be written over a file that is read, or to standard input.
fn writes_over(group: &Group<'_>, keys: &str) -> bool {
    keys == STANDARD_INPUT
        || keys == group.meta
        || group.plan == Some(keys)
        || group.files.contains(&keys)
}

/// Whether a table of the group has a key.
fn has_keys(plan: &Plan) -> bool {
    plan.tables().iter().any(|table| !table.primary_key.is_empty()
        || !table.foreign_keys.is_empty())
}

/// Reads the metadata, and makes the plan of the group.
fn read_group<'a, O: Opener>(
    alloc: Global,
    group: &'a Group<'a>,
    opener: &mut O,
) -> Result<Plan, NoRun<'a>>
    ensures { IfOk result (λ plan. AreReady plan.tables) }
{
    let document = DocumentFile {
        path: group.meta,
        base: group.base,
        profile: group.profile,
        resources: group.resources.as_slice(),
    };
    let plan = plan_of(alloc, document, opener)?;
    if plan.tables().len() != group.files.len() {
        return Err(NoRun::Stop(FileStop::Stop(Stop::TableCount)));
    }
    match group.keys {
        None if has_keys(&plan) => Err(NoRun::Mistake(KEYS)),
        Some(keys) if writes_over(group, keys) => Err(NoRun::Mistake(KEYS_READ)),
        _ => Ok(plan),
    }
}

/// Sends what is left of a stream. Fails with `Write` if it can't.
fn flush<W: Write>(w: &mut Counted<W>) -> Result<(), Stop> {
    match w.flush() {
        Ok(()) => Ok(()),
        Err(_) => Err(Stop::Write),
    }
}

/// Gives the triples of a part to a sink, and writes the records of its keys to a file, if one is named.
fn run_with_keys<O: Opener, S: TripleSink>(
    request: PartRequest<'_>,
    keys: Option<&str>,
    opener: &mut O,
    sink: &mut S,
) -> Result<Outcome, PartStop>
    requires { AreReady request.plan.now.tables }
{
    let records = match keys {
        Some(path) => match opener.create(path) {
            Some(file) => Some(Counted::new(file)),
            None => return Err(PartStop::Stop(Stop::Write)),
        },
        None => None,
    };
    let run = run_part(request, opener, sink, records)?;
    Ok(run.outcome)
}

/// Writes the lines of the rows of a part, and then its report.
fn write_part<O: Opener, W: Write, V: Write>(
    request: PartRequest<'_>,
    keys: Option<&str>,
    opener: &mut O,
    graph: &mut Counted<W>,
    report: &mut Counted<V>,
) -> Result<Outcome, PartStop>
    requires { AreReady request.plan.now.tables }
{
    let mut sink = NtSink::new(request.alloc, graph);
    let ran = run_with_keys(request, keys, opener, &mut sink);
    let graph = sink.into_inner();
    if !matches!(ran, Err(PartStop::Stop(Stop::Write))) {
        flush(graph)?;
    }
    let outcome = ran?;
    write_report(request.alloc, outcome.faults.as_slice(), report)?;
    flush(report)?;
    Ok(outcome)
}

/// Reports how a part of these files ended. Returns the status.
fn tell_part<O: Opener, V: Write>(
    alloc: Global,
    files: &[&str],
    ran: &Result<Outcome, PartStop>,
    opener: &O,
    err: &mut Counted<V>,
) -> u8
    ensures { result ≤ 4 }
{
    match ran {
        Ok(outcome) => outcome_status(outcome),
        Err(PartStop::Stop(stop)) => tell_stop(stop, err),
        Err(PartStop::Unread { table }) => unread(*table, files).tell(opener, err),
        Err(PartStop::Plan(differs)) => {
            let mut line = String::new(alloc);
            match write!(line, "csvw: plan {differs}\n") {
                Ok(()) => tell_refused(line.as_str(), err),
                Err(_) => tell_stop(&Stop::Memory, err),
            }
        }
    }
}

/// Whether the plan of the parts has pieces of all tables of the group.
fn has_all_tables(part: &Part, plan: &Plan) -> bool {
    match part.pieces.as_slice().last() {
        Some(piece) => piece.table as usize == plan.tables().len(),
        None => false,
    }
}

/// Reads what a part needs before its rows.
fn read_plans<'a, O: Opener>(
    alloc: Global,
    group: &'a Group<'a>,
    opener: &mut O,
) -> Result<(Part, Plan), NoRun<'a>>
    ensures { IfOk result (λ plans. AreReady plans.1.tables) }
{
    let part = read_part(alloc, group, opener)?;
    let plan = read_group(alloc, group, opener)?;
    if has_all_tables(&part, &plan) {
        Ok((part, plan))
    } else {
        Err(NoRun::Stop(FileStop::Stop(Stop::TableCount)))
    }
}

/// Converts or validates the rows of one part of a group. The graph and the report go where those of the whole go.
/// Returns the exit status. A plan that doesn't fit the files is told on `err`, with status 3.
pub fn run_one_part<O: Opener, W: Write, V: Write>(
    alloc: Global,
    asked: GroupRun<'_>,
    opener: &mut O,
    out: &mut Counted<W>,
    err: &mut Counted<V>,
) -> u8
    ensures { result ≤ 4 }
{
    let GroupRun { group, mode } = asked;
    let (part, plan) = match read_plans(alloc, group, opener) {
        Ok(read) => read,
        Err(NoRun::Mistake(text)) => return tell_mistake(text, err),
        Err(NoRun::Refused(line)) => return tell_refused(line.as_str(), err),
        Err(NoRun::Stop(stop)) => return stop.tell(opener, err),
    };
    let request = PartRequest {
        alloc,
        plan: &plan,
        mode,
        pieces: part.pieces.as_slice(),
        number: part.number,
        files: group.files.as_slice(),
    };
    let ran = match mode {
        Mode::Validate => write_part(request, group.keys, opener, err, out),
        Mode::Minimal | Mode::Standard => write_part(request, group.keys, opener, out, err),
    };
    tell_part(alloc, group.files.as_slice(), &ran, opener, err)
}
