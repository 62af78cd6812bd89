//! Runs over a group of tables.
ghost use Rattle.std.specs.Prelude.{◌≡◌, ◌≤◌, ◌∷◌, [], length};
ghost use Rattle.csvw_columns.specs.Ready.{AreReady};
ghost use Rattle.csvw_triples_core.specs.declared.mode.Mode.TheVariants as mode;
ghost use Rattle.csvw_streams.specs.Streams.{stream_of};
ghost use Rattle.csvw_engine.specs.ReadOrder.{AreInTurn, AreTableByTable};
ghost use Rattle.csvw_engine.specs.Rooms.{IsOrder};
ghost use Rattle.csvw_engine.specs.Runs.{IsPlanned, Runs};
ghost use Rattle.csvw_meta.specs.Document.{Document, document, document_by, plain_description};

use crate::flush::{flush, flush_after, is_failed_write};
use crate::group::{Way, convert_tables};
use crate::plan::{planned, planned_alone};
use crate::reporting::tell;
use crate::room::Order;
use csvw_columns::Plan;
use csvw_meta_core::Profile;
use csvw_report::Outcome;
use csvw_session::Stop;
use csvw_text::Counted;
use csvw_triples_core::Mode;
use std::alloc::Global;
use std::io::{Read, Write};
use std::slice;
use std_alloc::room::may_hold;

/// A request to run over a group of tables.
#[derive(Clone, Copy)]
pub struct Request<'a> {
    /// The metadata document that describes the group.
    pub meta: &'a [u8],
    /// The URL of the document.
    pub base: &'a str,
    /// The features that the document may use.
    pub profile: Profile,
    /// What is written, and the order in which the tables are read.
    pub way: Way,
}

/// A run over the tables of a plan.
#[derive(Drop)]
struct PlannedRun {
    /// The plan of the group.
    plan: Plan,
    /// What is written, and the order in which the tables are read.
    way: Way,
}

/// Reads the tables of a plan, and writes their graph and report.
fn run_planned<R: Read, W: Write, V: Write>(
    alloc: Global,
    run: PlannedRun,
    readers: &mut [Counted<R>],
    out: &mut Counted<W>,
    report: &mut Counted<V>,
) -> Result<Outcome, Stop>
    requires ready { AreReady run.plan.tables }
    requires few { length run.plan.tables ≤ 64 }
    ensures { (described : Document) → IsPlanned described run.plan
        → Runs R.remaining (IsOrder run.way.order) described run.way.mode readers.old readers.new
        (stream_of W.contents out.old out.new) (stream_of V.contents report.old report.new) result }
{
    let PlannedRun { plan, way } = run;
    if readers.len() != plan.tables().len() {
        return Err(Stop::TableCount);
    }
    let ran = convert_tables(alloc, plan, way, readers, out);
    if is_failed_write(&ran) {
        return ran;
    }
    let told = tell(alloc, ran, report);
    let outcome = flush_after(out, told)?;
    flush(report)?;
    Ok(outcome)
}

/// Reads a group of tables as a request says, and writes their graph and report. In the profile `Core` it does what
/// `run` and `run_turns` do. The errors are theirs.
pub fn run_by<R: Read, W: Write, V: Write>(
    alloc: Global,
    request: Request<'_>,
    readers: &mut [Counted<R>],
    out: &mut Counted<W>,
    report: &mut Counted<V>,
) -> Result<Outcome, Stop>
    ensures { Runs R.remaining (IsOrder request.entry.way.order)
        (document_by request.entry.profile request.entry.base.now request.entry.meta.now) request.entry.way.mode readers.old readers.new
        (stream_of W.contents out.old out.new) (stream_of V.contents report.old report.new) result }
{
    let way = request.way;
    let plan = planned(alloc, request.meta, request.base, request.profile)?;
    run_planned(alloc, PlannedRun { plan, way }, readers, out, report)
}

/// Reads a group of tables as the metadata document `meta` at the URL `base` describes them. The nth reader has the
/// text of the nth table. It writes the graph to `out`, and then the faults to `report`, in order.
///
/// - Mode `Minimal` writes the graph of the cells (csv2rdf, section 4.2).
/// - Mode `Standard` writes that, and the triples of the group, its tables and their rows.
/// - Mode `Validate` writes no graph.
///
/// Tables are read one after the other, in pieces of at most 65,536 bytes. At the end each writer is flushed once.
/// Before a stop in the tables is returned, the rows before it are written, and `out` is flushed. After a failed
/// write nothing more is sent to that writer.
///
/// Errors:
///
/// - `Meta` with a fault of the document.
/// - `TableCount` if the number of readers is not the number of tables.
/// - `Rows` and `Table` with the first row of a table that can't be read or annotated.
/// - `Read` if a reader failed in this call, or after 2^40 reads.
/// - `Write` if a writer failed in this call.
/// - `Memory` if memory runs out.
pub fn run<R: Read, W: Write, V: Write>(
    alloc: Global,
    meta: &[u8],
    base: &str,
    readers: &mut [Counted<R>],
    mode: Mode,
    out: &mut Counted<W>,
    report: &mut Counted<V>,
) -> Result<Outcome, Stop>
    ensures { Runs R.remaining AreTableByTable (document base.now meta.now) mode readers.old readers.new
        (stream_of W.contents out.old out.new) (stream_of V.contents report.old report.new) result }
{
    let way = Way {
        mode,
        order: Order::TableByTable,
    };
    let request = Request {
        meta,
        base,
        profile: Profile::Core,
        way,
    };
    run_by(alloc, request, readers, out, report)
}

/// Reads a group of tables as `run` does, but reads a piece of each open table in turn. So the rows of all tables
/// are written as they come. Its results and errors mean what they mean in `run`. If there are several stops, it
/// returns the one that it meets first.
pub fn run_turns<R: Read, W: Write, V: Write>(
    alloc: Global,
    meta: &[u8],
    base: &str,
    readers: &mut [Counted<R>],
    mode: Mode,
    out: &mut Counted<W>,
    report: &mut Counted<V>,
) -> Result<Outcome, Stop>
    ensures { Runs R.remaining AreInTurn (document base.now meta.now) mode readers.old readers.new
        (stream_of W.contents out.old out.new) (stream_of V.contents report.old report.new) result }
{
    let way = Way {
        mode,
        order: Order::InTurns,
    };
    let request = Request {
        meta,
        base,
        profile: Profile::Core,
        way,
    };
    run_by(alloc, request, readers, out, report)
}

/// Reads one table without a document. Its URL is `url`, its dialect is the default one, its header names its
/// columns, and its cells are strings.
///
/// It runs as `run` does over a document that has only that `url`, in mode `Minimal`. It writes the graph of the
/// cells to `out` and then the faults to `report`. The fault is `HeaderMissing` if the file has no
/// row except comments.
///
/// Fails with `Meta` if the URL is refused: with `BadUrl` or `UrlTooLong` at `/url`. Each other stop comes as in
/// `run`.
pub fn plain<R: Read, W: Write, V: Write>(
    alloc: Global,
    url: &str,
    input: &mut Counted<R>,
    out: &mut Counted<W>,
    report: &mut Counted<V>,
) -> Result<Outcome, Stop>
    ensures { Runs R.remaining AreTableByTable (plain_description url.now) mode.Minimal (input.old ∷ []) (input.new ∷ [])
        (stream_of W.contents out.old out.new) (stream_of V.contents report.old report.new) result }
{
    // A slice has fewer than 2^63 bytes, so a reader that becomes a slice of one must have too.
    if !may_hold::<Counted<R>>(1) {
        return Err(Stop::Memory);
    }
    let plan = planned_alone(alloc, url)?;
    let way = Way {
        mode: Mode::Minimal,
        order: Order::TableByTable,
    };
    let run = PlannedRun { plan, way };
    let readers = slice::from_mut(input);
    run_planned(alloc, run, readers, out, report)
}
