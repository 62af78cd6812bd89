//! The report of a run that ended, shown to people.
ghost use Rattle.csvw_columns.specs.Ready.{AreReady};

use crate::faults::faults_of;
use crate::repeats::{most_of, repeats_of};
use csvw_check_core::{
    Alone, Document, Halt, Opened, Page, Refused, Report, Show, Stopped, Strict, Tables, Walker,
    end_page, open_document, plan_of, show_alone, status_of, status_of_stop, tell_stop,
    unread_file,
};
use csvw_columns::Plan;
use csvw_engine_core::Stop;
use csvw_files::Opener;
use csvw_reread::paths_in_order;
use csvw_streams::Counted;
use std::alloc::Global;
use std::io::Write;
use std::slice;

/// What is shown of a run.
#[derive(Clone, Copy)]
enum Part<'a> {
    /// Its report, and its stop if it stopped.
    Report,
    /// The words of this stop.
    Stop(&'a Stop),
}

/// A run whose document was read.
#[derive(Clone, Copy)]
struct Run<'a> {
    /// What is asked.
    asked: &'a Show<'a>,
    /// What is shown.
    part: Part<'a>,
    /// The document.
    document: &'a Document,
}

/// Shows the report of a run, and its stop if it stopped. The document and the files are read again, so none of them
/// can be standard input. A table whose file can't be read again is shown without rows.
pub fn show<O: Opener, W: Write>(
    alloc: Global,
    asked: &Show<'_>,
    opener: &mut O,
    out: &mut Counted<W>,
) -> Result<(), Halt> {
    show_part(alloc, (asked, Part::Report), opener, out)
}

/// Shows the words of the stop of a run alone. It shows nothing if the run didn't stop.
pub fn explain_stop<O: Opener, W: Write>(
    alloc: Global,
    asked: &Show<'_>,
    opener: &mut O,
    out: &mut Counted<W>,
) -> Result<(), Halt> {
    match asked.stop {
        Some(stop) => show_part(alloc, (asked, Part::Stop(stop)), opener, out),
        None => Ok(()),
    }
}

/// Whether there is not one file for each table of a plan.
fn is_count_wrong(asked: &Show<'_>, plan: &Plan) -> bool {
    !asked.files.is_empty() && asked.files.len() != plan.tables().len()
}

/// Reads the document, and shows a part of the run, or why there is no plan.
fn show_part<O: Opener, W: Write>(
    alloc: Global,
    run: (&Show<'_>, Part<'_>),
    opener: &mut O,
    out: &mut Counted<W>,
) -> Result<(), Halt> {
    let (asked, part) = run;
    let mut walker = Walker::new(alloc, asked.form, asked.color, asked.shown);
    match open_document(alloc, &asked.source(), opener)? {
        Opened::Document(document) => {
            let run = Run {
                asked,
                part,
                document: &document,
            };
            show_document(&run, &mut walker, opener, out)
        }
        Opened::Unread(_) => {
            let reason = unread(alloc, asked, opener);
            show_alone(&mut walker.page, &asked.group(), &reason, out)
        }
        Opened::Refused(own, fault) => {
            let refused = Refused {
                bytes: own.as_slice(),
                fault: &fault,
                faults: slice::from_ref(&fault),
                shown: asked.shown,
            };
            refuse(asked, &refused, &mut walker, out)
        }
    }
}

/// Returns what is told if the document or a resource can't be read again. The run may have read it and refused it.
fn unread<'a, O: Opener>(alloc: Global, asked: &Show<'a>, opener: &mut O) -> Alone<'a> {
    match asked.stop {
        Some(Stop::Meta(fault)) => Alone::Unseen(fault),
        _ => Alone::Unread(unread_file(alloc, &asked.source(), opener)),
    }
}

/// Shows a document that is refused.
fn refuse<W: Write>(
    asked: &Show<'_>,
    refused: &Refused<'_>,
    walker: &mut Walker,
    out: &mut Counted<W>,
) -> Result<(), Halt> {
    show_alone(
        &mut walker.page,
        &asked.group(),
        &Alone::Refused(refused),
        out,
    )
}

/// Plans the tables of the document, and shows a part of the run, or why there is no plan.
fn show_document<O: Opener, W: Write>(
    run: &Run<'_>,
    walker: &mut Walker,
    opener: &mut O,
    out: &mut Counted<W>,
) -> Result<(), Halt> {
    let Run {
        asked,
        document,
        ..
    } = *run;
    let bytes = document.bytes();
    match plan_of(walker.page.alloc, bytes, asked.base, asked.profile) {
        Ok(plan) => show_planned(run, &plan, walker, opener, out),
        Err(fault) => {
            let faults = faults_of(walker.page.alloc, bytes, asked.base, asked.profile);
            let refused = Refused {
                bytes: document.own.as_slice(),
                fault: &fault,
                faults: faults.as_slice(),
                shown: asked.shown,
            };
            refuse(asked, &refused, walker, out)
        }
    }
}

/// Finds the file of each table of a plan, and shows a part of the run.
fn show_planned<O: Opener, W: Write>(
    run: &Run<'_>,
    plan: &Plan,
    walker: &mut Walker,
    opener: &mut O,
    out: &mut Counted<W>,
) -> Result<(), Halt>
    requires { AreReady plan.now.tables }
{
    let Run {
        asked,
        document,
        ..
    } = *run;
    let group = asked.group();
    if is_count_wrong(asked, plan) {
        return show_alone(&mut walker.page, &group, &Alone::TableCount(plan), out);
    }
    let paths = paths_in_order(walker.page.alloc, asked.meta, asked.files, plan.tables())?;
    let tables = Tables {
        group,
        document: document.own.as_slice(),
        plan,
        paths: paths.as_slice(),
    };
    match run.part {
        Part::Report => show_report(run, &tables, walker, opener, out),
        Part::Stop(stop) => show_stop(stop, &tables, &mut walker.page, opener, out),
    }
}

/// Shows the report of a run, and its stop if it stopped.
fn show_report<O: Opener, W: Write>(
    run: &Run<'_>,
    tables: &Tables<'_>,
    walker: &mut Walker,
    opener: &mut O,
    out: &mut Counted<W>,
) -> Result<(), Halt>
    requires { AreReady tables.now.plan.now.tables }
{
    let Run {
        asked,
        document,
        ..
    } = *run;
    let alloc = walker.page.alloc;
    let most = most_of(asked.form, asked.shown);
    let repeats = repeats_of(alloc, tables, asked.faults, most, opener)?;
    let status = match asked.stop {
        Some(stop) => status_of_stop(stop),
        None => status_of(asked.faults, Strict::Errors),
    };
    let report = Report {
        tables: *tables,
        changed: document.changed.as_slice(),
        faults: asked.faults,
        repeats: repeats.as_slice(),
        rows: &[],
        stop: stopped(asked),
        status,
    };
    report.show(walker, opener, out)
}

/// Returns the stop of a run. Which table's file was read isn't known.
fn stopped<'a>(asked: &Show<'a>) -> Option<Stopped<'a>> {
    match asked.stop {
        Some(stop) => Some(Stopped { stop, table: 0 }),
        None => None,
    }
}

/// Shows the words of the stop of a run alone.
fn show_stop<O: Opener, W: Write>(
    stop: &Stop,
    tables: &Tables<'_>,
    page: &mut Page,
    opener: &mut O,
    out: &mut Counted<W>,
) -> Result<(), Halt> {
    page.begin(tables.group.meta, None)?;
    tell_stop(page, tables, &Stopped { stop, table: 0 }, opener)?;
    end_page(page, None, out)
}
