//! `check`: from the paths to the page.
ghost use Rattle.std.specs.Prelude.{◌≤◌};
ghost use Rattle.csvw_columns.specs.Ready.{AreReady};

use crate::faults::faults_of;
use crate::reading::{Found, read};
use crate::repeats::{most_of, repeats_of};
use csvw_check_core::{
    Alone, Check, DEVICE, Document, Halt, Opened, REFUSED, Refused, Report, Stopped, Tables,
    Walker, open_document, paths, plan_of, show_alone, status_of, status_of_stop,
};
use csvw_columns::Plan;
use csvw_files::Opener;
use csvw_streams::{Counted, write_out};
use std::alloc::Global;
use std::io::Write;
use std::slice;

/// Checks a group of tables, and writes what is wrong with it to `out`. Returns the status.
pub fn check<O: Opener, W: Write, V: Write>(
    alloc: Global,
    asked: &Check<'_>,
    opener: &mut O,
    out: &mut Counted<W>,
    err: &mut Counted<V>,
) -> u8
    ensures { result ≤ 4 }
{
    let mut walker = Walker::new(alloc, asked.form, asked.color, asked.shown);
    let halt = match checked_group(asked, opener, &mut walker, out) {
        Ok(status) if out.flush().is_ok() => return status.min(DEVICE),
        Ok(_) => Halt::Write,
        Err(halt) => halt,
    };
    let _ = write_out(
        err,
        match halt {
            Halt::Memory => b"csvw: Memory\n",
            Halt::Write => b"csvw: Write\n",
        },
    );
    DEVICE
}

/// Reads the document, and checks its tables. Returns the status.
fn checked_group<O: Opener, W: Write>(
    asked: &Check<'_>,
    opener: &mut O,
    walker: &mut Walker,
    out: &mut Counted<W>,
) -> Result<u8, Halt> {
    match open_document(walker.page.alloc, &asked.source(), opener)? {
        Opened::Document(document) => check_document((asked, &document), opener, walker, out),
        Opened::Unread(file) => {
            show_alone(&mut walker.page, &asked.group(), &Alone::Unread(file), out)?;
            Ok(DEVICE)
        }
        Opened::Refused(own, fault) => {
            let refused = Refused {
                bytes: own.as_slice(),
                fault: &fault,
                faults: slice::from_ref(&fault),
                shown: asked.shown,
            };
            refuse(asked, &Alone::Refused(&refused), walker, out)
        }
    }
}

/// Plans the tables of the document, and checks them. Returns the status.
fn check_document<O: Opener, W: Write>(
    source: (&Check<'_>, &Document),
    opener: &mut O,
    walker: &mut Walker,
    out: &mut Counted<W>,
) -> Result<u8, Halt> {
    let (asked, document) = source;
    let bytes = document.bytes();
    match plan_of(walker.page.alloc, bytes, asked.base, asked.profile) {
        Ok(plan) => check_plan((asked, document), &plan, opener, walker, out),
        Err(fault) => {
            let faults = faults_of(walker.page.alloc, bytes, asked.base, asked.profile);
            let refused = Refused {
                bytes: document.own.as_slice(),
                fault: &fault,
                faults: faults.as_slice(),
                shown: asked.shown,
            };
            refuse(asked, &Alone::Refused(&refused), walker, out)
        }
    }
}

/// Shows why nothing of a group can be read, which is refused. Returns the status.
fn refuse<W: Write>(
    asked: &Check<'_>,
    reason: &Alone<'_>,
    walker: &mut Walker,
    out: &mut Counted<W>,
) -> Result<u8, Halt> {
    show_alone(&mut walker.page, &asked.group(), reason, out)?;
    Ok(REFUSED)
}

/// Finds the file of each table, and checks them. Returns the status.
fn check_plan<O: Opener, W: Write>(
    source: (&Check<'_>, &Document),
    plan: &Plan,
    opener: &mut O,
    walker: &mut Walker,
    out: &mut Counted<W>,
) -> Result<u8, Halt>
    requires { AreReady plan.now.tables }
{
    let (asked, document) = source;
    let is_given = !asked.files.is_empty();
    if is_given && asked.files.len() != plan.tables().len() {
        return refuse(asked, &Alone::TableCount(plan), walker, out);
    }
    let paths = paths(walker.page.alloc, asked.meta, asked.files, plan.tables())?;
    let tables = Tables {
        group: asked.group(),
        document: document.own.as_slice(),
        plan,
        paths: paths.as_slice(),
    };
    check_tables((asked, document), &tables, opener, walker, out)
}

/// Reads the tables, and shows what is wrong with them. Returns the status.
fn check_tables<O: Opener, W: Write>(
    source: (&Check<'_>, &Document),
    tables: &Tables<'_>,
    opener: &mut O,
    walker: &mut Walker,
    out: &mut Counted<W>,
) -> Result<u8, Halt>
    requires { AreReady tables.now.plan.now.tables }
{
    let (asked, document) = source;
    let alloc = walker.page.alloc;
    let found = read(alloc, tables.plan, tables.paths, opener)?;
    let most = most_of(asked.form, asked.shown);
    let repeats = repeats_of(alloc, tables, found.faults.as_slice(), most, opener)?;
    let report = Report {
        tables: *tables,
        changed: document.changed.as_slice(),
        faults: found.faults.as_slice(),
        repeats: repeats.as_slice(),
        rows: found.rows.as_slice(),
        stop: stopped(&found),
        status: found_status(asked, &found),
    };
    report.show(walker, opener, out)?;
    Ok(report.status)
}

/// Returns the status of what was found.
fn found_status(asked: &Check<'_>, found: &Found) -> u8 {
    match &found.stop {
        Some(stop) => status_of_stop(stop),
        None => status_of(found.faults.as_slice(), asked.strict),
    }
}

/// Returns the stop, if there was one, with the table whose file was read.
fn stopped(found: &Found) -> Option<Stopped<'_>> {
    match &found.stop {
        Some(stop) => Some(Stopped {
            stop,
            table: found.table,
        }),
        None => None,
    }
}
