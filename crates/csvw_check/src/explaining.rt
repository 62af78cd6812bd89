//! The stop of a run that has no report of a group: of one table without metadata, and of a look at a document.

use crate::showing::explain_stop;
use csvw_check_core::{
    Form, Group, Halt, Page, Show, ShowTable, Stopped, Tables, UnreadFile, end_page, tell_memory,
    tell_plain, tell_stop, tell_unread, unread_file,
};
use csvw_columns::Plan;
use csvw_engine_core::Stop;
use csvw_files::Opener;
use csvw_meta::{Description, MetaCode, MetaFault, ReadDescription};
use csvw_page::{StopShown, push_location};
use csvw_streams::Counted;
use std::alloc::{AllocError, Global};
use std::io::Write;
use std::slice;

/// What is told if what a document says can't be written.
const UNWRITTEN: &str =
    "what the document says could not be written: make room where it goes, and begin anew";

/// Returns the plan of the table at this URL, without a document.
fn plain_plan(alloc: Global, url: &str) -> Result<Plan, MetaFault> {
    let description = Description::plain(alloc, url)?;
    Plan::build(alloc, description)
}

/// Adds what else helps with a URL that is refused.
fn push_url_hint(hints: &mut String, url: &str, code: MetaCode) -> Result<(), AllocError> {
    match code {
        MetaCode::BadUrl => {
            hints.push_str("    ")?;
            push_location(hints, url)?;
            hints.push_str(
                " is no absolute URL: write one, as in `csvw plain http://example.org/t.csv t.csv`\n",
            )
        }
        _ => Ok(()),
    }
}

/// Adds that the URL of a table is refused.
fn tell_url(page: &mut Page, url: &str, fault: &MetaFault) -> Result<(), AllocError> {
    let mut hints = String::new(page.alloc);
    push_url_hint(&mut hints, url, fault.code)?;
    let sentence = fault.code.to_string(page.alloc)?;
    page.stop(&StopShown {
        name: fault.code.name(),
        sentence: sentence.as_str(),
        path: "",
        table: 0,
        row: 0,
        line: 0,
        column: 0,
        pointer: "",
        hints: hints.as_str(),
    })
}

/// Adds why a table without metadata wasn't read to its end.
fn tell_table_stop<O: Opener>(
    page: &mut Page,
    asked: &ShowTable<'_>,
    opener: &mut O,
) -> Result<(), AllocError> {
    let Ok(plan) = plain_plan(page.alloc, asked.url) else {
        return tell_memory(page);
    };
    let path = String::from_str(page.alloc, asked.file)?;
    let files = [asked.file];
    let tables = Tables {
        group: Group {
            base: asked.url,
            meta: "",
            files: &files,
        },
        document: &[],
        plan: &plan,
        paths: slice::from_ref(&path),
    };
    let stopped = Stopped {
        stop: asked.stop,
        table: 1,
    };
    tell_stop(page, &tables, &stopped, opener)
}

/// Shows the words of the stop of a run over one table without metadata. The file is read again, so what is shown of
/// standard input has no lines.
pub fn explain_table_stop<O: Opener, W: Write>(
    alloc: Global,
    asked: &ShowTable<'_>,
    opener: &mut O,
    out: &mut Counted<W>,
) -> Result<(), Halt> {
    let mut page = Page::new(alloc, Form::Text, asked.color);
    match asked.stop {
        Stop::Read => {
            let file = UnreadFile {
                path: asked.file,
                table: 1,
                error: opener.io_error(asked.file),
            };
            tell_unread(&mut page, &file)?
        }
        Stop::Meta(fault) => tell_url(&mut page, asked.url, fault)?,
        _ => tell_table_stop(&mut page, asked, opener)?,
    }
    end_page(&mut page, None, out)
}

/// Adds that a device failed while a document was shown, or that memory ran out.
fn tell_look_stop<O: Opener>(
    page: &mut Page,
    asked: &Show<'_>,
    stop: &Stop,
    opener: &mut O,
) -> Result<(), AllocError> {
    match stop {
        Stop::Read => {
            let file = unread_file(page.alloc, &asked.source(), opener);
            tell_unread(page, &file)
        }
        Stop::Write => tell_plain(page, "Write", UNWRITTEN, "", 0),
        _ => tell_memory(page),
    }
}

/// Shows the words of the stop of a look at a document. A document that is refused is read again, and all of its faults
/// are shown. It shows nothing if there was no stop.
pub fn explain_look_stop<O: Opener, W: Write>(
    alloc: Global,
    asked: &Show<'_>,
    opener: &mut O,
    out: &mut Counted<W>,
) -> Result<(), Halt> {
    match asked.stop {
        None => Ok(()),
        Some(Stop::Meta(_)) => explain_stop(alloc, asked, opener, out),
        Some(stop) => {
            let mut page = Page::new(alloc, asked.form, asked.color);
            page.begin(asked.meta, None)?;
            tell_look_stop(&mut page, asked, stop, opener)?;
            end_page(&mut page, None, out)
        }
    }
}
