//! The metadata document, and what is wrong with it.
ghost use Rattle.std.specs.Prelude.{IfOk};
ghost use Rattle.csvw_columns.specs.Ready.{AreReady};

use crate::datatype_hint::{push_bound_hint, push_datatype_hint};
use crate::expected::{JsonEnd, push_expected};
use crate::missing::push_missing;
use crate::reference_hint::{push_profile_hint, push_reference_hint};
use crate::refused::{Refused, tell_all};
use crate::resource_hint::push_resource_hint;
use csvw_columns::Plan;
use csvw_files::{Opener, read_document};
use csvw_hints::{Group, line_and_column, place_of, push_disguise};
use csvw_meta::document::own_url;
use csvw_meta::{Description, MetaCode, MetaFault, Profile, ReadDescription};
use csvw_page::{Halt, Page, StopShown, Summary, push_location};
use csvw_streams::Counted;
use serde_json::Value;
use std::alloc::{AllocError, Global};
use std::io::{self, Write};

/// What to do if a file can't be read.
const UNREAD: &str = "the file can't be opened or read: correct its path, or its permissions";

/// What is told of a document that is refused and can't be read again.
const UNSEEN: &str =
    "    the document can't be read again: give it as a file, and its other faults are listed with their lines\n";

/// What is told of a resource whose URL isn't absolute.
const RELATIVE_RESOURCE: &str =
    "    the URL of a resource isn't absolute: write `--resource http://example.org/schema.json=FILE`\n";

/// What counts as memory that ran out, besides the machine's.
const EXPRESSION_TOO_LARGE: &str =
    "    a regular expression that needs more than 10 MiB counts as this, too, as `\\w{1000}{1000}`: repeat less, or a smaller class\n";

/// Reads a document in a profile, and plans its tables.
pub fn plan_of(alloc: Global, bytes: &[u8], base: &str, profile: Profile) -> Result<Plan, MetaFault>
    ensures { IfOk result (λ plan. AreReady plan.tables) }
{
    let description = Description::read_by(alloc, bytes, base, profile)?;
    Plan::build(alloc, description)
}

/// Returns the bytes without U+FEFF at their start.
fn without_bom(bytes: &[u8]) -> &[u8] {
    bytes.strip_prefix(b"\xEF\xBB\xBF").unwrap_or(bytes)
}

/// Returns the line and the column at which bytes stop being JSON, both from 1.
fn end_of_json(alloc: Global, bytes: &[u8]) -> (usize, usize) {
    let text = match str::from_utf8(without_bom(bytes)) {
        Ok(text) => text,
        Err(e) => return line_and_column(bytes.get(..e.valid_up_to()).unwrap_or(&[])),
    };
    match Value::from_str(alloc, text) {
        Ok(_) => (1, 1),
        Err(e) => (e.line().max(1), e.column().max(1)),
    }
}

/// Returns where bytes in UTF-8 stop being JSON.
fn json_end(alloc: Global, bytes: &[u8]) -> JsonEnd {
    match Value::from_slice(alloc, without_bom(bytes)) {
        Err(e) if !e.is_eof() => JsonEnd::Place(e.line(), e.column()),
        _ => JsonEnd::End,
    }
}

/// Reads the document at a path. Returns its bytes, or `None` if it can't be opened or read.
pub(crate) fn opened<O: Opener>(alloc: Global, path: &str, opener: &mut O) -> Option<Vec<u8>> {
    let reader = opener.open(path)?;
    let mut reader = Counted::new(reader);
    let read = read_document(alloc, &mut reader);
    opener.close(reader);
    read.ok()
}

/// Adds what helps with a document that is no JSON: what its file is, or else what is expected.
fn push_json_hint(
    hints: &mut String,
    alloc: Global,
    meta: &str,
    bytes: &[u8],
) -> Result<(), AllocError> {
    push_disguise(hints, meta, bytes)?;
    if !hints.is_empty() || str::from_utf8(bytes).is_err() {
        return Ok(());
    }
    push_expected(hints, alloc, without_bom(bytes), json_end(alloc, bytes))
}

/// A fault of the document that is shown.
#[derive(Clone, Copy)]
pub(crate) struct Told<'a> {
    /// The fault.
    pub(crate) fault: &'a MetaFault,
    /// Its line and its column, both from 1. A line of 0 is not shown, since the document can't be read again.
    pub(crate) place: (usize, usize),
    /// A line that follows what else helps with it, or nothing.
    pub(crate) note: &'static str,
}

/// Adds which URL isn't absolute: that of the document, or else one of a resource.
fn push_relative(hints: &mut String, alloc: Global, base: &str) -> Result<(), AllocError> {
    if own_url(alloc, base).is_ok() {
        return hints.push_str(RELATIVE_RESOURCE);
    }
    hints.push_str("    ")?;
    push_location(hints, base)?;
    hints.push_str(" isn't absolute: write `--base http://example.org/metadata.json`\n")
}

/// Adds what helps with a property whose value isn't permitted: what an object needs, or how a bound is written.
fn push_property_hints(
    hints: &mut String,
    alloc: Global,
    bytes: &[u8],
    fault: &MetaFault,
) -> Result<(), AllocError> {
    push_missing(hints, alloc, bytes, fault.pointer.as_str())?;
    if hints.is_empty() {
        push_bound_hint(hints, alloc, bytes, fault)?;
    }
    Ok(())
}

/// Adds what else helps with a fault of a document.
fn push_document_hints(
    hints: &mut String,
    alloc: Global,
    group: &Group<'_>,
    bytes: &[u8],
    told: &Told<'_>,
) -> Result<(), AllocError> {
    let fault = told.fault;
    if told.place.0 > 0 {
        push_resource_hint(hints, without_bom(bytes), fault)?;
    }
    push_profile_hint(hints, fault)?;
    match fault.code {
        _ if !hints.is_empty() => Ok(()),
        MetaCode::NotJson if told.place.0 == 0 => Ok(()),
        MetaCode::NotJson => push_json_hint(hints, alloc, group.meta, bytes),
        MetaCode::NotSupported | MetaCode::BadDatatype => {
            push_datatype_hint(hints, alloc, without_bom(bytes), fault)
        }
        MetaCode::BadReference => push_reference_hint(hints, alloc, without_bom(bytes), fault),
        MetaCode::BadProperty => push_property_hints(hints, alloc, without_bom(bytes), fault),
        MetaCode::BadUrl if fault.pointer.is_empty() => push_relative(hints, alloc, group.base),
        MetaCode::Memory => hints.push_str(EXPRESSION_TOO_LARGE),
        _ => Ok(()),
    }
}

/// Returns the line and the column of a fault of the document, both from 1.
pub(crate) fn place_of_fault(alloc: Global, bytes: &[u8], fault: &MetaFault) -> (usize, usize) {
    match fault.code {
        MetaCode::NotJson if fault.pointer.is_empty() => end_of_json(alloc, bytes),
        _ => place_of(bytes, fault.pointer.as_str()),
    }
}

/// Adds a fault of the document: its place by lines and columns, its pointer, its code and what to do.
pub(crate) fn tell_fault(
    page: &mut Page,
    group: &Group<'_>,
    bytes: &[u8],
    told: Told<'_>,
) -> Result<(), AllocError> {
    let Told { fault, place, note } = told;
    let (line, column) = place;
    let mut hints = String::new(page.alloc);
    push_document_hints(&mut hints, page.alloc, group, bytes, &told)?;
    hints.push_str(note)?;
    let sentence = fault.code.to_string(page.alloc)?;
    page.stop(&StopShown {
        name: fault.code.name(),
        sentence: sentence.as_str(),
        path: group.meta,
        table: 0,
        row: 0,
        line: line as u64,
        column: column as u64,
        pointer: fault.pointer.as_str(),
        hints: hints.as_str(),
    })
}

/// Adds the fault by which the document is refused.
pub(crate) fn tell_refused(
    page: &mut Page,
    group: &Group<'_>,
    bytes: &[u8],
    fault: &MetaFault,
) -> Result<(), AllocError> {
    let told = Told {
        fault,
        place: place_of_fault(page.alloc, bytes, fault),
        note: "",
    };
    tell_fault(page, group, bytes, told)
}

/// Adds the fault by which a document is refused that can't be read again, as from standard input.
fn tell_unseen(page: &mut Page, group: &Group<'_>, fault: &MetaFault) -> Result<(), AllocError> {
    let told = Told {
        fault,
        place: (0, 0),
        note: UNSEEN,
    };
    tell_fault(page, group, &[], told)
}

/// Adds a stop that is at no place of a file. The path is empty if it is of no file.
pub fn tell_plain(
    page: &mut Page,
    name: &str,
    sentence: &str,
    path: &str,
    table: u32,
) -> Result<(), AllocError> {
    page.stop(&StopShown {
        name,
        sentence,
        path,
        table,
        row: 0,
        line: 0,
        column: 0,
        pointer: "",
        hints: "",
    })
}

/// A file that can't be opened or read.
#[derive(Clone, Copy)]
pub struct UnreadFile<'a> {
    /// Its path.
    pub path: &'a str,
    /// The number of its table, from 1. It is 0 if it has no table.
    pub table: u32,
    /// The system's error, if it is known.
    pub error: Option<io::Error>,
}

/// Adds what the system says of a file that can't be read, if it is known.
fn push_error(hints: &mut String, error: Option<io::Error>) -> Result<(), AllocError> {
    match error {
        Some(error) => write!(hints, "    the system says: {error}\n"),
        None => Ok(()),
    }
}

/// Adds that a file can't be opened or read, and what the system says.
pub fn tell_unread(page: &mut Page, file: &UnreadFile<'_>) -> Result<(), AllocError> {
    let mut hints = String::new(page.alloc);
    push_error(&mut hints, file.error)?;
    page.stop(&StopShown {
        name: "Read",
        sentence: UNREAD,
        path: file.path,
        table: file.table,
        row: 0,
        line: 0,
        column: 0,
        pointer: "",
        hints: hints.as_str(),
    })
}

/// Adds that there is not one file for each table, and lists the tables.
pub(crate) fn tell_table_count(
    page: &mut Page,
    group: &Group<'_>,
    plan: &Plan,
) -> Result<(), AllocError> {
    let tables = plan.tables().len();
    let files = group.files.len();
    let mut hints = String::new(page.alloc);
    for table in plan.tables() {
        let number = table.number;
        write!(hints, "  table {number}: ")?;
        push_location(&mut hints, table.url.iri().as_str())?;
        hints.push('\n')?;
    }
    let sentence = format!(in page.alloc;
        "{tables} tables, {files} files: give one file for each table"
    )?;
    page.stop(&StopShown {
        name: "TableCount",
        sentence: sentence.as_str(),
        path: group.meta,
        table: 0,
        row: 0,
        line: 0,
        column: 0,
        pointer: "",
        hints: hints.as_str(),
    })
}

/// Why nothing of a group can be read.
#[derive(Clone, Copy)]
pub enum Alone<'a> {
    /// This file can't be opened or read: the document, or that of a resource.
    Unread(UnreadFile<'a>),
    /// The document has this fault, and can't be read again.
    Unseen(&'a MetaFault),
    /// The document has faults.
    Refused(&'a Refused<'a>),
    /// There is not one file for each table of this plan.
    TableCount(&'a Plan),
}

/// Ends a page, and sends it.
pub fn end_page<W: Write>(
    page: &mut Page,
    summary: Option<&Summary<'_>>,
    out: &mut Counted<W>,
) -> Result<(), Halt> {
    page.end(summary)?;
    page.send(out)
}

/// Shows a page of the reason alone for which nothing of a group can be read.
pub fn show_alone<W: Write>(
    page: &mut Page,
    group: &Group<'_>,
    reason: &Alone<'_>,
    out: &mut Counted<W>,
) -> Result<(), Halt> {
    page.begin(group.meta, None)?;
    let told = match reason {
        Alone::Unread(file) => tell_unread(page, file),
        Alone::Unseen(fault) => tell_unseen(page, group, fault),
        Alone::Refused(refused) => tell_all(page, group, refused),
        Alone::TableCount(plan) => tell_table_count(page, group, plan),
    };
    told?;
    end_page(page, None, out)
}
