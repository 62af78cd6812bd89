//! Why the tables weren't read to their ends.

use crate::document::{UnreadFile, tell_plain, tell_refused, tell_table_count, tell_unread};
use csvw_columns::{TablePlan, TableStop};
use csvw_engine_core::Stop;
use csvw_files::{Opener, STANDARD_INPUT};
use csvw_hints::{Tables, dialect_hint, push_disguise};
use csvw_page::{Page, StopShown, push_location};
use csvw_records::RowStop;
use csvw_reread::{seek, swapped};
use csvw_streams::Counted;
use std::alloc::AllocError;
use std::io::Read;

/// How many bytes at the start of a file are looked at.
const FIRST: usize = 512;

/// Where a dialect is written.
const DRAFTED: &str =
    "    a metadata document has the dialect: `csvw draft` writes one, and `csvw convert` reads it\n";

/// What is told of a stop in standard input.
const UNSEEN: &str =
    "    standard input can't be read again: give a file, and the line of the stop is shown\n";

/// A stop in a record of a table.
#[derive(Clone, Copy)]
struct RecordStop {
    /// The number of the table, from 1.
    table: u32,
    /// The number of the record, from 1.
    row: u64,
    /// The name of the stop.
    name: &'static str,
    /// What to do.
    sentence: &'static str,
}

/// Adds a stop in a record: the line of the file at which the record begins, the stop's name and what to do.
fn tell_record_stop<O: Opener>(
    page: &mut Page,
    tables: &Tables<'_>,
    stop: &RecordStop,
    opener: &mut O,
) -> Result<(), AllocError> {
    let path = tables.path_at(stop.table).unwrap_or("");
    let mut hints = String::new(page.alloc);
    let mut line = 0;
    if let Some(plan) = tables.plan_at(stop.table) {
        if let Some(seen) = seek(page.alloc, plan, path, stop.row, opener)? {
            line = seen.line;
            push_fields(&mut hints, seen.fields)?;
        }
        push_first_bytes(&mut hints, tables, plan, path, opener)?;
    }
    if path == STANDARD_INPUT {
        hints.push_str(UNSEEN)?;
    }
    push_swapped(&mut hints, tables)?;
    page.stop(&StopShown {
        name: stop.name,
        sentence: stop.sentence,
        path,
        table: stop.table,
        row: stop.row,
        line,
        column: 0,
        pointer: "",
        hints: hints.as_str(),
    })
}

/// Adds the number and the file of a table.
fn push_file(hints: &mut String, place: usize, path: &str) -> Result<(), AllocError> {
    let number = place.saturating_add(1);
    write!(hints, "table {number} has ")?;
    push_location(hints, path)
}

/// Adds which files two tables have by their URLs, if they look swapped.
fn push_swapped(hints: &mut String, tables: &Tables<'_>) -> Result<(), AllocError> {
    let found = swapped(*hints.allocator(), tables.plan.tables(), tables.paths)?;
    let Some((one, other)) = found else {
        return Ok(());
    };
    let (Some(first), Some(second)) = (tables.paths.get(other), tables.paths.get(one)) else {
        return Ok(());
    };
    hints.push_str("    the files look swapped: by their URLs ")?;
    push_file(hints, one, first.as_str())?;
    hints.push_str(", and ")?;
    push_file(hints, other, second.as_str())?;
    hints.push('\n')
}

/// Adds how many fields a row has, if it is known.
fn push_fields(hints: &mut String, fields: Option<usize>) -> Result<(), AllocError> {
    match fields {
        None => Ok(()),
        Some(1) => hints.push_str("    the row has 1 field\n"),
        Some(fields) => write!(hints, "    the row has {fields} fields\n"),
    }
}

/// Adds where a dialect is written, if the table has no document yet.
fn push_draft(hints: &mut String, tables: &Tables<'_>) -> Result<(), AllocError> {
    match tables.group.meta {
        "" => hints.push_str(DRAFTED),
        _ => Ok(()),
    }
}

/// Adds what the first bytes of a file say of the file and of its dialect.
fn push_first_bytes<O: Opener>(
    hints: &mut String,
    tables: &Tables<'_>,
    plan: &TablePlan,
    path: &str,
    opener: &mut O,
) -> Result<(), AllocError> {
    let Some(reader) = opener.open(path) else {
        return Ok(());
    };
    let mut reader = Counted::new(reader);
    let mut first = [0u8; FIRST];
    let read = reader.read(&mut first);
    opener.close(reader);
    let Ok(n) = read else {
        return Ok(());
    };
    let bytes = first.get(..n).unwrap_or(&[]);
    push_disguise(hints, path, bytes)?;
    match dialect_hint(bytes, plan.dialect.delimiter) {
        Some(hint) => {
            write!(hints, "    {hint}\n")?;
            push_draft(hints, tables)
        }
        None => Ok(()),
    }
}

/// Returns what to do about a stop in records.
fn row_sentence(stop: RowStop) -> &'static str {
    match stop {
        RowStop::Memory => "memory ran out",
        RowStop::NotUtf8 => "the bytes are no text in UTF-8: save the file as UTF-8",
        RowStop::RowTooLong =>
            "the record has more than 1,048,576 bytes: look for a quote that is never closed",
        RowStop::BadQuote =>
            "a quote is in a field that doesn't begin with one: quote the field and double the quote",
        RowStop::TextAfterQuote =>
            "text follows a closing quote: double the quotes inside a quoted field",
        RowStop::UnclosedQuote => "a quoted field is never closed: add the quote",
        RowStop::TooManyRows => "the file has more than 4,000,000,000 records: divide it",
    }
}

/// Returns what to do about a stop of a table.
fn table_sentence(stop: TableStop) -> &'static str {
    match stop {
        TableStop::Memory => "memory ran out",
        TableStop::DuplicateName =>
            "two columns have one name: rename one in the header or in the metadata",
        TableStop::TooManyColumns =>
            "there are more than 1,024 columns: look at the delimiter, or divide the table",
        TableStop::RaggedRow => {
            "the row doesn't have one field for each column: add or remove fields; for a blank line write `skipBlankRows`"
        }
    }
}

/// A stop, with the table whose file was read.
#[derive(Clone, Copy)]
pub struct Stopped<'a> {
    /// The stop.
    pub stop: &'a Stop,
    /// The number of the table whose file was read, from 1. It is 0 if it isn't known.
    pub table: u32,
}

/// Returns the number of the first table, from 1, whose file can't be opened. It is 0 if each can.
fn unopened<O: Opener>(paths: &[String], opener: &mut O) -> u32 {
    let mut number = 0u32;
    for path in paths {
        number = number.saturating_add(1);
        match opener.open(path.as_str()) {
            Some(reader) => opener.close(Counted::new(reader)),
            None => return number,
        }
    }
    0
}

/// Adds that a file can't be read: that of the table that was read, else the first that can't be opened.
fn tell_read_stop<O: Opener>(
    page: &mut Page,
    tables: &Tables<'_>,
    table: u32,
    opener: &mut O,
) -> Result<(), AllocError> {
    let table = match table {
        0 => unopened(tables.paths, opener),
        table => table,
    };
    match tables.path_at(table) {
        Some(path) => tell_unread(
            page,
            &UnreadFile {
                path,
                table,
                error: opener.io_error(path),
            },
        ),
        None => tell_plain(
            page,
            "Read",
            "a file could not be read: look at the files, and try again",
            "",
            0,
        ),
    }
}

/// Adds that memory ran out.
pub fn tell_memory(page: &mut Page) -> Result<(), AllocError> {
    tell_plain(
        page,
        "Memory",
        "there is no memory: free some, and try again",
        "",
        0,
    )
}

/// Adds why the tables weren't read to their ends.
pub fn tell_stop<O: Opener>(
    page: &mut Page,
    tables: &Tables<'_>,
    stopped: &Stopped<'_>,
    opener: &mut O,
) -> Result<(), AllocError> {
    match stopped.stop {
        Stop::Read => tell_read_stop(page, tables, stopped.table, opener),
        Stop::Rows { table, row, stop } => {
            let stop = RecordStop {
                table: *table,
                row: *row,
                name: stop.name(),
                sentence: row_sentence(*stop),
            };
            tell_record_stop(page, tables, &stop, opener)
        }
        Stop::Table { table, row, stop } => {
            let stop = RecordStop {
                table: *table,
                row: *row,
                name: stop.name(),
                sentence: table_sentence(*stop),
            };
            tell_record_stop(page, tables, &stop, opener)
        }
        Stop::Meta(fault) => tell_refused(page, &tables.group, tables.document, fault),
        Stop::TableCount => tell_table_count(page, &tables.group, tables.plan),
        Stop::Write => tell_plain(
            page,
            "Write",
            "the graph or the report could not be written: make room where it goes, and begin anew",
            "",
            0,
        ),
        _ => tell_memory(page),
    }
}
