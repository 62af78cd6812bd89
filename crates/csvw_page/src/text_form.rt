//! A page of text: lines for a terminal.

use crate::counts::Spot;
use crate::form::Color;
use crate::line::{Mark, RowShown, push_column, push_location, push_quoted};
use crate::shown::{
    FaultShown, Meant, MoreShown, RowPlace, StopPlace, StopShown, Summary, UnknownShown,
};
use crate::status::verdict;
use csvw_text::Kind;
use std::alloc::AllocError;

/// What a part of a line says, by which it has its colour.
#[derive(Clone, Copy)]
enum Ink {
    /// An error, or a stop.
    Error,
    /// A warning.
    Warning,
}

/// Returns the ink of a fault.
fn ink_of(kind: Kind) -> Ink {
    match kind {
        Kind::Error => Ink::Error,
        Kind::Warning => Ink::Warning,
    }
}

/// Adds the code that begins a colour.
fn begin(line: &mut String, ink: Ink, color: Color) -> Result<(), AllocError> {
    match (color, ink) {
        (Color::Never, _) => Ok(()),
        (Color::Always, Ink::Error) => line.push_str("\u{1B}[1;31m"),
        (Color::Always, Ink::Warning) => line.push_str("\u{1B}[1;33m"),
    }
}

/// Adds the code that ends a colour.
fn end(line: &mut String, color: Color) -> Result<(), AllocError> {
    match color {
        Color::Never => Ok(()),
        Color::Always => line.push_str("\u{1B}[0m"),
    }
}

/// Adds a text of the program in a colour.
fn push_inked(line: &mut String, text: &str, ink: Ink, color: Color) -> Result<(), AllocError> {
    begin(line, ink, color)?;
    line.push_str(text)?;
    end(line, color)
}

/// Adds the place of a fault in its file.
fn push_place(line: &mut String, shown: &FaultShown<'_>) -> Result<(), AllocError> {
    push_location(line, shown.path)?;
    push_row_place(line, shown)?;
    push_column(line, shown.fault.place.column)?;
    push_column_name(line, shown.name)
}

/// Adds where the row of a fault is.
fn push_row_place(line: &mut String, shown: &FaultShown<'_>) -> Result<(), AllocError> {
    match shown.row_place() {
        RowPlace::Nowhere => Ok(()),
        RowPlace::Record(row) => write!(line, ": record {row}"),
        RowPlace::Header(begins) => write!(line, ":{begins} (header)"),
        RowPlace::Data(begins, number) => write!(line, ":{begins} (row {number})"),
    }
}

/// Adds the name of a column in quotes, if it has one.
fn push_column_name(line: &mut String, name: &str) -> Result<(), AllocError> {
    if name.is_empty() {
        return Ok(());
    }
    line.push(' ')?;
    push_quoted(line, name)
}

/// Adds a fault: where it is, its code, the text of the cell, what to do, and the row with a mark and the rule. The room of
/// a row is used for its row.
pub(crate) fn push_fault(
    lines: &mut String,
    room: &mut RowShown,
    shown: &FaultShown<'_>,
    color: Color,
) -> Result<(), AllocError> {
    push_place(lines, shown)?;
    push_severity(lines, shown.fault.kind, color)?;
    push_inked(
        lines,
        shown.fault.code.name(),
        ink_of(shown.fault.kind),
        color,
    )?;
    push_cell_text(lines, shown)?;
    let code = shown.fault.code;
    write!(lines, ": {code}\n")?;
    if let Some(cell) = &shown.cell {
        room.refill(cell)?;
        push_cell(lines, room, color)?;
    }
    lines.push_str(shown.rule)
}

/// Adds a colon, and that a fault is a warning, if it is one.
fn push_severity(line: &mut String, kind: Kind, color: Color) -> Result<(), AllocError> {
    line.push_str(": ")?;
    match kind {
        Kind::Error => Ok(()),
        Kind::Warning => {
            push_inked(line, "warning", Ink::Warning, color)?;
            line.push_str(": ")
        }
    }
}

/// Adds the text of the cell that a fault is in, if it is known.
fn push_cell_text(line: &mut String, shown: &FaultShown<'_>) -> Result<(), AllocError> {
    match &shown.cell {
        Some(cell) => {
            line.push_str(": ")?;
            push_quoted(line, cell.text)
        }
        None => Ok(()),
    }
}

/// How many spaces begin a row.
const INDENT: usize = 4;

/// Adds a row with a mark under a cell, each on a line of its own.
fn push_cell(lines: &mut String, row: &RowShown, color: Color) -> Result<(), AllocError> {
    push_row(lines, row)?;
    push_mark(lines, row.mark(INDENT), color)?;
    lines.push('\n')
}

/// Adds the fields of a row, on a line of their own.
fn push_row(lines: &mut String, row: &RowShown) -> Result<(), AllocError> {
    lines.push_str("    ")?;
    lines.push_str(row.before.as_str())?;
    lines.push_str(row.cell.as_str())?;
    lines.push_str(row.after.as_str())?;
    lines.push('\n')
}

/// Adds a mark under a field: so many spaces, and then at least one caret.
fn push_mark(lines: &mut String, mark: Mark, color: Color) -> Result<(), AllocError> {
    for _ in 0..mark.begin {
        lines.push(' ')?;
    }
    begin(lines, Ink::Error, color)?;
    for _ in 0..mark.wide.max(1) {
        lines.push('^')?;
    }
    end(lines, color)
}

/// Adds the severity and the code of a property of the document that is ignored.
fn push_ignored(line: &mut String, color: Color) -> Result<(), AllocError> {
    push_severity(line, Kind::Warning, color)?;
    push_inked(line, "UnknownProperty", Ink::Warning, color)
}

/// Adds a property of the document that is ignored: its place, its name, its object, and what is meant.
pub(crate) fn push_unknown(
    lines: &mut String,
    shown: &UnknownShown<'_>,
    color: Color,
) -> Result<(), AllocError> {
    push_location(lines, shown.path)?;
    push_character(lines, shown)?;
    push_property(lines, shown.pointer)?;
    push_ignored(lines, color)?;
    lines.push_str(": ")?;
    push_reason(lines, shown)?;
    lines.push('\n')
}

/// Adds why a property is ignored, and what is meant.
fn push_reason(line: &mut String, shown: &UnknownShown<'_>) -> Result<(), AllocError> {
    if let Meant::Value = shown.meant {
        return line.push_str("the value isn't permitted, so it is ignored");
    }
    push_quoted(line, shown.name)?;
    let object = shown.object;
    write!(line, " isn't a property of {object}")?;
    push_meant(line, shown.meant)
}

/// Adds the JSON Pointer of a property behind a colon, if it is known.
fn push_property(line: &mut String, pointer: &str) -> Result<(), AllocError> {
    if pointer.is_empty() {
        return Ok(());
    }
    line.push_str(": ")?;
    push_location(line, pointer)
}

/// Adds where the name of a property is in its document, if it is known.
fn push_character(line: &mut String, shown: &UnknownShown<'_>) -> Result<(), AllocError> {
    let begins = shown.line;
    let column = shown.column;
    match begins {
        0 => Ok(()),
        _ => write!(line, ":{begins}:{column}"),
    }
}

/// Adds what is meant by the name of a property, if it is known.
fn push_meant(line: &mut String, meant: Meant) -> Result<(), AllocError> {
    match meant {
        Meant::Nothing | Meant::Value => Ok(()),
        Meant::Name(name) => write!(line, ": did you mean \"{name}\"?"),
        Meant::Object(object) => write!(line, ", but of {object}"),
    }
}

/// Adds how many properties are ignored whose places aren't known.
pub(crate) fn push_unplaced(
    lines: &mut String,
    meta: &str,
    times: u64,
    color: Color,
) -> Result<(), AllocError> {
    push_location(lines, meta)?;
    push_ignored(lines, color)?;
    write!(
        lines,
        ": {times} more, in a resource or with escapes in their names\n"
    )
}

/// Adds why the document or a table wasn't read: the place, the name of the stop, what to do, and what else helps.
pub(crate) fn push_stop(
    lines: &mut String,
    shown: &StopShown<'_>,
    color: Color,
) -> Result<(), AllocError> {
    push_stop_file(lines, shown)?;
    push_pointer(lines, shown.pointer)?;
    push_inked(lines, shown.name, Ink::Error, color)?;
    lines.push_str(": ")?;
    lines.push_str(shown.sentence)?;
    lines.push('\n')?;
    lines.push_str(shown.hints)
}

/// Adds how many faults of one code in the document are not shown.
pub(crate) fn push_more(
    lines: &mut String,
    shown: &MoreShown<'_>,
    color: Color,
) -> Result<(), AllocError> {
    push_location(lines, shown.path)?;
    lines.push_str(": ")?;
    push_inked(lines, shown.name, Ink::Error, color)?;
    let times = shown.times;
    write!(lines, ": {times} more\n")
}

/// Adds the file of a stop and the place in it, with a colon if the stop is of a file.
fn push_stop_file(line: &mut String, shown: &StopShown<'_>) -> Result<(), AllocError> {
    push_location(line, shown.path)?;
    push_stop_place(line, shown)?;
    if shown.path.is_empty() {
        return Ok(());
    }
    line.push_str(": ")
}

/// Adds where a stop is in its file.
fn push_stop_place(line: &mut String, shown: &StopShown<'_>) -> Result<(), AllocError> {
    match shown.place() {
        StopPlace::Nowhere => Ok(()),
        StopPlace::Record(row) => write!(line, ": record {row}"),
        StopPlace::Line(begins) => write!(line, ":{begins}"),
        StopPlace::Character(begins, column) => write!(line, ":{begins}:{column}"),
    }
}

/// Adds the JSON Pointer of a value of the document with a colon, if there is one.
fn push_pointer(line: &mut String, pointer: &str) -> Result<(), AllocError> {
    if pointer.is_empty() {
        return Ok(());
    }
    push_location(line, pointer)?;
    line.push_str(": ")
}

/// Adds the rows that were read, the faults by code and column, and what the group is.
pub(crate) fn push_summary(lines: &mut String, summary: &Summary<'_>) -> Result<(), AllocError> {
    for (i, path) in summary.paths.iter().enumerate() {
        push_table(
            lines,
            i.saturating_add(1),
            path.as_str(),
            summary.rows.get(i).copied(),
        )?;
    }
    for (spot, times) in summary.totals.spots.iter() {
        push_spot(lines, spot, *times)?;
    }
    lines.push_str(verdict(summary.status))?;
    lines.push('\n')
}

/// Adds a line for a table: its number, its file and the rows that were read of it, if they are known.
fn push_table(
    lines: &mut String,
    number: usize,
    path: &str,
    rows: Option<u64>,
) -> Result<(), AllocError> {
    write!(lines, "table {number}: ")?;
    push_location(lines, path)?;
    match rows {
        Some(1) => lines.push_str(": 1 record\n"),
        Some(rows) => write!(lines, ": {rows} records\n"),
        None => lines.push('\n'),
    }
}

/// Adds a line for a code in a column.
fn push_spot(lines: &mut String, spot: &Spot, times: u64) -> Result<(), AllocError> {
    let name = spot.code.name();
    let Spot { table, column, .. } = *spot;
    write!(lines, "  {name}: {times}")?;
    push_table_number(lines, table)?;
    push_column(lines, column)?;
    lines.push('\n')
}

/// Adds the number of a table. It adds nothing for 0.
fn push_table_number(line: &mut String, number: u32) -> Result<(), AllocError> {
    match number {
        0 => Ok(()),
        _ => write!(line, " in table {number}"),
    }
}
