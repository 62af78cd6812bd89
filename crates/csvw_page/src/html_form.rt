//! A page of HTML: one file, without scripts and links to other files.

use crate::counts::{Counts, Spot};
use crate::escape::push_escaped;
use crate::html_style::STYLE;
use crate::line::{RowShown, push_column, push_location, push_text};
use crate::shown::{
    FaultShown, Meant, MoreShown, RowPlace, SpotShown, StopPlace, StopShown, Summary, UnknownShown,
    kind_name,
};
use crate::status::{REFUSED, verdict};
use csvw_text::Code;
use std::alloc::AllocError;

/// Adds the first characters of a text, as text in HTML.
fn push_clipped(page: &mut String, text: &str) -> Result<(), AllocError> {
    let mut shown = String::new(*page.allocator());
    push_text(&mut shown, text)?;
    push_escaped(page, shown.as_str())
}

/// Adds a path or a JSON Pointer, as text in HTML.
fn push_at(page: &mut String, location: &str) -> Result<(), AllocError> {
    let mut shown = String::new(*page.allocator());
    push_location(&mut shown, location)?;
    push_escaped(page, shown.as_str())
}

/// What is before the title.
const HEAD: &str = "<!DOCTYPE html>\n<html lang=\"en\">\n<head>\n<meta charset=\"utf-8\">
<meta name=\"viewport\" content=\"width=device-width, initial-scale=1\">\n<title>";

/// Begins the page, with its title and its summary. There is no summary if the document wasn't read.
pub(crate) fn push_begin(
    page: &mut String,
    meta: &str,
    summary: Option<&Summary<'_>>,
) -> Result<(), AllocError> {
    let verdict = verdict(match summary {
        Some(summary) => summary.status,
        None => REFUSED,
    });
    page.push_str(HEAD)?;
    push_at(page, meta)?;
    write!(page, ": {verdict}</title>\n")?;
    page.push_str(STYLE)?;
    page.push_str("</head>\n<body>\n<main>\n<h1>")?;
    push_at(page, meta)?;
    write!(page, ": {verdict}</h1>\n")?;
    match summary {
        Some(summary) => push_summary(page, summary),
        None => Ok(()),
    }
}

/// Adds the tables with their rows and faults, and the faults by column and code.
fn push_summary(page: &mut String, summary: &Summary<'_>) -> Result<(), AllocError> {
    push_tables(page, summary)?;
    if summary.totals.spots.is_empty() {
        return page.push_str("<p>No faults.</p>\n");
    }
    push_spots(page, summary.totals)
}

/// Adds a table of the tables.
fn push_tables(page: &mut String, summary: &Summary<'_>) -> Result<(), AllocError> {
    page.push_str(
        "<div class=\"wide\"><table>\n<caption>Tables</caption>\n<tr><th scope=\"col\">Table</th><th scope=\"col\">File</th><th scope=\"col\" class=\"number\">Rows</th><th scope=\"col\" class=\"number\">Faults</th></tr>\n",
    )?;
    let mut number = 0u32;
    for (i, path) in summary.paths.iter().enumerate() {
        number = number.saturating_add(1);
        let faults = summary.totals.of_table(number);
        write!(page, "<tr><td>{number}</td><td>")?;
        push_table(page, path.as_str(), summary.rows.get(i).copied(), faults)?;
    }
    page.push_str("</table></div>\n")
}

/// Adds what follows the number of a table: its file, the rows that were read of it, and its faults.
fn push_table(
    page: &mut String,
    path: &str,
    rows: Option<u64>,
    faults: u64,
) -> Result<(), AllocError> {
    push_at(page, path)?;
    page.push_str("</td><td class=\"number\">")?;
    push_rows(page, rows)?;
    write!(page, "</td><td class=\"number\">{faults}</td></tr>\n")
}

/// Adds the number of rows that were read of a table, if it is known.
fn push_rows(page: &mut String, rows: Option<u64>) -> Result<(), AllocError> {
    match rows {
        Some(rows) => write!(page, "{rows}"),
        None => page.push_str("not known"),
    }
}

/// Adds a table of the faults by column and code.
fn push_spots(page: &mut String, totals: &Counts) -> Result<(), AllocError> {
    page.push_str(
        "<div class=\"wide\"><table>\n<caption>Faults by column and code</caption>\n<tr><th scope=\"col\">Table</th><th scope=\"col\">Column</th><th scope=\"col\">Code</th><th scope=\"col\" class=\"number\">Faults</th></tr>\n",
    )?;
    for (spot, times) in totals.spots.iter() {
        push_spot(page, spot, *times)?;
    }
    page.push_str("</table></div>\n")
}

/// Adds how many faults of one code there are in a column.
fn push_spot(page: &mut String, spot: &Spot, times: u64) -> Result<(), AllocError> {
    page.push_str("<tr><td>")?;
    push_number(page, spot.table)?;
    page.push_str("</td><td>")?;
    push_number(page, spot.column)?;
    page.push_str("</td><td><a href=\"#")?;
    push_anchor(page, spot)?;
    let name = spot.code.name();
    write!(
        page,
        "\">{name}</a></td><td class=\"number\">{times}</td></tr>\n"
    )
}

/// Adds a number, or a dash if it is 0.
fn push_number(page: &mut String, number: u32) -> Result<(), AllocError> {
    match number {
        0 => page.push('–'),
        _ => write!(page, "{number}"),
    }
}

/// Adds the name of the place at which the faults of one code in one column begin. All warnings are at one place.
fn push_anchor(page: &mut String, spot: &Spot) -> Result<(), AllocError> {
    let Spot {
        table,
        column,
        code,
    } = *spot;
    if code == Code::UnknownProperty {
        return page.push_str("warnings");
    }
    let name = code.name();
    write!(page, "t{table}c{column}{name}")
}

/// Begins the warnings on the document.
pub(crate) fn push_warnings(page: &mut String) -> Result<(), AllocError> {
    page.push_str("<h2 id=\"warnings\">Properties that are ignored</h2>\n")
}

/// Adds how many properties are ignored whose places aren't known.
pub(crate) fn push_unplaced(page: &mut String, meta: &str, times: u64) -> Result<(), AllocError> {
    page.push_str("<article class=\"warning\">\n<p class=\"at\">")?;
    push_at(page, meta)?;
    page.push_str("</p>\n")?;
    push_name(page, "warning", "UnknownProperty")?;
    write!(
        page,
        "{times} more, in a resource or with escapes in their names</p>\n</article>\n"
    )
}

/// Begins the faults of one code in one column.
pub(crate) fn push_heading(page: &mut String, shown: &SpotShown<'_>) -> Result<(), AllocError> {
    let Spot { column, code, .. } = shown.spot;
    page.push_str("<h2 id=\"")?;
    push_anchor(page, &shown.spot)?;
    page.push_str("\">")?;
    push_at(page, shown.path)?;
    push_column(page, column)?;
    let name = code.name();
    let times = shown.times;
    write!(page, ": {name}: {times}</h2>\n")
}

/// Adds a sentence, and on a line of its own what to do.
fn push_sentence(page: &mut String, sentence: &str) -> Result<(), AllocError> {
    match sentence.split_once(": ") {
        Some((wrong, hint)) => {
            push_escaped(page, wrong)?;
            page.push_str("</p>\n<p class=\"hint\">Instead: ")?;
            push_escaped(page, hint)?;
        }
        None => push_escaped(page, sentence)?,
    }
    page.push_str("</p>\n")
}

/// Adds the name and the severity of a fault or a stop.
fn push_name(page: &mut String, severity: &str, name: &str) -> Result<(), AllocError> {
    write!(page, "<p class=\"{severity}\"><b>{severity}: ")?;
    push_escaped(page, name)?;
    page.push_str("</b>: ")
}

/// Adds the place of a fault in its file.
fn push_place(page: &mut String, shown: &FaultShown<'_>) -> Result<(), AllocError> {
    page.push_str("<p class=\"at\">")?;
    push_at(page, shown.path)?;
    push_row_place(page, shown)?;
    push_column(page, shown.fault.place.column)?;
    push_column_name(page, shown.name)?;
    page.push_str("</p>\n")
}

/// Adds where the row of a fault is.
fn push_row_place(page: &mut String, shown: &FaultShown<'_>) -> Result<(), AllocError> {
    match shown.row_place() {
        RowPlace::Nowhere => Ok(()),
        RowPlace::Record(row) => write!(page, ", record {row}"),
        RowPlace::Header(line) => write!(page, ", line {line}, header"),
        RowPlace::Data(line, number) => write!(page, ", line {line}, row {number}"),
    }
}

/// Adds the name of a column in quotes, if it has one.
fn push_column_name(page: &mut String, name: &str) -> Result<(), AllocError> {
    if name.is_empty() {
        return Ok(());
    }
    page.push_str(" “")?;
    push_clipped(page, name)?;
    page.push('”')
}

/// Adds a fault, with its row and the rule that it breaks. The room of a row is used for its row.
pub(crate) fn push_fault(
    page: &mut String,
    room: &mut RowShown,
    shown: &FaultShown<'_>,
) -> Result<(), AllocError> {
    let severity = kind_name(shown.fault.kind);
    write!(page, "<article class=\"{severity}\">\n")?;
    push_place(page, shown)?;
    push_name(page, severity, shown.fault.code.name())?;
    push_code(page, shown.fault.code)?;
    if let Some(cell) = &shown.cell {
        room.refill(cell)?;
        push_row(page, room)?;
    }
    push_lines(page, shown.rule, "rule")?;
    page.push_str("</article>\n")
}

/// Adds what a code says.
fn push_code(page: &mut String, code: Code) -> Result<(), AllocError> {
    let sentence = code.to_string(*page.allocator())?;
    push_sentence(page, sentence.as_str())
}

/// Adds the fields around a cell, with the cell marked.
fn push_row(page: &mut String, row: &RowShown) -> Result<(), AllocError> {
    page.push_str("<pre>")?;
    push_escaped(page, row.before.as_str())?;
    page.push_str("<mark>")?;
    push_escaped(page, row.cell.as_str())?;
    page.push_str("</mark>")?;
    push_escaped(page, row.after.as_str())?;
    page.push_str("</pre>\n")
}

/// Adds lines of text, each in a paragraph of this class.
fn push_lines(page: &mut String, lines: &str, class: &str) -> Result<(), AllocError> {
    for line in lines.lines() {
        push_line(page, line.trim(), class)?;
    }
    Ok(())
}

/// Adds a line of text, in a paragraph of this class.
fn push_line(page: &mut String, line: &str, class: &str) -> Result<(), AllocError> {
    write!(page, "<p class=\"{class}\">")?;
    push_escaped(page, line)?;
    page.push_str("</p>\n")
}

/// Adds how many faults of one code in one column are not shown.
pub(crate) fn push_rest(page: &mut String, times: u64) -> Result<(), AllocError> {
    write!(page, "<p>and {times} more</p>\n")
}

/// Adds a property of the document that is ignored.
pub(crate) fn push_unknown(page: &mut String, shown: &UnknownShown<'_>) -> Result<(), AllocError> {
    page.push_str("<article class=\"warning\">\n<p class=\"at\">")?;
    push_at(page, shown.path)?;
    push_character(page, shown)?;
    push_pointer(page, shown.pointer)?;
    page.push_str("</p>\n")?;
    push_name(page, "warning", "UnknownProperty")?;
    push_reason(page, shown)?;
    push_meant(page, shown.meant)?;
    page.push_str("</article>\n")
}

/// Adds why a property is ignored.
fn push_reason(page: &mut String, shown: &UnknownShown<'_>) -> Result<(), AllocError> {
    if let Meant::Value = shown.meant {
        return page.push_str("The value isn’t permitted, so it is ignored</p>\n");
    }
    page.push_str("“")?;
    push_clipped(page, shown.name)?;
    let object = shown.object;
    write!(page, "” isn’t a property of {object}</p>\n")
}

/// Adds where the name of a property is in its document, if it is known.
fn push_character(page: &mut String, shown: &UnknownShown<'_>) -> Result<(), AllocError> {
    let UnknownShown { line, column, .. } = *shown;
    match line {
        0 => Ok(()),
        _ => write!(page, ", line {line}, character {column}"),
    }
}

/// Adds what is meant by the name of a property, if it is known.
fn push_meant(page: &mut String, meant: Meant) -> Result<(), AllocError> {
    match meant {
        Meant::Nothing | Meant::Value => Ok(()),
        Meant::Name(name) => write!(page, "<p class=\"hint\">Did you mean “{name}”?</p>\n"),
        Meant::Object(object) => {
            write!(page, "<p class=\"hint\">It is a property of {object}</p>\n")
        }
    }
}

/// Begins the reasons why the document or a table wasn't read.
pub(crate) fn push_stops(page: &mut String) -> Result<(), AllocError> {
    page.push_str("<h2 id=\"stop\">Why it was not read to its end</h2>\n")
}

/// Adds how many faults of one code in the document are not shown.
pub(crate) fn push_more(page: &mut String, shown: &MoreShown<'_>) -> Result<(), AllocError> {
    let MoreShown { name, times, .. } = *shown;
    write!(page, "<p>{name}: {times} more</p>\n")
}

/// Adds why the document or a table wasn't read.
pub(crate) fn push_stop(page: &mut String, shown: &StopShown<'_>) -> Result<(), AllocError> {
    page.push_str("<article class=\"error\">\n")?;
    push_stop_file(page, shown)?;
    push_name(page, "error", shown.name)?;
    push_sentence(page, shown.sentence)?;
    push_lines(page, shown.hints, "hint")?;
    page.push_str("</article>\n")
}

/// Adds the file of a stop and the place in it, if the stop is of a file.
fn push_stop_file(page: &mut String, shown: &StopShown<'_>) -> Result<(), AllocError> {
    if shown.path.is_empty() {
        return Ok(());
    }
    page.push_str("<p class=\"at\">")?;
    push_at(page, shown.path)?;
    push_stop_place(page, shown)?;
    push_pointer(page, shown.pointer)?;
    page.push_str("</p>\n")
}

/// Adds where a stop is in its file.
fn push_stop_place(page: &mut String, shown: &StopShown<'_>) -> Result<(), AllocError> {
    match shown.place() {
        StopPlace::Nowhere => Ok(()),
        StopPlace::Record(row) => write!(page, ", record {row}"),
        StopPlace::Line(line) => write!(page, ", line {line}"),
        StopPlace::Character(line, column) => write!(page, ", line {line}, character {column}"),
    }
}

/// Adds the JSON Pointer of a value of the document, if there is one.
fn push_pointer(page: &mut String, pointer: &str) -> Result<(), AllocError> {
    if pointer.is_empty() {
        return Ok(());
    }
    page.push_str(", at ")?;
    push_at(page, pointer)
}
