//! Helpers that run over the cells of a column with a datatype, and the graph and the report of the run.
//!
//! The tables of this crate are texts, with a line for each case. A blank line, or a line that begins with `#`, is a comment. A
//! line of another form than these fails the test, and so does a table without cases.
//!
//! A table of cells has columns, and below each its cells, which are indented by four spaces:
//!
//! - `DATATYPE : KIND` is a column. `DATATYPE` is what follows `"datatype":` in the document, with the properties after it.
//!   `KIND` is what follows the text of a value in the graph: a datatype of XML Schema, another one as `<IRI>`, a language as
//!   `@de`, or `string` if nothing follows.
//! - `TEXT => VALUE` is a cell that has a value. `VALUE` is its text in the graph.
//! - `TEXT => VALUE !CODE` is a cell whose value breaks a facet. There may be several codes.
//! - `TEXT => !CODE` is a cell that has no value. Its text in the graph is `TEXT`.
//! - `TEXT => !CODE LITERAL` is a cell that has no value. Its text in the graph is `LITERAL`.
//!
//! ```text
//! # years have a sign
//! {"base":"gYear","minimum":"-0044"} : gYear
//!     -0044 => -0044
//!     -0045 => -0045 !BelowMinimum
//!     15 => !BadDate
//!     \s2015\s => 2015
//! ```
//!
//! A table of refusals has lines `DATATYPE => CODE POINTER`. The pointer is below the datatype, and is missing if it is empty:
//!
//! ```text
//! {"base":"gYear","length":4} => BadDatatype /length
//! {"base":"gYear","minimum":"2016","maximum":"2015"} => BadDatatype
//! ```
//!
//! Tables of keys (keys.rt) and of documents (documents.rt) have the texts of tables and reports, as `TEXT => REPORT`.
//!
//! Each of these texts is a part of a line, without spaces at its ends and without ` => `. It has escapes:
//!
//! - `\s` is a space, `\t` a tab, `\n` and `\r` are line breaks, and `\\` is a backslash.
//! - `\e` is nothing. So `\e` alone is the empty text.
//! - A value that begins with `!` is written as `\e!`, one with ` !` in it as `\s!`, and one that ends with `!` as `!\e`.
//!
//! Datatypes and pointers have no escapes but those of JSON.
use crate::facets::FACETS;
use crate::ranges::{DATES, RANGES};
use csvw_meta_core::Profile;
use csvw_session::Stop;
use std::alloc::{AllocError, Global};
use std::process::Abort;
use std::test::Fail;
use test_runs::{Ran, run_in_profile};

/// Datatypes of the profile core, and cells of columns that have them.
const CASES: &str = r#"
"integer" : integer
    +007 => 7
    99999999999999999999 => 99999999999999999999
    100000000000000000000 => !NumberTooLong
    -0 => 0
    1. => !BadInteger
{"base":"integer","format":{"groupChar":","}} : integer
    "1,234" => 1234
{"base":"integer","format":{"groupChar":"'"}} : integer
    1'234 => 1234
    1''2 => !BadInteger
{"base":"decimal","format":{"decimalChar":"."}} : decimal
    -25% => -0.25
    1.500 => 1.5
    2.0 => 2
    5‰ => 0.005
    100000000000000000000% => 1000000000000000000
    0.000000000000000001 => 0.000000000000000001
    0.000000000000000001% => !NumberTooLong
"decimal" : decimal
    .5 => 0.5
    5. => 5
    . => !BadDecimal
    1e3 => !BadDecimal
    5% => !BadDecimal
    1.0000000000000000000 => 1
{"base":"decimal","format":{"decimalChar":";","groupChar":"."}} : decimal
    1.234;50 => 1234.5
    1.234.;5 => !BadDecimal
# marks are read in every format that is given
{"base":"decimal","format":{}} : decimal
    5% => 0.05
    5%% => !BadDecimal
{"base":"date","format":"dd/MM/yyyy"} : date
    29/02/2024 => 2024-02-29
    29/02/2023 => !BadDate
{"base":"date","format":"d.M.yyyy"} : date
    1.12.2024 => 2024-12-01
    31.4.2024 => !BadDate
"date" : date
    0001-01-01 => 0001-01-01
    0000-01-01 => !BadDate
{"base":"boolean","format":"Y|N"} : boolean
    Y => true
    N => false
    1 => !BadBoolean
"boolean" : boolean
    true => true
    1 => true
    false => false
    0 => false
    True => !BadBoolean
"anyURI" : anyURI
    \s\sa \t b\s => a b
{"@type":"Datatype","base":"dateTime","format":"yyyy-MM-ddTHH:mm"} : dateTime
    2024-02-29T23:59 => 2024-02-29T23:59:00
    2024-02-29T24:00 => !BadDateTime
    2024-02-29T23:59:00 => !BadDateTime
{"base":"dateTime","format":"yyyy-MM-ddTHH:mm:ss"} : dateTime
    9999-12-31T23:59:59 => 9999-12-31T23:59:59
    2024-02-29T23:59 => !BadDateTime
"datetime" : dateTime
    0001-01-01T00:00:00 => 0001-01-01T00:00:00
    2024-02-29T23:59:60 => !BadDateTime
    2024-02-29T23:59:00Z => !BadDateTime
    2024-02-29T23:59:00.5 => !BadDateTime
{"base":"byte","format":{"groupChar":"'"}} : byte
    1'0'0 => 100
    1'28 => !OutOfRange
# the limit on numbers is tested first
"nonNegativeInteger" : nonNegativeInteger
    -100000000000000000000 => !NumberTooLong
    x => !BadInteger
"positiveInteger" : positiveInteger
    1 => 1
    99999999999999999999 => 99999999999999999999
    0 => !OutOfRange
"nonPositiveInteger" : nonPositiveInteger
    0 => 0
    -99999999999999999999 => -99999999999999999999
    1 => !OutOfRange
"negativeInteger" : negativeInteger
    -1 => -1
    0 => !OutOfRange
{"base":"nonNegativeInteger"} : nonNegativeInteger
    0 => 0
    -1 => !OutOfRange
{"base":"anyURI"} : anyURI
    é => é
"byte" : byte
    128 => !OutOfRange
    -128 => -128
"#;

const HEADING: &str = "kind,code,table,row,column\n";

/// What a walker looks at in a table of cells.
pub(crate) enum Check {
    /// The graph and the report of a run in a profile over all cells of a column.
    Columns(Profile),
    /// The graph and the report of a run in a profile over each cell alone.
    Cells(Profile),
    /// The refusal of the column of each cell in the profile core, at this pointer below the datatype.
    RefusedByCore(&'static str),
}

/// Whether a line says nothing.
pub(crate) fn is_comment(line: &str) -> bool {
    line.trim().is_empty() || line.starts_with('#')
}

/// Whether a character follows the backslash of an escape.
fn is_escape(c: char) -> bool {
    matches!(c, 's' | 't' | 'n' | 'r' | 'e' | '\\')
}

/// Whether each backslash begins an escape.
fn has_known_escapes(text: &str) -> bool {
    let mut is_open = false;
    for c in text.chars() {
        if is_open && !is_escape(c) {
            return false;
        }
        is_open = c == '\\' && !is_open;
    }
    !is_open
}

/// Whether a part of a line is a text with its escapes.
pub(crate) fn is_text(text: &str) -> bool {
    let is_bare = !text.is_empty() && text.trim().len() == text.len();
    is_bare && !text.contains(" => ") && has_known_escapes(text)
}

/// Adds a character, or what it means after the backslash of an escape.
fn push_char(out: &mut String, is_escaped: bool, c: char) -> Result<(), AllocError> {
    match (is_escaped, c) {
        (false, '\\') | (true, 'e') => Ok(()),
        (true, 's') => out.push(' '),
        (true, 't') => out.push('\t'),
        (true, 'n') => out.push('\n'),
        (true, 'r') => out.push('\r'),
        _ => out.push(c),
    }
}

/// Adds the text that a part of a line means.
pub(crate) fn push_decoded(out: &mut String, text: &str) -> Result<(), AllocError> {
    let mut is_escaped = false;
    for c in text.chars() {
        push_char(out, is_escaped, c)?;
        is_escaped = c == '\\' && !is_escaped;
    }
    Ok(())
}

/// Returns the text that a part of a line means.
pub(crate) fn decoded(alloc: Global, text: &str) -> Result<String, AllocError> {
    let mut out = String::new(alloc);
    push_decoded(&mut out, text)?;
    Ok(out)
}

/// Returns the datatype and the kind of a line that is a column, or `None`.
pub(crate) fn column_of(line: &str) -> Option<(&str, &str)> {
    if is_comment(line) || line.starts_with(' ') || line.contains(" => ") {
        return None;
    }
    line.rsplit_once(" : ")
}

/// Returns the text and the outcome of a line that is a cell, or `None`.
pub(crate) fn cell_of(line: &str) -> Option<(&str, &str)> {
    let (text, outcome) = line.strip_prefix("    ")?.split_once(" => ")?;
    if is_text(text) && is_text(outcome) && !outcome.ends_with('!') {
        Some((text, outcome))
    } else {
        None
    }
}

/// Returns the text after its first line.
pub(crate) fn after_line(text: &str) -> &str {
    match text.split_once('\n') {
        Some((_, after)) => after,
        None => "",
    }
}

/// Whether there is a cell before the next column.
fn has_cell(lines: &str) -> bool {
    for line in lines.lines() {
        if column_of(line).is_some() {
            return false;
        }
        if cell_of(line).is_some() {
            return true;
        }
    }
    false
}

/// Returns the text in the graph of a cell with a text and an outcome.
fn literal_of<'a>(text: &'a str, outcome: &'a str) -> &'a str {
    match outcome.strip_prefix('!') {
        Some(misread) => match misread.split_once(' ') {
            Some((_, literal)) => literal,
            None => text,
        },
        None => match outcome.split_once(" !") {
            Some((value, _)) => value,
            None => outcome,
        },
    }
}

/// Returns the codes of an outcome with ` !` between them, or the empty text.
fn codes_of(outcome: &str) -> &str {
    match outcome.strip_prefix('!') {
        Some(misread) => match misread.split_once(' ') {
            Some((code, _)) => code,
            None => misread,
        },
        None => match outcome.split_once(" !") {
            Some((_, codes)) => codes,
            None => "",
        },
    }
}

/// Adds what follows the text of a value of a kind.
fn push_kind(graph: &mut String, kind: &str) -> Result<(), AllocError> {
    if kind == "string" {
        return Ok(());
    }
    if kind.starts_with('@') {
        return graph.push_str(kind);
    }
    if kind.starts_with('<') {
        return write!(graph, "^^{kind}");
    }
    write!(graph, "^^<http://www.w3.org/2001/XMLSchema#{kind}>")
}

/// Adds the literal of a cell of a column of a kind.
fn push_literal(graph: &mut String, kind: &str, cell: (&str, &str)) -> Result<(), AllocError> {
    let (text, outcome) = cell;
    graph.push('"')?;
    push_decoded(graph, literal_of(text, outcome))?;
    graph.push('"')?;
    if outcome.starts_with('!') {
        return Ok(());
    }
    push_kind(graph, kind)
}

/// Adds the triple of the cell in a row.
fn push_triple(
    graph: &mut String,
    row: u32,
    kind: &str,
    cell: (&str, &str),
) -> Result<(), AllocError> {
    write!(graph, "_:t1r{row}s <http://example.org/p.csv#id> ")?;
    push_literal(graph, kind, cell)?;
    graph.push_str(" .\n")
}

/// Returns the graph of the cells before the next column.
fn graph_of(alloc: Global, kind: &str, lines: &str) -> Result<String, AllocError> {
    let mut graph = String::new(alloc);
    let mut row = 0u32;
    for line in lines.lines() {
        if column_of(line).is_some() {
            break;
        }
        if let Some(cell) = cell_of(line) {
            row = row.saturating_add(1);
            push_triple(&mut graph, row, kind, cell)?;
        }
    }
    Ok(graph)
}

/// Adds a line of the report for each code of an outcome in a row.
fn push_faults(report: &mut String, row: u32, outcome: &str) -> Result<(), AllocError> {
    let source = row.saturating_add(1);
    for code in codes_of(outcome).split(" !") {
        if !code.is_empty() {
            write!(report, "error,{code},1,{source},1\n")?;
        }
    }
    Ok(())
}

/// Returns the report on the cells before the next column.
fn report_of(alloc: Global, lines: &str) -> Result<String, AllocError> {
    let mut report = String::from_str(alloc, HEADING)?;
    let mut row = 0u32;
    for line in lines.lines() {
        if column_of(line).is_some() {
            break;
        }
        if let Some((_, outcome)) = cell_of(line) {
            row = row.saturating_add(1);
            push_faults(&mut report, row, outcome)?;
        }
    }
    Ok(report)
}

/// Adds a row with a text. A text with a comma is quoted, if it has no quotes.
fn push_row(rows: &mut String, text: &str) -> Result<(), AllocError> {
    let is_bare = text.contains(',') && !text.starts_with('"');
    let quote = if is_bare { "\"" } else { "" };
    rows.push_str(quote)?;
    push_decoded(rows, text)?;
    rows.push_str(quote)?;
    rows.push('\n')
}

/// Returns the text of a table. Each cell before the next column is in a row of its own.
fn rows_of(alloc: Global, lines: &str) -> Result<String, AllocError> {
    let mut rows = String::from_str(alloc, "id\n")?;
    for line in lines.lines() {
        if column_of(line).is_some() {
            break;
        }
        if let Some((text, _)) = cell_of(line) {
            push_row(&mut rows, text)?;
        }
    }
    Ok(rows)
}

/// Returns the document of a table whose one column has a datatype.
fn document_of(alloc: Global, datatype: &str) -> Result<String, AllocError> {
    format!(in alloc;
        "{{\"@context\":\"http://www.w3.org/ns/csvw\",\"url\":\"p.csv\",\"tableSchema\":{{\"columns\":[{{\"name\":\"id\",\"datatype\":{datatype}}}]}}}}"
    )
}

/// Returns what a run in a profile over the cells before the next column leaves.
fn ran_over(
    alloc: Global,
    profile: Profile,
    datatype: &str,
    lines: &str,
) -> Result<Ran, AllocError> {
    let meta = document_of(alloc, datatype)?;
    let text = rows_of(alloc, lines)?;
    run_in_profile(alloc, profile, meta.as_str(), text.as_str())
}

/// Whether a run reached its end, and its graph and its report are those of the cells before the next column.
fn is_run_of(alloc: Global, ran: &Ran, kind: &str, lines: &str) -> Result<bool, AllocError> {
    let is_graph = ran.graph.as_slice() == graph_of(alloc, kind, lines)?.as_bytes();
    let is_report = ran.report.as_slice() == report_of(alloc, lines)?.as_bytes();
    Ok(ran.stop.is_none() && is_graph && is_report)
}

/// Whether a run in a profile over a column and the cells before the next one leaves their graph and their report.
fn reads(alloc: Global, profile: Profile, column: &str, lines: &str) -> Result<bool, AllocError> {
    let Some((datatype, kind)) = column_of(column) else {
        return Ok(false);
    };
    let ran = ran_over(alloc, profile, datatype, lines)?;
    is_run_of(alloc, &ran, kind, lines)
}

/// Whether a run stopped with a fault of this code at this pointer, below the column's datatype.
fn stops_at(alloc: Global, ran: &Ran, code: &str, below: &str) -> Result<bool, AllocError> {
    let pointer = format!(in alloc; "/tableSchema/columns/0/datatype{below}")?;
    Ok(match &ran.stop {
        Some(Stop::Meta(fault)) => {
            fault.code.name() == code && fault.pointer.as_str() == pointer.as_str()
        }
        _ => false,
    })
}

/// Whether the profile core refuses the document of a column at a pointer below its datatype, before its cells are read.
fn core_refuses(alloc: Global, column: &str, lines: &str, below: &str) -> Result<bool, AllocError> {
    let Some((datatype, _)) = column_of(column) else {
        return Ok(false);
    };
    let ran = ran_over(alloc, Profile::Core, datatype, lines)?;
    stops_at(alloc, &ran, "NotSupported", below)
}

/// Whether a column is as a check expects. The lines after it are given.
fn column_holds(
    alloc: Global,
    check: &Check,
    column: &str,
    after: &str,
) -> Result<bool, AllocError> {
    match check {
        Check::Columns(profile) => reads(alloc, *profile, column, after),
        Check::Cells(_) | Check::RefusedByCore(_) => Ok(has_cell(after)),
    }
}

/// Whether a cell of a column is as a check expects.
fn cell_holds(alloc: Global, check: &Check, column: &str, line: &str) -> Result<bool, AllocError> {
    match check {
        Check::Columns(_) => Ok(column_of(column).is_some()),
        Check::Cells(profile) => reads(alloc, *profile, column, line),
        Check::RefusedByCore(below) => core_refuses(alloc, column, line, below),
    }
}

/// Whether a line has a form, and is as a check expects. The lines after it are given.
fn line_holds(
    alloc: Global,
    check: &Check,
    column: &str,
    line: &str,
    after: &str,
) -> Result<bool, AllocError> {
    if column_of(line).is_some() {
        return column_holds(alloc, check, line, after);
    }
    if cell_of(line).is_some() {
        return cell_holds(alloc, check, column, line);
    }
    Ok(is_comment(line))
}

/// Checks each line of a table of cells. The table has one column at least.
pub(crate) fn each_cell(
    rt: &impl Abort,
    alloc: Global,
    check: &Check,
    table: &str,
) -> Result<(), AllocError> {
    let mut column = "";
    let mut after = table;
    for line in table.lines() {
        after = after_line(after);
        if column_of(line).is_some() {
            column = line;
        }
        assert!(rt;
            line_holds(alloc, check, column, line, after)?,
            "{line}, of {column}"
        );
    }
    assert!(rt; !column.is_empty(), "a table without cases");
    Ok(())
}

/// Whether a run in a profile refuses the document of a line of a table of refusals.
fn refuses(alloc: Global, profile: Profile, line: &str) -> Result<bool, AllocError> {
    let Some((datatype, fault)) = line.split_once(" => ") else {
        return Ok(false);
    };
    let (code, below) = fault.split_once(' ').unwrap_or((fault, ""));
    let meta = document_of(alloc, datatype)?;
    let ran = run_in_profile(alloc, profile, meta.as_str(), "")?;
    stops_at(alloc, &ran, code, below)
}

/// Checks that a profile refuses the document of each line of a table of refusals. The table has one line at least.
pub(crate) fn each_refusal(
    rt: &impl Abort,
    alloc: Global,
    profile: Profile,
    table: &str,
) -> Result<(), AllocError> {
    let mut is_empty = true;
    for line in table.lines() {
        if !is_comment(line) {
            is_empty = false;
            assert!(rt; refuses(alloc, profile, line)?, "{line}");
        }
    }
    assert!(rt; !is_empty, "a table without cases");
    Ok(())
}

#[test]
fn cells_have_their_values(rt: HostRuntime) -> Result<(), Fail> {
    each_cell(&rt, rt.alloc(), &Check::Columns(Profile::Core), CASES)?;
    Ok(())
}

#[test]
fn derived_integers_have_their_ranges(rt: HostRuntime) -> Result<(), Fail> {
    each_cell(&rt, rt.alloc(), &Check::Columns(Profile::Core), RANGES)?;
    Ok(())
}

#[test]
fn facets_are_told_of_values(rt: HostRuntime) -> Result<(), Fail> {
    each_cell(&rt, rt.alloc(), &Check::Columns(Profile::Core), FACETS)?;
    Ok(())
}

#[test]
fn dates_are_read_by_their_formats(rt: HostRuntime) -> Result<(), Fail> {
    each_cell(&rt, rt.alloc(), &Check::Columns(Profile::Core), DATES)?;
    Ok(())
}
