//! Helpers that run over tables with keys in the profile w3c, and compare the report.
//!
//! A table of keys has lines `TEXT => REPORT`, or `TEXT | TEXT => REPORT` if the document has two tables. The report is without
//! its heading. All have the escapes of tables of cells, and there are comments too:
//!
//! ```text
//! # two texts of one moment are one key
//! k\n2019-12-31T23:00:00Z\n2020-01-01T01:00:00+02:00\n => error,DuplicateKey,1,3,1\n
//! f\n2019-12-31T23:00:00Z\n | k\n2020-01-01T01:00:00+02:00\n => \e
//! ```
use crate::cells::{decoded, is_comment, is_text};
use csvw_meta_core::Profile;
use csvw_triples_core::Mode;
use std::alloc::{AllocError, Global};
use std::process::Abort;
use test_runs::{Ran, run_tables_in_profile};

/// Returns what a run over a document and the texts of its tables leaves.
fn ran_over(alloc: Global, document: &str, texts: &[&str]) -> Result<Ran, AllocError> {
    run_tables_in_profile(alloc, Profile::W3c, Mode::Minimal, document, texts)
}

/// Returns what a run over a document and the text of its table leaves.
fn ran_over_one(alloc: Global, document: &str, text: &str) -> Result<Ran, AllocError> {
    let text = decoded(alloc, text)?;
    ran_over(alloc, document, &[text.as_str()])
}

/// Returns what a run over a document and the texts of its two tables leaves.
fn ran_over_two(alloc: Global, document: &str, texts: (&str, &str)) -> Result<Ran, AllocError> {
    let first = decoded(alloc, texts.0)?;
    let second = decoded(alloc, texts.1)?;
    ran_over(alloc, document, &[first.as_str(), second.as_str()])
}

/// Whether a run reached its end, and its report has these lines alone after its heading.
fn has_lines(alloc: Global, ran: &Ran, lines: &str) -> Result<bool, AllocError> {
    let lines = decoded(alloc, lines)?;
    let found = ran.report.strip_prefix(b"kind,code,table,row,column\n");
    Ok(ran.stop.is_none() && found == Some(lines.as_bytes()))
}

/// Whether a run over a document and the texts of a line leaves the report of the line.
fn reports(alloc: Global, document: &str, line: &str) -> Result<bool, AllocError> {
    let Some((texts, lines)) = line.split_once(" => ") else {
        return Ok(false);
    };
    if !is_text(texts) || !is_text(lines) {
        return Ok(false);
    }
    let ran = match texts.split_once(" | ") {
        Some(texts) => ran_over_two(alloc, document, texts)?,
        None => ran_over_one(alloc, document, texts)?,
    };
    has_lines(alloc, &ran, lines)
}

/// Checks each line of a table of keys with a document. The table has one line at least.
pub(crate) fn each_report(
    rt: &impl Abort,
    alloc: Global,
    document: &str,
    table: &str,
) -> Result<(), AllocError> {
    let mut is_empty = true;
    for line in table.lines() {
        if !is_comment(line) {
            is_empty = false;
            assert!(rt; reports(alloc, document, line)?, "{document} {line}");
        }
    }
    assert!(rt; !is_empty, "a table without cases");
    Ok(())
}
