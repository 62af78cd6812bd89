//! Compares `plain` with a slow program that follows the definition of a table's graph.

use csvw_engine::plain;
use csvw_ntriples::{NtNode, NtTerm, NtTriple, read};
use csvw_text::Counted;
use std::alloc::{AllocError, Global};
use std::fmt::Write;

const URL: &str = "http://example.org/t.csv";

const XSD_STRING: &str = "http://www.w3.org/2001/XMLSchema#string";

/// A triple of the graph of a table: the row of its subject, from 1, its predicate, and its value.
#[derive(Drop)]
struct CellTriple {
    row: usize,
    predicate: String,
    value: String,
}

fn push_cell(text: &mut String, cell: &str) -> Result<(), AllocError> {
    text.push('"')?;
    for c in cell.chars() {
        if c == '"' {
            text.push('"')?;
        }
        text.push(c)?;
    }
    text.push('"')
}

fn push_row(text: &mut String, row: &[&str]) -> Result<(), AllocError> {
    for i in 0..row.len() {
        if i > 0 {
            text.push(',')?;
        }
        push_cell(text, row[i])?;
    }
    text.push_str("\r\n")
}

/// Returns the text of a table, with each field quoted (RFC 4180, section 2).
fn text_of(alloc: Global, table: &[&[&str]]) -> Result<String, AllocError> {
    let mut text = String::new(alloc);
    for row in table {
        push_row(&mut text, row)?;
    }
    Ok(text)
}

fn cell_triple(
    alloc: Global,
    row: usize,
    name: &str,
    value: &str,
) -> Result<CellTriple, AllocError> {
    let predicate = format!(in alloc; "{URL}#{name}")?;
    let value = String::from_str(alloc, value)?;
    Ok(CellTriple {
        row,
        predicate,
        value,
    })
}

fn push_column(
    alloc: Global,
    graph: &mut Vec<CellTriple>,
    name: &str,
    column: usize,
    rows: &[&[&str]],
) -> Result<(), AllocError> {
    for i in 0..rows.len() {
        let value = rows[i].get(column).copied().unwrap_or("");
        if !value.is_empty() {
            graph.push(cell_triple(alloc, i.saturating_add(1), name, value)?)?;
        }
    }
    Ok(())
}

/// Returns the graph of a table whose first row is its header. It has a triple for each cell that is not empty
/// (csv2rdf, section 4.2, minimal mode).
fn minimal(alloc: Global, table: &[&[&str]]) -> Result<Vec<CellTriple>, AllocError> {
    let mut graph = Vec::new(alloc);
    let Some((header, rows)) = table.split_first() else {
        return Ok(graph);
    };
    for i in 0..header.len() {
        push_column(alloc, &mut graph, header[i], i, rows)?;
    }
    Ok(graph)
}

fn label_of(triple: &NtTriple) -> &str {
    match &triple.s {
        NtNode::Blank(label) => label.as_str(),
        NtNode::Named(_) => "",
    }
}

/// Returns whether the triple that was read is the cell's, except for its subject.
fn says(read: &NtTriple, cell: &CellTriple) -> bool {
    match &read.o {
        NtTerm::Literal(lit) => {
            read.p.as_str() == cell.predicate.as_str()
                && lit.text.as_str() == cell.value.as_str()
                && lit.datatype.as_str() == XSD_STRING
                && lit.lang.is_none()
        }
        NtTerm::Named(_) | NtTerm::Blank(_) => false,
    }
}

/// Returns whether the triple of the cell was read, with this label as its subject.
fn was_read(label: &str, cell: &CellTriple, read: &[NtTriple]) -> bool {
    for triple in read {
        if label_of(triple) == label && says(triple, cell) {
            return true;
        }
    }
    false
}

/// Returns whether the triple that was read is that of a cell of the row.
fn is_in_row(row: usize, triple: &NtTriple, graph: &[CellTriple]) -> bool {
    for cell in graph {
        if cell.row == row && says(triple, cell) {
            return true;
        }
    }
    false
}

/// Returns whether all triples of the row were read, with this label as their subject.
fn has_row(label: &str, row: usize, graph: &[CellTriple], read: &[NtTriple]) -> bool {
    for cell in graph {
        if cell.row == row && !was_read(label, cell, read) {
            return false;
        }
    }
    true
}

/// Returns whether the triples with this label as their subject are all of the row.
fn is_row(label: &str, row: usize, graph: &[CellTriple], read: &[NtTriple]) -> bool {
    for triple in read {
        if label_of(triple) == label && !is_in_row(row, triple, graph) {
            return false;
        }
    }
    true
}

fn is_taken(taken: &[&str], label: &str) -> bool {
    for other in taken {
        if *other == label {
            return true;
        }
    }
    false
}

/// Returns a label that no other row has and whose triples are those of the row.
fn name_of<'a>(
    taken: &[&str],
    row: usize,
    graph: &[CellTriple],
    read: &'a [NtTriple],
) -> Option<&'a str> {
    for triple in read {
        let label = label_of(triple);
        if !is_taken(taken, label)
            && has_row(label, row, graph, read)
            && is_row(label, row, graph, read)
        {
            return Some(label);
        }
    }
    None
}

fn gives_nothing(row: usize, graph: &[CellTriple]) -> bool {
    for cell in graph {
        if cell.row == row {
            return false;
        }
    }
    true
}

/// Finds a label for each row that has triples. Returns whether there is one for each. Rows with the same cells may
/// swap their labels, so the first label that fits is good.
fn name_rows<'a>(
    taken: &mut Vec<&'a str>,
    rows: usize,
    graph: &[CellTriple],
    read: &'a [NtTriple],
) -> Result<bool, AllocError> {
    for row in 1..=rows {
        if !gives_nothing(row, graph) {
            match name_of(taken.as_slice(), row, graph, read) {
                Some(label) => taken.push(label)?,
                None => return Ok(false),
            }
        }
    }
    Ok(true)
}

/// Returns whether each triple that was read has a label that was taken as its subject.
fn are_taken(taken: &[&str], read: &[NtTriple]) -> bool {
    for triple in read {
        if !is_taken(taken, label_of(triple)) {
            return false;
        }
    }
    true
}

/// Returns whether the triples that were read are the graph, up to a one-to-one naming of its blank nodes.
fn is_same_up_to(alloc: Global, rows: usize, graph: &[CellTriple], read: &[NtTriple]) -> bool {
    let mut taken = Vec::new(alloc);
    matches!(name_rows(&mut taken, rows, graph, read), Ok(true))
        && are_taken(taken.as_slice(), read)
}

/// Returns what `plain` writes of a text, if the run ends.
fn written(alloc: Global, text: &str) -> Option<Vec<u8>> {
    let mut input = Counted::new(text.as_bytes());
    let mut out = Counted::new(Vec::new(alloc));
    let mut report = Counted::new(Vec::new(alloc));
    if plain(alloc, URL, &mut input, &mut out, &mut report).is_ok() {
        Some(out.into_inner())
    } else {
        None
    }
}

/// Returns whether the triples that were read are the graph of the table.
fn are_of(alloc: Global, table: &[&[&str]], triples: &[NtTriple]) -> bool {
    match minimal(alloc, table) {
        Ok(graph) => is_same_up_to(alloc, table.len(), graph.as_slice(), triples),
        Err(_) => false,
    }
}

/// Returns whether what was written is a document with the graph of the table.
fn is_of(alloc: Global, table: &[&[&str]], document: &[u8]) -> bool {
    match read(alloc, document) {
        Ok(triples) => are_of(alloc, table, triples.as_slice()),
        Err(_) => false,
    }
}

/// Returns whether `plain` writes the graph of the table whose text this is.
fn agrees_on(alloc: Global, table: &[&[&str]], text: &str) -> bool {
    match written(alloc, text) {
        Some(document) => is_of(alloc, table, document.as_slice()),
        None => false,
    }
}

/// Returns whether `plain` writes the graph of the table.
fn agrees(alloc: Global, table: &[&[&str]]) -> bool {
    match text_of(alloc, table) {
        Ok(text) => agrees_on(alloc, table, text.as_str()),
        Err(_) => false,
    }
}

static TABLES: [&[&[&str]]; 6] = [
    &[&["id", "name"], &["1", "Ann"]],
    &[&["id", "name"], &["1", "Ann"], &["1", "Ann"], &["2", ""]],
    &[
        &["a", "b", "c"],
        &["", "", ""],
        &["x", "", "y"],
        &["", "x", "y"],
    ],
    &[
        &["q"],
        &["say \"so\""],
        &["two\nlines"],
        &["a,b\\c\rd"],
        &["déjà vu 😀"],
    ],
    &[&["none"]],
    &[],
];

#[test]
fn writes_the_graph_of_the_table(rt: HostRuntime) {
    let alloc = rt.alloc();
    for table in &TABLES {
        assert!(rt; agrees(alloc, table));
    }
}
