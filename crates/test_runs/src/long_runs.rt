//! Long runs: two tables with keys, 20,000 rows each.

use crate::device_cases::KEYS;
use crate::devices::ORDERS;
use crate::running::{Order, Ran, is_report, run_in};
use csvw_triples_core::Mode;
use std::alloc::{AllocError, Global};
use std::process::Abort;
use std::str;

/// The number of rows of each table.
const ROWS: u32 = 20_000;

/// Returns the key in this row, from 1, of the first table. Its keys go downwards.
fn key_of(row: u32) -> u32 {
    ROWS.wrapping_sub(row).wrapping_add(1)
}

fn push_referring(out: &mut String) -> Result<(), AllocError> {
    out.push_str("ref\n")?;
    for row in 0..ROWS {
        writeln!(out, "{}", key_of(row.wrapping_add(1)))?;
    }
    Ok(())
}

fn push_referenced(out: &mut String) -> Result<(), AllocError> {
    out.push_str("k\n")?;
    for row in 0..ROWS {
        writeln!(out, "{}", row.wrapping_add(1))?;
    }
    Ok(())
}

fn push_referring_lines(out: &mut String) -> Result<(), AllocError> {
    for row in 0..ROWS {
        let row = row.wrapping_add(1);
        writeln!(
            out,
            "_:t1r{row}s <http://example.org/a.csv#ref> \"{}\"^^<http://www.w3.org/2001/XMLSchema#integer> .",
            key_of(row)
        )?;
    }
    Ok(())
}

fn push_referenced_lines(out: &mut String) -> Result<(), AllocError> {
    for row in 0..ROWS {
        let row = row.wrapping_add(1);
        writeln!(
            out,
            "_:t2r{row}s <http://example.org/b.csv#k> \"{row}\"^^<http://www.w3.org/2001/XMLSchema#integer> ."
        )?;
    }
    Ok(())
}

/// Returns the graph, the lines of the first table first.
fn graph(alloc: Global) -> Result<String, AllocError> {
    let mut out = String::new(alloc);
    push_referring_lines(&mut out)?;
    push_referenced_lines(&mut out)?;
    Ok(out)
}

/// Adds the lines of a text that begin like this.
fn push_lines(out: &mut String, text: &str, front: &str) -> Result<(), AllocError> {
    for line in text.lines() {
        if line.starts_with(front) {
            out.push_str(line)?;
            out.push('\n')?;
        }
    }
    Ok(())
}

/// Returns the lines of a graph of two tables, those of the first table first.
fn by_table(alloc: Global, graph: &str) -> Result<String, AllocError> {
    let mut out = String::new(alloc);
    push_lines(&mut out, graph, "_:t1r")?;
    push_lines(&mut out, graph, "_:t2r")?;
    Ok(out)
}

/// Returns what a run over both tables leaves.
fn ran(alloc: Global, order: Order) -> Result<Ran, AllocError> {
    let mut referring = String::new(alloc);
    push_referring(&mut referring)?;
    let mut referenced = String::new(alloc);
    push_referenced(&mut referenced)?;
    let texts = [referring.as_str(), referenced.as_str()];
    run_in(alloc, KEYS, &texts, Mode::Minimal, order)
}

/// Returns whether these bytes have the lines of both tables, those of each table in order, and no other bytes.
fn is_whole(alloc: Global, bytes: &[u8]) -> bool {
    let Ok(text) = str::from_utf8(bytes) else {
        return false;
    };
    let Ok(expected) = graph(alloc) else {
        return false;
    };
    match by_table(alloc, text) {
        Ok(found) => text.len() == expected.as_str().len() && found.as_str() == expected.as_str(),
        Err(_) => false,
    }
}

/// Returns whether these bytes have 40,000 lines.
fn is_long(bytes: &[u8]) -> bool {
    bytes.iter().filter(|byte| **byte == b'\n').count() == 40_000
}

#[test]
fn keys_that_go_upwards_and_downwards_match(rt: HostRuntime) {
    let alloc = rt.alloc();
    for order in ORDERS {
        let ran = ran(alloc, order);
        assert!(rt;
            matches!(&ran, Ok(ran) if ran.stop.is_none() && is_report(ran.report.as_slice(), ""))
        );
        assert!(rt; matches!(&ran, Ok(ran) if is_long(ran.graph.as_slice())));
        assert!(rt; matches!(&ran, Ok(ran) if is_whole(alloc, ran.graph.as_slice())));
    }
}
