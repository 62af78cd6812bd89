//! Groups of tables with their graphs row by row, for runs whose readers or writers fail.

use crate::running::Order;
use csvw_engine::{Outcome, Stop, run, run_turns};
use csvw_text::Counted;
use csvw_triples_core::Mode;
use std::alloc::{AllocError, Global};
use std::io::{Read, Write};

/// A row of a table that has lines in the graph.
pub(crate) struct Row {
    /// How many bytes of the text have come when the row is complete.
    pub(crate) at: u64,
    /// Its lines.
    pub(crate) lines: &'static str,
}

/// A table.
pub(crate) struct Table {
    /// Its text.
    pub(crate) text: &'static [u8],
    /// Its rows that have lines.
    pub(crate) rows: &'static [Row],
}

/// A group of tables.
pub(crate) struct Case {
    /// What it is.
    pub(crate) what: &'static str,
    /// The document that describes it.
    pub(crate) meta: &'static str,
    /// The mode of its run.
    pub(crate) mode: Mode,
    /// The lines of its graph before those of the rows.
    pub(crate) opening: &'static str,
    /// Its tables.
    pub(crate) tables: &'static [Table],
    /// The faults of its report, line by line.
    pub(crate) faults: &'static str,
}

/// Both orders of reading.
pub(crate) const ORDERS: [Order; 2] = [Order::OneByOne, Order::InTurn];

/// A read that fails.
#[derive(Clone, Copy)]
pub(crate) struct Failure {
    /// The table that is read, from 0.
    pub(crate) table: usize,
    /// The number of the read, from 1.
    pub(crate) read: u64,
}

impl Failure {
    /// Returns whether it is a read of this table.
    fn is_of(failure: Option<Failure>, table: usize) -> bool {
        matches!(failure, Some(failure) if failure.table == table)
    }

    /// Returns how many reads of this table there are before it.
    pub(crate) fn reads_before(failure: Option<Failure>, table: usize) -> u64 {
        match failure {
            Some(failure) if failure.table == table => failure.read.saturating_sub(1),
            _ => u64::MAX,
        }
    }
}

/// More reads than any text of the cases needs.
const READS: u64 = 100;

/// Adds the lines of the rows that are complete after so many bytes, and not before.
fn push_rows(out: &mut String, table: &Table, before: u64, after: u64) -> Result<(), AllocError> {
    for row in table.rows {
        if before < row.at && row.at <= after {
            out.push_str(row.lines)?;
        }
    }
    Ok(())
}

/// Adds the lines of the tables, one after the other, until a read of `piece` bytes fails.
fn push_tables(
    out: &mut String,
    case: &Case,
    piece: u64,
    failure: Option<Failure>,
) -> Result<(), AllocError> {
    for (i, table) in case.tables.iter().enumerate() {
        let reads = Failure::reads_before(failure, i);
        push_rows(out, table, 0, reads.saturating_mul(piece))?;
        if Failure::is_of(failure, i) {
            return Ok(());
        }
    }
    Ok(())
}

/// Adds the lines of a read of each table, until a read fails. `read` is the number of the read, from 0. Returns
/// whether no read failed.
fn push_read(
    out: &mut String,
    case: &Case,
    piece: u64,
    failure: Option<Failure>,
    read: u64,
) -> Result<bool, AllocError> {
    for (i, table) in case.tables.iter().enumerate() {
        if Failure::reads_before(failure, i) == read {
            return Ok(false);
        }
        let before = read.saturating_mul(piece);
        push_rows(out, table, before, before.saturating_add(piece))?;
    }
    Ok(true)
}

/// Adds the lines of the tables, which are read in turn, until a read of `piece` bytes fails.
fn push_turns(
    out: &mut String,
    case: &Case,
    piece: u64,
    failure: Option<Failure>,
) -> Result<(), AllocError> {
    for read in 0..READS {
        if !push_read(out, case, piece, failure, read)? {
            return Ok(());
        }
    }
    Ok(())
}

fn push_graph(
    out: &mut String,
    case: &Case,
    order: Order,
    piece: u64,
    failure: Option<Failure>,
) -> Result<(), AllocError> {
    out.push_str(case.opening)?;
    match order {
        Order::OneByOne => push_tables(out, case, piece, failure),
        Order::InTurn => push_turns(out, case, piece, failure),
    }
}

/// Returns the graph of the rows that are complete before a read fails, or of all rows if none fails. A read returns
/// at most `piece` bytes.
pub(crate) fn graph_before(
    alloc: Global,
    case: &Case,
    order: Order,
    piece: u64,
    failure: Option<Failure>,
) -> Option<String> {
    let mut out = String::new(alloc);
    match push_graph(&mut out, case, order, piece, failure) {
        Ok(()) => Some(out),
        Err(_) => None,
    }
}

/// Runs over a group with these readers and writers.
pub(crate) fn run_case<R: Read, W: Write, V: Write>(
    alloc: Global,
    case: &Case,
    order: Order,
    readers: &mut [Counted<R>],
    out: &mut Counted<W>,
    report: &mut Counted<V>,
) -> Result<Outcome, Stop> {
    let meta = case.meta.as_bytes();
    let base = "http://example.org/";
    match order {
        Order::OneByOne => run(alloc, meta, base, readers, case.mode, out, report),
        Order::InTurn => run_turns(alloc, meta, base, readers, case.mode, out, report),
    }
}

/// Returns a reader of each text.
pub(crate) fn texts_of(
    alloc: Global,
    case: &Case,
) -> Result<Vec<Counted<&'static [u8]>>, AllocError> {
    let mut readers = Vec::new(alloc);
    for table in case.tables {
        readers.push(Counted::new(table.text))?;
    }
    Ok(readers)
}

/// Runs over a group whose readers don't fail.
pub(crate) fn run_texts<W: Write, V: Write>(
    alloc: Global,
    case: &Case,
    order: Order,
    out: &mut Counted<W>,
    report: &mut Counted<V>,
) -> Result<Outcome, Stop> {
    match texts_of(alloc, case) {
        Ok(mut readers) => run_case(alloc, case, order, readers.as_mut_slice(), out, report),
        Err(_) => Err(Stop::Memory),
    }
}
