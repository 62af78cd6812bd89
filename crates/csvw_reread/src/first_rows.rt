//! Rows that repeat a primary key, and where in the file the first rows with their keys are (Metadata Vocabulary for
//! Tabular Data, section 5.5.1).

use csvw_page::push_location;
use std::alloc::{AllocError, Global};

/// A row that repeats the primary key of an earlier row.
#[derive(Clone, Copy)]
pub struct Repeat {
    /// The number of its table, from 1.
    pub table: u32,
    /// The number of the row in its source, from 1.
    pub row: u64,
    /// The number in its source of the first row with the key, from 1.
    pub first: u64,
}

/// The first row with a key.
#[derive(Clone, Copy)]
struct FirstRow {
    /// Its number in its source, from 1.
    source: u64,
    /// The line at which it begins, from 1. It is 0 until the row is passed.
    line: u64,
    /// Its number among the data rows, from 1.
    number: u64,
}

/// The rows of a table that repeat a key, and the first rows with their keys.
#[derive(Drop)]
pub(crate) struct FirstRows {
    /// The rows that repeat a key, in their order.
    repeats: Vec<Repeat>,
    /// The first rows, in their order.
    rows: Vec<FirstRow>,
    /// How many of the first rows are before the last row that was passed.
    passed: usize,
    /// How many of the rows that repeat a key are before the last row that was asked for.
    asked: usize,
}

/// Returns those of the repeating rows of a group, which are sorted, that are in the table of this number.
fn in_table(repeats: &[Repeat], table: u32) -> &[Repeat] {
    let begin = repeats.partition_point(|repeat| repeat.table < table);
    let end = repeats.partition_point(|repeat| repeat.table <= table);
    repeats.get(begin..end).unwrap_or(&[])
}

/// Returns how many of these rows, from a place on, are before the row of this number in its source.
fn rows_before(rows: &[FirstRow], place: usize, source: u64) -> usize {
    let rows = rows.get(place..).unwrap_or(&[]);
    rows.iter().take_while(|row| row.source < source).count()
}

/// Returns how many of these repeating rows, from a place on, are before the row of this number in its source.
fn repeats_before(repeats: &[Repeat], place: usize, source: u64) -> usize {
    let repeats = repeats.get(place..).unwrap_or(&[]);
    repeats
        .iter()
        .take_while(|repeat| repeat.row < source)
        .count()
}

impl FirstRows {
    /// Begins with no rows.
    pub(crate) fn new(alloc: Global) -> FirstRows {
        FirstRows {
            repeats: Vec::new(alloc),
            rows: Vec::new(alloc),
            passed: 0,
            asked: 0,
        }
    }

    /// Begins the table of this number, of which no row is passed yet. The repeating rows of the group are sorted by
    /// tables and rows. Returns `AllocError` if memory runs out.
    pub(crate) fn begin(&mut self, repeats: &[Repeat], table: u32) -> Result<(), AllocError> {
        self.repeats.clear();
        self.rows.clear();
        self.passed = 0;
        self.asked = 0;
        for repeat in in_table(repeats, table) {
            self.repeats.push(*repeat)?;
            self.rows.push(FirstRow {
                source: repeat.first,
                line: 0,
                number: 0,
            })?;
        }
        self.rows.sort_unstable_by_key(|row| row.source);
        self.rows.dedup_by_key(|row| row.source);
        Ok(())
    }

    /// Passes a row of the file, and keeps its place if it is a first row. Rows are passed in their order.
    pub(crate) fn pass(&mut self, source: u64, line: u64, number: u64) {
        let before = rows_before(self.rows.as_slice(), self.passed, source);
        self.passed = self.passed.saturating_add(before);
        if let Some(row) = self.rows.get_mut(self.passed) {
            if row.source == source {
                row.line = line;
                row.number = number;
            }
        }
    }

    /// Returns the first row with the key of the row of this number in its source, if it is passed. Rows are asked for in
    /// their order.
    fn first_of(&mut self, source: u64) -> Option<FirstRow> {
        let before = repeats_before(self.repeats.as_slice(), self.asked, source);
        self.asked = self.asked.saturating_add(before);
        let repeat = self.repeats.get(self.asked)?;
        if repeat.row != source {
            return None;
        }
        let place = self
            .rows
            .binary_search_by_key(&repeat.first, |row| row.source)
            .ok()?;
        let row = self.rows.get(place)?;
        match row.line {
            0 => None,
            _ => Some(*row),
        }
    }

    /// Adds a line of text: where the first row with the key of this row is, if it is passed.
    pub(crate) fn push_first(
        &mut self,
        text: &mut String,
        path: &str,
        source: u64,
    ) -> Result<(), AllocError> {
        let Some(row) = self.first_of(source) else {
            return Ok(());
        };
        let FirstRow { line, number, .. } = row;
        text.push_str("    the first row with this key: ")?;
        push_location(text, path)?;
        write!(text, ":{line} (row {number})\n")
    }
}
