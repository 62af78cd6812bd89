//! The rows of a table that repeat its primary key, with their keys and the first rows that have them.

use csvw_check_core::Repeat;
use csvw_keys::KeyedRow;
use csvw_row_keys::push_spelling;
use std::alloc::{AllocError, Global};
use std::collections::HashMap;

/// The rows of a table that repeat its primary key.
#[derive(Drop)]
pub(crate) struct RepeatingRows {
    alloc: Global,
    /// The number of the table, from 1.
    pub(crate) table: u32,
    /// The numbers of the rows in their source, from 1, in ascending order.
    rows: Vec<u64>,
    /// Of each row that was read, the place of its key among the keys, from 0.
    keys: Vec<usize>,
    /// The place of each key, by its spelling.
    places: HashMap<Vec<u8>, usize>,
    /// Of each key, the number in its source of the first row that has it, from 1. It is 0 until that is read.
    firsts: Vec<u64>,
    /// How many keys there are whose first row wasn't read yet.
    left: usize,
    /// The spelling of the key of the last row.
    spelling: Vec<u8>,
}

impl RepeatingRows {
    /// Begins with the rows of these numbers, in ascending order, of the table of this number.
    pub(crate) fn new(alloc: Global, table: u32, rows: Vec<u64>) -> RepeatingRows {
        RepeatingRows {
            alloc,
            table,
            rows,
            keys: Vec::new(alloc),
            places: HashMap::new(alloc),
            firsts: Vec::new(alloc),
            left: 0,
            spelling: Vec::new(alloc),
        }
    }

    /// Whether the keys of all rows were read.
    pub(crate) fn has_keys(&self) -> bool {
        self.keys.len() >= self.rows.len()
    }

    /// Whether the first row with each key was read.
    pub(crate) fn has_firsts(&self) -> bool {
        self.left == 0
    }

    /// Whether a row is the next one whose key is kept.
    fn is_next(&self, row: &KeyedRow) -> bool {
        match self.rows.get(self.keys.len()) {
            Some(source) => *source == row.source,
            None => false,
        }
    }

    /// Spells the key of a row.
    fn spell(&mut self, row: &KeyedRow) -> Result<(), AllocError> {
        self.spelling.clear();
        push_spelling(&row.key, &mut self.spelling)
    }

    /// Adds the key that was spelled, whose first row wasn't read yet. Returns its place.
    fn add_key(&mut self) -> Result<usize, AllocError> {
        let place = self.firsts.len();
        let key = Vec::from_slice(self.alloc, self.spelling.as_slice())?;
        self.places.insert(key, place)?;
        self.firsts.push(0)?;
        self.left = self.left.saturating_add(1);
        Ok(place)
    }

    /// Returns the place of the key that was spelled, if it was kept.
    fn place(&self) -> Option<usize> {
        self.places.get(self.spelling.as_slice()).copied()
    }

    /// Keeps the key of a row, if the row is the next one.
    fn keep_key(&mut self, row: &KeyedRow) -> Result<(), AllocError> {
        if !self.is_next(row) {
            return Ok(());
        }
        self.spell(row)?;
        let place = match self.place() {
            Some(place) => place,
            None => self.add_key()?,
        };
        self.keys.push(place)?;
        Ok(())
    }

    /// Keeps the keys of those of some rows that repeat one.
    pub(crate) fn keep_keys(&mut self, rows: &[KeyedRow]) -> Result<(), AllocError> {
        for row in rows {
            self.keep_key(row)?;
        }
        Ok(())
    }

    /// Keeps the number of a row, if it is the first one with the key that was spelled.
    fn keep_first(&mut self, source: u64) {
        let place = self.place().unwrap_or(usize::MAX);
        if let Some(first) = self.firsts.get_mut(place) {
            if *first == 0 {
                *first = source;
                self.left = self.left.saturating_sub(1);
            }
        }
    }

    /// Keeps the numbers of those of some rows that are the first ones with a key.
    pub(crate) fn keep_firsts(&mut self, rows: &[KeyedRow]) -> Result<(), AllocError> {
        for row in rows {
            self.spell(row)?;
            self.keep_first(row.source);
        }
        Ok(())
    }

    /// Adds the rows whose first row was read.
    pub(crate) fn push_to(&self, repeats: &mut Vec<Repeat>) -> Result<(), AllocError> {
        for (row, place) in self.rows.iter().zip(self.keys.iter()) {
            let first = self.firsts.get(*place).copied().unwrap_or(0);
            if first > 0 {
                repeats.push(Repeat {
                    table: self.table,
                    row: *row,
                    first,
                })?;
            }
        }
        Ok(())
    }
}
