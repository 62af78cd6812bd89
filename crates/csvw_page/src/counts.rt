//! How often each code occurs in each column.

use csvw_text::{Code, Fault};
use std::alloc::{AllocError, Global};
use std::collections::BTreeMap;

/// A column of a table, and a code of faults in it.
#[derive(Clone, Copy, PartialEq, Eq, PartialOrd, Ord)]
pub struct Spot {
    /// The number of the table, from 1. It is 0 for faults of no table.
    pub table: u32,
    /// The number of the column, from 1. It is 0 for faults of no column.
    pub column: u32,
    /// The code.
    pub code: Code,
}

/// How often each code occurs in each column.
#[derive(Drop)]
pub struct Counts {
    /// The counts, in the order by tables, columns and codes.
    pub spots: BTreeMap<Spot, u64>,
}

/// Returns the column and the code of a fault.
pub fn spot_of(fault: &Fault) -> Spot {
    Spot {
        table: fault.place.table,
        column: fault.place.column,
        code: fault.code,
    }
}

impl Counts {
    /// Makes counts of no faults.
    pub fn new(alloc: Global) -> Counts {
        Counts {
            spots: BTreeMap::new(alloc),
        }
    }

    /// Counts these faults. Returns `AllocError` if memory runs out.
    pub fn of(alloc: Global, faults: &[Fault]) -> Result<Counts, AllocError> {
        let mut counts = Counts::new(alloc);
        for alike in faults.chunk_by(|a, b| spot_of(a) == spot_of(b)) {
            counts.count_all(alike)?;
        }
        Ok(counts)
    }

    /// Counts a fault. Returns how many of its code there are in its column so far, or `AllocError` if memory runs out.
    pub fn count(&mut self, fault: &Fault) -> Result<u64, AllocError> {
        self.add(spot_of(fault), 1)
    }

    /// Counts faults of one code in one column.
    fn count_all(&mut self, faults: &[Fault]) -> Result<(), AllocError> {
        if let Some(first) = faults.first() {
            self.add(spot_of(first), faults.len() as u64)?;
        }
        Ok(())
    }

    /// Adds to how often a code occurs in a column. Returns how often that is so far.
    fn add(&mut self, spot: Spot, more: u64) -> Result<u64, AllocError> {
        let times = self.spots.entry(spot)?.or_insert(0);
        *times = times.saturating_add(more);
        Ok(*times)
    }

    /// Returns how many faults there are in a table.
    pub fn of_table(&self, table: u32) -> u64 {
        let mut sum = 0u64;
        for (spot, times) in self.spots.iter() {
            if spot.table == table {
                sum = sum.saturating_add(*times);
            }
        }
        sum
    }
}
