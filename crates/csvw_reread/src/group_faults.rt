//! The faults of a group, each with its row, in the order of a page's form.

use crate::first_rows::Repeat;
use crate::walk::{FIRST, Shown, Walker};
use csvw_hints::{TableAt, Tables};
use csvw_opener::Opener;
use csvw_page::{Counts, Form, Halt, SpotShown, spot_of};
use csvw_streams::Counted;
use csvw_text::{Code, Fault};
use std::alloc::{AllocError, Global};
use std::io::Write;

/// The faults of a group of tables.
#[derive(Clone, Copy)]
pub struct GroupFaults<'a> {
    /// The tables.
    pub tables: Tables<'a>,
    /// The faults, in the order of reports.
    pub faults: &'a [Fault],
    /// The rows that repeat a primary key, sorted by tables and rows. A row that isn't here is shown without the first row
    /// that has its key.
    pub repeats: &'a [Repeat],
}

/// Divides faults, which are sorted, before the first of a table of this number or a later one.
fn before_table(faults: &[Fault], table: u32) -> (&[Fault], &[Fault]) {
    let count = faults
        .iter()
        .take_while(|fault| fault.place.table < table)
        .count();
    faults.split_at(count.min(faults.len()))
}

/// Returns the faults in the order by tables, columns, codes and rows.
fn by_column(alloc: Global, faults: &[Fault]) -> Result<Vec<Fault>, AllocError> {
    let mut sorted = Vec::from_slice(alloc, faults)?;
    sorted.sort_unstable_by_key(|fault| (spot_of(fault), fault.place.row, fault.kind));
    Ok(sorted)
}

/// Returns how many of so many faults of one code in one column are shown.
fn shown_of(shown: Shown, times: u64) -> u64 {
    match shown {
        Shown::First => times.min(FIRST),
        Shown::All => times,
    }
}

/// Returns a count as a length.
fn length_of(count: u64) -> usize {
    usize::try_from(count).unwrap_or(usize::MAX)
}

impl GroupFaults<'_> {
    /// Adds the faults of each table, with the texts of its file, in the order of its rows.
    fn tell_by_row<O: Opener, W: Write>(
        &self,
        walker: &mut Walker,
        opener: &mut O,
        out: &mut Counted<W>,
    ) -> Result<(), Halt> {
        let (_, mut faults) = before_table(self.faults, 1);
        for (plan, path) in self.tables.plan.tables().iter().zip(self.tables.paths) {
            let (own, rest) = before_table(faults, plan.number.saturating_add(1));
            faults = rest;
            let table = TableAt {
                tables: &self.tables,
                plan,
                path: path.as_str(),
            };
            walker.begin_table(self.repeats, plan.number)?;
            walker.walk(&table, own, opener, out)?;
        }
        Ok(())
    }

    /// Adds how many faults are not shown of each code in each column.
    fn tell_rests(&self, walker: &mut Walker, totals: &Counts) -> Result<(), AllocError> {
        for (spot, times) in totals.spots.iter() {
            let left = times.saturating_sub(shown_of(walker.shown, *times));
            if left > 0 && spot.code != Code::UnknownProperty {
                let path = self.tables.path_at(spot.table).unwrap_or("");
                walker.page.rest(&SpotShown {
                    spot: *spot,
                    times: left,
                    path,
                })?;
            }
        }
        Ok(())
    }

    /// Adds the faults of one code in one column.
    fn tell_spot<O: Opener, W: Write>(
        &self,
        walker: &mut Walker,
        faults: &[Fault],
        opener: &mut O,
        out: &mut Counted<W>,
    ) -> Result<(), Halt> {
        let Some(first) = faults.first() else {
            return Ok(());
        };
        let spot = spot_of(first);
        let Some(plan) = self.tables.plan_at(spot.table) else {
            return Ok(());
        };
        let path = self.tables.path_at(spot.table).unwrap_or("");
        let times = faults.len() as u64;
        walker.page.heading(&SpotShown { spot, times, path })?;
        let shown = shown_of(walker.shown, times);
        let first = faults.get(..length_of(shown)).unwrap_or(faults);
        let table = TableAt {
            tables: &self.tables,
            plan,
            path,
        };
        walker.begin_table(self.repeats, spot.table)?;
        walker.walk(&table, first, opener, out)?;
        match times.saturating_sub(shown) {
            0 => Ok(()),
            times => Ok(walker.page.rest(&SpotShown { spot, times, path })?),
        }
    }

    /// Adds the faults by columns and codes. The file of a table is read once for each code in each column.
    fn tell_by_column<O: Opener, W: Write>(
        &self,
        walker: &mut Walker,
        totals: &Counts,
        opener: &mut O,
        out: &mut Counted<W>,
    ) -> Result<(), Halt> {
        let sorted = by_column(walker.page.alloc, self.faults)?;
        let mut faults = sorted.as_slice();
        for (spot, times) in totals.spots.iter() {
            let (own, rest) = faults.split_at(length_of(*times).min(faults.len()));
            faults = rest;
            if spot.code != Code::UnknownProperty {
                self.tell_spot(walker, own, opener, out)?;
            }
        }
        Ok(())
    }

    /// Adds the faults, with the texts of their rows, in the order of the page's form, and sends them piece by piece. Faults
    /// of a file that can't be read again are shown without rows. Halts if memory runs out or the stream fails.
    pub fn show<O: Opener, W: Write>(
        &self,
        walker: &mut Walker,
        totals: &Counts,
        opener: &mut O,
        out: &mut Counted<W>,
    ) -> Result<(), Halt> {
        match walker.page.form {
            Form::Html => self.tell_by_column(walker, totals, opener, out),
            Form::Text | Form::Json => {
                self.tell_by_row(walker, opener, out)?;
                Ok(self.tell_rests(walker, totals)?)
            }
        }
    }
}
