//! The page of a group that was read: what is ignored, the faults, the stop and the summary.

use crate::document::end_page;
use crate::stop::{Stopped, tell_stop};
use crate::unknown::{Ignored, show_ignored};
use csvw_files::Opener;
use csvw_hints::Tables;
use csvw_meta::MetaFault;
use csvw_page::{Counts, Halt, Summary};
use csvw_reread::{GroupFaults, Repeat, Walker};
use csvw_streams::Counted;
use csvw_text::{Code, Fault};
use std::io::Write;

/// What was found of a group.
#[derive(Clone, Copy)]
pub struct Report<'a> {
    /// The tables.
    pub tables: Tables<'a>,
    /// The values of the document that aren't permitted and are ignored (`BadProperty`), and the bounds that are read as texts.
    pub changed: &'a [MetaFault],
    /// The faults, in the order of reports.
    pub faults: &'a [Fault],
    /// The rows that repeat a primary key, sorted by tables and rows. A row that isn't here is shown without the first row
    /// that has its key.
    pub repeats: &'a [Repeat],
    /// The number of rows that were read of each table. There are none if they aren't known.
    pub rows: &'a [u64],
    /// Why the tables weren't read to their ends, if they weren't.
    pub stop: Option<Stopped<'a>>,
    /// The status.
    pub status: u8,
}

/// Returns how many warnings there are of properties that are ignored.
fn ignored(faults: &[Fault]) -> u64 {
    let ignored = faults
        .iter()
        .filter(|fault| fault.code == Code::UnknownProperty);
    ignored.count() as u64
}

impl Report<'_> {
    /// Shows a page of the group, and sends it piece by piece.
    pub fn show<O: Opener, W: Write>(
        &self,
        walker: &mut Walker,
        opener: &mut O,
        out: &mut Counted<W>,
    ) -> Result<(), Halt> {
        let totals = Counts::of(walker.page.alloc, self.faults)?;
        self.show_counted(&totals, walker, opener, out)
    }

    /// Shows a page of the group whose faults are counted.
    fn show_counted<O: Opener, W: Write>(
        &self,
        totals: &Counts,
        walker: &mut Walker,
        opener: &mut O,
        out: &mut Counted<W>,
    ) -> Result<(), Halt> {
        let faults = GroupFaults {
            tables: self.tables,
            faults: self.faults,
            repeats: self.repeats,
        };
        let summary = Summary {
            paths: self.tables.paths,
            rows: self.rows,
            totals,
            status: self.status,
        };
        walker.page.begin(self.tables.group.meta, Some(&summary))?;
        let shown = Ignored {
            path: self.tables.group.meta,
            bytes: self.tables.document,
            values: self.changed,
            times: ignored(self.faults),
        };
        show_ignored(&mut walker.page, &shown)?;
        walker.page.send(out)?;
        faults.show(walker, totals, opener, out)?;
        if let Some(stopped) = &self.stop {
            tell_stop(&mut walker.page, &self.tables, stopped, opener)?;
        }
        end_page(&mut walker.page, Some(&summary), out)
    }
}
