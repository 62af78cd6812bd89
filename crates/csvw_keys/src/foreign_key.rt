//! Foreign keys, and the faults of the rows that refer to no row of another table, or to several.
ghost use Rattle.std.specs.Prelude.{◌≡◌, ◌++◌, IfOk, OnOk, flat_map};
ghost use Rattle.csvw_keys.specs.contracts.held.HeldKeyOrd.TheImpl as derived;
ghost use Rattle.csvw_keys.specs.ReferenceBooks.{fault_by_times, row_fault};
ghost use Rattle.csvw_keys.specs.Tallies.{tally_times};

use crate::held::HeldKey;
use crate::places::fault_at;
use crate::referring::Referring;
use crate::tally::Tally;
use crate::times::Times;
use csvw_text::{Code, Fault, Seq};
use std::alloc::{AllocError, Global};

/// A foreign key, as numbers. Other books keep the rows that refer by it, and count the keys that they refer to.
#[derive(Drop)]
pub struct ForeignKey {
    /// The number of its table, from 1.
    pub(crate) table: u32,
    /// The numbers of its columns, from 1.
    pub(crate) columns: Seq<u32>,
    /// The number of the referenced table, from 1.
    pub(crate) referenced_table: u32,
    /// The numbers of the referenced columns, from 1.
    pub(crate) referenced: Seq<u32>,
}

/// Adds the fault of a row that refers to rows of a key. The key occurs so often.
fn push_fault(
    faults: &mut Vec<Fault>,
    times: Times,
    table: u32,
    columns: &[u32],
    source: u64,
) -> Result<(), AllocError>
    ensures { OnOk result (faults.new.items ≡ faults.old.items ++ fault_by_times times table columns.now source) }
{
    match times {
        Times::Never => faults.push(fault_at(Code::NoReferencedRow, table, columns, source))?,
        Times::Once => {}
        Times::Often => faults.push(fault_at(Code::ManyReferencedRows, table, columns, source))?,
    }
    Ok(())
}

impl ForeignKey {
    /// Returns the faults of rows that refer by this key, in order, or `AllocError` if there is no memory. The tally
    /// says how often each key of the referenced table occurs.
    pub fn faults(
        &self,
        alloc: Global,
        rows: &[Referring],
        tally: &Tally<HeldKey>,
    ) -> Result<Vec<Fault>, AllocError>
        ensures { IfOk result (λ v. v.items
            ≡ flat_map (row_fault (tally_times derived.ghosts.cmp tally.now.ahead tally.now.counts) self.now) rows.now) }
    {
        let mut faults = Vec::new(alloc);
        let columns = self.columns.as_slice();
        for row in rows {
            let times = tally.times(&row.key);
            push_fault(&mut faults, times, self.table, columns, row.source)?;
        }
        Ok(faults)
    }
}
