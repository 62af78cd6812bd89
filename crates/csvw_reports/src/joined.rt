//! `JoinedReports`: the one report of several.
ghost use Rattle.std.specs.Prelude.{◌≡◌, ◌++◌, [], IfErr, MatchResult, true};
ghost use Rattle.std.specs.List.Sorted.{IsPermutation, IsSorted};
ghost use Rattle.csvw_report.specs.Order.{fault_cmp};
ghost use Rattle.csvw_reports.specs.Joining.{AddsReport, Keeps};

use crate::fault::ReportFault;
use crate::reading::read_report;
use csvw_report::{Outcome, sorted};
use csvw_text::{Fault, Seq};
use std::alloc::Global;

/// The faults of several reports.
#[derive(Drop)]
pub struct JoinedReports {
    /// Where its memory comes from.
    alloc: Global,
    /// The faults so far, report by report.
    faults: Vec<Fault>,
}

impl JoinedReports {
    /// Returns the faults of no report. It takes no memory.
    pub fn new(alloc: Global) -> JoinedReports
        ensures { result.faults.items ≡ [] }
    {
        JoinedReports {
            alloc,
            faults: Vec::new(alloc),
        }
    }

    /// Adds the faults of a report. If the text is no report, it returns the first line that is wrong, and nothing is
    /// added. Returns `Memory` if memory runs out.
    pub fn add(&mut self, text: &[u8]) -> Result<(), ReportFault>
        ensures { MatchResult result (λ _. AddsReport text.now self.old.faults.items self.new.faults.items)
            (Keeps text.now self.old.faults.items self.new.faults.items) }
    {
        let report = read_report(self.alloc, text)?;
        self.faults.append(&mut report.into_vec())?;
        Ok(())
    }

    /// Returns the faults of all reports, in the order of reports.
    pub fn into_outcome(self) -> Outcome
        ensures same { IsPermutation self.faults.items result.faults }
        ensures order { IsSorted fault_cmp result.faults }
    {
        Outcome {
            faults: sorted(Seq::of(self.faults)),
        }
    }
}
