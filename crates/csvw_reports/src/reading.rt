//! `read_report`: the faults of a report, or the first line that is wrong.
ghost use Rattle.std.specs.Prelude.{◌≡◌, ◌++◌, ◌+◌, ◌<◌, ◌^◌, length, IfErr, IfOk, List, MatchOption, ℕ};
ghost use Rattle.csvw_report.specs.Report.{heading, report};
ghost use Rattle.csvw_reports.specs.Refusals.{IsRefused};
ghost use Rattle.csvw_reports.specs.declared.fault.ReportFault.TheVariants as fault;

use crate::fault::ReportFault;
use crate::line::fault_at;
use csvw_text::{Fault, Seq};
use std::alloc::Global;

/// The first line of a report.
const HEADING: &str = "kind,code,table,row,column\n";

/// Returns what follows the heading.
fn after_heading(text: &[u8]) -> Option<&[u8]>
    ensures { MatchOption result ((rest : List ℕ) → text.now ≡ heading ++ rest → ⊥) (λ rest. text.now ≡ heading ++ rest.now) }
{
    text.strip_prefix(HEADING.as_bytes())
}

/// Returns the fault of the line after the heading and the lines of some faults.
fn at_line(faults: &Seq<Fault>) -> ReportFault
    requires { length faults.now + 2 < 2 ^ 64 }
    ensures { result ≡ fault.Line (length faults.now + 2) }
{
    ReportFault::Line(faults.len() as u64 + 2)
}

/// Returns the faults of a report, in its order, or the first line that is wrong. Returns `Memory` if memory runs out.
pub fn read_report(alloc: Global, text: &[u8]) -> Result<Seq<Fault>, ReportFault>
    ensures report { IfOk result (λ faults. text.now ≡ report faults) }
    ensures refused { IfErr result (IsRefused text.now) }
{
    let Some(mut rest) = after_heading(text) else {
        return Err(ReportFault::Line(1));
    };
    let mut faults = Seq::new(alloc);
    while !rest.is_empty() {
        let Some((fault, after)) = fault_at(rest) else {
            return Err(at_line(&faults));
        };
        faults.push(fault)?;
        rest = after;
    }
    Ok(faults)
}
