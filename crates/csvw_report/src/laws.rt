//! Laws of the definitions that contracts use. The calls do nothing.
ghost use Rattle.csvw_report.specs.ReportLaws.{SortsToOne};

/// A law: the faults of a run have one order. Sorted lists of the same faults are equal.
pub fn sorts_to_one()
    ensures { SortsToOne }
{}
