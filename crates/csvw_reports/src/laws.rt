//! Laws of the definitions that contracts use. A call of a law does nothing.
ghost use Rattle.csvw_reports.specs.ReportLaws.{NoReport};

/// A law: a text that is refused is no report. So `read_report` refuses exactly the texts that are none, unless memory
/// runs out.
pub fn refused_is_no_report()
    ensures { NoReport }
{}
