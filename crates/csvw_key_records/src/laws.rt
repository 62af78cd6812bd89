//! Laws of the definitions that contracts use. A call of a law does nothing.
ghost use Rattle.csvw_key_records.specs.RightRecords.{RightPasses};
ghost use Rattle.csvw_key_records.specs.RecordLaws.{KeepsFaults, LinesAreUnique, PermutesFaults};

/// A law: the same records in another order have the same faults, in some order. So sorted records have the faults of all of them.
pub fn permutes_faults()
    ensures { PermutesFaults }
{}

/// A law: the faults of the first ones of sorted records are faults of all of them. So a fault is certain once its record was read.
pub fn keeps_faults()
    ensures { KeepsFaults }
{}

/// A law: a text is the lines of one list of records at most. So the records that `judge_keys` read are those that were written.
pub fn lines_are_unique()
    ensures { LinesAreUnique }
{}

/// A law: no run over the lines of sorted records stops at a line that is not too long, if no two records are of one row with one
/// primary key. So `judge_keys` stops in such a file only with `Memory`, `Read`, `Write` or `TooLong`.
pub fn right_passes()
    ensures { RightPasses }
{}
