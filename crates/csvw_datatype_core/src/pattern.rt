//! The format of a pattern (Model for Tabular Data and Metadata on the Web, section 6.4.4).
ghost use Rattle.std.specs.Prelude.{◌≡◌, ◌≢◌, MatchOption};
ghost use Rattle.csvw_datatype_core.specs.declared.date.DateFormat.{DateFormat as Day};
ghost use Rattle.csvw_datatype_core.specs.declared.moment.MomentFormat.{MomentFormat as Moment};
ghost use Rattle.csvw_datatype_core.specs.declared.time.TimeFormat.{TimeFormat as Time};
ghost use Rattle.csvw_datatype_core.specs.DatePatterns.{date_pattern, moment_pattern};
ghost use Rattle.csvw_datatype_core.specs.PatternLists.{date_format_of, moment_format_of, time_format_of};
ghost use Rattle.csvw_datatype_core.specs.Times.{time_pattern};

use crate::date::DateFormat;
use crate::moment::MomentFormat;
use crate::time::TimeFormat;

/// Returns the format of dates that has a pattern, or `None` if none of the fourteen has it.
pub fn date_format_of(pattern: &str) -> Option<DateFormat>
    ensures format { result ≡ date_format_of pattern.now }
    ensures pattern { MatchOption result ((f : Day) → pattern.now ≢ date_pattern f) (λ f. pattern.now ≡ date_pattern f) }
{
    DateFormat::of(pattern)
}

/// Returns the format of moments that has a pattern, or `None` if none has it.
pub fn moment_format_of(pattern: &str) -> Option<MomentFormat>
    ensures format { result ≡ moment_format_of pattern.now }
    ensures pattern { MatchOption result ((f : Moment) → pattern.now ≢ moment_pattern f) (λ f. pattern.now ≡ moment_pattern f) }
{
    MomentFormat::of(pattern)
}

/// Returns the format of times of day that has a pattern, or `None` if none of the four has it.
pub fn time_format_of(pattern: &str) -> Option<TimeFormat>
    ensures format { result ≡ time_format_of pattern.now }
    ensures pattern { MatchOption result ((f : Time) → pattern.now ≢ time_pattern f) (λ f. pattern.now ≡ time_pattern f) }
{
    TimeFormat::of(pattern)
}
