//! The patterns of dates and moments.
ghost use Rattle.std.specs.Prelude.{◌≡◌, ◌≢◌, ◌++◌, MatchOption, OnOk, string_bytes};
ghost use Rattle.csvw_datatype_core.specs.declared.date.DateFormat.{DateFormat};
ghost use Rattle.csvw_datatype_core.specs.declared.time.TimeFormat.{TimeFormat};
ghost use Rattle.csvw_datatype_core.specs.declared.moment.MomentFormat.TheVariants.{Spaced};
ghost use Rattle.csvw_datatype_core.specs.DatePatterns.{moment_pattern};

use crate::date::{DateFormat, FieldDigits, Separator};
use crate::moment::MomentFormat;
use crate::spaced_moment::at_space;
use crate::time::TimeFormat;
use std::alloc::AllocError;

impl DateFormat {
    ghost use Rattle.csvw_datatype_core.specs.declared.date.DateFormat.{DateFormat};
    ghost use Rattle.csvw_datatype_core.specs.DatePatterns.{date_pattern};

    /// Returns the format of a pattern such as `dd/MM/yyyy`, or `None` if it is not one of the fourteen patterns
    /// (Model for Tabular Data and Metadata on the Web, section 6.4.4).
    pub fn of(pattern: &str) -> Option<DateFormat>
        ensures { MatchOption result ((f : DateFormat) → pattern.now ≢ date_pattern f)
            (λ f. pattern.now ≡ date_pattern f) }
    {
        match pattern {
            "yyyy-MM-dd" => Some(DateFormat::YearFirst),
            "yyyyMMdd" => Some(DateFormat::Compact),
            "dd-MM-yyyy" => Some(DateFormat::DayFirst(FieldDigits::Two, Separator::Dash)),
            "dd/MM/yyyy" => Some(DateFormat::DayFirst(FieldDigits::Two, Separator::Slash)),
            "dd.MM.yyyy" => Some(DateFormat::DayFirst(FieldDigits::Two, Separator::Dot)),
            "d-M-yyyy" => Some(DateFormat::DayFirst(FieldDigits::OneOrTwo, Separator::Dash)),
            "d/M/yyyy" => Some(DateFormat::DayFirst(FieldDigits::OneOrTwo, Separator::Slash)),
            "d.M.yyyy" => Some(DateFormat::DayFirst(FieldDigits::OneOrTwo, Separator::Dot)),
            "MM-dd-yyyy" => Some(DateFormat::MonthFirst(FieldDigits::Two, Separator::Dash)),
            "MM/dd/yyyy" => Some(DateFormat::MonthFirst(FieldDigits::Two, Separator::Slash)),
            "MM.dd.yyyy" => Some(DateFormat::MonthFirst(FieldDigits::Two, Separator::Dot)),
            "M-d-yyyy" => Some(DateFormat::MonthFirst(FieldDigits::OneOrTwo, Separator::Dash)),
            "M/d/yyyy" => Some(DateFormat::MonthFirst(FieldDigits::OneOrTwo, Separator::Slash)),
            "M.d.yyyy" => Some(DateFormat::MonthFirst(FieldDigits::OneOrTwo, Separator::Dot)),
            _ => None,
        }
    }

    /// Returns the pattern of the format, which `of` reads.
    pub fn pattern(self) -> &'static str
        ensures { result.now ≡ date_pattern self }
    {
        match self {
            DateFormat::YearFirst => "yyyy-MM-dd",
            DateFormat::Compact => "yyyyMMdd",
            DateFormat::DayFirst(FieldDigits::Two, Separator::Dash) => "dd-MM-yyyy",
            DateFormat::DayFirst(FieldDigits::Two, Separator::Slash) => "dd/MM/yyyy",
            DateFormat::DayFirst(FieldDigits::Two, Separator::Dot) => "dd.MM.yyyy",
            DateFormat::DayFirst(FieldDigits::OneOrTwo, Separator::Dash) => "d-M-yyyy",
            DateFormat::DayFirst(FieldDigits::OneOrTwo, Separator::Slash) => "d/M/yyyy",
            DateFormat::DayFirst(FieldDigits::OneOrTwo, Separator::Dot) => "d.M.yyyy",
            DateFormat::MonthFirst(FieldDigits::Two, Separator::Dash) => "MM-dd-yyyy",
            DateFormat::MonthFirst(FieldDigits::Two, Separator::Slash) => "MM/dd/yyyy",
            DateFormat::MonthFirst(FieldDigits::Two, Separator::Dot) => "MM.dd.yyyy",
            DateFormat::MonthFirst(FieldDigits::OneOrTwo, Separator::Dash) => "M-d-yyyy",
            DateFormat::MonthFirst(FieldDigits::OneOrTwo, Separator::Slash) => "M/d/yyyy",
            DateFormat::MonthFirst(FieldDigits::OneOrTwo, Separator::Dot) => "M.d.yyyy",
        }
    }
}

impl MomentFormat {
    ghost use Rattle.csvw_datatype_core.specs.declared.moment.MomentFormat.{MomentFormat};
    ghost use Rattle.csvw_datatype_core.specs.DatePatterns.{moment_pattern};

    /// Returns the format of a pattern, or `None` if it is not one of the patterns (Model for Tabular Data and
    /// Metadata on the Web, section 6.4.4): the two with a `T`, and each pattern of a date, a space, and one of a time of day.
    pub fn of(pattern: &str) -> Option<MomentFormat>
        ensures { MatchOption result ((f : MomentFormat) → pattern.now ≢ moment_pattern f)
            (λ f. pattern.now ≡ moment_pattern f) }
    {
        match pattern {
            "yyyy-MM-ddTHH:mm:ss" => Some(MomentFormat::Seconds),
            "yyyy-MM-ddTHH:mm" => Some(MomentFormat::Minutes),
            _ => spaced_format(pattern),
        }
    }

    /// Appends the pattern of the format, which `of` reads, to a text. Returns `AllocError` if memory runs out.
    pub fn push_pattern(self, text: &mut String) -> Result<(), AllocError>
        ensures { OnOk result (string_bytes text.new ≡ string_bytes text.old ++ moment_pattern self) }
    {
        match self {
            MomentFormat::Seconds => text.push_str("yyyy-MM-ddTHH:mm:ss"),
            MomentFormat::Minutes => text.push_str("yyyy-MM-ddTHH:mm"),
            MomentFormat::Spaced(date, time) => {
                text.push_str(date.pattern())?;
                text.push_str(" ")?;
                text.push_str(time.pattern())
            }
        }
    }
}

fn spaced_format(pattern: &str) -> Option<MomentFormat>
    ensures { MatchOption result ((date : DateFormat) (time : TimeFormat) → pattern.now ≢ moment_pattern (Spaced date time))
        (λ f. pattern.now ≡ moment_pattern f) }
{
    let (date, time) = at_space(pattern)?;
    Some(MomentFormat::Spaced(DateFormat::of(date)?, TimeFormat::of(time)?))
}
