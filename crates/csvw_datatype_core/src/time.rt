//! How a text writes a time of day.
ghost use Rattle.std.specs.Prelude.{◌≡◌, ◌≢◌, ◌<◌, IfSome, MatchOption, is_some};
ghost use Rattle.std.specs.Str.{IsAscii};
ghost use Rattle.csvw_datatype_core.specs.Fields.{option_view};
ghost use Rattle.csvw_datatype_core.specs.Times.{time_pattern, after_colon, last_two, no_seconds, seconds_at, clock_fields, clock};
ghost use Rattle.csvw_datatype_core.specs.Values.{time_value};

use crate::date::{ended, past, two};
use crate::moment::second_of_day;

/// The fields of a time of day, and whether `:` separates them (Model for Tabular Data and Metadata on the Web, section
/// 6.4.4).
#[derive(Clone, Copy, Debug, PartialEq, Eq)]
pub enum TimeFormat {
    /// `HH:mm:ss`.
    Seconds,
    /// `HHmmss`.
    CompactSeconds,
    /// `HH:mm`. The seconds are 0.
    Minutes,
    /// `HHmm`. The seconds are 0.
    CompactMinutes,
}

impl TimeFormat {
    ghost use Rattle.csvw_datatype_core.specs.declared.time.TimeFormat.{TimeFormat};

    /// Returns the format of a pattern, or `None` if it is not one of the four patterns (Model for Tabular Data and
    /// Metadata on the Web, section 6.4.4).
    pub fn of(pattern: &str) -> Option<TimeFormat>
        ensures { MatchOption result ((f : TimeFormat) → pattern.now ≢ time_pattern f) (λ f. pattern.now ≡ time_pattern f) }
    {
        match pattern {
            "HH:mm:ss" => Some(TimeFormat::Seconds),
            "HHmmss" => Some(TimeFormat::CompactSeconds),
            "HH:mm" => Some(TimeFormat::Minutes),
            "HHmm" => Some(TimeFormat::CompactMinutes),
            _ => None,
        }
    }

    /// Returns the pattern of the format, which `of` reads.
    pub fn pattern(self) -> &'static str
        ensures { result.now ≡ time_pattern self }
    {
        match self {
            TimeFormat::Seconds => "HH:mm:ss",
            TimeFormat::CompactSeconds => "HHmmss",
            TimeFormat::Minutes => "HH:mm",
            TimeFormat::CompactMinutes => "HHmm",
        }
    }
}

fn after_colon(format: TimeFormat, bytes: &[u8]) -> Option<&[u8]>
    ensures { option_view (λ rest. rest.now) result ≡ after_colon format bytes.now }
{
    match format {
        TimeFormat::Seconds | TimeFormat::Minutes => past(bytes, b':'),
        TimeFormat::CompactSeconds | TimeFormat::CompactMinutes => Some(bytes),
    }
}

pub(crate) fn last_two(bytes: &[u8]) -> Option<u8>
    ensures { result ≡ last_two bytes.now }
{
    let (second, rest) = two(bytes)?;
    ended(rest)?;
    Some(second)
}

fn no_seconds(bytes: &[u8]) -> Option<u8>
    ensures { result ≡ no_seconds bytes.now }
{
    ended(bytes)?;
    Some(0)
}

fn seconds(format: TimeFormat, bytes: &[u8]) -> Option<u8>
    ensures { result ≡ seconds_at format bytes.now }
{
    match format {
        TimeFormat::Seconds => last_two(past(bytes, b':')?),
        TimeFormat::CompactSeconds => last_two(bytes),
        TimeFormat::Minutes | TimeFormat::CompactMinutes => no_seconds(bytes),
    }
}

#[tactic(auto, unfolding(crate::specs::Times::clock_fields))]
pub(crate) fn clock_fields(format: TimeFormat, bytes: &[u8]) -> Option<(u8, u8, u8)>
    ensures { result ≡ clock_fields format bytes.now }
{
    let (hour, rest) = two(bytes)?;
    let (minute, rest) = two(after_colon(format, rest)?)?;
    let second = seconds(format, rest)?;
    Some((hour, minute, second))
}

/// Returns the text `HH:mm:ss` of a time of day.
pub(crate) fn clock(hour: u8, minute: u8, second: u8) -> [u8; 8]
    requires hour { hour < 100 }
    requires minute { minute < 100 }
    requires second { second < 100 }
    ensures text { result ≡ clock hour minute second }
    ensures ascii { IsAscii result }
{
    [
        48 + hour / 10,
        48 + hour % 10,
        b':',
        48 + minute / 10,
        48 + minute % 10,
        b':',
        48 + second / 10,
        48 + second % 10,
    ]
}

/// Returns the second of its day that a time of day is, from 0 to 86,399 (XML Schema 1.1 part 2, section 3.3.8).
///
/// Returns `None` if the bytes aren't in the format, or if a day has no such time.
pub(crate) fn second_at(format: TimeFormat, bytes: &[u8]) -> Option<u32>
    ensures second { result ≡ time_value format bytes.now }
    ensures limit { IfSome result (λ n. n < 86_400) }
{
    let (hour, minute, second) = clock_fields(format, bytes)?;
    second_of_day(hour, minute, second)
}

/// Returns whether a text writes a time of day in a format. It takes no memory.
pub fn is_time(format: TimeFormat, text: &str) -> bool
    ensures { result ≡ is_some (time_value format text.now) }
{
    second_at(format, text.as_bytes()).is_some()
}
