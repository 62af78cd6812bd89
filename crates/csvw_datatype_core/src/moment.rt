//! How a text writes a date and a time of day.
ghost use Rattle.std.specs.Prelude.{◌≡◌, ◌≤◌, ◌<◌, ◌+◌, ◌*◌, MatchOption, ℕ, ℤ, pos, ◌+ℤ◌, ◌*ℤ◌, ◌-◌};
ghost use Rattle.csvw_datatype_core.specs.JoinedMoments.{ReadsJoined, ReadsTime};
ghost use Rattle.csvw_datatype_core.specs.Moments.{ReadsMoment};
ghost use Rattle.csvw_datatype_core.specs.TimeFields.{IsTimeOfDay, time_fields, second_field};

use crate::date::{DateFormat, ended, past, read_day, two};
use crate::spaced_moment::read_spaced;
use crate::time::TimeFormat;

/// How a date and a time of day are written (Model for Tabular Data and Metadata on the Web, section 6.4.4).
#[derive(Clone, Copy, Debug, PartialEq, Eq)]
pub enum MomentFormat {
    /// `yyyy-MM-ddTHH:mm:ss`.
    Seconds,
    /// `yyyy-MM-ddTHH:mm`. The seconds are 0.
    Minutes,
    /// A date, one space and a time of day, as in `dd/MM/yyyy HH:mm`.
    Spaced(DateFormat, TimeFormat),
}

/// The number of bytes of a date in the format `yyyy-MM-dd`.
const DATE_LEN: usize = 10;

/// Returns the moment that a text writes, in seconds since 1 January 1970. Each day has 86,400 seconds.
///
/// Returns `None` if the text isn't in the format, or if its day isn't one of the years 0001 to 9999.
pub fn read_moment(format: MomentFormat, text: &str) -> Option<i64>
    ensures { MatchOption result ((moment : ℤ) → ReadsMoment format text.now moment → ⊥) (ReadsMoment format text.now) }
{
    match format {
        MomentFormat::Seconds => moment_at(MomentFormat::Seconds, text.as_bytes()),
        MomentFormat::Minutes => moment_at(MomentFormat::Minutes, text.as_bytes()),
        MomentFormat::Spaced(date, time) => read_spaced(date, time, text),
    }
}

/// Returns the moment that bytes with a `T` write, as `read_moment` does. Returns `None` for a format with a space.
pub(crate) fn moment_at(format: MomentFormat, bytes: &[u8]) -> Option<i64>
    ensures { MatchOption result ((moment : ℤ) → ReadsJoined format bytes.now moment → ⊥) (ReadsJoined format bytes.now) }
{
    if bytes.len() < DATE_LEN {
        return None;
    }
    let (date, time) = bytes.split_at(DATE_LEN);
    let day = read_day(DateFormat::YearFirst, date)?;
    let second = read_time(format, time)?;
    Some(moment_of(day, second))
}

pub(crate) fn moment_of(day: i32, second: u32) -> i64
    ensures { result ≡ (day *ℤ pos 86_400) +ℤ pos second }
{
    day as i64 * 86_400 + second as i64
}

fn read_time(format: MomentFormat, bytes: &[u8]) -> Option<u32>
    ensures { MatchOption result ((second : ℕ) → ReadsTime format bytes.now second → ⊥) (ReadsTime format bytes.now) }
{
    let (hour, minute, second) = fields(format, bytes)?;
    second_of_day(hour, minute, second)
}

pub(crate) fn second_of_day(hour: u8, minute: u8, second: u8) -> Option<u32>
    ensures { MatchOption result (¬ IsTimeOfDay hour minute second)
        (λ n. IsTimeOfDay hour minute second × (n ≡ hour * 3600 + minute * 60 + second)) }
{
    if hour < 24 && minute < 60 && second < 60 {
        Some(hour as u32 * 3600 + minute as u32 * 60 + second as u32)
    } else {
        None
    }
}

#[tactic(auto, unfolding(crate::specs::TimeFields::time_fields))]
fn fields(format: MomentFormat, bytes: &[u8]) -> Option<(u8, u8, u8)>
    ensures { result ≡ time_fields format bytes.now }
{
    let (hour, rest) = two(past(bytes, b'T')?)?;
    let (minute, rest) = two(past(rest, b':')?)?;
    let second = last_field(format, rest)?;
    Some((hour, minute, second))
}

fn last_field(format: MomentFormat, bytes: &[u8]) -> Option<u8>
    ensures { result ≡ second_field format bytes.now }
{
    match format {
        MomentFormat::Seconds => {
            let (second, rest) = two(past(bytes, b':')?)?;
            ended(rest)?;
            Some(second)
        }
        MomentFormat::Minutes => {
            ended(bytes)?;
            Some(0)
        }
        MomentFormat::Spaced(..) => None,
    }
}

ghost use Rattle.std.specs.Prelude.{List};
ghost use Rattle.csvw_datatype_core.specs.LexicalDates.{IsMomentNumber};

/// A law: a text is one moment at most, and that moment is in the years 0001 to 9999.
pub fn one_moment()
    ensures same { (f : MomentFormat) (text : List ℕ) (a b : ℤ) → ReadsMoment f text a → ReadsMoment f text b → a ≡ b }
    ensures in_range { (f : MomentFormat) (text : List ℕ) (moment : ℤ)
        → ReadsMoment f text moment → IsMomentNumber moment }
{}
