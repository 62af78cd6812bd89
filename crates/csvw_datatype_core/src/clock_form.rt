//! The one text of a time of day.
ghost use Rattle.std.specs.Prelude.{◌≡◌, ◌<◌, ◌/◌, ◌++◌, IfOk, IfSome, OnOk};
ghost use Rattle.std.specs.Str.{IsAscii};
ghost use Rattle.csvw_datatype_core.specs.Clocks.{clock_in, clock_text, zoned_hour, zoned_minutes, zoned_second, zoned_text};
ghost use Rattle.csvw_datatype_core.specs.DateTimes.{IsOffset, fraction_text};

use crate::ascii::push_ascii;
use crate::date_time::push_fraction;
use crate::offset::push_offset;
use crate::time::clock;
use csvw_text::Text;
use std::alloc::{AllocError, Global};

/// What a text of a time of day writes.
#[derive(Clone, Copy)]
pub(crate) struct ClockParts<'a> {
    /// The second of its day, without the zone.
    pub(crate) second: u32,
    /// The digits of the parts of the second. The last one is not 0.
    pub(crate) digits: &'a [u8],
    /// How many minutes the zone is ahead of `Z`, if there is a zone.
    pub(crate) minutes: Option<i32>,
}

/// The seconds of 14 hours: no zone is further ahead of `Z`, or behind it.
const MOST_OFFSET: i32 = 50_400;

/// Returns the second in the zone `Z`, counted from 14 hours before the day.
fn zoned_second(second: u32, minutes: i32) -> u32
    requires second { second < 86_400 }
    requires minutes { IsOffset minutes }
    ensures second { result ≡ zoned_second second minutes }
    ensures limit { result < 187_200 }
{
    (second as i32 + minutes * -60 + MOST_OFFSET) as u32
}

/// Returns the hour of the day that is written, of an hour that is counted from 14 hours before the day.
fn zoned_hour(hours: u32) -> u8
    ensures hour { result ≡ zoned_hour hours }
    ensures limit { result < 24 }
{
    if hours < 14 {
        0
    } else if hours < 38 {
        (hours - 14) as u8
    } else {
        23
    }
}

/// Returns how many minutes the zone that is written is ahead of `Z`, of an hour that is counted from 14 hours before the day.
fn zoned_minutes(hours: u32) -> i32
    requires { hours < 52 }
    ensures minutes { result ≡ zoned_minutes hours }
    ensures range { IsOffset result }
{
    if hours < 14 {
        (14 - hours as i32) * 60
    } else if hours < 38 {
        0
    } else {
        (hours as i32 - 37) * -60
    }
}

/// Appends an hour, and the minute and the second that a number of seconds has.
fn push_clock(out: &mut Text, hour: u8, second: u32) -> Result<(), AllocError>
    requires { hour < 24 }
    ensures { OnOk result (out.new ≡ out.old ++ clock_in hour second) }
{
    push_ascii(
        out,
        &clock(hour, (second / 60 % 60) as u8, (second % 60) as u8),
    )
}

/// Appends a time of day in a zone, whose second is counted from 14 hours before the day.
fn push_zoned(out: &mut Text, second: u32, digits: &[u8]) -> Result<(), AllocError>
    requires second { second < 187_200 }
    requires ascii { IsAscii digits.now }
    ensures { OnOk result (out.new ≡ out.old ++ zoned_text second digits.now) }
{
    push_clock(out, zoned_hour(second / 3600), second)?;
    push_fraction(out, digits)?;
    push_offset(out, zoned_minutes(second / 3600))
}

/// Appends a time of day without a zone.
fn push_local(out: &mut Text, second: u32, digits: &[u8]) -> Result<(), AllocError>
    requires second { second < 86_400 }
    requires ascii { IsAscii digits.now }
    ensures { OnOk result (out.new ≡ out.old ++ (clock_in (second / 3600) second ++ fraction_text digits.now)) }
{
    push_clock(out, (second / 3600) as u8, second)?;
    push_fraction(out, digits)
}

/// Returns the one text of a time of day. Returns `AllocError` if memory runs out.
pub(crate) fn written(alloc: Global, parts: ClockParts<'_>) -> Result<Text, AllocError>
    requires second { parts.second < 86_400 }
    requires minutes { IfSome parts.minutes IsOffset }
    requires ascii { IsAscii parts.digits.now }
    ensures { IfOk result (λ t. t ≡ clock_text parts.entry.second parts.entry.digits.now parts.entry.minutes) }
{
    let mut out = Text::new(alloc);
    match parts.minutes {
        Some(minutes) => push_zoned(&mut out, zoned_second(parts.second, minutes), parts.digits)?,
        None => push_local(&mut out, parts.second, parts.digits)?,
    }
    Ok(out)
}
