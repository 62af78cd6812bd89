//! How a text writes a moment in a format with parts of a second or a zone.
ghost use Rattle.std.specs.Prelude.{◌≡◌, ◌↔◌, ◌≤◌, IfOk, IfSome, List, ℕ, ℤ, Option, Some, None};
ghost use Rattle.std.specs.Str.{IsAscii};
ghost use Rattle.csvw_datatype_core.specs.declared.date_time.DateTime.TheVariants as values;
ghost use Rattle.csvw_datatype_core.specs.declared.date_time.Zone.TheVariants as zones;
ghost use Rattle.csvw_datatype_core.specs.declared.moment.MomentFormat.TheVariants.{Spaced};
ghost use Rattle.csvw_datatype_core.specs.DateTimes.{IsOffset, date_time_value, minutes_of};
ghost use Rattle.csvw_datatype_core.specs.Fields.{option_view};
ghost use Rattle.csvw_datatype_core.specs.LexicalDates.{IsMomentNumber};
ghost use Rattle.csvw_datatype_core.specs.Stamps.{time_len, joined_in, moment_at, fraction_within, offset_minutes, offset_digits, utc_at, offset_at, after_gap, ending_at, stamp_parts, stamp_value};
ghost use Rattle.csvw_datatype_core.specs.Stamps.{written_instant, written_value};
ghost use Rattle.csvw_datatype_core.specs.Values.{joined_value, time_value};

use crate::date::{DateFormat, past, two};
use crate::date_part::is_offset;
use crate::date_time::{DateTime, Parts, Zone, fraction_at, placed, trimmed};
use crate::fields::no_zone;
use crate::moment;
use crate::moment::{MomentFormat, moment_of};
use crate::spaced_moment::{at_space, date_value};
use crate::stamp_format::{OffsetForm, StampFormat, UtcMark, ZoneFormat, ZoneGap};
use crate::time::{TimeFormat, last_two, second_at};
use std::alloc::{AllocError, Global};

/// The number of bytes of a moment in the format `yyyy-MM-ddTHH:mm:ss`.
const SECONDS_LEN: usize = 19;

/// The number of bytes of a moment in the format `yyyy-MM-ddTHH:mm`.
const MINUTES_LEN: usize = 16;

/// Returns the number of bytes of a time of day.
pub(crate) fn time_len(format: TimeFormat) -> usize
    ensures { result ≡ time_len format }
{
    match format {
        TimeFormat::Seconds => 8,
        TimeFormat::CompactSeconds => 6,
        TimeFormat::Minutes => 5,
        TimeFormat::CompactMinutes => 4,
    }
}

fn joined_value(format: MomentFormat, bytes: &[u8]) -> Option<i64>
    ensures { result ≡ joined_value format bytes.now }
{
    moment::moment_at(format, bytes)
}

/// Reads the moment that the first bytes are. Returns `None` for a format with a space.
fn joined_at(format: MomentFormat, len: usize, bytes: &[u8]) -> Option<(i64, &[u8])>
    ensures { option_view (λ x. (x.0, x.1.now)) result ≡ joined_in format len bytes.now }
{
    let (front, rest) = bytes.split_at(bytes.len().min(len));
    let moment = joined_value(format, front)?;
    Some((moment, rest))
}

/// Reads the date before the first space, and the time of day after it.
fn spaced_at(date: DateFormat, time: TimeFormat, text: &str) -> Option<(i64, &[u8])>
    ensures { option_view (λ x. (x.0, x.1.now)) result ≡ moment_at (Spaced date time) text.now }
{
    let (before, after) = at_space(text)?;
    let bytes = after.as_bytes();
    let (clock, rest) = bytes.split_at(bytes.len().min(time_len(time)));
    let day = date_value(date, before)?;
    let second = second_at(time, clock)?;
    Some((moment_of(day, second), rest))
}

/// Returns the moment that a text begins with, and the text after it.
fn moment_at(format: MomentFormat, text: &str) -> Option<(i64, &[u8])>
    ensures { option_view (λ x. (x.0, x.1.now)) result ≡ moment_at format text.now }
{
    match format {
        MomentFormat::Seconds => joined_at(MomentFormat::Seconds, SECONDS_LEN, text.as_bytes()),
        MomentFormat::Minutes => joined_at(MomentFormat::Minutes, MINUTES_LEN, text.as_bytes()),
        MomentFormat::Spaced(date, time) => spaced_at(date, time, text),
    }
}

/// Returns the digits after a point, if they are so many at most, and the text after them. Without a point there is no digit.
pub(crate) fn fraction_within(most: u8, bytes: &[u8]) -> Option<(&[u8], &[u8])>
    ensures split { option_view (λ x. (x.0.now, x.1.now)) result ≡ fraction_within most bytes.now }
    ensures ascii { IfSome result (λ x. IsAscii x.0.now) }
{
    let (digits, rest) = fraction_at(bytes)?;
    if digits.len() <= most as usize {
        Some((digits, rest))
    } else {
        None
    }
}

fn offset_minutes(form: OffsetForm, bytes: &[u8]) -> Option<u8>
    ensures { result ≡ offset_minutes form bytes.now }
{
    match form {
        OffsetForm::Short if bytes.is_empty() => Some(0),
        OffsetForm::Short | OffsetForm::Basic => last_two(bytes),
        OffsetForm::Extended => last_two(past(bytes, b':')?),
    }
}

#[tactic(auto, unfolding(crate::specs::Stamps::offset_digits))]
fn offset_digits(form: OffsetForm, bytes: &[u8]) -> Option<(u8, u8)>
    ensures { result ≡ offset_digits form bytes.now }
{
    let (hours, rest) = two(bytes)?;
    let minutes = offset_minutes(form, rest)?;
    Some((hours, minutes))
}

/// Returns the minutes of an offset, after its sign.
fn minutes_after_sign(form: OffsetForm, bytes: &[u8]) -> Option<u16>
    ensures minutes { result ≡ minutes_of (offset_digits form bytes.now) }
    ensures limit { IfSome result (λ n. n ≤ 840) }
{
    let (hours, minutes) = offset_digits(form, bytes)?;
    if is_offset(hours, minutes) {
        Some(hours as u16 * 60 + minutes as u16)
    } else {
        None
    }
}

fn utc_at(utc: UtcMark, bytes: &[u8]) -> Option<Option<i32>>
    ensures zone { result ≡ utc_at utc bytes.now }
    ensures range { IfSome result (λ o. IfSome o IsOffset) }
{
    match utc {
        UtcMark::Allowed if bytes.is_empty() => Some(Some(0)),
        UtcMark::Allowed | UtcMark::Digits => None,
    }
}

/// Returns how many minutes an offset is ahead of `Z`. Returns `None` if the text isn't an offset in the format.
fn offset_at(zone: ZoneFormat, bytes: &[u8]) -> Option<Option<i32>>
    ensures zone { result ≡ offset_at zone bytes.now }
    ensures range { IfSome result (λ o. IfSome o IsOffset) }
{
    match bytes {
        [b'Z', rest @ ..] => utc_at(zone.utc, rest),
        [b'+', rest @ ..] => {
            let minutes = minutes_after_sign(zone.form, rest)?;
            Some(Some(minutes as i32))
        }
        [b'-', rest @ ..] => {
            let minutes = minutes_after_sign(zone.form, rest)?;
            Some(Some(-(minutes as i32)))
        }
        _ => None,
    }
}

fn after_gap(gap: ZoneGap, bytes: &[u8]) -> Option<&[u8]>
    ensures { option_view (λ rest. rest.now) result ≡ after_gap gap bytes.now }
{
    match gap {
        ZoneGap::None => Some(bytes),
        ZoneGap::Space => past(bytes, b' '),
    }
}

/// Returns how many minutes the zone at the end of a text is ahead of `Z`, or `Some(None)` if the format has no zone.
pub(crate) fn ending_at(zone: Option<ZoneFormat>, bytes: &[u8]) -> Option<Option<i32>>
    ensures zone { result ≡ ending_at zone bytes.now }
    ensures range { IfSome result (λ o. IfSome o IsOffset) }
{
    match zone {
        Some(zone) => offset_at(zone, after_gap(zone.gap, bytes)?),
        None => no_zone(bytes),
    }
}

#[tactic(auto, unfolding(crate::specs::Stamps::stamp_parts))]
fn stamp_parts(format: StampFormat, text: &str) -> Option<Parts<'_>>
    ensures parts { option_view (λ p. (p.moment, p.digits.now, p.minutes)) result ≡ stamp_parts format text.now }
    ensures moment { IfSome result (λ p. IsMomentNumber p.moment) }
    ensures ascii { IfSome result (λ p. IsAscii p.digits.now) }
{
    let (moment, rest) = moment_at(format.moment, text)?;
    let (digits, rest) = fraction_within(format.digits, rest)?;
    let minutes = ending_at(format.zone, rest)?;
    Some(Parts {
        moment,
        digits: trimmed(digits),
        minutes,
    })
}

/// Returns the moment that a text writes in a format (Model for Tabular Data and Metadata on the Web, section 6.4.4).
///
/// Returns `None` if the text isn't in the format, if it lacks a zone that has to be there, or if its moment in the zone `Z`
/// isn't in the years 0001 to 9999. Returns `AllocError` if memory runs out.
pub fn read_stamp(
    alloc: Global,
    format: StampFormat,
    zone: Zone,
    text: &str,
) -> Result<Option<DateTime>, AllocError>
    ensures { IfOk result (λ o. o ≡ stamp_value format zone text.now) }
{
    match stamp_parts(format, text) {
        Some(parts) => placed(alloc, zone, parts),
        None => Ok(None),
    }
}

/// A law: a whole second without a zone is in the years 0001 to 9999, and no `dateTimeStamp`. The text of another moment is its
/// own text without a format.
pub fn stamps()
    ensures in_range { (format : StampFormat) (zone : Zone) (text : List ℕ) (moment : ℤ)
        → stamp_value format zone text ≡ Some (values.Second moment) → IsMomentNumber moment }
    ensures zone { (format : StampFormat) (text : List ℕ) (moment : ℤ) → stamp_value format zones.Required text ≡ Some (values.Second moment) → ⊥ }
    ensures written { (format : StampFormat) (zone : Zone) (text form : List ℕ) → stamp_value format zone text ≡ Some (values.Written form)
        → date_time_value zone form ≡ Some (values.Written form) }
{}

/// A law: two texts of moments have the same value exactly if the moments are the same on the time line, in any formats.
pub fn moments_at_one_time()
    ensures without { (zone : Zone) (text : List ℕ) → written_value None zone text ≡ date_time_value zone text }
    ensures within { (format : StampFormat) (zone : Zone) (text : List ℕ) → written_value (Some format) zone text ≡ stamp_value format zone text }
    ensures same { (f g : Option StampFormat) (v w : Zone) (s t : List ℕ) (x y : DateTime) → written_value f v s ≡ Some x → written_value g w t ≡ Some y
        → (x ≡ y) ↔ (written_instant f s ≡ written_instant g t) }
{}
