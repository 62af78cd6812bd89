//! How a text writes a moment that may have a zone and parts of a second.
ghost use Rattle.std.specs.Prelude.{◌≡◌, ◌≤◌, ◌+◌, ◌*◌, ◌<◌, ◌++◌, ◌+ℤ◌, ◌*ℤ◌, pos, neg_ℤ, IfOk, IfSome, OnOk, Some, is_some, List, ℕ, ℤ, take};
ghost use Rattle.std.specs.Str.{IsAscii};
ghost use Rattle.csvw_datatype_core.specs.declared.moment.MomentFormat.TheVariants.{Seconds};
ghost use Rattle.csvw_datatype_core.specs.declared.date_time.DateTime.TheVariants as values;
ghost use Rattle.csvw_datatype_core.specs.declared.date_time.Zone.TheVariants as zones;
ghost use Rattle.csvw_datatype_core.specs.Fields.{option_view};
ghost use Rattle.csvw_datatype_core.specs.Forms.{moment_form};
ghost use Rattle.csvw_datatype_core.specs.LexicalDates.{IsMomentNumber};
ghost use Rattle.csvw_datatype_core.specs.Values.{moment_value};
ghost use Rattle.csvw_datatype_core.specs.DateParts.{offset_fields};
ghost use Rattle.csvw_datatype_core.specs.DateTimes.{IsOffset, digits_at, fraction_at, trimmed, minutes_of, zone_at, is_moment_number, fraction_text, written, in_utc, local, placed, parts_of, date_time_value};

use crate::ascii::push_ascii;
use crate::date_part::{digit_count, is_offset, offset_fields};
use crate::lexical_date::refill_moment;
use crate::moment::{MomentFormat, moment_at};
use csvw_text::Text;
use std::alloc::{AllocError, Global};

/// Whether a text that writes a moment has to have a zone.
#[derive(Clone, Copy, Debug, PartialEq, Eq)]
pub enum Zone {
    /// It may have one, as texts of `dateTime` (XML Schema 1.1 part 2, section 3.3.7).
    Optional,
    /// It has one, as texts of `dateTimeStamp` (XML Schema 1.1 part 2, section 3.4.28).
    Required,
}

/// A moment that may have a zone and parts of a second.
#[derive(Drop)]
pub enum DateTime {
    /// A whole second without a zone, in seconds since 1 January 1970. Each day has 86,400 seconds.
    Second(i64),
    /// The one text of a moment that has a zone, or parts of a second. The zone is `Z`, and the last digit of the parts is not 0.
    Written(Text),
}

/// The number of bytes of a date and a time of day in the format `yyyy-MM-ddTHH:mm:ss`.
const SECOND_LEN: usize = 19;

/// The first and the last second of the years 0001 to 9999, in seconds since 1 January 1970.
const FIRST_SECOND: i64 = -62_135_596_800;

const LAST_SECOND: i64 = 253_402_300_799;

/// Splits a text after the digits that it begins with. Returns `None` if it begins with none.
fn digits_at(bytes: &[u8]) -> Option<(&[u8], &[u8])>
    ensures split { option_view (λ x. (x.0.now, x.1.now)) result ≡ digits_at bytes.now }
    ensures ascii { IfSome result (λ x. IsAscii x.0.now) }
{
    let count = digit_count(bytes);
    if count == 0 {
        None
    } else {
        Some(bytes.split_at(count))
    }
}

/// Returns the digits after a point, and the text after them. Without a point there is no digit.
pub(crate) fn fraction_at(bytes: &[u8]) -> Option<(&[u8], &[u8])>
    ensures split { option_view (λ x. (x.0.now, x.1.now)) result ≡ fraction_at bytes.now }
    ensures ascii { IfSome result (λ x. IsAscii x.0.now) }
{
    match bytes {
        [b'.', rest @ ..] => digits_at(rest),
        _ => Some((&[], bytes)),
    }
}

/// Returns digits without the zeros at their end.
pub(crate) fn trimmed(digits: &[u8]) -> &[u8]
    ensures digits { result.now ≡ trimmed digits.now }
    ensures ascii { IsAscii digits.now → IsAscii result.now }
{
    let mut kept = digits;
    loop {
        match kept.split_last() {
            Some((last, rest)) if *last == b'0' => kept = rest,
            _ => return kept,
        }
    }
}

/// Returns the minutes of an offset, after its sign.
fn minutes_at(bytes: &[u8]) -> Option<u16>
    ensures minutes { result ≡ minutes_of (offset_fields bytes.now) }
    ensures limit { IfSome result (λ n. n ≤ 840) }
{
    let (hours, minutes) = offset_fields(bytes)?;
    if is_offset(hours, minutes) {
        Some(hours as u16 * 60 + minutes as u16)
    } else {
        None
    }
}

/// Returns how many minutes a zone is ahead of `Z`, or `Some(None)` if there is no zone. Returns `None` if the text isn't a zone.
pub(crate) fn zone_at(bytes: &[u8]) -> Option<Option<i32>>
    ensures zone { result ≡ zone_at bytes.now }
    ensures range { IfSome result (λ o. IfSome o IsOffset) }
{
    match bytes {
        [] => Some(None),
        [b'Z', rest @ ..] if rest.is_empty() => Some(Some(0)),
        [b'+', rest @ ..] => {
            let minutes = minutes_at(rest)?;
            Some(Some(minutes as i32))
        }
        [b'-', rest @ ..] => {
            let minutes = minutes_at(rest)?;
            Some(Some(-(minutes as i32)))
        }
        _ => None,
    }
}

fn is_moment_number(moment: i64) -> bool
    ensures { result ≡ is_moment_number moment }
{
    FIRST_SECOND <= moment && moment <= LAST_SECOND
}

/// Adds a point and digits, or nothing if there is no digit.
pub(crate) fn push_fraction(out: &mut Text, digits: &[u8]) -> Result<(), AllocError>
    requires { IsAscii digits.now }
    ensures { OnOk result (out.new ≡ out.old ++ fraction_text digits.now) }
{
    if digits.is_empty() {
        return Ok(());
    }
    out.push_str(".")?;
    push_ascii(out, digits)
}

/// Returns the text of a moment with parts of a second and an ending.
fn written(alloc: Global, moment: i64, digits: &[u8], ending: &str) -> Result<DateTime, AllocError>
    requires moment { IsMomentNumber moment }
    requires ascii { IsAscii digits.now }
    ensures { IfOk result (λ v. v ≡ written moment digits.now ending.now) }
{
    let mut out = Text::new(alloc);
    refill_moment(&mut out, moment)?;
    push_fraction(&mut out, digits)?;
    out.push_str(ending)?;
    Ok(DateTime::Written(out))
}

fn in_utc(alloc: Global, moment: i64, digits: &[u8]) -> Result<Option<DateTime>, AllocError>
    requires { IsAscii digits.now }
    ensures { IfOk result (λ o. o ≡ in_utc moment digits.now) }
{
    if is_moment_number(moment) {
        Ok(Some(written(alloc, moment, digits, "Z")?))
    } else {
        Ok(None)
    }
}

fn local(alloc: Global, moment: i64, digits: &[u8]) -> Result<DateTime, AllocError>
    requires moment { IsMomentNumber moment }
    requires ascii { IsAscii digits.now }
    ensures { IfOk result (λ v. v ≡ local moment digits.now) }
{
    if digits.is_empty() {
        Ok(DateTime::Second(moment))
    } else {
        written(alloc, moment, digits, "")
    }
}

/// What a text of a moment writes.
#[derive(Clone, Copy)]
pub(crate) struct Parts<'a> {
    /// The second without the zone.
    pub(crate) moment: i64,
    /// The digits of the parts of the second. The last one is not 0.
    pub(crate) digits: &'a [u8],
    /// How many minutes the zone is ahead of `Z`, if there is a zone.
    pub(crate) minutes: Option<i32>,
}

#[tactic(auto, unfolding(crate::specs::DateTimes::parts_of))]
pub(crate) fn parts_of(bytes: &[u8]) -> Option<Parts<'_>>
    ensures parts { option_view (λ p. (p.moment, p.digits.now, p.minutes)) result ≡ parts_of bytes.now }
    ensures moment { IfSome result (λ p. IsMomentNumber p.moment) }
    ensures ascii { IfSome result (λ p. IsAscii p.digits.now) }
{
    let (second, rest) = bytes.split_at(bytes.len().min(SECOND_LEN));
    let moment = second_at(second)?;
    let (digits, rest) = fraction_at(rest)?;
    let minutes = zone_at(rest)?;
    Some(Parts {
        moment,
        digits: trimmed(digits),
        minutes,
    })
}

fn second_at(bytes: &[u8]) -> Option<i64>
    ensures value { result ≡ moment_value Seconds bytes.now }
    ensures range { IfSome result IsMomentNumber }
{
    moment_at(MomentFormat::Seconds, bytes)
}

pub(crate) fn placed(
    alloc: Global,
    zone: Zone,
    parts: Parts<'_>,
) -> Result<Option<DateTime>, AllocError>
    requires moment { IsMomentNumber parts.moment }
    requires ascii { IsAscii parts.digits.now }
    ensures { IfOk result (λ o. o ≡ placed zone parts.entry.moment parts.entry.digits.now parts.entry.minutes) }
{
    match (zone, parts.minutes) {
        (_, Some(minutes)) => in_utc(alloc, utc_second(parts.moment, minutes), parts.digits),
        (Zone::Optional, None) => Ok(Some(local(alloc, parts.moment, parts.digits)?)),
        (Zone::Required, None) => Ok(None),
    }
}

/// Returns the moment that a text writes, with its zone and its parts of a second.
///
/// Returns `None` if the text isn't written as a moment, if it lacks a zone that has to be there, or if its moment in the zone
/// `Z` isn't in the years 0001 to 9999. Returns `AllocError` if memory runs out.
pub fn read_date_time(alloc: Global, zone: Zone, text: &str) -> Result<Option<DateTime>, AllocError>
    ensures { IfOk result (λ o. o ≡ date_time_value zone text.now) }
{
    match parts_of(text.as_bytes()) {
        Some(parts) => placed(alloc, zone, parts),
        None => Ok(None),
    }
}

/// Returns whether a moment in the zone `Z` is in the years 0001 to 9999.
#[tactic(auto, using(crate::proofs::OneDateTime::utc_some))]
fn is_in_utc(moment: i64, digits: &[u8]) -> bool
    ensures { result ≡ is_some (in_utc moment digits.now) }
{
    is_moment_number(moment)
}

/// Returns the second in the zone `Z` of a second in a zone that is so many minutes ahead of it.
fn utc_second(moment: i64, minutes: i32) -> i64
    requires { IsMomentNumber moment }
    ensures { result ≡ moment +ℤ (minutes *ℤ neg_ℤ (pos 60)) }
{
    moment + minutes as i64 * -60
}

fn is_placed(zone: Zone, parts: Parts<'_>) -> bool
    requires { IsMomentNumber parts.moment }
    ensures { result ≡ is_some (placed zone parts.entry.moment parts.entry.digits.now parts.entry.minutes) }
{
    match parts.minutes {
        Some(minutes) => is_in_utc(utc_second(parts.moment, minutes), parts.digits),
        None => matches!(zone, Zone::Optional),
    }
}

/// Returns whether a text writes a moment. It takes no memory.
pub fn is_date_time(zone: Zone, text: &str) -> bool
    ensures { result ≡ is_some (date_time_value zone text.now) }
{
    match parts_of(text.as_bytes()) {
        Some(parts) => is_placed(zone, parts),
        None => false,
    }
}

/// A law: the text of a moment is itself written as a moment, and is its own text.
pub fn one_date_time_text()
    ensures { (zone : Zone) (text form : List ℕ) → date_time_value zone text ≡ Some (values.Written form)
        → date_time_value zone form ≡ Some (values.Written form) }
{}

/// A law: a whole second without a zone is in the years 0001 to 9999. A text that has to have a zone is none.
pub fn date_times()
    ensures in_range { (zone : Zone) (text : List ℕ) (moment : ℤ) → date_time_value zone text ≡ Some (values.Second moment) → IsMomentNumber moment }
    ensures zone { (text : List ℕ) (moment : ℤ) → date_time_value zones.Required text ≡ Some (values.Second moment) → ⊥ }
{}
