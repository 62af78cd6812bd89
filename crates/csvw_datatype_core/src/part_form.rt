//! The one text of a year, a month or a day alone.
ghost use Rattle.std.specs.Prelude.{◌≡◌, ◌↔◌, ◌<◌, ◌++◌, IfOk, IfSome, OnOk, List, ℕ, Some, ◌+◌, pos, neg_ℤ, ◌+ℤ◌, ◌*ℤ◌, ◌≤ℤ◌};
ghost use Rattle.csvw_datatype_core.specs.declared.date_part.DatePart.TheVariants as parts;
ghost use Rattle.csvw_datatype_core.specs.DateParts.{plain_form};
ghost use Rattle.csvw_datatype_core.specs.DateTimes.{IsOffset};
ghost use Rattle.csvw_datatype_core.specs.LexicalDates.{two_digits};
ghost use Rattle.csvw_datatype_core.specs.PartForms.{day_before, day_after, moved, shifted, days_before, start_of_day, day_start};
ghost use Rattle.csvw_datatype_core.specs.PartForms.{zone_text, month_text, day_text, day_form, date_part_form};

use crate::ascii::push_ascii;
use crate::date_part::{DatePart, days_of, is_date_part, plain};
use crate::fields::part_fields;
use crate::instant::{Instant, InstantKind};
use crate::offset::push_offset;
use csvw_text::Text;
use std::alloc::{AllocError, Global};

/// The greatest and the least offset of the one text of a day, +12:00 and -11:59, in minutes.
const MOST_OFFSET: i32 = 720;

const LEAST_OFFSET: i32 = -719;

/// The minutes of a day.
const DAY_MINUTES: i32 = 1440;

/// Returns the month and the day before a day, if it is in the same year or, without a month, in the same month.
fn day_before(month: u8, day: u8) -> Option<(u8, u8)>
    ensures { result ≡ day_before month day }
{
    if 1 < day {
        Some((month, day - 1))
    } else if 1 < month {
        Some((month - 1, days_of(month - 1)))
    } else {
        None
    }
}

/// Returns the month and the day after a day, if it is in the same year or, without a month, in the same month.
fn day_after(month: u8, day: u8) -> Option<(u8, u8)>
    ensures { result ≡ day_after month day }
{
    if day < days_of(month) {
        Some((month, day + 1))
    } else if 0 < month && month < 12 {
        Some((month + 1, 1))
    } else {
        None
    }
}

fn moved(own: (u8, u8, i32), other: i32, day: Option<(u8, u8)>) -> (u8, u8, Option<i32>)
    ensures { result ≡ moved own other day }
{
    match day {
        Some((month, day)) => (month, day, Some(other)),
        None => (own.0, own.1, Some(own.2)),
    }
}

/// Returns the day that begins at the same time with an offset from -11:59 to +12:00, if there is one.
fn shifted(month: u8, day: u8, zone: Option<i32>) -> (u8, u8, Option<i32>)
    ensures { result ≡ shifted month day zone }
{
    let Some(minutes) = zone else {
        return (month, day, None);
    };
    let own = (month, day, minutes);
    if minutes > MOST_OFFSET {
        moved(own, minutes - DAY_MINUTES, day_before(month, day))
    } else if minutes < LEAST_OFFSET {
        moved(own, minutes + DAY_MINUTES, day_after(month, day))
    } else {
        (month, day, Some(minutes))
    }
}

fn push_two(out: &mut Text, number: u8) -> Result<(), AllocError>
    requires { number < 100 }
    ensures { OnOk result (out.new ≡ out.old ++ two_digits number) }
{
    push_ascii(out, &[48 + number / 10, 48 + number % 10])
}

fn push_zone(out: &mut Text, zone: Option<i32>) -> Result<(), AllocError>
    requires { IfSome zone IsOffset }
    ensures { OnOk result (out.new ≡ out.old ++ zone_text zone) }
{
    match zone {
        None => Ok(()),
        Some(minutes) => push_offset(out, minutes),
    }
}

fn push_month(out: &mut Text, month: u8) -> Result<(), AllocError>
    requires { month < 100 }
    ensures { OnOk result (out.new ≡ out.old ++ month_text month) }
{
    if month == 0 {
        Ok(())
    } else {
        push_two(out, month)
    }
}

fn day_text(alloc: Global, month: u8, day: u8, zone: Option<i32>) -> Result<Text, AllocError>
    requires month { month < 100 }
    requires day { day < 100 }
    requires zone { IfSome zone IsOffset }
    ensures { IfOk result (λ t. t ≡ day_text (month, day, zone)) }
{
    let mut form = Text::new(alloc);
    form.push_str("--")?;
    push_month(&mut form, month)?;
    form.push_str("-")?;
    push_two(&mut form, day)?;
    push_zone(&mut form, zone)?;
    Ok(form)
}

fn day_form(alloc: Global, part: DatePart, text: &str) -> Result<Option<Text>, AllocError>
    ensures { IfOk result (λ o. o ≡ day_form part text.now) }
{
    let Some(fields) = part_fields(part, text) else {
        return Ok(None);
    };
    let (month, day, zone) = shifted(fields.month, fields.day, fields.zone);
    Ok(Some(day_text(alloc, month, day, zone)?))
}

fn plain_form(alloc: Global, part: DatePart, text: &str) -> Result<Option<Text>, AllocError>
    ensures { IfOk result (λ o. o ≡ plain_form part text.now) }
{
    if is_date_part(part, text) {
        Ok(Some(plain(alloc, text)?))
    } else {
        Ok(None)
    }
}

/// Returns the one text of the part of a date that a text writes: the offset 0 is `Z`, and the year 0 is `0000`. A day has an offset
/// from -11:59 to +12:00, if a day of the same year 1972 or, without a month, of the same month begins at the same time: the text
/// of `--03-01+13:00` is `--02-29-11:00`.
///
/// Returns `None` if the text isn't written as the part of a date is, and `AllocError` if memory runs out.
pub fn date_part_text(alloc: Global, part: DatePart, text: &str) -> Result<Option<Text>, AllocError>
    ensures { IfOk result (λ o. o ≡ date_part_form part text.now) }
{
    match part {
        DatePart::Year | DatePart::YearMonth | DatePart::Month => plain_form(alloc, part, text),
        DatePart::MonthDay | DatePart::Day => day_form(alloc, part, text),
    }
}

/// Returns how many days of the year 1972 are before a month, or 0 for the month 0.
fn days_before(month: u8) -> u16
    ensures { result ≡ days_before month }
{
    match month {
        0 | 1 => 0,
        2 => 31,
        3 => 60,
        4 => 91,
        5 => 121,
        6 => 152,
        7 => 182,
        8 => 213,
        9 => 244,
        10 => 274,
        11 => 305,
        _ => 335,
    }
}

/// Returns the second at which a day begins without a zone.
fn local_second(month: u8, day: u8) -> i64
    ensures value { result ≡ pos (days_before month + day) *ℤ pos 86_400 }
    ensures least { pos 0 ≤ℤ result }
    ensures most { result ≤ℤ pos 100_000_000 }
{
    (days_before(month) + day as u16) as i64 * 86_400
}

/// Returns a second in the zone `Z` that is in a zone so many minutes ahead of it.
fn utc_second(local: i64, minutes: i32) -> i64
    requires least { pos 0 ≤ℤ local }
    requires most { local ≤ℤ pos 100_000_000 }
    ensures { result ≡ local +ℤ (minutes *ℤ neg_ℤ (pos 60)) }
{
    local + minutes as i64 * -60
}

/// Returns the moment at which a day begins (XML Schema 1.1 part 2, appendix E.3), in seconds from the day before the first one
/// of its year 1972 or, if the month is 0, of its month. The zone is in minutes ahead of `Z`.
pub fn start_of_day(month: u8, day: u8, zone: Option<i32>) -> Instant<'static>
    ensures { (result.second, result.digits.now, result.kind) ≡ start_of_day month day zone }
{
    let local = local_second(month, day);
    match zone {
        Some(minutes) => Instant {
            second: utc_second(local, minutes),
            digits: &[],
            kind: InstantKind::Zoned,
        },
        None => Instant::local(local),
    }
}

/// A law: the text of a part of a date is itself written as one, and is its own text.
pub fn one_date_part_text()
    ensures { (part : DatePart) (text form : List ℕ) → date_part_form part text ≡ Some form → date_part_form part form ≡ Some form }
{}

/// A law: texts of `gMonthDay`, or of `gDay`, have the same one text exactly if their days begin at the same time.
pub fn days_at_one_time()
    ensures month_day { (s t : List ℕ) → (date_part_form parts.MonthDay s ≡ date_part_form parts.MonthDay t)
        ↔ (day_start parts.MonthDay s ≡ day_start parts.MonthDay t) }
    ensures day { (s t : List ℕ) → (date_part_form parts.Day s ≡ date_part_form parts.Day t)
        ↔ (day_start parts.Day s ≡ day_start parts.Day t) }
{}
