//! How a text writes a year, a month or a day alone.
ghost use Rattle.std.specs.Prelude.{◌≡◌, ◌≤◌, ◌+◌, ◌*◌, true, IfOk, codes};
ghost use Rattle.csvw_datatype_core.specs.Fields.{option_view};
ghost use Rattle.csvw_datatype_core.specs.DateParts.{digit_count, after_minus, begins_with_zero, is_year, after_digits, after_year};
ghost use Rattle.csvw_datatype_core.specs.DateParts.{up_to, number_at, days_of, after_part, is_offset, offset_fields, are_offset, is_zone};
ghost use Rattle.csvw_datatype_core.specs.DateParts.{is_date_part, after_start, before_ending, either, plain_year, plain_zone, plain};
ghost use Rattle.csvw_datatype_core.specs.declared.date_part.DatePart.TheVariants as parts;

use crate::date::{ended, past, two};
use csvw_text::Text;
use std::alloc::{AllocError, Global};

/// A part of a date (XML Schema 1.1 part 2, sections 3.3.10 to 3.3.14).
#[derive(Clone, Copy, Debug, PartialEq, Eq)]
pub enum DatePart {
    /// `gYear`: a year, as `2015`. Each part may have a zone, as `2015Z`.
    Year,
    /// `gYearMonth`: a month of a year, as `2015-03`.
    YearMonth,
    /// `gMonth`: a month of each year, as `--03`.
    Month,
    /// `gMonthDay`: a day of each year, as `--03-22`.
    MonthDay,
    /// `gDay`: a day of each month, as `---22`.
    Day,
}

/// Returns how many digits a text begins with.
pub(crate) fn digit_count(bytes: &[u8]) -> usize
    ensures { result ≡ digit_count bytes.now }
{
    bytes.iter().take_while(|b| b.is_ascii_digit()).count()
}

fn after_minus(bytes: &[u8]) -> &[u8]
    ensures { result.now ≡ after_minus bytes.now }
{
    match bytes {
        [b'-', rest @ ..] => rest,
        _ => bytes,
    }
}

fn begins_with_zero(bytes: &[u8]) -> bool
    ensures { result ≡ begins_with_zero bytes.now }
{
    matches!(bytes, [b'0', ..])
}

fn is_year(bytes: &[u8], digits: usize) -> bool
    ensures { result ≡ is_year bytes.now digits }
{
    digits == 4 || (digits > 4 && !begins_with_zero(bytes))
}

fn after_digits(bytes: &[u8]) -> Option<&[u8]>
    ensures { option_view (λ rest. rest.now) result ≡ after_digits bytes.now }
{
    let digits = digit_count(bytes);
    if is_year(bytes, digits) {
        bytes.get(digits..)
    } else {
        None
    }
}

pub(crate) fn after_year(bytes: &[u8]) -> Option<&[u8]>
    ensures { option_view (λ rest. rest.now) result ≡ after_year bytes.now }
{
    after_digits(after_minus(bytes))
}

/// Reads two digits that are a number from 1 to the last one.
pub(crate) fn number(last: u8, bytes: &[u8]) -> Option<(u8, &[u8])>
    ensures { option_view (λ x. (x.0, x.1.now)) result ≡ number_at last bytes.now }
{
    let (number, rest) = two(bytes)?;
    if 0 < number && number <= last {
        Some((number, rest))
    } else {
        None
    }
}

/// Returns how many days a month has in some year.
pub(crate) fn days_of(month: u8) -> u8
    ensures { result ≡ days_of month }
{
    match month {
        2 => 29,
        4 | 6 | 9 | 11 => 30,
        _ => 31,
    }
}

#[tactic(auto, unfolding(crate::specs::DateParts::after_part))]
fn after_year_month(bytes: &[u8]) -> Option<&[u8]>
    ensures { option_view (λ rest. rest.now) result ≡ after_part parts.YearMonth bytes.now }
{
    let rest = after_year(bytes)?;
    let (_, rest) = number(12, past(rest, b'-')?)?;
    Some(rest)
}

#[tactic(auto, unfolding(crate::specs::DateParts::after_part))]
fn after_month(bytes: &[u8]) -> Option<&[u8]>
    ensures { option_view (λ rest. rest.now) result ≡ after_part parts.Month bytes.now }
{
    let rest = past(bytes, b'-')?;
    let (_, rest) = number(12, past(rest, b'-')?)?;
    Some(rest)
}

#[tactic(auto, unfolding(crate::specs::DateParts::after_part))]
fn after_month_day(bytes: &[u8]) -> Option<&[u8]>
    ensures { option_view (λ rest. rest.now) result ≡ after_part parts.MonthDay bytes.now }
{
    let rest = past(bytes, b'-')?;
    let (month, rest) = number(12, past(rest, b'-')?)?;
    let (_, rest) = number(days_of(month), past(rest, b'-')?)?;
    Some(rest)
}

#[tactic(auto, unfolding(crate::specs::DateParts::after_part))]
fn after_day(bytes: &[u8]) -> Option<&[u8]>
    ensures { option_view (λ rest. rest.now) result ≡ after_part parts.Day bytes.now }
{
    let rest = past(bytes, b'-')?;
    let rest = past(rest, b'-')?;
    let (_, rest) = number(31, past(rest, b'-')?)?;
    Some(rest)
}

#[tactic(auto, unfolding(crate::specs::DateParts::after_part))]
fn after_part(part: DatePart, bytes: &[u8]) -> Option<&[u8]>
    ensures { option_view (λ rest. rest.now) result ≡ after_part part bytes.now }
{
    match part {
        DatePart::Year => after_year(bytes),
        DatePart::YearMonth => after_year_month(bytes),
        DatePart::Month => after_month(bytes),
        DatePart::MonthDay => after_month_day(bytes),
        DatePart::Day => after_day(bytes),
    }
}

pub(crate) fn is_offset(hours: u8, minutes: u8) -> bool
    ensures is { result ≡ is_offset hours minutes }
    ensures limit { result ≡ true → hours * 60 + minutes ≤ 840 }
{
    (hours < 14 && minutes < 60) || (hours == 14 && minutes == 0)
}

#[tactic(auto, unfolding(crate::specs::DateParts::offset_fields))]
pub(crate) fn offset_fields(bytes: &[u8]) -> Option<(u8, u8)>
    ensures { result ≡ offset_fields bytes.now }
{
    let (hours, rest) = two(bytes)?;
    let (minutes, rest) = two(past(rest, b':')?)?;
    ended(rest)?;
    Some((hours, minutes))
}

fn are_offset(fields: Option<(u8, u8)>) -> bool
    ensures { result ≡ are_offset fields }
{
    match fields {
        Some((hours, minutes)) => is_offset(hours, minutes),
        None => false,
    }
}

fn is_zone(bytes: &[u8]) -> bool
    ensures { result ≡ is_zone bytes.now }
{
    match bytes {
        [] => true,
        [b'Z', rest @ ..] => rest.is_empty(),
        [b'+' | b'-', rest @ ..] => are_offset(offset_fields(rest)),
        _ => false,
    }
}

/// Returns whether a text writes a part of a date. It takes no memory.
pub fn is_date_part(part: DatePart, text: &str) -> bool
    ensures { result ≡ is_date_part part text.now }
{
    match after_part(part, text.as_bytes()) {
        Some(rest) => is_zone(rest),
        None => false,
    }
}

fn after_start<'a>(text: &'a str, start: &str) -> Option<&'a str>
    ensures { option_view (λ rest. rest.now) result ≡ after_start start.now text.now }
{
    text.strip_prefix(start)
}

fn before_ending<'a>(text: &'a str, ending: &str) -> Option<&'a str>
    ensures { option_view (λ front. front.now) result ≡ before_ending ending.now text.now }
{
    text.strip_suffix(ending)
}

/// Returns the year 0 as `0000`, and the text after it. Without a year 0 it returns nothing, and the text.
fn plain_year(text: &str) -> (&str, &str)
    ensures { (result.0.now, result.1.now) ≡ plain_year text.now }
{
    match after_start(text, "-0000") {
        Some(rest) => ("0000", rest),
        None => ("", text),
    }
}

fn before_zero_offset(text: &str) -> Option<&str>
    ensures { option_view (λ front. front.now) result ≡ either (before_ending (codes "+00:00") text.now) (before_ending (codes "-00:00") text.now) }
{
    match before_ending(text, "+00:00") {
        Some(front) => Some(front),
        None => before_ending(text, "-00:00"),
    }
}

/// Returns the text before an offset 0, and that offset as `Z`. Without an offset 0 it returns the text, and nothing.
fn plain_zone(text: &str) -> (&str, &str)
    ensures { (result.0.now, result.1.now) ≡ plain_zone text.now }
{
    match before_zero_offset(text) {
        Some(front) => (front, "Z"),
        None => (text, ""),
    }
}

/// Returns a text with the year 0 as `0000`, and the offset 0 as `Z`.
pub(crate) fn plain(alloc: Global, text: &str) -> Result<Text, AllocError>
    ensures { IfOk result (λ t. t ≡ plain text.now) }
{
    let (year, rest) = plain_year(text);
    let (front, zone) = plain_zone(rest);
    let mut form = Text::copied(alloc, year)?;
    form.push_str(front)?;
    form.push_str(zone)?;
    Ok(form)
}
