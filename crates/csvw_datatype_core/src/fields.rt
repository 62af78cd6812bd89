//! The fields of a year, a month or a day alone.
ghost use Rattle.std.specs.Prelude.{◌≡◌, List, ℕ, Some, true, is_some};
ghost use Rattle.csvw_datatype_core.specs.Fields.{option_view};
ghost use Rattle.csvw_datatype_core.specs.DateParts.{is_date_part};
ghost use Rattle.csvw_datatype_core.specs.PartFields.{before, fields_at, no_zone, part_fields, year_at};
ghost use Rattle.csvw_datatype_core.specs.PartForms.{date_part_form};
ghost use Rattle.csvw_datatype_core.specs.declared.date_part.DatePart.TheVariants as parts;

use crate::ascii::as_text;
use crate::date::past;
use crate::date_part::{DatePart, after_year, days_of, number};
use crate::date_time::zone_at;

/// The fields of a part of a date (XML Schema 1.1 part 2, sections 3.3.10 to 3.3.14).
#[derive(Clone, Copy, Debug)]
pub struct PartFields<'a> {
    /// The digits of the year, with its `-` if it is negative, as `-0044`. It is empty if the part has no year.
    pub year: &'a str,
    /// The month, from 1 to 12, or 0 if the part has none.
    pub month: u8,
    /// The day, from 1 to 31, or 0 if the part has none.
    pub day: u8,
    /// How many minutes the zone is ahead of `Z`, if there is a zone.
    pub zone: Option<i32>,
}

/// Returns the text of a year with its `-`, and the text after it.
fn year_at(bytes: &[u8]) -> Option<(&str, &[u8])>
    ensures { option_view (λ x. (x.0.now, x.1.now)) result ≡ year_at bytes.now }
{
    let rest = after_year(bytes)?;
    let (year, _) = bytes.split_at(bytes.len().saturating_sub(rest.len()));
    Some((as_text(year), rest))
}

#[tactic(auto, unfolding(crate::specs::PartFields::fields_at))]
fn year_fields(bytes: &[u8]) -> Option<(&str, u8, u8, &[u8])>
    ensures { option_view (λ x. (x.0.now, x.1, x.2, x.3.now)) result ≡ fields_at parts.Year bytes.now }
{
    let (year, rest) = year_at(bytes)?;
    Some((year, 0, 0, rest))
}

#[tactic(auto, unfolding(crate::specs::PartFields::fields_at))]
fn year_month_fields(bytes: &[u8]) -> Option<(&str, u8, u8, &[u8])>
    ensures { option_view (λ x. (x.0.now, x.1, x.2, x.3.now)) result ≡ fields_at parts.YearMonth bytes.now }
{
    let (year, rest) = year_at(bytes)?;
    let (month, rest) = number(12, past(rest, b'-')?)?;
    Some((year, month, 0, rest))
}

#[tactic(auto, unfolding(crate::specs::PartFields::fields_at))]
fn month_fields(bytes: &[u8]) -> Option<(&str, u8, u8, &[u8])>
    ensures { option_view (λ x. (x.0.now, x.1, x.2, x.3.now)) result ≡ fields_at parts.Month bytes.now }
{
    let rest = past(bytes, b'-')?;
    let (month, rest) = number(12, past(rest, b'-')?)?;
    Some(("", month, 0, rest))
}

#[tactic(auto, unfolding(crate::specs::PartFields::fields_at))]
fn month_day_fields(bytes: &[u8]) -> Option<(&str, u8, u8, &[u8])>
    ensures { option_view (λ x. (x.0.now, x.1, x.2, x.3.now)) result ≡ fields_at parts.MonthDay bytes.now }
{
    let rest = past(bytes, b'-')?;
    let (month, rest) = number(12, past(rest, b'-')?)?;
    let (day, rest) = number(days_of(month), past(rest, b'-')?)?;
    Some(("", month, day, rest))
}

#[tactic(auto, unfolding(crate::specs::PartFields::fields_at))]
fn day_fields(bytes: &[u8]) -> Option<(&str, u8, u8, &[u8])>
    ensures { option_view (λ x. (x.0.now, x.1, x.2, x.3.now)) result ≡ fields_at parts.Day bytes.now }
{
    let rest = past(bytes, b'-')?;
    let rest = past(rest, b'-')?;
    let (day, rest) = number(31, past(rest, b'-')?)?;
    Some(("", 0, day, rest))
}

#[tactic(auto, unfolding(crate::specs::PartFields::fields_at))]
fn fields_at(part: DatePart, bytes: &[u8]) -> Option<(&str, u8, u8, &[u8])>
    ensures { option_view (λ x. (x.0.now, x.1, x.2, x.3.now)) result ≡ fields_at part bytes.now }
{
    match part {
        DatePart::Year => year_fields(bytes),
        DatePart::YearMonth => year_month_fields(bytes),
        DatePart::Month => month_fields(bytes),
        DatePart::MonthDay => month_day_fields(bytes),
        DatePart::Day => day_fields(bytes),
    }
}

/// Returns that there is no zone, if a text is empty.
pub(crate) fn no_zone(bytes: &[u8]) -> Option<Option<i32>>
    ensures { result ≡ no_zone bytes.now }
{
    if bytes.is_empty() { Some(None) } else { None }
}

/// Returns the fields of the part of a date that a text writes. It takes no memory.
///
/// Returns `None` if the text isn't written as the part of a date is.
#[tactic(auto, unfolding(crate::specs::PartFields::part_fields))]
pub fn part_fields(part: DatePart, text: &str) -> Option<PartFields<'_>>
    ensures { option_view (λ f. (f.year.now, f.month, f.day, f.zone)) result ≡ part_fields part text.now }
{
    let (year, month, day, rest) = fields_at(part, text.as_bytes())?;
    let zone = zone_at(rest)?;
    Some(PartFields {
        year,
        month,
        day,
        zone,
    })
}

/// A law: a text has fields exactly if it writes the part of a date. So has the one text of the part that a text writes.
pub fn date_parts_have_fields()
    ensures fields { (part : DatePart) (text : List ℕ) → is_some (part_fields part text) ≡ is_date_part part text }
    ensures form { (part : DatePart) (text form : List ℕ) → date_part_form part text ≡ Some form → is_some (part_fields part form) ≡ true }
{}
