//! The order of values that are kept as texts.
ghost use Rattle.std.specs.Prelude.{◌≡◌};
ghost use Rattle.csvw_datatype_core.specs.Fields.{option_view};
ghost use Rattle.csvw_datatype.specs.Order.{times_cmp, day_in, dates_cmp, instant_in, moments_cmp, years_cmp, zones_cmp, fields_cmp, days_cmp, parts_cmp, kept_cmp};

use crate::simple::{Simple, TextType};
use crate::value::Value;
use csvw_datatype_core::{
    DatePart, Instant, PartFields, clock_instant, compare_instants, day_instant, instant_of,
    part_fields, start_of_day, zoned_date_instant,
};
use csvw_double::compare_doubles;
use csvw_duration::compare_durations;
use std::cmp::Ordering;

fn compare_times(a: &str, b: &str) -> Option<Ordering>
    ensures { result ≡ times_cmp a.now b.now }
{
    let (first, second) = (clock_instant(a)?, clock_instant(b)?);
    compare_instants(&first, &second)
}

/// Returns the moment at which a value of `date` begins.
fn day_in(value: &Value) -> Option<Instant<'_>>
    ensures { option_view (λ i. (i.second, i.digits.now, i.kind)) result ≡ day_in value.now }
{
    match value {
        Value::Day(day) => Some(day_instant(*day)),
        Value::Text(text) => zoned_date_instant(text.as_str()),
        Value::Truth(_) | Value::Number(_) | Value::Moment(_) => None,
    }
}

fn compare_dates(a: &Value, b: &Value) -> Option<Ordering>
    ensures { result ≡ dates_cmp a.now b.now }
{
    let (first, second) = (day_in(a)?, day_in(b)?);
    compare_instants(&first, &second)
}

/// Returns the moment of a value of `dateTime` or `dateTimeStamp`.
fn instant_in(value: &Value) -> Option<Instant<'_>>
    ensures { option_view (λ i. (i.second, i.digits.now, i.kind)) result ≡ instant_in value.now }
{
    match value {
        Value::Moment(moment) => Some(Instant::local(*moment)),
        Value::Text(text) => instant_of(text.as_str()),
        Value::Truth(_) | Value::Number(_) | Value::Day(_) => None,
    }
}

fn compare_moments(a: &Value, b: &Value) -> Option<Ordering>
    ensures { result ≡ moments_cmp a.now b.now }
{
    let (first, second) = (instant_in(a)?, instant_in(b)?);
    compare_instants(&first, &second)
}

fn compare_years(a: &str, b: &str) -> Option<Ordering>
    ensures { result ≡ years_cmp a.now b.now }
{
    if a.is_empty() && b.is_empty() {
        Some(Ordering::Equal)
    } else {
        compare_doubles(a, b)
    }
}

fn compare_zones(a: Option<i32>, b: Option<i32>) -> Option<Ordering>
    ensures { result ≡ zones_cmp a b }
{
    match (a, b) {
        (Some(first), Some(second)) => Some(second.cmp(&first)),
        (None, None) => Some(Ordering::Equal),
        (Some(_), None) | (None, Some(_)) => None,
    }
}

fn compare_fields(a: &PartFields<'_>, b: &PartFields<'_>) -> Option<Ordering>
    ensures { result ≡ fields_cmp (a.now.year.now, a.now.month, a.now.day, a.now.zone) (b.now.year.now, b.now.month, b.now.day, b.now.zone) }
{
    let years = compare_years(a.year, b.year)?;
    let order = years.then(a.month.cmp(&b.month)).then(a.day.cmp(&b.day));
    match order {
        Ordering::Equal => compare_zones(a.zone, b.zone),
        Ordering::Less | Ordering::Greater => Some(order),
    }
}

fn compare_days(a: &PartFields<'_>, b: &PartFields<'_>) -> Option<Ordering>
    ensures { result ≡ days_cmp (a.now.year.now, a.now.month, a.now.day, a.now.zone) (b.now.year.now, b.now.month, b.now.day, b.now.zone) }
{
    let first = start_of_day(a.month, a.day, a.zone);
    let second = start_of_day(b.month, b.day, b.zone);
    compare_instants(&first, &second)
}

fn compare_parts(part: DatePart, a: &str, b: &str) -> Option<Ordering>
    ensures { result ≡ parts_cmp part a.now b.now }
{
    let (first, second) = (part_fields(part, a)?, part_fields(part, b)?);
    match part {
        DatePart::Year | DatePart::YearMonth | DatePart::Month => compare_fields(&first, &second),
        DatePart::MonthDay | DatePart::Day => compare_days(&first, &second),
    }
}

/// Returns how a value of a type stands to another (XML Schema 1.1 part 2, section 3.3). It takes no memory.
///
/// Returns `None` if they have no order, or if the values of the type aren't kept as texts.
pub(crate) fn compare_kept(simple: Simple, a: &Value, b: &Value) -> Option<Ordering>
    ensures { result ≡ kept_cmp simple a.now b.now }
{
    match (simple, a, b) {
        (Simple::Floating(_), Value::Text(x), Value::Text(y)) => {
            compare_doubles(x.as_str(), y.as_str())
        }
        (Simple::Other(TextType::Time), Value::Text(x), Value::Text(y)) => {
            compare_times(x.as_str(), y.as_str())
        }
        (Simple::Other(TextType::Date), _, _) => compare_dates(a, b),
        (Simple::Other(TextType::DateTime(_)), _, _) => compare_moments(a, b),
        (Simple::Other(TextType::Part(part)), Value::Text(x), Value::Text(y)) => {
            compare_parts(part, x.as_str(), y.as_str())
        }
        (Simple::Other(TextType::Duration(_)), Value::Text(x), Value::Text(y)) => {
            compare_durations(x.as_str(), y.as_str())
        }
        _ => None,
    }
}
