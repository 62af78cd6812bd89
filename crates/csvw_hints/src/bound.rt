//! The bounds of values, in the spelling of canonical values.

use csvw_datatype::{Datatype, Value, Width};
use csvw_datatype_core::{date_text, moment_text, number_text};
use std::alloc::AllocError;

/// What the size of a number is below, in units of 10^-18.
const NUMBER_END: u128 = 100_000_000_000_000_000_000_000_000_000_000_000_000;

/// 1 January of the year 1, in days since 1 January 1970.
const FIRST_DAY: i32 = -719_162;

/// 31 December of the year 9999, in days since 1 January 1970.
const LAST_DAY: i32 = 2_932_896;

/// The first second of the year 1, in seconds since 1 January 1970.
const FIRST_MOMENT: i64 = -62_135_596_800;

/// The last second of the year 9999, in seconds since 1 January 1970.
const LAST_MOMENT: i64 = 253_402_300_799;

/// Adds a number, which is in units of 10^-18.
fn push_number(text: &mut String, number: i128) -> Result<(), AllocError> {
    if number.unsigned_abs() >= NUMBER_END {
        return Ok(());
    }
    let number = number_text(*text.allocator(), number)?;
    text.push_str(number.as_str())
}

/// Adds a day of the years 0001 to 9999.
fn push_day(text: &mut String, day: i32) -> Result<(), AllocError> {
    if day < FIRST_DAY || day > LAST_DAY {
        return Ok(());
    }
    let day = date_text(*text.allocator(), day)?;
    text.push_str(day.as_str())
}

/// Adds a moment of the years 0001 to 9999.
fn push_moment(text: &mut String, moment: i64) -> Result<(), AllocError> {
    if moment < FIRST_MOMENT || moment > LAST_MOMENT {
        return Ok(());
    }
    let moment = moment_text(*text.allocator(), moment)?;
    text.push_str(moment.as_str())
}

/// Adds a value, in its canonical spelling.
fn push_value(text: &mut String, value: &Value) -> Result<(), AllocError> {
    match value {
        Value::Text(form) => text.push_str(form.as_str()),
        Value::Truth(truth) => text.push_str(if *truth { "true" } else { "false" }),
        Value::Number(number) => push_number(text, *number),
        Value::Day(day) => push_day(text, *day),
        Value::Moment(moment) => push_moment(text, *moment),
    }
}

/// Adds the name of a facet and its value, if it has one.
fn push_facet(text: &mut String, name: &str, value: &Option<Value>) -> Result<(), AllocError> {
    if let Some(value) = value {
        text.push(' ')?;
        text.push_str(name)?;
        text.push(' ')?;
        push_value(text, value)?;
    }
    Ok(())
}

/// Adds the bounds of a datatype, on a line of their own.
pub(crate) fn push_bounds(text: &mut String, datatype: &Datatype) -> Result<(), AllocError> {
    let facets = &datatype.facets;
    text.push_str("   ")?;
    push_facet(text, "minimum", &facets.minimum)?;
    push_facet(text, "minInclusive", &facets.min_inclusive)?;
    push_facet(text, "minExclusive", &facets.min_exclusive)?;
    push_facet(text, "maximum", &facets.maximum)?;
    push_facet(text, "maxInclusive", &facets.max_inclusive)?;
    push_facet(text, "maxExclusive", &facets.max_exclusive)?;
    text.push('\n')
}

/// Returns the range of a derived type of integers.
pub(crate) fn range_of(width: Width) -> &'static str {
    match width {
        Width::Long => "-9223372036854775808 to 9223372036854775807",
        Width::Int => "-2147483648 to 2147483647",
        Width::Short => "-32768 to 32767",
        Width::Byte => "-128 to 127",
        Width::UnsignedLong => "0 to 18446744073709551615",
        Width::UnsignedInt => "0 to 4294967295",
        Width::UnsignedShort => "0 to 65535",
        Width::UnsignedByte => "0 to 255",
        Width::NonNegativeInteger => "0 or more",
        Width::PositiveInteger => "1 or more",
        Width::NonPositiveInteger => "0 or less",
        Width::NegativeInteger => "-1 or less",
    }
}
