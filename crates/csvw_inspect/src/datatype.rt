//! A datatype.
ghost use Rattle.std.specs.Prelude.{◌≡◌, true};
ghost use Rattle.csvw_datatype.specs.Lexical.{IsWritable};

use crate::property::{Property, given, length, text};
use crate::value::{Shown, character};
use csvw_datatype::{
    ClockFormat, Datatype, Format, MomentFormat, NumberFormat, StampFormat, TruthFormat,
    Value as Bound, ZonedDateFormat,
};
use serde_json::{Value, json};
use std::alloc::{AllocError, Global};

/// Numbers are below this in size, as counts of units of 10^-18.
const NUMBER_LIMIT: u128 = 100_000_000_000_000_000_000_000_000_000_000_000_000;

/// The days 0001-01-01 and 9999-12-31.
const FIRST_DAY: i32 = -719_162;

const LAST_DAY: i32 = 2_932_896;

/// The first and the last second of those years.
const FIRST_SECOND: i64 = -62_135_596_800;

const LAST_SECOND: i64 = 253_402_300_799;

/// Whether a bound has a lexical form. Each bound of a datatype that was read has one.
fn is_writable(bound: &Bound) -> bool
    ensures { result ≡ true → IsWritable bound.now }
{
    match bound {
        Bound::Text(_) | Bound::Truth(_) => true,
        Bound::Number(number) => number.unsigned_abs() < NUMBER_LIMIT,
        Bound::Day(day) => FIRST_DAY <= *day && *day <= LAST_DAY,
        Bound::Moment(moment) => FIRST_SECOND <= *moment && *moment <= LAST_SECOND,
    }
}

/// Returns a bound, if there is one.
fn bound<'a>(name: &'static str, bound: &'a Option<Bound>) -> Property<'a> {
    match bound {
        Some(bound) if is_writable(bound) => given(name, Shown::Bound(bound)),
        _ => given(name, Shown::Nothing),
    }
}

/// Returns the lexical form of a bound.
pub(crate) fn bound_value(alloc: Global, bound: &Bound) -> Result<Value, AllocError> {
    if is_writable(bound) {
        Ok(Value::String(bound.lexical(alloc)?))
    } else {
        Ok(Value::Null)
    }
}

/// Returns the characters of numbers, and their pattern if there is one.
fn number_format(alloc: Global, format: &NumberFormat) -> Result<Value, AllocError> {
    let decimal = character(alloc, format.decimal_char)?;
    let group = match format.group_char {
        Some(group) => character(alloc, group)?,
        None => Value::Null,
    };
    if format.pattern.is_none() {
        return json!(in alloc; { "decimalChar": decimal, "groupChar": group });
    }
    let mut pattern = String::new(alloc);
    format.push_pattern(&mut pattern)?;
    json!(in alloc; { "pattern": pattern, "decimalChar": decimal, "groupChar": group })
}

/// Returns the texts of booleans.
fn truth_format(alloc: Global, format: &TruthFormat) -> Result<Value, AllocError> {
    let texts = [format.if_true.as_str(), format.if_false.as_str()];
    Ok(Value::String(texts.join(alloc, "|")?))
}

/// Returns the pattern of moments.
fn moment_pattern(alloc: Global, format: MomentFormat) -> Result<Value, AllocError> {
    let mut pattern = String::new(alloc);
    format.push_pattern(&mut pattern)?;
    Ok(Value::String(pattern))
}

/// Returns the pattern of times of day.
fn clock_pattern(alloc: Global, format: ClockFormat) -> Result<Value, AllocError> {
    let mut pattern = String::new(alloc);
    format.push_pattern(&mut pattern)?;
    Ok(Value::String(pattern))
}

/// Returns the pattern of dates that may have a zone.
fn zoned_date_pattern(alloc: Global, format: ZonedDateFormat) -> Result<Value, AllocError> {
    let mut pattern = String::new(alloc);
    format.push_pattern(&mut pattern)?;
    Ok(Value::String(pattern))
}

/// Returns the pattern of moments that may have parts of a second and a zone.
fn stamp_pattern(alloc: Global, format: StampFormat) -> Result<Value, AllocError> {
    let mut pattern = String::new(alloc);
    format.push_pattern(&mut pattern)?;
    Ok(Value::String(pattern))
}

/// Returns the value of `format`.
pub(crate) fn format_value(alloc: Global, format: &Format) -> Result<Value, AllocError> {
    match format {
        Format::Truth(truth) => truth_format(alloc, truth),
        Format::Number(number) => number_format(alloc, number),
        Format::Day(day) => Value::try_from_str(alloc, day.pattern()),
        Format::Moment(moment) => moment_pattern(alloc, *moment),
        Format::Time(time) => clock_pattern(alloc, *time),
        Format::ZonedDay(day) => zoned_date_pattern(alloc, *day),
        Format::Stamp(stamp) => stamp_pattern(alloc, *stamp),
        Format::Expression(expression) => Value::try_from_str(alloc, expression.as_str()),
    }
}

/// Returns the properties of a datatype.
pub(crate) fn datatype_properties(datatype: &Datatype) -> [Property<'_>; 12] {
    let facets = &datatype.facets;
    let id = match &datatype.id {
        Some(id) => Shown::Text(id.as_str()),
        None => Shown::Nothing,
    };
    let format = match &datatype.format {
        Some(format) => Shown::Format(format),
        None => Shown::Nothing,
    };
    [
        text("base", datatype.simple.name(), "string"),
        given("@id", id),
        given("format", format),
        length("length", facets.length),
        length("minLength", facets.min_length),
        length("maxLength", facets.max_length),
        bound("minimum", &facets.minimum),
        bound("minInclusive", &facets.min_inclusive),
        bound("minExclusive", &facets.min_exclusive),
        bound("maximum", &facets.maximum),
        bound("maxInclusive", &facets.max_inclusive),
        bound("maxExclusive", &facets.max_exclusive),
    ]
}
