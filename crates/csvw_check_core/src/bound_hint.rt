//! How a bound of a datatype is written, and which datatypes have none (Metadata Vocabulary for Tabular Data, section 5.11.2).

use csvw_datatype::{DatePart, DurationKind, Simple, TextType, Zone};
use csvw_meta::MetaCode;
use serde_json::Value;
use std::alloc::{AllocError, Global};

/// The names of bounds, each as the end of a pointer.
const BOUNDS: [&str; 6] = [
    "/minimum",
    "/maximum",
    "/minInclusive",
    "/maxInclusive",
    "/minExclusive",
    "/maxExclusive",
];

/// Bounds of whole numbers.
const WHOLE: &str =
    "    a bound is a value of its datatype, in digits without group characters, as \"1000\"\n";

/// Bounds of decimals.
const DECIMAL: &str =
    "    a bound is a number with `.` before the fraction and without group characters, as \"1000.5\"\n";

/// Bounds of dates.
const DAY: &str =
    "    a bound is a date as yyyy-MM-dd, whatever the format is; with `--profile w3c` also as \"2020-01-31Z\"\n";

/// Bounds of moments.
const MOMENT: &str =
    "    a bound is a moment as \"2020-01-31T08:30:00\", whatever the format is; with `--profile w3c` also as \"2020-01-31T08:30:00.5Z\"\n";

/// Bounds of moments with a zone.
const STAMP: &str = "    a bound is a moment with a zone, as \"2020-01-31T08:30:00Z\"\n";

/// Bounds of times of day.
const TIME: &str = "    a bound is a time of day as \"08:30:00\", whatever the format is\n";

/// Bounds of years.
const YEAR: &str = "    a bound is a year in quotes, as \"2015\"\n";

/// Bounds of months of a year.
const YEAR_MONTH: &str = "    a bound is a year and a month, as \"2015-03\"\n";

/// Bounds of months of any year.
const MONTH: &str = "    a bound is a month, as \"--03\"\n";

/// Bounds of days of any year.
const MONTH_DAY: &str = "    a bound is a month and a day, as \"--03-22\"\n";

/// Bounds of days of any month.
const DAY_OF_MONTH: &str = "    a bound is a day of a month, as \"---22\"\n";

/// Bounds of durations.
const DURATION: &str = "    a bound is a duration, as \"P1Y2M\" or \"PT36H\"\n";

/// Bounds of durations of months.
const MONTHS: &str = "    a bound is a duration of years and months, as \"P1Y2M\"\n";

/// Bounds of durations of seconds.
const SECONDS: &str = "    a bound is a duration without years and months, as \"PT36H\"\n";

/// Numbers of JSON with a fraction.
const FRACTION: &str = "    a number that isn't whole is written as a text, as \"0.5\"\n";

/// Bounds of doubles.
const DOUBLE: &str =
    "    a bound is a number, perhaps with an exponent, or INF or -INF, as \"1.5e6\"\n";

/// Bounds of values without an order.
const UNORDERED: &str = "    the values of this datatype have no order: leave the bound out\n";

/// Facets that can't hold together.
const CONTRADICTION: &str =
    "    the facets contradict each other: the lower bound is above the upper one, one side has two bounds, two bounds have no order, \
     or the lengths exclude each other\n";

/// Returns the pointer of the datatype whose bound a pointer is that of, if it is one.
fn datatype_of(pointer: &str) -> Option<&str> {
    for bound in &BOUNDS {
        if let Some(datatype) = pointer.strip_suffix(*bound) {
            return Some(datatype);
        }
    }
    None
}

/// Returns the base of the datatype whose bound a pointer is that of, if it is one.
fn simple_of(document: &Value, pointer: &str) -> Option<Simple> {
    match document.pointer(datatype_of(pointer)?)?.get("base") {
        Some(base) => Simple::of(base.as_str()?),
        None => Some(Simple::Text),
    }
}

/// Returns how a bound of a type of parts of dates is written.
fn part_written(part: DatePart) -> &'static str {
    match part {
        DatePart::Year => YEAR,
        DatePart::YearMonth => YEAR_MONTH,
        DatePart::Month => MONTH,
        DatePart::MonthDay => MONTH_DAY,
        DatePart::Day => DAY_OF_MONTH,
    }
}

/// Returns how a bound of a type of durations is written.
fn duration_written(kind: DurationKind) -> &'static str {
    match kind {
        DurationKind::Any => DURATION,
        DurationKind::YearMonth => MONTHS,
        DurationKind::DayTime => SECONDS,
    }
}

/// Returns how a bound of a type of texts is written.
fn text_written(text_type: TextType) -> &'static str {
    match text_type {
        TextType::Time => TIME,
        TextType::Date => DAY,
        TextType::DateTime(Zone::Optional) => MOMENT,
        TextType::DateTime(Zone::Required) => STAMP,
        TextType::Part(part) => part_written(part),
        TextType::Duration(kind) => duration_written(kind),
        _ => UNORDERED,
    }
}

/// Returns how a bound of a datatype is written.
fn written(simple: Simple) -> &'static str {
    match simple {
        Simple::Whole | Simple::Derived(_) => WHOLE,
        Simple::Decimal => DECIMAL,
        Simple::Day => DAY,
        Simple::Moment => MOMENT,
        Simple::Floating(_) => DOUBLE,
        Simple::Text | Simple::Uri | Simple::Truth => UNORDERED,
        Simple::Other(text_type) => text_written(text_type),
    }
}

/// Whether a bound of a datatype is a text, and no number of JSON.
fn is_dated(simple: Simple) -> bool {
    match simple {
        Simple::Day | Simple::Moment => true,
        Simple::Other(text_type) => text_type.is_ordered(),
        _ => false,
    }
}

/// Returns what to write in place of a number of JSON that is refused as a bound.
fn number_hint(simple: Simple, code: MetaCode) -> Option<&'static str> {
    match code {
        _ if is_dated(simple) => Some(written(simple)),
        MetaCode::NotSupported => Some(FRACTION),
        _ => None,
    }
}

/// Returns what helps with the fault of a text that is a bound: how one is written, if the text is none.
fn text_hint(
    alloc: Global,
    simple: Simple,
    text: &str,
) -> Result<Option<&'static str>, AllocError> {
    Ok(match simple.bound(alloc, text)? {
        None => Some(written(simple)),
        Some(_) => None,
    })
}

/// Returns what helps with the fault of a datatype: its facets can't hold together.
pub(crate) fn facets_hint(document: &Value, code: MetaCode, pointer: &str) -> Option<&'static str> {
    let is_datatype = pointer.ends_with("/datatype") && code == MetaCode::BadDatatype;
    match document.pointer(pointer) {
        Some(value) if is_datatype && value.is_object() => Some(CONTRADICTION),
        _ => None,
    }
}

/// Returns what helps with the fault at a pointer, if it is that of a bound which is no value of its datatype, or a number in place
/// of a text. Returns `AllocError` if memory runs out.
pub(crate) fn bound_hint(
    alloc: Global,
    document: &Value,
    code: MetaCode,
    pointer: &str,
) -> Result<Option<&'static str>, AllocError> {
    let (Some(simple), Some(bound)) = (simple_of(document, pointer), document.pointer(pointer))
    else {
        return Ok(None);
    };
    match bound.as_str() {
        Some(text) => text_hint(alloc, simple, text),
        None if bound.is_number() => Ok(number_hint(simple, code)),
        None => Ok(None),
    }
}
