//! What to write in place of a format that is refused (Model for Tabular Data and Metadata on the Web, sections 6.4.2, 6.4.4
//! and 6.4.6).

use csvw_datatype::{Simple, TextType, Zone};
use csvw_meta::MetaCode;
use serde_json::Value;

/// What patterns need.
const PATTERN_NEEDED: &str =
    "    a pattern of numbers needs the profile w3c (`--profile w3c`), and has `0`, `#`, `+`, `E`, `%`, `‰`, the decimal and the group character alone\n";

/// How a pattern is written.
const PATTERN_WRITTEN: &str =
    "    a pattern of numbers is written as `#,##0.00`: `#` before `0` in the whole part, and `0` before `#` in the fraction\n";

/// What regular expressions need.
const EXPRESSION_NEEDED: &str =
    "    a regular expression as the format of texts needs the profile w3c (`--profile w3c`)\n";

/// How a regular expression is written.
const EXPRESSION_WRITTEN: &str =
    "    the text is no regular expression: its syntax is that of the Rust crate regex, as `[A-Z]{2}[0-9]+`, \
     without `\\i`, `\\c`, look-around and back-references\n";

/// The patterns of dates.
const DATE_PATTERNS: &str =
    "    the format of a date is yyyy-MM-dd, yyyyMMdd, dd-MM-yyyy, d-M-yyyy, MM-dd-yyyy or M-d-yyyy: the last four may have `/` or `.` in place of `-`; \
     with `--profile w3c` also X at the end for a zone\n";

/// The patterns of moments.
const MOMENT_PATTERNS: &str =
    "    the format of a dateTime is yyyy-MM-ddTHH:mm:ss or yyyy-MM-ddTHH:mm; with `--profile w3c` also a date, a space and a time, \
     as dd/MM/yyyy HH:mm, and then .SSS for a fraction after HH:mm:ss, and X for a zone\n";

/// The patterns of moments that have a zone.
const STAMP_PATTERNS: &str =
    "    the format of a dateTimeStamp is yyyy-MM-ddTHH:mm:ss, yyyy-MM-ddTHH:mm, or a date, a space and a time, as dd/MM/yyyy HH:mm, \
     then .SSS for a fraction after HH:mm:ss, and X at the end for the zone, which is needed\n";

/// The patterns of times of day.
const TIME_PATTERNS: &str =
    "    the format of a time is HH:mm:ss, HHmmss, HH:mm or HHmm, then .SSS for a fraction after HH:mm:ss, and X for a zone\n";

/// What a format describes.
#[derive(Clone, Copy)]
enum Described {
    /// Numbers, by a pattern.
    Numbers,
    /// Texts, by a regular expression.
    Texts,
    /// Dates, by a pattern.
    Dates,
    /// Moments, by a pattern.
    Moments,
    /// Moments that have a zone, by a pattern.
    Stamps,
    /// Times of day, by a pattern.
    Times,
}

/// Returns what a text as the format of a datatype describes, if it may be a pattern or a regular expression.
fn described_by(datatype: &Value) -> Option<Described> {
    let simple = match datatype.get("base") {
        Some(base) => base.as_str().and_then(Simple::of)?,
        None => Simple::Text,
    };
    match simple {
        Simple::Whole | Simple::Decimal | Simple::Derived(_) | Simple::Floating(_) => {
            Some(Described::Numbers)
        }
        Simple::Day | Simple::Other(TextType::Date) => Some(Described::Dates),
        Simple::Other(TextType::DateTime(Zone::Required)) => Some(Described::Stamps),
        Simple::Moment | Simple::Other(TextType::DateTime(Zone::Optional)) => {
            Some(Described::Moments)
        }
        Simple::Other(TextType::Time) => Some(Described::Times),
        simple if simple.takes_expression() => Some(Described::Texts),
        _ => None,
    }
}

/// Returns what the text at a pointer describes, if it is a format.
fn described_at(document: &Value, pointer: &str) -> Option<Described> {
    if !document.pointer(pointer).is_some_and(Value::is_string) {
        return None;
    }
    match pointer.strip_suffix("/format/pattern") {
        Some(datatype) => match described_by(document.pointer(datatype)?)? {
            Described::Numbers => Some(Described::Numbers),
            _ => None,
        },
        None => described_by(document.pointer(pointer.strip_suffix("/format")?)?),
    }
}

/// Returns what a format of this kind needs, or how it is written.
fn hint_of(described: Described, code: MetaCode) -> &'static str {
    match (described, code) {
        (Described::Numbers, MetaCode::NotSupported) => PATTERN_NEEDED,
        (Described::Numbers, _) => PATTERN_WRITTEN,
        (Described::Texts, MetaCode::NotSupported) => EXPRESSION_NEEDED,
        (Described::Texts, _) => EXPRESSION_WRITTEN,
        (Described::Dates, _) => DATE_PATTERNS,
        (Described::Moments, _) => MOMENT_PATTERNS,
        (Described::Stamps, _) => STAMP_PATTERNS,
        (Described::Times, _) => TIME_PATTERNS,
    }
}

/// Returns what a pattern or a regular expression needs, or how it is written, if the pointer is that of one.
pub(crate) fn format_hint(document: &Value, code: MetaCode, pointer: &str) -> Option<&'static str> {
    Some(hint_of(described_at(document, pointer)?, code))
}
