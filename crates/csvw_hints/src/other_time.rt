//! The formats by which a text is a time of day, if it is none in its column's format.

use crate::endings::{TIMES, fraction_split, zone_split};
use csvw_datatype_core::{ClockFormat, ClockPattern, TimeFormat, clock_text, is_time};
use std::alloc::{AllocError, Global};

/// Returns the format without a fraction by which a text is a time of day, if it is one.
fn whole_format(text: &str) -> Option<TimeFormat> {
    for format in &TIMES {
        if is_time(*format, text) {
            return Some(*format);
        }
    }
    None
}

/// Returns the format by which a text may be a time of day, by the fraction and the zone at its end. Whether the zone is one isn't
/// looked at. A fraction has as many letters as the text has digits.
fn clock_format(text: &str) -> Option<ClockFormat> {
    let (front, zone) = zone_split(text);
    let (front, digits) = fraction_split(front);
    let pattern = ClockPattern {
        time: whole_format(front)?,
        digits,
        zone,
    };
    if pattern.is_clock_pattern() {
        Some(ClockFormat::Pattern(pattern))
    } else {
        None
    }
}

/// Adds the format by which a text is a time of day, if it is one.
pub(crate) fn push_time(below: &mut String, alloc: Global, text: &str) -> Result<(), AllocError> {
    let Some(format) = clock_format(text) else {
        return Ok(());
    };
    if clock_text(alloc, format, text)?.is_none() {
        return Ok(());
    }
    below.push_str("    the text is a time with `\"format\": \"")?;
    format.push_pattern(below)?;
    below.push_str("\"`\n")
}
