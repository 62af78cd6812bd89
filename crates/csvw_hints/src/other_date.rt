//! The formats by which a text is a moment, if it is none in its column's format.

use crate::endings::{TIMES, fraction_split, zone_split};
use csvw_datatype_core::{
    DATE_FORMATS, DateFormat, MomentFormat, StampFormat, TimeFormat, Zone, read_date_time,
    read_moment, read_stamp,
};
use std::alloc::{AllocError, Global};

/// A moment without a zone.
const NO_ZONE: &str = "    the text has no zone: a moment without a zone is a dateTime\n";

/// Returns the same format with the month first, if a format has the day first.
pub(crate) fn month_first(format: DateFormat) -> Option<DateFormat> {
    match format {
        DateFormat::DayFirst(digits, separator) => Some(DateFormat::MonthFirst(digits, separator)),
        DateFormat::YearFirst | DateFormat::Compact | DateFormat::MonthFirst(..) => None,
    }
}

/// Returns the format with a space and these times of day by which a text is a moment, if it is one.
fn spaced_format(text: &str, time: TimeFormat) -> Option<MomentFormat> {
    for date in &DATE_FORMATS {
        let format = MomentFormat::Spaced(*date, time);
        if read_moment(format, text).is_some() {
            return Some(format);
        }
    }
    None
}

/// Returns the format with a space by which a text is a moment, if it is one.
fn any_spaced_format(text: &str) -> Option<MomentFormat> {
    for time in &TIMES {
        if let Some(format) = spaced_format(text, *time) {
            return Some(format);
        }
    }
    None
}

/// Returns the format with a `T` by which a text is a moment, if it is one.
fn joined_format(text: &str) -> Option<MomentFormat> {
    if read_moment(MomentFormat::Seconds, text).is_some() {
        Some(MomentFormat::Seconds)
    } else if read_moment(MomentFormat::Minutes, text).is_some() {
        Some(MomentFormat::Minutes)
    } else {
        None
    }
}

/// Returns the format by which a text is a moment, if it is one.
fn moment_format(text: &str) -> Option<MomentFormat> {
    match joined_format(text) {
        Some(format) => Some(format),
        None => any_spaced_format(text),
    }
}

/// Returns the format by which a text may be a moment, by the fraction and the zone at its end. Whether the zone is one isn't
/// looked at.
fn stamp_format(text: &str) -> Option<StampFormat> {
    let (front, zone) = zone_split(text);
    let (front, digits) = fraction_split(front);
    let format = StampFormat {
        moment: moment_format(front)?,
        digits,
        zone,
    };
    if format.is_stamp() {
        Some(format)
    } else {
        None
    }
}

/// Returns whether a text is a moment in a format.
fn is_stamp(alloc: Global, text: &str, format: StampFormat) -> Result<bool, AllocError> {
    Ok(read_stamp(alloc, format, Zone::Optional, text)?.is_some())
}

/// Returns the same format with the month first, if a format has the day first and a space.
fn stamp_month_first(format: StampFormat) -> Option<StampFormat> {
    match format.moment {
        MomentFormat::Spaced(date, time) => Some(StampFormat {
            moment: MomentFormat::Spaced(month_first(date)?, time),
            digits: format.digits,
            zone: format.zone,
        }),
        MomentFormat::Seconds | MomentFormat::Minutes => None,
    }
}

/// Adds a format of moments.
fn push_pattern(below: &mut String, format: StampFormat) -> Result<(), AllocError> {
    below.push_str("`\"format\": \"")?;
    format.push_pattern(below)?;
    below.push_str("\"`")
}

/// Adds the formats by which a text is a moment, of which this is the first.
fn push_patterns(
    below: &mut String,
    alloc: Global,
    text: &str,
    format: StampFormat,
) -> Result<(), AllocError> {
    push_pattern(below, format)?;
    if let Some(other) = stamp_month_first(format) {
        if is_stamp(alloc, text, other)? {
            below.push_str(", or with ")?;
            push_pattern(below, other)?;
        }
    }
    below.push('\n')
}

/// Adds the formats of the profile w3c by which a text is a moment, if it is one.
fn push_stamp(below: &mut String, alloc: Global, text: &str) -> Result<(), AllocError> {
    match stamp_format(text) {
        Some(format) if is_stamp(alloc, text, format)? => {
            below.push_str("    the text is a dateTime with `--profile w3c` and ")?;
            push_patterns(below, alloc, text, format)
        }
        _ => Ok(()),
    }
}

/// Adds the formats by which a text is a moment with a zone, if it is one, or that its zone is missing.
fn push_zoned_stamp(below: &mut String, alloc: Global, text: &str) -> Result<(), AllocError> {
    let Some(format) = stamp_format(text) else {
        return Ok(());
    };
    if !is_stamp(alloc, text, format)? {
        return Ok(());
    }
    match format.zone {
        Some(_) => {
            below.push_str("    the text is a dateTimeStamp with ")?;
            push_patterns(below, alloc, text, format)
        }
        None => below.push_str(NO_ZONE),
    }
}

/// Adds the formats by which a text is a moment with a zone, or that its zone is missing.
pub(crate) fn push_zoned(below: &mut String, alloc: Global, text: &str) -> Result<(), AllocError> {
    match read_date_time(alloc, Zone::Required, text)? {
        Some(_) => {
            below.push_str("    the text is a dateTimeStamp, if the datatype has no `format`\n")
        }
        None => push_zoned_stamp(below, alloc, text),
    }
}

/// Adds a format of both profiles by which a text is a moment.
fn push_joined(below: &mut String, format: MomentFormat) -> Result<(), AllocError> {
    below.push_str("    the text is a dateTime with ")?;
    push_pattern(
        below,
        StampFormat {
            moment: format,
            digits: 0,
            zone: None,
        },
    )?;
    below.push('\n')
}

/// Adds the formats by which a text is a moment, or how one with a zone is read.
pub(crate) fn push_moment(below: &mut String, alloc: Global, text: &str) -> Result<(), AllocError> {
    if let Some(format) = joined_format(text) {
        return push_joined(below, format);
    }
    match read_date_time(alloc, Zone::Optional, text)? {
        Some(_) => below.push_str(
            "    the text is a dateTime with `--profile w3c`, if the datatype has no `format`\n",
        ),
        None => push_stamp(below, alloc, text),
    }
}
