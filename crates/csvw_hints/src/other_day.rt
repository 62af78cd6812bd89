//! The formats by which a text is a date, if it is none in its column's format.

use crate::endings::zone_split;
use crate::other_date::month_first;
use csvw_datatype_core::{
    DATE_FORMATS, DateFormat, ZonedDateFormat, is_zoned_date, read_date, read_zoned_date,
};
use std::alloc::{AllocError, Global};

/// Returns the first format by which a text is a date, if it is one.
fn date_format(text: &str) -> Option<DateFormat> {
    for format in &DATE_FORMATS {
        if read_date(*format, text).is_some() {
            return Some(*format);
        }
    }
    None
}

/// Returns the same format with the month first, if a text is a date in it, too.
fn other_format(text: &str, format: DateFormat) -> Option<DateFormat> {
    let other = month_first(format)?;
    if read_date(other, text).is_some() {
        Some(other)
    } else {
        None
    }
}

/// Adds the pattern of a format, and the one with the month first, if a text is a date in it, too.
fn push_patterns(below: &mut String, text: &str, format: DateFormat) -> Result<(), AllocError> {
    let pattern = format.pattern();
    write!(
        below,
        "    the text is a date with `\"format\": \"{pattern}\"`"
    )?;
    if let Some(other) = other_format(text, format) {
        let pattern = other.pattern();
        write!(below, ", or with `\"format\": \"{pattern}\"`")?;
    }
    below.push('\n')
}

/// Returns the format with a zone by which a text is a date, if it is one.
fn zoned_format(alloc: Global, text: &str) -> Result<Option<ZonedDateFormat>, AllocError> {
    let (front, Some(zone)) = zone_split(text) else {
        return Ok(None);
    };
    let Some(date) = date_format(front) else {
        return Ok(None);
    };
    let format = ZonedDateFormat {
        date,
        zone: Some(zone),
    };
    match read_zoned_date(alloc, Some(format), text)? {
        Some(_) => Ok(Some(format)),
        None => Ok(None),
    }
}

/// Adds the format with a zone by which a text is a date, if it is one. What comes before it is what the datatype needs besides.
fn push_zoned(
    below: &mut String,
    alloc: Global,
    needed: &str,
    text: &str,
) -> Result<(), AllocError> {
    let Some(format) = zoned_format(alloc, text)? else {
        return Ok(());
    };
    write!(below, "    the text is a date with {needed}`\"format\": \"")?;
    format.push_pattern(below)?;
    below.push_str("\"`\n")
}

/// Adds the formats of the profile core by which a text is a date, or how one with a zone is read.
pub(crate) fn push_date(below: &mut String, alloc: Global, text: &str) -> Result<(), AllocError> {
    if let Some(format) = date_format(text) {
        return push_patterns(below, text, format);
    }
    if is_zoned_date(text) {
        return below.push_str(
            "    the text is a date with `--profile w3c`, if the datatype has no `format`\n",
        );
    }
    push_zoned(below, alloc, "`--profile w3c` and ", text)
}

/// Adds the formats of the profile w3c by which a text is a date.
pub(crate) fn push_zoned_date(
    below: &mut String,
    alloc: Global,
    text: &str,
) -> Result<(), AllocError> {
    if let Some(format) = date_format(text) {
        return push_patterns(below, text, format);
    }
    if is_zoned_date(text) {
        return below.push_str("    the text is a date, if the datatype has no `format`\n");
    }
    push_zoned(below, alloc, "", text)
}
