//! The value of a text, for each datatype that a draft gives to columns.

use csvw_datatype::Value;
use csvw_datatype_core::{DateTime, ZonedDate};

/// Returns the value of a moment that may have a zone and parts of a second.
pub(crate) fn date_time_as_value(moment: DateTime) -> Value {
    match moment {
        DateTime::Second(second) => Value::Moment(second),
        DateTime::Written(text) => Value::Text(text),
    }
}

/// Returns the value of a date that may have a zone.
pub(crate) fn date_as_value(date: ZonedDate) -> Value {
    match date {
        ZonedDate::Day(day) => Value::Day(day),
        ZonedDate::Written(text) => Value::Text(text),
    }
}

/// Returns the truth that a text writes, or `None` if it is neither `true` nor `false`.
pub(crate) fn truth_of(text: &str) -> Option<bool> {
    match text {
        "true" => Some(true),
        "false" => Some(false),
        _ => None,
    }
}
