//! How a text writes a date, a space and a time of day.
ghost use Rattle.std.specs.Prelude.{◌≡◌};
ghost use Rattle.csvw_datatype_core.specs.Fields.{option_view};
ghost use Rattle.csvw_datatype_core.specs.Values.{at_space, date_value, spaced_value};

use crate::date::{DateFormat, read_date};
use crate::moment::moment_of;
use crate::time::{TimeFormat, second_at};

/// Returns the text before the first space and the text after it, or `None` if there is no space.
pub(crate) fn at_space(text: &str) -> Option<(&str, &str)>
    ensures { option_view (λ x. (x.0.now, x.1.now)) result ≡ at_space text.now }
{
    text.split_once(' ')
}

pub(crate) fn date_value(format: DateFormat, text: &str) -> Option<i32>
    ensures { result ≡ date_value format text.now }
{
    read_date(format, text)
}

/// Returns the moment that a date, one space and a time of day write, in seconds since 1 January 1970.
///
/// Returns `None` if the text isn't in the formats, or if its day isn't one of the years 0001 to 9999.
#[tactic(auto, unfolding(crate::specs::Values::spaced_value))]
pub(crate) fn read_spaced(date: DateFormat, time: TimeFormat, text: &str) -> Option<i64>
    ensures { result ≡ spaced_value date time text.now }
{
    let (before, after) = at_space(text)?;
    let day = date_value(date, before)?;
    let second = second_at(time, after.as_bytes())?;
    Some(moment_of(day, second))
}
