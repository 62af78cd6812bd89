//! How texts write numbers, dates, moments, times of day and names, their lexical forms, and patterns of numbers: the lower
//! part of csvw_datatype.
//!
//! # Promises
//!
//! - `read_number`, `read_date` and `read_moment` return a value exactly if the text is one by the grammar, and that
//!   value.
//! - The law `values_read` says the same with functions.
//! - The laws `one_number`, `one_date` and `one_moment`: a text has one value at most.
//! - `number_text`, `date_text` and `moment_text` return a lexical form, which is read again as the value.
//! - The laws `one_number_text`, `one_date_text` and `one_moment_text`: a value has one lexical form.
//! - `date_part_text` returns the one text of a year, a month or a day alone (`date_part_form`). The law `one_date_part_text`:
//!   that text is its own text.
//! - `start_of_day` returns the moment at which a day begins (`start_of_day`). The law `days_at_one_time`: texts of days have
//!   the same one text exactly if the days begin at the same time.
//! - `part_fields` returns the year, the month, the day and the zone of such a part of a date (`part_fields`). The law
//!   `date_parts_have_fields`: a text has them exactly if it writes the part.
//! - `read_date_time` returns the moment of a text that may have a zone and parts of a second (`date_time_value`). The law
//!   `date_times`: a whole second without a zone is in the years 0001 to 9999, and no `dateTimeStamp`. The law `one_date_time_text`: the text of
//!   another moment is its own text.
//! - `is_time`, `is_date_part` and `is_date_time` return whether a text has such a value.
//! - `instant_of` returns the moment of such a text on the time line (`instant_of`), and `compare_instants` how two of them
//!   stand to each other, if they have an order (`instant_cmp`).
//! - `read_stamp` returns the moment of a text in a format with parts of a second or a zone (`stamp_value`). The law `stamps`:
//!   a whole second without a zone is in the years 0001 to 9999, and no `dateTimeStamp`. The text of another moment is its own
//!   text without a format. The law `moments_at_one_time`: two texts of moments, in any formats, have the same value exactly if
//!   the moments are the same on the time line.
//! - `StampFormat::of` returns the format of such a pattern (`stamp_pattern`), and `push_pattern` writes the pattern.
//! - `clock_text` returns the one text of a time of day that may have parts of a second and a zone (`clock_form`). The law
//!   `one_clock_text`: that text is its own text. `is_clock` returns whether a text has one.
//! - `clock_instant` returns the moment of such a time of day on the time line (`clock_instant`). The law `clocks_have_instants`: a
//!   text has one exactly if it writes a time of day. The law `clocks_at_one_time`: two texts of times of day have the same one
//!   text exactly if they are at the same time, in any formats. `compare_digits` returns the order of two fractions (`digits_cmp`).
//! - `ClockFormat::of` returns the format of a pattern of a time of day (`clock_pattern`), and `push_pattern` writes the pattern.
//! - `read_zoned_date` returns the date of a text that may have a zone (`zoned_date_value`), and `is_zoned_date` whether there is
//!   one. The law `zoned_dates`: a day without a zone is in the years 0001 to 9999, and the text of another date is its own text.
//!   The law `dates_at_one_time`: two texts have the same date exactly if their dates begin at the same time.
//! - `day_instant` and `zoned_date_instant` return the moment at which a date begins.
//! - `ZonedDateFormat::of` returns the format of the pattern of such a date (`zoned_pattern`), and `push_pattern` writes the pattern.
//! - `is_language`, `is_name` and `is_name_token` return whether a text is of the type `language`, `Name` or `NMTOKEN`.
//! - `NumberPattern::of` returns the pattern that a text is, or why it is none (`pattern_of`). `fits` returns whether a
//!   number is written as the pattern says (`fits`). `push_to` writes the pattern (`pattern_form`).
#![tactic(auto)]

mod ascii;
mod clock;
mod clock_form;
mod date;
mod date_format;
mod date_part;
mod date_time;
mod fields;
mod instant;
mod language;
mod lexical_date;
mod lexical_number;
mod moment;
mod number;
mod number_pattern;
mod offset;
mod part_form;
mod pattern;
mod short_number;
mod spaced_moment;
mod stamp;
mod stamp_format;
mod time;
mod values;
mod xml_name;
mod zoned_date;

pub use clock::{
    ClockFormat, ClockPattern, clock_instant, clock_text, clocks_at_one_time, clocks_have_instants,
    is_clock, one_clock_text,
};
pub use date::{DATE_FORMATS, DateFormat, FieldDigits, Separator, one_date, read_date};
pub use date_part::{DatePart, is_date_part};
pub use date_time::{DateTime, Zone, date_times, is_date_time, one_date_time_text, read_date_time};
pub use fields::{PartFields, date_parts_have_fields, part_fields};
pub use instant::{Instant, InstantKind, compare_digits, compare_instants, instant_of};
pub use language::is_language;
pub use lexical_date::{
    date_forms, date_text, moment_text, one_date_text, one_moment_text, refill_date, refill_moment,
};
pub use lexical_number::{number_forms, number_text, one_number_text, refill_number};
pub use moment::{MomentFormat, one_moment, read_moment};
pub use number::{Mark, NumberFault, NumberRules, one_number, read_number};
pub use number_pattern::{ExponentPattern, GroupSizes, NumberPattern, PatternFault};
pub use part_form::{date_part_text, days_at_one_time, one_date_part_text, start_of_day};
pub use pattern::{date_format_of, moment_format_of, time_format_of};
pub use stamp::{moments_at_one_time, read_stamp, stamps};
pub use stamp_format::{OffsetForm, StampFormat, UtcMark, ZoneFormat, ZoneGap};
pub use time::{TimeFormat, is_time};
pub use values::values_read;
pub use xml_name::{is_name, is_name_token};
pub use zoned_date::{
    ZonedDate, ZonedDateFormat, dates_at_one_time, day_instant, is_zoned_date, read_zoned_date,
    zoned_date_instant, zoned_dates,
};
