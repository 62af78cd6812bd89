//! How a text writes a date that may have a zone.
ghost use Rattle.std.specs.Prelude.{◌≡◌, ◌≢◌, ◌↔◌, ◌++◌, ◌*ℤ◌, pos, IfOk, IfSome, MatchOption, OnOk, List, ℕ, ℤ, Option, Some, None, is_some, string_bytes};
ghost use Rattle.csvw_datatype_core.specs.declared.date.DateFormat.TheVariants.{YearFirst};
ghost use Rattle.csvw_datatype_core.specs.declared.zoned_date.ZonedDate.{ZonedDate};
ghost use Rattle.csvw_datatype_core.specs.declared.zoned_date.ZonedDate.TheVariants as values;
ghost use Rattle.csvw_datatype_core.specs.declared.zoned_date.ZonedDateFormat.{ZonedDateFormat as Format};
ghost use Rattle.csvw_datatype_core.specs.DateTimes.{IsOffset};
ghost use Rattle.csvw_datatype_core.specs.Fields.{option_view};
ghost use Rattle.csvw_datatype_core.specs.LexicalDates.{IsDayNumber};
ghost use Rattle.csvw_datatype_core.specs.Values.{date_value};
ghost use Rattle.csvw_datatype_core.specs.ZonedDates.{date_len, date_parts, date_start, dated, day_instant, fields_len, in_zone, is_day_number, numbers_len, placed_day, shifted, zoned_date_instant, zoned_date_value};

use crate::date::{DateFormat, FieldDigits, read_day};
use crate::date_part::digit_count;
use crate::date_time::zone_at;
use crate::instant::{Instant, placed_instant};
use crate::lexical_date::refill_date;
use crate::offset::push_offset;
use crate::pattern::date_format_of;
use crate::stamp::ending_at;
use crate::stamp_format::{ZoneFormat, zone_split};
use csvw_text::Text;
use std::alloc::{AllocError, Global};

/// How a date is written that may have a zone (Model for Tabular Data and Metadata on the Web, section 6.4.4).
#[derive(Clone, Copy, Debug, PartialEq, Eq)]
pub struct ZonedDateFormat {
    /// How the day is written.
    pub date: DateFormat,
    /// How the zone is written, if a text has one.
    pub zone: Option<ZoneFormat>,
}

/// A date that may have a zone.
#[derive(Drop)]
pub enum ZonedDate {
    /// A day without a zone, in days since 1 January 1970.
    Day(i32),
    /// The one text of a date with a zone. Its offset is from -11:59 to +12:00, and the offset 0 is `Z`.
    Written(Text),
}

/// The first and the last day of the years 0001 to 9999, in days since 1 January 1970.
const FIRST_DAY: i32 = -719_162;

const LAST_DAY: i32 = 2_932_896;

/// The number of bytes of a date in the format `yyyy-MM-dd`.
const DATE_LEN: usize = 10;

impl ZonedDateFormat {
    ghost use Rattle.csvw_datatype_core.specs.ZonedDates.{zoned_format_of, zoned_pattern};

    /// Returns the format of a pattern, or `None` if it is not one of these patterns (Model for Tabular Data and Metadata on the
    /// Web, section 6.4.4). It is the pattern of a date and then perhaps one to three letters `X` or `x`, perhaps after one space.
    #[tactic(auto, unfolding(crate::specs::ZonedDates::zoned_format_of))]
    pub fn of(pattern: &str) -> Option<ZonedDateFormat>
        ensures format { result ≡ zoned_format_of pattern.now }
        ensures pattern { MatchOption result ((f : ZonedDateFormat) → pattern.now ≢ zoned_pattern f) (λ f. pattern.now ≡ zoned_pattern f) }
    {
        let (front, zone) = zone_split(pattern)?;
        Some(ZonedDateFormat {
            date: date_format_of(front)?,
            zone,
        })
    }

    /// Appends the pattern of the format, which `of` reads, to a text. Returns `AllocError` if memory runs out.
    pub fn push_pattern(self, text: &mut String) -> Result<(), AllocError>
        ensures { OnOk result (string_bytes text.new ≡ string_bytes text.old ++ zoned_pattern self) }
    {
        text.push_str(self.date.pattern())?;
        match self.zone {
            Some(zone) => zone.push_pattern(text),
            None => Ok(()),
        }
    }
}

/// Returns the number of bytes of two numbers, the separators after them, and a year.
fn numbers_len(bytes: &[u8]) -> usize
    ensures { result ≡ numbers_len bytes.now }
{
    let first = digit_count(bytes);
    let (_, rest) = bytes.split_at(bytes.len().min(first + 1));
    first + (digit_count(rest) + 6)
}

fn fields_len(digits: FieldDigits, bytes: &[u8]) -> usize
    ensures { result ≡ fields_len digits bytes.now }
{
    match digits {
        FieldDigits::Two => 10,
        FieldDigits::OneOrTwo => numbers_len(bytes),
    }
}

/// Returns how many bytes of a text are its date.
fn date_len(format: DateFormat, bytes: &[u8]) -> usize
    ensures { result ≡ date_len format bytes.now }
{
    match format {
        DateFormat::YearFirst => 10,
        DateFormat::Compact => 8,
        DateFormat::DayFirst(digits, _) | DateFormat::MonthFirst(digits, _) => {
            fields_len(digits, bytes)
        }
    }
}

/// What a text of a date writes.
#[derive(Clone, Copy)]
struct DateParts {
    /// The day without the zone, in days since 1 January 1970.
    day: i32,
    /// How many minutes the zone is ahead of `Z`, if there is a zone.
    minutes: Option<i32>,
}

/// Returns the day that bytes write, in days since 1 January 1970.
fn day_at(format: DateFormat, bytes: &[u8]) -> Option<i32>
    ensures day { result ≡ date_value format bytes.now }
    ensures range { IfSome result IsDayNumber }
{
    read_day(format, bytes)
}

/// Reads what a text of a format writes.
#[tactic(auto, unfolding(crate::specs::ZonedDates::date_parts))]
fn format_parts(format: ZonedDateFormat, bytes: &[u8]) -> Option<DateParts>
    ensures parts { option_view (λ p. (p.day, p.minutes)) result ≡ date_parts (Some format) bytes.now }
    ensures day { IfSome result (λ p. IsDayNumber p.day) }
    ensures minutes { IfSome result (λ p. IfSome p.minutes IsOffset) }
{
    let (front, rest) = bytes.split_at(bytes.len().min(date_len(format.date, bytes)));
    let day = day_at(format.date, front)?;
    let minutes = ending_at(format.zone, rest)?;
    Some(DateParts { day, minutes })
}

/// Reads what a text of XML Schema writes.
#[tactic(auto, unfolding(crate::specs::ZonedDates::date_parts))]
fn any_parts(bytes: &[u8]) -> Option<DateParts>
    ensures parts { option_view (λ p. (p.day, p.minutes)) result ≡ date_parts None bytes.now }
    ensures day { IfSome result (λ p. IsDayNumber p.day) }
    ensures minutes { IfSome result (λ p. IfSome p.minutes IsOffset) }
{
    let (front, rest) = bytes.split_at(bytes.len().min(DATE_LEN));
    let day = day_at(DateFormat::YearFirst, front)?;
    let minutes = zone_at(rest)?;
    Some(DateParts { day, minutes })
}

fn parts_of(format: Option<ZonedDateFormat>, text: &str) -> Option<DateParts>
    ensures parts { option_view (λ p. (p.day, p.minutes)) result ≡ date_parts format text.now }
    ensures day { IfSome result (λ p. IsDayNumber p.day) }
    ensures minutes { IfSome result (λ p. IfSome p.minutes IsOffset) }
{
    match format {
        Some(format) => format_parts(format, text.as_bytes()),
        None => any_parts(text.as_bytes()),
    }
}

fn is_day_number(day: i32) -> bool
    ensures { result ≡ is_day_number day }
{
    FIRST_DAY <= day && day <= LAST_DAY
}

/// Returns the text of a day and its offset.
fn dated(alloc: Global, day: i32, minutes: i32) -> Result<Option<ZonedDate>, AllocError>
    requires { IsOffset minutes }
    ensures { IfOk result (λ o. o ≡ dated day minutes) }
{
    if !is_day_number(day) {
        return Ok(None);
    }
    let mut out = Text::new(alloc);
    refill_date(&mut out, day)?;
    push_offset(&mut out, minutes)?;
    Ok(Some(ZonedDate::Written(out)))
}

/// Returns the day and the offset that are written for a day and its offset.
fn shifted(day: i32, minutes: i32) -> (i32, i32)
    requires day { IsDayNumber day }
    requires minutes { IsOffset minutes }
    ensures shifted { (result.0, result.1) ≡ shifted day minutes }
    ensures offset { IsOffset result.1 }
{
    if minutes > 720 {
        (day - 1, minutes - 1440)
    } else if minutes > -720 {
        (day, minutes)
    } else {
        (day + 1, minutes + 1440)
    }
}

fn in_zone(alloc: Global, day: i32, minutes: i32) -> Result<Option<ZonedDate>, AllocError>
    requires day { IsDayNumber day }
    requires minutes { IsOffset minutes }
    ensures { IfOk result (λ o. o ≡ in_zone day minutes) }
{
    let (day, minutes) = shifted(day, minutes);
    dated(alloc, day, minutes)
}

/// Returns the date that a text writes, in a format or as XML Schema writes it (XML Schema 1.1 part 2, section 3.3.9).
///
/// Returns `None` if the text isn't written so, or if its day isn't in the years 0001 to 9999. With an offset above +12:00 that is
/// the day before, and with one below -11:59 the day after. Returns `AllocError` if memory runs out.
pub fn read_zoned_date(
    alloc: Global,
    format: Option<ZonedDateFormat>,
    text: &str,
) -> Result<Option<ZonedDate>, AllocError>
    ensures { IfOk result (λ o. o ≡ zoned_date_value format text.now) }
{
    match parts_of(format, text) {
        Some(parts) => match parts.minutes {
            Some(minutes) => in_zone(alloc, parts.day, minutes),
            None => Ok(Some(ZonedDate::Day(parts.day))),
        },
        None => Ok(None),
    }
}

/// Returns whether the day that is written is in the years 0001 to 9999.
fn is_in_zone(day: i32, minutes: i32) -> bool
    requires day { IsDayNumber day }
    requires minutes { IsOffset minutes }
    ensures { result ≡ is_some (in_zone day minutes) }
{
    let (day, _) = shifted(day, minutes);
    is_day_number(day)
}

/// Returns whether a text writes a date of XML Schema. It takes no memory.
pub fn is_zoned_date(text: &str) -> bool
    ensures { result ≡ is_some (zoned_date_value None text.now) }
{
    match any_parts(text.as_bytes()) {
        Some(parts) => match parts.minutes {
            Some(minutes) => is_in_zone(parts.day, minutes),
            None => true,
        },
        None => false,
    }
}

/// Returns the moment at which a day without a zone begins, of days since 1 January 1970.
pub fn day_instant(day: i32) -> Instant<'static>
    ensures { (result.second, result.digits.now, result.kind) ≡ day_instant day }
{
    Instant::local(day as i64 * 86_400)
}

/// Returns the moment at which the date that a text of XML Schema writes begins (XML Schema 1.1 part 2, section 3.3.9). It takes no
/// memory.
///
/// Returns `None` if the text isn't written as a date.
pub fn zoned_date_instant(text: &str) -> Option<Instant<'static>>
    ensures { option_view (λ i. (i.second, i.digits.now, i.kind)) result ≡ zoned_date_instant text.now }
{
    let parts = any_parts(text.as_bytes())?;
    Some(placed_instant(parts.day as i64 * 86_400, &[], parts.minutes))
}

/// A law: a day without a zone is in the years 0001 to 9999. The text of another date is its own text.
pub fn zoned_dates()
    ensures in_range { (format : Option Format) (text : List ℕ) (day : ℤ) → zoned_date_value format text ≡ Some (values.Day day) → IsDayNumber day }
    ensures written { (format : Option Format) (text form : List ℕ) → zoned_date_value format text ≡ Some (values.Written form)
        → zoned_date_value None form ≡ Some (values.Written form) }
{}

/// A law: two texts of dates have the same value exactly if their dates begin at the same time, in any formats.
pub fn dates_at_one_time()
    ensures { (f g : Option Format) (s t : List ℕ) (x y : ZonedDate) → zoned_date_value f s ≡ Some x → zoned_date_value g t ≡ Some y
        → (x ≡ y) ↔ (date_start f s ≡ date_start g t) }
{}
