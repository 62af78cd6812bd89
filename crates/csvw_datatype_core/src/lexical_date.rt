//! The lexical forms of days and moments.
ghost use Rattle.std.specs.Prelude.{◌≡◌, ◌≤◌, ◌+◌, ◌*◌, ◌<◌, ◌++◌, [], ◌∷◌, IfOk, OnOk, string_bytes, List, ℕ, ℤ, pos, ◌+ℤ◌, ◌*ℤ◌};
ghost use Rattle.std.specs.Str.{IsAscii};
ghost use Rattle.csvw_datatype_core.specs.declared.date.DateFormat.TheVariants.{YearFirst};
ghost use Rattle.csvw_datatype_core.specs.declared.moment.MomentFormat.TheVariants.{Seconds};
ghost use Rattle.csvw_datatype_core.specs.Dates.{IsDay, day_number, ReadsDate};
ghost use Rattle.csvw_datatype_core.specs.Moments.{ReadsMoment};
ghost use Rattle.csvw_datatype_core.specs.LexicalDates.{IsDayNumber, IsMomentNumber, AppendsDate, AppendsTime};
ghost use Rattle.csvw_datatype_core.specs.LexicalDates.{IsFields, IsDayAndSecond, two_digits, four_digits, date_digits, time_digits};
ghost use Rattle.csvw_datatype_core.specs.Forms.{date_form, moment_form};

use crate::ascii::{push_ascii, refill_ascii};
use csvw_text::Text;
use jiff_core::civil::Date;
use std::alloc::{AllocError, Global};

/// Writes the lexical form `yyyy-MM-dd` of a day over a text, in its memory (XML Schema 1.1 part 2, section 3.3.9).
///
/// The day is in days since 1 January 1970, and in the years 0001 to 9999. Returns `AllocError` if memory runs out.
pub fn refill_date(out: &mut Text, day: i32) -> Result<(), AllocError>
    requires { IsDayNumber day }
    ensures { OnOk result (out.new ≡ date_form day) }
{
    write_date(out, day)
}

/// Returns the lexical form `yyyy-MM-dd` of a day (XML Schema 1.1 part 2, section 3.3.9).
///
/// The day is in days since 1 January 1970, and in the years 0001 to 9999. Returns `AllocError` if memory runs out.
pub fn date_text(alloc: Global, day: i32) -> Result<String, AllocError>
    requires { IsDayNumber day }
    ensures form { IfOk result (λ s. ReadsDate YearFirst (string_bytes s) day) }
    ensures text { IfOk result (λ s. string_bytes s ≡ date_form day) }
{
    let mut out = Text::new(alloc);
    refill_date(&mut out, day)?;
    Ok(out.into_string())
}

/// Writes the lexical form `yyyy-MM-ddTHH:mm:ss` of a moment over a text, in its memory (XML Schema 1.1 part 2,
/// section 3.3.7).
///
/// The moment is in seconds since 1 January 1970, and in the years 0001 to 9999. Returns `AllocError` if memory runs
/// out.
pub fn refill_moment(out: &mut Text, moment: i64) -> Result<(), AllocError>
    requires { IsMomentNumber moment }
    ensures { OnOk result (out.new ≡ moment_form moment) }
{
    let (day, second) = day_and_second(moment);
    write_date(out, day)?;
    push_time(out, second)
}

/// Returns the lexical form `yyyy-MM-ddTHH:mm:ss` of a moment (XML Schema 1.1 part 2, section 3.3.7).
///
/// The moment is in seconds since 1 January 1970, and in the years 0001 to 9999. Returns `AllocError` if memory runs
/// out.
pub fn moment_text(alloc: Global, moment: i64) -> Result<String, AllocError>
    requires { IsMomentNumber moment }
    ensures form { IfOk result (λ s. ReadsMoment Seconds (string_bytes s) moment) }
    ensures text { IfOk result (λ s. string_bytes s ≡ moment_form moment) }
{
    let mut out = Text::new(alloc);
    refill_moment(&mut out, moment)?;
    Ok(out.into_string())
}

/// The number of days from 1 January of the year 1 to 1 January 1970.
const DAYS_BEFORE_1970: i32 = 719_162;

fn day_and_second(moment: i64) -> (i32, u32)
    requires { IsMomentNumber moment }
    ensures { IsDayAndSecond moment result.0 result.1 }
{
    let seconds = (moment + 62_135_596_800) as u64;
    (
        (seconds / 86_400) as i32 - DAYS_BEFORE_1970,
        (seconds % 86_400) as u32,
    )
}

fn write_date(out: &mut Text, day: i32) -> Result<(), AllocError>
    requires { IsDayNumber day }
    ensures { OnOk result (AppendsDate [] out.new day) }
{
    let (year, month, date) = fields(day);
    refill_ascii(out, &date_bytes(year, month, date))
}

fn fields(day: i32) -> (u16, u8, u8)
    requires { IsDayNumber day }
    ensures { IsFields day result.0 result.1 result.2 }
{
    match Date::from_unix_epoch_day(day as i64) {
        Ok(date) => (date.year.unsigned_abs(), date.month, date.day),
        Err(_) => unreachable!(),
    }
}

fn date_bytes(year: u16, month: u8, date: u8) -> [u8; 10]
    requires year { year < 10_000 }
    requires month { month < 100 }
    requires date { date < 100 }
    ensures text { result ≡ date_digits year month date }
    ensures ascii { IsAscii result }
{
    let high = (year / 100) as u8;
    let low = (year % 100) as u8;
    [
        48 + high / 10,
        48 + high % 10,
        48 + low / 10,
        48 + low % 10,
        b'-',
        48 + month / 10,
        48 + month % 10,
        b'-',
        48 + date / 10,
        48 + date % 10,
    ]
}

fn push_time(out: &mut Text, second: u32) -> Result<(), AllocError>
    requires { second < 86_400 }
    ensures { OnOk result (AppendsTime out.old out.new second) }
{
    let time = time_bytes(
        (second / 3600) as u8,
        (second / 60 % 60) as u8,
        (second % 60) as u8,
    );
    push_ascii(out, &time)
}

fn time_bytes(hour: u8, minute: u8, second: u8) -> [u8; 9]
    requires hour { hour < 100 }
    requires minute { minute < 100 }
    requires second { second < 100 }
    ensures text { result ≡ time_digits hour minute second }
    ensures ascii { IsAscii result }
{
    [
        b'T',
        48 + hour / 10,
        48 + hour % 10,
        b':',
        48 + minute / 10,
        48 + minute % 10,
        b':',
        48 + second / 10,
        48 + second % 10,
    ]
}

/// A law: a day has one text in the form `yyyy-MM-dd`.
pub fn one_date_text()
    ensures { (s t : List ℕ) (day : ℤ) → ReadsDate YearFirst s day → ReadsDate YearFirst t day → s ≡ t }
{}

/// A law: a moment has one text in the form `yyyy-MM-ddTHH:mm:ss`.
pub fn one_moment_text()
    ensures { (s t : List ℕ) (moment : ℤ) → ReadsMoment Seconds s moment → ReadsMoment Seconds t moment → s ≡ t }
{}

/// A law: the text of a day of the years 0001 to 9999 in the form `yyyy-MM-dd` is the one that a function returns,
/// and no other. The same holds of a moment in the form `yyyy-MM-ddTHH:mm:ss`.
pub fn date_forms()
    ensures day { (text : List ℕ) (day : ℤ) → ReadsDate YearFirst text day → text ≡ date_form day }
    ensures moment { (text : List ℕ) (moment : ℤ) → ReadsMoment Seconds text moment → text ≡ moment_form moment }
    ensures is_day { (day : ℤ) → IsDayNumber day → ReadsDate YearFirst (date_form day) day }
    ensures is_moment { (moment : ℤ) → IsMomentNumber moment → ReadsMoment Seconds (moment_form moment) moment }
{}
