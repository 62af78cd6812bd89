//! How a text writes a date.
ghost use Rattle.std.specs.Prelude.{◌≡◌, ◌≤◌, ◌<◌, MatchOption, pos, Some, None, ℤ, ◌-◌};
ghost use Rattle.csvw_datatype_core.specs.Dates.{IsDay, day_number, ReadsDate};
ghost use Rattle.std.specs.Char.{IsAsciiDigit};
ghost use Rattle.csvw_datatype_core.specs.Fields.{two_at, short_at, four_at, after_separator, date_fields, option_view, at_end};
ghost use Rattle.csvw_datatype_core.specs.declared.date.DateFormat.TheVariants.{Compact, DayFirst, MonthFirst, YearFirst};

use jiff::civil::Date;

/// The separator between the fields of a date.
#[derive(Clone, Copy, Debug, PartialEq, Eq)]
pub enum Separator {
    /// `-`.
    Dash,
    /// `/`.
    Slash,
    /// `.`.
    Dot,
}

/// The number of digits of a day or a month.
#[derive(Clone, Copy, Debug, PartialEq, Eq)]
pub enum FieldDigits {
    /// `dd` and `MM`.
    Two,
    /// `d` and `M`.
    OneOrTwo,
}

/// The order of a date's fields, their digits and their separator (Model for Tabular Data and Metadata on the Web,
/// section 6.4.4).
#[derive(Clone, Copy, Debug, PartialEq, Eq)]
pub enum DateFormat {
    /// `yyyy-MM-dd`.
    YearFirst,
    /// `yyyyMMdd`.
    Compact,
    /// `dd-MM-yyyy` and the like, with other digits or another separator.
    DayFirst(FieldDigits, Separator),
    /// `MM-dd-yyyy` and the like, with other digits or another separator.
    MonthFirst(FieldDigits, Separator),
}

/// Each format of a date (Model for Tabular Data and Metadata on the Web, section 6.4.4). Those with the day first come before
/// those with the month first.
pub const DATE_FORMATS: [DateFormat; 14] = [
    DateFormat::YearFirst,
    DateFormat::Compact,
    DateFormat::DayFirst(FieldDigits::Two, Separator::Dash),
    DateFormat::DayFirst(FieldDigits::Two, Separator::Slash),
    DateFormat::DayFirst(FieldDigits::Two, Separator::Dot),
    DateFormat::DayFirst(FieldDigits::OneOrTwo, Separator::Dash),
    DateFormat::DayFirst(FieldDigits::OneOrTwo, Separator::Slash),
    DateFormat::DayFirst(FieldDigits::OneOrTwo, Separator::Dot),
    DateFormat::MonthFirst(FieldDigits::Two, Separator::Dash),
    DateFormat::MonthFirst(FieldDigits::Two, Separator::Slash),
    DateFormat::MonthFirst(FieldDigits::Two, Separator::Dot),
    DateFormat::MonthFirst(FieldDigits::OneOrTwo, Separator::Dash),
    DateFormat::MonthFirst(FieldDigits::OneOrTwo, Separator::Slash),
    DateFormat::MonthFirst(FieldDigits::OneOrTwo, Separator::Dot),
];

impl Separator {
    ghost use Rattle.csvw_datatype_core.specs.Dates.{separator_byte};

    fn byte(self) -> u8
        ensures { result ≡ separator_byte self }
    {
        match self {
            Separator::Dash => b'-',
            Separator::Slash => b'/',
            Separator::Dot => b'.',
        }
    }
}

impl FieldDigits {
    ghost use Rattle.csvw_datatype_core.specs.Dates.{is_padded};

    fn is_padded(self) -> bool
        ensures { result ≡ is_padded self }
    {
        matches!(self, FieldDigits::Two)
    }
}

/// Returns the day that a text writes, in days since 1 January 1970.
///
/// Returns `None` if the text isn't in the format, or if no day of the years 0001 to 9999 has these fields.
#[inline(always)]
pub fn read_date(format: DateFormat, text: &str) -> Option<i32>
    ensures { MatchOption result ((day : ℤ) → ReadsDate format text.now day → ⊥) (ReadsDate format text.now) }
{
    read_day(format, text.as_bytes())
}

#[inline(always)]
pub(crate) fn read_day(format: DateFormat, bytes: &[u8]) -> Option<i32>
    ensures { MatchOption result ((day : ℤ) → ReadsDate format bytes.now day → ⊥) (ReadsDate format bytes.now) }
{
    let (year, month, day) = fields(format, bytes)?;
    day_of(year, month, day)
}

fn day_of(year: u16, month: u8, day: u8) -> Option<i32>
    requires year { year < 10000 }
    requires month { month < 100 }
    requires day { day < 100 }
    ensures { MatchOption result (¬ IsDay year month day)
        (λ n. IsDay year month day × (n ≡ day_number year month day)) }
{
    if year == 0 {
        return None;
    }
    match Date::new(year as i16, month as i8, day as i8) {
        Ok(date) => Some(date.to_plain().to_unix_epoch_day()),
        Err(_) => None,
    }
}

fn fields(format: DateFormat, bytes: &[u8]) -> Option<(u16, u8, u8)>
    ensures { result ≡ date_fields format bytes.now }
{
    match format {
        DateFormat::YearFirst => year_first(bytes),
        DateFormat::Compact => compact(bytes),
        DateFormat::DayFirst(digits, by) => day_first(digits, by, bytes),
        DateFormat::MonthFirst(digits, by) => month_first(digits, by, bytes),
    }
}

#[tactic(auto, unfolding(crate::specs::Fields::date_fields))]
fn year_first(bytes: &[u8]) -> Option<(u16, u8, u8)>
    ensures { result ≡ date_fields YearFirst bytes.now }
{
    let (year, rest) = four(bytes)?;
    let (month, rest) = two(past(rest, b'-')?)?;
    let (day, rest) = two(past(rest, b'-')?)?;
    ended(rest)?;
    Some((year, month, day))
}

#[tactic(auto, unfolding(crate::specs::Fields::date_fields))]
fn compact(bytes: &[u8]) -> Option<(u16, u8, u8)>
    ensures { result ≡ date_fields Compact bytes.now }
{
    let (year, rest) = four(bytes)?;
    let (month, rest) = two(rest)?;
    let (day, rest) = two(rest)?;
    ended(rest)?;
    Some((year, month, day))
}

#[tactic(auto, unfolding(crate::specs::Fields::date_fields))]
fn day_first(digits: FieldDigits, by: Separator, bytes: &[u8]) -> Option<(u16, u8, u8)>
    ensures { result ≡ date_fields (DayFirst digits by) bytes.now }
{
    let padded = digits.is_padded();
    let (day, rest) = short(bytes, padded)?;
    let (month, rest) = short(past(rest, by.byte())?, padded)?;
    let (year, rest) = four(past(rest, by.byte())?)?;
    ended(rest)?;
    Some((year, month, day))
}

#[tactic(auto, unfolding(crate::specs::Fields::date_fields))]
fn month_first(digits: FieldDigits, by: Separator, bytes: &[u8]) -> Option<(u16, u8, u8)>
    ensures { result ≡ date_fields (MonthFirst digits by) bytes.now }
{
    let padded = digits.is_padded();
    let (month, rest) = short(bytes, padded)?;
    let (day, rest) = short(past(rest, by.byte())?, padded)?;
    let (year, rest) = four(past(rest, by.byte())?)?;
    ended(rest)?;
    Some((year, month, day))
}

pub(crate) fn ended(bytes: &[u8]) -> Option<()>
    ensures { result ≡ at_end bytes.now }
{
    if bytes.is_empty() { Some(()) } else { None }
}

pub(crate) fn past(bytes: &[u8], by: u8) -> Option<&[u8]>
    ensures { option_view (λ rest. rest.now) result ≡ after_separator by bytes.now }
{
    match bytes {
        [first, rest @ ..] if *first == by => Some(rest),
        _ => None,
    }
}

fn digit(byte: u8) -> u8
    requires { IsAsciiDigit byte }
    ensures { result ≡ byte - 48 }
{
    byte - 48
}

pub(crate) fn two(bytes: &[u8]) -> Option<(u8, &[u8])>
    ensures { option_view (λ x. (x.0, x.1.now)) result ≡ two_at bytes.now }
{
    match bytes {
        [a, b, rest @ ..] if a.is_ascii_digit() && b.is_ascii_digit() => {
            Some((digit(*a) * 10 + digit(*b), rest))
        }
        _ => None,
    }
}

fn short(bytes: &[u8], padded: bool) -> Option<(u8, &[u8])>
    ensures { option_view (λ x. (x.0, x.1.now)) result ≡ short_at padded bytes.now }
{
    match bytes {
        [a, b, rest @ ..] if a.is_ascii_digit() && b.is_ascii_digit() => {
            Some((digit(*a) * 10 + digit(*b), rest))
        }
        [a, rest @ ..] if !padded && a.is_ascii_digit() => Some((digit(*a), rest)),
        _ => None,
    }
}

fn four(bytes: &[u8]) -> Option<(u16, &[u8])>
    ensures { option_view (λ x. (x.0, x.1.now)) result ≡ four_at bytes.now }
{
    let (high, rest) = two(bytes)?;
    let (low, rest) = two(rest)?;
    Some((high as u16 * 100 + low as u16, rest))
}

ghost use Rattle.std.specs.Prelude.{List, ℕ};
ghost use Rattle.csvw_datatype_core.specs.LexicalDates.{IsDayNumber};

/// A law: a text is one date at most, and that date is in the years 0001 to 9999.
pub fn one_date()
    ensures same { (f : DateFormat) (text : List ℕ) (a b : ℤ) → ReadsDate f text a → ReadsDate f text b → a ≡ b }
    ensures in_range { (f : DateFormat) (text : List ℕ) (day : ℤ) → ReadsDate f text day → IsDayNumber day }
{}
