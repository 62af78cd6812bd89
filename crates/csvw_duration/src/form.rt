//! The canonical text of a duration.
ghost use Rattle.std.specs.Prelude.{◌≡◌, ◌++◌, IfOk, OnOk, Some, is_some, List, ℕ};
ghost use Rattle.std.specs.Str.{IsAscii};
ghost use Rattle.csvw_duration.specs.declared.value.DurationKind.{DurationKind};
ghost use Rattle.csvw_duration.specs.Values.{is_small};
ghost use Rattle.csvw_duration.specs.Forms.{amount, second_text, clock_text, seconds_text, months_text, zero_text, sign_text, is_zero, value_text, duration_form};

use crate::ascii::push_ascii;
use crate::value::{DurationKind, Length, begins_with_minus, duration_fields};
use csvw_text::Text;
use itoa::Buffer;
use std::alloc::{AllocError, Global};

/// A duration has fewer months and fewer seconds than these.
const MONTH_LIMIT: u64 = 12_000_000_000;

const SECOND_LIMIT: u64 = 86_400_000_000_000;

/// Adds a number and its letter, or nothing if the number is 0.
fn push_amount(out: &mut Text, number: u64, letter: &str) -> Result<(), AllocError>
    ensures { OnOk result (out.new ≡ out.old ++ amount number letter.now) }
{
    if number == 0 {
        return Ok(());
    }
    let mut buffer = Buffer::new();
    out.push_str(buffer.format(number))?;
    out.push_str(letter)
}

/// Adds seconds with the digits of a fraction, or nothing if both are 0.
fn push_second(out: &mut Text, second: u64, digits: &[u8]) -> Result<(), AllocError>
    requires { IsAscii digits.now }
    ensures { OnOk result (out.new ≡ out.old ++ second_text second digits.now) }
{
    if digits.is_empty() {
        return push_amount(out, second, "S");
    }
    let mut buffer = Buffer::new();
    out.push_str(buffer.format(second))?;
    out.push_str(".")?;
    push_ascii(out, digits)?;
    out.push_str("S")
}

/// Adds the hours, minutes and seconds of less than a day.
fn push_clock(out: &mut Text, seconds: u64, digits: &[u8]) -> Result<(), AllocError>
    requires { IsAscii digits.now }
    ensures { OnOk result (out.new ≡ out.old ++ clock_text seconds digits.now) }
{
    if seconds == 0 && digits.is_empty() {
        return Ok(());
    }
    out.push_str("T")?;
    push_amount(out, seconds / 3600, "H")?;
    push_amount(out, seconds / 60 % 60, "M")?;
    push_second(out, seconds % 60, digits)
}

/// Adds days, hours, minutes and seconds.
fn push_seconds(out: &mut Text, seconds: u64, digits: &[u8]) -> Result<(), AllocError>
    requires { IsAscii digits.now }
    ensures { OnOk result (out.new ≡ out.old ++ seconds_text seconds digits.now) }
{
    push_amount(out, seconds / 86_400, "D")?;
    push_clock(out, seconds % 86_400, digits)
}

/// Adds years and months.
fn push_months(out: &mut Text, months: u64) -> Result<(), AllocError>
    ensures { OnOk result (out.new ≡ out.old ++ months_text months) }
{
    push_amount(out, months / 12, "Y")?;
    push_amount(out, months % 12, "M")
}

/// Returns the text of the value 0.
fn zero_text(kind: DurationKind) -> &'static str
    ensures { result.now ≡ zero_text kind }
{
    match kind {
        DurationKind::Any | DurationKind::DayTime => "PT0S",
        DurationKind::YearMonth => "P0M",
    }
}

fn sign_text(minus: bool) -> &'static str
    ensures { result.now ≡ sign_text minus }
{
    if minus { "-P" } else { "P" }
}

fn is_zero(length: Length<'_>) -> bool
    ensures { result ≡ is_zero (length.entry.months, length.entry.seconds, length.entry.fraction.now) }
{
    length.months == 0 && length.seconds == 0 && length.fraction.is_empty()
}

fn value_text(
    alloc: Global,
    kind: DurationKind,
    minus: bool,
    length: Length<'_>,
) -> Result<Text, AllocError>
    requires { IsAscii length.fraction.now }
    ensures { IfOk result (λ t. t ≡ value_text kind minus (length.entry.months, length.entry.seconds, length.entry.fraction.now)) }
{
    if is_zero(length) {
        return Text::copied(alloc, zero_text(kind));
    }
    let mut form = Text::copied(alloc, sign_text(minus))?;
    push_months(&mut form, length.months)?;
    push_seconds(&mut form, length.seconds, length.fraction)?;
    Ok(form)
}

/// Returns whether a duration has less than 10^9 years and less than 10^9 days.
fn is_small(length: Length<'_>) -> bool
    ensures { result ≡ is_small (length.entry.months, length.entry.seconds, length.entry.fraction.now) }
{
    length.months < MONTH_LIMIT && length.seconds < SECOND_LIMIT
}

/// Returns the canonical text of the duration that a text writes (XML Schema 1.1 part 2, appendix E.2).
///
/// Returns `None` if the text isn't written as a duration of the kind, if a number or a fraction has more than 9 digits, or if
/// the duration has 10^9 years or 10^9 days or more. Returns `AllocError` if memory runs out.
pub fn duration_text(
    alloc: Global,
    kind: DurationKind,
    text: &str,
) -> Result<Option<Text>, AllocError>
    ensures { IfOk result (λ found. found ≡ duration_form kind text.now) }
{
    let bytes = text.as_bytes();
    match duration_fields(kind, bytes) {
        Some(length) if is_small(length) => {
            Ok(Some(value_text(alloc, kind, begins_with_minus(bytes), length)?))
        }
        _ => Ok(None),
    }
}

/// Returns whether a text writes a duration of a kind. It takes no memory.
pub fn is_duration(kind: DurationKind, text: &str) -> bool
    ensures { result ≡ is_some (duration_form kind text.now) }
{
    match duration_fields(kind, text.as_bytes()) {
        Some(length) => is_small(length),
        None => false,
    }
}

/// A law: a canonical text is its own canonical text.
pub fn one_duration_text()
    ensures { (kind : DurationKind) (text form : List ℕ) → duration_form kind text ≡ Some form → duration_form kind form ≡ Some form }
{}
