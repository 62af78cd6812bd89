//! A number's text: a sign, digits and an exponent (XML Schema Part 2, section 3.3.5.1).
ghost use Rattle.std.specs.Prelude.{◌≡◌, MatchOption, MatchResult, true};
ghost use Rattle.std.specs.Prelude.{◌<◌, ◌≤◌, ◌^◌, false};
ghost use Rattle.std.specs.Str.Parse.{AllDigits, digits_value};
ghost use Rattle.csvw_double.specs.Doubles.{IsNumeralOf, IsUnread, after_sign, exponent_of, is_negative, parts_of};

use fast_float::{Numeral, parse_u64};
use std::error::Error;
use std::fmt;

/// Exponents are below this in size.
const LIMIT: u64 = 1_000_000_000_000_000_000;

/// Why a text is not a double.
#[derive(Clone, Copy, Debug, PartialEq, Eq)]
pub enum DoubleFault {
    /// The text does not spell one.
    Bad,
    /// Its exponent has more than 18 digits, as it is written or with one digit before the point.
    TooLong,
}

impl DoubleFault {
    /// Returns what is wrong and what to do, as a sentence without its full stop.
    fn sentence(&self) -> &'static str {
        match self {
            DoubleFault::Bad => {
                "the text is no double: write digits, perhaps with a point and an exponent, or INF, -INF or NaN"
            }
            DoubleFault::TooLong => "the exponent has more than 18 digits: write a smaller one",
        }
    }
}

impl fmt::Display for DoubleFault {
    fn fmt<W: fmt::Write>(&self, f: &mut fmt::Formatter<W>) -> fmt::Result {
        f.write_str(self.sentence())
    }
}

impl Error for DoubleFault {}

/// Whether a text begins with a minus sign.
pub(crate) fn is_negative(text: &[u8]) -> bool
    ensures { result ≡ is_negative text.now }
{
    matches!(text, [b'-', ..])
}

/// Returns a text without a sign at its start.
fn after_sign(text: &[u8]) -> &[u8]
    ensures { result.now ≡ after_sign text.now }
{
    match text {
        [b'+' | b'-', rest @ ..] => rest,
        _ => text,
    }
}

/// The parts of a number's text after its sign.
#[derive(Drop)]
pub(crate) struct Number<'a> {
    /// The digits before and after the point.
    pub(crate) numeral: Numeral<'a>,
    /// The exponent that is written, or 0.
    pub(crate) exponent: i128,
}

/// Returns the number that digits write, or `None` if it is 10^18 or more. No digits write 0.
fn number_of(digits: &[u8]) -> Option<u64>
    requires { AllDigits 10 digits.now }
    ensures { MatchOption result (10 ^ 18 ≤ digits_value 10 digits.now) (λ n. (n ≡ digits_value 10 digits.now) × (n < 10 ^ 18)) }
{
    if digits.is_empty() {
        return Some(0);
    }
    match parse_u64(digits) {
        Ok(number) if number < LIMIT => Some(number),
        _ => None,
    }
}

/// Returns the exponent of a numeral, or `None` if it is 10^18 or more in size.
fn exponent_of(numeral: &Numeral<'_>) -> Option<i128>
    ensures { MatchOption result (10 ^ 18 ≤ digits_value 10 numeral.now.exponent)
        (λ x. (digits_value 10 numeral.now.exponent < 10 ^ 18) × (x ≡ exponent_of numeral.now)) }
{
    let size = i128::from(number_of(numeral.exponent())?);
    Some(if numeral.is_exponent_negative() {
        -size
    } else {
        size
    })
}

/// Returns the parts of a number's text, or why it is none.
pub(crate) fn number_in(text: &[u8]) -> Result<Number<'_>, DoubleFault>
    ensures { MatchResult result (IsNumeralOf text.now) (IsUnread text.now) }
{
    let rest = after_sign(text);
    let numeral = Numeral::scan(rest);
    if numeral.len() != rest.len() || !numeral.has_digits() {
        return Err(DoubleFault::Bad);
    }
    match exponent_of(&numeral) {
        Some(exponent) => Ok(Number { numeral, exponent }),
        None => Err(DoubleFault::TooLong),
    }
}
