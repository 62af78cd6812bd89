//! Short numbers, read by their bytes.
ghost use Rattle.std.specs.Prelude.{◌≡◌, ◌+◌, ◌*◌, ◌^◌, ◌<◌, IfSome};
ghost use Rattle.std.specs.Str.{chars};
ghost use Rattle.csvw_datatype_core.specs.declared.number.NumberRules.{NumberRules};
ghost use Rattle.csvw_datatype_core.specs.declared.number.Scan.{Scan};
ghost use Rattle.csvw_datatype_core.specs.declared.number.Place.TheVariants as places;
ghost use Rattle.csvw_datatype_core.specs.Numbers.{IsLawful, ReadsNumber};
ghost use Rattle.csvw_datatype_core.specs.Step.{begun, Continues, EndsWith, IsBegun, CountsWith, signed_begun};

use crate::number::{NumberRules, holds, signed};

/// Ten times a whole part below this limit fits in 64 bits.
const SHORT_LIMIT: u64 = 1_000_000_000_000_000_000;

const UNIT: u128 = 1_000_000_000_000_000_000;

/// The weight of the first digit of a fraction.
const TENTH: u64 = 100_000_000_000_000_000;

/// A whole part as far as it was read, and the bytes after it.
#[derive(Clone, Copy)]
struct Whole<'a> {
    value: u64,
    rest: &'a [u8],
}

/// Reads the digits of a whole part after the first one, until the whole part is long.
fn whole_digits(first: u8, bytes: &[u8]) -> Whole<'_>
    ensures { (rules : NumberRules) (s : Scan) → IsBegun s → s.place ≡ places.Whole → s.whole ≡ first
        → Continues rules s bytes.now (record s { whole = result.value }) result.rest.now }
{
    let mut value = first as u64;
    let mut rest = bytes;
    loop {
        match rest {
            [digit, behind @ ..] if digit.is_ascii_digit() && value < SHORT_LIMIT => {
                value = value * 10 + (*digit - 48) as u64;
                rest = behind;
            }
            _ => return Whole { value, rest },
        }
    }
}

/// A fraction as far as it was read, in units of 10^-18, the weight of the next digit, and the bytes after the
/// fraction.
#[derive(Clone, Copy)]
struct Fraction<'a> {
    units: u64,
    weight: u64,
    rest: &'a [u8],
}

/// Reads the digits of a fraction, 18 at most.
fn fraction_digits(bytes: &[u8]) -> Fraction<'_>
    ensures { (rules : NumberRules) (s : Scan) → IsBegun s → s.place ≡ places.Fraction
        → Continues rules s bytes.now (record s { fraction = result.units; weight = result.weight }) result.rest.now }
{
    let mut units = 0;
    let mut weight = TENTH;
    let mut rest = bytes;
    loop {
        match rest {
            [digit, behind @ ..] if digit.is_ascii_digit() && weight > 0 => {
                units += (*digit - 48) as u64 * weight;
                weight /= 10;
                rest = behind;
            }
            _ => {
                return Fraction {
                    units,
                    weight,
                    rest,
                };
            }
        }
    }
}

/// Returns the fraction that follows a whole part, or 0 if none follows.
fn fraction_behind(rules: &NumberRules, bytes: &[u8]) -> Option<u64>
    requires { IsLawful rules.now }
    ensures { IfSome result (λ units. (s : Scan) → IsBegun s → s.place ≡ places.Whole → EndsWith rules.now s bytes.now units) }
{
    match bytes {
        [] => Some(0),
        [point, behind @ ..] if point.is_ascii() && holds(rules.decimal_char, *point as char) => {
            let fraction = fraction_digits(behind);
            if fraction.rest.is_empty() {
                Some(fraction.units)
            } else {
                None
            }
        }
        _ => None,
    }
}

/// The sign that was read, and the bytes after it.
#[derive(Clone, Copy)]
struct Signed<'a> {
    /// Whether there is a sign.
    has_sign: bool,
    /// Whether it is a minus sign.
    minus: bool,
    digits: &'a [u8],
}

fn sign_read(text: &[u8]) -> Signed<'_>
    ensures { (rules : NumberRules) → Continues rules begun text.now (signed_begun result.has_sign result.minus) result.digits.now }
{
    match text {
        [first, digits @ ..] if *first == b'-' => Signed {
            has_sign: true,
            minus: true,
            digits,
        },
        [first, digits @ ..] if *first == b'+' => Signed {
            has_sign: true,
            minus: false,
            digits,
        },
        _ => Signed {
            has_sign: false,
            minus: false,
            digits: text,
        },
    }
}

/// Returns the number of the digits, in units of 10^-18, or `None` if the text may be written otherwise or be long.
fn short_count(rules: &NumberRules, read: Signed<'_>) -> Option<u128>
    requires { IsLawful rules.now }
    ensures count { IfSome result (λ n. CountsWith rules.now (signed_begun read.entry.has_sign read.entry.minus) read.entry.digits.now n) }
    ensures size { IfSome result (λ n. n < 10 ^ 38) }
{
    match read.digits {
        [digit, behind @ ..] if digit.is_ascii_digit() => {
            let whole = whole_digits(*digit - 48, behind);
            let units = fraction_behind(rules, whole.rest)?;
            Some(whole.value as u128 * UNIT + units as u128)
        }
        _ => None,
    }
}

/// Returns the number that a text of digits spells, or `None` if the text may be written otherwise or be long.
pub(crate) fn short_number(rules: &NumberRules, text: &[u8]) -> Option<i128>
    requires { IsLawful rules.now }
    ensures { IfSome result (ReadsNumber rules.now (chars text.now)) }
{
    let read = sign_read(text);
    let count = short_count(rules, read)?;
    Some(signed(read.minus, count))
}
