//! The canonical text of a double's text.
ghost use Rattle.std.specs.Prelude.{◌≡◌, IfOk, MatchResult, MatchOption, Some, None, is_some, pos, ◌+ℤ◌, ◌-ℤ◌};
ghost use Rattle.std.specs.Fmt.{signed_decimal};
ghost use Rattle.csvw_double.specs.Doubles.{IsNumeralOf, IsShortExponent, is_within};
ghost use Rattle.csvw_double.specs.Forms.{IsDoubleFault, IsNear, double_form, number_of, special_form};

use crate::canonical::{canonical_front, is_canonical};
use crate::form::{Digits, number_text};
use crate::numeral::{DoubleFault, Number, is_negative, number_in};
use crate::order::decimal_of;
use crate::trimmed::{after_zeros, before_zeros};
use csvw_text::Text;
use itoa::Buffer;
use std::alloc::{AllocError, Global};

/// Exponents are below this in size.
const LIMIT: i128 = 1_000_000_000_000_000_000;

/// Returns the canonical text of a value that is no number.
fn special(text: &str) -> Option<&'static str>
    ensures { MatchOption result (special_form text.now ≡ None) (λ form. special_form text.now ≡ Some form.now) }
{
    match text {
        "INF" | "+INF" => Some("INF"),
        "-INF" => Some("-INF"),
        "NaN" => Some("NaN"),
        _ => None,
    }
}

/// Returns how many places the point of a number is after the start of its digits, by its exponent and how many digits are
/// behind the point and from the first that isn't 0.
pub(crate) fn point_of(exponent: i128, fraction: usize, digits: usize) -> i128
    requires { IsShortExponent exponent }
    ensures value { result ≡ (exponent -ℤ pos fraction) +ℤ pos digits }
    ensures near { IsNear result }
{
    exponent - fraction as i128 + digits as i128
}

/// Whether the exponent of a number has at most 18 digits, if one digit is before the point.
fn is_within(point: i128) -> bool
    requires { IsNear point }
    ensures { result ≡ is_within (point -ℤ pos 1) }
{
    let power = point - 1;
    -LIMIT < power && power < LIMIT
}

/// Returns the canonical text of a number, whose text and parts are these, or `None` if its exponent has more than 18 digits.
#[tactic(auto, using(crate::proofs::FormLemmas::digits_ascii, crate::proofs::FormLemmas::short_exponent))]
fn text_of(alloc: Global, text: &[u8], number: &Number<'_>) -> Result<Option<Text>, AllocError>
    requires { IsNumeralOf text.now number.now }
    ensures { IfOk result (λ form. number_of text.now ≡ form) }
{
    let (whole, fraction) = (number.numeral.whole(), number.numeral.fraction());
    let mut all = Vec::with_capacity(alloc, whole.len() + fraction.len())?;
    all.extend_from_slice(whole)?;
    all.extend_from_slice(fraction)?;
    let from_first = after_zeros(all.as_slice());
    let point = point_of(number.exponent, fraction.len(), from_first.len());
    if !is_within(point) {
        return Ok(None);
    }
    let digits = Digits {
        is_negative: is_negative(text),
        digits: before_zeros(from_first),
        point,
    };
    Ok(Some(number_text(alloc, digits)?))
}

/// Returns the canonical text of the double that a text is, or why it is none (XML Schema Part 2, section 3.3.5). Two texts
/// of one value have one canonical text. A number has an exponent in it below 10^-6 and from 10^21.
///
/// Returns `AllocError` if memory runs out.
#[tactic(auto, unfolding(crate::specs::Forms::double_form))]
pub fn canonical_double(alloc: Global, text: &str) -> Result<Result<Text, DoubleFault>, AllocError>
    ensures { IfOk result (λ answer. MatchResult answer (λ form. double_form text.now ≡ Some form) (IsDoubleFault text.now)) }
{
    if is_canonical(text) {
        return Ok(Ok(Text::copied(alloc, text)?));
    }
    if let Some(form) = canonical_front(text) {
        return Ok(Ok(Text::copied(alloc, form)?));
    }
    if let Some(form) = special(text) {
        return Ok(Ok(Text::copied(alloc, form)?));
    }
    let number = match number_in(text.as_bytes()) {
        Ok(number) => number,
        Err(fault) => return Ok(Err(fault)),
    };
    match text_of(alloc, text.as_bytes(), &number)? {
        Some(form) => Ok(Ok(form)),
        None => Ok(Err(DoubleFault::TooLong)),
    }
}

/// Returns whether a text is a double. It takes no memory (XML Schema Part 2, section 3.3.5).
#[tactic(auto, unfolding(crate::specs::Forms::double_form))]
pub fn is_double(text: &str) -> bool
    ensures { result ≡ is_some (double_form text.now) }
{
    if special(text).is_some() {
        return true;
    }
    match number_in(text.as_bytes()) {
        Ok(number) => is_within(decimal_of(text.as_bytes(), &number).point),
        Err(_) => false,
    }
}

/// Returns the canonical text of the double that a text is, or `None` if it is none. Returns `AllocError` if memory runs out.
pub fn double_of(alloc: Global, text: &str) -> Result<Option<Text>, AllocError>
    ensures { IfOk result (λ form. form ≡ double_form text.now) }
{
    Ok(canonical_double(alloc, text)?.ok())
}

/// Returns the canonical text of the double that a whole number is. Returns `AllocError` if memory runs out.
pub fn whole_double(alloc: Global, number: i128) -> Result<Option<Text>, AllocError>
    ensures { IfOk result (λ form. form ≡ double_form (signed_decimal number)) }
{
    let mut buffer = Buffer::new();
    double_of(alloc, buffer.format(number))
}
