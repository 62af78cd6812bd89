//! Digits at the start of a text.
ghost use Rattle.std.specs.Prelude.{◌≡◌, ◌≤◌, ◌<◌, ◌^◌, IfSome, length};
ghost use Rattle.std.specs.Str.{IsAscii};
ghost use Rattle.std.specs.Str.Parse.{AllDigits, digits_value};
ghost use Rattle.csvw_duration.specs.Digits.{IsFraction, option_view, first_digits, is_short, digits_at, number_at, after_byte, at_end, fraction_at, trimmed};

/// Returns how many digits a text begins with.
fn digit_count(bytes: &[u8]) -> usize
    ensures { result ≡ length (first_digits bytes.now) }
{
    bytes.iter().take_while(|b| b.is_ascii_digit()).count()
}

/// Returns whether digits are 1 to 9.
fn is_short(count: usize) -> bool
    ensures { result ≡ is_short count }
{
    0 < count && count < 10
}

/// Splits a text after the digits that it begins with. Returns `None` if they aren't 1 to 9.
fn digits_at(bytes: &[u8]) -> Option<(&[u8], &[u8])>
    ensures split { option_view (λ x. (x.0.now, x.1.now)) result ≡ digits_at bytes.now }
    ensures digits { IfSome result (λ x. AllDigits 10 x.0.now) }
    ensures short { IfSome result (λ x. length x.0.now ≤ 9) }
{
    let count = digit_count(bytes);
    if is_short(count) {
        Some(bytes.split_at(count))
    } else {
        None
    }
}

/// Returns the number of at most 9 digits.
pub(crate) fn number(digits: &[u8]) -> u64
    requires digits { AllDigits 10 digits.now }
    requires short { length digits.now ≤ 9 }
    ensures value { result ≡ digits_value 10 digits.now }
    ensures small { result < 10 ^ 9 }
{
    let mut value = 0;
    for digit in digits {
        value = value * 10 + (*digit - b'0') as u64;
    }
    value
}

/// Reads the number at the start of a text. Returns `None` if its digits aren't 1 to 9.
pub(crate) fn number_at(bytes: &[u8]) -> Option<(u64, &[u8])>
    ensures value { option_view (λ x. (x.0, x.1.now)) result ≡ number_at bytes.now }
    ensures small { IfSome result (λ x. x.0 < 10 ^ 9) }
{
    let (digits, rest) = digits_at(bytes)?;
    Some((number(digits), rest))
}

/// Returns the text after a byte, or `None` if it doesn't begin with it.
pub(crate) fn after_byte(by: u8, bytes: &[u8]) -> Option<&[u8]>
    ensures { option_view (λ rest. rest.now) result ≡ after_byte by bytes.now }
{
    match bytes {
        [first, rest @ ..] if *first == by => Some(rest),
        _ => None,
    }
}

/// Returns `None` if a text isn't at its end.
pub(crate) fn ended(bytes: &[u8]) -> Option<()>
    ensures { result ≡ at_end bytes.now }
{
    if bytes.is_empty() { Some(()) } else { None }
}

/// Returns the digits after a point, and the text after them. Without a point there is no digit.
pub(crate) fn fraction_at(bytes: &[u8]) -> Option<(&[u8], &[u8])>
    ensures split { option_view (λ x. (x.0.now, x.1.now)) result ≡ fraction_at bytes.now }
    ensures ascii { IfSome result (λ x. IsAscii x.0.now) }
    ensures fraction { IfSome result (λ x. IsFraction x.0.now) }
{
    match bytes {
        [b'.', rest @ ..] => digits_at(rest),
        _ => Some((&[], bytes)),
    }
}

/// Returns digits without the zeros at their end.
pub(crate) fn trimmed(digits: &[u8]) -> &[u8]
    ensures digits { result.now ≡ trimmed digits.now }
    ensures ascii { IsAscii digits.now → IsAscii result.now }
    ensures fraction { IsFraction digits.now → IsFraction result.now }
{
    let mut kept = digits;
    loop {
        match kept.split_last() {
            Some((last, rest)) if *last == b'0' => kept = rest,
            _ => return kept,
        }
    }
}
