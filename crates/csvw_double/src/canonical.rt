//! Texts that are their own canonical text, and those whose front is.
ghost use Rattle.std.specs.Prelude.{◌≡◌, ◌≤◌, ◌<◌, ◌∷◌, ◌+◌, IfSome, Some, length, take, true};
ghost use Rattle.std.specs.Str.Parse.{AllDigits};
ghost use Rattle.csvw_double.specs.Forms.{double_form};
ghost use Rattle.csvw_double.specs.Digits.{after_zeros, before_zeros};

use crate::trimmed::{after_zeros, before_zeros};

/// A canonical text has at most as many digits before its point.
const MOST: usize = 21;

/// Returns how many digits a text begins with.
pub(crate) fn digits_len(text: &[u8]) -> usize
    ensures within { result ≤ length text.now }
    ensures digits { AllDigits 10 (take result text.now) }
{
    let mut len = 0;
    while len < text.len() && text[len].is_ascii_digit() {
        len += 1;
    }
    len
}

/// Whether there is a digit, the first isn't 0, and there are at most 21.
fn starts_well(digits: &[u8]) -> bool
    ensures some { result ≡ true → 1 ≤ length digits.now }
    ensures near { result ≡ true → length digits.now ≤ 21 }
    ensures first { result ≡ true → after_zeros digits.now ≡ digits.now }
{
    match digits {
        [] | [b'0', ..] => false,
        _ => digits.len() <= MOST,
    }
}

/// Whether a text is only digits, and the last isn't 0.
#[tactic(auto, using(crate::proofs::TrimLemmas::other_last))]
fn ends_well(digits: &[u8]) -> bool
    ensures digits { result ≡ true → AllDigits 10 digits.now }
    ensures some { result ≡ true → 1 ≤ length digits.now }
    ensures last { result ≡ true → before_zeros digits.now ≡ digits.now }
{
    match digits.split_last() {
        Some((last, _)) => *last != b'0' && digits_len(digits) == digits.len(),
        None => false,
    }
}

/// Whether digits begin with at most 5 zeros.
fn starts_near(digits: &[u8]) -> bool
    ensures { result ≡ true → length digits.now ≤ length (after_zeros digits.now) + 5 }
{
    digits.len() <= after_zeros(digits).len() + 5
}

/// Whether a text is at most 21 digits, of which the first isn't 0, perhaps with a point and digits, of which the last
/// isn't 0. It is its own canonical text, also behind a minus sign.
fn is_from_one(text: &[u8]) -> bool
    ensures above { result ≡ true → double_form text.now ≡ Some text.now }
    ensures below { result ≡ true → double_form (45 ∷ text.now) ≡ Some (45 ∷ text.now) }
{
    let (whole, behind) = text.split_at(digits_len(text));
    match behind {
        [] => starts_well(whole),
        [b'.', fraction @ ..] => starts_well(whole) && ends_well(fraction),
        _ => false,
    }
}

/// Whether a text is a 0, a point and digits, of which the last isn't 0 and one of the first six isn't. It is its own
/// canonical text, also behind a minus sign.
fn is_below_one(text: &[u8]) -> bool
    ensures above { result ≡ true → double_form text.now ≡ Some text.now }
    ensures below { result ≡ true → double_form (45 ∷ text.now) ≡ Some (45 ∷ text.now) }
{
    match text {
        [b'0', b'.', fraction @ ..] => starts_near(fraction) && ends_well(fraction),
        _ => false,
    }
}

/// Whether a text is its own canonical text, and that behind a minus sign is too. It has no exponent.
fn is_unsigned(text: &[u8]) -> bool
    ensures above { result ≡ true → double_form text.now ≡ Some text.now }
    ensures below { result ≡ true → double_form (45 ∷ text.now) ≡ Some (45 ∷ text.now) }
{
    match text {
        [b'0', ..] => is_below_one(text),
        _ => is_from_one(text),
    }
}

/// Whether a text is only digits.
pub(crate) fn is_digits(text: &[u8]) -> bool
    ensures { result ≡ true → AllDigits 10 text.now }
{
    digits_len(text) == text.len()
}

/// Returns how long the canonical text is of digits with a point among them, also behind a minus sign. It is their front.
/// Returns 0 for other texts.
fn front_len(text: &[u8]) -> usize
    ensures within { result ≤ length text.now }
    ensures above { 0 < result → double_form text.now ≡ Some (take result text.now) }
    ensures below { 0 < result → double_form (45 ∷ text.now) ≡ Some (45 ∷ take result text.now) }
{
    let (whole, behind) = text.split_at(digits_len(text));
    if !starts_well(whole) {
        return 0;
    }
    match behind {
        [b'.', fraction @ ..] if is_digits(fraction) => match before_zeros(fraction) {
            [] => whole.len(),
            rest => whole.len() + 1 + rest.len(),
        },
        _ => 0,
    }
}

/// Returns how long the canonical text is of digits with a point among them, perhaps behind a minus sign. It is their front.
/// Returns 0 for other texts.
fn canonical_len(text: &str) -> usize
    ensures { 0 < result → double_form text.now ≡ Some (take result text.now) }
{
    match text.as_bytes() {
        [b'-', unsigned @ ..] => match front_len(unsigned) {
            0 => 0,
            len => len + 1,
        },
        unsigned => front_len(unsigned),
    }
}

/// Returns the canonical text of digits with a point among them, perhaps behind a minus sign: the text without the zeros at
/// its end. Returns `None` for other texts.
pub(crate) fn canonical_front(text: &str) -> Option<&str>
    ensures { IfSome result (λ form. double_form text.now ≡ Some form.now) }
{
    let len = canonical_len(text);
    if len == 0 {
        return None;
    }
    if !text.is_char_boundary(len) {
        return None;
    }
    Some(text.split_at(len).0)
}

/// Whether a text has the form that most numbers have in a table, and is its own canonical text.
pub(crate) fn is_canonical(text: &str) -> bool
    ensures { result ≡ true → double_form text.now ≡ Some text.now }
{
    match text.as_bytes() {
        [b'0'] => true,
        [b'-', unsigned @ ..] => is_unsigned(unsigned),
        unsigned => is_unsigned(unsigned),
    }
}
