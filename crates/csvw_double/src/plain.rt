//! Numbers in digits alone, as most are written, and their order: digits, perhaps with a point among them.
ghost use Rattle.std.specs.Prelude.{◌≡◌, ◌++◌, IfSome, Some};
ghost use Rattle.csvw_double.specs.Forms.{sign_form};
ghost use Rattle.csvw_double.specs.Order.{double_cmp};
ghost use Rattle.csvw_double.specs.Places.{IsPlainOf, IsSplitOf, plain_cmp, plain_sizes_cmp};

use crate::canonical::{digits_len, is_digits};
use crate::order::{Places, compare_digits};
use crate::trimmed::after_zeros;
use std::cmp::Ordering;

/// A number in digits alone.
#[derive(Clone, Copy)]
pub(crate) struct Plain<'a> {
    /// Whether the number is below 0.
    pub(crate) is_negative: bool,
    /// The digits before the point, of which the first isn't 0, and those after it.
    pub(crate) digits: Places<'a>,
}

/// Returns the digits before and after the point of a text that is digits, perhaps with a point among them, or `None` for
/// other texts.
fn split(text: &[u8]) -> Option<Places<'_>>
    ensures { IfSome result (IsSplitOf text.now) }
{
    let (whole, behind) = text.split_at(digits_len(text));
    if whole.is_empty() {
        return None;
    }
    match behind {
        [] => Some(Places {
            whole,
            fraction: &[],
        }),
        [b'.', fraction @ ..] if is_digits(fraction) => Some(Places { whole, fraction }),
        _ => None,
    }
}

/// Returns the number that digits with a point among them write after this sign, or `None` if the text isn't such digits.
fn signed_plain(is_negative: bool, text: &[u8]) -> Option<Plain<'_>>
    ensures { IfSome result (IsPlainOf (sign_form is_negative ++ text.now)) }
{
    let all = split(text)?;
    let digits = Places {
        whole: after_zeros(all.whole),
        fraction: all.fraction,
    };
    Some(Plain {
        is_negative: is_negative && digits.has_value(),
        digits,
    })
}

/// Returns the number of a text that is digits, perhaps with a point among them and behind a minus sign, or `None` for other
/// texts. Some of those are numbers too.
fn plain_in(text: &str) -> Option<Plain<'_>>
    ensures { IfSome result (IsPlainOf text.now) }
{
    match text.as_bytes() {
        [b'-', unsigned @ ..] => signed_plain(true, unsigned),
        unsigned => signed_plain(false, unsigned),
    }
}

/// Returns the order of the sizes of two numbers: more digits before the point are more, since the first isn't 0.
fn compare_sizes(a: Places<'_>, b: Places<'_>) -> Ordering
    ensures { result ≡ plain_sizes_cmp a.entry b.entry }
{
    match a.whole.len().cmp(&b.whole.len()) {
        Ordering::Equal => compare_digits(a, b),
        other => other,
    }
}

/// Returns the order of two numbers.
fn compare(a: Plain<'_>, b: Plain<'_>) -> Ordering
    ensures { result ≡ plain_cmp a.entry b.entry }
{
    match (a.is_negative, b.is_negative) {
        (false, false) => compare_sizes(a.digits, b.digits),
        (true, true) => compare_sizes(b.digits, a.digits),
        (true, false) => Ordering::Less,
        (false, true) => Ordering::Greater,
    }
}

/// Returns how a number in digits alone stands to another, or `None` if one of the texts isn't digits, perhaps with a point
/// among them and behind a minus sign.
pub(crate) fn compare_plain(a: &str, b: &str) -> Option<Ordering>
    ensures { IfSome result (λ order. double_cmp a.now b.now ≡ Some order) }
{
    let (first, second) = (plain_in(a)?, plain_in(b)?);
    Some(compare(first, second))
}
