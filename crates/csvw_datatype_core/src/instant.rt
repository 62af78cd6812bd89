//! The order of moments.
ghost use Rattle.std.specs.Prelude.{◌≡◌};
ghost use Rattle.csvw_datatype_core.specs.Fields.{option_view};
ghost use Rattle.csvw_datatype_core.specs.Instants.{apart_cmp, digits_cmp, first_digit, instant_cmp, instant_of, is_long_before, later_cmp, local_instant, placed_instant};
ghost use Rattle.csvw_datatype_core.specs.LexicalDates.{IsMomentNumber};

use crate::date_time::parts_of;
use std::cmp::Ordering;

/// Whether a moment has a zone.
#[derive(Clone, Copy, Debug, PartialEq, Eq)]
pub enum InstantKind {
    /// It has a zone, and its second is the one in the zone `Z`.
    Zoned,
    /// It has no zone, and may be in any.
    Local,
}

/// A moment on the time line (XML Schema 1.1 part 2, section 3.3.7).
#[derive(Clone, Copy)]
pub struct Instant<'a> {
    /// The second, in seconds since 1 January 1970. Each day has 86,400 seconds.
    pub second: i64,
    /// The ASCII digits of the parts of the second, after the point. There may be none.
    pub digits: &'a [u8],
    /// Whether the moment has a zone.
    pub kind: InstantKind,
}

impl Instant<'_> {
    /// Returns a whole second without a zone, in seconds since 1 January 1970.
    pub fn local(second: i64) -> Instant<'static>
        ensures { (result.second, result.digits.now, result.kind) ≡ local_instant second }
    {
        Instant {
            second,
            digits: &[],
            kind: InstantKind::Local,
        }
    }
}

/// The most seconds that a zone is ahead of `Z`, or behind it: 14 hours.
const MOST_OFFSET: u32 = 50_400;

/// Returns the moment that a text of `dateTime` writes (XML Schema 1.1 part 2, section 3.3.7). It takes no memory.
///
/// Returns `None` if the text isn't written as a moment. The moment in the zone `Z` may be in the year 0000 or 10000.
pub fn instant_of(text: &str) -> Option<Instant<'_>>
    ensures { option_view (λ i. (i.second, i.digits.now, i.kind)) result ≡ instant_of text.now }
{
    let parts = parts_of(text.as_bytes())?;
    Some(placed_instant(parts.moment, parts.digits, parts.minutes))
}

/// Returns the moment of a second: without a zone as it is, and with one in the zone `Z`.
pub(crate) fn placed_instant(second: i64, digits: &[u8], minutes: Option<i32>) -> Instant<'_>
    requires { IsMomentNumber second }
    ensures { (result.second, result.digits.now, result.kind) ≡ placed_instant second digits.now minutes }
{
    match minutes {
        Some(minutes) => Instant {
            second: second + minutes as i64 * -60,
            digits,
            kind: InstantKind::Zoned,
        },
        None => Instant {
            second,
            digits,
            kind: InstantKind::Local,
        },
    }
}

/// Splits digits after the first one. After the last digit there are zeros.
fn first_digit(digits: &[u8]) -> (u8, &[u8])
    ensures { (result.0, result.1.now) ≡ first_digit digits.now }
{
    match digits {
        [first, rest @ ..] => (*first, rest),
        [] => (b'0', digits),
    }
}

/// Returns the order of two fractions below 1, by their ASCII digits. After the last digit there are zeros.
pub fn compare_digits(a: &[u8], b: &[u8]) -> Ordering
    ensures { result ≡ digits_cmp a.now b.now }
{
    let (mut left, mut right) = (a, b);
    loop {
        if left.is_empty() && right.is_empty() {
            return Ordering::Equal;
        }
        let (x, left_rest) = first_digit(left);
        let (y, right_rest) = first_digit(right);
        match x.cmp(&y) {
            Ordering::Equal => (left, right) = (left_rest, right_rest),
            order => return order,
        }
    }
}

/// Returns the order of the moment that is so many seconds after the first one, and the second one.
fn later_cmp(seconds: u32, a: &Instant<'_>, b: &Instant<'_>) -> Ordering
    ensures { result ≡ later_cmp seconds (a.now.second, a.now.digits.now, a.now.kind) (b.now.second, b.now.digits.now, b.now.kind) }
{
    let later = a.second as i128 + seconds as i128;
    match later.cmp(&(b.second as i128)) {
        Ordering::Equal => compare_digits(a.digits, b.digits),
        order => order,
    }
}

fn is_long_before(a: &Instant<'_>, b: &Instant<'_>) -> bool
    ensures { result ≡ is_long_before (a.now.second, a.now.digits.now, a.now.kind) (b.now.second, b.now.digits.now, b.now.kind) }
{
    later_cmp(MOST_OFFSET, a, b).is_lt()
}

/// Returns the order of a moment with a zone and one without.
fn apart_cmp(a: &Instant<'_>, b: &Instant<'_>) -> Option<Ordering>
    ensures { result ≡ apart_cmp (a.now.second, a.now.digits.now, a.now.kind) (b.now.second, b.now.digits.now, b.now.kind) }
{
    if is_long_before(a, b) {
        Some(Ordering::Less)
    } else if is_long_before(b, a) {
        Some(Ordering::Greater)
    } else {
        None
    }
}

/// Returns how a moment stands to another one (XML Schema 1.1 part 2, section 3.3.7, and version 1.0, section 3.2.7.3).
///
/// Returns `None` if one of them has a zone and the other one has none, and they are at most 14 hours apart.
pub fn compare_instants(a: &Instant<'_>, b: &Instant<'_>) -> Option<Ordering>
    ensures { result ≡ instant_cmp (a.now.second, a.now.digits.now, a.now.kind) (b.now.second, b.now.digits.now, b.now.kind) }
{
    match (a.kind, b.kind) {
        (InstantKind::Zoned, InstantKind::Zoned) | (InstantKind::Local, InstantKind::Local) => {
            Some(later_cmp(0, a, b))
        }
        (InstantKind::Zoned, InstantKind::Local) | (InstantKind::Local, InstantKind::Zoned) => {
            apart_cmp(a, b)
        }
    }
}
