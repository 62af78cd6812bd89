//! The order of doubles.
ghost use Rattle.std.specs.Prelude.{◌≡◌, ◌++◌, ◌∷◌, [], MatchOption, None, not};
ghost use Rattle.csvw_double.specs.Digits.{after_zeros, is_empty};
ghost use Rattle.csvw_double.specs.Doubles.{IsNumeralOf};
ghost use Rattle.csvw_double.specs.Forms.{IsNear};
ghost use Rattle.csvw_double.specs.Order.{double_cmp, place_of};
ghost use Rattle.csvw_double.specs.Places.{IsDecimalOf, IsPlaceOf, all_of, decimals_cmp, digits_cmp, has_value, sizes_cmp};

use crate::double::point_of;
use crate::numeral::{Number, is_negative, number_in};
use crate::plain::compare_plain;
use crate::trimmed::after_zeros;
use std::cmp::Ordering;

/// Digits in two pieces, as before and after a point.
#[derive(Clone, Copy)]
pub(crate) struct Places<'a> {
    /// The first digits.
    pub(crate) whole: &'a [u8],
    /// The digits behind them.
    pub(crate) fraction: &'a [u8],
}

/// A number: the point is so many places after the start of the digits, or before it.
#[derive(Clone, Copy)]
pub(crate) struct Decimal<'a> {
    /// Whether the number is below 0.
    pub(crate) is_negative: bool,
    /// The digits, of which the first isn't 0. There is none if the number is 0.
    pub(crate) digits: Places<'a>,
    /// How many places the point is after the start of the digits, or before it.
    pub(crate) point: i128,
}

/// A double that has an order.
#[derive(Clone, Copy)]
pub(crate) enum Place<'a> {
    /// `-INF`, below the numbers.
    Least,
    /// A number.
    Number(Decimal<'a>),
    /// `INF`, above the numbers.
    Greatest,
}

impl<'a> Places<'a> {
    /// Returns the digits from the first that isn't 0.
    fn from_first(self) -> Places<'a>
        ensures { all_of result ≡ after_zeros (all_of self.entry) }
    {
        match after_zeros(self.whole) {
            [] => Places {
                whole: &[],
                fraction: after_zeros(self.fraction),
            },
            whole @ [_, ..] => Places {
                whole,
                fraction: self.fraction,
            },
        }
    }

    /// Whether there is no digit.
    #[tactic(auto, using(crate::proofs::PlaceLemmas::not_empty))]
    fn is_empty(self) -> bool
        ensures { result ≡ is_empty (all_of self.entry) }
    {
        matches!((self.whole, self.fraction), ([], []))
    }

    /// Whether some digit isn't 0.
    pub(crate) fn has_value(self) -> bool
        ensures { result ≡ has_value (all_of self.entry) }
    {
        !self.from_first().is_empty()
    }

    /// Takes the first digit away, and returns it.
    fn next(&mut self) -> Option<u8>
        ensures { MatchOption result (all_of self.old ≡ []) (λ digit. all_of self.old ≡ digit ∷ all_of self.new) }
    {
        if let Some((first, rest)) = self.whole.split_first() {
            self.whole = rest;
            return Some(*first);
        }
        let (first, rest) = self.fraction.split_first()?;
        self.fraction = rest;
        Some(*first)
    }
}

/// Returns the order of two fractions below 1, by their digits.
pub(crate) fn compare_digits(a: Places<'_>, b: Places<'_>) -> Ordering
    ensures { result ≡ digits_cmp (all_of a.entry) (all_of b.entry) }
{
    let (mut first, mut second) = (a, b);
    loop {
        let (left, right) = (first, second);
        match (first.next(), second.next()) {
            (Some(x), Some(y)) if x == y => {}
            (Some(x), Some(y)) => return x.cmp(&y),
            (Some(_), None) | (None, Some(_)) | (None, None) => {
                return left.has_value().cmp(&right.has_value());
            }
        }
    }
}

/// Returns the order of the sizes of two numbers.
fn compare_sizes(a: &Decimal<'_>, b: &Decimal<'_>) -> Ordering
    ensures { result ≡ sizes_cmp a.now b.now }
{
    if a.digits.is_empty() || b.digits.is_empty() {
        return (!a.digits.is_empty()).cmp(&!b.digits.is_empty());
    }
    match a.point.cmp(&b.point) {
        Ordering::Equal => compare_digits(a.digits, b.digits),
        other => other,
    }
}

/// Returns the order of two numbers.
fn compare_decimals(a: &Decimal<'_>, b: &Decimal<'_>) -> Ordering
    ensures { result ≡ decimals_cmp a.now b.now }
{
    match (a.is_negative, b.is_negative) {
        (false, false) => compare_sizes(a, b),
        (true, true) => compare_sizes(b, a),
        (true, false) => Ordering::Less,
        (false, true) => Ordering::Greater,
    }
}

/// Returns the number of a text, whose parts are these.
pub(crate) fn decimal_of<'a>(text: &[u8], number: &Number<'a>) -> Decimal<'a>
    requires { IsNumeralOf text.now number.now }
    ensures decimal { IsDecimalOf text.now result }
    ensures near { IsNear result.point }
{
    let all = Places {
        whole: number.numeral.whole(),
        fraction: number.numeral.fraction(),
    };
    let digits = all.from_first();
    let count = digits.whole.len() + digits.fraction.len();
    Decimal {
        is_negative: is_negative(text) && !digits.is_empty(),
        digits,
        point: point_of(number.exponent, all.fraction.len(), count),
    }
}

/// Returns the place of a text among the doubles that have an order, or `None` if it is none of them.
#[tactic(auto, unfolding(crate::specs::Order::place_of))]
fn place_in(text: &str) -> Option<Place<'_>>
    ensures { MatchOption result (place_of text.now ≡ None) (IsPlaceOf text.now) }
{
    match text {
        "-INF" => Some(Place::Least),
        "INF" | "+INF" => Some(Place::Greatest),
        _ => match number_in(text.as_bytes()) {
            Ok(number) => Some(Place::Number(decimal_of(text.as_bytes(), &number))),
            Err(_) => None,
        },
    }
}

/// Returns how a double stands to another: `-INF` is below the numbers, and `INF` above them (XML Schema Part 2, section
/// 3.3.5.1). Numbers are compared with all of their digits. It takes no memory.
///
/// Returns `None` if one of the texts is no double, or `NaN`, which has no order.
#[tactic(auto, unfolding(crate::specs::Order::double_cmp))]
pub fn compare_doubles(a: &str, b: &str) -> Option<Ordering>
    ensures { result ≡ double_cmp a.now b.now }
{
    // Most numbers are digits with a point. A scan for all that a number may have takes twice as long.
    if let Some(order) = compare_plain(a, b) {
        return Some(order);
    }
    let (first, second) = (place_in(a)?, place_in(b)?);
    Some(match (&first, &second) {
        (Place::Number(x), Place::Number(y)) => compare_decimals(x, y),
        (Place::Least, Place::Least) | (Place::Greatest, Place::Greatest) => Ordering::Equal,
        (Place::Least, _) | (_, Place::Greatest) => Ordering::Less,
        (Place::Greatest, _) | (_, Place::Least) => Ordering::Greater,
    })
}
