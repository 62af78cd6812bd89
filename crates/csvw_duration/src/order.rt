//! The order of durations.
ghost use Rattle.std.specs.Prelude.{◌≡◌, ◌<◌, ◌∷◌, [], ◌^◌, IfSome, neg_ℤ, false};
ghost use Rattle.jiff_core.specs.Calendar.{IsWithin};
ghost use Rattle.csvw_duration.specs.declared.value.DurationKind.TheVariants as kinds;
ghost use Rattle.csvw_duration.specs.Digits.{IsFraction, option_view};
ghost use Rattle.csvw_duration.specs.Values.{duration_fields};
ghost use Rattle.csvw_duration.specs.Order.{IsNear, fraction_nanoseconds, signed_value, duration_value, moment_after, moments_cmp, agreed, values_cmp};
ghost use Rattle.csvw_duration.specs.Order.{duration_cmp};

use crate::calendar::days_before_month;
use crate::digits::number;
use crate::value::{DurationKind, begins_with_minus, duration_fields};
use std::cmp::Ordering;

/// The months whose first days durations are added to, counted from January of the year 0 on.
const SEPTEMBER_1696: i64 = 1696 * 12 + 8;

const FEBRUARY_1697: i64 = 1697 * 12 + 1;

const MARCH_1903: i64 = 1903 * 12 + 2;

const JULY_1903: i64 = 1903 * 12 + 6;

/// The nanoseconds of a day.
const DAY_NANOSECONDS: i128 = 86_400_000_000_000;

/// The value of a duration.
#[derive(Clone, Copy)]
struct Value {
    /// The months of its years and months.
    months: i64,
    /// The nanoseconds of its days, hours, minutes and seconds.
    nanoseconds: i128,
}

/// Returns the nanoseconds that the digits of a fraction of a second count.
#[tactic(auto, unfolding(crate::specs::Order::fraction_nanoseconds))]
fn fraction_nanoseconds(digits: &[u8]) -> u64
    requires { IsFraction digits.now }
    ensures value { result ≡ fraction_nanoseconds digits.now }
    ensures small { result < 10 ^ 18 }
{
    number(digits) * 10u64.pow(9 - digits.len() as u32)
}

impl Value {
    /// Returns the value with the other sign.
    fn negated(self) -> Value
        requires { IsNear self.months self.nanoseconds }
        ensures months { result.months ≡ neg_ℤ self.months }
        ensures nanoseconds { result.nanoseconds ≡ neg_ℤ self.nanoseconds }
    {
        Value {
            months: -self.months,
            nanoseconds: -self.nanoseconds,
        }
    }
}

/// Returns the value of a text of a duration without its sign. Returns `None` for other texts.
fn size_of(text: &[u8]) -> Option<Value>
    ensures value { option_view (λ x. (x.months, x.nanoseconds)) result ≡ option_view (signed_value false) (duration_fields kinds.Any text.now) }
    ensures near { IfSome result (λ x. IsNear x.months x.nanoseconds) }
{
    let length = duration_fields(DurationKind::Any, text)?;
    let fraction = fraction_nanoseconds(length.fraction);
    Some(Value {
        months: length.months as i64,
        nanoseconds: i128::from(length.seconds) * 1_000_000_000 + i128::from(fraction),
    })
}

/// Returns the value of a text of a duration. Returns `None` for other texts.
fn value_of(text: &[u8]) -> Option<Value>
    ensures value { option_view (λ x. (x.months, x.nanoseconds)) result ≡ duration_value text.now }
    ensures near { IfSome result (λ x. IsNear x.months x.nanoseconds) }
{
    let value = size_of(text)?;
    if begins_with_minus(text) {
        Some(value.negated())
    } else {
        Some(value)
    }
}

/// Returns the moment at a duration after the first day of a month, in nanoseconds.
#[tactic(auto, unfolding(crate::specs::Order::moment_after))]
fn moment_after(start: i64, value: Value) -> i128
    requires start { IsWithin (10 ^ 5) start }
    requires near { IsNear value.months value.nanoseconds }
    ensures { result ≡ moment_after start (value.months, value.nanoseconds) }
{
    i128::from(days_before_month(start + value.months)) * DAY_NANOSECONDS + value.nanoseconds
}

/// Returns the order of the moments at two durations after the first day of a month.
fn compare_moments(start: i64, a: Value, b: Value) -> Ordering
    requires start { IsWithin (10 ^ 5) start }
    requires first { IsNear a.months a.nanoseconds }
    requires second { IsNear b.months b.nanoseconds }
    ensures { result ≡ moments_cmp (a.months, a.nanoseconds) (b.months, b.nanoseconds) start }
{
    moment_after(start, a).cmp(&moment_after(start, b))
}

/// Returns the order that all four have, or `None`.
fn agreed(a: Ordering, b: Ordering, c: Ordering, d: Ordering) -> Option<Ordering>
    ensures { result ≡ agreed (a ∷ b ∷ c ∷ d ∷ []) }
{
    if a.is_lt() && b.is_lt() && c.is_lt() && d.is_lt() {
        return Some(Ordering::Less);
    }
    if a.is_eq() && b.is_eq() && c.is_eq() && d.is_eq() {
        return Some(Ordering::Equal);
    }
    if a.is_gt() && b.is_gt() && c.is_gt() && d.is_gt() {
        return Some(Ordering::Greater);
    }
    None
}

/// Returns the order of two values, or `None` if they have none.
fn compare_values(a: Value, b: Value) -> Option<Ordering>
    requires first { IsNear a.months a.nanoseconds }
    requires second { IsNear b.months b.nanoseconds }
    ensures { result ≡ values_cmp (a.months, a.nanoseconds) (b.months, b.nanoseconds) }
{
    agreed(
        compare_moments(SEPTEMBER_1696, a, b),
        compare_moments(FEBRUARY_1697, a, b),
        compare_moments(MARCH_1903, a, b),
        compare_moments(JULY_1903, a, b),
    )
}

/// Returns how a duration stands to another: less, equal or greater, if it does so after each of four moments (XML Schema 1.1
/// part 2, section 3.3.6.1). The texts are read as `duration`, whether they are canonical or not. It takes no memory.
///
/// Returns `None` if the two have no order, as `P1M` and `P30D`, or if one of the texts is no duration.
#[tactic(auto, unfolding(crate::specs::Order::duration_cmp))]
pub fn compare_durations(a: &str, b: &str) -> Option<Ordering>
    ensures { result ≡ duration_cmp a.now b.now }
{
    let first = value_of(a.as_bytes())?;
    let second = value_of(b.as_bytes())?;
    compare_values(first, second)
}
