//! The value of a text of a duration.
ghost use Rattle.std.specs.Prelude.{◌≡◌, ◌<◌, ◌^◌, IfSome};
ghost use Rattle.std.specs.Str.{IsAscii};
ghost use Rattle.csvw_duration.specs.Digits.{IsFraction, option_view};
ghost use Rattle.csvw_duration.specs.Values.{read_field, field, months_at, minutes_at, written_second, second_at, clock_fields, after_t, clock_at, seconds_at};
ghost use Rattle.csvw_duration.specs.Values.{IsBounded, fields_at, after_p, unsigned_at, begins_with_minus, after_minus, duration_fields};
ghost use Rattle.csvw_duration.specs.declared.value.DurationKind.TheVariants as kinds;

use crate::digits::{after_byte, ended, fraction_at, number_at, trimmed};

/// Which durations a text may write.
#[derive(Clone, Copy, Debug, PartialEq, Eq)]
pub enum DurationKind {
    /// `duration`: years, months, days, hours, minutes and seconds, as `P1Y2M3DT4H5M6.7S` (XML Schema 1.1 part 2, section
    /// 3.3.6).
    Any,
    /// `yearMonthDuration`: years and months, as `P1Y2M` (section 3.4.26).
    YearMonth,
    /// `dayTimeDuration`: days, hours, minutes and seconds, as `P3DT4H5M6.7S` (section 3.4.27).
    DayTime,
}

/// The months and the seconds of a duration without its sign.
#[derive(Clone, Copy)]
pub(crate) struct Length<'a> {
    pub(crate) months: u64,
    pub(crate) seconds: u64,
    /// The digits of the parts of a second. The last one is not 0.
    pub(crate) fraction: &'a [u8],
}

/// Reads a number and its letter. Returns `None` if a text doesn't begin with them.
#[tactic(auto, unfolding(crate::specs::Values::read_field))]
fn read_field(letter: u8, bytes: &[u8]) -> Option<(u64, &[u8])>
    ensures value { option_view (λ x. (x.0, x.1.now)) result ≡ read_field letter bytes.now }
    ensures small { IfSome result (λ x. x.0 < 10 ^ 9) }
{
    let (number, rest) = number_at(bytes)?;
    let rest = after_byte(letter, rest)?;
    Some((number, rest))
}

/// Reads a field. Without it the number is 0, and the text stays.
fn field(letter: u8, bytes: &[u8]) -> (u64, &[u8])
    ensures value { (result.0, result.1.now) ≡ field letter bytes.now }
    ensures small { result.0 < 10 ^ 9 }
{
    match read_field(letter, bytes) {
        Some(found) => found,
        None => (0, bytes),
    }
}

/// Reads the fields Y and M.
fn months_at(bytes: &[u8]) -> (u64, &[u8])
    ensures value { (result.0, result.1.now) ≡ months_at bytes.now }
    ensures small { result.0 < 10 ^ 11 }
{
    let (years, rest) = field(b'Y', bytes);
    let (months, rest) = field(b'M', rest);
    (12 * years + months, rest)
}

/// Reads the fields H and M, as seconds.
fn minutes_at(bytes: &[u8]) -> (u64, &[u8])
    ensures value { (result.0, result.1.now) ≡ minutes_at bytes.now }
    ensures small { result.0 < 10 ^ 13 }
{
    let (hours, rest) = field(b'H', bytes);
    let (minutes, rest) = field(b'M', rest);
    (3600 * hours + 60 * minutes, rest)
}

/// Reads the field S, and the end of the text.
#[tactic(auto, unfolding(crate::specs::Values::written_second))]
fn written_second(bytes: &[u8]) -> Option<(u64, &[u8])>
    ensures value { option_view (λ x. (x.0, x.1.now)) result ≡ written_second bytes.now }
    ensures small { IfSome result (λ x. x.0 < 10 ^ 9) }
    ensures ascii { IfSome result (λ x. IsAscii x.1.now) }
    ensures fraction { IfSome result (λ x. IsFraction x.1.now) }
{
    let (number, rest) = number_at(bytes)?;
    let (digits, rest) = fraction_at(rest)?;
    let rest = after_byte(b'S', rest)?;
    ended(rest)?;
    Some((number, trimmed(digits)))
}

/// Reads the field S or nothing, and the end of the text.
fn second_at(bytes: &[u8]) -> Option<(u64, &[u8])>
    ensures value { option_view (λ x. (x.0, x.1.now)) result ≡ second_at bytes.now }
    ensures small { IfSome result (λ x. x.0 < 10 ^ 9) }
    ensures ascii { IfSome result (λ x. IsAscii x.1.now) }
    ensures fraction { IfSome result (λ x. IsFraction x.1.now) }
{
    match bytes {
        [] => Some((0, &[])),
        _ => written_second(bytes),
    }
}

/// Reads the fields H, M and S, and the end of the text.
fn clock_fields(bytes: &[u8]) -> Option<(u64, &[u8])>
    ensures value { option_view (λ x. (x.0, x.1.now)) result ≡ clock_fields bytes.now }
    ensures small { IfSome result (λ x. x.0 < 10 ^ 14) }
    ensures ascii { IfSome result (λ x. IsAscii x.1.now) }
    ensures fraction { IfSome result (λ x. IsFraction x.1.now) }
{
    let (minutes, rest) = minutes_at(bytes);
    let (second, fraction) = second_at(rest)?;
    Some((minutes + second, fraction))
}

/// Reads the fields after a T, one or more.
fn after_t(bytes: &[u8]) -> Option<(u64, &[u8])>
    ensures value { option_view (λ x. (x.0, x.1.now)) result ≡ after_t bytes.now }
    ensures small { IfSome result (λ x. x.0 < 10 ^ 14) }
    ensures ascii { IfSome result (λ x. IsAscii x.1.now) }
    ensures fraction { IfSome result (λ x. IsFraction x.1.now) }
{
    match bytes {
        [] => None,
        _ => clock_fields(bytes),
    }
}

/// Reads a T and its fields, or the end of the text.
fn clock_at(bytes: &[u8]) -> Option<(u64, &[u8])>
    ensures value { option_view (λ x. (x.0, x.1.now)) result ≡ clock_at bytes.now }
    ensures small { IfSome result (λ x. x.0 < 10 ^ 14) }
    ensures ascii { IfSome result (λ x. IsAscii x.1.now) }
    ensures fraction { IfSome result (λ x. IsFraction x.1.now) }
{
    match bytes {
        [] => Some((0, &[])),
        [b'T', rest @ ..] => after_t(rest),
        _ => None,
    }
}

/// Reads the fields D, H, M and S, and the end of the text.
fn seconds_at(bytes: &[u8]) -> Option<(u64, &[u8])>
    ensures value { option_view (λ x. (x.0, x.1.now)) result ≡ seconds_at bytes.now }
    ensures small { IfSome result (λ x. x.0 < 10 ^ 15) }
    ensures ascii { IfSome result (λ x. IsAscii x.1.now) }
    ensures fraction { IfSome result (λ x. IsFraction x.1.now) }
{
    let (days, rest) = field(b'D', bytes);
    let (clock, fraction) = clock_at(rest)?;
    Some((86_400 * days + clock, fraction))
}

fn any_fields(bytes: &[u8]) -> Option<Length<'_>>
    ensures value { option_view (λ d. (d.months, d.seconds, d.fraction.now)) result ≡ fields_at kinds.Any bytes.now }
    ensures ascii { IfSome result (λ d. IsAscii d.fraction.now) }
    ensures fraction { IfSome result (λ d. IsFraction d.fraction.now) }
    ensures small { IfSome result (λ d. IsBounded d.months d.seconds) }
{
    let (months, rest) = months_at(bytes);
    let (seconds, fraction) = seconds_at(rest)?;
    Some(Length {
        months,
        seconds,
        fraction,
    })
}

fn year_month_fields(bytes: &[u8]) -> Option<Length<'_>>
    ensures value { option_view (λ d. (d.months, d.seconds, d.fraction.now)) result ≡ fields_at kinds.YearMonth bytes.now }
    ensures ascii { IfSome result (λ d. IsAscii d.fraction.now) }
    ensures fraction { IfSome result (λ d. IsFraction d.fraction.now) }
    ensures small { IfSome result (λ d. IsBounded d.months d.seconds) }
{
    let (months, rest) = months_at(bytes);
    ended(rest)?;
    Some(Length {
        months,
        seconds: 0,
        fraction: &[],
    })
}

fn day_time_fields(bytes: &[u8]) -> Option<Length<'_>>
    ensures value { option_view (λ d. (d.months, d.seconds, d.fraction.now)) result ≡ fields_at kinds.DayTime bytes.now }
    ensures ascii { IfSome result (λ d. IsAscii d.fraction.now) }
    ensures fraction { IfSome result (λ d. IsFraction d.fraction.now) }
    ensures small { IfSome result (λ d. IsBounded d.months d.seconds) }
{
    let (seconds, fraction) = seconds_at(bytes)?;
    Some(Length {
        months: 0,
        seconds,
        fraction,
    })
}

/// Reads the fields of a kind, and the end of the text.
fn fields_at(kind: DurationKind, bytes: &[u8]) -> Option<Length<'_>>
    ensures value { option_view (λ d. (d.months, d.seconds, d.fraction.now)) result ≡ fields_at kind bytes.now }
    ensures ascii { IfSome result (λ d. IsAscii d.fraction.now) }
    ensures fraction { IfSome result (λ d. IsFraction d.fraction.now) }
    ensures small { IfSome result (λ d. IsBounded d.months d.seconds) }
{
    match kind {
        DurationKind::Any => any_fields(bytes),
        DurationKind::YearMonth => year_month_fields(bytes),
        DurationKind::DayTime => day_time_fields(bytes),
    }
}

/// Reads the fields after a P, one or more.
fn after_p(kind: DurationKind, bytes: &[u8]) -> Option<Length<'_>>
    ensures value { option_view (λ d. (d.months, d.seconds, d.fraction.now)) result ≡ after_p kind bytes.now }
    ensures ascii { IfSome result (λ d. IsAscii d.fraction.now) }
    ensures fraction { IfSome result (λ d. IsFraction d.fraction.now) }
    ensures small { IfSome result (λ d. IsBounded d.months d.seconds) }
{
    match bytes {
        [] => None,
        _ => fields_at(kind, bytes),
    }
}

fn unsigned_at(kind: DurationKind, bytes: &[u8]) -> Option<Length<'_>>
    ensures value { option_view (λ d. (d.months, d.seconds, d.fraction.now)) result ≡ unsigned_at kind bytes.now }
    ensures ascii { IfSome result (λ d. IsAscii d.fraction.now) }
    ensures fraction { IfSome result (λ d. IsFraction d.fraction.now) }
    ensures small { IfSome result (λ d. IsBounded d.months d.seconds) }
{
    let rest = after_byte(b'P', bytes)?;
    after_p(kind, rest)
}

/// Returns whether a text begins with `-`.
pub(crate) fn begins_with_minus(bytes: &[u8]) -> bool
    ensures { result ≡ begins_with_minus bytes.now }
{
    matches!(bytes, [b'-', ..])
}

fn after_minus(bytes: &[u8]) -> &[u8]
    ensures { result.now ≡ after_minus bytes.now }
{
    match bytes {
        [b'-', rest @ ..] => rest,
        _ => bytes,
    }
}

/// Returns the months and the seconds of a text of a duration, without its sign. Returns `None` for other texts.
pub(crate) fn duration_fields(kind: DurationKind, bytes: &[u8]) -> Option<Length<'_>>
    ensures value { option_view (λ d. (d.months, d.seconds, d.fraction.now)) result ≡ duration_fields kind bytes.now }
    ensures ascii { IfSome result (λ d. IsAscii d.fraction.now) }
    ensures fraction { IfSome result (λ d. IsFraction d.fraction.now) }
    ensures small { IfSome result (λ d. IsBounded d.months d.seconds) }
{
    unsigned_at(kind, after_minus(bytes))
}
