//! The days before the first day of a month, in the proleptic Gregorian calendar. Its years go far below 0 and above 9999.
ghost use Rattle.std.specs.Prelude.{◌≡◌, ◌<◌, ◌^◌, ◌+◌, pos};
ghost use Rattle.jiff_core.specs.Calendar.{IsWithin, is_leap_year, days_of_months};
ghost use Rattle.csvw_duration.specs.Timeline.{leap_days, days_before_year, days_before_month};

/// Returns how many of the years from 1 to a year are leap years, with a minus before the year 1.
#[tactic(auto, unfolding(crate::specs::Timeline::leap_days))]
fn leap_days(year: i64) -> i64
    requires { IsWithin (10 ^ 11) year }
    ensures value { result ≡ leap_days year }
    ensures near { IsWithin (10 ^ 11) result }
{
    year.div_euclid(4) - year.div_euclid(100) + year.div_euclid(400)
}

/// Returns the days before 1 January of a year.
#[tactic(auto, unfolding(crate::specs::Timeline::days_before_year))]
fn days_before_year(year: i64) -> i64
    requires { IsWithin (10 ^ 10) year }
    ensures value { result ≡ days_before_year year }
    ensures near { IsWithin (10 ^ 13) result }
{
    let before = year - 1;
    365 * before + leap_days(before)
}

/// Returns whether a year has 366 days.
fn is_leap_year(year: i64) -> bool
    requires { IsWithin (10 ^ 10) year }
    ensures { result ≡ is_leap_year year }
{
    let size = year.unsigned_abs();
    size % 4 == 0 && (size % 100 != 0 || size % 400 == 0)
}

/// Returns the days of so many months from January on, in a year of 365 days.
#[tactic(auto, unfolding(jiff_core::specs::Calendar::days_of_months))]
fn common_days(months: u64) -> u64
    requires { months < 12 }
    ensures value { result ≡ days_of_months (pos 1) months }
    ensures near { result < 365 }
{
    match months {
        0 => 0,
        1 => 31,
        2 => 59,
        3 => 90,
        4 => 120,
        5 => 151,
        6 => 181,
        7 => 212,
        8 => 243,
        9 => 273,
        10 => 304,
        _ => 334,
    }
}

/// Returns the days of so many months of a year from January on.
fn days_of_months(year: i64, months: u64) -> u64
    requires year { IsWithin (10 ^ 10) year }
    requires months { months < 12 }
    ensures value { result ≡ days_of_months year months }
    ensures near { result < 366 }
{
    let days = common_days(months);
    if months > 1 && is_leap_year(year) {
        days + 1
    } else {
        days
    }
}

/// Returns the days before the first day of a month, which is counted from January of the year 0 on.
#[tactic(auto, unfolding(crate::specs::Timeline::days_before_month))]
pub(crate) fn days_before_month(month: i64) -> i64
    requires { IsWithin (10 ^ 11 + 10 ^ 5) month }
    ensures value { result ≡ days_before_month month }
    ensures near { IsWithin (10 ^ 14) result }
{
    let year = month.div_euclid(12);
    let months = month.rem_euclid(12).unsigned_abs();
    days_before_year(year) + days_of_months(year, months) as i64
}
