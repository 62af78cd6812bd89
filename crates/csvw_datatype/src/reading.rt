//! The value of a text in a format, or `None` if the text is none.
ghost use Rattle.std.specs.Prelude.{◌≡◌};
ghost use Rattle.std.specs.Str.{chars};
ghost use Rattle.csvw_datatype_core.specs.Numbers.{IsLawful};
ghost use Rattle.csvw_datatype_core.specs.Values.{number_value, date_value, moment_value};

use csvw_datatype_core::{
    DateFormat, MomentFormat, NumberRules, one_date, one_moment, one_number, read_date,
    read_moment, read_number, values_read,
};

/// Returns the number that a text is, in units of 10^-18, or `None` if it is none. The rules must have passed `is_lawful`.
pub fn number_of(rules: &NumberRules, text: &str) -> Option<i128>
    requires { IsLawful rules.now }
    ensures { result ≡ number_value rules.now (chars text.now) }
{
    values_read();
    one_number();
    match read_number(rules, text) {
        Ok(number) => Some(number),
        Err(_) => None,
    }
}

/// Returns the day that a text is in a format, in days since 1 January 1970, or `None` if it is none.
pub fn day_of(format: DateFormat, text: &str) -> Option<i32>
    ensures { result ≡ date_value format text.now }
{
    values_read();
    one_date();
    read_date(format, text)
}

/// Returns the moment that a text is in a format, in seconds since 1 January 1970, or `None` if it is none.
pub fn moment_of(format: MomentFormat, text: &str) -> Option<i64>
    ensures { result ≡ moment_value format text.now }
{
    values_read();
    one_moment();
    read_moment(format, text)
}
