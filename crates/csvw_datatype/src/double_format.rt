//! Numbers with an exponent in a format.
ghost use Rattle.std.specs.Prelude.{◌≡◌, ◌<◌, ◌^◌, ◌++◌, IfOk, OnOk, MatchResult, option_map, unsigned_abs};
ghost use Rattle.csvw_datatype_core.specs.Forms.{number_form};
ghost use Rattle.csvw_datatype_core.specs.Numbers.{IsLawful};
ghost use Rattle.csvw_datatype.specs.DoubleFormats.{HasNoPlain, IsNoNumber, IsPlainOf, IsSameNumber, at_exponent, exponent, is_special, mantissa, mantissa_rules};
ghost use Rattle.csvw_datatype.specs.Formats.{format_rules};
ghost use Rattle.csvw_datatype.specs.Splits.{parts_at};

use crate::format::NumberFormat;
use csvw_datatype_core::{NumberFault, NumberRules, number_text, read_number};
use csvw_text::Text;
use std::alloc::{AllocError, Global};

/// Returns the text before the first `E` and the text after it, or `None` if there is no `E`.
fn at_first_e(text: &str) -> Option<(&str, &str)>
    ensures { option_map (λ x. (x.0.now, x.1.now)) result ≡ parts_at 69 text.now }
{
    text.split_once('E')
}

/// Returns the text before the exponent and the exponent, or `None` if there is no exponent. Under a pattern without an exponent
/// an `E` is a decimal character or a group character.
fn at_exponent<'a>(format: &NumberFormat, text: &'a str) -> Option<(&'a str, &'a str)>
    ensures { option_map (λ x. (x.0.now, x.1.now)) result ≡ at_exponent format.now text.now }
{
    match format.pattern {
        Some(pattern) => {
            if pattern.exponent.is_some() {
                at_first_e(text)
            } else {
                None
            }
        }
        None => at_first_e(text),
    }
}

/// Whether the text is `INF`, `-INF` or `NaN`.
fn is_special(text: &str) -> bool
    ensures { result ≡ is_special text.now }
{
    matches!(text, "INF" | "+INF" | "-INF" | "NaN")
}

/// Returns how a number is written before its exponent.
fn mantissa_rules(format: &NumberFormat, parts: Option<(&str, &str)>) -> NumberRules
    ensures { result ≡ mantissa_rules format.now (option_map (λ x. (x.0.now, x.1.now)) parts.entry) }
{
    NumberRules {
        decimal_char: Some(format.decimal_char),
        group_char: format.group_char,
        allows_marks: parts.is_none(),
    }
}

/// Returns the text before the exponent.
fn mantissa<'a>(text: &'a str, parts: Option<(&'a str, &'a str)>) -> &'a str
    ensures { result.now ≡ mantissa text.now (option_map (λ x. (x.0.now, x.1.now)) parts.entry) }
{
    match parts {
        Some((mantissa, _)) => mantissa,
        None => text,
    }
}

/// Adds the exponent, if there is one. Returns `AllocError` if memory runs out.
fn push_exponent(plain: &mut Text, parts: Option<(&str, &str)>) -> Result<(), AllocError>
    ensures { OnOk result (plain.new ≡ plain.old ++ exponent (option_map (λ x. (x.0.now, x.1.now)) parts.entry)) }
{
    match parts {
        Some((_, exponent)) => {
            plain.push_str("E")?;
            plain.push_str(exponent)
        }
        None => Ok(()),
    }
}

/// Returns the text of a number with the exponent behind it. Returns `AllocError` if memory runs out.
fn with_exponent(
    alloc: Global,
    number: i128,
    parts: Option<(&str, &str)>,
) -> Result<Text, AllocError>
    requires { unsigned_abs number < 10 ^ 38 }
    ensures { IfOk result (λ plain. plain ≡ number_form number ++ exponent (option_map (λ x. (x.0.now, x.1.now)) parts.entry)) }
{
    let mut plain = Text::of(number_text(alloc, number)?);
    push_exponent(&mut plain, parts)?;
    Ok(plain)
}

/// Returns the text of the same number as XML Schema writes it, or why the text before the exponent is no number.
fn same_number(
    alloc: Global,
    format: &NumberFormat,
    text: &str,
) -> Result<Result<Text, NumberFault>, AllocError>
    requires { IsLawful (format_rules format.now) }
    ensures { IfOk result (λ answer. MatchResult answer
        (IsSameNumber format.now text.now (at_exponent format.now text.now))
        (IsNoNumber format.now text.now (at_exponent format.now text.now))) }
{
    let parts = at_exponent(format, text);
    match read_number(&mantissa_rules(format, parts), mantissa(text, parts)) {
        Ok(number) => Ok(Ok(with_exponent(alloc, number, parts)?)),
        Err(fault) => Ok(Err(fault)),
    }
}

/// Returns the text of XML Schema that a text in the format writes, or why the text before the exponent is no number (Model for
/// Tabular Data and Metadata on the Web, section 6.4.2). Returns `AllocError` if memory runs out.
pub(crate) fn plain_double(
    alloc: Global,
    format: &NumberFormat,
    text: &str,
) -> Result<Result<Text, NumberFault>, AllocError>
    requires { IsLawful (format_rules format.now) }
    ensures { IfOk result (λ answer. MatchResult answer (IsPlainOf format.now text.now) (HasNoPlain format.now text.now)) }
{
    if is_special(text) {
        return Ok(Ok(Text::copied(alloc, text)?));
    }
    match same_number(alloc, format, text)? {
        Ok(plain) => Ok(Ok(plain)),
        Err(fault) => Ok(Err(fault)),
    }
}
