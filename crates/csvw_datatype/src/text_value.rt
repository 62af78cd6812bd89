//! The value of a text under a type that keeps texts.
ghost use Rattle.std.specs.Prelude.{◌≡◌, IfOk, Some, None, if◌then◌else◌};
ghost use Rattle.csvw_datatype.specs.TextValues.{clock_format, moment_in, text_value, text_code, text_if, kept, kept_if, date_kept, date_time_kept, zoned_format};
ghost use Rattle.csvw_datatype.specs.Formats.{is_described};

use crate::format::{Format, is_described};
use crate::qualified_name::is_qualified_name;
use crate::simple::TextType;
use crate::value::Value;
use csvw_binary::binary_text;
use csvw_datatype_core::{
    ClockFormat, DateTime, Zone, ZonedDate, ZonedDateFormat, clock_text, date_part_text,
    is_language, is_name, is_name_token, read_date_time, read_stamp, read_zoned_date,
};
use csvw_duration::duration_text;
use csvw_regex::Expressions;
use csvw_text::{Code, Text};
use std::alloc::{AllocError, Global};

fn clock_format(format: &Option<Format>) -> ClockFormat
    ensures { result ≡ clock_format format.now }
{
    match format {
        Some(Format::Time(format)) => *format,
        Some(
            Format::Truth(_)
            | Format::Number(_)
            | Format::Day(_)
            | Format::Moment(_)
            | Format::ZonedDay(_)
            | Format::Stamp(_)
            | Format::Expression(_),
        )
        | None => { ClockFormat::Any }
    }
}

/// Reads a moment in a format, or as XML Schema writes it.
fn read_moment_in(
    alloc: Global,
    format: &Option<Format>,
    zone: Zone,
    text: &str,
) -> Result<Option<DateTime>, AllocError>
    ensures { IfOk result (λ o. o ≡ moment_in format.now zone text.now) }
{
    match format {
        Some(Format::Stamp(format)) => read_stamp(alloc, *format, zone, text),
        Some(
            Format::Truth(_)
            | Format::Number(_)
            | Format::Day(_)
            | Format::Moment(_)
            | Format::Time(_)
            | Format::ZonedDay(_)
            | Format::Expression(_),
        )
        | None => read_date_time(alloc, zone, text),
    }
}

/// Returns the format of dates that may have a zone, if there is one.
fn zoned_format(format: &Option<Format>) -> Option<ZonedDateFormat>
    ensures { result ≡ zoned_format format.now }
{
    match format {
        Some(Format::ZonedDay(format)) => Some(*format),
        Some(
            Format::Truth(_)
            | Format::Number(_)
            | Format::Day(_)
            | Format::Moment(_)
            | Format::Time(_)
            | Format::Stamp(_)
            | Format::Expression(_),
        )
        | None => None,
    }
}

/// Returns the value that is the text itself, if the text is one of its type. Returns `AllocError` if memory runs out.
fn text_if(alloc: Global, is_one: bool, text: &str) -> Result<Option<Value>, AllocError>
    ensures { IfOk result (λ o. o ≡ text_if is_one text.now) }
{
    if is_one {
        Ok(Some(Value::Text(Text::copied(alloc, text)?)))
    } else {
        Ok(None)
    }
}

/// Returns the value that is kept as a text.
fn kept(form: Option<Text>) -> Option<Value>
    ensures { result ≡ kept form }
{
    match form {
        Some(text) => Some(Value::Text(text)),
        None => None,
    }
}

/// Returns the value that is kept as a text, if its text is described.
fn kept_if(is_one: bool, form: Option<Text>) -> Option<Value>
    ensures { result ≡ kept_if is_one form }
{
    if is_one { kept(form) } else { None }
}

/// Returns the value of a moment. One with a zone or with parts of a second is kept as its text.
fn date_time_kept(found: Option<DateTime>) -> Option<Value>
    ensures { result ≡ date_time_kept found }
{
    match found {
        Some(DateTime::Second(moment)) => Some(Value::Moment(moment)),
        Some(DateTime::Written(text)) => Some(Value::Text(text)),
        None => None,
    }
}

/// Returns the value of a date. One with a zone is kept as its text.
fn date_kept(found: Option<ZonedDate>) -> Option<Value>
    ensures { result ≡ date_kept found }
{
    match found {
        Some(ZonedDate::Day(day)) => Some(Value::Day(day)),
        Some(ZonedDate::Written(text)) => Some(Value::Text(text)),
        None => None,
    }
}

/// Returns the value that a text is.
///
/// Returns `None` if the text is no value of the type, and `AllocError` if memory runs out.
#[tactic(auto, unfolding(crate::specs::TextValues::text_value))]
pub(crate) fn text_value(
    expressions: &mut Expressions,
    text_type: TextType,
    format: &Option<Format>,
    text: &str,
) -> Result<Option<Value>, AllocError>
    ensures { IfOk result (λ o. o ≡ text_value text_type format.now text.now) }
{
    let alloc = expressions.alloc();
    match text_type {
        TextType::Time => Ok(kept(clock_text(alloc, clock_format(format), text)?)),
        TextType::Date => Ok(date_kept(read_zoned_date(alloc, zoned_format(format), text)?)),
        TextType::DateTime(zone) => Ok(date_time_kept(read_moment_in(alloc, format, zone, text)?)),
        TextType::Part(part) => Ok(kept(date_part_text(alloc, part, text)?)),
        TextType::Binary(form) => {
            let is_one = is_described(format, expressions, text)?;
            Ok(kept_if(is_one, binary_text(alloc, form, text)?))
        }
        TextType::Duration(kind) => {
            let is_one = is_described(format, expressions, text)?;
            Ok(kept_if(is_one, duration_text(alloc, kind, text)?))
        }
        TextType::Any
        | TextType::Normalized
        | TextType::Token
        | TextType::Xml
        | TextType::Html
        | TextType::Json => { text_if(alloc, is_described(format, expressions, text)?, text) }
        TextType::Language => {
            let is_one = is_language(text) && is_described(format, expressions, text)?;
            text_if(alloc, is_one, text)
        }
        TextType::Name => {
            let is_one = is_name(text) && is_described(format, expressions, text)?;
            text_if(alloc, is_one, text)
        }
        TextType::NameToken => {
            let is_one = is_name_token(text) && is_described(format, expressions, text)?;
            text_if(alloc, is_one, text)
        }
        TextType::QualifiedName => {
            let is_one = is_qualified_name(text) && is_described(format, expressions, text)?;
            text_if(alloc, is_one, text)
        }
    }
}

/// Returns the code of a text that is no value of the type.
pub(crate) fn text_code(text_type: TextType) -> Code
    ensures { result ≡ text_code text_type }
{
    match text_type {
        TextType::Time => Code::BadTime,
        TextType::DateTime(_) => Code::BadDateTime,
        TextType::Date | TextType::Part(_) => Code::BadDate,
        TextType::Duration(_) => Code::BadDuration,
        TextType::Any
        | TextType::Normalized
        | TextType::Token
        | TextType::Language
        | TextType::Name
        | TextType::NameToken
        | TextType::QualifiedName
        | TextType::Xml
        | TextType::Html
        | TextType::Json
        | TextType::Binary(_) => Code::BadText,
    }
}
