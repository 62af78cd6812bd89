//! Formats (Metadata Vocabulary for Tabular Data, section 5.11.2).
ghost use Rattle.std.specs.Prelude.{◌≡◌};
ghost use Rattle.serde_json.specs.View.{view};
ghost use Rattle.csvw_meta_core.specs.Pointer.{text_of};
ghost use Rattle.csvw_meta_core.specs.Reads.{Reads};
ghost use Rattle.csvw_meta_core.specs.Read.{under};
ghost use Rattle.csvw_meta_datatype.specs.Formats.{expression_format, format_of_texts, found, number_format, number_found, text_format};
ghost use Rattle.csvw_meta_datatype.specs.Numbers.{number_form};

use crate::expression::ExpressionReader;
use crate::number::{PLAIN, pattern_code, pattern_in, patterned, read_number_form};
use crate::pattern::{ClockPattern, DatePattern, MomentPattern, StampPattern, ZonedDatePattern};
use crate::truth::TruthPattern;
use csvw_datatype::{Format, Simple, TextType};
use csvw_meta_core::{MetaCode, Part, Profile, Reader, Refusal};
use csvw_text::{Fault, Place, Seq};
use serde_json::Value;

/// A format, and the warnings on it.
#[derive(Drop)]
pub struct FormatFound {
    /// The format, or `None` if there is none.
    pub format: Option<Format>,
    /// A warning for each property of the format that is ignored.
    pub warnings: Seq<Fault>,
}

/// Reads the format of a datatype.
///
/// It is `NotSupported` for a part of a date. In the profile core it is `NotSupported` for a string, and so is a text for a
/// number. A pattern of a date, a moment or a time of day that is not supported is `NotSupported`, and so is one of a number
/// with a character that isn't.
///
/// It is `BadDatatype` if a character or a pattern of a number is wrong, or the pattern of a boolean. In the profile w3c so
/// is a text for a string that is no regular expression.
#[derive(Drop)]
pub struct FormatReader {
    /// The formats that the document may use.
    pub profile: Profile,
    /// The datatype's `base`.
    pub simple: Simple,
    /// The place of the warnings.
    pub place: Place,
}

/// Returns a format without warnings.
fn found(part: &Part, format: Format) -> FormatFound
    ensures { result ≡ found format }
{
    FormatFound {
        format: Some(format),
        warnings: Seq::new(part.alloc),
    }
}

fn read_number_object(profile: Profile, place: Place, part: &Part) -> Result<FormatFound, Refusal>
    ensures { Reads result (under number_found (number_form profile place (text_of part.now.at) (view part.now.value.now))) }
{
    let found = read_number_form(profile, place, part)?;
    Ok(FormatFound {
        format: Some(Format::Number(found.format)),
        warnings: found.warnings,
    })
}

/// Reads a text as the pattern of numbers.
fn read_number_text(text: &str, part: &Part) -> Result<FormatFound, Refusal>
    ensures { Reads result (text_format (text_of part.now.at) text.now) }
{
    match pattern_in(PLAIN, text) {
        Ok(pattern) => Ok(FormatFound {
            format: Some(Format::Number(patterned(PLAIN, pattern))),
            warnings: Seq::new(part.alloc),
        }),
        Err(fault) => Err(part.refused(pattern_code(fault))),
    }
}

fn read_number_format(profile: Profile, place: Place, part: &Part) -> Result<FormatFound, Refusal>
    ensures { Reads result (number_format profile place (text_of part.now.at) (view part.now.value.now)) }
{
    match (profile, part.value) {
        (_, Value::Object(_)) => read_number_object(profile, place, part),
        (Profile::W3c, Value::String(text)) => read_number_text(text.as_str(), part),
        (Profile::Core, Value::String(_)) => Err(part.refused(MetaCode::NotSupported)),
        _ => Err(part.wrong()),
    }
}

/// Reads the regular expression that the format is. In the profile core it is `NotSupported`.
fn read_expression(profile: Profile, part: &Part) -> Result<FormatFound, Refusal>
    ensures { Reads result (expression_format profile (text_of part.now.at) (view part.now.value.now)) }
{
    let format = match (ExpressionReader { profile }).read(part)? {
        Some(expression) => Some(Format::Expression(expression)),
        None => None,
    };
    Ok(FormatFound {
        format,
        warnings: Seq::new(part.alloc),
    })
}

/// Reads the format of a type that keeps texts.
fn read_format_of_texts(
    profile: Profile,
    text_type: TextType,
    part: &Part,
) -> Result<FormatFound, Refusal>
    ensures { Reads result (format_of_texts profile text_type (text_of part.now.at) (view part.now.value.now)) }
{
    match text_type {
        TextType::Time => Ok(found(part, Format::Time(ClockPattern.read(part)?))),
        TextType::Date => Ok(found(part, Format::ZonedDay(ZonedDatePattern.read(part)?))),
        TextType::DateTime(_) => Ok(found(part, Format::Stamp(StampPattern.read(part)?))),
        TextType::Any
        | TextType::Normalized
        | TextType::Token
        | TextType::Language
        | TextType::Name
        | TextType::NameToken
        | TextType::QualifiedName
        | TextType::Xml
        | TextType::Html
        | TextType::Json
        | TextType::Binary(_)
        | TextType::Duration(_) => read_expression(profile, part),
        TextType::Part(_) => Err(part.refused(MetaCode::NotSupported)),
    }
}

impl Reader for FormatReader {
    ghost use Rattle.csvw_meta_datatype.specs.Formats.{format};

    type Output = FormatFound;

    ghost reads = { λ r. format r.profile r.simple r.place };

    #[tactic(auto, unfolding(crate::specs::Formats::format))]
    fn read(&self, part: &Part) -> Result<FormatFound, Refusal> {
        let format = match self.simple {
            Simple::Text | Simple::Uri => return read_expression(self.profile, part),
            Simple::Other(text_type) => return read_format_of_texts(self.profile, text_type, part),
            Simple::Whole | Simple::Derived(_) | Simple::Decimal | Simple::Floating(_) => {
                return read_number_format(self.profile, self.place, part);
            }
            Simple::Truth => Format::Truth(TruthPattern.read(part)?),
            Simple::Day => Format::Day(DatePattern.read(part)?),
            Simple::Moment => Format::Moment(MomentPattern.read(part)?),
        };
        Ok(found(part, format))
    }
}
