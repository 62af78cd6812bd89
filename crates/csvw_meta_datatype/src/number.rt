//! The decimal and group characters of numbers, and their patterns (Model for Tabular Data and Metadata on the Web, section 6.4.2).
ghost use Rattle.std.specs.Prelude.{◌≡◌, ◌++◌, [], Ok, chars};
ghost use Rattle.serde_json.specs.View.{view};
ghost use Rattle.csvw_meta_core.specs.Pointer.{text_of};
ghost use Rattle.csvw_meta_core.specs.Others.{others};
ghost use Rattle.csvw_meta_core.specs.declared.others.CommonProperty.TheVariants.{Refused};
ghost use Rattle.csvw_meta_core.specs.Reads.{Reads};
ghost use Rattle.csvw_meta_datatype.specs.Numbers.{sole, is_free, character, clashes, default_group, format_names, number_parts, lawful_number, number_form, pattern_code, pattern_in, pattern_text, patterned, pattern_faults, with_group, with_pattern};

use csvw_datatype::NumberFormat;
use csvw_datatype_core::{NumberPattern, PatternFault};
use csvw_meta_core::{CommonProperty, Listed, MetaCode, Part, Profile, Reader, Refusal};
use csvw_text::{Fault, Place, Seq, Text};

/// The properties that are listed for the format of a number.
pub const FORMAT: [&str; 3] = ["pattern", "decimalChar", "groupChar"];

/// The characters of a number, and the warnings on them.
#[derive(Drop)]
pub struct NumberFound {
    /// The characters.
    pub format: NumberFormat,
    /// A warning for each property that is ignored.
    pub warnings: Seq<Fault>,
}

/// The characters of a number, and the text of its pattern.
#[derive(Drop)]
pub struct NumberParts {
    /// The text of the pattern, if there is one.
    pub pattern: Option<Text>,
    /// The format without the pattern.
    pub format: NumberFormat,
}

/// The default characters.
pub const PLAIN: NumberFormat = NumberFormat {
    decimal_char: '.',
    group_char: None,
    pattern: None,
};

fn sole(text: &str) -> Option<char>
    ensures { result ≡ sole (chars text.now) }
{
    let mut chars = text.chars();
    let Some(c) = chars.next() else {
        return None;
    };
    match chars.next() {
        None => Some(c),
        Some(_) => None,
    }
}

/// Whether a character is none of: a digit, a sign, a mark, a tab, a line break.
fn is_free(c: char) -> bool
    ensures { result ≡ is_free c }
{
    !c.is_ascii_digit() && !matches!(c, '+' | '-' | '%' | '‰' | '\t' | '\n' | '\r')
}

/// Reads a character that separates the digits of a number. Another text is `BadDatatype`.
#[derive(Drop)]
pub struct CharReader;

impl Reader for CharReader {
    type Output = char;

    ghost reads = { λ _. character };

    fn read(&self, part: &Part) -> Result<char, Refusal> {
        let Some(text) = part.value.as_str() else {
            return Err(part.wrong());
        };
        match sole(text) {
            Some(c) if is_free(c) => Ok(c),
            _ => Err(part.refused(MetaCode::BadDatatype)),
        }
    }
}

/// Returns whether the group character equals the decimal character.
pub fn clashes(format: NumberFormat) -> bool
    ensures { result ≡ clashes format }
{
    match format.group_char {
        Some(group_char) => group_char == format.decimal_char,
        None => false,
    }
}

/// Reads the text of a pattern. In the profile core it is `NotSupported`.
#[derive(Drop)]
pub struct PatternReader {
    /// The formats that the document may use.
    pub profile: Profile,
}

impl Reader for PatternReader {
    type Output = Option<Text>;

    ghost reads = { λ r. pattern_text r.profile };

    fn read(&self, part: &Part) -> Result<Option<Text>, Refusal> {
        match (self.profile, part.value.as_str()) {
            (Profile::Core, _) => Err(part.refused(MetaCode::NotSupported)),
            (Profile::W3c, Some(text)) => Ok(Some(Text::copied(part.alloc, text)?)),
            (Profile::W3c, None) => Err(part.wrong()),
        }
    }
}

#[tactic(auto, using(crate::proofs::ReadLemmas::fails_first), unfolding(crate::specs::Numbers::number_parts))]
fn number_parts(profile: Profile, part: &Part) -> Result<NumberParts, Refusal>
    ensures { Reads result (number_parts profile (text_of part.now.at) (view part.now.value.now)) }
{
    let pattern = part.property(&PatternReader { profile }, None, "pattern")?;
    let decimal_char = part.property(&CharReader, '.', "decimalChar")?;
    let group_char = part.optional(&CharReader, "groupChar")?;
    let format = NumberFormat {
        decimal_char,
        group_char,
        pattern: None,
    };
    Ok(NumberParts { pattern, format })
}

/// Returns the group character of a pattern: `,` by default, if that isn't the decimal character.
fn default_group(decimal_char: char, group_char: Option<char>) -> Option<char>
    ensures { result ≡ default_group decimal_char group_char }
{
    match group_char {
        Some(group_char) => Some(group_char),
        None if decimal_char == ',' => None,
        None => Some(','),
    }
}

fn with_group(format: NumberFormat) -> NumberFormat
    ensures { result ≡ with_group format }
{
    NumberFormat {
        group_char: default_group(format.decimal_char, format.group_char),
        ..format
    }
}

/// Returns the pattern that a text is with the characters of a format. Returns `Bad` or `Unknown` if it is none.
pub fn pattern_in(format: NumberFormat, text: &str) -> Result<NumberPattern, PatternFault>
    ensures { result ≡ pattern_in format text.now }
{
    NumberPattern::of(&with_group(format).rules(), text)
}

/// Returns the code of a text that is no pattern.
pub fn pattern_code(fault: PatternFault) -> MetaCode
    ensures { result ≡ pattern_code fault }
{
    match fault {
        PatternFault::Bad => MetaCode::BadDatatype,
        PatternFault::Unknown => MetaCode::NotSupported,
    }
}

/// Returns the format with a pattern.
pub fn patterned(format: NumberFormat, pattern: NumberPattern) -> NumberFormat
    ensures { result ≡ patterned format (Ok pattern) }
{
    NumberFormat {
        pattern: Some(pattern),
        ..with_group(format)
    }
}

/// Reads the pattern, if there is one, of a part whose characters differ.
fn read_pattern(parts: &NumberParts, part: &Part) -> Result<NumberFormat, Refusal>
    ensures { Reads result (record {
      faults = pattern_faults (text_of part.now.at) parts.now.format parts.now.pattern;
      value = with_pattern parts.now.format parts.now.pattern;
    }) }
{
    let Some(text) = &parts.pattern else {
        return Ok(parts.format);
    };
    match pattern_in(parts.format, text.as_str()) {
        Ok(pattern) => Ok(patterned(parts.format, pattern)),
        Err(fault) => Err(
            part.member("pattern", part.value)
                .refused(pattern_code(fault)),
        ),
    }
}

#[tactic(auto, using(crate::proofs::ReadLemmas::fails_first))]
fn lawful_number(profile: Profile, part: &Part) -> Result<NumberFormat, Refusal>
    ensures { Reads result (lawful_number profile (text_of part.now.at) (view part.now.value.now)) }
{
    let parts = number_parts(profile, part)?;
    if clashes(parts.format) {
        return Err(part.refused(MetaCode::BadDatatype));
    }
    read_pattern(&parts, part)
}

fn warnings_of(place: Place, part: &Part) -> Result<Seq<Fault>, Refusal>
    ensures { Reads result (others (format_names ++ []) Refused place (text_of part.now.at) (view part.now.value.now)) }
{
    let listed = Listed {
        names: &FORMAT,
        shared: &[],
        common: CommonProperty::Refused,
        place,
    };
    listed.read(part)
}

/// Reads the characters that an object describes.
#[tactic(auto, using(crate::proofs::ReadLemmas::fails_first), unfolding(crate::specs::Numbers::number_form))]
pub(crate) fn read_number_form(
    profile: Profile,
    place: Place,
    part: &Part,
) -> Result<NumberFound, Refusal>
    ensures { Reads result (number_form profile place (text_of part.now.at) (view part.now.value.now)) }
{
    let format = lawful_number(profile, part)?;
    let warnings = warnings_of(place, part)?;
    Ok(NumberFound { format, warnings })
}
