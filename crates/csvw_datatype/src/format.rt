//! The formats that texts of a datatype are written in.
ghost use Rattle.std.specs.Prelude.{◌≡◌, ◌≢◌, ◌↔◌, ◌++◌, IfOk, OnOk, IsTrue, MatchOption, option_copied, string_bytes, encode_utf8_all, ℕ};
ghost use Rattle.csvw_datatype.specs.Characters.{IsCharacter};
ghost use Rattle.csvw_datatype.specs.Formats.{is_described};
ghost use Rattle.csvw_datatype.specs.Bars.{IsTruthText, has_bar, HasNoSplit, IsOnlySplit};

use csvw_datatype_core::{
    ClockFormat, DateFormat, MomentFormat, NumberPattern, NumberRules, StampFormat, ZonedDateFormat,
};
use csvw_regex::{Expressions, RegularExpression};
use csvw_text::{Copied, Text};
use std::alloc::{AllocError, Global};

/// The two texts of booleans (Model for Tabular Data and Metadata on the Web, section 6.4.3).
#[derive(Debug, Drop, PartialEq, Eq)]
pub struct TruthFormat {
    /// The text of true.
    pub if_true: Text,
    /// The text of false.
    pub if_false: Text,
}

/// The characters of a number, and its pattern (Model for Tabular Data and Metadata on the Web, section 6.4.2).
#[derive(Clone, Copy, Debug, PartialEq, Eq)]
pub struct NumberFormat {
    /// `decimalChar`, the character before a fraction.
    pub decimal_char: char,
    /// `groupChar`, the character that may be between two digits of the whole part.
    pub group_char: Option<char>,
    /// `pattern`, if there is one. Without it numbers have as many digits and group characters as they like.
    pub pattern: Option<NumberPattern>,
}

/// The way in which texts of a datatype are written, if it isn't the default.
#[derive(Debug, Drop, PartialEq, Eq)]
pub enum Format {
    /// The format of booleans.
    Truth(TruthFormat),
    /// The format of integers, derived ones too, of decimals, and of numbers with an exponent.
    Number(NumberFormat),
    /// The format of dates without zones.
    Day(DateFormat),
    /// The format of dates with a time of day, without parts of a second and zones.
    Moment(MomentFormat),
    /// The format of times of day.
    Time(ClockFormat),
    /// The format of dates that may have a zone.
    ZonedDay(ZonedDateFormat),
    /// The format of dates with a time of day that may have parts of a second and a zone.
    Stamp(StampFormat),
    /// The regular expression of texts (Model for Tabular Data and Metadata on the Web, section 6.4.6).
    Expression(RegularExpression),
}

impl TruthFormat {
    ghost use Rattle.csvw_datatype.specs.declared.format.TruthFormat.{TruthFormat};
    ghost use Rattle.csvw_datatype.specs.Formats.{AreTruthTexts, truth_pattern};

    /// Returns the format of a pattern: two different texts, neither empty, with one `|` between them (Model for
    /// Tabular Data and Metadata on the Web, section 6.4.3).
    ///
    /// Returns `None` if the pattern isn't that, and `AllocError` if memory runs out.
    pub fn of(alloc: Global, pattern: &str) -> Result<Option<TruthFormat>, AllocError>
        ensures { IfOk result (λ o. MatchOption o ((f : TruthFormat) → AreTruthTexts f → pattern.now ≢ truth_pattern f)
            (λ f. AreTruthTexts f × (pattern.now ≡ truth_pattern f))) }
    {
        let Some((if_true, if_false)) = split_at_bar(pattern) else {
            return Ok(None);
        };
        let format = TruthFormat {
            if_true: Text::copied(alloc, if_true)?,
            if_false: Text::copied(alloc, if_false)?,
        };
        if format.is_lawful() {
            Ok(Some(format))
        } else {
            Ok(None)
        }
    }

    /// Returns whether the two texts differ, and neither is empty or contains `|`.
    pub(crate) fn is_lawful(&self) -> bool
        ensures { IsTrue result ↔ AreTruthTexts self.now }
    {
        is_truth_text(self.if_true.as_str())
            && is_truth_text(self.if_false.as_str())
            && self.if_true != self.if_false
    }

    /// Returns an equal format, or `AllocError` if memory runs out.
    pub fn clone(&self, alloc: Global) -> Result<TruthFormat, AllocError>
        ensures { IfOk result (λ f. f ≡ self.now) }
    {
        Ok(TruthFormat {
            if_true: self.if_true.clone(alloc)?,
            if_false: self.if_false.clone(alloc)?,
        })
    }
}

impl NumberFormat {
    ghost use Rattle.csvw_datatype.specs.declared.format.NumberFormat.{NumberFormat};
    ghost use Rattle.std.specs.Str.{chars};
    ghost use Rattle.csvw_datatype.specs.Formats.{IsNumberFormat, fits_pattern, format_rules, pattern_form_of};

    /// Returns the format without a pattern of the texts of `decimalChar`, which is `.` if it is absent, and `groupChar`.
    /// Returns `None` if one of them isn't one character (Metadata Vocabulary for Tabular Data, section 5.11.2).
    pub fn of(decimal_char: Option<&str>, group_char: Option<&str>) -> Option<NumberFormat>
        ensures { MatchOption result
            ((f : NumberFormat) → ¬ IsNumberFormat (option_copied decimal_char.entry) (option_copied group_char.entry) f)
            (IsNumberFormat (option_copied decimal_char.entry) (option_copied group_char.entry)) }
    {
        let decimal_char = match decimal_char {
            None => '.',
            Some(text) => one_character(text)?,
        };
        let group_char = match group_char {
            None => None,
            Some(text) => Some(one_character(text)?),
        };
        Some(NumberFormat {
            decimal_char,
            group_char,
            pattern: None,
        })
    }

    /// Returns how decimals are written in the format.
    pub fn rules(&self) -> NumberRules
        ensures { result ≡ format_rules self.now }
    {
        NumberRules {
            decimal_char: Some(self.decimal_char),
            group_char: self.group_char,
            allows_marks: true,
        }
    }

    /// Adds the pattern to a text, if there is one. Returns `AllocError` if memory runs out.
    pub fn push_pattern(&self, text: &mut String) -> Result<(), AllocError>
        ensures { OnOk result (string_bytes text.new ≡ string_bytes text.old ++ encode_utf8_all (pattern_form_of self.now)) }
    {
        match &self.pattern {
            Some(pattern) => pattern.push_to(&self.rules(), text),
            None => Ok(()),
        }
    }

    /// Returns whether a number is written as the pattern says, if there is one.
    pub(crate) fn fits(&self, text: &str) -> bool
        ensures { result ≡ fits_pattern self.now (chars text.now) }
    {
        match &self.pattern {
            Some(pattern) => pattern.fits(&self.rules(), text),
            None => true,
        }
    }
}

impl Format {
    /// Returns an equal format, or `AllocError` if memory runs out.
    pub fn clone(&self, alloc: Global) -> Result<Format, AllocError>
        ensures { IfOk result (λ f. f ≡ self.now) }
    {
        match self {
            Format::Truth(format) => Ok(Format::Truth(format.clone(alloc)?)),
            Format::Number(format) => Ok(Format::Number(*format)),
            Format::Day(format) => Ok(Format::Day(*format)),
            Format::Moment(format) => Ok(Format::Moment(*format)),
            Format::Time(format) => Ok(Format::Time(*format)),
            Format::ZonedDay(format) => Ok(Format::ZonedDay(*format)),
            Format::Stamp(format) => Ok(Format::Stamp(*format)),
            Format::Expression(expression) => Ok(Format::Expression(expression.clone(alloc)?)),
        }
    }
}

impl Copied for Format {
    fn copied(&self, alloc: Global) -> Result<Format, AllocError> {
        self.clone(alloc)
    }
}

/// Returns whether the format's expression describes a text, if it is one. Returns `AllocError` if memory runs out.
pub(crate) fn is_described(
    format: &Option<Format>,
    expressions: &mut Expressions,
    text: &str,
) -> Result<bool, AllocError>
    ensures { IfOk result (λ b. b ≡ is_described format.now text.now) }
{
    match format {
        Some(Format::Expression(expression)) => expressions.fit(expression, text),
        Some(
            Format::Truth(_)
            | Format::Number(_)
            | Format::Day(_)
            | Format::Moment(_)
            | Format::Time(_)
            | Format::ZonedDay(_)
            | Format::Stamp(_),
        )
        | None => Ok(true),
    }
}

fn is_truth_text(text: &str) -> bool
    ensures { IsTrue result ↔ IsTruthText text.now }
{
    !text.is_empty() && !has_bar(text)
}

fn has_bar(text: &str) -> bool
    ensures { result ≡ has_bar text.now }
{
    text.as_bytes().iter().any(|b| *b == b'|')
}

fn split_at_bar(text: &str) -> Option<(&str, &str)>
    ensures { MatchOption result (HasNoSplit text.now) (λ x. IsOnlySplit text.now x.0.now x.1.now) }
{
    text.split_once('|')
}

fn one_character(text: &str) -> Option<char>
    ensures { MatchOption result ((c : ℕ) → ¬ IsCharacter text.now c) (IsCharacter text.now) }
{
    let mut characters = text.chars();
    let first = characters.next()?;
    match characters.next() {
        None => Some(first),
        Some(_) => None,
    }
}
