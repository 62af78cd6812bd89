//! The formats of moments that may have parts of a second and a zone.
ghost use Rattle.std.specs.Prelude.{◌≡◌, ◌≢◌, ◌++◌, ◌∷◌, [], true, List, ℕ, Some, MatchOption, OnOk, string_bytes};
ghost use Rattle.csvw_datatype_core.specs.Fields.{option_view};
ghost use Rattle.csvw_datatype_core.specs.StampFormats.{letters, fraction_pattern, letter_byte, without, run_at, form_of, gap_of, zoned, upper_zone, zone_split, pointed, fraction_split};

use crate::moment::MomentFormat;
use crate::pattern::moment_format_of;
use crate::time::TimeFormat;
use std::alloc::AllocError;

/// How an offset from `Z` is written (Unicode Technical Standard 35, "Date Field Symbol Table").
#[derive(Clone, Copy, Debug, PartialEq, Eq)]
pub enum OffsetForm {
    /// Hours, and minutes that may be missing, as `-08` and `+0530`. The pattern has one letter.
    Short,
    /// Hours and minutes, as `-0800`. The pattern has two letters.
    Basic,
    /// Hours, a `:` and minutes, as `-08:00`. The pattern has three letters.
    Extended,
}

/// Whether `Z` is an offset, too.
#[derive(Clone, Copy, Debug, PartialEq, Eq)]
pub enum UtcMark {
    /// It is. The letters of the pattern are `X`.
    Allowed,
    /// It isn't: an offset is written with digits. The letters of the pattern are `x`.
    Digits,
}

/// What separates a zone from the time of day before it.
#[derive(Clone, Copy, Debug, PartialEq, Eq)]
pub enum ZoneGap {
    /// Nothing.
    None,
    /// One space.
    Space,
}

/// How a zone is written (Model for Tabular Data and Metadata on the Web, section 6.4.4).
#[derive(Clone, Copy, Debug, PartialEq, Eq)]
pub struct ZoneFormat {
    /// How the offset is written.
    pub form: OffsetForm,
    /// Whether `Z` is an offset.
    pub utc: UtcMark,
    /// What is before the offset.
    pub gap: ZoneGap,
}

/// How a moment is written that may have parts of a second and a zone (Model for Tabular Data and Metadata on the Web, section 6.4.4).
#[derive(Clone, Copy, Debug, PartialEq, Eq)]
pub struct StampFormat {
    /// How the date and the time of day are written.
    pub moment: MomentFormat,
    /// The greatest number of digits of the parts of a second. It is 0 if a text has none.
    pub digits: u8,
    /// How the zone is written, if a text has one.
    pub zone: Option<ZoneFormat>,
}

/// A letter of a pattern that may be written several times.
#[derive(Clone, Copy, Debug, PartialEq, Eq)]
pub(crate) enum Letter {
    /// `S`: a digit of the parts of a second.
    Parts,
    /// `.`, before the parts of a second.
    Point,
    /// A space, before a zone.
    Gap,
    /// `X`: a zone.
    Upper,
    /// `x`: a zone without `Z`.
    Lower,
}

impl Letter {
    ghost use Rattle.csvw_datatype_core.specs.StampFormats.{letter_byte};

    fn text(self) -> &'static str
        ensures { result.now ≡ letter_byte self ∷ [] }
    {
        match self {
            Letter::Parts => "S",
            Letter::Point => ".",
            Letter::Gap => " ",
            Letter::Upper => "X",
            Letter::Lower => "x",
        }
    }
}

impl MomentFormat {
    ghost use Rattle.csvw_datatype_core.specs.StampFormats.{has_seconds};

    fn has_seconds(self) -> bool
        ensures { result ≡ has_seconds self }
    {
        matches!(
            self,
            MomentFormat::Seconds | MomentFormat::Spaced(_, TimeFormat::Seconds)
        )
    }
}

impl ZoneFormat {
    ghost use Rattle.csvw_datatype_core.specs.StampFormats.{zone_letter, form_letters, zone_pattern};

    fn letter(self) -> Letter
        ensures { letter_byte result ≡ zone_letter self.utc }
    {
        match self.utc {
            UtcMark::Allowed => Letter::Upper,
            UtcMark::Digits => Letter::Lower,
        }
    }

    /// Returns how many letters the pattern has.
    fn letters(self) -> u8
        ensures { result ≡ form_letters self.form }
    {
        match self.form {
            OffsetForm::Short => 1,
            OffsetForm::Basic => 2,
            OffsetForm::Extended => 3,
        }
    }

    /// Appends the pattern of the zone. Returns `AllocError` if memory runs out.
    pub(crate) fn push_pattern(self, text: &mut String) -> Result<(), AllocError>
        ensures { OnOk result (string_bytes text.new ≡ string_bytes text.old ++ zone_pattern (Some self)) }
    {
        if let ZoneGap::Space = self.gap {
            text.push_str(" ")?;
        }
        push_letters(self.letter(), self.letters(), text)
    }
}

impl StampFormat {
    ghost use Rattle.csvw_datatype_core.specs.StampFormats.{is_stamp, stamp_format_of, stamp_pattern};

    /// Returns the format of a pattern, or `None` if it is not one of these patterns (Model for Tabular Data and Metadata on the
    /// Web, section 6.4.4). It is the pattern of a moment and then perhaps:
    ///
    /// - a point and up to 255 letters `S`, if the moment ends with `HH:mm:ss`;
    /// - one to three letters `X` or `x`, perhaps after one space.
    #[tactic(auto, unfolding(crate::specs::StampFormats::stamp_format_of))]
    pub fn of(pattern: &str) -> Option<StampFormat>
        ensures format { result ≡ stamp_format_of pattern.now }
        ensures pattern { MatchOption result ((f : StampFormat) → is_stamp f ≡ true → pattern.now ≢ stamp_pattern f)
            (λ f. (is_stamp f ≡ true) × (pattern.now ≡ stamp_pattern f)) }
    {
        let (front, zone) = zone_split(pattern)?;
        let (front, digits) = fraction_split(front)?;
        let format = StampFormat {
            moment: moment_format_of(front)?,
            digits,
            zone,
        };
        if format.is_stamp() {
            Some(format)
        } else {
            None
        }
    }

    /// Returns whether the format has no digits of a second, or has seconds.
    pub fn is_stamp(self) -> bool
        ensures { result ≡ is_stamp self }
    {
        self.digits == 0 || self.moment.has_seconds()
    }

    /// Appends the pattern of the format, which `of` reads, to a text. Returns `AllocError` if memory runs out.
    pub fn push_pattern(self, text: &mut String) -> Result<(), AllocError>
        ensures { OnOk result (string_bytes text.new ≡ string_bytes text.old ++ stamp_pattern self) }
    {
        self.moment.push_pattern(text)?;
        push_fraction(self.digits, text)?;
        match self.zone {
            Some(zone) => zone.push_pattern(text),
            None => Ok(()),
        }
    }
}

/// Appends a point and so many letters `S`, or nothing.
pub(crate) fn push_fraction(digits: u8, text: &mut String) -> Result<(), AllocError>
    ensures { OnOk result (string_bytes text.new ≡ string_bytes text.old ++ fraction_pattern digits) }
{
    if digits == 0 {
        return Ok(());
    }
    text.push_str(".")?;
    push_letters(Letter::Parts, digits, text)
}

/// Appends a letter so many times.
fn push_letters(letter: Letter, count: u8, text: &mut String) -> Result<(), AllocError>
    ensures { OnOk result (string_bytes text.new ≡ string_bytes text.old ++ letters (letter_byte letter) count) }
{
    let mut left = count;
    while left > 0 {
        text.push_str(letter.text())?;
        left -= 1;
    }
    Ok(())
}

/// Returns the text before a letter at its end, if it ends with it.
fn before_letter(text: &str, letter: Letter) -> Option<&str>
    ensures { MatchOption result ((front : List ℕ) → text.now ≢ front ++ (letter_byte letter ∷ []))
        (λ front. text.now ≡ front.now ++ (letter_byte letter ∷ [])) }
{
    text.strip_suffix(letter.text())
}

fn without(text: &str, letter: Letter) -> &str
    ensures { result.now ≡ without (letter_byte letter) text.now }
{
    let mut kept = text;
    loop {
        match before_letter(kept, letter) {
            Some(front) => kept = front,
            None => return kept,
        }
    }
}

/// Returns the text before the letters at its end, and how many they are.
fn run_at(text: &str, letter: Letter) -> (&str, usize)
    ensures { (result.0.now, result.1) ≡ run_at (letter_byte letter) text.now }
{
    let front = without(text, letter);
    (front, text.len().saturating_sub(front.len()))
}

fn form_of(letters: usize) -> Option<OffsetForm>
    ensures { result ≡ form_of letters }
{
    match letters {
        1 => Some(OffsetForm::Short),
        2 => Some(OffsetForm::Basic),
        3 => Some(OffsetForm::Extended),
        _ => None,
    }
}

fn gap_of(spaces: usize) -> Option<ZoneGap>
    ensures { result ≡ gap_of spaces }
{
    match spaces {
        0 => Some(ZoneGap::None),
        1 => Some(ZoneGap::Space),
        _ => None,
    }
}

/// Returns the text before a gap and so many letters, and the zone that they are.
#[tactic(auto, unfolding(crate::specs::StampFormats::zoned))]
fn zoned(utc: UtcMark, front: &str, letters: usize) -> Option<(&str, Option<ZoneFormat>)>
    ensures { option_view (λ x. (x.0.now, x.1)) result ≡ zoned utc (front.now, letters) }
{
    let form = form_of(letters)?;
    let (front, spaces) = run_at(front, Letter::Gap);
    let gap = gap_of(spaces)?;
    Some((front, Some(ZoneFormat { form, utc, gap })))
}

fn upper_zone(pattern: &str) -> Option<(&str, Option<ZoneFormat>)>
    ensures { option_view (λ x. (x.0.now, x.1)) result ≡ upper_zone pattern.now }
{
    let (front, letters) = run_at(pattern, Letter::Upper);
    if letters == 0 {
        Some((pattern, None))
    } else {
        zoned(UtcMark::Allowed, front, letters)
    }
}

/// Returns the text before the zone at the end of a pattern, and the zone, if there is one.
pub(crate) fn zone_split(pattern: &str) -> Option<(&str, Option<ZoneFormat>)>
    ensures { option_view (λ x. (x.0.now, x.1)) result ≡ zone_split pattern.now }
{
    let (front, letters) = run_at(pattern, Letter::Lower);
    if letters == 0 {
        upper_zone(pattern)
    } else {
        zoned(UtcMark::Digits, front, letters)
    }
}

fn pointed(front: &str, letters: usize) -> Option<(&str, u8)>
    ensures { option_view (λ x. (x.0.now, x.1)) result ≡ pointed (front.now, letters) }
{
    let (front, points) = run_at(front, Letter::Point);
    if letters <= 255 && points == 1 {
        Some((front, letters as u8))
    } else {
        None
    }
}

/// Returns the text before the digits of a second at the end of a pattern, and how many digits there are.
pub(crate) fn fraction_split(pattern: &str) -> Option<(&str, u8)>
    ensures { option_view (λ x. (x.0.now, x.1)) result ≡ fraction_split pattern.now }
{
    let (front, letters) = run_at(pattern, Letter::Parts);
    if letters == 0 {
        Some((pattern, 0))
    } else {
        pointed(front, letters)
    }
}
