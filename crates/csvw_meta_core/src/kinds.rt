//! The kinds of value that a property has (Metadata Vocabulary for Tabular Data, section 5.1).
//!
//! A value of a wrong kind is `BadProperty`, or `NotSupported` if it is a number that is not whole.
ghost use Rattle.std.specs.Prelude.{◌≡◌, ◌≤◌, IfOk};
ghost use Rattle.std.specs.Str.{chars};
ghost use Rattle.serde_json.specs.View.{view};
ghost use Rattle.csvw_meta_core.specs.Pointer.{text_of};
ghost use Rattle.csvw_meta_core.specs.Reads.{Reads};
ghost use Rattle.csvw_meta_core.specs.Kinds.{truth, text, some_text, fixed, whole, any_whole, character, texts, language, sole_of};

use crate::fault::{MetaCode, Refusal};
use crate::part::Part;
use crate::reader::{Reader, each};
use csvw_text::{LanguageTag, Seq, Text};
use serde_json::Value;

/// Reads a boolean: `true` or `false`. Another value is `BadProperty`, or `NotSupported` if it is a number that is not
/// whole.
#[derive(Drop)]
pub struct Truth;

impl Reader for Truth {
    type Output = bool;

    ghost reads = { λ _. truth };

    fn read(&self, part: &Part) -> Result<bool, Refusal> {
        match part.value.as_bool() {
            Some(b) => Ok(b),
            None => Err(part.wrong()),
        }
    }
}

/// Reads a text. Another value is `BadProperty`, or `NotSupported` if it is a number that is not whole.
#[derive(Drop)]
pub struct AnyText;

impl Reader for AnyText {
    type Output = Text;

    ghost reads = { λ _. text };

    fn read(&self, part: &Part) -> Result<Text, Refusal> {
        match part.value.as_str() {
            Some(text) => Ok(Text::copied(part.alloc, text)?),
            None => Err(part.wrong()),
        }
    }
}

/// Reads a text that is not empty. An empty text is `BadProperty`. So is another value, but a number that is not whole
/// is `NotSupported`.
#[derive(Drop)]
pub struct SomeText;

impl Reader for SomeText {
    type Output = Text;

    ghost reads = { λ _. some_text };

    fn read(&self, part: &Part) -> Result<Text, Refusal> {
        let Some(text) = part.value.as_str() else {
            return Err(part.wrong());
        };
        if text.is_empty() {
            return Err(part.refused(MetaCode::BadProperty));
        }
        Ok(Text::copied(part.alloc, text)?)
    }
}

/// Reads one given text, such as the name of a type. Another value is `BadProperty`, or `NotSupported` if it is a
/// number that is not whole.
#[derive(Drop)]
pub struct Fixed<'a> {
    /// The text.
    pub text: &'a str,
}

impl<'a> Reader for Fixed<'a> {
    type Output = ();

    ghost reads = { λ r. fixed r.text.now };

    fn read(&self, part: &Part) -> Result<(), Refusal> {
        match part.value.as_str() {
            Some(text) if text == self.text => Ok(()),
            Some(_) => Err(part.refused(MetaCode::BadProperty)),
            None => Err(part.wrong()),
        }
    }
}

/// Reads a whole number from 0 to a limit. One above the limit is `TooMany`. A number that is not whole is
/// `NotSupported`, and another value is `BadProperty`.
#[derive(Drop)]
pub struct WholeU8 {
    /// The limit.
    pub most: u8,
}

impl Reader for WholeU8 {
    type Output = u8;

    ghost reads = { λ r. whole r.most };

    fn read(&self, part: &Part) -> Result<u8, Refusal> {
        Ok(whole(part, self.most as u64)? as u8)
    }
}

/// Reads a whole number from 0 to a limit. One above the limit is `TooMany`. A number that is not whole is
/// `NotSupported`, and another value is `BadProperty`.
#[derive(Drop)]
pub struct WholeU32 {
    /// The limit.
    pub most: u32,
}

impl Reader for WholeU32 {
    type Output = u32;

    ghost reads = { λ r. whole r.most };

    fn read(&self, part: &Part) -> Result<u32, Refusal> {
        Ok(whole(part, self.most as u64)? as u32)
    }
}

/// Reads a whole number from 0 up. A number that a u64 cannot hold does not count as whole.
#[derive(Drop)]
pub struct AnyWhole;

impl Reader for AnyWhole {
    type Output = u64;

    ghost reads = { λ _. any_whole };

    fn read(&self, part: &Part) -> Result<u64, Refusal> {
        match part.value.as_u64() {
            Some(number) => Ok(number),
            None => Err(part.wrong()),
        }
    }
}

fn whole(part: &Part, most: u64) -> Result<u64, Refusal>
    ensures number { Reads result (whole most (text_of part.now.at) (view part.now.value.now)) }
    ensures bound { IfOk result (λ n. n ≤ most) }
{
    match part.value.as_u64() {
        Some(number) if number <= most => Ok(number),
        Some(_) => Err(part.refused(MetaCode::TooMany)),
        None => Err(part.wrong()),
    }
}

/// Reads a text of one character. An empty text is `BadProperty`.
#[derive(Drop)]
pub struct Character {
    /// The code for a text of several characters.
    pub several: MetaCode,
}

impl Reader for Character {
    type Output = char;

    ghost reads = { λ r. character r.several };

    fn read(&self, part: &Part) -> Result<char, Refusal> {
        let Some(text) = part.value.as_str() else {
            return Err(part.wrong());
        };
        match count_chars(text) {
            Sole::Empty => Err(part.refused(MetaCode::BadProperty)),
            Sole::One(c) => Ok(c),
            Sole::Several => Err(part.refused(self.several)),
        }
    }
}

/// How many characters a text has.
#[derive(Clone, Copy, Debug, PartialEq, Eq)]
enum Sole {
    Empty,
    One(char),
    Several,
}

fn count_chars(text: &str) -> Sole
    ensures { result ≡ sole_of (chars text.now) }
{
    let mut chars = text.chars();
    let Some(c) = chars.next() else {
        return Sole::Empty;
    };
    match chars.next() {
        None => Sole::One(c),
        Some(_) => Sole::Several,
    }
}

/// Reads a text as a list of one, or an array of texts.
#[derive(Drop)]
pub struct Texts;

impl Reader for Texts {
    type Output = Seq<Text>;

    ghost reads = { λ _. texts };

    fn read(&self, part: &Part) -> Result<Seq<Text>, Refusal> {
        match part.value {
            Value::String(text) => {
                let mut one = Seq::new(part.alloc);
                one.push(Text::copied(part.alloc, text.as_str())?)?;
                Ok(one)
            }
            Value::Array(items) => each(part, &AnyText, items.as_slice()),
            _ => Err(part.wrong()),
        }
    }
}

/// Reads a language tag. Another value has the given code, or `NotSupported` if it is a number that is not whole.
#[derive(Drop)]
pub struct Language {
    /// The code for another value.
    pub wrong: MetaCode,
}

impl Reader for Language {
    type Output = LanguageTag;

    ghost reads = { λ r. language r.wrong };

    fn read(&self, part: &Part) -> Result<LanguageTag, Refusal> {
        let Some(text) = part.value.as_str() else {
            return Err(part.wrong_as(self.wrong));
        };
        let text = Text::copied(part.alloc, text)?;
        match LanguageTag::of(part.alloc, text)? {
            Some(tag) => Ok(tag),
            None => Err(part.refused(self.wrong)),
        }
    }
}
