//! `LanguageTag`: the language tags of N-Triples.
ghost use Rattle.std.specs.Prelude.{◌≡◌, true, false, map, MatchOption, IfOk};
ghost use Rattle.std.specs.List.{slice_split, list_all};
ghost use Rattle.csvw_text.specs.Class.{is_letter_char, is_digit_char};
ghost use Rattle.csvw_text.specs.Language.{is_language_tag, is_letter_or_digit_char, is_dash, is_word, are_subtags};

use crate::{Copied, Text};
use std::alloc::{AllocError, Global};
use std::marker::Model;

/// A language tag (RDF 1.1 N-Triples, production LANGTAG, without its `@`). Contracts see its bytes.
///
/// A tag is a list of words with a single `-` between them. The first word has ASCII letters. The others have ASCII
/// letters and digits.
#[derive(Debug, Drop, PartialEq, Eq, PartialOrd, Ord)]
pub struct LanguageTag {
    text: Text,
}

impl Model for LanguageTag {
    ghost use Rattle.std.specs.Prelude.{◌≡◌, ℕ, List, true};
    ghost use Rattle.csvw_text.specs.Language.{is_language_tag};

    ghost Value = { List ℕ };

    ghost view = { λ tag. tag.text };

    ghost invariant = { λ tag. is_language_tag tag.text ≡ true };

    ghost inverse = { λ text. record { text = text } };
}

impl LanguageTag {
    /// Returns the tag that a text is, or `None` if the text is not a tag. Returns `AllocError` if memory runs out.
    pub fn of(alloc: Global, text: Text) -> Result<Option<LanguageTag>, AllocError>
        ensures { IfOk result (λ tag. MatchOption tag (is_language_tag text ≡ false) (λ t. (t ≡ text) × (is_language_tag text ≡ true))) }
    {
        if is_tag(alloc, text.as_str())? {
            Ok(Some(LanguageTag { text }))
        } else {
            Ok(None)
        }
    }

    /// Returns the tag as a slice.
    pub fn as_str(&self) -> &str
        ensures value { result.now ≡ self.now }
        ensures tag { is_language_tag self.now ≡ true }
    {
        self.text.as_str()
    }

    /// Returns an equal tag, or `AllocError` if memory runs out.
    pub fn clone(&self, alloc: Global) -> Result<LanguageTag, AllocError>
        ensures { IfOk result (λ t. t ≡ self.now) }
    {
        Ok(LanguageTag {
            text: self.text.clone(alloc)?,
        })
    }
}

impl Copied for LanguageTag {
    fn copied(&self, alloc: Global) -> Result<LanguageTag, AllocError> {
        self.clone(alloc)
    }
}

fn is_letter(b: u8) -> bool
    ensures { result ≡ is_letter_char b }
{
    matches!(b, b'A'..=b'Z' | b'a'..=b'z')
}

fn is_letter_or_digit(b: u8) -> bool
    ensures { result ≡ is_letter_or_digit_char b }
{
    is_letter(b) || matches!(b, b'0'..=b'9')
}

fn are_letters(bytes: &[u8]) -> bool
    ensures { result ≡ list_all is_letter_char bytes.now }
{
    bytes.iter().all(|b| is_letter(*b))
}

fn are_letters_or_digits(bytes: &[u8]) -> bool
    ensures { result ≡ list_all is_letter_or_digit_char bytes.now }
{
    bytes.iter().all(|b| is_letter_or_digit(*b))
}

fn is_first_subtag(word: &str) -> bool
    ensures { result ≡ is_word is_letter_char word.now }
{
    !word.is_empty() && are_letters(word.as_bytes())
}

fn is_subtag(word: &str) -> bool
    ensures { result ≡ is_word is_letter_or_digit_char word.now }
{
    !word.is_empty() && are_letters_or_digits(word.as_bytes())
}

fn are_other_subtags(words: &[&str]) -> bool
    ensures { result ≡ list_all (is_word is_letter_or_digit_char) (map (λ x. x.now) words.now) }
{
    for word in words {
        if !is_subtag(word) {
            return false;
        }
    }
    true
}

fn words<'a>(alloc: Global, text: &'a str) -> Result<Vec<&'a str>, AllocError>
    ensures { IfOk result (λ v. map (λ x. x.now) v.items ≡ slice_split is_dash text.now) }
{
    text.split('-').collect(alloc)
}

fn are_subtags(words: &[&str]) -> bool
    ensures { result ≡ are_subtags (map (λ x. x.now) words.now) }
{
    match words.split_first() {
        None => false,
        Some((first, others)) => is_first_subtag(first) && are_other_subtags(others),
    }
}

#[tactic(auto, unfolding(crate::specs::Language::is_language_tag))]
fn is_tag(alloc: Global, text: &str) -> Result<bool, AllocError>
    ensures { IfOk result (λ b. b ≡ is_language_tag text.now) }
{
    let words = words(alloc, text)?;
    Ok(are_subtags(words.as_slice()))
}
