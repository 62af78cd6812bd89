//! Reads literals at the front of a text.
ghost use Rattle.std.specs.Prelude.{◌≡◌, IfOk, Some, None};
ghost use Rattle.csvw_iri.specs.Vocabulary.{lang_string, xsd_string};
ghost use Rattle.csvw_ntriples.specs.Grammar.{TakesLit, TakesSuffix};
ghost use Rattle.csvw_ntriples.specs.Reading.{FindsBeforeDot};

use super::language::language;
use super::runs::{after_blanks, after_char, after_two};
use super::terminal::{iri, string};
use crate::{NtFault, NtLit};
use csvw_text::{LanguageTag, Text};
use std::alloc::{AllocError, Global};

const LANG_STRING: &str = "http://www.w3.org/1999/02/22-rdf-syntax-ns#langString";

const XSD_STRING: &str = "http://www.w3.org/2001/XMLSchema#string";

/// The part of a literal after its string: its language or its datatype.
#[derive(Drop)]
pub(crate) struct Suffix {
    lang: Option<LanguageTag>,
    datatype: Text,
}

fn plain_suffix(alloc: Global) -> Result<Suffix, AllocError>
    ensures { IfOk result (λ s. (s.lang ≡ None) × (s.datatype ≡ xsd_string)) }
{
    Ok(Suffix {
        lang: None,
        datatype: Text::copied(alloc, XSD_STRING)?,
    })
}

fn tagged_suffix(alloc: Global, tag: LanguageTag) -> Result<Suffix, AllocError>
    ensures { IfOk result (λ s. (s.lang ≡ Some tag) × (s.datatype ≡ lang_string)) }
{
    Ok(Suffix {
        lang: Some(tag),
        datatype: Text::copied(alloc, LANG_STRING)?,
    })
}

/// Reads the suffix at the front. Returns it and the text after it.
fn read_suffix(alloc: Global, text: &[char]) -> Result<(Suffix, &[char]), NtFault>
    ensures { FindsBeforeDot (λ s rest. TakesSuffix s.lang s.datatype text.now rest) result }
{
    let front = after_blanks(text);
    if let Some(after) = after_two(front, '^', '^') {
        let (datatype, rest) = iri(alloc, after)?;
        let lang = None;
        return Ok((Suffix { lang, datatype }, rest));
    }
    match after_char(front, '@') {
        Some(after) => {
            let (tag, rest) = language(alloc, after)?;
            let Ok(tagged) = tagged_suffix(alloc, tag) else {
                return Err(NtFault::Memory);
            };
            Ok((tagged, rest))
        }
        None => {
            let Ok(plain) = plain_suffix(alloc) else {
                return Err(NtFault::Memory);
            };
            Ok((plain, text))
        }
    }
}

/// Reads the literal at the front. Returns it and the text after it.
pub(crate) fn literal(alloc: Global, text: &[char]) -> Result<(NtLit, &[char]), NtFault>
    ensures { FindsBeforeDot (λ l rest. TakesLit l text.now rest) result }
{
    let (value, rest) = string(alloc, text)?;
    let (ending, rest) = read_suffix(alloc, rest)?;
    let lit = NtLit {
        text: value,
        datatype: ending.datatype,
        lang: ending.lang,
    };
    Ok((lit, rest))
}
