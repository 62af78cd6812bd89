//! Reads the languages of literals.
ghost use Rattle.csvw_ntriples.specs.Reading.{FindsBeforeDot, TagBefore};

use super::label::text_of;
use super::runs::{Class, run};
use crate::NtFault;
use csvw_text::LanguageTag;
use std::alloc::Global;

/// Reads the language tag at the front. Returns it and the text after it.
pub(crate) fn language(alloc: Global, text: &[char]) -> Result<(LanguageTag, &[char]), NtFault>
    ensures { FindsBeforeDot (λ v rest. TagBefore v text.now rest) result }
{
    let (front, rest) = run(Class::Tag, text);
    let Ok(characters) = text_of(alloc, front) else {
        return Err(NtFault::Memory);
    };
    match LanguageTag::of(alloc, characters) {
        Ok(Some(tag)) => Ok((tag, rest)),
        Ok(None) => Err(NtFault::Syntax),
        Err(_) => Err(NtFault::Memory),
    }
}
