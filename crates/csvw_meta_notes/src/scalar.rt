//! Literals that are a text, a number or a boolean (Metadata Vocabulary for Tabular Data, section 6.2).
ghost use Rattle.std.specs.Prelude.{◌≡◌, IfOk};
ghost use Rattle.serde_json.specs.View.{view, number_view};
ghost use Rattle.csvw_meta_core.specs.Pointer.{text_of};
ghost use Rattle.csvw_meta_core.specs.Reads.{Reads};
ghost use Rattle.csvw_meta_notes.specs.Scalars.{typed, in_language, truth_text, whole_literal, scalar};

use crate::vocabulary::Vocabulary;
use csvw_description::NoteLiteral;
use csvw_iri::Iri;
use csvw_meta_core::{MetaCode, Part, Refusal};
use csvw_text::{LanguageTag, Text};
use serde_json::{Number, Value};
use std::alloc::{AllocError, Global};

/// Returns the literal of a datatype, without a language.
pub(crate) fn typed(datatype: Iri, text: Text) -> NoteLiteral
    ensures { result ≡ typed datatype text }
{
    NoteLiteral {
        text,
        datatype,
        language: None,
    }
}

/// Returns a text as a literal, with the language if there is one. It returns `AllocError` if there is no memory.
pub(crate) fn in_language(
    alloc: Global,
    vocabulary: &Vocabulary,
    language: &Option<LanguageTag>,
    text: Text,
) -> Result<NoteLiteral, AllocError>
    ensures { IfOk result (λ l. l ≡ in_language language.now text) }
{
    match language {
        None => Ok(typed(vocabulary.string.clone(alloc)?, text)),
        Some(language) => Ok(NoteLiteral {
            text,
            datatype: vocabulary.tagged.clone(alloc)?,
            language: Some(language.clone(alloc)?),
        }),
    }
}

fn truth_text(alloc: Global, truth: bool) -> Result<Text, AllocError>
    ensures { IfOk result (λ t. t ≡ truth_text truth) }
{
    match truth {
        true => Text::copied(alloc, "true"),
        false => Text::copied(alloc, "false"),
    }
}

fn whole_literal(
    part: &Part,
    vocabulary: &Vocabulary,
    number: &Number,
) -> Result<NoteLiteral, Refusal>
    ensures { Reads result (whole_literal (text_of part.now.at) (number_view number.now)) }
{
    if let Some(n) = number.as_u64() {
        let text = Text::of(n.to_string(part.alloc)?);
        return Ok(typed(vocabulary.integer.clone(part.alloc)?, text));
    }
    match number.as_i64() {
        Some(n) => {
            let text = Text::of(n.to_string(part.alloc)?);
            Ok(typed(vocabulary.integer.clone(part.alloc)?, text))
        }
        None => Err(part.refused(MetaCode::NotSupported)),
    }
}

/// Reads a text, a whole number or a boolean. A text has the given language. A number that is not whole is
/// `NotSupported`, and another value is `BadProperty`.
pub(crate) fn read_scalar(
    part: &Part,
    vocabulary: &Vocabulary,
    language: &Option<LanguageTag>,
) -> Result<NoteLiteral, Refusal>
    ensures { Reads result (scalar language.now (text_of part.now.at) (view part.now.value.now)) }
{
    match part.value {
        Value::Bool(truth) => {
            let text = truth_text(part.alloc, *truth)?;
            Ok(typed(vocabulary.boolean.clone(part.alloc)?, text))
        }
        Value::Number(number) => whole_literal(part, vocabulary, number),
        Value::String(text) => {
            let text = Text::copied(part.alloc, text.as_str())?;
            Ok(in_language(part.alloc, vocabulary, language, text)?)
        }
        Value::Null => Err(part.wrong()),
        Value::Array(_) => Err(part.wrong()),
        Value::Object(_) => Err(part.wrong()),
    }
}
