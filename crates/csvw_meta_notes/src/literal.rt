//! Literals that are objects with `@value` (Metadata Vocabulary for Tabular Data, section 6.2).
ghost use Rattle.std.specs.Prelude.{◌≡◌, IfOk};
ghost use Rattle.serde_json.specs.View.{view, members_view};
ghost use Rattle.serde_json.specs.Find.{get};
ghost use Rattle.std.specs.Prelude.{codes, None};
ghost use Rattle.csvw_meta_core.specs.Pointer.{text_of};
ghost use Rattle.csvw_meta_core.specs.Reads.{Reads};
ghost use Rattle.csvw_meta_notes.specs.Literals.{one_of, is_no_text, for_text, with_own, literal};

use crate::members::check_literal_members;
use crate::name::TypeName;
use crate::scalar::{in_language, read_scalar, typed};
use crate::vocabulary::Vocabulary;
use csvw_description::NoteLiteral;
use csvw_iri::Iri;
use csvw_meta_core::{Language, MetaCode, Part, Refusal};
use csvw_text::LanguageTag;
use serde_json::{Map, Value};
use std::alloc::{AllocError, Global};

/// Checks that an object has no `@language` or no `@type`. An object with both is `BadProperty`.
pub fn check_one(part: &Part) -> Result<(), Refusal>
    ensures { Reads result (one_of (text_of part.now.at) (get (codes "@language") (view part.now.value.now)) (get (codes "@type") (view part.now.value.now))) }
{
    match part.value.get("@language") {
        Some(_) => match part.value.get("@type") {
            Some(_) => Err(part.refused(MetaCode::BadProperty)),
            None => Ok(()),
        },
        None => Ok(()),
    }
}

fn is_no_text(value: &Value) -> bool
    ensures { result ≡ is_no_text (view value.now) }
{
    match value {
        Value::Bool(_) => true,
        Value::Number(number) => !number.is_f64(),
        _ => false,
    }
}

/// Checks the `@language` of an object with this `@value`. Beside a whole number or a boolean, it is `BadProperty`, or
/// `NotSupported` if it is a number that is not whole.
pub fn check_for_text(part: &Part, value: &Value) -> Result<(), Refusal>
    ensures { Reads result (for_text (text_of part.now.at) (view value.now) (get (codes "@language") (view part.now.value.now))) }
{
    match part.value.get("@language") {
        Some(language) if is_no_text(value) => Err(part.member("@language", language).wrong()),
        _ => Ok(()),
    }
}

fn with_own(
    alloc: Global,
    vocabulary: &Vocabulary,
    plain: NoteLiteral,
    language: Option<LanguageTag>,
    datatype: Option<Iri>,
) -> Result<NoteLiteral, AllocError>
    ensures { IfOk result (λ l. l ≡ with_own plain language datatype) }
{
    match language {
        Some(language) => in_language(alloc, vocabulary, &Some(language), plain.text),
        None => match datatype {
            Some(datatype) => Ok(typed(datatype, plain.text)),
            None => Ok(plain),
        },
    }
}

/// Reads the literal of the object that the part is. The object has these members and that `@value`.
pub(crate) fn read_literal(
    part: &Part,
    vocabulary: &Vocabulary,
    members: &Map<String, Value>,
    value: &Value,
) -> Result<NoteLiteral, Refusal>
    ensures { Reads result (literal (text_of part.now.at) (view part.now.value.now) (members_view members.now.entries) (view value.now)) }
{
    check_literal_members(part, members)?;
    check_one(part)?;
    check_for_text(part, value)?;
    let plain = read_scalar(&part.member("@value", value), vocabulary, &None)?;
    let tag = Language {
        wrong: MetaCode::BadProperty,
    };
    let language = part.optional(&tag, "@language")?;
    let datatype = part.optional(&TypeName, "@type")?;
    Ok(with_own(part.alloc, vocabulary, plain, language, datatype)?)
}
