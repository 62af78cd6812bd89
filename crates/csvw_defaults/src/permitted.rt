//! The kinds of values that properties may have (Metadata Vocabulary for Tabular Data, section 5.1).
ghost use Rattle.std.specs.Prelude.{◌≡◌, ◌&&◌, IfOk};
ghost use Rattle.serde_json.specs.View.{view, items_view};
ghost use Rattle.csvw_text.specs.Language.{is_language_tag};
ghost use Rattle.csvw_defaults.specs.Permitted.{are_texts, has_items, is_direction, is_not_negative, is_permitted, is_some_texts, is_text_direction, is_text_of};
ghost use Rattle.csvw_defaults.specs.Permitted.{is_texts, is_trimming};

use csvw_meta::titles::is_tag;
use serde_json::Value;
use std::alloc::{AllocError, Global};

/// What the value of a property may be.
#[derive(Clone, Copy)]
pub(crate) enum Permitted {
    /// Any value.
    Anything,
    /// `true` or `false`.
    Truth,
    /// A text.
    Text,
    /// A text or null.
    TextOrNull,
    /// A text, or an array of texts.
    Texts,
    /// A text, or an array of one text or more.
    SomeTexts,
    /// A number that isn't below 0. One that isn't whole is left for the reader, which has a code of its own for it.
    NotNegative,
    /// A text or a number.
    Bound,
    /// A language tag.
    Language,
    /// `true` or `false`, or one of the texts `true`, `false`, `start` and `end`.
    Trimming,
    /// One of the texts `rtl`, `ltr` and `auto`.
    Direction,
    /// One of these texts, or `inherit`.
    TextDirection,
    /// An array.
    Array,
}

/// Whether all items are texts.
fn are_texts(items: &[Value]) -> bool
    ensures { result ≡ are_texts (items_view items.now) }
{
    for item in items {
        if !item.is_string() {
            return false;
        }
    }
    true
}

fn is_texts(value: &Value) -> bool
    ensures { result ≡ is_texts (view value.now) }
{
    match value {
        Value::String(_) => true,
        Value::Array(items) => are_texts(items.as_slice()),
        _ => false,
    }
}

/// Whether there are items, and all are texts.
#[tactic(auto, using(crate::proofs::ItemLemmas::has_some))]
fn are_some_texts(items: &[Value]) -> bool
    ensures { result ≡ (has_items (items_view items.now) && are_texts (items_view items.now)) }
{
    !items.is_empty() && are_texts(items)
}

fn is_some_texts(value: &Value) -> bool
    ensures { result ≡ is_some_texts (view value.now) }
{
    match value {
        Value::String(_) => true,
        Value::Array(items) => are_some_texts(items.as_slice()),
        _ => false,
    }
}

fn is_not_negative(value: &Value) -> bool
    ensures { result ≡ is_not_negative (view value.now) }
{
    value.is_u64() || value.is_f64()
}

fn is_language(alloc: Global, value: &Value) -> Result<bool, AllocError>
    ensures { IfOk result (λ b. b ≡ is_text_of is_language_tag (view value.now)) }
{
    match value.as_str() {
        Some(text) => is_tag(alloc, text),
        None => Ok(false),
    }
}

fn is_trimming(value: &Value) -> bool
    ensures { result ≡ is_text_of is_trimming (view value.now) }
{
    match value.as_str() {
        Some(text) => matches!(text, "true" | "false" | "start" | "end"),
        None => false,
    }
}

fn is_direction(value: &Value) -> bool
    ensures { result ≡ is_text_of is_direction (view value.now) }
{
    match value.as_str() {
        Some(text) => matches!(text, "rtl" | "ltr" | "auto"),
        None => false,
    }
}

fn is_text_direction(value: &Value) -> bool
    ensures { result ≡ is_text_of is_text_direction (view value.now) }
{
    match value.as_str() {
        Some(text) => matches!(text, "rtl" | "ltr" | "auto" | "inherit"),
        None => false,
    }
}

/// Returns whether a value is of a kind. Fails with `AllocError` if memory runs out.
pub(crate) fn is_permitted(
    alloc: Global,
    kind: Permitted,
    value: &Value,
) -> Result<bool, AllocError>
    ensures { IfOk result (λ b. b ≡ is_permitted kind (view value.now)) }
{
    match kind {
        Permitted::Anything => Ok(true),
        Permitted::Truth => Ok(value.is_boolean()),
        Permitted::Text => Ok(value.is_string()),
        Permitted::TextOrNull => Ok(value.is_string() || value.is_null()),
        Permitted::Texts => Ok(is_texts(value)),
        Permitted::SomeTexts => Ok(is_some_texts(value)),
        Permitted::NotNegative => Ok(is_not_negative(value)),
        Permitted::Bound => Ok(value.is_string() || value.is_number()),
        Permitted::Language => is_language(alloc, value),
        Permitted::Trimming => Ok(value.is_boolean() || is_trimming(value)),
        Permitted::Direction => Ok(is_direction(value)),
        Permitted::TextDirection => Ok(is_text_direction(value)),
        Permitted::Array => Ok(value.is_array()),
    }
}
