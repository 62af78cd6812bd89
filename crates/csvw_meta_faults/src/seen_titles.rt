//! The titles of a column (Metadata Vocabulary for Tabular Data, section 5.6, `titles`), whatever faults they have.
ghost use Rattle.std.specs.Prelude.{◌≡◌, [], IfOk, codes};
ghost use Rattle.serde_json.specs.View.{items_view, members_view, view};
ghost use Rattle.csvw_meta_core.specs.Kinds.{text, texts};
ghost use Rattle.csvw_meta_core.specs.Pointer.{below, item_at, text_of};
ghost use Rattle.csvw_meta_core.specs.Read.{each, property};
ghost use Rattle.csvw_meta.specs.Titles.{all_titles, title_texts, titles};

use csvw_meta::titles::{is_language, not_empty};
use csvw_meta_core::Part;
use csvw_meta_faults_parts::array_items;
use csvw_text::{LanguageTag, Seq, Text};
use serde_json::{Map, Value};
use std::alloc::AllocError;

/// Returns the text of a value, or the empty text if it has none.
fn text_seen(part: &Part) -> Result<Text, AllocError>
    ensures { IfOk result (λ t. t ≡ (text (text_of part.now.at) (view part.now.value.now)).value) }
{
    match part.value.as_str() {
        Some(text) => Text::copied(part.alloc, text),
        None => Ok(Text::new(part.alloc)),
    }
}

fn item_text(part: &Part, index: usize, item: &Value) -> Result<Text, AllocError>
    ensures { IfOk result (λ t. t ≡ (text (item_at (text_of part.now.at) index) (view item.now)).value) }
{
    text_seen(&part.item(index, item))
}

fn each_text(part: &Part, items: &[Value]) -> Result<Seq<Text>, AllocError>
    ensures { IfOk result (λ ts. ts ≡ (each text (text_of part.now.at) 0 (items_view items.now)).value) }
{
    let mut texts = Vec::new(part.alloc);
    for (i, item) in items.iter().enumerate() {
        let text = item_text(part, i, item)?;
        texts.push(text)?;
    }
    Ok(Seq::of(texts))
}

fn texts_seen(part: &Part) -> Result<Seq<Text>, AllocError>
    ensures { IfOk result (λ ts. ts ≡ (texts (text_of part.now.at) (view part.now.value.now)).value) }
{
    match part.value {
        Value::String(text) => {
            let mut one = Seq::new(part.alloc);
            one.push(Text::copied(part.alloc, text.as_str())?)?;
            Ok(one)
        }
        _ => each_text(part, array_items(part.value)),
    }
}

/// Returns the titles of one language that can be read.
fn title_texts_seen(part: &Part) -> Result<Seq<Text>, AllocError>
    ensures { IfOk result (λ ts. ts ≡ (title_texts (text_of part.now.at) (view part.now.value.now)).value) }
{
    let texts = texts_seen(part)?;
    not_empty(part.alloc, texts.as_slice())
}

fn key_titles(part: &Part, key: &str, value: &Value) -> Result<Seq<Text>, AllocError>
    ensures { IfOk result (λ ts. ts ≡ (title_texts (below (text_of part.now.at) key.now) (view value.now)).value) }
{
    title_texts_seen(&part.member(key, value))
}

/// Returns the titles of all languages that can be read, those of the context's language first.
fn all_seen(
    part: &Part,
    language: &Option<LanguageTag>,
    members: &Map<String, Value>,
) -> Result<Seq<Text>, AllocError>
    ensures { IfOk result (λ ts. ts ≡ (all_titles language.now (text_of part.now.at) (members_view members.now.entries)).value) }
{
    let mut first = Vec::new(part.alloc);
    let mut others = Vec::new(part.alloc);
    for (key, value) in members.iter() {
        let titles = key_titles(part, key.as_str(), value)?;
        if is_language(language, key.as_str()) {
            first.append(&mut titles.into_vec())?;
        } else {
            others.append(&mut titles.into_vec())?;
        }
    }
    first.append(&mut others)?;
    Ok(Seq::of(first))
}

fn titles_seen(part: &Part, language: &Option<LanguageTag>) -> Result<Seq<Text>, AllocError>
    ensures { IfOk result (λ ts. ts ≡ (titles language.now (text_of part.now.at) (view part.now.value.now)).value) }
{
    match part.value {
        Value::Object(members) => all_seen(part, language, members),
        _ => title_texts_seen(part),
    }
}

/// Returns the titles of a column that can be read.
pub(crate) fn column_titles(
    part: &Part,
    language: &Option<LanguageTag>,
) -> Result<Seq<Text>, AllocError>
    ensures { IfOk result (λ ts. ts ≡ (property (titles language.now) [] (text_of part.now.at)
        (view part.now.value.now) (codes "titles")).value) }
{
    match part.value.get("titles") {
        Some(value) => titles_seen(&part.member("titles", value), language),
        None => Ok(Seq::new(part.alloc)),
    }
}
