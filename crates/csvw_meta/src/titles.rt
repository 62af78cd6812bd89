//! The titles of a column (Metadata Vocabulary for Tabular Data, section 5.6, `titles`).
ghost use Rattle.std.specs.Prelude.{◌≡◌, IfOk};
ghost use Rattle.serde_json.specs.View.{view, members_view};
ghost use Rattle.csvw_text.specs.Language.{is_language_tag};
ghost use Rattle.csvw_meta_core.specs.Pointer.{text_of};
ghost use Rattle.csvw_meta_core.specs.Reads.{Reads};
ghost use Rattle.csvw_meta.specs.Titles.{not_empty, is_language, of_key, all_titles, title_texts};

use csvw_meta_core::{Part, Reader, Refusal, Texts};
use csvw_text::{LanguageTag, Seq, Text};
use serde_json::{Map, Value};
use std::alloc::{AllocError, Global};

/// Returns the texts that are not empty, or `AllocError` if there is no memory.
pub fn not_empty(alloc: Global, texts: &[Text]) -> Result<Seq<Text>, AllocError>
    ensures { IfOk result (λ s. s ≡ not_empty texts.now) }
{
    let mut kept = Vec::new(alloc);
    for text in texts {
        if !text.is_empty() {
            kept.push(text.clone(alloc)?)?;
        }
    }
    Ok(Seq::of(kept))
}

/// Returns whether a key is the language.
pub fn is_language(language: &Option<LanguageTag>, key: &str) -> bool
    ensures { result ≡ is_language language.now key.now }
{
    match language {
        Some(tag) => tag.as_str() == key,
        None => false,
    }
}

/// Reads the titles of one language.
fn title_texts(part: &Part) -> Result<Seq<Text>, Refusal>
    ensures { Reads result (title_texts (text_of part.now.at) (view part.now.value.now)) }
{
    let texts = Texts.read(part)?;
    Ok(not_empty(part.alloc, texts.as_slice())?)
}

/// Returns whether a key is a language tag, or `AllocError` if there is no memory.
pub fn is_tag(alloc: Global, key: &str) -> Result<bool, AllocError>
    ensures { IfOk result (λ b. b ≡ is_language_tag key.now) }
{
    let tag = LanguageTag::of(alloc, Text::copied(alloc, key)?)?;
    Ok(tag.is_some())
}

#[tactic(auto, using(crate::proofs::ReadLemmas::fails_first))]
fn of_key(part: &Part, key: &str, value: &Value) -> Result<Seq<Text>, Refusal>
    ensures { Reads result (of_key (text_of part.now.at) key.now (view value.now)) }
{
    let titles = part.member(key, value);
    if !is_tag(part.alloc, key)? {
        return Err(titles.wrong());
    }
    title_texts(&titles)
}

/// Reads the titles of all languages, those of the context's language first.
fn all_titles(
    part: &Part,
    language: &Option<LanguageTag>,
    members: &Map<String, Value>,
) -> Result<Seq<Text>, Refusal>
    ensures { Reads result (all_titles language.now (text_of part.now.at) (members_view members.now.entries)) }
{
    let mut first = Vec::new(part.alloc);
    let mut others = Vec::new(part.alloc);
    for (key, value) in members.iter() {
        let titles = of_key(part, key.as_str(), value)?;
        if is_language(language, key.as_str()) {
            first.append(&mut titles.into_vec())?;
        } else {
            others.append(&mut titles.into_vec())?;
        }
    }
    first.append(&mut others)?;
    Ok(Seq::of(first))
}

/// Reads the titles of a column that are not empty: a text, an array of texts, or an object from languages to either.
/// Those of the context's language come first.
#[derive(Drop)]
pub struct Titles<'a> {
    /// The context's language.
    pub language: &'a Option<LanguageTag>,
}

impl<'a> Reader for Titles<'a> {
    ghost use Rattle.csvw_meta.specs.Titles.{titles};

    type Output = Seq<Text>;

    ghost reads = { λ r. titles r.language.now };

    fn read(&self, part: &Part) -> Result<Seq<Text>, Refusal> {
        match part.value {
            Value::Object(members) => all_titles(part, self.language, members),
            _ => title_texts(part),
        }
    }
}
