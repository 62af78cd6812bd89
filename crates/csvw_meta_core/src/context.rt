//! The context of a document (Metadata Vocabulary for Tabular Data, section 5.2).
ghost use Rattle.std.specs.Prelude.{◌≡◌};
ghost use Rattle.serde_json.specs.View.{view, items_view, members_view};
ghost use Rattle.csvw_meta_core.specs.Pointer.{text_of};
ghost use Rattle.csvw_meta_core.specs.Reads.{Reads};
ghost use Rattle.csvw_meta_core.specs.Context.{is_vocabulary, stranger, strangers, further_context, second_item, other_items};
ghost use Rattle.csvw_meta_core.specs.Context.{context_items, context_value, context, context_base, in_profile};

use crate::fault::{MetaCode, Refusal};
use crate::kinds::Language;
use crate::part::Part;
use crate::profile::Profile;
use crate::reader::Reader;
use csvw_iri::{Base, IriFault};
use csvw_text::LanguageTag;
use serde_json::{Map, Value};

/// The context in which a document is read: what its `@context` says, and the profile.
#[derive(Drop)]
pub struct Context {
    /// The base against which the document's URLs are resolved.
    pub base: Base,
    /// The language of its texts.
    pub language: Option<LanguageTag>,
    /// The features that the document may use. `@context` says nothing of it.
    pub profile: Profile,
}

impl Context {
    /// Returns the same context in a profile.
    pub fn in_profile(self, profile: Profile) -> Context
        ensures { result ≡ in_profile profile self }
    {
        Context {
            base: self.base,
            language: self.language,
            profile,
        }
    }
}

/// Reads the property `@base` of a context.
#[derive(Drop)]
struct ContextBase<'a> {
    /// The document's own URL.
    base: &'a Base,
}

impl<'a> Reader for ContextBase<'a> {
    type Output = Base;

    ghost reads = { λ r. context_base r.base.now };

    fn read(&self, part: &Part) -> Result<Base, Refusal> {
        let Some(text) = part.value.as_str() else {
            return Err(part.wrong_as(MetaCode::BadContext));
        };
        match self.base.join(part.alloc, text) {
            Ok(url) => Ok(url),
            Err(IriFault::Memory) => Err(Refusal::Memory),
            Err(IriFault::UrlTooLong) => Err(part.refused(MetaCode::UrlTooLong)),
            Err(IriFault::BadUrl) => Err(part.refused(MetaCode::BadUrl)),
        }
    }
}

fn is_vocabulary(value: &Value) -> bool
    ensures { result ≡ is_vocabulary (view value.now) }
{
    match value {
        Value::String(text) => text.as_str() == "http://www.w3.org/ns/csvw",
        _ => false,
    }
}

fn check_member(part: &Part, name: &str, value: &Value) -> Result<(), Refusal>
    ensures { Reads result (stranger (text_of part.now.at) name.now (view value.now)) }
{
    if matches!(name, "@language" | "@base") {
        return Ok(());
    }
    Err(part.member(name, value).wrong_as(MetaCode::BadContext))
}

fn check_members(part: &Part, members: &Map<String, Value>) -> Result<(), Refusal>
    ensures { Reads result (strangers (text_of part.now.at) (members_view members.now.entries)) }
{
    for (name, value) in members.iter() {
        check_member(part, name.as_str(), value)?;
    }
    Ok(())
}

#[tactic(auto, using(crate::proofs::ReadLemmas::fails_first), unfolding(crate::specs::Context::further_context))]
fn further_context(
    part: &Part,
    base: &Base,
    members: &Map<String, Value>,
) -> Result<Context, Refusal>
    ensures { Reads result (further_context base.now (text_of part.now.at) (view part.now.value.now) (members_view members.now.entries)) }
{
    check_members(part, members)?;
    let language = part.optional(
        &Language {
            wrong: MetaCode::BadContext,
        },
        "@language",
    )?;
    let base = part.property(&ContextBase { base }, base.clone(part.alloc)?, "@base")?;
    Ok(Context {
        base,
        language,
        profile: Profile::Core,
    })
}

fn second_item(part: &Part, base: &Base, second: &Value) -> Result<Context, Refusal>
    ensures { Reads result (second_item base.now (text_of part.now.at) (view second.now)) }
{
    match second {
        Value::Object(members) => further_context(&part.item(1, second), base, members),
        _ => Err(part.refused(MetaCode::BadContext)),
    }
}

/// Reads the items after the text of the vocabulary.
fn other_items(part: &Part, base: &Base, others: &[Value]) -> Result<Context, Refusal>
    ensures { Reads result (other_items base.now (text_of part.now.at) (items_view others.now)) }
{
    match others {
        [] => Ok(Context {
            base: base.clone(part.alloc)?,
            language: None,
            profile: Profile::Core,
        }),
        [second] => second_item(part, base, second),
        _ => Err(part.refused(MetaCode::BadContext)),
    }
}

fn context_items(part: &Part, base: &Base, items: &[Value]) -> Result<Context, Refusal>
    ensures { Reads result (context_items base.now (text_of part.now.at) (items_view items.now)) }
{
    match items.split_first() {
        Some((first, others)) if is_vocabulary(first) => other_items(part, base, others),
        _ => Err(part.refused(MetaCode::BadContext)),
    }
}

fn context_value(part: &Part, base: &Base) -> Result<Context, Refusal>
    ensures { Reads result (context_value base.now (text_of part.now.at) (view part.now.value.now)) }
{
    match part.value {
        Value::Array(items) => context_items(part, base, items.as_slice()),
        _ if is_vocabulary(part.value) => Ok(Context {
            base: base.clone(part.alloc)?,
            language: None,
            profile: Profile::Core,
        }),
        _ => Err(part.wrong_as(MetaCode::BadContext)),
    }
}

/// Reads the context of the document that the part is, at the document's own URL. It returns the context, in the profile
/// `Core`, or one of:
///
/// - `BadContext` if `@context` is missing or is not that of the vocabulary, and at a wrong member of it;
/// - `NotSupported` if the document, `@context` or a member of it is a number that is not whole;
/// - `BadUrl` or `UrlTooLong` at an `@base` that resolves to nothing;
/// - `Memory` if there is no memory for the context.
pub fn read_context(part: &Part, base: &Base) -> Result<Context, Refusal>
    ensures { Reads result (context base.now (text_of part.now.at) (view part.now.value.now)) }
{
    match part.value.get("@context") {
        None => Err(part.wrong_as(MetaCode::BadContext)),
        Some(value) => context_value(&part.member("@context", value), base),
    }
}
