//! The context of a document as far as it could be read (Metadata Vocabulary for Tabular Data, section 5.2).
ghost use Rattle.std.specs.Prelude.{◌≡◌, IfOk, None, codes};
ghost use Rattle.serde_json.specs.View.{items_view, view};
ghost use Rattle.csvw_meta_core.specs.Context.{context_base, is_vocabulary, plain_context};
ghost use Rattle.csvw_meta_core.specs.Kinds.{language};
ghost use Rattle.csvw_meta_core.specs.Pointer.{text_of};
ghost use Rattle.csvw_meta_core.specs.Read.{Read, optional, property};
ghost use Rattle.csvw_meta_core.specs.Reads.{Reads};
ghost use Rattle.csvw_meta.specs.IfRead.{if_read, value_or};
ghost use Rattle.csvw_meta.specs.UsableContext.{usable_context, usable_items, usable_members, usable_others, usable_second, usable_value};

use csvw_iri::{Base, IriFault};
use csvw_meta_core::{Context, Language, MetaCode, Part, Profile, Refusal};
use csvw_text::LanguageTag;
use serde_json::Value;
use std::alloc::AllocError;

/// Returns the value that a call has read, or `None` if it has returned a fault.
fn if_read<A: Drop>(read: Result<A, Refusal>) -> Result<Option<A>, AllocError>
    ensures { (r : Read A) → Reads read r → IfOk result (λ o. o ≡ if_read r) }
{
    match read {
        Ok(value) => Ok(Some(value)),
        Err(Refusal::Memory) => Err(AllocError),
        Err(Refusal::Fault(_)) => Ok(None),
    }
}

fn is_vocabulary(value: &Value) -> bool
    ensures { result ≡ is_vocabulary (view value.now) }
{
    match value {
        Value::String(text) => text.as_str() == "http://www.w3.org/ns/csvw",
        _ => false,
    }
}

/// Returns the context of the vocabulary alone.
fn plain(part: &Part, base: &Base) -> Result<Context, AllocError>
    ensures { IfOk result (λ c. c ≡ plain_context base.now) }
{
    Ok(Context {
        base: base.clone(part.alloc)?,
        language: None,
        profile: Profile::Core,
    })
}

fn base_here(part: &Part, base: &Base) -> Result<Option<Base>, AllocError>
    ensures { IfOk result (λ o. o ≡ if_read (context_base base.now (text_of part.now.at) (view part.now.value.now))) }
{
    let Some(text) = part.value.as_str() else {
        return Ok(None);
    };
    match base.join(part.alloc, text) {
        Ok(url) => Ok(Some(url)),
        Err(IriFault::Memory) => Err(AllocError),
        Err(IriFault::UrlTooLong) => Ok(None),
        Err(IriFault::BadUrl) => Ok(None),
    }
}

/// Returns the base of a context, or `None` if it can't be read.
fn base_read(part: &Part, base: &Base) -> Result<Option<Base>, AllocError>
    ensures { IfOk result (λ o. o ≡ if_read (property (context_base base.now) base.now (text_of part.now.at) (view part.now.value.now) (codes "@base"))) }
{
    match part.value.get("@base") {
        None => Ok(Some(base.clone(part.alloc)?)),
        Some(value) => base_here(&part.member("@base", value), base),
    }
}

/// Returns the base of a context, or the document's own URL if it can't be read.
fn usable_base(part: &Part, base: &Base) -> Result<Base, AllocError>
    ensures { IfOk result (λ b. b ≡ value_or base.now (property (context_base base.now) base.now (text_of part.now.at) (view part.now.value.now) (codes "@base"))) }
{
    match base_read(part, base)? {
        Some(url) => Ok(url),
        None => base.clone(part.alloc),
    }
}

/// Returns the language of a context, or `None` if it can't be read.
fn usable_language(part: &Part) -> Result<Option<LanguageTag>, AllocError>
    ensures { IfOk result (λ l. l ≡ value_or None (optional (language MetaCode.BadContext) (text_of part.now.at) (view part.now.value.now) (codes "@language"))) }
{
    let language = Language {
        wrong: MetaCode::BadContext,
    };
    match if_read(part.optional(&language, "@language"))? {
        Some(tag) => Ok(tag),
        None => Ok(None),
    }
}

fn usable_members(part: &Part, base: &Base) -> Result<Context, AllocError>
    ensures { IfOk result (λ c. c ≡ usable_members base.now (text_of part.now.at) (view part.now.value.now)) }
{
    let language = usable_language(part)?;
    let base = usable_base(part, base)?;
    Ok(Context {
        base,
        language,
        profile: Profile::Core,
    })
}

fn usable_second(part: &Part, base: &Base, second: &Value) -> Result<Context, AllocError>
    ensures { IfOk result (λ c. c ≡ usable_second base.now (text_of part.now.at) (view second.now)) }
{
    match second {
        Value::Object(_) => usable_members(&part.item(1, second), base),
        _ => plain(part, base),
    }
}

fn usable_others(part: &Part, base: &Base, others: &[Value]) -> Result<Context, AllocError>
    ensures { IfOk result (λ c. c ≡ usable_others base.now (text_of part.now.at) (items_view others.now)) }
{
    match others {
        [] => plain(part, base),
        [second] => usable_second(part, base, second),
        _ => plain(part, base),
    }
}

fn usable_items(part: &Part, base: &Base, items: &[Value]) -> Result<Context, AllocError>
    ensures { IfOk result (λ c. c ≡ usable_items base.now (text_of part.now.at) (items_view items.now)) }
{
    match items.split_first() {
        Some((first, others)) if is_vocabulary(first) => usable_others(part, base, others),
        _ => plain(part, base),
    }
}

fn usable_value(part: &Part, base: &Base) -> Result<Context, AllocError>
    ensures { IfOk result (λ c. c ≡ usable_value base.now (text_of part.now.at) (view part.now.value.now)) }
{
    match part.value {
        Value::Array(items) => usable_items(part, base, items.as_slice()),
        _ => plain(part, base),
    }
}

/// Returns the context of the document that the part is, as far as it could be read. If its base or its language can't be
/// read, the document's own URL and `None` take their places. It returns `AllocError` if there is no memory for it.
pub(crate) fn usable_context(part: &Part, base: &Base) -> Result<Context, AllocError>
    ensures { IfOk result (λ c. c ≡ usable_context base.now (text_of part.now.at) (view part.now.value.now)) }
{
    match part.value.get("@context") {
        None => plain(part, base),
        Some(value) => usable_value(&part.member("@context", value), base),
    }
}
