//! The description of one table by its URL alone.
ghost use Rattle.std.specs.Prelude.{◌≡◌, ◌≢◌, Some, IfOk, IfErr};
ghost use Rattle.serde_json.specs.View.{view};
ghost use Rattle.csvw_description.specs.Plannable.{IsPlannable};
ghost use Rattle.csvw_meta_core.specs.Pointer.{text_of};
ghost use Rattle.csvw_meta_core.specs.Reads.{Reads};
ghost use Rattle.csvw_meta.specs.Document.{IsFault, group_in, judged, plain_description};
ghost use Rattle.csvw_meta.specs.UrlAlone.{IsOfUrl, own_base, plain_document};

use crate::document::described;
use csvw_description::Description;
use csvw_iri::{Base, IriFault};
use csvw_meta_core::{MetaCode, MetaFault, Part, Pointer, Profile, Refusal};
use csvw_meta_datatype::datatypes_fit;
use csvw_meta_dialect::dialects_fit;
use csvw_text::Text;
use serde_json::{Value, json};
use std::alloc::{AllocError, Global};

/// Returns the document with the context and that URL and nothing else.
fn plain_document(alloc: Global, url: &str) -> Result<Value, AllocError>
    ensures { IfOk result (λ v. view v ≡ plain_document url.now) }
{
    json!(in alloc; {"@context": "http://www.w3.org/ns/csvw", "url": url})
}

fn own_base(part: &Part, url: &str) -> Result<Base, Refusal>
    ensures { Reads result (own_base (text_of part.now.at) url.now) }
{
    match Base::new(part.alloc, url) {
        Ok(base) => Ok(base),
        Err(IriFault::Memory) => Err(Refusal::Memory),
        Err(IriFault::UrlTooLong) => Err(
            part.member("url", part.value).refused(MetaCode::UrlTooLong),
        ),
        Err(IriFault::BadUrl) => Err(part.member("url", part.value).refused(MetaCode::BadUrl)),
    }
}

#[tactic(auto, using(crate::proofs::OverLemmas::fails_over), unfolding(crate::specs::Document::judged))]
fn plain_description(alloc: Global, url: &str) -> Result<Description, Refusal>
    ensures { Reads result (judged (plain_description url.now)) }
{
    let document = plain_document(alloc, url)?;
    let part = Part {
        alloc,
        at: Pointer::Root,
        value: &document,
    };
    let base = own_base(&part, url)?;
    described(Profile::Core, &part, &base)
}

/// Returns the group of the one table of that URL, with no schema and the default dialect. It is the description of a
/// document with the context and that `url` and nothing else, at that URL. If the text is not a URL, the fault is
/// `BadUrl` or `UrlTooLong` at `/url`. If there is no memory for the group, it has the code `Memory`.
pub fn plain(alloc: Global, url: &str) -> Result<Description, MetaFault>
    // The result comes from a document without faults, so it keeps the limits and rules of descriptions.
    ensures found { IfOk result (λ d. group_in (plain_description url.now) ≡ Some d) }
    ensures plannable { IfOk result IsPlannable }
    // A document that is refused has that fault.
    ensures fault { IfErr result (λ e. e.code ≢ MetaCode.Memory → IsFault (plain_description url.now) e) }
    ensures url { IfErr result (λ e. e.code ≢ MetaCode.Memory → IsOfUrl e) }
{
    datatypes_fit();
    dialects_fit();
    match plain_description(alloc, url) {
        Ok(description) => Ok(description),
        Err(Refusal::Fault(fault)) => Err(fault),
        Err(Refusal::Memory) => Err(MetaFault {
            code: MetaCode::Memory,
            pointer: Text::new(alloc),
        }),
    }
}
