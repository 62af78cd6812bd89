//! Documents (Metadata Vocabulary for Tabular Data, section 5).
ghost use Rattle.std.specs.Prelude.{◌≡◌, ◌≢◌, Some, IfOk, IfErr};
ghost use Rattle.serde_json.specs.View.{view};
ghost use Rattle.csvw_description.specs.Plannable.{IsPlannable};
ghost use Rattle.csvw_meta_core.specs.Pointer.{text_of};
ghost use Rattle.csvw_meta_core.specs.Reads.{Reads};
ghost use Rattle.csvw_meta.specs.Described.{sole_table, parts, within, described};
ghost use Rattle.csvw_meta.specs.Document.{IsFault, document, document_by, group_in, judged, of_bytes, own_url};

use crate::body::{Body, DialectGiven};
use crate::group::{GroupFound, described_among, read_group};
use crate::json::{document_fault, json_of, without_bom};
use crate::references::{check_references, targets_of};
use crate::table::table_of;
use csvw_description::{Description, no_inherited};
use csvw_iri::{Base, IriFault};
use csvw_meta_core::{Context, MetaCode, MetaFault, Part, Pointer, Profile, Refusal, read_context};
use csvw_meta_datatype::datatypes_fit;
use csvw_meta_dialect::dialects_fit;
use csvw_text::{Seq, Text};
use std::alloc::Global;

/// The greatest number of bytes of a document.
pub const MAX_DOCUMENT: usize = 1048576;

/// Reads the group of the one table that the document is.
fn of_table(context: &Context, part: &Part) -> Result<GroupFound, Refusal>
    ensures { Reads result (sole_table context.now (text_of part.now.at) (view part.now.value.now)) }
{
    let table = table_of(context, true, 1, part)?;
    let mut tables = Seq::new(part.alloc);
    tables.push(table)?;
    Ok(GroupFound {
        id: None,
        tables,
        given: DialectGiven {
            dialect: None,
            warnings: Seq::new(part.alloc),
        },
        body: Body {
            schema: None,
            keys: None,
            inherited: no_inherited(),
            warnings: Seq::new(part.alloc),
        },
        notes: Seq::new(part.alloc),
    })
}

/// Reads a group, or the group of one table.
fn parts(context: &Context, part: &Part) -> Result<GroupFound, Refusal>
    ensures { Reads result (parts context.now (text_of part.now.at) (view part.now.value.now)) }
{
    match part.value.get("tables") {
        Some(_) => read_group(context, part),
        None => of_table(context, part),
    }
}

/// Reads what the document describes within its context, and checks that what its keys name exists.
#[tactic(auto, using(crate::proofs::ReadLemmas::fails_first))]
fn within(context: &Context, part: &Part) -> Result<Description, Refusal>
    ensures { Reads result (within context.now (text_of part.now.at) (view part.now.value.now)) }
{
    let group = parts(context, part)?;
    let targets = targets_of(part.alloc, &group)?;
    check_references(part.alloc, targets.as_slice(), &group)?;
    Ok(described_among(part.alloc, targets.as_slice(), group)?)
}

/// Reads what a value describes at the document's own URL.
#[tactic(auto, using(crate::proofs::ReadLemmas::fails_first))]
pub(crate) fn described(profile: Profile, part: &Part, base: &Base) -> Result<Description, Refusal>
    ensures { Reads result (described profile base.now (text_of part.now.at) (view part.now.value.now)) }
{
    let found = read_context(part, base)?;
    let context = found.in_profile(profile);
    within(&context, part)
}

fn of_bytes(
    alloc: Global,
    profile: Profile,
    base: &Base,
    bytes: &[u8],
) -> Result<Description, Refusal>
    ensures { Reads result (of_bytes profile base.now bytes.now) }
{
    let value = json_of(alloc, without_bom(bytes))?;
    let part = Part {
        alloc,
        at: Pointer::Root,
        value: &value,
    };
    described(profile, &part, base)
}

/// Reads the URL of a document. A text that is not a URL is `BadUrl` or `UrlTooLong`, at the document.
pub fn own_url(alloc: Global, base: &str) -> Result<Base, Refusal>
    ensures { Reads result (own_url base.now) }
{
    match Base::new(alloc, base) {
        Ok(base) => Ok(base),
        Err(IriFault::Memory) => Err(Refusal::Memory),
        Err(IriFault::UrlTooLong) => Err(document_fault(alloc, MetaCode::UrlTooLong)),
        Err(IriFault::BadUrl) => Err(document_fault(alloc, MetaCode::BadUrl)),
    }
}

#[tactic(auto, using(crate::proofs::OverLemmas::fails_over), unfolding(crate::specs::Document::judged))]
fn document_by(
    alloc: Global,
    bytes: &[u8],
    base: &str,
    profile: Profile,
) -> Result<Description, Refusal>
    ensures { Reads result (judged (document_by profile base.now bytes.now)) }
{
    if bytes.len() > MAX_DOCUMENT {
        return Err(document_fault(alloc, MetaCode::TooLong));
    }
    let base = own_url(alloc, base)?;
    of_bytes(alloc, profile, &base, bytes)
}

/// Reads the group that a document in a profile describes, at its own URL. If it cannot, it returns a fault:
///
/// - `TooLong` if the document has over 1,048,576 bytes;
/// - `BadUrl` or `UrlTooLong` if its URL is not a URL;
/// - `NotJson` if it is not a JSON text;
/// - `BadContext` if it has no context;
/// - the fault of one of its parts otherwise, as `NotSupported` at a feature that the profile doesn't have;
/// - `Memory` if there is no memory for the group.
pub fn read_by(
    alloc: Global,
    bytes: &[u8],
    base: &str,
    profile: Profile,
) -> Result<Description, MetaFault>
    // The result comes from a document without faults, so it keeps the limits and rules of descriptions.
    ensures found { IfOk result (λ d. group_in (document_by profile base.now bytes.now) ≡ Some d) }
    ensures plannable { IfOk result IsPlannable }
    // A document that is refused has that fault.
    ensures fault { IfErr result (λ e. e.code ≢ MetaCode.Memory → IsFault (document_by profile base.now bytes.now) e) }
{
    datatypes_fit();
    dialects_fit();
    match document_by(alloc, bytes, base, profile) {
        Ok(description) => Ok(description),
        Err(Refusal::Fault(fault)) => Err(fault),
        Err(Refusal::Memory) => Err(MetaFault {
            code: MetaCode::Memory,
            pointer: Text::new(alloc),
        }),
    }
}

/// Reads the group that a document describes, at its own URL. The document may use the features of `Profile::Core`. The
/// faults are those of `read_by`.
pub fn read(alloc: Global, bytes: &[u8], base: &str) -> Result<Description, MetaFault>
    ensures found { IfOk result (λ d. group_in (document base.now bytes.now) ≡ Some d) }
    ensures plannable { IfOk result IsPlannable }
    ensures fault { IfErr result (λ e. e.code ≢ MetaCode.Memory → IsFault (document base.now bytes.now) e) }
{
    read_by(alloc, bytes, base, Profile::Core)
}
