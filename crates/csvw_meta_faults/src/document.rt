//! All faults of a document (Metadata Vocabulary for Tabular Data, section 5).
ghost use Rattle.std.specs.Prelude.{◌≡◌, ◌++◌, ◌==◌, ◌∷◌, [], Contains, IfOk, OnOk, is_some, length};
ghost use Rattle.serde_json.specs.View.{view};
ghost use Rattle.csvw_meta_core.specs.Pointer.{text_of};
ghost use Rattle.csvw_meta.specs.Described.{described, described_within};
ghost use Rattle.csvw_meta.specs.Document.{IsFault, document_by, document_faults, group_in, of_bytes, of_short};
ghost use Rattle.csvw_meta_core.specs.declared.fault.MetaFault.{MetaFault as TheFault};

use crate::usable_context::usable_context;
use crate::within::find_within;
use csvw_iri::Base;
use csvw_meta::document::{MAX_DOCUMENT, own_url};
use csvw_meta::json::{json_of, without_bom};
use csvw_meta_core::{Context, MetaCode, MetaFault, Part, Pointer, Profile, Refusal};
use csvw_meta_faults_core::find_context;
use csvw_text::{Seq, Text};
use serde_json::Value;
use std::alloc::{AllocError, Global};

/// Adds the faults of the parts of the document within its context.
fn find_in_parts(
    context: &Context,
    part: &Part,
    faults: &mut Vec<MetaFault>,
) -> Result<(), AllocError>
    ensures { OnOk result (faults.new.items ≡ faults.old.items ++ (described_within (text_of part.now.at) (view part.now.value.now) context.now).faults) }
{
    match part.value {
        Value::Object(_members) => find_within(context, part, faults),
        _ => Ok(()),
    }
}

/// Adds the faults of the value of a document at its own URL: those of its context, and then those of its parts within the
/// context as far as it could be read.
fn find_described(
    profile: Profile,
    part: &Part,
    base: &Base,
    faults: &mut Vec<MetaFault>,
) -> Result<(), AllocError>
    ensures { OnOk result (faults.new.items ≡ faults.old.items ++ (described profile base.now (text_of part.now.at) (view part.now.value.now)).faults) }
{
    find_context(part, base, faults)?;
    let usable = usable_context(part, base)?;
    let context = usable.in_profile(profile);
    find_in_parts(&context, part, faults)
}

fn find_in_bytes(
    alloc: Global,
    profile: Profile,
    base: &Base,
    bytes: &[u8],
    faults: &mut Vec<MetaFault>,
) -> Result<(), AllocError>
    ensures { OnOk result (faults.new.items ≡ faults.old.items ++ (of_bytes profile base.now bytes.now).faults) }
{
    match json_of(alloc, without_bom(bytes)) {
        Ok(value) => {
            let part = Part {
                alloc,
                at: Pointer::Root,
                value: &value,
            };
            find_described(profile, &part, base, faults)
        }
        Err(Refusal::Memory) => Err(AllocError),
        Err(Refusal::Fault(fault)) => {
            faults.push(fault)?;
            Ok(())
        }
    }
}

/// Returns the fault that a call was refused with, or `AllocError` if memory ran out.
fn fault_of(refusal: Refusal) -> Result<MetaFault, AllocError>
    ensures { IfOk result (λ f. refusal ≡ Refusal.Fault f) }
{
    match refusal {
        Refusal::Fault(fault) => Ok(fault),
        Refusal::Memory => Err(AllocError),
    }
}

/// Adds a fault.
fn add_one(fault: MetaFault, faults: &mut Vec<MetaFault>) -> Result<(), AllocError>
    ensures { OnOk result (faults.new.items ≡ faults.old.items ++ fault ∷ []) }
{
    faults.push(fault)?;
    Ok(())
}

/// Adds the faults of a document that is not too long.
fn find_in_short(
    alloc: Global,
    bytes: &[u8],
    base: &str,
    profile: Profile,
    faults: &mut Vec<MetaFault>,
) -> Result<(), AllocError>
    ensures { OnOk result (faults.new.items ≡ faults.old.items ++ (of_short profile base.now bytes.now).faults) }
{
    match own_url(alloc, base) {
        Ok(base) => find_in_bytes(alloc, profile, &base, bytes, faults),
        Err(refusal) => {
            let fault = fault_of(refusal)?;
            add_one(fault, faults)
        }
    }
}

/// Adds the faults of a document.
fn find_in_document(
    alloc: Global,
    bytes: &[u8],
    base: &str,
    profile: Profile,
    faults: &mut Vec<MetaFault>,
) -> Result<(), AllocError>
    ensures { OnOk result (faults.new.items ≡ faults.old.items ++ document_faults (document_by profile base.now bytes.now)) }
{
    if bytes.len() > MAX_DOCUMENT {
        faults.push(MetaFault {
            code: MetaCode::TooLong,
            pointer: Text::new(alloc),
        })?;
        return Ok(());
    }
    find_in_short(alloc, bytes, base, profile, faults)
}

/// Returns all faults of a document in a profile, at its own URL, in the order of the definition. There are none exactly if
/// the document describes a group. It returns `AllocError` if there is no memory for them.
///
/// - A document with over 1,048,576 bytes has the fault `TooLong` alone.
/// - Otherwise, if its URL is not a URL, it has that fault alone.
/// - Otherwise, if it is not a JSON text, it has the fault `NotJson` alone.
/// - Otherwise it has the faults of its context, and then those of its parts. If the base of the context can't be read, the
///   document's own URL takes its place. If the language can't be read, `None` does.
pub fn faults_in(
    alloc: Global,
    bytes: &[u8],
    base: &str,
    profile: Profile,
) -> Result<Seq<MetaFault>, AllocError>
    // The list is that of the definition.
    ensures order { IfOk result (λ fs. fs ≡ document_faults (document_by profile base.now bytes.now)) }
    // Each of them is a fault of the document.
    ensures faults { IfOk result (λ fs. (f : TheFault) → Contains fs f → IsFault (document_by profile base.now bytes.now) f) }
    // No fault of the document is missing.
    ensures all { IfOk result (λ fs. (f : TheFault) → IsFault (document_by profile base.now bytes.now) f → Contains fs f) }
    // There is none exactly if the document describes a group.
    ensures none { IfOk result (λ fs. (length fs == 0) ≡ is_some (group_in (document_by profile base.now bytes.now))) }
{
    let mut faults = Vec::new(alloc);
    find_in_document(alloc, bytes, base, profile, &mut faults)?;
    Ok(Seq::of(faults))
}
