//! What the reference of a foreign key says (Metadata Vocabulary for Tabular Data, section 5.5.2.1), whatever faults it has.
ghost use Rattle.std.specs.Prelude.{◌≡◌, IfOk, codes};
ghost use Rattle.serde_json.specs.View.{view};
ghost use Rattle.csvw_iri.specs.Link.{iri_of};
ghost use Rattle.csvw_fault.specs.declared.fault.Place.{Place as ThePlace};
ghost use Rattle.csvw_meta_core.specs.Links.{no_url, url};
ghost use Rattle.csvw_meta_core.specs.Pointer.{text_of};
ghost use Rattle.csvw_meta_core.specs.Read.{needed};
ghost use Rattle.csvw_meta_keys.specs.References.{no_reference, no_resource, reference, resource, schema_id, schema_named, schema_reference, table_named};
ghost use Rattle.csvw_meta_faults_parts.specs.BareKeys.{bare_reference};

use crate::seen_key_names::names_at;
use csvw_iri::{Base, Iri, named};
use csvw_meta_core::{Context, Part, Profile, Reader, Refusal, UrlReader};
use csvw_meta_keys::reference::{ReferenceFound, SchemaIdReader, has_resource, table_of_schema};
use csvw_meta_keys::{NamedBy, NamedTable};
use csvw_text::Seq;
use serde_json::Value;
use std::alloc::{AllocError, Global};

/// Returns the URL of a table, or the one that stands in if it can't be read.
pub fn url_seen(base: &Base, part: &Part) -> Result<Iri, AllocError>
    ensures { IfOk result (λ u. u ≡ iri_of (url base.now (text_of part.now.at) (view part.now.value.now)).value) }
{
    match (UrlReader { base }).read(part) {
        Ok(url) => url.iri().clone(part.alloc),
        Err(Refusal::Memory) => Err(AllocError),
        Err(Refusal::Fault(_)) => no_iri(part.alloc),
    }
}

/// Returns the IRI of the URL that stands in for one that can't be read.
pub fn no_iri(alloc: Global) -> Result<Iri, AllocError>
    ensures { IfOk result (λ i. i ≡ iri_of no_url) }
{
    named(alloc, ":")
}

/// Returns the table of the URL that the property `resource` is, and its place.
fn resource_seen(base: &Base, part: &Part) -> Result<NamedTable, AllocError>
    ensures { IfOk result (λ r. r ≡ (needed (resource base.now) (no_resource (text_of part.now.at)) (text_of part.now.at)
        (view part.now.value.now) (codes "resource")).value) }
{
    match part.value.get("resource") {
        Some(value) => {
            let url = part.member("resource", value);
            Ok(NamedTable {
                by: NamedBy::Url,
                url: url_seen(base, &url)?,
                at: url.at.text(part.alloc)?,
            })
        }
        None => no_resource(part),
    }
}

/// Returns the table that stands in for a missing one at this place.
fn no_resource(part: &Part) -> Result<NamedTable, AllocError>
    ensures { IfOk result (λ r. r ≡ no_resource (text_of part.now.at)) }
{
    Ok(NamedTable {
        by: NamedBy::Url,
        url: named(part.alloc, "")?,
        at: part.at.text(part.alloc)?,
    })
}

/// Returns the `@id` of a schema, or the one that stands in if it can't be read.
fn schema_id_seen(base: &Base, part: &Part) -> Result<Iri, AllocError>
    ensures { IfOk result (λ i. i ≡ (schema_id base.now (text_of part.now.at) (view part.now.value.now)).value) }
{
    match (SchemaIdReader { base }).read(part) {
        Ok(id) => Ok(id),
        Err(Refusal::Memory) => Err(AllocError),
        Err(Refusal::Fault(_)) => named(part.alloc, ""),
    }
}

/// Returns the table whose schema a `schemaReference` names, if it counts: not in the profile `Core`, and not beside a
/// `resource`.
fn schema_reference_seen(
    context: &Context,
    beside_resource: bool,
    part: &Part,
) -> Result<Option<NamedTable>, AllocError>
    ensures { IfOk result (λ t. t
        ≡ (schema_reference context.now.profile context.now.base beside_resource (text_of part.now.at) (view part.now.value.now)).value) }
{
    match context.profile {
        Profile::Core => Ok(None),
        Profile::W3c if beside_resource => Ok(None),
        Profile::W3c => {
            let id = schema_id_seen(&context.base, part)?;
            Ok(Some(table_of_schema(part, id)?))
        }
    }
}

/// Returns the table that a reference names by its schema, if it does.
fn schema_seen(context: &Context, part: &Part) -> Result<Option<NamedTable>, AllocError>
    ensures { IfOk result (λ t. t ≡ (schema_named context.now.profile context.now.base (text_of part.now.at) (view part.now.value.now)).value) }
{
    match part.value.get("schemaReference") {
        Some(value) => schema_reference_seen(
            context,
            has_resource(part),
            &part.member("schemaReference", value),
        ),
        None => Ok(None),
    }
}

/// Returns the table that a reference names.
fn table_seen(context: &Context, part: &Part) -> Result<NamedTable, AllocError>
    ensures { IfOk result (λ t. t ≡ (table_named context.now.base
        (schema_named context.now.profile context.now.base (text_of part.now.at) (view part.now.value.now)).value
        (text_of part.now.at) (view part.now.value.now)).value) }
{
    match schema_seen(context, part)? {
        Some(table) => Ok(table),
        None => resource_seen(&context.base, part),
    }
}

/// Returns what stands in for a reference that can't be read.
pub fn no_reference(part: &Part) -> Result<ReferenceFound, AllocError>
    ensures { IfOk result (λ r. r ≡ no_reference (text_of part.now.at)) }
{
    Ok(ReferenceFound {
        table: no_resource(part)?,
        columns: Seq::new(part.alloc),
        warnings: Seq::new(part.alloc),
    })
}

/// Returns what a reference says, without its warnings.
#[tactic(auto, unfolding(csvw_meta_keys::specs::References::reference_of))]
pub fn reference_seen(context: &Context, part: &Part) -> Result<ReferenceFound, AllocError>
    ensures { (place : ThePlace) → IfOk result (λ r. r
        ≡ bare_reference (reference context.now.profile context.now.base place (text_of part.now.at) (view part.now.value.now)).value) }
{
    match part.value {
        Value::Object(_) => Ok(ReferenceFound {
            table: table_seen(context, part)?,
            columns: names_at(part, "columnReference")?,
            warnings: Seq::new(part.alloc),
        }),
        _ => no_reference(part),
    }
}
