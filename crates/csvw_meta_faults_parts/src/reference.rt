//! The faults of the reference of a foreign key (Metadata Vocabulary for Tabular Data, section 5.5.2.1).
ghost use Rattle.std.specs.Prelude.{◌≡◌, ◌++◌, OnOk, codes, is_some};
ghost use Rattle.serde_json.specs.View.{view};
ghost use Rattle.url.specs.Parts.{Parts as TheParts};
ghost use Rattle.csvw_fault.specs.declared.fault.Place.{Place as ThePlace};
ghost use Rattle.csvw_meta_core.specs.Pointer.{text_of};
ghost use Rattle.csvw_meta_core.specs.Read.{needed};
ghost use Rattle.csvw_meta_keys.specs.References.{no_reference, reference, reference_of, schema_named, table_named};
ghost use Rattle.csvw_meta_faults_parts.specs.Leaves.{resource_has_one, schema_reference_has_one};

use crate::column_names::NamesFinder;
use crate::leaf::{Leaf, OneFault};
use crate::refused::find_refused;
use csvw_meta_core::{Context, MetaCode, MetaFault, Part, Profile};
use csvw_meta_faults_core::{add_fault, add_wrong, find_needed, find_property};
use csvw_meta_keys::reference::{REFERENCE, ResourceReader, SchemaReference, has_resource};
use serde_json::Value;
use std::alloc::AllocError;

impl<'a> OneFault for ResourceReader<'a> {
    ghost at_most_one = { λ r. resource_has_one r.base.now };
}

impl<'a> OneFault for SchemaReference<'a> {
    ghost at_most_one = { λ r. schema_reference_has_one r.profile r.base.now r.beside_resource };
}

/// Adds the fault of the `schemaReference` of a reference.
fn find_schema(
    context: &Context,
    part: &Part,
    faults: &mut Vec<MetaFault>,
) -> Result<(), AllocError>
    ensures { OnOk result (faults.new.items ≡ faults.old.items
        ++ (schema_named context.now.profile context.now.base (text_of part.now.at) (view part.now.value.now)).faults) }
{
    let schema = Leaf {
        reader: SchemaReference {
            profile: context.profile,
            base: &context.base,
            beside_resource: has_resource(part),
        },
    };
    find_property(part, &schema, "schemaReference", faults)
}

/// Returns whether a reference names its table by a schema, also if the `@id` of the schema can't be read.
pub fn is_by_schema(profile: Profile, part: &Part) -> bool
    ensures { (base : TheParts) → result ≡ is_some (schema_named profile base (text_of part.now.at) (view part.now.value.now)).value }
{
    match part.value.get("schemaReference") {
        Some(_) => matches!(profile, Profile::W3c) && !has_resource(part),
        None => false,
    }
}

/// Adds the faults of the `resource` of a reference, which it has to have if it doesn't name its table by a schema.
fn find_table(context: &Context, part: &Part, faults: &mut Vec<MetaFault>) -> Result<(), AllocError>
    ensures { OnOk result (faults.new.items ≡ faults.old.items ++ (table_named context.now.base
        (schema_named context.now.profile context.now.base (text_of part.now.at) (view part.now.value.now)).value
        (text_of part.now.at) (view part.now.value.now)).faults) }
{
    if is_by_schema(context.profile, part) {
        return Ok(());
    }
    let resource = Leaf {
        reader: ResourceReader {
            base: &context.base,
        },
    };
    find_needed(part, &resource, "resource", faults)
}

/// Adds the faults of the reference that an object is.
#[tactic(auto, unfolding(csvw_meta_keys::specs::References::reference_of))]
fn find_reference_of(
    context: &Context,
    part: &Part,
    faults: &mut Vec<MetaFault>,
) -> Result<(), AllocError>
    ensures { (place : ThePlace) → OnOk result (faults.new.items ≡ faults.old.items
        ++ (reference_of context.now.profile context.now.base place (text_of part.now.at) (view part.now.value.now)).faults) }
{
    find_schema(context, part, faults)?;
    find_refused(&REFERENCE, part, faults)?;
    find_table(context, part, faults)?;
    find_needed(part, &NamesFinder, "columnReference", faults)
}

fn find_reference_here(
    context: &Context,
    part: &Part,
    faults: &mut Vec<MetaFault>,
) -> Result<(), AllocError>
    ensures { (place : ThePlace) → OnOk result (faults.new.items ≡ faults.old.items
        ++ (reference context.now.profile context.now.base place (text_of part.now.at) (view part.now.value.now)).faults) }
{
    match part.value {
        Value::Object(_) => find_reference_of(context, part, faults),
        _ => add_wrong(part, faults),
    }
}

/// Adds the faults of the property `reference` of a foreign key.
pub fn find_reference(
    context: &Context,
    part: &Part,
    faults: &mut Vec<MetaFault>,
) -> Result<(), AllocError>
    ensures { (place : ThePlace) → OnOk result (faults.new.items ≡ faults.old.items
        ++ (needed (reference context.now.profile context.now.base place) (no_reference (text_of part.now.at)) (text_of part.now.at) (view part.now.value.now)
        (codes "reference")).faults) }
{
    match part.value.get("reference") {
        None => add_fault(part, MetaCode::BadProperty, faults),
        Some(value) => find_reference_here(context, &part.member("reference", value), faults),
    }
}
