//! What the keys and row titles of a schema say (Metadata Vocabulary for Tabular Data, section 5.5), whatever faults they
//! have.
ghost use Rattle.std.specs.Prelude.{◌≡◌, [], IfOk, codes, map};
ghost use Rattle.serde_json.specs.View.{items_view, view};
ghost use Rattle.csvw_fault.specs.declared.fault.Place.{Place as ThePlace};
ghost use Rattle.csvw_meta_core.specs.Pointer.{item_at, text_of};
ghost use Rattle.csvw_meta_core.specs.Read.{each_numbered, needed, property};
ghost use Rattle.csvw_meta_keys.specs.ForeignKeys.{foreign_key, foreign_keys};
ghost use Rattle.csvw_meta_keys.specs.Keys.{keys};
ghost use Rattle.csvw_meta_keys.specs.References.{reference as reference_read, no_reference};
ghost use Rattle.csvw_meta_faults_parts.specs.BareKeys.{bare_key, bare_keys, bare_reference};

use crate::items::array_items;
use crate::seen_key_names::{names_at, row_titles_at};
use crate::seen_reference::{no_reference, reference_seen};
use csvw_iri::Iri;
use csvw_meta_core::{Context, Part};
use csvw_meta_keys::reference::ReferenceFound;
use csvw_meta_keys::{ForeignKeyFound, KeysFound};
use csvw_text::Seq;
use serde_json::Value;
use std::alloc::AllocError;

/// Returns what the property `reference` says, without warnings.
fn reference_at(context: &Context, part: &Part) -> Result<ReferenceFound, AllocError>
    ensures { (place : ThePlace) → IfOk result (λ r. r ≡ bare_reference (needed (reference_read context.now.profile context.now.base place)
        (no_reference (text_of part.now.at)) (text_of part.now.at) (view part.now.value.now)
        (codes "reference")).value) }
{
    match part.value.get("reference") {
        Some(value) => reference_seen(context, &part.member("reference", value)),
        None => no_reference(part),
    }
}

/// Returns what a foreign key says, without its warnings.
#[tactic(auto, unfolding(csvw_meta_keys::specs::ForeignKeys::foreign_key_of))]
fn foreign_key_seen(context: &Context, part: &Part) -> Result<ForeignKeyFound, AllocError>
    ensures { (place : ThePlace) → IfOk result (λ k. k
        ≡ bare_key (foreign_key context.now.profile context.now.base place (text_of part.now.at) (view part.now.value.now)).value) }
{
    let at = part.at.text(part.alloc)?;
    match part.value {
        Value::Object(_) => {
            let columns = names_at(part, "columnReference")?;
            let reference = reference_at(context, part)?;
            Ok(ForeignKeyFound {
                at,
                columns,
                table: reference.table,
                referenced: reference.columns,
                warnings: Seq::new(part.alloc),
            })
        }
        _ => {
            let reference = no_reference(part)?;
            Ok(ForeignKeyFound {
                at,
                columns: Seq::new(part.alloc),
                table: reference.table,
                referenced: reference.columns,
                warnings: Seq::new(part.alloc),
            })
        }
    }
}

fn item_key(
    context: &Context,
    part: &Part,
    index: usize,
    item: &Value,
) -> Result<ForeignKeyFound, AllocError>
    ensures { (place : ThePlace) → IfOk result (λ k. k
        ≡ bare_key (foreign_key context.now.profile context.now.base place (item_at (text_of part.now.at) index) (view item.now)).value) }
{
    foreign_key_seen(context, &part.item(index, item))
}

/// Returns what each foreign key of an array says, without their warnings.
fn each_seen(
    context: &Context,
    part: &Part,
    items: &[Value],
) -> Result<Seq<ForeignKeyFound>, AllocError>
    ensures { (place : ThePlace) → IfOk result (λ ks. ks
        ≡ map bare_key (each_numbered (λ n. foreign_key context.now.profile context.now.base place) (text_of part.now.at) 0 (items_view items.now)).value) }
{
    let mut keys = Vec::new(part.alloc);
    for (i, item) in items.iter().enumerate() {
        let key = item_key(context, part, i, item)?;
        keys.push(key)?;
    }
    Ok(Seq::of(keys))
}

/// Returns what the foreign keys of an array say, or none if the value is not an array.
fn foreign_keys_here(context: &Context, part: &Part) -> Result<Seq<ForeignKeyFound>, AllocError>
    ensures { (place : ThePlace) → IfOk result (λ ks. ks
        ≡ map bare_key (foreign_keys context.now.profile context.now.base place (text_of part.now.at) (view part.now.value.now)).value) }
{
    each_seen(context, part, array_items(part.value))
}

/// Returns what the foreign keys of the schema say.
fn foreign_keys_seen(context: &Context, part: &Part) -> Result<Seq<ForeignKeyFound>, AllocError>
    ensures { (place : ThePlace) → IfOk result (λ ks. ks
        ≡ map bare_key (property (foreign_keys context.now.profile context.now.base place) [] (text_of part.now.at) (view part.now.value.now)
        (codes "foreignKeys")).value) }
{
    match part.value.get("foreignKeys") {
        Some(value) => foreign_keys_here(context, &part.member("foreignKeys", value)),
        None => Ok(Seq::new(part.alloc)),
    }
}

/// Returns what the keys and row titles of the schema that the part is say, without the warnings on them. The schema has
/// this `@id`.
#[tactic(auto, unfolding(csvw_meta_keys::specs::Keys::keys))]
pub fn keys_seen(context: &Context, id: Option<Iri>, part: &Part) -> Result<KeysFound, AllocError>
    ensures { (place : ThePlace) → IfOk result (λ k. k
        ≡ bare_keys (keys context.now.profile context.now.base place id (text_of part.now.at) (view part.now.value.now)).value) }
{
    let primary = names_at(part, "primaryKey")?;
    let row_titles = row_titles_at(context.profile, part)?;
    let foreign = foreign_keys_seen(context, part)?;
    Ok(KeysFound {
        id,
        primary,
        row_titles,
        foreign,
    })
}
