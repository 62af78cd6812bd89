//! The faults of the keys and row titles of a schema (Metadata Vocabulary for Tabular Data, section 5.5).
ghost use Rattle.std.specs.Prelude.{◌≡◌, ◌++◌, [], List, OnOk, Option, codes, ℕ};
ghost use Rattle.serde_json.specs.View.{items_view, view};
ghost use Rattle.csvw_fault.specs.declared.fault.Place.{Place as ThePlace};
ghost use Rattle.csvw_meta_core.specs.Pointer.{item_at, text_of};
ghost use Rattle.csvw_meta_core.specs.Read.{each_numbered, property};
ghost use Rattle.csvw_meta_core.specs.Several.{some_items};
ghost use Rattle.csvw_meta_keys.specs.ForeignKeys.{foreign_key, foreign_keys};
ghost use Rattle.csvw_meta_keys.specs.Keys.{keys};

use crate::column_names::{NamesFinder, RowTitlesFinder};
use crate::count::find_count;
use crate::foreign_key::find_foreign_key;
use csvw_meta_core::{Context, MetaFault, Part};
use csvw_meta_faults_core::{add_wrong, find_property};
use csvw_meta_keys::keys::MAX_FOREIGN_KEYS;
use serde_json::Value;
use std::alloc::AllocError;

fn find_in_item(
    context: &Context,
    part: &Part,
    index: usize,
    item: &Value,
    faults: &mut Vec<MetaFault>,
) -> Result<(), AllocError>
    ensures { (place : ThePlace) → OnOk result (faults.new.items ≡ faults.old.items
        ++ (foreign_key context.now.profile context.now.base place (item_at (text_of part.now.at) index) (view item.now)).faults) }
{
    find_foreign_key(context, &part.item(index, item), faults)
}

/// Adds the faults of each foreign key of an array.
fn find_each(
    context: &Context,
    part: &Part,
    items: &[Value],
    faults: &mut Vec<MetaFault>,
) -> Result<(), AllocError>
    ensures { (place : ThePlace) → OnOk result (faults.new.items ≡ faults.old.items
        ++ (each_numbered (λ n. foreign_key context.now.profile context.now.base place) (text_of part.now.at) 0 (items_view items.now)).faults) }
{
    for (i, item) in items.iter().enumerate() {
        find_in_item(context, part, i, item, faults)?;
    }
    Ok(())
}

/// Adds the faults of each foreign key of an array, and of their number.
fn find_some(
    context: &Context,
    part: &Part,
    items: &[Value],
    faults: &mut Vec<MetaFault>,
) -> Result<(), AllocError>
    ensures { (place : ThePlace) → OnOk result (faults.new.items ≡ faults.old.items
        ++ (some_items 0 MAX_FOREIGN_KEYS (λ n. foreign_key context.now.profile context.now.base place) (text_of part.now.at) (items_view items.now)).faults) }
{
    find_each(context, part, items, faults)?;
    find_count(part, 0, MAX_FOREIGN_KEYS, items, faults)
}

fn find_foreign_keys_here(
    context: &Context,
    part: &Part,
    faults: &mut Vec<MetaFault>,
) -> Result<(), AllocError>
    ensures { (place : ThePlace) → OnOk result (faults.new.items ≡ faults.old.items
        ++ (foreign_keys context.now.profile context.now.base place (text_of part.now.at) (view part.now.value.now)).faults) }
{
    match part.value {
        Value::Array(items) => find_some(context, part, items.as_slice(), faults),
        _ => add_wrong(part, faults),
    }
}

fn find_foreign_keys(
    context: &Context,
    part: &Part,
    faults: &mut Vec<MetaFault>,
) -> Result<(), AllocError>
    ensures { (place : ThePlace) → OnOk result (faults.new.items ≡ faults.old.items
        ++ (property (foreign_keys context.now.profile context.now.base place) [] (text_of part.now.at) (view part.now.value.now)
        (codes "foreignKeys")).faults) }
{
    match part.value.get("foreignKeys") {
        None => Ok(()),
        Some(value) => find_foreign_keys_here(context, &part.member("foreignKeys", value), faults),
    }
}

/// Adds the faults of the keys and row titles of the schema that the part is.
#[tactic(auto, unfolding(csvw_meta_keys::specs::Keys::keys))]
pub fn find_keys(
    context: &Context,
    part: &Part,
    faults: &mut Vec<MetaFault>,
) -> Result<(), AllocError>
    ensures { (place : ThePlace) (id : Option (List ℕ)) → OnOk result (faults.new.items ≡ faults.old.items
        ++ (keys context.now.profile context.now.base place id (text_of part.now.at) (view part.now.value.now)).faults) }
{
    find_property(part, &NamesFinder, "primaryKey", faults)?;
    let titles = RowTitlesFinder {
        profile: context.profile,
    };
    find_property(part, &titles, "rowTitles", faults)?;
    find_foreign_keys(context, part, faults)
}
