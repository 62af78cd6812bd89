//! The names of columns that the keys and row titles of a document have (Metadata Vocabulary for Tabular Data, sections
//! 5.1.4 and 5.5), whatever faults it has.
ghost use Rattle.std.specs.Prelude.{◌≡◌, [], IfOk, codes};
ghost use Rattle.serde_json.specs.View.{items_view, view};
ghost use Rattle.csvw_meta_core.specs.Pointer.{item_at, text_of};
ghost use Rattle.csvw_meta_core.specs.Read.{each_numbered, needed, property};
ghost use Rattle.csvw_meta_keys.specs.ColumnNames.{column_names, key_name, row_titles};

use crate::items::array_items;
use csvw_meta_core::{Part, Profile};
use csvw_meta_keys::KeyName;
use csvw_meta_keys::column_names::name_here;
use csvw_text::Seq;
use serde_json::Value;
use std::alloc::AllocError;

/// Returns the name that an item is, or the empty name if it can't be read.
fn name_seen(part: &Part) -> Result<KeyName, AllocError>
    ensures { IfOk result (λ k. k ≡ (key_name (text_of part.now.at) (view part.now.value.now)).value) }
{
    match part.value.as_str() {
        Some(name) => name_here(part, name),
        None => name_here(part, ""),
    }
}

fn item_name(part: &Part, index: usize, item: &Value) -> Result<KeyName, AllocError>
    ensures { IfOk result (λ k. k ≡ (key_name (item_at (text_of part.now.at) index) (view item.now)).value) }
{
    name_seen(&part.item(index, item))
}

fn each_name(part: &Part, items: &[Value]) -> Result<Seq<KeyName>, AllocError>
    ensures { IfOk result (λ s. s ≡ (each_numbered (λ n. key_name) (text_of part.now.at) 0 (items_view items.now)).value) }
{
    let mut names = Vec::new(part.alloc);
    for (i, item) in items.iter().enumerate() {
        let name = item_name(part, i, item)?;
        names.push(name)?;
    }
    Ok(Seq::of(names))
}

/// Returns the names of the columns of a key that can be read, with an empty name for each other.
fn names_seen(part: &Part) -> Result<Seq<KeyName>, AllocError>
    ensures { IfOk result (λ s. s ≡ (column_names (text_of part.now.at) (view part.now.value.now)).value) }
{
    match part.value {
        Value::String(name) => {
            let mut one = Seq::new(part.alloc);
            one.push(name_here(part, name.as_str())?)?;
            Ok(one)
        }
        _ => each_name(part, array_items(part.value)),
    }
}

/// Returns the names of columns that a property has, or none if it is missing.
pub fn names_at(part: &Part, name: &str) -> Result<Seq<KeyName>, AllocError>
    ensures optional { IfOk result (λ s. s ≡ (property column_names [] (text_of part.now.at) (view part.now.value.now) name.now).value) }
    ensures needed { IfOk result (λ s. s ≡ (needed column_names [] (text_of part.now.at) (view part.now.value.now) name.now).value) }
{
    match part.value.get(name) {
        Some(value) => names_seen(&part.member(name, value)),
        None => Ok(Seq::new(part.alloc)),
    }
}

/// Returns the names that the property `rowTitles` has, or none if it is missing or not supported.
pub fn row_titles_at(profile: Profile, part: &Part) -> Result<Seq<KeyName>, AllocError>
    ensures { IfOk result (λ s. s ≡ (property (row_titles profile) [] (text_of part.now.at) (view part.now.value.now) (codes "rowTitles")).value) }
{
    match profile {
        Profile::Core => Ok(Seq::new(part.alloc)),
        Profile::W3c => names_at(part, "rowTitles"),
    }
}
