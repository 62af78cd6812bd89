//! The faults of the titles of a column (Metadata Vocabulary for Tabular Data, section 5.6, `titles`).
ghost use Rattle.std.specs.Prelude.{◌≡◌, ◌++◌, [], OnOk, List, Option, ℕ, codes};
ghost use Rattle.serde_json.specs.View.{members_view, view};
ghost use Rattle.csvw_meta_core.specs.Pointer.{text_of};
ghost use Rattle.csvw_meta_core.specs.Read.{property};
ghost use Rattle.csvw_meta.specs.Titles.{of_key, sorted, tag, titles};

use csvw_meta::titles::is_tag;
use csvw_meta_core::{MetaFault, Part, Texts};
use csvw_meta_faults_core::{Finder, add_wrong};
use serde_json::{Map, Value};
use std::alloc::AllocError;

/// Adds the fault of a key that is not a language tag.
fn find_tag(
    part: &Part,
    key: &str,
    value: &Value,
    faults: &mut Vec<MetaFault>,
) -> Result<(), AllocError>
    ensures { OnOk result (faults.new.items ≡ faults.old.items ++ (tag (text_of part.now.at) key.now (view value.now)).faults) }
{
    if is_tag(part.alloc, key)? {
        return Ok(());
    }
    add_wrong(&part.member(key, value), faults)
}

/// Adds the faults of the titles of one language, which a key names.
fn find_of_key(
    part: &Part,
    key: &str,
    value: &Value,
    faults: &mut Vec<MetaFault>,
) -> Result<(), AllocError>
    ensures { OnOk result (faults.new.items ≡ faults.old.items ++ (of_key (text_of part.now.at) key.now (view value.now)).faults) }
{
    find_tag(part, key, value, faults)?;
    Texts.find(&part.member(key, value), faults)
}

/// Adds the faults of the titles of all languages.
fn find_all(
    part: &Part,
    members: &Map<String, Value>,
    faults: &mut Vec<MetaFault>,
) -> Result<(), AllocError>
    ensures { (language : Option (List ℕ)) → OnOk result (faults.new.items ≡ faults.old.items
        ++ (sorted language (text_of part.now.at) (members_view members.now.entries)).faults) }
{
    for (key, value) in members.iter() {
        find_of_key(part, key.as_str(), value, faults)?;
    }
    Ok(())
}

fn find_titles_here(part: &Part, faults: &mut Vec<MetaFault>) -> Result<(), AllocError>
    ensures { (language : Option (List ℕ)) → OnOk result (faults.new.items ≡ faults.old.items
        ++ (titles language (text_of part.now.at) (view part.now.value.now)).faults) }
{
    match part.value {
        Value::Object(members) => find_all(part, members, faults),
        _ => Texts.find(part, faults),
    }
}

/// Adds the faults of the property `titles` of a column. The language of the context has no effect on them.
pub(crate) fn find_titles(part: &Part, faults: &mut Vec<MetaFault>) -> Result<(), AllocError>
    ensures { (language : Option (List ℕ)) → OnOk result (faults.new.items ≡ faults.old.items
        ++ (property (titles language) [] (text_of part.now.at) (view part.now.value.now) (codes "titles")).faults) }
{
    match part.value.get("titles") {
        None => Ok(()),
        Some(value) => find_titles_here(&part.member("titles", value), faults),
    }
}
