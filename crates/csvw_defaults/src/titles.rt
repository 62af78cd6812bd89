//! The titles of a column (Metadata Vocabulary for Tabular Data, sections 5.1.4 and 5.6).
ghost use Rattle.std.specs.Prelude.{◌≡◌, ◌++◌, IfOk, OnOk};
ghost use Rattle.serde_json.specs.View.{view, members_view};
ghost use Rattle.csvw_meta_core.specs.Pointer.{text_of};
ghost use Rattle.csvw_defaults.specs.Sources.{source_of};
ghost use Rattle.csvw_defaults.specs.Ignored.{titles, titles_alone, titles_by_language};
ghost use Rattle.csvw_defaults.specs.Keeping.{IsLeft};

use crate::array::{Items, judge_array};
use crate::kept::{Kept, ignore, keep, keep_if};
use crate::node::Node;
use crate::object::{Properties, judge_members};
use csvw_meta::titles::is_tag;
use csvw_meta_core::MetaFault;
use serde_json::{Map, Value};
use std::alloc::AllocError;

/// The rule of titles in an array.
#[derive(Drop)]
struct TitleItem;

impl Items for TitleItem {
    ghost use Rattle.csvw_defaults.specs.Ignored.{title};

    ghost rule = { λ _. title };

    fn judge(&self, node: &Node, faults: &mut Vec<MetaFault>) -> Result<Kept, AllocError> {
        keep_if(node.part.value.is_string(), node, faults)
    }
}

/// Judges the titles of one language.
fn titles_alone(node: &Node, faults: &mut Vec<MetaFault>) -> Result<Kept, AllocError>
    ensures faults { OnOk result (faults.new.items ≡ faults.old.items
        ++ (titles_alone (text_of node.now.part.at) (source_of node.now.source) (view node.now.part.value.now)).faults) }
    ensures left { IfOk result (IsLeft (titles_alone (text_of node.now.part.at) (source_of node.now.source) (view node.now.part.value.now))) }
{
    match node.part.value {
        Value::String(_) => keep(node.part.value),
        Value::Array(items) => judge_array(&TitleItem, node, items.as_slice(), faults),
        _ => ignore(node, faults),
    }
}

/// The rules of the languages of titles.
#[derive(Drop)]
struct Languages;

impl Properties for Languages {
    ghost use Rattle.csvw_defaults.specs.Ignored.{titles_of};

    ghost rule = { λ _. titles_of };

    fn judge(
        &self,
        name: &str,
        node: &Node,
        faults: &mut Vec<MetaFault>,
    ) -> Result<Kept, AllocError> {
        if is_tag(node.part.alloc, name)? {
            return titles_alone(node, faults);
        }
        ignore(node, faults)
    }
}

fn titles_by_language(
    node: &Node,
    members: &Map<String, Value>,
    faults: &mut Vec<MetaFault>,
) -> Result<Kept, AllocError>
    ensures faults { OnOk result (faults.new.items ≡ faults.old.items
        ++ (titles_by_language (text_of node.now.part.at) (source_of node.now.source) (members_view members.now.entries)).faults) }
    ensures left { IfOk result (IsLeft (titles_by_language (text_of node.now.part.at) (source_of node.now.source) (members_view members.now.entries))) }
{
    let kept = judge_members(&Languages, node, members, faults)?;
    Ok(Kept {
        value: Some(Value::Object(kept.members)),
        is_ignored: !kept.ignored.is_empty(),
    })
}

/// Judges the titles of a column.
pub(crate) fn titles(node: &Node, faults: &mut Vec<MetaFault>) -> Result<Kept, AllocError>
    ensures faults { OnOk result (faults.new.items ≡ faults.old.items
        ++ (titles (text_of node.now.part.at) (source_of node.now.source) (view node.now.part.value.now)).faults) }
    ensures left { IfOk result (IsLeft (titles (text_of node.now.part.at) (source_of node.now.source) (view node.now.part.value.now))) }
{
    match node.part.value {
        Value::Object(members) => titles_by_language(node, members, faults),
        _ => titles_alone(node, faults),
    }
}
