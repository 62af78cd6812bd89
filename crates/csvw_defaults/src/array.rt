//! Arrays, each item of which is judged (Metadata Vocabulary for Tabular Data, section 5.1.1).
ghost use Rattle.json.specs.Json.{Json};
ghost use Rattle.std.specs.Prelude.{◌≡◌, ◌++◌, List, ℕ, Option, IfOk, OnOk, option_to_list};
ghost use Rattle.serde_json.specs.Data.{Data};
ghost use Rattle.serde_json.specs.View.{view, items_view};
ghost use Rattle.csvw_meta_core.specs.Pointer.{text_of};
ghost use Rattle.csvw_defaults.specs.Sources.{source_of};
ghost use Rattle.csvw_defaults.specs.Ignored.{array_property};
ghost use Rattle.csvw_defaults.specs.Judged.{Judged};
ghost use Rattle.csvw_defaults.specs.Keeping.{IsLeft};
ghost use Rattle.csvw_defaults.specs.Parts.{any_ignored, array_of, item_faults, kept_items};

use crate::kept::{Kept, ignore};
use crate::node::Node;
use csvw_meta_core::MetaFault;
use serde_json::Value;
use std::alloc::AllocError;

/// The rule of an array's items. The ghost member `rule` defines it, by the place and the value.
pub(crate) trait Items {
    ghost rule: { Self → List ℕ → Option Json → Data → Judged };

    /// Returns what is left of an item, and adds the values in it that are ignored. Fails with `AllocError` if memory runs out.
    fn judge(&self, node: &Node, faults: &mut Vec<MetaFault>) -> Result<Kept, AllocError>
        ensures faults { OnOk result (faults.new.items ≡ faults.old.items
            ++ (rule self.now (text_of node.now.part.at) (source_of node.now.source) (view node.now.part.value.now)).faults) }
        ensures left { IfOk result (IsLeft (rule self.now (text_of node.now.part.at) (source_of node.now.source) (view node.now.part.value.now))) };
}

/// What is left of the items of an array.
#[derive(Drop)]
struct KeptItems {
    /// The items that are left.
    items: Vec<Value>,
    /// Whether the property that has them is warned of.
    is_ignored: bool,
}

/// Adds an item that is left, if there is one.
fn push_kept(left: &mut Vec<Value>, value: Option<Value>) -> Result<(), AllocError>
    ensures { OnOk result (left.new.items ≡ left.old.items ++ option_to_list value) }
{
    if let Some(value) = value {
        left.push(value)?;
    }
    Ok(())
}

/// Returns what is left of the items of an array at a place, and adds the values in them that are ignored.
fn judge_items<'a, 's, 't, I: Items>(
    rule: &I,
    node: &'a Node<'a, 's, 't>,
    items: &'a [Value],
    faults: &mut Vec<MetaFault>,
) -> Result<KeptItems, AllocError>
    ensures faults { OnOk result (faults.new.items ≡ faults.old.items
        ++ item_faults (I.rule rule.now) (text_of node.now.part.at) (source_of node.now.source) 0 (items_view items.now)) }
    ensures items { IfOk result (λ kept. items_view kept.items.items
        ≡ kept_items (I.rule rule.now) (text_of node.now.part.at) (source_of node.now.source) 0 (items_view items.now)) }
    ensures ignored { IfOk result (λ kept. kept.is_ignored
        ≡ any_ignored (I.rule rule.now) (text_of node.now.part.at) (source_of node.now.source) 0 (items_view items.now)) }
{
    let mut left = Vec::new(node.part.alloc);
    let mut is_ignored = false;
    for (i, item) in items.iter().enumerate() {
        let kept = rule.judge(&node.item(i, item), faults)?;
        is_ignored |= kept.is_ignored;
        push_kept(&mut left, kept.value)?;
    }
    Ok(KeptItems {
        items: left,
        is_ignored,
    })
}

/// Returns what is left of an array, and adds the values in it that are ignored.
pub(crate) fn judge_array<I: Items>(
    rule: &I,
    node: &Node,
    items: &[Value],
    faults: &mut Vec<MetaFault>,
) -> Result<Kept, AllocError>
    ensures faults { OnOk result (faults.new.items ≡ faults.old.items
        ++ (array_of (I.rule rule.now) (text_of node.now.part.at) (source_of node.now.source) (items_view items.now)).faults) }
    ensures left { IfOk result (IsLeft (array_of (I.rule rule.now) (text_of node.now.part.at) (source_of node.now.source) (items_view items.now))) }
{
    let kept = judge_items(rule, node, items, faults)?;
    Ok(Kept {
        value: Some(Value::Array(kept.items)),
        is_ignored: kept.is_ignored,
    })
}

/// Judges the value of an array property.
pub(crate) fn array_property<I: Items>(
    rule: &I,
    node: &Node,
    faults: &mut Vec<MetaFault>,
) -> Result<Kept, AllocError>
    ensures faults { OnOk result (faults.new.items ≡ faults.old.items
        ++ (array_property (I.rule rule.now) (text_of node.now.part.at) (source_of node.now.source) (view node.now.part.value.now)).faults) }
    ensures left { IfOk result (IsLeft (array_property (I.rule rule.now)
        (text_of node.now.part.at) (source_of node.now.source) (view node.now.part.value.now))) }
{
    match node.part.value {
        Value::Array(items) => judge_array(rule, node, items.as_slice(), faults),
        _ => ignore(node, faults),
    }
}
