//! What is left of a value.
ghost use Rattle.std.specs.Prelude.{◌≡◌, ◌++◌, IfOk, OnOk};
ghost use Rattle.serde_json.specs.View.{view};
ghost use Rattle.csvw_meta_core.specs.Pointer.{text_of};
ghost use Rattle.csvw_defaults.specs.Sources.{number_text, source_of};
ghost use Rattle.csvw_defaults.specs.Ignored.{bound, by_kind, of_kind, read_as};
ghost use Rattle.csvw_defaults.specs.Judged.{fault_at, if_permitted, ignored, stays};
ghost use Rattle.csvw_defaults.specs.Keeping.{IsLeft};

use crate::node::Node;
use crate::permitted::{Permitted, is_permitted};
use csvw_meta_core::{MetaCode, MetaFault, Refusal};
use serde_json::Value;
use std::alloc::AllocError;

/// What is left of a value.
#[derive(Drop)]
pub(crate) struct Kept {
    /// The value, or none if the property is as if it weren't there.
    pub(crate) value: Option<Value>,
    /// Whether the property that has it is warned of.
    pub(crate) is_ignored: bool,
}

/// Adds the fault of a value, of this code.
pub(crate) fn add_fault(
    code: MetaCode,
    node: &Node,
    faults: &mut Vec<MetaFault>,
) -> Result<(), AllocError>
    ensures { OnOk result (faults.new.items ≡ faults.old.items ++ fault_at code (text_of node.now.part.at)) }
{
    match node.part.refused(code) {
        Refusal::Fault(fault) => {
            faults.push(fault)?;
            Ok(())
        }
        Refusal::Memory => Err(AllocError),
    }
}

/// Keeps a value.
pub(crate) fn keep(value: &Value) -> Result<Kept, AllocError>
    ensures { IfOk result (IsLeft (stays (view value.now))) }
{
    Ok(Kept {
        value: Some(value.clone()?),
        is_ignored: false,
    })
}

/// Ignores a value.
pub(crate) fn ignore(node: &Node, faults: &mut Vec<MetaFault>) -> Result<Kept, AllocError>
    ensures faults { OnOk result (faults.new.items ≡ faults.old.items ++ (ignored (text_of node.now.part.at)).faults) }
    ensures left { IfOk result (IsLeft (ignored (text_of node.now.part.at))) }
{
    add_fault(MetaCode::BadProperty, node, faults)?;
    Ok(Kept {
        value: None,
        is_ignored: true,
    })
}

/// Keeps a value if it is permitted, else ignores it.
pub(crate) fn keep_if(
    is_permitted: bool,
    node: &Node,
    faults: &mut Vec<MetaFault>,
) -> Result<Kept, AllocError>
    ensures faults { OnOk result (faults.new.items ≡ faults.old.items
        ++ (if_permitted is_permitted (text_of node.now.part.at) (view node.now.part.value.now)).faults) }
    ensures left { IfOk result (IsLeft (if_permitted is_permitted (text_of node.now.part.at) (view node.now.part.value.now))) }
{
    if is_permitted {
        return keep(node.part.value);
    }
    ignore(node, faults)
}

/// Keeps a value if it is of a kind, else ignores it.
pub(crate) fn keep_kind(
    kind: Permitted,
    node: &Node,
    faults: &mut Vec<MetaFault>,
) -> Result<Kept, AllocError>
    ensures faults { OnOk result (faults.new.items ≡ faults.old.items
        ++ (of_kind kind (text_of node.now.part.at) (source_of node.now.source) (view node.now.part.value.now)).faults) }
    ensures left { IfOk result (IsLeft (of_kind kind (text_of node.now.part.at) (source_of node.now.source) (view node.now.part.value.now))) }
{
    let is_permitted = is_permitted(node.part.alloc, kind, node.part.value)?;
    keep_if(is_permitted, node, faults)
}

/// Makes a number that isn't whole the text that writes it, if that is known.
fn keep_fraction(node: &Node, faults: &mut Vec<MetaFault>) -> Result<Kept, AllocError>
    ensures faults { OnOk result (faults.new.items ≡ faults.old.items
        ++ (read_as (text_of node.now.part.at) (number_text (source_of node.now.source)) (view node.now.part.value.now)).faults) }
    ensures left { IfOk result (IsLeft (read_as (text_of node.now.part.at) (number_text (source_of node.now.source)) (view node.now.part.value.now))) }
{
    let Some(text) = node.number_text() else {
        return keep(node.part.value);
    };
    add_fault(MetaCode::NotSupported, node, faults)?;
    Ok(Kept {
        value: Some(Value::String(String::from_str(node.part.alloc, text)?)),
        is_ignored: false,
    })
}

/// Keeps a bound that is a text or a number, else ignores it. A number that isn't whole becomes a text.
fn keep_bound(node: &Node, faults: &mut Vec<MetaFault>) -> Result<Kept, AllocError>
    ensures faults { OnOk result (faults.new.items ≡ faults.old.items
        ++ (bound (text_of node.now.part.at) (source_of node.now.source) (view node.now.part.value.now)).faults) }
    ensures left { IfOk result (IsLeft (bound (text_of node.now.part.at) (source_of node.now.source) (view node.now.part.value.now))) }
{
    if node.part.value.is_f64() {
        return keep_fraction(node, faults);
    }
    keep_kind(Permitted::Bound, node, faults)
}

/// Keeps the value of a datatype's property by its kind.
pub(crate) fn keep_by_kind(
    kind: Permitted,
    node: &Node,
    faults: &mut Vec<MetaFault>,
) -> Result<Kept, AllocError>
    ensures faults { OnOk result (faults.new.items ≡ faults.old.items
        ++ (by_kind kind (text_of node.now.part.at) (source_of node.now.source) (view node.now.part.value.now)).faults) }
    ensures left { IfOk result (IsLeft (by_kind kind (text_of node.now.part.at) (source_of node.now.source) (view node.now.part.value.now))) }
{
    match kind {
        Permitted::Bound => keep_bound(node, faults),
        _ => keep_kind(kind, node, faults),
    }
}
