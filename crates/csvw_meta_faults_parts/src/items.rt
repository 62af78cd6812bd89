//! The items of an array.
ghost use Rattle.std.specs.Prelude.{◌≡◌};
ghost use Rattle.serde_json.specs.View.{items_view, view};
ghost use Rattle.csvw_meta_faults_parts.specs.Items.{items_of};

use serde_json::Value;

/// Returns the items of an array, or none if the value is not an array.
pub fn array_items(value: &Value) -> &[Value]
    ensures { items_view result.now ≡ items_of (view value.now) }
{
    match value {
        Value::Array(items) => items.as_slice(),
        _ => &[],
    }
}
