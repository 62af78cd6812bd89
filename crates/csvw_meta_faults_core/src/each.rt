//! The faults of the items of an array.
ghost use Rattle.std.specs.Prelude.{◌≡◌, ◌++◌, ◌+◌, ℕ, OnOk};
ghost use Rattle.serde_json.specs.View.{view, items_view};
ghost use Rattle.csvw_meta_core.specs.Pointer.{text_of, item_at};
ghost use Rattle.csvw_meta_core.specs.Read.{each, each_numbered};

use crate::finder::Finder;
use csvw_meta_core::{MetaFault, NumberedReader, Part};
use serde_json::Value;
use std::alloc::AllocError;

/// A kind of value for the items of an array, by their number, all of whose faults can be found. The number has no effect
/// on the faults.
pub trait NumberedFinder: NumberedReader {
    /// Adds the faults of the item at the end of the list, in the order of the definition `reads`. It returns
    /// `AllocError` if there is no memory for them.
    fn find(&self, part: &Part, faults: &mut Vec<MetaFault>) -> Result<(), AllocError>
        ensures { (number : ℕ) → OnOk result (faults.new.items ≡ faults.old.items
            ++ (Self.reads self.now number (text_of part.now.at) (view part.now.value.now)).faults) };
}

/// Adds the faults of each item of the array that the part is, in order. It returns `AllocError` if there is no memory
/// for them.
pub fn find_each<R: Finder>(
    part: &Part,
    reader: &R,
    items: &[Value],
    faults: &mut Vec<MetaFault>,
) -> Result<(), AllocError>
    ensures { OnOk result (faults.new.items ≡ faults.old.items
        ++ (each (R.reads reader.now) (text_of part.now.at) 0 (items_view items.now)).faults) }
{
    for (i, item) in items.iter().enumerate() {
        find_item(part, reader, i, item, faults)?;
    }
    Ok(())
}

fn find_item<R: Finder>(
    part: &Part,
    reader: &R,
    index: usize,
    item: &Value,
    faults: &mut Vec<MetaFault>,
) -> Result<(), AllocError>
    ensures { OnOk result (faults.new.items ≡ faults.old.items
        ++ (R.reads reader.now (item_at (text_of part.now.at) index) (view item.now)).faults) }
{
    reader.find(&part.item(index, item), faults)
}

/// Adds the faults of each item of the array that the part is, in order, for a kind by numbers. It returns `AllocError`
/// if there is no memory for them.
pub fn find_each_numbered<R: NumberedFinder>(
    part: &Part,
    reader: &R,
    items: &[Value],
    faults: &mut Vec<MetaFault>,
) -> Result<(), AllocError>
    ensures { OnOk result (faults.new.items ≡ faults.old.items
        ++ (each_numbered (R.reads reader.now) (text_of part.now.at) 0 (items_view items.now)).faults) }
{
    for (i, item) in items.iter().enumerate() {
        find_numbered(part, reader, i, item, faults)?;
    }
    Ok(())
}

fn find_numbered<R: NumberedFinder>(
    part: &Part,
    reader: &R,
    index: usize,
    item: &Value,
    faults: &mut Vec<MetaFault>,
) -> Result<(), AllocError>
    ensures { OnOk result (faults.new.items ≡ faults.old.items
        ++ (R.reads reader.now (index + 1) (item_at (text_of part.now.at) index) (view item.now)).faults) }
{
    reader.find(&part.item(index, item), faults)
}
