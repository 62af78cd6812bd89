//! The faults of arrays with a limited number of items.
ghost use Rattle.std.specs.Prelude.{◌≡◌, ◌++◌, OnOk};
ghost use Rattle.serde_json.specs.View.{items_view};
ghost use Rattle.csvw_meta_core.specs.Pointer.{text_of};
ghost use Rattle.csvw_meta_core.specs.Several.{count_faults, some_items};

use crate::each::{NumberedFinder, find_each_numbered};
use crate::finder::{Finder, add_fault, add_wrong};
use csvw_meta_core::{MetaCode, MetaFault, Part, Several};
use serde_json::Value;
use std::alloc::AllocError;

impl<R: NumberedFinder> Finder for Several<R> {
    fn find(&self, part: &Part, faults: &mut Vec<MetaFault>) -> Result<(), AllocError> {
        match part.value {
            Value::Array(items) => find_some_items(part, self, items.as_slice(), faults),
            _ => add_wrong(part, faults),
        }
    }
}

/// Adds the faults of each item of the array that the part is, and then that of their number. It returns `AllocError` if
/// there is no memory for them.
pub fn find_some_items<R: NumberedFinder>(
    part: &Part,
    several: &Several<R>,
    items: &[Value],
    faults: &mut Vec<MetaFault>,
) -> Result<(), AllocError>
    ensures { OnOk result (faults.new.items ≡ faults.old.items
        ++ (some_items several.now.least several.now.most (R.reads several.now.reader) (text_of part.now.at) (items_view items.now)).faults) }
{
    find_each_numbered(part, &several.reader, items, faults)?;
    find_count(part, several.least, several.most, items, faults)
}

#[tactic(auto, using(crate::proofs::EachLemmas::items_len_view))]
fn find_count(
    part: &Part,
    least: u32,
    most: u32,
    items: &[Value],
    faults: &mut Vec<MetaFault>,
) -> Result<(), AllocError>
    ensures { OnOk result (faults.new.items ≡ faults.old.items ++ count_faults least most (text_of part.now.at) (items_view items.now)) }
{
    if items.len() < least as usize {
        return add_fault(part, MetaCode::BadProperty, faults);
    }
    if items.len() > most as usize {
        return add_fault(part, MetaCode::TooMany, faults);
    }
    Ok(())
}
