//! The fault of the number of items of an array (Metadata Vocabulary for Tabular Data, section 5.1.1).
ghost use Rattle.std.specs.Prelude.{◌≡◌, ◌++◌, OnOk};
ghost use Rattle.serde_json.specs.View.{items_view};
ghost use Rattle.csvw_meta_core.specs.Pointer.{text_of};
ghost use Rattle.csvw_meta_core.specs.Several.{count_faults};

use csvw_meta_core::{MetaCode, MetaFault, Part};
use csvw_meta_faults_core::add_fault;
use serde_json::Value;
use std::alloc::AllocError;

/// Adds the fault of an array with fewer items than the least number, or with more than the greatest number.
#[tactic(auto, using(crate::proofs::FaultsLemmas::items_len_view))]
pub fn find_count(
    part: &Part,
    least: u32,
    most: u32,
    items: &[Value],
    faults: &mut Vec<MetaFault>,
) -> Result<(), AllocError>
    ensures { OnOk result (faults.new.items ≡ faults.old.items ++ count_faults least most (text_of part.now.at) (items_view items.now)) }
{
    if items.len() < least as usize {
        return add_fault(part, MetaCode::BadProperty, faults);
    }
    if items.len() > most as usize {
        return add_fault(part, MetaCode::TooMany, faults);
    }
    Ok(())
}
