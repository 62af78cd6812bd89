//! The faults at items of an array.
ghost use Rattle.std.specs.Prelude.{◌≡◌, map, IfOk};
ghost use Rattle.csvw_meta_core.specs.Pointer.{below, item_at, text_of};

use csvw_meta_core::{MetaCode, MetaFault, Part};
use csvw_text::{Seq, Text};
use std::alloc::AllocError;

fn item_pointer(part: &Part, index: usize) -> Result<Text, AllocError>
    ensures { IfOk result (λ t. t ≡ item_at (text_of part.now.at) index) }
{
    part.item(index, part.value).at.text(part.alloc)
}

fn member_pointer(part: &Part, index: usize, name: &str) -> Result<Text, AllocError>
    ensures { IfOk result (λ t. t ≡ below (item_at (text_of part.now.at) index) name.now) }
{
    let item = part.item(index, part.value);
    item.member(name, part.value).at.text(part.alloc)
}

/// Returns the fault of that code at each of these items, or `AllocError` if there is no memory for them.
pub(crate) fn faults_at_items(
    part: &Part,
    code: MetaCode,
    indices: &[usize],
) -> Result<Seq<MetaFault>, AllocError>
    ensures { IfOk result (λ fs. fs ≡ map (λ i. record { code = code; pointer = item_at (text_of part.now.at) i }) indices.now) }
{
    let mut faults = Vec::new(part.alloc);
    for index in indices {
        let pointer = item_pointer(part, *index)?;
        faults.push(MetaFault { code, pointer })?;
    }
    Ok(Seq::of(faults))
}

/// Returns the fault of that code at the property of that name of each of these items. It returns `AllocError` if there is
/// no memory for them.
pub(crate) fn faults_at_members(
    part: &Part,
    code: MetaCode,
    name: &str,
    indices: &[usize],
) -> Result<Seq<MetaFault>, AllocError>
    ensures { IfOk result (λ fs. fs ≡ map (λ i. record { code = code; pointer = below (item_at (text_of part.now.at) i) name.now }) indices.now) }
{
    let mut faults = Vec::new(part.alloc);
    for index in indices {
        let pointer = member_pointer(part, *index, name)?;
        faults.push(MetaFault { code, pointer })?;
    }
    Ok(Seq::of(faults))
}
