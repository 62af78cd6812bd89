//! Adding the faults of parts, and then those of all of them together.
ghost use Rattle.std.specs.Prelude.{◌≡◌, ◌++◌, OnOk};

use csvw_meta_core::MetaFault;
use std::alloc::AllocError;

/// Adds the faults of each part by itself, and then those of all parts together. It returns `AllocError` if there is no
/// memory for them.
pub(crate) fn add_both(
    mut own: Vec<MetaFault>,
    mut together: Vec<MetaFault>,
    faults: &mut Vec<MetaFault>,
) -> Result<(), AllocError>
    ensures { OnOk result (faults.new.items ≡ faults.old.items ++ (own.items ++ together.items)) }
{
    faults.append(&mut own)?;
    faults.append(&mut together)?;
    Ok(())
}
