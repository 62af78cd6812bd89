//! Adding to a list under a condition.
ghost use Rattle.std.specs.Prelude.{◌≡◌, ◌++◌, ◌∷◌, [], OnOk, if◌then◌else◌};

use std::alloc::AllocError;

/// Adds an item at the end of a list, if it is to be kept. It returns `AllocError` if there is no memory for it.
pub(crate) fn push_if<T: Drop>(list: &mut Vec<T>, keep: bool, item: T) -> Result<(), AllocError>
    ensures { OnOk result (list.new.items ≡ list.old.items ++ (if keep then item ∷ [] else [])) }
{
    if keep {
        list.push(item)?;
    }
    Ok(())
}
