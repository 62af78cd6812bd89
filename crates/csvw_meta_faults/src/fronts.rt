//! The fronts of a pointer: the pointers of the values that have the value in them.
ghost use Rattle.std.specs.Prelude.{◌≡◌, ◌||◌, List, OnOk, bytes_eq, ℕ};
ghost use Rattle.std.specs.BTreeSet.{contains_text};
ghost use Rattle.csvw_meta_faults.specs.Fronts.{is_front};

use std::alloc::{AllocError, Global};
use std::collections::BTreeSet;

/// Adds a copy of a text to a set. It returns `AllocError` if there is no memory for it.
pub(crate) fn add_text(
    alloc: Global,
    set: &mut BTreeSet<String>,
    text: &str,
) -> Result<(), AllocError>
    ensures { OnOk result ((p : List ℕ) → contains_text set.new p ≡ (bytes_eq text.now p || contains_text set.old p)) }
{
    let copy = String::from_str(alloc, text)?;
    set.insert(copy)?;
    Ok(())
}

/// Adds a pointer and its fronts to a set. It returns `AllocError` if there is no memory for them.
pub(crate) fn add_fronts(
    alloc: Global,
    set: &mut BTreeSet<String>,
    pointer: &str,
) -> Result<(), AllocError>
    ensures { OnOk result ((p : List ℕ) → contains_text set.new p ≡ (is_front p pointer.now || contains_text set.old p)) }
{
    add_text(alloc, set, pointer)?;
    let Some(k) = pointer.rfind('/') else {
        return Ok(());
    };
    add_fronts(alloc, set, &pointer[..k])?;
    Ok(())
}
