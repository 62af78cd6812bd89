//! Pointers as texts.
ghost use Rattle.std.specs.Prelude.{◌≡◌, IfOk};
ghost use Rattle.csvw_meta_core.specs.Pointer.{below, item_at};

use csvw_meta_core::Pointer;
use csvw_text::Text;
use std::alloc::{AllocError, Global};

/// Returns the pointer of the member of that name, or `AllocError` if there is no memory.
pub fn below(alloc: Global, at: &str, name: &str) -> Result<Text, AllocError>
    ensures { IfOk result (λ t. t ≡ below at.now name.now) }
{
    let step = Pointer::Member(&Pointer::Root, name).text(alloc)?;
    let mut text = Text::copied(alloc, at)?;
    text.push_str(step.as_str())?;
    Ok(text)
}

/// Returns the pointer of the item of that index, from 0. It returns `AllocError` if there is no memory.
pub fn item_at(alloc: Global, at: &str, index: usize) -> Result<Text, AllocError>
    ensures { IfOk result (λ t. t ≡ item_at at.now index) }
{
    let step = Pointer::Item(&Pointer::Root, index).text(alloc)?;
    let mut text = Text::copied(alloc, at)?;
    text.push_str(step.as_str())?;
    Ok(text)
}
