//! One list from two lists.
ghost use Rattle.std.specs.Prelude.{◌≡◌, ◌++◌, IfOk};

use csvw_text::Seq;
use std::alloc::AllocError;

/// Returns the first list followed by the second, or `AllocError` if there is no memory for one list of both.
pub fn joined<T: Drop>(first: Seq<T>, then: Seq<T>) -> Result<Seq<T>, AllocError>
    ensures { IfOk result (λ all. all ≡ first ++ then) }
{
    let mut all = first.into_vec();
    all.append(&mut then.into_vec())?;
    Ok(Seq::of(all))
}
