//! Two results together.
ghost use Rattle.std.specs.Prelude.{◌≡◌, Ok, IfOk};

use crate::seq::Copied;
use std::alloc::{AllocError, Global};

/// Returns both values, or `AllocError` if one of the results is an `AllocError`.
///
/// Each early return drops the values that exist by then, part by part, in code of its own. Two large values that are
/// taken out together have no early return between them.
pub fn both<A: Drop, B: Drop>(
    first: Result<A, AllocError>,
    second: Result<B, AllocError>,
) -> Result<(A, B), AllocError>
    ensures { IfOk result (λ both. (first ≡ Ok both.0) × (second ≡ Ok both.1)) }
{
    match first {
        Ok(first) => match second {
            Ok(second) => Ok((first, second)),
            Err(error) => Err(error),
        },
        Err(error) => Err(error),
    }
}

/// Returns equal values of both, or `AllocError` if memory runs out.
pub fn both_copied<A: Copied + Drop, B: Copied + Drop>(
    alloc: Global,
    first: &A,
    second: &B,
) -> Result<(A, B), AllocError>
    ensures { IfOk result (λ both. (both.0 ≡ first.now) × (both.1 ≡ second.now)) }
{
    both(first.copied(alloc), second.copied(alloc))
}
