//! Fields by their bounds.
ghost use Rattle.std.specs.Prelude.{◌≡◌, ◌==◌};
ghost use Rattle.std.specs.List.{list_all};

use crate::bound::Bound;

/// Returns whether the texts of all fields are empty.
pub fn all_empty(bounds: &[Bound]) -> bool
    ensures { result ≡ list_all (λ b. b.from == b.to) bounds.now }
{
    bounds.iter().all(|bound| bound.from == bound.to)
}
