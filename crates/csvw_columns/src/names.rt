//! The names of columns.
ghost use Rattle.std.specs.Prelude.{◌≡◌, ◌↔◌, IfOk, IsTrue, map};
ghost use Rattle.std.specs.BTreeSet.{IsFromIterResult};
ghost use Rattle.std.specs.Cmp.Lexicographic.{slice_cmp};
ghost use Rattle.std.specs.Ordering.{nat_cmp};
ghost use Rattle.csvw_columns.specs.Distinct.{AllDistinct, AreNamedApart};

use csvw_columns_core::Column;
use csvw_description::Name;
use std::alloc::{AllocError, Global};
use std::collections::BTreeSet;

/// Returns copies of the names of columns.
fn names_of(alloc: Global, columns: &[Column]) -> Result<Vec<Name>, AllocError>
    ensures { IfOk result (λ v. v.items ≡ map (λ c. c.name) columns.now) }
{
    let mut names = Vec::new(alloc);
    for column in columns {
        let name = column.name.clone(alloc)?;
        names.push(name)?;
    }
    Ok(names)
}

/// Returns the set of names.
fn set_of(alloc: Global, names: Vec<Name>) -> Result<BTreeSet<Name>, AllocError>
    ensures { IfOk result (IsFromIterResult (slice_cmp nat_cmp) names.items) }
{
    names.into_iter().collect(alloc)
}

/// Whether no two names are equal.
#[tactic(auto, using(crate::proofs::DistinctLemmas::tells))]
pub(crate) fn are_distinct(alloc: Global, names: Vec<Name>) -> Result<bool, AllocError>
    ensures { IfOk result (λ b. IsTrue b ↔ AllDistinct names.items) }
{
    let count = names.len();
    let set = set_of(alloc, names)?;
    Ok(set.len() == count)
}

/// Whether no two columns have the same name.
pub(crate) fn are_named_apart(alloc: Global, columns: &[Column]) -> Result<bool, AllocError>
    ensures { IfOk result (λ b. IsTrue b ↔ AreNamedApart columns.now) }
{
    let names = names_of(alloc, columns)?;
    are_distinct(alloc, names)
}
