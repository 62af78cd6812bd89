//! The faults that are in each of several lists (Metadata Vocabulary for Tabular Data, section 5.11.2).
ghost use Rattle.std.specs.Prelude.{◌≡◌, ◌++◌, ◌∷◌, [], IfOk, OnOk, if◌then◌else◌};
ghost use Rattle.std.specs.List.{list_all};
ghost use Rattle.csvw_meta_datatype.specs.Whichever.{common, is_among, is_same_code, of_any};

use csvw_meta_core::{MetaCode, MetaFault};
use csvw_text::Seq;
use std::alloc::{AllocError, Global};

fn is_same_code(code: MetaCode, other: MetaCode) -> bool
    ensures { result ≡ is_same_code code other }
{
    code == other
}

fn is_among(faults: &[MetaFault], fault: &MetaFault) -> bool
    ensures { result ≡ is_among faults.now fault.now }
{
    faults.iter().any(|other| {
        is_same_code(other.code, fault.code) && other.pointer.as_str() == fault.pointer.as_str()
    })
}

fn is_in_each(lists: &[Seq<MetaFault>], fault: &MetaFault) -> bool
    ensures { result ≡ list_all (λ other. is_among other fault.now) lists.now }
{
    lists.iter().all(|list| is_among(list.as_slice(), fault))
}

/// Adds a copy of a fault, if it is to be kept.
fn keep_if(
    alloc: Global,
    kept: &mut Vec<MetaFault>,
    keep: bool,
    fault: &MetaFault,
) -> Result<(), AllocError>
    ensures { OnOk result (kept.new.items ≡ kept.old.items ++ (if keep then fault.now ∷ [] else [])) }
{
    if keep {
        kept.push(fault.clone(alloc)?)?;
    }
    Ok(())
}

/// Returns the faults that are in each of the lists.
fn common(alloc: Global, lists: &[Seq<MetaFault>]) -> Result<Seq<MetaFault>, AllocError>
    ensures { IfOk result (λ fs. fs ≡ common lists.now) }
{
    let mut kept = Vec::new(alloc);
    let Some((first, others)) = lists.split_first() else {
        return Ok(Seq::of(kept));
    };
    for fault in first.as_slice() {
        let keep = is_in_each(others, fault);
        keep_if(alloc, &mut kept, keep, fault)?;
    }
    Ok(Seq::of(kept))
}

/// Returns the faults that are in each of the lists, whichever datatype has them. It returns `AllocError` if there is no
/// memory for them.
pub fn of_any(alloc: Global, lists: &[Seq<MetaFault>]) -> Result<Seq<MetaFault>, AllocError>
    ensures { IfOk result (λ fs. fs ≡ of_any lists.now) }
{
    let mut kept = Vec::new(alloc);
    let common = common(alloc, lists)?;
    for fault in common.as_slice() {
        let keep = !is_same_code(fault.code, MetaCode::BadDatatype);
        keep_if(alloc, &mut kept, keep, fault)?;
    }
    Ok(Seq::of(kept))
}
