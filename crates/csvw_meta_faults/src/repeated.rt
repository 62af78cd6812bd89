//! Texts that equal an earlier text.
ghost use Rattle.std.specs.Prelude.{◌≡◌, ◌&&◌, ◌||◌, List, OnOk, ℕ, [], bytes_eq, false, length, map, IfOk, slice_index_or};
ghost use Rattle.std.specs.BTreeSet.{contains_text};
ghost use Rattle.csvw_meta_core.specs.declared.fault.MetaFault.{MetaFault};
ghost use Rattle.csvw_meta.specs.Repeated.{repeated};

use crate::fronts::add_text;
use crate::push_if::push_if;
use csvw_text::{Seq, Text};
use std::alloc::{AllocError, Global};
use std::collections::BTreeSet;

fn is_repeated(known: bool, earlier: &BTreeSet<String>, text: &str) -> bool
    ensures { result ≡ (known && contains_text earlier.now text.now) }
{
    known && earlier.contains(text)
}

/// Adds a text to a set, if it is to be kept.
fn add_if(
    alloc: Global,
    set: &mut BTreeSet<String>,
    keep: bool,
    text: &str,
) -> Result<(), AllocError>
    ensures { OnOk result ((p : List ℕ) → contains_text set.new p ≡ ((keep && bytes_eq text.now p) || contains_text set.old p)) }
{
    if keep {
        add_text(alloc, set, text)
    } else {
        Ok(())
    }
}

/// Returns the index of each text that equals an earlier one, if both are known. It returns `AllocError` if there is no
/// memory for them.
pub(crate) fn repeated_at(
    alloc: Global,
    known: &[bool],
    texts: &[Text],
) -> Result<Seq<usize>, AllocError>
    requires { length known.now ≡ length texts.now }
    ensures { (fault : ℕ → MetaFault) → IfOk result (λ s. map fault s ≡ repeated (λ i. slice_index_or known.now i false) fault [] 0 texts.now) }
{
    let mut found = Vec::new(alloc);
    let mut before = Vec::new(alloc);
    let mut earlier = BTreeSet::new(alloc);
    for (i, text) in texts.iter().enumerate() {
        let this = text.as_str();
        let repeats = is_repeated(known[i], &earlier, this);
        push_if(&mut found, repeats, i)?;
        push_if(&mut before, known[i], this)?;
        add_if(alloc, &mut earlier, known[i], this)?;
    }
    Ok(Seq::of(found))
}
