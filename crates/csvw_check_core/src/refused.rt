//! A document that is refused, with all of its faults.

use crate::document::{Told, place_of_fault, tell_fault};
use crate::unknown::show_unknown;
use csvw_hints::Group;
use csvw_meta::document::MAX_DOCUMENT;
use csvw_meta::{MetaCode, MetaFault};
use csvw_page::{MoreShown, Page};
use csvw_reread::Shown;
use std::alloc::{AllocError, Global};

/// How many faults of one code are shown, unless all are.
const FIRST: u64 = 20;

/// How many faults have their lines. To find one takes a walk through the document.
const PLACED: usize = 1_000;

/// What is told if the faults aren't listed. A document that is refused has at least one.
const NOT_LISTED: &str =
    "    other faults aren't listed: the names in the document are too long, or memory is short\n";

/// A document that is refused.
#[derive(Clone, Copy)]
pub struct Refused<'a> {
    /// The bytes of the document.
    pub bytes: &'a [u8],
    /// The fault by which it is refused.
    pub fault: &'a MetaFault,
    /// All of its faults. There are none if they may take too much memory.
    pub faults: &'a [MetaFault],
    /// How many of them are shown.
    pub shown: Shown,
}

/// Which faults of a document are shown.
#[derive(Drop)]
struct Chosen {
    /// The places of the faults in the document, each with the index of its fault.
    places: Vec<((usize, usize), usize)>,
    /// The indices of the faults whose lines aren't looked for.
    others: Vec<usize>,
    /// How many faults there are of each code.
    counts: Vec<(MetaCode, u64)>,
}

/// Counts one more fault of a code. Returns how many there are of it now.
fn count(counts: &mut Vec<(MetaCode, u64)>, code: MetaCode) -> Result<u64, AllocError> {
    for (counted, times) in counts.iter_mut() {
        if *counted == code {
            *times = times.saturating_add(1);
            return Ok(*times);
        }
    }
    counts.push((code, 1))?;
    Ok(1)
}

/// Chooses a fault, if it is shown.
fn choose(
    chosen: &mut Chosen,
    alloc: Global,
    refused: &Refused<'_>,
    index: usize,
    fault: &MetaFault,
) -> Result<(), AllocError> {
    let times = count(&mut chosen.counts, fault.code)?;
    if refused.shown == Shown::First && times > FIRST {
        return Ok(());
    }
    if chosen.places.len() < PLACED {
        let place = place_of_fault(alloc, refused.bytes, fault);
        chosen.places.push((place, index))?;
    } else {
        chosen.others.push(index)?;
    }
    Ok(())
}

/// Returns which faults are shown. Those with places are in the order of the places.
fn choose_all(alloc: Global, refused: &Refused<'_>) -> Result<Chosen, AllocError> {
    let mut chosen = Chosen {
        places: Vec::new(alloc),
        others: Vec::new(alloc),
        counts: Vec::new(alloc),
    };
    for (i, fault) in refused.faults.iter().enumerate() {
        choose(&mut chosen, alloc, refused, i, fault)?;
    }
    chosen.places.sort()?;
    Ok(chosen)
}

/// Adds how many faults of each code are not shown.
fn tell_more(page: &mut Page, path: &str, counts: &[(MetaCode, u64)]) -> Result<(), AllocError> {
    for (code, times) in counts {
        if *times > FIRST {
            page.more_stops(&MoreShown {
                path,
                name: code.name(),
                times: times.saturating_sub(FIRST),
            })?;
        }
    }
    Ok(())
}

/// Returns a fault of the list as it is shown.
fn listed(fault: &MetaFault, place: (usize, usize)) -> Told<'_> {
    Told {
        fault,
        place,
        note: "",
    }
}

/// Adds the fault by which the document is refused, if the faults aren't listed.
fn tell_first(page: &mut Page, group: &Group<'_>, refused: &Refused<'_>) -> Result<(), AllocError> {
    let told = Told {
        fault: refused.fault,
        place: place_of_fault(page.alloc, refused.bytes, refused.fault),
        note: NOT_LISTED,
    };
    tell_fault(page, group, refused.bytes, told)
}

/// Adds the faults that are chosen.
fn tell_chosen(
    page: &mut Page,
    group: &Group<'_>,
    refused: &Refused<'_>,
    chosen: &Chosen,
) -> Result<(), AllocError> {
    for (place, index) in chosen.places.iter() {
        if let Some(fault) = refused.faults.get(*index) {
            tell_fault(page, group, refused.bytes, listed(fault, *place))?;
        }
    }
    for index in chosen.others.iter() {
        if let Some(fault) = refused.faults.get(*index) {
            tell_fault(page, group, refused.bytes, listed(fault, (0, 0)))?;
        }
    }
    Ok(())
}

/// Adds the properties of a document that are ignored, if the document is JSON and was read whole.
fn tell_unknown(
    page: &mut Page,
    group: &Group<'_>,
    refused: &Refused<'_>,
) -> Result<(), AllocError> {
    let fault = refused.fault;
    let is_json = fault.code != MetaCode::NotJson || !fault.pointer.is_empty();
    if !is_json || refused.bytes.len() > MAX_DOCUMENT {
        return Ok(());
    }
    show_unknown(page, group.meta, refused.bytes)?;
    Ok(())
}

/// Adds the properties of a document that are ignored, and its faults, in the order of their places. Unless all are shown,
/// it adds the first 20 faults of each code and counts the others.
pub(crate) fn tell_all(
    page: &mut Page,
    group: &Group<'_>,
    refused: &Refused<'_>,
) -> Result<(), AllocError> {
    tell_unknown(page, group, refused)?;
    if refused.faults.is_empty() {
        return tell_first(page, group, refused);
    }
    let chosen = choose_all(page.alloc, refused)?;
    tell_chosen(page, group, refused, &chosen)?;
    match refused.shown {
        Shown::First => tell_more(page, group.meta, chosen.counts.as_slice()),
        Shown::All => Ok(()),
    }
}
