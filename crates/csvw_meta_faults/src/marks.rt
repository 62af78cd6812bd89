//! Which values the faults of a part hide.
ghost use Rattle.std.specs.Prelude.{◌≡◌, ◌||◌, IfOk, List, OnOk, ℕ};
ghost use Rattle.std.specs.BTreeSet.{contains_text};
ghost use Rattle.std.specs.List.{list_any};
ghost use Rattle.csvw_meta_core.specs.Rules.{could_read, hides_property, is_at, is_of_several, is_within};

use crate::fronts::{add_fronts, add_text};
use csvw_meta_core::{MetaCode, MetaFault};
use csvw_meta_faults_core::below;
use std::alloc::{AllocError, Global};
use std::collections::BTreeSet;

/// The faults of a part, as those that hide values of it from rules over several values. The pointers of the faults are in
/// sets, since there may be many.
#[derive(Drop)]
pub(crate) struct Marks<'a> {
    /// The faults.
    pub(crate) faults: &'a [MetaFault],
    /// The pointers of those that are of one value.
    places: BTreeSet<String>,
    /// These pointers and their fronts.
    fronts: BTreeSet<String>,
    /// The first set has the values with faults.
    ghost are_places: { (p : List ℕ) → contains_text places p ≡ list_any (is_at p) faults.now },
    /// The second set has the values with faults in them.
    ghost are_fronts: { (p : List ℕ) → contains_text fronts p ≡ list_any (is_within p) faults.now },
}

/// Returns whether a fault of that code is one of several values together, or of their number.
#[tactic(auto, unfolding(csvw_meta_core::specs::Rules::is_of_several))]
fn is_of_several(code: MetaCode) -> bool
    ensures { result ≡ is_of_several code }
{
    matches!(
        code,
        MetaCode::DuplicateName
            | MetaCode::VirtualOrder
            | MetaCode::DuplicateTable
            | MetaCode::TooMany
    )
}

/// Adds the pointer of a fault to a set, if it is of one value.
#[tactic(auto, unfolding(csvw_meta_core::specs::Rules::is_at))]
fn add_place(
    alloc: Global,
    places: &mut BTreeSet<String>,
    fault: &MetaFault,
) -> Result<(), AllocError>
    ensures { OnOk result ((p : List ℕ) → contains_text places.new p ≡ (is_at p fault.now || contains_text places.old p)) }
{
    if is_of_several(fault.code) {
        return Ok(());
    }
    add_text(alloc, places, fault.pointer.as_str())
}

/// Adds the pointer of a fault and its fronts to a set, if it is of one value.
#[tactic(auto, unfolding(csvw_meta_core::specs::Rules::is_within))]
fn add_place_fronts(
    alloc: Global,
    fronts: &mut BTreeSet<String>,
    fault: &MetaFault,
) -> Result<(), AllocError>
    ensures { OnOk result ((p : List ℕ) → contains_text fronts.new p ≡ (is_within p fault.now || contains_text fronts.old p)) }
{
    if is_of_several(fault.code) {
        return Ok(());
    }
    add_fronts(alloc, fronts, fault.pointer.as_str())
}

/// Returns the pointers of the faults that are of one value.
fn places_of(alloc: Global, faults: &[MetaFault]) -> Result<BTreeSet<String>, AllocError>
    ensures { IfOk result (λ s. (p : List ℕ) → contains_text s p ≡ list_any (is_at p) faults.now) }
{
    let mut places = BTreeSet::new(alloc);
    for fault in faults {
        add_place(alloc, &mut places, fault)?;
    }
    Ok(places)
}

/// Returns these pointers with their fronts.
fn fronts_of(alloc: Global, faults: &[MetaFault]) -> Result<BTreeSet<String>, AllocError>
    ensures { IfOk result (λ s. (p : List ℕ) → contains_text s p ≡ list_any (is_within p) faults.now) }
{
    let mut fronts = BTreeSet::new(alloc);
    for fault in faults {
        add_place_fronts(alloc, &mut fronts, fault)?;
    }
    Ok(fronts)
}

impl<'a> Marks<'a> {
    /// Returns the marks of faults, or `AllocError` if there is no memory for them.
    pub(crate) fn of(alloc: Global, faults: &'a [MetaFault]) -> Result<Marks<'a>, AllocError>
        ensures { IfOk result (λ m. m.faults.now ≡ faults.now) }
    {
        let places = places_of(alloc, faults)?;
        let fronts = fronts_of(alloc, faults)?;
        Ok(Marks {
            faults,
            places,
            fronts,
        })
    }

    /// Returns whether a fault is at the value of this pointer.
    pub(crate) fn is_at(&self, at: &str) -> bool
        ensures { result ≡ list_any (is_at at.now) self.now.faults.now }
    {
        self.places.contains(at)
    }

    /// Returns whether a fault is at the value of this pointer, or in it.
    pub(crate) fn is_within(&self, at: &str) -> bool
        ensures { result ≡ list_any (is_within at.now) self.now.faults.now }
    {
        self.fronts.contains(at)
    }

    /// Returns whether the value of this pointer could be read.
    pub(crate) fn could_read(&self, at: &str) -> bool
        ensures { result ≡ could_read self.now.faults.now at.now }
    {
        !self.is_within(at)
    }

    /// Returns whether a fault hides the property of that name of the value of this pointer. It returns `AllocError` if
    /// there is no memory for a pointer.
    pub(crate) fn hides_property(
        &self,
        alloc: Global,
        at: &str,
        name: &str,
    ) -> Result<bool, AllocError>
        ensures { IfOk result (λ b. b ≡ list_any (hides_property at.now name.now) self.now.faults.now) }
    {
        if self.is_at(at) {
            return Ok(true);
        }
        let member = below(alloc, at, name)?;
        Ok(self.is_within(member.as_str()))
    }
}
