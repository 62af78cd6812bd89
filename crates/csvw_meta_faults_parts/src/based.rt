//! The faults of the type of a datatype, with its format and its facets (Metadata Vocabulary for Tabular Data, section 5.11.2).
ghost use Rattle.std.specs.Prelude.{◌≡◌, ◌++◌, ◌∷◌, IfOk, OnOk, List, Option, ℕ, map};
ghost use Rattle.serde_json.specs.View.{view};
ghost use Rattle.csvw_fault.specs.declared.fault.Place.{Place as ThePlace};
ghost use Rattle.csvw_meta_core.specs.Pointer.{text_of};
ghost use Rattle.csvw_meta_datatype.specs.Names.{simples_of};
ghost use Rattle.csvw_meta_datatype.specs.Datatypes.{based, of_type};
ghost use Rattle.csvw_meta_faults_parts.specs.Leaves.{base_has_one};
ghost use Rattle.csvw_meta_datatype.specs.Whichever.{of_any};

use crate::facets::find_facets;
use crate::format::find_format;
use crate::leaf::OneFault;
use crate::simples::simples_of;
use crate::whichever::of_any;
use csvw_datatype::Simple;
use csvw_meta_core::{MetaFault, Part, Profile, Refusal};
use csvw_meta_datatype::base::BaseReader;
use csvw_text::Seq;
use std::alloc::AllocError;

impl OneFault for BaseReader {
    ghost at_most_one = { λ r. base_has_one r.profile };
}

/// Adds the faults of the format and the facets of the object, for the datatype of a type.
#[tactic(auto, unfolding(csvw_meta_datatype::specs::Datatypes::of_type))]
fn find_of_type(
    profile: Profile,
    simple: Simple,
    part: &Part,
    faults: &mut Vec<MetaFault>,
) -> Result<(), AllocError>
    ensures { (id : Option (List ℕ)) (place : ThePlace) → OnOk result (faults.new.items ≡ faults.old.items
        ++ (of_type profile id place (text_of part.now.at) (view part.now.value.now) simple).faults) }
{
    find_format(profile, simple, part, faults)?;
    find_facets(simple, part, faults)
}

/// Returns the faults of the format and the facets for the datatype of a type.
fn faults_of_type(
    profile: Profile,
    simple: Simple,
    part: &Part,
) -> Result<Seq<MetaFault>, AllocError>
    ensures { (id : Option (List ℕ)) (place : ThePlace) → IfOk result (λ fs. fs ≡
        (of_type profile id place (text_of part.now.at) (view part.now.value.now) simple).faults) }
{
    let mut faults = Vec::new(part.alloc);
    find_of_type(profile, simple, part, &mut faults)?;
    Ok(Seq::of(faults))
}

/// Returns the faults of the format and the facets for each of these types.
fn faults_of_each(
    profile: Profile,
    simples: &[Simple],
    part: &Part,
) -> Result<Seq<Seq<MetaFault>>, AllocError>
    ensures { (id : Option (List ℕ)) (place : ThePlace) → IfOk result (λ lists. lists
        ≡ map (λ s. (of_type profile id place (text_of part.now.at) (view part.now.value.now) s).faults) simples.now) }
{
    let mut lists = Vec::new(part.alloc);
    for simple in simples {
        let list = faults_of_type(profile, *simple, part)?;
        lists.push(list)?;
    }
    Ok(Seq::of(lists))
}

/// Returns the faults of the format and the facets that every datatype of the profile has.
fn faults_of_any(profile: Profile, part: &Part) -> Result<Seq<MetaFault>, AllocError>
    ensures { (id : Option (List ℕ)) (place : ThePlace) → IfOk result (λ fs. fs ≡ of_any
        (map (λ s. (of_type profile id place (text_of part.now.at) (view part.now.value.now) s).faults) (simples_of profile))) }
{
    let simples = simples_of(part.alloc, profile)?;
    let lists = faults_of_each(profile, simples.as_slice(), part)?;
    of_any(part.alloc, lists.as_slice())
}

/// Adds the fault of the type, and the faults of the format and the facets that every datatype of the profile has.
fn add_of_any(
    profile: Profile,
    fault: MetaFault,
    part: &Part,
    faults: &mut Vec<MetaFault>,
) -> Result<(), AllocError>
    ensures { (id : Option (List ℕ)) (place : ThePlace) → OnOk result (faults.new.items ≡ faults.old.items ++ fault ∷ of_any
        (map (λ s. (of_type profile id place (text_of part.now.at) (view part.now.value.now) s).faults) (simples_of profile))) }
{
    let shared = faults_of_any(profile, part)?;
    faults.push(fault)?;
    faults.append(&mut shared.into_vec())?;
    Ok(())
}

/// Adds the faults of the type of an object, and of its format and its facets. If the type can't be read, the format and
/// the facets have the faults that they have for every datatype of the profile.
pub fn find_based(
    profile: Profile,
    part: &Part,
    faults: &mut Vec<MetaFault>,
) -> Result<(), AllocError>
    ensures { (id : Option (List ℕ)) (place : ThePlace) → OnOk result (faults.new.items ≡ faults.old.items
        ++ (based profile id place (text_of part.now.at) (view part.now.value.now)).faults) }
{
    match part.property(&BaseReader { profile }, Simple::Text, "base") {
        Ok(simple) => find_of_type(profile, simple, part, faults),
        Err(Refusal::Memory) => Err(AllocError),
        Err(Refusal::Fault(fault)) => add_of_any(profile, fault, part, faults),
    }
}
