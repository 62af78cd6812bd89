//! The faults of the document within its context: those of its parts, and those of what its keys name (Metadata Vocabulary
//! for Tabular Data, section 5).
ghost use Rattle.std.specs.Prelude.{◌≡◌, ◌++◌, ◌||◌, IfOk, OnOk, codes, is_some, length, map, not};
ghost use Rattle.std.specs.List.{list_any};
ghost use Rattle.serde_json.specs.Find.{get};
ghost use Rattle.serde_json.specs.View.{view};
ghost use Rattle.csvw_meta_core.specs.Pointer.{below as further_below, text_of};
ghost use Rattle.csvw_meta_core.specs.Rules.{is_at};
ghost use Rattle.csvw_meta.specs.Described.{parts, within};
ghost use Rattle.csvw_meta.specs.References.{reference_faults, table_at};
ghost use Rattle.csvw_meta_faults.specs.SeenGroup.{as_group};
ghost use Rattle.csvw_meta_faults.specs.Seen.{as_table};
ghost use Rattle.csvw_meta_faults.specs.Targets.{faults_of_group, seen_targets};

use crate::add_both::add_both;
use crate::group::find_parts;
use crate::hidden_names::hides_names;
use crate::marks::Marks;
use crate::references::{OwnNames, Scene, find_in_schema, find_in_tables};
use crate::seen::GroupSeen;
use crate::seen_group::parts_seen;
use crate::targets::{InGroup, TargetSeen, names_of, targets_seen};
use csvw_meta_core::{Context, MetaFault, Part};
use csvw_meta_faults_core::below;
use std::alloc::{AllocError, Global};

/// Adds the faults of what the keys of the group's schema name, and then those of each table's own schema.
#[tactic(auto, unfolding(crate::specs::Targets::faults_of_group))]
fn find_in_group(
    scene: &Scene,
    group: &GroupSeen,
    faults: &mut Vec<MetaFault>,
) -> Result<(), AllocError>
    requires { length scene.now.targets.now ≡ length group.now.tables }
    ensures { OnOk result (faults.new.items ≡ faults.old.items ++ faults_of_group scene.now group.now) }
{
    let own = OwnNames {
        names: scene.group_names,
        known: !scene.group_hidden,
    };
    find_in_schema(scene, own, &group.keys, faults)?;
    find_in_tables(scene, group.tables.as_slice(), faults)
}

/// Returns whether a fault hides the URL of one of these tables.
fn hides_url(targets: &[TargetSeen]) -> bool
    ensures { result ≡ list_any (λ t. t.url_hidden) targets.now }
{
    targets.iter().any(|target| target.url_hidden)
}

/// Returns whether a fault hides the `@id` of the schema of one of these tables.
fn hides_id(targets: &[TargetSeen]) -> bool
    ensures { result ≡ list_any (λ t. t.id_hidden) targets.now }
{
    targets.iter().any(|target| target.id_hidden)
}

/// Returns whether a fault hides all tables of the group at this pointer.
fn hides_tables(alloc: Global, marks: &Marks, at: &str) -> Result<bool, AllocError>
    ensures { IfOk result (λ b. b ≡ list_any (is_at (further_below at.now (codes "tables"))) marks.now.faults.now) }
{
    let tables = below(alloc, at, "tables")?;
    Ok(marks.is_at(tables.as_str()))
}

/// Returns whether the URLs of all tables of the group at this pointer could be read.
fn urls_known(
    alloc: Global,
    marks: &Marks,
    at: &str,
    targets: &[TargetSeen],
) -> Result<bool, AllocError>
    ensures { IfOk result (λ b. b ≡ not (list_any (is_at (further_below at.now (codes "tables"))) marks.now.faults.now
        || list_any (λ t. t.url_hidden) targets.now)) }
{
    let hidden = hides_tables(alloc, marks, at)?;
    let url_hidden = hides_url(targets);
    Ok(!(hidden || url_hidden))
}

/// Returns whether the `@id`s of the schemas of all tables of the group at this pointer could be read.
fn ids_known(
    alloc: Global,
    marks: &Marks,
    at: &str,
    targets: &[TargetSeen],
) -> Result<bool, AllocError>
    ensures { IfOk result (λ b. b ≡ not (list_any (is_at (further_below at.now (codes "tables"))) marks.now.faults.now
        || list_any (λ t. t.id_hidden) targets.now)) }
{
    let hidden = hides_tables(alloc, marks, at)?;
    let id_hidden = hides_id(targets);
    Ok(!(hidden || id_hidden))
}

/// Adds the faults of what the keys of all schemas of the group name, if its tables are seen as these.
fn find_to_targets(
    part: &Part,
    marks: &Marks,
    targets: &[TargetSeen],
    group: &GroupSeen,
    faults: &mut Vec<MetaFault>,
) -> Result<(), AllocError>
    requires { targets.now ≡ seen_targets (table_at (is_some (get (codes "tables") (view part.now.value.now))) (text_of part.now.at))
        (text_of part.now.at) group.now.keys marks.now.faults.now 0 (map as_table group.now.tables) }
    ensures { OnOk result (faults.new.items ≡ faults.old.items ++ reference_faults
        (table_at (is_some (get (codes "tables") (view part.now.value.now))) (text_of part.now.at)) (text_of part.now.at)
        marks.now.faults.now (as_group group.now)) }
{
    let at = part.at.text(part.alloc)?;
    let group_hidden = hides_names(part.alloc, marks, at.as_str(), &group.schema)?;
    let urls_known = urls_known(part.alloc, marks, at.as_str(), targets)?;
    let ids_known = ids_known(part.alloc, marks, at.as_str(), targets)?;
    let group_names = names_of(part.alloc, &group.schema)?;
    let scene = Scene {
        alloc: part.alloc,
        marks,
        targets,
        group_names: &group_names,
        group_hidden,
        urls_known,
        ids_known,
    };
    find_in_group(&scene, group, faults)
}

/// Adds the faults of what the keys of all schemas of the group name. `own` has the faults of its parts.
fn find_references(
    part: &Part,
    own: &[MetaFault],
    group: &GroupSeen,
    faults: &mut Vec<MetaFault>,
) -> Result<(), AllocError>
    ensures { OnOk result (faults.new.items ≡ faults.old.items ++ reference_faults
        (table_at (is_some (get (codes "tables") (view part.now.value.now))) (text_of part.now.at)) (text_of part.now.at) own.now (as_group group.now)) }
{
    let marks = Marks::of(part.alloc, own)?;
    let at = part.at.text(part.alloc)?;
    let in_group = InGroup {
        marks: &marks,
        at: at.as_str(),
        keys: &group.keys,
    };
    let targets = targets_seen(part, &in_group, group.tables.as_slice())?;
    find_to_targets(part, &marks, targets.as_slice(), group, faults)
}

/// Adds the faults of what the keys of the document's schemas name. `own` has the faults of its parts.
fn find_together(
    context: &Context,
    part: &Part,
    own: &[MetaFault],
    faults: &mut Vec<MetaFault>,
) -> Result<(), AllocError>
    ensures { OnOk result (faults.new.items ≡ faults.old.items ++ reference_faults
        (table_at (is_some (get (codes "tables") (view part.now.value.now))) (text_of part.now.at)) (text_of part.now.at) own.now
        (parts context.now (text_of part.now.at) (view part.now.value.now)).value) }
{
    let group = parts_seen(context, part)?;
    let found = find_references(part, own, &group, faults);
    drop(group);
    found
}

/// Adds the faults of the document within its context. It returns `AllocError` if there is no memory for them.
pub fn find_within(
    context: &Context,
    part: &Part,
    faults: &mut Vec<MetaFault>,
) -> Result<(), AllocError>
    ensures { OnOk result (faults.new.items ≡ faults.old.items ++ (within context.now (text_of part.now.at) (view part.now.value.now)).faults) }
{
    let mut own = Vec::new(part.alloc);
    find_parts(context, part, &mut own)?;
    let mut together = Vec::new(part.alloc);
    find_together(context, part, own.as_slice(), &mut together)?;
    add_both(own, together, faults)
}
