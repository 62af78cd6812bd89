//! The faults of what the keys and row titles of schemas name (Metadata Vocabulary for Tabular Data, sections 5.5, 5.5.1
//! and 5.5.2).
ghost use Rattle.std.specs.Prelude.{◌≡◌, ◌++◌, ◌∷◌, [], Bool, IfOk, List, MatchOption, None, OnOk, Some, flat_map, if◌then◌else◌, length, map, not, true, ℕ};
ghost use Rattle.std.specs.List.{list_any};
ghost use Rattle.csvw_meta.specs.References.{hides_side};
ghost use Rattle.csvw_meta_keys.specs.Naming.{bad_reference, faults_to, foreign_faults, has_schema, is_id, key_faults, name_fault, name_faults};
ghost use Rattle.csvw_meta_keys.specs.Naming.{named, own_faults, referred_faults, side_faults, sole_of, target_of, told_if};
ghost use Rattle.csvw_meta_faults.specs.Targets.{as_target, faults_of_keys, faults_of_tables, flag_of, known_in, named_known, names_known, sole_known};
ghost use Rattle.csvw_meta_faults.specs.Targets.{targets_in};

use crate::marks::Marks;
use crate::seen::TableSeen;
use crate::targets::TargetSeen;
use csvw_description::Nulls;
use csvw_meta_core::{MetaCode, MetaFault};
use csvw_meta_faults_core::below;
use csvw_meta_keys::{ForeignKeyFound, KeyName, KeysFound, NamedBy, NamedTable};
use csvw_text::Text;
use std::alloc::{AllocError, Global};

/// What the keys of all schemas of a group may name, and what of it could be read.
#[derive(Clone, Copy)]
pub(crate) struct Scene<'a> {
    /// The allocator for the faults.
    pub(crate) alloc: Global,
    /// The faults of the parts of the document.
    pub(crate) marks: &'a Marks<'a>,
    /// The tables.
    pub(crate) targets: &'a [TargetSeen],
    /// The names of the columns of the group's schema.
    pub(crate) group_names: &'a Nulls,
    /// Whether a fault hides a name of the group's schema.
    pub(crate) group_hidden: bool,
    /// Whether the URLs of all tables could be read.
    pub(crate) urls_known: bool,
    /// Whether the `@id`s of the schemas of all tables could be read.
    pub(crate) ids_known: bool,
}

/// The names of the columns of the schema that has the keys.
#[derive(Clone, Copy)]
pub(crate) struct OwnNames<'a> {
    /// The names, in a set of texts.
    pub(crate) names: &'a Nulls,
    /// Whether all of them could be read.
    pub(crate) known: bool,
}

/// Adds `BadReference` at this pointer.
fn add_reference(alloc: Global, at: &Text, faults: &mut Vec<MetaFault>) -> Result<(), AllocError>
    ensures { OnOk result (faults.new.items ≡ faults.old.items ++ bad_reference at.now ∷ []) }
{
    let pointer = at.clone(alloc)?;
    faults.push(MetaFault {
        code: MetaCode::BadReference,
        pointer,
    })?;
    Ok(())
}

/// Adds the fault of a name of a key that is not one of these names.
fn find_name(
    scene: &Scene,
    names: &Nulls,
    name: &KeyName,
    faults: &mut Vec<MetaFault>,
) -> Result<(), AllocError>
    ensures { OnOk result (faults.new.items ≡ faults.old.items ++ name_fault (known_in scene.now true) names.now name.now) }
{
    if !scene.marks.could_read(name.at.as_str()) {
        return Ok(());
    }
    if names.contains(name.name.as_str()) {
        return Ok(());
    }
    add_reference(scene.alloc, &name.at, faults)
}

/// Adds the faults of the names of a key that are not among these names.
fn find_names(
    scene: &Scene,
    names: &Nulls,
    key: &[KeyName],
    faults: &mut Vec<MetaFault>,
) -> Result<(), AllocError>
    ensures { OnOk result (faults.new.items ≡ faults.old.items ++ name_faults (known_in scene.now true) names.now key.now) }
{
    for name in key {
        find_name(scene, names, name, faults)?;
    }
    Ok(())
}

/// Adds the faults of the names of a key that are not columns of its own schema.
fn find_own_names(
    scene: &Scene,
    own: OwnNames,
    key: &[KeyName],
    faults: &mut Vec<MetaFault>,
) -> Result<(), AllocError>
    ensures { OnOk result (faults.new.items ≡ faults.old.items
        ++ told_if own.entry.known (name_faults (known_in scene.now own.entry.known) own.entry.names.now key.now)) }
{
    if own.known {
        find_names(scene, own.names, key, faults)
    } else {
        Ok(())
    }
}

/// Returns the first of the tables that has a URL.
fn target_of<'a>(targets: &'a [TargetSeen], url: &str) -> Option<&'a TargetSeen>
    ensures { (group : List (List ℕ)) → MatchOption result (target_of (map (as_target group) targets.now) url.now ≡ None)
        (λ t. target_of (map (as_target group) targets.now) url.now ≡ Some (as_target group t.now)) }
{
    for target in targets {
        if target.url.as_str() == url {
            return Some(target);
        }
    }
    None
}

/// Returns whether the schema of a table has this `@id`.
fn has_schema(target: &TargetSeen, id: &str) -> bool
    ensures { result ≡ is_id id.now target.now.id }
{
    match &target.id {
        Some(own) => own.as_str() == id,
        None => false,
    }
}

/// Returns whether the schema of one of the tables has this `@id`.
fn some_has_schema(targets: &[TargetSeen], id: &str) -> bool
    ensures { (group : List (List ℕ)) → result ≡ list_any (has_schema id.now) (map (as_target group) targets.now) }
{
    for target in targets {
        if has_schema(target, id) {
            return true;
        }
    }
    false
}

/// Returns the table whose schema has this `@id`, or `None` if there is none or more than one.
fn sole_of<'a>(targets: &'a [TargetSeen], id: &str) -> Option<&'a TargetSeen>
    ensures { (group : List (List ℕ)) → MatchOption result (sole_of (map (as_target group) targets.now) id.now ≡ None)
        (λ t. sole_of (map (as_target group) targets.now) id.now ≡ Some (as_target group t.now)) }
{
    for (i, target) in targets.iter().enumerate() {
        if has_schema(target, id) {
            return unless_repeated(target, &targets[i + 1..], id);
        }
    }
    None
}

/// Returns a table, or `None` if a later one has a schema with the same `@id`.
fn unless_repeated<'a>(
    target: &'a TargetSeen,
    later: &'a [TargetSeen],
    id: &str,
) -> Option<&'a TargetSeen>
    ensures { (group : List (List ℕ)) → MatchOption result
        ((if list_any (has_schema id.now) (map (as_target group) later.now) then None else Some (as_target group target.now)) ≡ None)
        (λ t. (if list_any (has_schema id.now) (map (as_target group) later.now) then None else Some (as_target group target.now))
        ≡ Some (as_target group t.now)) }
{
    if some_has_schema(later, id) {
        None
    } else {
        Some(target)
    }
}

/// Returns the table that a reference names, by its URL or by its schema.
fn named<'a>(targets: &'a [TargetSeen], table: &NamedTable) -> Option<&'a TargetSeen>
    ensures { (group : List (List ℕ)) → MatchOption result (named (map (as_target group) targets.now) table.now ≡ None)
        (λ t. named (map (as_target group) targets.now) table.now ≡ Some (as_target group t.now)) }
{
    match table.by {
        NamedBy::Url => target_of(targets, table.url.as_str()),
        NamedBy::Schema => sole_of(targets, table.url.as_str()),
    }
}

/// Returns whether a fault hides a name of a table.
fn hides_target(target: &TargetSeen, group_hidden: bool) -> bool
    ensures { result ≡ (if target.now.has_schema then target.now.names_hidden else group_hidden) }
{
    if target.has_schema {
        target.names_hidden
    } else {
        group_hidden
    }
}

/// Returns whether it is known which table is the first of a URL, and which names it has.
fn names_known(targets: &[TargetSeen], group_hidden: bool, url: &str) -> bool
    ensures { result ≡ names_known group_hidden targets.now url.now }
{
    for target in targets {
        if target.url_hidden {
            return false;
        }
        if target.url.as_str() == url {
            return !hides_target(target, group_hidden);
        }
    }
    true
}

/// Returns whether it is known which table's schema has this `@id`, and which names the table has.
fn sole_known(targets: &[TargetSeen], group_hidden: bool, id: &str) -> bool
    ensures { result ≡ sole_known group_hidden targets.now id.now }
{
    for target in targets {
        if target.id_hidden {
            return false;
        }
        if has_schema(target, id) && hides_target(target, group_hidden) {
            return false;
        }
    }
    true
}

/// Returns whether it is known which table a reference names, and which names the table has.
fn named_known(scene: &Scene, table: &NamedTable) -> bool
    ensures { result ≡ named_known table.now.by scene.now.group_hidden scene.now.targets.now table.now.url }
{
    match table.by {
        NamedBy::Url => names_known(scene.targets, scene.group_hidden, table.url.as_str()),
        NamedBy::Schema => sole_known(scene.targets, scene.group_hidden, table.url.as_str()),
    }
}

/// Returns whether what references name tables by could be read of all tables.
fn all_known(scene: &Scene, by: NamedBy) -> bool
    ensures { result ≡ flag_of by scene.now.urls_known scene.now.ids_known }
{
    match by {
        NamedBy::Url => scene.urls_known,
        NamedBy::Schema => scene.ids_known,
    }
}

/// Returns the names of the columns of a table.
fn names_of<'a>(scene: &'a Scene, target: &'a TargetSeen) -> &'a Nulls
    ensures { result.now ≡ (as_target scene.now.group_names.now target.now).names }
{
    if target.has_schema {
        &target.names
    } else {
        scene.group_names
    }
}

/// Adds the faults of the referenced columns of a foreign key that the table does not have.
fn find_referred(
    scene: &Scene,
    target: &TargetSeen,
    key: &ForeignKeyFound,
    faults: &mut Vec<MetaFault>,
) -> Result<(), AllocError>
    ensures { OnOk result (faults.new.items ≡ faults.old.items
        ++ referred_faults (known_in scene.now true) key.now (as_target scene.now.group_names.now target.now)) }
{
    if named_known(scene, &key.table) {
        find_names(
            scene,
            names_of(scene, target),
            key.referenced.as_slice(),
            faults,
        )
    } else {
        Ok(())
    }
}

/// Returns whether a fault hides a side of the foreign key at this pointer.
fn hides_side(scene: &Scene, at: &str) -> Result<bool, AllocError>
    ensures { IfOk result (λ b. b ≡ list_any (hides_side at.now) scene.now.marks.now.faults.now) }
{
    let own = scene
        .marks
        .hides_property(scene.alloc, at, "columnReference")?;
    if own {
        return Ok(true);
    }
    let reference = below(scene.alloc, at, "reference")?;
    scene
        .marks
        .hides_property(scene.alloc, reference.as_str(), "columnReference")
}

/// Adds the fault of a foreign key whose sides have different numbers of columns.
fn find_sides(
    scene: &Scene,
    key: &ForeignKeyFound,
    faults: &mut Vec<MetaFault>,
) -> Result<(), AllocError>
    ensures { OnOk result (faults.new.items ≡ faults.old.items ++ side_faults (known_in scene.now true) key.now) }
{
    if hides_side(scene, key.at.as_str())? {
        return Ok(());
    }
    if key.columns.len() == key.referenced.len() {
        return Ok(());
    }
    add_reference(scene.alloc, &key.at, faults)
}

/// Adds the faults of a foreign key to a table.
fn find_to(
    scene: &Scene,
    own: OwnNames,
    target: &TargetSeen,
    key: &ForeignKeyFound,
    faults: &mut Vec<MetaFault>,
) -> Result<(), AllocError>
    ensures { OnOk result (faults.new.items ≡ faults.old.items ++ faults_to (known_in scene.now own.entry.known)
        own.entry.names.now key.now (Some (as_target scene.now.group_names.now target.now))) }
{
    find_own_names(scene, own, key.columns.as_slice(), faults)?;
    find_referred(scene, target, key, faults)?;
    find_sides(scene, key, faults)
}

/// Adds the fault of a foreign key to no table.
fn find_missing(
    scene: &Scene,
    key: &ForeignKeyFound,
    faults: &mut Vec<MetaFault>,
) -> Result<(), AllocError>
    ensures { (known : Bool) (own : List (List ℕ)) → OnOk result (faults.new.items ≡ faults.old.items
        ++ faults_to (known_in scene.now known) own key.now None) }
{
    if all_known(scene, key.table.by) {
        add_reference(scene.alloc, &key.table.at, faults)
    } else {
        Ok(())
    }
}

/// Adds the faults of a foreign key whose `resource` or `schemaReference` could be read.
fn find_resolved(
    scene: &Scene,
    own: OwnNames,
    key: &ForeignKeyFound,
    faults: &mut Vec<MetaFault>,
) -> Result<(), AllocError>
    ensures { OnOk result (faults.new.items ≡ faults.old.items ++ faults_to (known_in scene.now own.entry.known)
        own.entry.names.now key.now (named (targets_in scene.now) key.now.table)) }
{
    match named(scene.targets, &key.table) {
        Some(target) => find_to(scene, own, target, key, faults),
        None => find_missing(scene, key, faults),
    }
}

/// Adds the faults of a foreign key.
fn find_foreign(
    scene: &Scene,
    own: OwnNames,
    key: &ForeignKeyFound,
    faults: &mut Vec<MetaFault>,
) -> Result<(), AllocError>
    ensures { OnOk result (faults.new.items ≡ faults.old.items ++ foreign_faults (known_in scene.now own.entry.known)
        own.entry.names.now (targets_in scene.now) key.now) }
{
    if !scene.marks.could_read(key.table.at.as_str()) {
        return Ok(());
    }
    find_resolved(scene, own, key, faults)
}

fn find_each_foreign(
    scene: &Scene,
    own: OwnNames,
    keys: &[ForeignKeyFound],
    faults: &mut Vec<MetaFault>,
) -> Result<(), AllocError>
    ensures { OnOk result (faults.new.items ≡ faults.old.items ++ flat_map (foreign_faults (known_in scene.now own.entry.known)
        own.entry.names.now (targets_in scene.now)) keys.now) }
{
    for key in keys {
        find_foreign(scene, own, key, faults)?;
    }
    Ok(())
}

/// Adds the faults of the names of the primary key and of the row titles that are not columns of the schema.
fn find_in_names(
    scene: &Scene,
    own: OwnNames,
    keys: &KeysFound,
    faults: &mut Vec<MetaFault>,
) -> Result<(), AllocError>
    ensures { OnOk result (faults.new.items ≡ faults.old.items ++ own_faults (known_in scene.now own.entry.known) own.entry.names.now keys.now) }
{
    find_own_names(scene, own, keys.primary.as_slice(), faults)?;
    find_own_names(scene, own, keys.row_titles.as_slice(), faults)
}

fn find_keys(
    scene: &Scene,
    own: OwnNames,
    keys: &KeysFound,
    faults: &mut Vec<MetaFault>,
) -> Result<(), AllocError>
    ensures { OnOk result (faults.new.items ≡ faults.old.items ++ key_faults (known_in scene.now own.entry.known)
        own.entry.names.now (targets_in scene.now) keys.now) }
{
    find_in_names(scene, own, keys, faults)?;
    find_each_foreign(scene, own, keys.foreign.as_slice(), faults)
}

/// Adds the faults of what the keys of a schema name, if it has keys.
pub(crate) fn find_in_schema(
    scene: &Scene,
    own: OwnNames,
    keys: &Option<KeysFound>,
    faults: &mut Vec<MetaFault>,
) -> Result<(), AllocError>
    ensures { OnOk result (faults.new.items ≡ faults.old.items ++ faults_of_keys (known_in scene.now own.entry.known)
        own.entry.names.now (targets_in scene.now) keys.now) }
{
    match keys {
        Some(keys) => find_keys(scene, own, keys, faults),
        None => Ok(()),
    }
}

fn find_in_table(
    scene: &Scene,
    target: &TargetSeen,
    table: &TableSeen,
    faults: &mut Vec<MetaFault>,
) -> Result<(), AllocError>
    ensures { OnOk result (faults.new.items ≡ faults.old.items ++ faults_of_keys (known_in scene.now (not target.now.names_hidden))
        target.now.names (targets_in scene.now) table.now.keys) }
{
    let own = OwnNames {
        names: &target.names,
        known: !target.names_hidden,
    };
    find_in_schema(scene, own, &table.keys, faults)
}

/// Adds the faults of what the keys of each table's own schema name.
pub(crate) fn find_in_tables(
    scene: &Scene,
    tables: &[TableSeen],
    faults: &mut Vec<MetaFault>,
) -> Result<(), AllocError>
    requires { length scene.now.targets.now ≡ length tables.now }
    ensures { OnOk result (faults.new.items ≡ faults.old.items
        ++ faults_of_tables (known_in scene.now) (targets_in scene.now) scene.now.targets.now tables.now) }
{
    for (i, table) in tables.iter().enumerate() {
        find_in_table(scene, &scene.targets[i], table, faults)?;
    }
    Ok(())
}
