//! The check that what keys and row titles name exists: columns of their own table, and other tables of the group with
//! their columns (Metadata Vocabulary for Tabular Data, sections 5.5, 5.5.1 and 5.5.2).
ghost use Rattle.std.specs.Prelude.{◌≡◌, ◌∷◌, [], MatchOption, MatchResult, None, Some, flat_map, if◌then◌else◌};
ghost use Rattle.std.specs.List.{list_any};
ghost use Rattle.csvw_meta_core.specs.Reads.{Fails};
ghost use Rattle.csvw_meta_keys.specs.Naming.{all_known, bad_reference, faults_to, foreign_faults, has_name, has_schema, key_faults, name_faults, named};
ghost use Rattle.csvw_meta_keys.specs.Naming.{own_faults, side_faults, sole_of, target_of};

use crate::column_names::KeyName;
use crate::foreign_key::ForeignKeyFound;
use crate::keys::KeysFound;
use crate::reference::{NamedBy, NamedTable};
use csvw_iri::Iri;
use csvw_meta_core::{MetaCode, MetaFault, Refusal};
use csvw_text::{Seq, Text};
use std::alloc::Global;

/// A table that keys may refer to.
#[derive(Debug, Drop)]
pub struct Target {
    /// Its URL, made safe.
    pub url: Iri,
    /// The `@id` of its schema, if the schema has one.
    pub schema: Option<Iri>,
    /// The names of its declared columns.
    pub names: Seq<Text>,
}

/// Returns `BadReference` at this pointer, or `Memory` if there is no memory for the fault.
fn refused(alloc: Global, at: &Text) -> Refusal
    ensures { Fails result (bad_reference at.now ∷ []) }
{
    match at.clone(alloc) {
        Ok(pointer) => Refusal::Fault(MetaFault {
            code: MetaCode::BadReference,
            pointer,
        }),
        Err(_) => Refusal::Memory,
    }
}

/// Returns whether a name is one of these.
pub fn has_name(names: &[Text], name: &str) -> bool
    ensures { result ≡ has_name names.now name.now }
{
    names.iter().any(|n| n.as_str() == name)
}

/// Checks that each name of a key is one of these names. Else the fault is `BadReference` at the name.
fn check_names(alloc: Global, names: &[Text], key: &[KeyName]) -> Result<(), Refusal>
    ensures { MatchResult result (λ _. name_faults all_known names.now key.now ≡ []) (λ e. Fails e (name_faults all_known names.now key.now)) }
{
    for name in key {
        if !has_name(names, name.name.as_str()) {
            return Err(refused(alloc, &name.at));
        }
    }
    Ok(())
}

/// Returns the first of the tables that has a URL.
pub fn target_of<'a>(targets: &'a [Target], url: &str) -> Option<&'a Target>
    ensures { MatchOption result (target_of targets.now url.now ≡ None) (λ t. target_of targets.now url.now ≡ Some t.now) }
{
    for target in targets {
        if target.url.as_str() == url {
            return Some(target);
        }
    }
    None
}

/// Returns whether the schema of a table has this `@id`.
fn has_schema(target: &Target, id: &str) -> bool
    ensures { result ≡ has_schema id.now target.now }
{
    match &target.schema {
        Some(own) => own.as_str() == id,
        None => false,
    }
}

/// Returns whether the schema of one of the tables has this `@id`.
fn some_has_schema(targets: &[Target], id: &str) -> bool
    ensures { result ≡ list_any (has_schema id.now) targets.now }
{
    targets.iter().any(|t| has_schema(t, id))
}

/// Returns a table, or `None` if a later one has a schema with the same `@id`.
fn unless_repeated<'a>(target: &'a Target, later: &'a [Target], id: &str) -> Option<&'a Target>
    ensures { MatchOption result ((if list_any (has_schema id.now) later.now then None else Some target.now) ≡ None)
        (λ t. (if list_any (has_schema id.now) later.now then None else Some target.now) ≡ Some t.now) }
{
    if some_has_schema(later, id) {
        None
    } else {
        Some(target)
    }
}

/// Returns the table whose schema has this `@id`, or `None` if there is none or more than one.
pub fn sole_of<'a>(targets: &'a [Target], id: &str) -> Option<&'a Target>
    ensures { MatchOption result (sole_of targets.now id.now ≡ None) (λ t. sole_of targets.now id.now ≡ Some t.now) }
{
    for (i, target) in targets.iter().enumerate() {
        if has_schema(target, id) {
            return unless_repeated(target, &targets[i + 1..], id);
        }
    }
    None
}

/// Returns the table that a reference names among these, by its URL or by its schema. It is `None` if there is none, or
/// more than one of the schema.
pub fn named<'a>(targets: &'a [Target], table: &NamedTable) -> Option<&'a Target>
    ensures { MatchOption result (named targets.now table.now ≡ None) (λ t. named targets.now table.now ≡ Some t.now) }
{
    match table.by {
        NamedBy::Url => target_of(targets, table.url.as_str()),
        NamedBy::Schema => sole_of(targets, table.url.as_str()),
    }
}

/// Checks that both sides of a foreign key have equally many columns. Else the fault is `BadReference` at the key.
fn check_sides(alloc: Global, key: &ForeignKeyFound) -> Result<(), Refusal>
    ensures { MatchResult result (λ _. side_faults all_known key.now ≡ []) (λ e. Fails e (side_faults all_known key.now)) }
{
    if key.columns.len() == key.referenced.len() {
        Ok(())
    } else {
        Err(refused(alloc, &key.at))
    }
}

fn check_table(
    alloc: Global,
    own: &[Text],
    target: &Target,
    key: &ForeignKeyFound,
) -> Result<(), Refusal>
    ensures { MatchResult result (λ _. faults_to all_known own.now key.now (Some target.now) ≡ [])
        (λ e. Fails e (faults_to all_known own.now key.now (Some target.now))) }
{
    check_names(alloc, own, key.columns.as_slice())?;
    check_names(alloc, target.names.as_slice(), key.referenced.as_slice())?;
    check_sides(alloc, key)
}

#[tactic(auto, using(crate::proofs::NamingLemmas::missing))]
fn check_foreign(
    alloc: Global,
    own: &[Text],
    targets: &[Target],
    key: &ForeignKeyFound,
) -> Result<(), Refusal>
    ensures { MatchResult result (λ _. foreign_faults all_known own.now targets.now key.now ≡ [])
        (λ e. Fails e (foreign_faults all_known own.now targets.now key.now)) }
{
    match named(targets, &key.table) {
        Some(target) => check_table(alloc, own, target, key),
        None => Err(refused(alloc, &key.table.at)),
    }
}

fn check_each(
    alloc: Global,
    own: &[Text],
    targets: &[Target],
    keys: &[ForeignKeyFound],
) -> Result<(), Refusal>
    ensures { MatchResult result (λ _. flat_map (foreign_faults all_known own.now targets.now) keys.now ≡ [])
        (λ e. Fails e (flat_map (foreign_faults all_known own.now targets.now) keys.now)) }
{
    for key in keys {
        check_foreign(alloc, own, targets, key)?;
    }
    Ok(())
}

/// Checks that the primary key and the row titles of a schema name columns of it. Else the fault is `BadReference` at the
/// name.
#[tactic(auto, using(crate::proofs::ReadLemmas::fails_first))]
fn check_own(alloc: Global, own: &[Text], keys: &KeysFound) -> Result<(), Refusal>
    ensures { MatchResult result (λ _. own_faults all_known own.now keys.now ≡ []) (λ e. Fails e (own_faults all_known own.now keys.now)) }
{
    check_names(alloc, own, keys.primary.as_slice())?;
    check_names(alloc, own, keys.row_titles.as_slice())
}

/// Checks that what the keys and row titles of a schema name exists among the tables of its group. `own` has the names of
/// the schema's columns. A missing name is `BadReference` at the name. A missing table is `BadReference` at the `resource`
/// or the `schemaReference`, and so is a schema of more than one table. If the two sides of a foreign key have different
/// numbers of columns, the fault is `BadReference` at the key. It returns `Memory` if there is no memory for the fault.
#[tactic(auto, using(crate::proofs::ReadLemmas::fails_first))]
pub fn check_keys(
    alloc: Global,
    own: &[Text],
    targets: &[Target],
    keys: &KeysFound,
) -> Result<(), Refusal>
    ensures { MatchResult result (λ _. key_faults all_known own.now targets.now keys.now ≡ [])
        (λ e. Fails e (key_faults all_known own.now targets.now keys.now)) }
{
    check_own(alloc, own, keys)?;
    check_each(alloc, own, targets, keys.foreign.as_slice())
}
