//! The check that what the keys and row titles of a group's schemas name exists (Metadata Vocabulary for Tabular Data,
//! sections 5.5, 5.5.1 and 5.5.2).
ghost use Rattle.std.specs.Prelude.{◌≡◌, [], IfOk, MatchResult};
ghost use Rattle.csvw_description.specs.Keys.{declared_names, own_or};
ghost use Rattle.csvw_meta_core.specs.Reads.{Fails};
ghost use Rattle.csvw_meta_keys.specs.Naming.{all_known};
ghost use Rattle.csvw_meta.specs.References.{id_or, target, targets, schema_faults, known_table_faults, known_faults};

use crate::body::Body;
use crate::group::GroupFound;
use crate::schema::column_names;
use crate::table::TableFound;
use csvw_description::Schema;
use csvw_iri::Iri;
use csvw_meta_core::Refusal;
use csvw_meta_keys::{KeysFound, Target, check_keys};
use csvw_text::{Seq, Text};
use std::alloc::{AllocError, Global};

/// Returns the names of the columns of a schema, or none if there is no schema. It returns `AllocError` if there is no
/// memory.
pub fn declared_names(alloc: Global, schema: &Option<Schema>) -> Result<Seq<Text>, AllocError>
    ensures { IfOk result (λ s. s ≡ declared_names schema.now) }
{
    match schema {
        Some(schema) => column_names(alloc, schema.columns.as_slice()),
        None => Ok(Seq::new(alloc)),
    }
}

/// Returns a table's own schema or, if it has none, that of its group.
fn own_or<'a>(table: &'a Option<Schema>, group: &'a Option<Schema>) -> &'a Option<Schema>
    ensures { result.now ≡ own_or table.now group.now }
{
    match table {
        Some(_) => table,
        None => group,
    }
}

/// Returns the `@id` of the schema that has these keys, if it has one.
fn id_of(alloc: Global, keys: &KeysFound) -> Result<Option<Iri>, AllocError>
    ensures { IfOk result (λ i. i ≡ keys.now.id) }
{
    match &keys.id {
        Some(id) => Ok(Some(id.clone(alloc)?)),
        None => Ok(None),
    }
}

/// Returns the `@id` of a table's own schema or, if it has none, that of the group's. It returns `AllocError` if there is
/// no memory.
pub fn id_or(
    alloc: Global,
    table: &Option<KeysFound>,
    group: &Option<KeysFound>,
) -> Result<Option<Iri>, AllocError>
    ensures { IfOk result (λ i. i ≡ id_or table.now group.now) }
{
    match (table, group) {
        (Some(keys), _) => id_of(alloc, keys),
        (None, Some(keys)) => id_of(alloc, keys),
        (None, None) => Ok(None),
    }
}

fn target_of(alloc: Global, group: &Body, found: &TableFound) -> Result<Target, AllocError>
    ensures { IfOk result (λ t. t ≡ target group.now found.now) }
{
    Ok(Target {
        url: found.table.url.iri().clone(alloc)?,
        schema: id_or(alloc, &found.keys, &group.keys)?,
        names: declared_names(alloc, own_or(&found.table.schema, &group.schema))?,
    })
}

/// Returns the tables of a group, as those to which keys may refer. It returns `AllocError` if there is no memory.
pub fn targets_of(alloc: Global, group: &GroupFound) -> Result<Seq<Target>, AllocError>
    ensures { IfOk result (λ s. s ≡ targets group.now) }
{
    let mut targets = Vec::new(alloc);
    for found in group.tables.as_slice() {
        let target = target_of(alloc, &group.body, found)?;
        targets.push(target)?;
    }
    Ok(Seq::of(targets))
}

/// Checks that what the keys and row titles of a schema name exists. Else the fault is `BadReference`.
fn check_schema(
    alloc: Global,
    targets: &[Target],
    schema: &Option<Schema>,
    keys: &Option<KeysFound>,
) -> Result<(), Refusal>
    ensures { MatchResult result (λ _. schema_faults all_known targets.now schema.now keys.now ≡ [])
        (λ e. Fails e (schema_faults all_known targets.now schema.now keys.now)) }
{
    let Some(keys) = keys else {
        return Ok(());
    };
    let own = declared_names(alloc, schema)?;
    check_keys(alloc, own.as_slice(), targets, keys)
}

fn check_tables(alloc: Global, targets: &[Target], tables: &[TableFound]) -> Result<(), Refusal>
    ensures { MatchResult result (λ _. known_table_faults targets.now tables.now ≡ [])
        (λ e. Fails e (known_table_faults targets.now tables.now)) }
{
    for found in tables {
        check_schema(alloc, targets, &found.table.schema, &found.keys)?;
    }
    Ok(())
}

/// Checks that what the keys and row titles of each schema of a group name exists: each column, the table of each foreign
/// key, and as many columns on both sides. Else the fault is `BadReference` at the name, at the `resource` or the
/// `schemaReference`, or at the foreign key. `targets` are the tables of the group.
#[tactic(auto, using(crate::proofs::ReadLemmas::fails_first))]
pub(crate) fn check_references(
    alloc: Global,
    targets: &[Target],
    group: &GroupFound,
) -> Result<(), Refusal>
    ensures { MatchResult result (λ _. known_faults targets.now group.now ≡ []) (λ e. Fails e (known_faults targets.now group.now)) }
{
    check_schema(alloc, targets, &group.body.schema, &group.body.keys)?;
    check_tables(alloc, targets, group.tables.as_slice())
}
