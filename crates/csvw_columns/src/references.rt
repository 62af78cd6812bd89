//! Keys as numbers of columns and tables.
ghost use Rattle.std.specs.Prelude.{◌≡◌, ◌≤◌, ◌<◌, ◌↔◌, IfOk, IsTrue, All, length, map, unwrap_or};
ghost use Rattle.csvw_iri.specs.Link.{iri_of};
ghost use Rattle.csvw_columns.specs.Keys.{place_of, number_at, numbers_of, names_at, foreign_key, IsResolved, AreResolved};
ghost use Rattle.csvw_description.specs.Plannable.{table_limit, column_limit};
ghost use Rattle.csvw_description.specs.Name.{numbered_names};
ghost use Rattle.csvw_columns.specs.PlanOf.{no_schema, schema_of, keys_of, targets_of};

use crate::checks::numbered_names;
use crate::choices::schema_of;
use crate::plan::{ForeignKeyPlan, TablePlan};
use csvw_description::{Description, ForeignKey, Name, Schema, TableDescription};
use csvw_iri::Iri;
use csvw_text::{Seq, Text, both};
use std::alloc::{AllocError, Global};

/// What foreign keys refer to.
#[derive(Drop)]
pub(crate) struct Targets {
    /// The URLs of the tables, made safe.
    pub(crate) urls: Seq<Iri>,
    /// The names of the columns that each table declares.
    pub(crate) names: Seq<Seq<Name>>,
}

/// The keys of a table.
#[derive(Drop)]
pub(crate) struct Keys {
    /// Its primary key.
    pub(crate) primary: Seq<u32>,
    /// Its foreign keys.
    pub(crate) foreign: Seq<ForeignKeyPlan>,
}

fn urls_of(alloc: Global, tables: &[TableDescription]) -> Result<Seq<Iri>, AllocError>
    ensures { IfOk result (λ s. s ≡ map (λ t. iri_of t.url) tables.now) }
{
    let mut urls = Vec::new(alloc);
    for table in tables {
        let url = table.url.iri().clone(alloc)?;
        urls.push(url)?;
    }
    Ok(Seq::of(urls))
}

fn declared_names(alloc: Global, schema: &Option<Schema>) -> Result<Seq<Name>, AllocError>
    ensures { IfOk result (λ s. s ≡ numbered_names 0 (unwrap_or schema.now no_schema).columns) }
{
    match schema {
        Some(schema) => Ok(Seq::of(numbered_names(alloc, schema.columns.as_slice())?)),
        None => Ok(Seq::new(alloc)),
    }
}

fn all_names(
    alloc: Global,
    group: &Option<Schema>,
    tables: &[TableDescription],
) -> Result<Seq<Seq<Name>>, AllocError>
    ensures { IfOk result (λ s. s ≡ map (λ t. numbered_names 0 (schema_of t.schema group.now).columns) tables.now) }
{
    let mut all = Vec::new(alloc);
    for table in tables {
        let names = declared_names(alloc, schema_of(&table.schema, group))?;
        all.push(names)?;
    }
    Ok(Seq::of(all))
}

/// Returns what the foreign keys of a group refer to, or `AllocError` if there is no memory.
pub(crate) fn targets_of(alloc: Global, group: &Description) -> Result<Targets, AllocError>
    ensures { IfOk result (λ t. t ≡ targets_of group.now) }
{
    let urls = urls_of(alloc, group.tables.as_slice());
    let names = all_names(alloc, &group.schema, group.tables.as_slice());
    let (urls, names) = both(urls, names)?;
    Ok(Targets { urls, names })
}

fn place_of_name(names: &[Name], name: &str) -> Option<usize>
    ensures { result ≡ place_of names.now name.now }
{
    names.iter().position(|n| n.as_str() == name)
}

fn place_of_url(urls: &[Iri], url: &str) -> Option<usize>
    ensures { result ≡ place_of urls.now url.now }
{
    urls.iter().position(|u| u.as_str() == url)
}

fn number_at(place: Option<usize>) -> u32
    requires { number_at place ≤ column_limit }
    ensures { result ≡ number_at place }
{
    match place {
        Some(i) => i as u32 + 1,
        None => 0,
    }
}

fn numbers_of(alloc: Global, names: &[Name], key: &[Text]) -> Result<Seq<u32>, AllocError>
    requires { length names.now ≤ column_limit }
    ensures { IfOk result (λ s. s ≡ numbers_of names.now key.now) }
{
    let mut numbers = Vec::new(alloc);
    for name in key {
        let place = place_of_name(names, name.as_str());
        numbers.push(number_at(place))?;
    }
    Ok(Seq::of(numbers))
}

fn names_at(names: &[Seq<Name>], place: Option<usize>) -> &[Name]
    ensures { result.now ≡ names_at names.now place }
{
    let Some(i) = place else {
        return &[];
    };
    match names.get(i) {
        Some(names) => names.as_slice(),
        None => &[],
    }
}

#[tactic(auto, using(crate::proofs::KeyLemmas::within))]
fn foreign_key(
    alloc: Global,
    targets: &Targets,
    own: &[Name],
    key: &ForeignKey,
) -> Result<ForeignKeyPlan, AllocError>
    requires own { length own.now ≤ column_limit }
    requires tables { length targets.now.urls ≤ table_limit }
    requires names { All (λ names. length names ≤ column_limit) targets.now.names }
    ensures { IfOk result (λ k. k ≡ foreign_key targets.now.urls targets.now.names own.now key.now) }
{
    let place = place_of_url(targets.urls.as_slice(), key.resource.as_str());
    let referenced = names_at(targets.names.as_slice(), place);
    let columns = numbers_of(alloc, own, key.columns.as_slice());
    let referenced = numbers_of(alloc, referenced, key.referenced.as_slice());
    let (columns, referenced) = both(columns, referenced)?;
    Ok(ForeignKeyPlan {
        columns,
        table: number_at(place),
        referenced,
    })
}

fn each_foreign_key(
    alloc: Global,
    targets: &Targets,
    own: &[Name],
    keys: &[ForeignKey],
) -> Result<Seq<ForeignKeyPlan>, AllocError>
    requires own { length own.now ≤ column_limit }
    requires tables { length targets.now.urls ≤ table_limit }
    requires names { All (λ names. length names ≤ column_limit) targets.now.names }
    ensures { IfOk result (λ s. s ≡ map (foreign_key targets.now.urls targets.now.names own.now) keys.now) }
{
    let mut plans = Vec::new(alloc);
    for key in keys {
        let plan = foreign_key(alloc, targets, own, key)?;
        plans.push(plan)?;
    }
    Ok(Seq::of(plans))
}

fn primary_key(alloc: Global, own: &[Name], schema: &Option<Schema>) -> Result<Seq<u32>, AllocError>
    requires { length own.now ≤ column_limit }
    ensures { IfOk result (λ s. s ≡ numbers_of own.now (unwrap_or schema.now no_schema).primary_key) }
{
    match schema {
        Some(schema) => numbers_of(alloc, own, schema.primary_key.as_slice()),
        None => Ok(Seq::new(alloc)),
    }
}

fn foreign_keys(
    alloc: Global,
    targets: &Targets,
    own: &[Name],
    schema: &Option<Schema>,
) -> Result<Seq<ForeignKeyPlan>, AllocError>
    requires own { length own.now ≤ column_limit }
    requires tables { length targets.now.urls ≤ table_limit }
    requires names { All (λ names. length names ≤ column_limit) targets.now.names }
    ensures { IfOk result (λ s. s ≡ map (foreign_key targets.now.urls targets.now.names own.now) (unwrap_or schema.now no_schema).foreign_keys) }
{
    match schema {
        Some(schema) => each_foreign_key(alloc, targets, own, schema.foreign_keys.as_slice()),
        None => Ok(Seq::new(alloc)),
    }
}

/// Returns the keys of a schema, in a table that declares its columns, or `AllocError` if there is no memory.
#[tactic(auto, using(crate::proofs::KeyLemmas::length_numbered))]
pub(crate) fn keys_of(
    alloc: Global,
    targets: &Targets,
    schema: &Option<Schema>,
) -> Result<Keys, AllocError>
    requires own { length (unwrap_or schema.now no_schema).columns ≤ column_limit }
    requires tables { length targets.now.urls ≤ table_limit }
    requires names { All (λ names. length names ≤ column_limit) targets.now.names }
    ensures { IfOk result (λ k. k ≡ keys_of targets.now (unwrap_or schema.now no_schema)) }
{
    let own = declared_names(alloc, schema)?;
    let primary = primary_key(alloc, own.as_slice(), schema);
    let foreign = foreign_keys(alloc, targets, own.as_slice(), schema);
    let (primary, foreign) = both(primary, foreign)?;
    Ok(Keys { primary, foreign })
}

fn are_numbers(numbers: &[u32]) -> bool
    ensures { IsTrue result ↔ All (λ n. 0 < n) numbers.now }
{
    numbers.iter().all(|n| *n > 0)
}

fn is_resolved(key: &ForeignKeyPlan) -> bool
    ensures { IsTrue result ↔ IsResolved key.now }
{
    key.table > 0
        && key.columns.len() == key.referenced.len()
        && are_numbers(key.columns.as_slice())
        && are_numbers(key.referenced.as_slice())
}

fn has_resolved_keys(plan: &TablePlan) -> bool
    ensures { IsTrue result ↔ AreResolved plan.now }
{
    are_numbers(plan.primary_key.as_slice())
        && plan
            .foreign_keys
            .as_slice()
            .iter()
            .all(|key| is_resolved(key))
}

/// Whether what the keys of tables name exists.
pub(crate) fn are_resolved(plans: &[TablePlan]) -> bool
    ensures { IsTrue result ↔ All AreResolved plans.now }
{
    for plan in plans {
        if !has_resolved_keys(plan) {
            return false;
        }
    }
    true
}
