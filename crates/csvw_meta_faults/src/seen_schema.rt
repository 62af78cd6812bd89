//! What is seen of a schema (Metadata Vocabulary for Tabular Data, section 5.5), whatever faults it has: its columns and its keys.
ghost use Rattle.std.specs.Prelude.{◌≡◌, [], IfOk, codes, map, option_map, ℕ};
ghost use Rattle.serde_json.specs.View.{items_view, view};
ghost use Rattle.csvw_description.specs.Inherited.{no_inherited};
ghost use Rattle.csvw_meta_core.specs.Links.{id as id_read};
ghost use Rattle.csvw_meta_core.specs.Pointer.{item_at, text_of};
ghost use Rattle.csvw_meta_core.specs.Read.{each_numbered, optional, property};
ghost use Rattle.csvw_meta.specs.Column.{column};
ghost use Rattle.csvw_meta.specs.Schema.{columns, schema, schema_of};
ghost use Rattle.csvw_meta_faults.specs.Seen.{bare_column, bare_found};

use crate::seen_column::column_seen;
use csvw_description::{ColumnDescription, Schema, no_inherited};
use csvw_iri::{Iri, named};
use csvw_meta::schema::SchemaFound;
use csvw_meta_core::{Context, IdReader, Part, Reader, Refusal};
use csvw_meta_faults_parts::{array_items, keys_seen};
use csvw_meta_keys::KeysFound;
use csvw_text::Seq;
use serde_json::Value;
use std::alloc::AllocError;

fn item_column(
    context: &Context,
    part: &Part,
    index: usize,
    item: &Value,
) -> Result<ColumnDescription, AllocError>
    ensures { (table number : ℕ) →
        IfOk result (λ c. c ≡ bare_column (column context.now table number (item_at (text_of part.now.at) index) (view item.now)).value) }
{
    column_seen(context, &part.item(index, item))
}

/// Returns what is seen of each column of an array.
fn each_seen(
    context: &Context,
    part: &Part,
    items: &[Value],
) -> Result<Seq<ColumnDescription>, AllocError>
    ensures { (table : ℕ) → IfOk result (λ cs. cs
        ≡ map bare_column (each_numbered (column context.now table) (text_of part.now.at) 0 (items_view items.now)).value) }
{
    let mut columns = Vec::new(part.alloc);
    for (i, item) in items.iter().enumerate() {
        let column = item_column(context, part, i, item)?;
        columns.push(column)?;
    }
    Ok(Seq::of(columns))
}

/// Returns what is seen of the columns of an array, or none if the value is not an array.
pub(crate) fn columns_here(
    context: &Context,
    part: &Part,
) -> Result<Seq<ColumnDescription>, AllocError>
    ensures { (table : ℕ) → IfOk result (λ cs. cs
        ≡ map bare_column (columns context.now table (text_of part.now.at) (view part.now.value.now)).value) }
{
    each_seen(context, part, array_items(part.value))
}

/// Returns what is seen of the columns of the schema.
fn columns_seen(context: &Context, part: &Part) -> Result<Seq<ColumnDescription>, AllocError>
    ensures { (table : ℕ) → IfOk result (λ cs. cs ≡ map bare_column (property (columns context.now table) []
        (text_of part.now.at) (view part.now.value.now) (codes "columns")).value) }
{
    match part.value.get("columns") {
        Some(value) => columns_here(context, &part.member("columns", value)),
        None => Ok(Seq::new(part.alloc)),
    }
}

/// Returns the schema of these columns, with nothing else.
fn schema_with(part: &Part, columns: Seq<ColumnDescription>) -> Schema
    ensures { result ≡ record {
      columns = columns;
      primary_key = [];
      foreign_keys = [];
      inherited = no_inherited;
      warnings = [];
    } }
{
    Schema {
        columns,
        primary_key: Seq::new(part.alloc),
        foreign_keys: Seq::new(part.alloc),
        inherited: no_inherited(),
        warnings: Seq::new(part.alloc),
    }
}

/// Returns the `@id` of a schema, or the one that stands in if it can't be read.
fn id_here(context: &Context, part: &Part) -> Result<Iri, AllocError>
    ensures { IfOk result (λ i. i ≡ (id_read context.now.base (text_of part.now.at) (view part.now.value.now)).value) }
{
    let id = IdReader {
        base: &context.base,
    };
    match id.read(part) {
        Ok(id) => Ok(id),
        Err(Refusal::Memory) => Err(AllocError),
        Err(Refusal::Fault(_)) => named(part.alloc, ""),
    }
}

/// Returns the `@id` of the schema, or `None` if it has none.
fn id_seen(context: &Context, part: &Part) -> Result<Option<Iri>, AllocError>
    ensures { IfOk result (λ i. i ≡ (optional (id_read context.now.base) (text_of part.now.at) (view part.now.value.now) (codes "@id")).value) }
{
    match part.value.get("@id") {
        Some(value) => Ok(Some(id_here(context, &part.member("@id", value))?)),
        None => Ok(None),
    }
}

/// Returns what is seen of the schema that an object is: its columns and its keys.
#[tactic(auto, unfolding(csvw_meta::specs::Schema::schema_of))]
fn schema_of_seen(context: &Context, part: &Part) -> Result<SchemaFound, AllocError>
    ensures { (table : ℕ) → IfOk result (λ s. s ≡ bare_found (schema_of context.now table (text_of part.now.at) (view part.now.value.now)).value) }
{
    let columns = columns_seen(context, part)?;
    let id = id_seen(context, part)?;
    let keys = keys_seen(context, id, part)?;
    Ok(SchemaFound {
        schema: schema_with(part, columns),
        keys,
    })
}

/// Returns what is seen of a schema.
fn schema_seen(context: &Context, part: &Part) -> Result<SchemaFound, AllocError>
    ensures { (table : ℕ) → IfOk result (λ s. s
        ≡ bare_found (schema context.now table (text_of part.now.at) (view part.now.value.now)).value) }
{
    match part.value {
        Value::Object(_) => schema_of_seen(context, part),
        _ => Ok(SchemaFound {
            schema: schema_with(part, Seq::new(part.alloc)),
            keys: KeysFound {
                id: None,
                primary: Seq::new(part.alloc),
                row_titles: Seq::new(part.alloc),
                foreign: Seq::new(part.alloc),
            },
        }),
    }
}

/// Returns what is seen of the schema of an object, or `None` if it has none.
pub(crate) fn own_schema(context: &Context, part: &Part) -> Result<Option<SchemaFound>, AllocError>
    ensures { (table : ℕ) → IfOk result (λ s. s ≡ option_map bare_found (optional (schema context.now table)
        (text_of part.now.at) (view part.now.value.now) (codes "tableSchema")).value) }
{
    match part.value.get("tableSchema") {
        Some(value) => Ok(Some(schema_seen(context, &part.member("tableSchema", value))?)),
        None => Ok(None),
    }
}
