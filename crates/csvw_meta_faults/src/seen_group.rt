//! What is seen of a group (Metadata Vocabulary for Tabular Data, section 5.3), whatever faults it has.
ghost use Rattle.std.specs.Prelude.{◌≡◌, [], IfOk, codes, map, option_map, ℕ};
ghost use Rattle.serde_json.specs.View.{items_view, view};
ghost use Rattle.csvw_meta_core.specs.Pointer.{item_at, text_of};
ghost use Rattle.csvw_meta_core.specs.Read.{each_numbered, needed};
ghost use Rattle.csvw_meta.specs.Described.{parts, sole_table};
ghost use Rattle.csvw_meta.specs.Group.{group, tables as tables_read};
ghost use Rattle.csvw_meta.specs.Table.{table};
ghost use Rattle.csvw_meta_faults.specs.Seen.{as_table, bare_table};
ghost use Rattle.csvw_meta_faults.specs.SeenGroup.{as_group, bare_group};

use crate::seen::{GroupSeen, TableSeen};
use crate::seen_schema::own_schema;
use crate::seen_table::{table_of_seen, table_seen};
use csvw_meta::schema::SchemaFound;
use csvw_meta_core::{Context, Part};
use csvw_meta_faults_parts::array_items;
use csvw_text::Seq;
use serde_json::Value;
use std::alloc::AllocError;

fn item_table(
    context: &Context,
    part: &Part,
    index: usize,
    item: &Value,
) -> Result<TableSeen, AllocError>
    ensures { (number : ℕ) → IfOk result (λ t. as_table t ≡ bare_table (table context.now number (item_at (text_of part.now.at) index) (view item.now)).value) }
{
    table_seen(context, &part.item(index, item))
}

/// Returns what is seen of each table of an array.
fn each_seen(context: &Context, part: &Part, items: &[Value]) -> Result<Seq<TableSeen>, AllocError>
    ensures { IfOk result (λ ts. map as_table ts
        ≡ map bare_table (each_numbered (table context.now) (text_of part.now.at) 0 (items_view items.now)).value) }
{
    let mut tables = Vec::new(part.alloc);
    for (i, item) in items.iter().enumerate() {
        let table = item_table(context, part, i, item)?;
        tables.push(table)?;
    }
    Ok(Seq::of(tables))
}

/// Returns what is seen of the tables of an array, or none if the value is not an array.
pub(crate) fn tables_here(context: &Context, part: &Part) -> Result<Seq<TableSeen>, AllocError>
    ensures { IfOk result (λ ts. map as_table ts
        ≡ map bare_table (tables_read context.now (text_of part.now.at) (view part.now.value.now)).value) }
{
    each_seen(context, part, array_items(part.value))
}

/// Returns what is seen of the tables of the group.
fn tables_seen(context: &Context, part: &Part) -> Result<Seq<TableSeen>, AllocError>
    ensures { IfOk result (λ ts. map as_table ts ≡ map bare_table (needed (tables_read context.now) []
        (text_of part.now.at) (view part.now.value.now) (codes "tables")).value) }
{
    match part.value.get("tables") {
        Some(value) => tables_here(context, &part.member("tables", value)),
        None => Ok(Seq::new(part.alloc)),
    }
}

/// Returns what is seen of a group of these tables and this schema.
fn group_with(tables: Seq<TableSeen>, own: Option<SchemaFound>) -> GroupSeen
    ensures tables { result.tables ≡ tables }
    ensures schema { result.schema ≡ option_map (λ s. s.schema) own }
    ensures keys { result.keys ≡ option_map (λ s. s.keys) own }
{
    match own {
        Some(own) => GroupSeen {
            tables,
            schema: Some(own.schema),
            keys: Some(own.keys),
        },
        None => GroupSeen {
            tables,
            schema: None,
            keys: None,
        },
    }
}

/// Returns what is seen of the group that the document describes.
fn group_seen(context: &Context, part: &Part) -> Result<GroupSeen, AllocError>
    ensures { IfOk result (λ g. as_group g ≡ bare_group (group context.now (text_of part.now.at) (view part.now.value.now)).value) }
{
    let tables = tables_seen(context, part)?;
    let own = own_schema(context, part)?;
    Ok(group_with(tables, own))
}

/// Returns what is seen of the group of the one table that the document is.
fn sole_seen(context: &Context, part: &Part) -> Result<GroupSeen, AllocError>
    ensures { IfOk result (λ g. as_group g ≡ bare_group (sole_table context.now (text_of part.now.at) (view part.now.value.now)).value) }
{
    let table = table_of_seen(context, part)?;
    let mut tables = Seq::new(part.alloc);
    tables.push(table)?;
    Ok(group_with(tables, None))
}

/// Returns what is seen of the parts of the document: of a group, or of the one table that it is.
pub(crate) fn parts_seen(context: &Context, part: &Part) -> Result<GroupSeen, AllocError>
    ensures { IfOk result (λ g. as_group g ≡ bare_group (parts context.now (text_of part.now.at) (view part.now.value.now)).value) }
{
    match part.value.get("tables") {
        Some(_) => group_seen(context, part),
        None => sole_seen(context, part),
    }
}
