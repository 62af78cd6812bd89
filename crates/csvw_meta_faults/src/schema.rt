//! The faults of schemas (Metadata Vocabulary for Tabular Data, section 5.5).
ghost use Rattle.std.specs.Prelude.{◌≡◌, ◌++◌, [], IfOk, OnOk, codes, ℕ};
ghost use Rattle.serde_json.specs.View.{items_view, view};
ghost use Rattle.csvw_meta_core.specs.Pointer.{item_at, text_of};
ghost use Rattle.csvw_meta_core.specs.Read.{each_numbered, optional, property};
ghost use Rattle.csvw_meta_core.specs.Several.{several, some_items};
ghost use Rattle.csvw_meta.specs.Column.{column};
ghost use Rattle.csvw_meta.specs.Schema.{column_faults, columns, schema, schema_of};

use crate::add_both::add_both;
use crate::column::find_column;
use crate::column_rules::column_faults;
use crate::seen_schema::columns_here;
use csvw_meta::schema::MAX_COLUMNS;
use csvw_meta_core::{Context, Fixed, IdReader, MetaCode, MetaFault, Part};
use csvw_meta_faults_core::{add_fault, add_wrong, find_optional, find_unlisted};
use csvw_meta_faults_parts::{find_count, find_inherited, find_keys};
use csvw_text::Seq;
use serde_json::Value;
use std::alloc::AllocError;

fn find_in_item(
    context: &Context,
    part: &Part,
    index: usize,
    item: &Value,
    faults: &mut Vec<MetaFault>,
) -> Result<(), AllocError>
    ensures { (table number : ℕ) → OnOk result (faults.new.items ≡ faults.old.items
        ++ (column context.now table number (item_at (text_of part.now.at) index) (view item.now)).faults) }
{
    find_column(context, &part.item(index, item), faults)
}

/// Adds the faults of each column of an array.
fn find_each(
    context: &Context,
    part: &Part,
    items: &[Value],
    faults: &mut Vec<MetaFault>,
) -> Result<(), AllocError>
    ensures { (table : ℕ) → OnOk result (faults.new.items ≡ faults.old.items
        ++ (each_numbered (column context.now table) (text_of part.now.at) 0 (items_view items.now)).faults) }
{
    for (i, item) in items.iter().enumerate() {
        find_in_item(context, part, i, item, faults)?;
    }
    Ok(())
}

/// Adds the faults of each column of an array by itself, and of their number.
fn find_some(
    context: &Context,
    part: &Part,
    items: &[Value],
    faults: &mut Vec<MetaFault>,
) -> Result<(), AllocError>
    ensures { (table : ℕ) → OnOk result (faults.new.items ≡ faults.old.items
        ++ (some_items 0 MAX_COLUMNS (column context.now table) (text_of part.now.at) (items_view items.now)).faults) }
{
    find_each(context, part, items, faults)?;
    find_count(part, 0, MAX_COLUMNS, items, faults)
}

fn find_several(
    context: &Context,
    part: &Part,
    faults: &mut Vec<MetaFault>,
) -> Result<(), AllocError>
    ensures { (table : ℕ) → OnOk result (faults.new.items ≡ faults.old.items
        ++ (several 0 MAX_COLUMNS (column context.now table) (text_of part.now.at) (view part.now.value.now)).faults) }
{
    match part.value {
        Value::Array(items) => find_some(context, part, items.as_slice(), faults),
        _ => add_wrong(part, faults),
    }
}

/// Returns the faults of the columns of an array together. `own` has the faults of each by itself.
fn columns_together(
    context: &Context,
    part: &Part,
    own: &[MetaFault],
) -> Result<Seq<MetaFault>, AllocError>
    ensures { (table : ℕ) → IfOk result (λ fs. fs ≡ column_faults (text_of part.now.at) own.now
        (several 0 MAX_COLUMNS (column context.now table) (text_of part.now.at) (view part.now.value.now)).value) }
{
    let columns = columns_here(context, part)?;
    column_faults(part, own, columns.as_slice())
}

fn find_columns_here(
    context: &Context,
    part: &Part,
    faults: &mut Vec<MetaFault>,
) -> Result<(), AllocError>
    ensures { (table : ℕ) → OnOk result (faults.new.items ≡ faults.old.items
        ++ (columns context.now table (text_of part.now.at) (view part.now.value.now)).faults) }
{
    let mut own = Vec::new(part.alloc);
    find_several(context, part, &mut own)?;
    let together = columns_together(context, part, own.as_slice())?;
    add_both(own, together.into_vec(), faults)
}

/// Adds the faults of the property `columns`.
fn find_columns(
    context: &Context,
    part: &Part,
    faults: &mut Vec<MetaFault>,
) -> Result<(), AllocError>
    ensures { (table : ℕ) → OnOk result (faults.new.items ≡ faults.old.items
        ++ (property (columns context.now table) [] (text_of part.now.at) (view part.now.value.now) (codes "columns")).faults) }
{
    match part.value.get("columns") {
        None => Ok(()),
        Some(value) => find_columns_here(context, &part.member("columns", value), faults),
    }
}

/// Adds the faults of the schema that an object is.
#[tactic(auto, unfolding(csvw_meta::specs::Schema::schema_of))]
fn find_schema_of(
    context: &Context,
    part: &Part,
    faults: &mut Vec<MetaFault>,
) -> Result<(), AllocError>
    ensures { (table : ℕ) → OnOk result (faults.new.items ≡ faults.old.items
        ++ (schema_of context.now table (text_of part.now.at) (view part.now.value.now)).faults) }
{
    let id = IdReader {
        base: &context.base,
    };
    find_optional(part, &id, "@id", faults)?;
    find_optional(part, &Fixed { text: "Schema" }, "@type", faults)?;
    find_unlisted(part, &context.base, faults)?;
    find_columns(context, part, faults)?;
    find_inherited(context, part, faults)?;
    find_keys(context, part, faults)
}

/// Adds the faults of a schema. The URL of a schema is `NotSupported`.
fn find_schema_here(
    context: &Context,
    part: &Part,
    faults: &mut Vec<MetaFault>,
) -> Result<(), AllocError>
    ensures { (table : ℕ) → OnOk result (faults.new.items ≡ faults.old.items
        ++ (schema context.now table (text_of part.now.at) (view part.now.value.now)).faults) }
{
    match part.value {
        Value::Object(_) => find_schema_of(context, part, faults),
        Value::String(_) => add_fault(part, MetaCode::NotSupported, faults),
        _ => add_wrong(part, faults),
    }
}

/// Adds the faults of the property `tableSchema`. The number of the table has no effect on them.
pub fn find_schema(
    context: &Context,
    part: &Part,
    faults: &mut Vec<MetaFault>,
) -> Result<(), AllocError>
    ensures { (table : ℕ) → OnOk result (faults.new.items ≡ faults.old.items
        ++ (optional (schema context.now table) (text_of part.now.at) (view part.now.value.now) (codes "tableSchema")).faults) }
{
    match part.value.get("tableSchema") {
        None => Ok(()),
        Some(value) => find_schema_here(context, &part.member("tableSchema", value), faults),
    }
}
