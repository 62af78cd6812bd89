//! The faults of groups of tables (Metadata Vocabulary for Tabular Data, section 5.3).
ghost use Rattle.std.specs.Prelude.{◌≡◌, ◌++◌, [], IfOk, OnOk, codes, ℕ};
ghost use Rattle.serde_json.specs.View.{items_view, view};
ghost use Rattle.csvw_meta_core.specs.Pointer.{item_at, text_of};
ghost use Rattle.csvw_meta_core.specs.Read.{each_numbered, needed};
ghost use Rattle.csvw_meta_core.specs.Several.{several, some_items};
ghost use Rattle.csvw_meta.specs.Described.{parts};
ghost use Rattle.csvw_meta.specs.Group.{group, tables, url_faults};
ghost use Rattle.csvw_meta.specs.Table.{table};

use crate::add_both::add_both;
use crate::body::{find_body, find_given_dialect};
use crate::seen_group::tables_here;
use crate::table::{find_table, find_table_of};
use crate::url_rule::url_faults;
use csvw_meta::group::MAX_TABLES;
use csvw_meta_core::{Context, Fixed, IdReader, MetaCode, MetaFault, Part};
use csvw_meta_faults_core::{add_fault, add_wrong, find_all_notes, find_optional};
use csvw_meta_faults_parts::find_count;
use csvw_text::Seq;
use serde_json::Value;
use std::alloc::AllocError;

fn find_in_item(
    context: &Context,
    part: &Part,
    index: usize,
    item: &Value,
    faults: &mut Vec<MetaFault>,
) -> Result<(), AllocError>
    ensures { (number : ℕ) → OnOk result (faults.new.items ≡ faults.old.items
        ++ (table context.now number (item_at (text_of part.now.at) index) (view item.now)).faults) }
{
    find_table(context, &part.item(index, item), faults)
}

/// Adds the faults of each table of an array.
fn find_each(
    context: &Context,
    part: &Part,
    items: &[Value],
    faults: &mut Vec<MetaFault>,
) -> Result<(), AllocError>
    ensures { OnOk result (faults.new.items ≡ faults.old.items
        ++ (each_numbered (table context.now) (text_of part.now.at) 0 (items_view items.now)).faults) }
{
    for (i, item) in items.iter().enumerate() {
        find_in_item(context, part, i, item, faults)?;
    }
    Ok(())
}

/// Adds the faults of each table of an array by itself, and of their number.
fn find_some(
    context: &Context,
    part: &Part,
    items: &[Value],
    faults: &mut Vec<MetaFault>,
) -> Result<(), AllocError>
    ensures { OnOk result (faults.new.items ≡ faults.old.items
        ++ (some_items 1 MAX_TABLES (table context.now) (text_of part.now.at) (items_view items.now)).faults) }
{
    find_each(context, part, items, faults)?;
    find_count(part, 1, MAX_TABLES, items, faults)
}

fn find_several(
    context: &Context,
    part: &Part,
    faults: &mut Vec<MetaFault>,
) -> Result<(), AllocError>
    ensures { OnOk result (faults.new.items ≡ faults.old.items
        ++ (several 1 MAX_TABLES (table context.now) (text_of part.now.at) (view part.now.value.now)).faults) }
{
    match part.value {
        Value::Array(items) => find_some(context, part, items.as_slice(), faults),
        _ => add_wrong(part, faults),
    }
}

/// Returns the faults of the tables of an array together. `own` has the faults of each by itself.
fn tables_together(
    context: &Context,
    part: &Part,
    own: &[MetaFault],
) -> Result<Seq<MetaFault>, AllocError>
    ensures { IfOk result (λ fs. fs ≡ url_faults (text_of part.now.at) own.now
        (several 1 MAX_TABLES (table context.now) (text_of part.now.at) (view part.now.value.now)).value) }
{
    let tables = tables_here(context, part)?;
    url_faults(part, own, tables.as_slice())
}

fn find_tables_here(
    context: &Context,
    part: &Part,
    faults: &mut Vec<MetaFault>,
) -> Result<(), AllocError>
    ensures { OnOk result (faults.new.items ≡ faults.old.items
        ++ (tables context.now (text_of part.now.at) (view part.now.value.now)).faults) }
{
    let mut own = Vec::new(part.alloc);
    find_several(context, part, &mut own)?;
    let together = tables_together(context, part, own.as_slice())?;
    add_both(own, together.into_vec(), faults)
}

/// Adds the faults of the property `tables`.
fn find_tables(
    context: &Context,
    part: &Part,
    faults: &mut Vec<MetaFault>,
) -> Result<(), AllocError>
    ensures { OnOk result (faults.new.items ≡ faults.old.items
        ++ (needed (tables context.now) [] (text_of part.now.at) (view part.now.value.now) (codes "tables")).faults) }
{
    match part.value.get("tables") {
        None => add_fault(part, MetaCode::BadProperty, faults),
        Some(value) => find_tables_here(context, &part.member("tables", value), faults),
    }
}

/// Adds the faults of the group that the document describes.
#[tactic(auto, unfolding(csvw_meta::specs::Group::group))]
fn find_group(context: &Context, part: &Part, faults: &mut Vec<MetaFault>) -> Result<(), AllocError>
    ensures { OnOk result (faults.new.items ≡ faults.old.items ++ (group context.now (text_of part.now.at) (view part.now.value.now)).faults) }
{
    find_optional(part, &Fixed { text: "TableGroup" }, "@type", faults)?;
    find_all_notes(part, &context.base, faults)?;
    find_tables(context, part, faults)?;
    let id = IdReader {
        base: &context.base,
    };
    find_optional(part, &id, "@id", faults)?;
    find_given_dialect(context, part, faults)?;
    find_body(context, part, faults)
}

/// Adds the faults of the parts of the document: of a group, or of the one table that it is.
pub fn find_parts(
    context: &Context,
    part: &Part,
    faults: &mut Vec<MetaFault>,
) -> Result<(), AllocError>
    ensures { OnOk result (faults.new.items ≡ faults.old.items ++ (parts context.now (text_of part.now.at) (view part.now.value.now)).faults) }
{
    match part.value.get("tables") {
        Some(_) => find_group(context, part, faults),
        None => find_table_of(context, part, faults),
    }
}
