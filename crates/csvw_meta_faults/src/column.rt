//! The faults of columns (Metadata Vocabulary for Tabular Data, section 5.6).
ghost use Rattle.std.specs.Prelude.{◌≡◌, ◌++◌, OnOk, ℕ, codes};
ghost use Rattle.serde_json.specs.View.{view};
ghost use Rattle.csvw_meta_core.specs.Pointer.{text_of};
ghost use Rattle.csvw_meta_core.specs.Read.{optional};
ghost use Rattle.csvw_meta.specs.Column.{column, column_of};
ghost use Rattle.csvw_meta.specs.DeclaredName.{name};

use crate::titles::find_titles;
use csvw_meta::name::NameReader;
use csvw_meta_core::{Context, Fixed, IdReader, MetaFault, Part, Reader, Truth};
use csvw_meta_faults_core::{add_only, add_wrong, find_optional, find_property, find_unlisted};
use csvw_meta_faults_parts::find_inherited;
use serde_json::Value;
use std::alloc::AllocError;

/// Adds the faults of the property `name`.
fn find_name(part: &Part, faults: &mut Vec<MetaFault>) -> Result<(), AllocError>
    ensures { OnOk result (faults.new.items ≡ faults.old.items
        ++ (optional name (text_of part.now.at) (view part.now.value.now) (codes "name")).faults) }
{
    match part.value.get("name") {
        None => Ok(()),
        Some(value) => find_name_here(&part.member("name", value), faults),
    }
}

fn find_name_here(part: &Part, faults: &mut Vec<MetaFault>) -> Result<(), AllocError>
    ensures { OnOk result (faults.new.items ≡ faults.old.items ++ (name (text_of part.now.at) (view part.now.value.now)).faults) }
{
    add_only(NameReader.read(part), faults)
}

/// Adds the faults of the column that an object is.
#[tactic(auto, unfolding(csvw_meta::specs::Column::column_of))]
fn find_column_of(
    context: &Context,
    part: &Part,
    faults: &mut Vec<MetaFault>,
) -> Result<(), AllocError>
    ensures { (table number : ℕ) → OnOk result (faults.new.items ≡ faults.old.items
        ++ (column_of context.now table number (text_of part.now.at) (view part.now.value.now)).faults) }
{
    let id = IdReader {
        base: &context.base,
    };
    find_optional(part, &id, "@id", faults)?;
    find_optional(part, &Fixed { text: "Column" }, "@type", faults)?;
    find_property(part, &Truth, "virtual", faults)?;
    find_property(part, &Truth, "suppressOutput", faults)?;
    find_unlisted(part, &context.base, faults)?;
    find_name(part, faults)?;
    find_titles(part, faults)?;
    find_inherited(context, part, faults)
}

/// Adds the faults of a column. The numbers of the column and its table have no effect on them.
pub(crate) fn find_column(
    context: &Context,
    part: &Part,
    faults: &mut Vec<MetaFault>,
) -> Result<(), AllocError>
    ensures { (table number : ℕ) → OnOk result (faults.new.items ≡ faults.old.items
        ++ (column context.now table number (text_of part.now.at) (view part.now.value.now)).faults) }
{
    match part.value {
        Value::Object(_) => find_column_of(context, part, faults),
        _ => add_wrong(part, faults),
    }
}
