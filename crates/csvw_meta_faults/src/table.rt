//! The faults of tables (Metadata Vocabulary for Tabular Data, section 5.4).
ghost use Rattle.std.specs.Prelude.{◌≡◌, ◌++◌, Bool, OnOk, ℕ};
ghost use Rattle.serde_json.specs.View.{view};
ghost use Rattle.csvw_meta_core.specs.Pointer.{text_of};
ghost use Rattle.csvw_meta.specs.Table.{table, table_of};

use crate::body::{find_body, find_given_dialect};
use csvw_meta_core::{Context, Fixed, IdReader, MetaFault, Part, Truth, UrlReader};
use csvw_meta_faults_core::{add_wrong, find_all_notes, find_needed, find_optional, find_property};
use serde_json::Value;
use std::alloc::AllocError;

/// Adds the faults of the table that an object is. Its number has no effect on them, nor whether it is the document.
#[tactic(auto, unfolding(csvw_meta::specs::Table::table_of))]
pub(crate) fn find_table_of(
    context: &Context,
    part: &Part,
    faults: &mut Vec<MetaFault>,
) -> Result<(), AllocError>
    ensures { (sole : Bool) (number : ℕ) → OnOk result (faults.new.items ≡ faults.old.items
        ++ (table_of context.now sole number (text_of part.now.at) (view part.now.value.now)).faults) }
{
    find_optional(part, &Fixed { text: "Table" }, "@type", faults)?;
    find_all_notes(part, &context.base, faults)?;
    find_property(part, &Truth, "suppressOutput", faults)?;
    let url = UrlReader {
        base: &context.base,
    };
    find_needed(part, &url, "url", faults)?;
    let id = IdReader {
        base: &context.base,
    };
    find_optional(part, &id, "@id", faults)?;
    find_given_dialect(context, part, faults)?;
    find_body(context, part, faults)
}

/// Adds the faults of a table of a group. Its number has no effect on them.
pub fn find_table(
    context: &Context,
    part: &Part,
    faults: &mut Vec<MetaFault>,
) -> Result<(), AllocError>
    ensures { (number : ℕ) → OnOk result (faults.new.items ≡ faults.old.items
        ++ (table context.now number (text_of part.now.at) (view part.now.value.now)).faults) }
{
    match part.value {
        Value::Object(_) => find_table_of(context, part, faults),
        _ => add_wrong(part, faults),
    }
}
