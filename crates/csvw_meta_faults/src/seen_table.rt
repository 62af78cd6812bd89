//! What is seen of a table (Metadata Vocabulary for Tabular Data, section 5.4), whatever faults it has.
ghost use Rattle.std.specs.Prelude.{◌≡◌, Bool, IfOk, codes, option_map, unwrap_or, ℕ};
ghost use Rattle.serde_json.specs.View.{view};
ghost use Rattle.csvw_meta_core.specs.Links.{no_url, url as url_read};
ghost use Rattle.csvw_meta_core.specs.Pointer.{text_of};
ghost use Rattle.csvw_meta_core.specs.Read.{needed};
ghost use Rattle.csvw_meta.specs.Table.{table, table_of};
ghost use Rattle.csvw_meta_faults.specs.Seen.{as_table, bare_table};

use crate::seen::TableSeen;
use crate::seen_schema::own_schema;
use csvw_iri::Base;
use csvw_meta::schema::SchemaFound;
use csvw_meta_core::{Context, Part, Refusal, UrlReader};
use serde_json::Value;
use std::alloc::AllocError;

/// Returns the URL of a table, or `None` if it can't be read.
fn url_seen(context: &Context, part: &Part) -> Result<Option<Base>, AllocError>
    ensures { IfOk result (λ u. unwrap_or u no_url ≡
        (needed (url_read context.now.base) no_url (text_of part.now.at) (view part.now.value.now) (codes "url")).value) }
{
    let url = UrlReader {
        base: &context.base,
    };
    match part.needed(&url, "url") {
        Ok(url) => Ok(Some(url)),
        Err(Refusal::Memory) => Err(AllocError),
        Err(Refusal::Fault(_)) => Ok(None),
    }
}

/// Returns what is seen of a table of this URL and this schema.
fn table_with(url: Option<Base>, own: Option<SchemaFound>) -> TableSeen
    ensures url { result.url ≡ url }
    ensures schema { result.schema ≡ option_map (λ s. s.schema) own }
    ensures keys { result.keys ≡ option_map (λ s. s.keys) own }
{
    match own {
        Some(own) => TableSeen {
            url,
            schema: Some(own.schema),
            keys: Some(own.keys),
        },
        None => TableSeen {
            url,
            schema: None,
            keys: None,
        },
    }
}

/// Returns what is seen of the table that an object is.
pub(crate) fn table_of_seen(context: &Context, part: &Part) -> Result<TableSeen, AllocError>
    ensures { (sole : Bool) (number : ℕ) → IfOk result (λ t. as_table t
        ≡ bare_table (table_of context.now sole number (text_of part.now.at) (view part.now.value.now)).value) }
{
    let url = url_seen(context, part)?;
    let own = own_schema(context, part)?;
    Ok(table_with(url, own))
}

/// Returns what is seen of a table.
pub(crate) fn table_seen(context: &Context, part: &Part) -> Result<TableSeen, AllocError>
    ensures { (number : ℕ) → IfOk result (λ t. as_table t ≡ bare_table (table context.now number (text_of part.now.at) (view part.now.value.now)).value) }
{
    match part.value {
        Value::Object(_) => table_of_seen(context, part),
        _ => Ok(table_with(None, None)),
    }
}
