//! Tables (Metadata Vocabulary for Tabular Data, section 5.4).
ghost use Rattle.std.specs.Prelude.{◌≡◌, ◌++◌};
ghost use Rattle.serde_json.specs.View.{view};
ghost use Rattle.csvw_meta_core.specs.Pointer.{text_of};
ghost use Rattle.csvw_meta_core.specs.Reads.{Reads};
ghost use Rattle.csvw_meta_notes.specs.Places.{place_of};
ghost use Rattle.csvw_meta_notes.specs.Unlisted.{all_warnings};
ghost use Rattle.csvw_meta_inherited.specs.Names.{inherited_names};
ghost use Rattle.csvw_meta.specs.Table.{sole_table_names, table_names, table_of, table_others};

use crate::body::{read_body, read_dialect};
use csvw_description::TableDescription;
use csvw_meta_core::{
    Context, Fixed, IdReader, NumberedReader, Part, Reader, Refusal, Truth, UrlReader, joined,
};
use csvw_meta_inherited::annotated_warnings;
use csvw_meta_keys::KeysFound;
use csvw_meta_notes::read_notes;
use csvw_text::{Fault, Place, Seq};
use serde_json::Value;

/// The properties of a table of a group.
pub const TABLE: [&str; 9] = [
    "url",
    "@id",
    "@type",
    "dialect",
    "tableSchema",
    "notes",
    "suppressOutput",
    "tableDirection",
    "transformations",
];

/// The properties of a table that is the document.
pub const SOLE_TABLE: [&str; 10] = [
    "@context",
    "url",
    "@id",
    "@type",
    "dialect",
    "tableSchema",
    "notes",
    "suppressOutput",
    "tableDirection",
    "transformations",
];

/// A table, and the keys of its own schema with their places.
#[derive(Drop)]
pub struct TableFound {
    /// The table.
    pub table: TableDescription,
    /// The keys, or `None` if the table has no schema of its own.
    pub keys: Option<KeysFound>,
}

/// Reads a table of a group, by its number.
#[derive(Drop)]
pub struct TableReader<'a> {
    /// The document's context.
    pub context: &'a Context,
}

impl<'a> NumberedReader for TableReader<'a> {
    ghost use Rattle.csvw_meta.specs.Table.{table};

    type Output = TableFound;

    ghost reads = { λ r. table r.context.now };

    fn read(&self, number: u32, part: &Part) -> Result<TableFound, Refusal> {
        match part.value {
            Value::Object(_) => table_of(self.context, false, number, part),
            _ => Err(part.wrong()),
        }
    }
}

/// The warnings on the table of this number in its group, and on its annotations.
fn table_warnings(table: u32, part: &Part) -> Result<Seq<Fault>, Refusal>
    ensures { Reads result (all_warnings (table_names ++ inherited_names) (place_of table 0) (text_of part.now.at) (view part.now.value.now)) }
{
    let place = Place {
        table,
        row: 0,
        column: 0,
    };
    annotated_warnings(&TABLE, place, part)
}

/// The warnings on the table that is the document, and on its annotations.
fn sole_table_warnings(part: &Part) -> Result<Seq<Fault>, Refusal>
    ensures { Reads result (all_warnings (sole_table_names ++ inherited_names) (place_of 1 0) (text_of part.now.at) (view part.now.value.now)) }
{
    let place = Place {
        table: 1,
        row: 0,
        column: 0,
    };
    annotated_warnings(&SOLE_TABLE, place, part)
}

fn warnings_of(sole: bool, number: u32, part: &Part) -> Result<Seq<Fault>, Refusal>
    ensures { Reads result (table_others sole number (text_of part.now.at) (view part.now.value.now)) }
{
    if sole {
        sole_table_warnings(part)
    } else {
        table_warnings(number, part)
    }
}

/// Reads the table of this number from an object, which may be the document.
#[tactic(auto, using(crate::proofs::ReadLemmas::fails_first), unfolding(crate::specs::Table::table_of))]
pub(crate) fn table_of(
    context: &Context,
    sole: bool,
    number: u32,
    part: &Part,
) -> Result<TableFound, Refusal>
    ensures { Reads result (table_of context.now sole number (text_of part.now.at) (view part.now.value.now)) }
{
    part.optional(&Fixed { text: "Table" }, "@type")?;
    let notes = read_notes(context, part)?;
    let suppressed = part.property(&Truth, false, "suppressOutput")?;
    let warnings = warnings_of(sole, number, part)?;
    let url = part.needed(
        &UrlReader {
            base: &context.base,
        },
        "url",
    )?;
    let id = part.optional(
        &IdReader {
            base: &context.base,
        },
        "@id",
    )?;
    let given = read_dialect(context, number, warnings, part)?;
    let body = read_body(context, number, part)?;
    let warnings = joined(body.warnings, given.warnings)?;
    let table = TableDescription {
        url,
        id,
        dialect: given.dialect,
        schema: body.schema,
        suppressed,
        inherited: body.inherited,
        notes,
        warnings,
    };
    Ok(TableFound {
        table,
        keys: body.keys,
    })
}
