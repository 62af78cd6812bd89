//! Columns (Metadata Vocabulary for Tabular Data, section 5.6).
ghost use Rattle.std.specs.Prelude.{◌≡◌, ◌++◌};
ghost use Rattle.serde_json.specs.View.{view};
ghost use Rattle.csvw_meta_core.specs.Pointer.{text_of};
ghost use Rattle.csvw_meta_core.specs.Reads.{Reads};
ghost use Rattle.csvw_meta_notes.specs.Places.{place_of};
ghost use Rattle.csvw_meta_notes.specs.Unlisted.{unlisted};
ghost use Rattle.csvw_meta_inherited.specs.Names.{inherited_names};
ghost use Rattle.csvw_meta.specs.Column.{column_names, column_of};

use crate::name::NameReader;
use crate::titles::Titles;
use csvw_description::ColumnDescription;
use csvw_meta_core::{Context, Fixed, IdReader, NumberedReader, Part, Refusal, Truth, joined};
use csvw_meta_inherited::{inheriting_warnings, read_inherited};
use csvw_text::{Fault, Place, Seq};
use serde_json::Value;

/// The properties of a column.
pub const COLUMN: [&str; 6] = [
    "@id",
    "@type",
    "name",
    "titles",
    "suppressOutput",
    "virtual",
];

/// Reads a column, by its number.
#[derive(Drop)]
pub struct ColumnReader<'a> {
    /// The document's context.
    pub context: &'a Context,
    /// The number of its table, or 0 in the schema of the group.
    pub table: u32,
}

impl<'a> NumberedReader for ColumnReader<'a> {
    ghost use Rattle.csvw_meta.specs.Column.{column};

    type Output = ColumnDescription;

    ghost reads = { λ r. column r.context.now r.table };

    fn read(&self, number: u32, part: &Part) -> Result<ColumnDescription, Refusal> {
        match part.value {
            Value::Object(_) => column_of(self, number, part),
            _ => Err(part.wrong()),
        }
    }
}

/// The warnings on a column: its number, and that of its table or 0 in the group's schema. Its annotations say nothing.
fn column_warnings(
    context: &Context,
    table: u32,
    column: u32,
    part: &Part,
) -> Result<Seq<Fault>, Refusal>
    ensures { Reads result (unlisted context.now.base context.now.language (column_names ++ inherited_names) (place_of table column)
        (text_of part.now.at) (view part.now.value.now)) }
{
    let place = Place {
        table,
        row: 0,
        column,
    };
    inheriting_warnings(context, &COLUMN, place, part)
}

fn column_of(reader: &ColumnReader, number: u32, part: &Part) -> Result<ColumnDescription, Refusal>
    ensures { Reads result (column_of reader.now.context.now reader.now.table number (text_of part.now.at) (view part.now.value.now)) }
{
    part.optional(
        &IdReader {
            base: &reader.context.base,
        },
        "@id",
    )?;
    part.optional(&Fixed { text: "Column" }, "@type")?;
    let is_virtual = part.property(&Truth, false, "virtual")?;
    let suppressed = part.property(&Truth, false, "suppressOutput")?;
    let warnings = column_warnings(reader.context, reader.table, number, part)?;
    let name = part.optional(&NameReader, "name")?;
    let titles = Titles {
        language: &reader.context.language,
    };
    let titles = part.property(&titles, Seq::new(part.alloc), "titles")?;
    let found = read_inherited(reader.context, reader.table, number, part)?;
    let warnings = joined(found.warnings, warnings)?;
    Ok(ColumnDescription {
        name,
        titles,
        is_virtual,
        suppressed,
        is_row_title: false,
        inherited: found.inherited,
        warnings,
    })
}
