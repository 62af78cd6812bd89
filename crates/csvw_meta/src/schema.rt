//! Schemas (Metadata Vocabulary for Tabular Data, section 5.5).
ghost use Rattle.std.specs.Prelude.{◌≡◌, ◌<◌, ◌+◌, ◌^◌, ◌++◌, [], IfOk, MatchResult};
ghost use Rattle.csvw_description.specs.Name.{name_of, numbered_names};
ghost use Rattle.serde_json.specs.View.{view};
ghost use Rattle.csvw_meta_core.specs.Pointer.{text_of};
ghost use Rattle.csvw_meta_core.specs.Reads.{Fails, Reads};
ghost use Rattle.csvw_meta_keys.specs.Described.{all_warnings, names_of};
ghost use Rattle.csvw_meta_notes.specs.Places.{place_of};
ghost use Rattle.csvw_meta_notes.specs.Unlisted.{unlisted};
ghost use Rattle.csvw_meta_inherited.specs.Names.{inherited_names};
ghost use Rattle.csvw_meta.specs.Schema.{schema_names, name_faults, order_faults, column_faults, is_row_title, with_row_title, with_row_titles};
ghost use Rattle.csvw_meta.specs.Schema.{with_keys, schema_of};

use crate::column::ColumnReader;
use crate::repeated::repeated_at;
use crate::virtual_order::misplaced_at;
use csvw_description::{ColumnDescription, Schema};
use csvw_meta_core::{Context, Fixed, IdReader, MetaCode, Part, Reader, Refusal, Several, joined};
use csvw_meta_inherited::{InheritedFound, inheriting_warnings, read_inherited};
use csvw_meta_keys::naming::has_name;
use csvw_meta_keys::{KeysFound, read_keys};
use csvw_text::{Fault, Place, Seq, Text};
use serde_json::Value;
use std::alloc::{AllocError, Global};

/// The properties of a schema.
pub const SCHEMA: [&str; 6] = [
    "@id",
    "@type",
    "columns",
    "primaryKey",
    "foreignKeys",
    "rowTitles",
];

/// The greatest number of columns of a table.
pub const MAX_COLUMNS: u32 = 1024;

/// A schema, and its keys with their places.
#[derive(Drop)]
pub struct SchemaFound {
    /// The schema.
    pub schema: Schema,
    /// Its keys and row titles.
    pub keys: KeysFound,
}

/// The warnings on the schema of the table of this number, 0 for the group's. Its annotations say nothing.
fn schema_warnings(context: &Context, table: u32, part: &Part) -> Result<Seq<Fault>, Refusal>
    ensures { Reads result (unlisted context.now.base context.now.language (schema_names ++ inherited_names) (place_of table 0)
        (text_of part.now.at) (view part.now.value.now)) }
{
    let place = Place {
        table,
        row: 0,
        column: 0,
    };
    inheriting_warnings(context, &SCHEMA, place, part)
}

fn column_name(alloc: Global, column: &ColumnDescription, index: usize) -> Result<Text, AllocError>
    requires { index + 1 < 2 ^ 64 }
    ensures { IfOk result (λ t. t ≡ name_of (index + 1) column.now) }
{
    let name = column.resolved_name(alloc, index + 1)?;
    Text::copied(alloc, name.as_str())
}

/// Returns the names of columns, numbered from 1, or `AllocError` if there is no memory.
pub fn column_names(alloc: Global, columns: &[ColumnDescription]) -> Result<Seq<Text>, AllocError>
    ensures { IfOk result (λ s. s ≡ numbered_names 0 columns.now) }
{
    let mut names = Vec::new(alloc);
    for (i, column) in columns.iter().enumerate() {
        let name = column_name(alloc, column, i)?;
        names.push(name)?;
    }
    Ok(Seq::of(names))
}

/// Checks that no column has the name of an earlier one. Else the fault is `DuplicateName` at the later one.
fn check_names(part: &Part, columns: &[ColumnDescription]) -> Result<(), Refusal>
    ensures { MatchResult result (λ _. name_faults (text_of part.now.at) [] columns.now ≡ [])
        (λ e. Fails e (name_faults (text_of part.now.at) [] columns.now)) }
{
    let names = column_names(part.alloc, columns)?;
    match repeated_at(names.as_slice()) {
        None => Ok(()),
        Some(i) => Err(part.item(i, part.value).refused(MetaCode::DuplicateName)),
    }
}

/// Checks that no column that is not virtual comes after a virtual one. Else the fault is `VirtualOrder` at the column.
fn check_order(part: &Part, columns: &[ColumnDescription]) -> Result<(), Refusal>
    ensures { MatchResult result (λ _. order_faults (text_of part.now.at) [] columns.now ≡ [])
        (λ e. Fails e (order_faults (text_of part.now.at) [] columns.now)) }
{
    match misplaced_at(columns) {
        None => Ok(()),
        Some(i) => Err(part.item(i, part.value).refused(MetaCode::VirtualOrder)),
    }
}

/// Checks that each column has a name of its own, and that the virtual ones come last.
fn check_columns(part: &Part, columns: &[ColumnDescription]) -> Result<(), Refusal>
    ensures { MatchResult result (λ _. column_faults (text_of part.now.at) [] columns.now ≡ [])
        (λ e. Fails e (column_faults (text_of part.now.at) [] columns.now)) }
{
    check_names(part, columns)?;
    check_order(part, columns)
}

/// Reads the columns of a schema.
#[derive(Drop)]
pub struct Columns<'a> {
    /// The document's context.
    pub context: &'a Context,
    /// The number of their table, or 0 in the schema of the group.
    pub table: u32,
}

impl<'a> Reader for Columns<'a> {
    ghost use Rattle.csvw_meta.specs.Schema.{columns};

    type Output = Seq<ColumnDescription>;

    ghost reads = { λ r. columns r.context.now r.table };

    #[tactic(auto, using(crate::proofs::ReadLemmas::fails_first))]
    fn read(&self, part: &Part) -> Result<Seq<ColumnDescription>, Refusal> {
        let reader = ColumnReader {
            context: self.context,
            table: self.table,
        };
        let several = Several {
            reader,
            least: 0,
            most: MAX_COLUMNS,
        };
        let columns = several.read(part)?;
        check_columns(part, columns.as_slice())?;
        Ok(columns)
    }
}

/// Reads a schema. The URL of a schema is `NotSupported`.
#[derive(Drop)]
pub struct SchemaReader<'a> {
    /// The document's context.
    pub context: &'a Context,
    /// The number of its table, or 0 for the schema of the group.
    pub table: u32,
}

impl<'a> Reader for SchemaReader<'a> {
    ghost use Rattle.csvw_meta.specs.Schema.{schema};

    type Output = SchemaFound;

    ghost reads = { λ r. schema r.context.now r.table };

    fn read(&self, part: &Part) -> Result<SchemaFound, Refusal> {
        match part.value {
            Value::Object(_) => schema_of(self.context, self.table, part),
            Value::String(_) => Err(part.refused(MetaCode::NotSupported)),
            _ => Err(part.wrong()),
        }
    }
}

/// The primary key of a schema, and all its warnings.
#[derive(Drop)]
struct KeysDescribed {
    primary_key: Seq<Text>,
    warnings: Seq<Fault>,
}

/// Returns the primary key of a schema, with the warnings on what columns inherit, those on the schema, and those on the keys.
fn described_keys(
    alloc: Global,
    handed_down: Seq<Fault>,
    own: Seq<Fault>,
    keys: &KeysFound,
) -> Result<KeysDescribed, AllocError>
    ensures primary { IfOk result (λ k. k.primary_key ≡ names_of keys.now.primary) }
    ensures warnings { IfOk result (λ k. k.warnings ≡ (handed_down ++ own) ++ all_warnings keys.now.foreign) }
{
    let warnings = joined(handed_down, own)?;
    let warnings = joined(warnings, keys.warnings(alloc)?)?;
    Ok(KeysDescribed {
        primary_key: keys.primary_key(alloc)?,
        warnings,
    })
}

/// Returns whether the values of the column at an index are titles of their rows: they are already, or its name is among
/// these.
fn is_row_title(
    alloc: Global,
    names: &[Text],
    column: &ColumnDescription,
    index: usize,
) -> Result<bool, AllocError>
    requires { index + 1 < 2 ^ 64 }
    ensures { IfOk result (λ b. b ≡ is_row_title names.now (index + 1) column.now) }
{
    let name = column_name(alloc, column, index)?;
    Ok(column.is_row_title || has_name(names, name.as_str()))
}

fn with_row_title(
    alloc: Global,
    names: &[Text],
    column: &ColumnDescription,
    index: usize,
) -> Result<ColumnDescription, AllocError>
    requires { index + 1 < 2 ^ 64 }
    ensures { IfOk result (λ c. c ≡ with_row_title names.now (index + 1) column.now) }
{
    let is_row_title = is_row_title(alloc, names, column, index)?;
    let column = column.clone(alloc)?;
    Ok(ColumnDescription {
        is_row_title,
        ..column
    })
}

/// Returns copies of columns. The values of those of these names are titles of their rows.
fn each_titled(
    alloc: Global,
    names: &[Text],
    columns: &[ColumnDescription],
) -> Result<Seq<ColumnDescription>, AllocError>
    ensures { IfOk result (λ s. s ≡ with_row_titles names.now 0 columns.now) }
{
    let mut titled = Vec::new(alloc);
    for (i, column) in columns.iter().enumerate() {
        let column = with_row_title(alloc, names, column, i)?;
        titled.push(column)?;
    }
    Ok(Seq::of(titled))
}

/// Returns the columns with the row titles that are found. Most schemas have none, and then nothing is copied.
fn with_row_titles(
    alloc: Global,
    columns: Seq<ColumnDescription>,
    keys: &KeysFound,
) -> Result<Seq<ColumnDescription>, AllocError>
    ensures { IfOk result (λ s. s ≡ with_row_titles (names_of keys.now.row_titles) 0 columns) }
{
    if keys.row_titles.is_empty() {
        return Ok(columns);
    }
    let names = keys.row_titles(alloc)?;
    each_titled(alloc, names.as_slice(), columns.as_slice())
}

/// Returns the schema of these columns and keys, with its warnings and then those on the keys. It has no foreign keys yet,
/// since the tables of the group aren't known. It returns `AllocError` if there is no memory.
pub fn with_keys(
    alloc: Global,
    columns: Seq<ColumnDescription>,
    found: InheritedFound,
    warnings: Seq<Fault>,
    keys: KeysFound,
) -> Result<SchemaFound, AllocError>
    ensures { IfOk result (λ s. s ≡ with_keys columns found warnings keys) }
{
    let columns = with_row_titles(alloc, columns, &keys)?;
    let described = described_keys(alloc, found.warnings, warnings, &keys)?;
    let schema = Schema {
        columns,
        primary_key: described.primary_key,
        foreign_keys: Seq::new(alloc),
        inherited: found.inherited,
        warnings: described.warnings,
    };
    Ok(SchemaFound { schema, keys })
}

fn schema_of(context: &Context, table: u32, part: &Part) -> Result<SchemaFound, Refusal>
    ensures { Reads result (schema_of context.now table (text_of part.now.at) (view part.now.value.now)) }
{
    let id = part.optional(
        &IdReader {
            base: &context.base,
        },
        "@id",
    )?;
    part.optional(&Fixed { text: "Schema" }, "@type")?;
    let warnings = schema_warnings(context, table, part)?;
    let columns = part.property(&Columns { context, table }, Seq::new(part.alloc), "columns")?;
    let found = read_inherited(context, table, 0, part)?;
    let place = Place {
        table,
        row: 0,
        column: 0,
    };
    let keys = read_keys(context.profile, &context.base, place, id, part)?;
    Ok(with_keys(part.alloc, columns, found, warnings, keys)?)
}
