//! Groups of tables (Metadata Vocabulary for Tabular Data, section 5.3).
ghost use Rattle.std.specs.Prelude.{◌≡◌, ◌++◌, [], IfOk, MatchResult, map};
ghost use Rattle.serde_json.specs.View.{view};
ghost use Rattle.csvw_meta_core.specs.Pointer.{text_of};
ghost use Rattle.csvw_meta_core.specs.Reads.{Fails, Reads};
ghost use Rattle.csvw_meta_notes.specs.Places.{place_of};
ghost use Rattle.csvw_meta_notes.specs.Unlisted.{all_warnings};
ghost use Rattle.csvw_meta_inherited.specs.Names.{inherited_names};
ghost use Rattle.csvw_meta.specs.ForeignKeys.{linked_table};
ghost use Rattle.csvw_meta.specs.Group.{group_names, url_of, url_faults, group, described_among};

use crate::body::{Body, DialectGiven, read_body, read_dialect};
use crate::foreign_keys::{linked, linked_table};
use crate::repeated::repeated_at;
use crate::table::{TableFound, TableReader};
use csvw_description::{Description, Note, TableDescription};
use csvw_iri::Iri;
use csvw_meta_core::{Context, Fixed, IdReader, MetaCode, Part, Reader, Refusal, Several, joined};
use csvw_meta_inherited::annotated_warnings;
use csvw_meta_keys::Target;
use csvw_meta_notes::read_notes;
use csvw_text::{Fault, Place, Seq, Text, both};
use std::alloc::{AllocError, Global};

/// The properties of a group.
pub const GROUP: [&str; 9] = [
    "@context",
    "@id",
    "@type",
    "tables",
    "dialect",
    "tableSchema",
    "notes",
    "tableDirection",
    "transformations",
];

/// The greatest number of tables of a group.
pub const MAX_TABLES: u32 = 64;

/// The parts of a group. Its keys may name what does not exist.
#[derive(Drop)]
pub struct GroupFound {
    /// Its `@id`.
    pub id: Option<Iri>,
    /// Its tables.
    pub tables: Seq<TableFound>,
    /// Its dialect, and the warnings on it and on the group.
    pub given: DialectGiven,
    /// Its schema and its inherited properties.
    pub body: Body,
    /// Its annotations.
    pub notes: Seq<Note>,
}

/// The warnings on the group, and on its annotations.
fn group_warnings(part: &Part) -> Result<Seq<Fault>, Refusal>
    ensures { Reads result (all_warnings (group_names ++ inherited_names) (place_of 0 0) (text_of part.now.at) (view part.now.value.now)) }
{
    let place = Place {
        table: 0,
        row: 0,
        column: 0,
    };
    annotated_warnings(&GROUP, place, part)
}

fn url_of(alloc: Global, found: &TableFound) -> Result<Text, AllocError>
    ensures { IfOk result (λ t. t ≡ url_of found.now) }
{
    Text::copied(alloc, found.table.url.iri().as_str())
}

/// Returns the URLs of tables, made safe, or `AllocError` if there is no memory.
pub fn urls(alloc: Global, tables: &[TableFound]) -> Result<Seq<Text>, AllocError>
    ensures { IfOk result (λ s. s ≡ map url_of tables.now) }
{
    let mut urls = Vec::new(alloc);
    for table in tables {
        let url = url_of(alloc, table)?;
        urls.push(url)?;
    }
    Ok(Seq::of(urls))
}

/// Checks that no table has the URL of an earlier one. Else the fault is `DuplicateTable` at the later one's URL.
fn check_urls(part: &Part, tables: &[TableFound]) -> Result<(), Refusal>
    ensures { MatchResult result (λ _. url_faults (text_of part.now.at) [] tables.now ≡ []) (λ e. Fails e (url_faults (text_of part.now.at) [] tables.now)) }
{
    let urls = urls(part.alloc, tables)?;
    match repeated_at(urls.as_slice()) {
        None => Ok(()),
        Some(i) => {
            let table = part.item(i, part.value);
            Err(
                table
                    .member("url", part.value)
                    .refused(MetaCode::DuplicateTable),
            )
        }
    }
}

/// Reads the tables of a group.
#[derive(Drop)]
pub struct Tables<'a> {
    /// The document's context.
    pub context: &'a Context,
}

impl<'a> Reader for Tables<'a> {
    ghost use Rattle.csvw_meta.specs.Group.{tables};

    type Output = Seq<TableFound>;

    ghost reads = { λ r. tables r.context.now };

    #[tactic(auto, using(crate::proofs::ReadLemmas::fails_first))]
    fn read(&self, part: &Part) -> Result<Seq<TableFound>, Refusal> {
        let several = Several {
            reader: TableReader {
                context: self.context,
            },
            least: 1,
            most: MAX_TABLES,
        };
        let tables = several.read(part)?;
        check_urls(part, tables.as_slice())?;
        Ok(tables)
    }
}

/// Reads the parts of the group that the document describes.
#[tactic(auto, using(crate::proofs::ReadLemmas::fails_first), unfolding(crate::specs::Group::group))]
pub(crate) fn read_group(context: &Context, part: &Part) -> Result<GroupFound, Refusal>
    ensures { Reads result (group context.now (text_of part.now.at) (view part.now.value.now)) }
{
    part.optional(&Fixed { text: "TableGroup" }, "@type")?;
    let notes = read_notes(context, part)?;
    let warnings = group_warnings(part)?;
    let tables = part.needed(&Tables { context }, "tables")?;
    let id = part.optional(
        &IdReader {
            base: &context.base,
        },
        "@id",
    )?;
    let given = read_dialect(context, 0, warnings, part)?;
    let body = read_body(context, 0, part)?;
    Ok(GroupFound {
        id,
        tables,
        given,
        body,
        notes,
    })
}

fn described_tables(
    alloc: Global,
    targets: &[Target],
    all: Vec<TableFound>,
) -> Result<Seq<TableDescription>, AllocError>
    ensures { IfOk result (λ s. s ≡ map (linked_table targets.now) all.items) }
{
    let mut tables = Vec::new(alloc);
    for found in all {
        let table = linked_table(alloc, targets, found)?;
        tables.push(table)?;
    }
    Ok(Seq::of(tables))
}

/// Returns the description of the parts of a group, whose foreign keys refer to these tables. It returns `AllocError` if
/// there is no memory.
pub(crate) fn described_among(
    alloc: Global,
    targets: &[Target],
    group: GroupFound,
) -> Result<Description, AllocError>
    ensures { IfOk result (λ d. d ≡ described_among targets.now group) }
{
    let given = group.given;
    let body = group.body;
    let schema = linked(alloc, targets, body.schema, &body.keys)?;
    let warnings = joined(body.warnings, given.warnings);
    let tables = described_tables(alloc, targets, group.tables.into_vec());
    let (tables, warnings) = both(tables, warnings)?;
    Ok(Description {
        id: group.id,
        tables,
        dialect: given.dialect,
        schema,
        inherited: body.inherited,
        notes: group.notes,
        warnings,
    })
}
