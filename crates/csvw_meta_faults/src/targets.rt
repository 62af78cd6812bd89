//! The tables of a group as those that foreign keys may refer to, whatever faults they have (Metadata Vocabulary for Tabular
//! Data, section 5.5.2).
ghost use Rattle.std.specs.Prelude.{◌≡◌, IfOk, codes, is_some, map};
ghost use Rattle.std.specs.List.{list_any};
ghost use Rattle.serde_json.specs.View.{view};
ghost use Rattle.serde_json.specs.Find.{get};
ghost use Rattle.csvw_description.specs.Keys.{declared_names};
ghost use Rattle.csvw_meta_core.specs.Pointer.{text_of};
ghost use Rattle.csvw_meta_core.specs.Rules.{hides_property};
ghost use Rattle.csvw_meta.specs.Group.{url_of as table_url};
ghost use Rattle.csvw_meta.specs.References.{hides_names, hides_own_id, id_or, own_schema_at, table_at};
ghost use Rattle.csvw_meta_faults.specs.Seen.{as_table};
ghost use Rattle.csvw_meta_faults.specs.Targets.{seen_target, seen_targets};

use crate::hidden_names::hides_names;
use crate::marks::Marks;
use crate::seen::TableSeen;
use crate::url_rule::url_of;
use csvw_description::{Nulls, Schema};
use csvw_iri::Iri;
use csvw_meta::references::{declared_names, id_or};
use csvw_meta_core::Part;
use csvw_meta_faults_core::below;
use csvw_meta_keys::KeysFound;
use csvw_text::{Seq, Text};
use std::alloc::{AllocError, Global};

/// The group whose tables foreign keys may refer to.
#[derive(Clone, Copy)]
pub(crate) struct InGroup<'a> {
    /// The faults of the parts of the document.
    pub(crate) marks: &'a Marks<'a>,
    /// The JSON Pointer (RFC 6901) of the group.
    pub(crate) at: &'a str,
    /// The keys of its schema.
    pub(crate) keys: &'a Option<KeysFound>,
}

/// What a fault hides of a table.
#[derive(Clone, Copy)]
struct Hidden {
    /// Whether a fault hides its URL.
    url: bool,
    /// Whether a fault hides the `@id` of its schema.
    id: bool,
    /// Whether a fault hides a name of its own schema.
    names: bool,
}

/// What is seen of a table that foreign keys may refer to.
#[derive(Drop)]
pub(crate) struct TargetSeen {
    /// Its URL, made safe.
    pub(crate) url: Text,
    /// The `@id` of its schema, or of that of the group if it has none of its own.
    pub(crate) id: Option<Iri>,
    /// The names of the columns of its own schema, in a set of texts.
    pub(crate) names: Nulls,
    /// Whether it has a schema of its own.
    pub(crate) has_schema: bool,
    /// Whether a fault hides its URL.
    pub(crate) url_hidden: bool,
    /// Whether a fault hides the `@id` of its schema.
    pub(crate) id_hidden: bool,
    /// Whether a fault hides a name of its own schema.
    pub(crate) names_hidden: bool,
}

/// Returns the pointer of the schema of the table at the first pointer: its own or, if it has none, that of the group.
fn own_schema_at(
    alloc: Global,
    at: &str,
    group_at: &str,
    schema: &Option<Schema>,
) -> Result<Text, AllocError>
    ensures { IfOk result (λ t. t ≡ own_schema_at at.now group_at.now schema.now) }
{
    match schema {
        Some(_) => below(alloc, at, "tableSchema"),
        None => below(alloc, group_at, "tableSchema"),
    }
}

/// Returns whether a fault hides the `@id` of the schema of the table at a pointer.
fn hides_id(alloc: Global, group: &InGroup, at: &str, table: &TableSeen) -> Result<bool, AllocError>
    ensures { IfOk result (λ b. b
        ≡ list_any (hides_own_id at.now group.now.at.now (as_table table.now)) group.now.marks.now.faults.now) }
{
    if group.marks.is_at(at) {
        return Ok(true);
    }
    let schema = own_schema_at(alloc, at, group.at, &table.schema)?;
    group.marks.hides_property(alloc, schema.as_str(), "@id")
}

/// Returns what a fault hides of the table at a pointer.
fn hidden_of(
    alloc: Global,
    group: &InGroup,
    at: &str,
    table: &TableSeen,
) -> Result<Hidden, AllocError>
    ensures { IfOk result (λ h. h ≡ record {
      url = list_any (hides_property at.now (codes "url")) group.now.marks.now.faults.now;
      id = list_any (hides_own_id at.now group.now.at.now (as_table table.now)) group.now.marks.now.faults.now;
      names = list_any (hides_names at.now table.now.schema) group.now.marks.now.faults.now;
    }) }
{
    let url = group.marks.hides_property(alloc, at, "url")?;
    let id = hides_id(alloc, group, at, table)?;
    let names = hides_names(alloc, group.marks, at, &table.schema)?;
    Ok(Hidden { url, id, names })
}

/// Returns what is seen of the table at a pointer.
fn target_seen(
    alloc: Global,
    group: &InGroup,
    at: &str,
    table: &TableSeen,
) -> Result<TargetSeen, AllocError>
    ensures { IfOk result (λ t. t
        ≡ seen_target at.now group.now.at.now group.now.keys.now group.now.marks.now.faults.now (as_table table.now)) }
{
    let hidden = hidden_of(alloc, group, at, table)?;
    target_with(alloc, group.keys, table, hidden)
}

/// Returns the names of the columns of a schema, in a set of texts.
pub(crate) fn names_of(alloc: Global, schema: &Option<Schema>) -> Result<Nulls, AllocError>
    ensures { IfOk result (λ n. n ≡ declared_names schema.now) }
{
    Nulls::of(alloc, declared_names(alloc, schema)?)
}

/// Returns what is seen of a table, given what a fault hides of it. `group` has the keys of the group's schema.
fn target_with(
    alloc: Global,
    group: &Option<KeysFound>,
    table: &TableSeen,
    hidden: Hidden,
) -> Result<TargetSeen, AllocError>
    ensures { IfOk result (λ t. t ≡ record {
      url = table_url (as_table table.now);
      id = id_or table.now.keys group.now;
      names = declared_names table.now.schema;
      has_schema = is_some table.now.schema;
      url_hidden = hidden.url;
      id_hidden = hidden.id;
      names_hidden = hidden.names;
    }) }
{
    let names = names_of(alloc, &table.schema)?;
    let url = url_of(alloc, table)?;
    let id = id_or(alloc, &table.keys, group)?;
    Ok(TargetSeen {
        url,
        id,
        names,
        has_schema: table.schema.is_some(),
        url_hidden: hidden.url,
        id_hidden: hidden.id,
        names_hidden: hidden.names,
    })
}

/// Returns the pointer of the table of an index, in a group or as the document itself.
fn table_pointer(part: &Part, index: usize) -> Result<Text, AllocError>
    ensures { IfOk result (λ t. t ≡ table_at (is_some (get (codes "tables") (view part.now.value.now))) (text_of part.now.at) index) }
{
    match part.value.get("tables") {
        Some(tables) => {
            let array = part.member("tables", tables);
            array.item(index, tables).at.text(part.alloc)
        }
        None => part.at.text(part.alloc),
    }
}

fn target_at(
    part: &Part,
    group: &InGroup,
    index: usize,
    table: &TableSeen,
) -> Result<TargetSeen, AllocError>
    ensures { IfOk result (λ t. t ≡ seen_target (table_at (is_some (get (codes "tables") (view part.now.value.now)))
        (text_of part.now.at) index) group.now.at.now group.now.keys.now group.now.marks.now.faults.now (as_table table.now)) }
{
    let at = table_pointer(part, index)?;
    target_seen(part.alloc, group, at.as_str(), table)
}

/// Returns what is seen of each table of the document's group, as one that foreign keys may refer to. It returns
/// `AllocError` if there is no memory for it.
pub(crate) fn targets_seen(
    part: &Part,
    group: &InGroup,
    tables: &[TableSeen],
) -> Result<Seq<TargetSeen>, AllocError>
    ensures { IfOk result (λ ts. ts ≡ seen_targets (table_at (is_some (get (codes "tables") (view part.now.value.now)))
        (text_of part.now.at)) group.now.at.now group.now.keys.now group.now.marks.now.faults.now 0 (map as_table tables.now)) }
{
    let mut targets = Vec::new(part.alloc);
    for (i, table) in tables.iter().enumerate() {
        let target = target_at(part, group, i, table)?;
        targets.push(target)?;
    }
    Ok(Seq::of(targets))
}
