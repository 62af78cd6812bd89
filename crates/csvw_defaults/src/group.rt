//! Groups of tables, and their tables (Metadata Vocabulary for Tabular Data, sections 5.3, 5.4 and 5.9).
ghost use Rattle.std.specs.Prelude.{◌≡◌, ◌++◌, IfOk, OnOk, codes, is_some};
ghost use Rattle.serde_json.specs.Find.{get};
ghost use Rattle.serde_json.specs.View.{view, members_view};
ghost use Rattle.csvw_meta_core.specs.Pointer.{text_of};
ghost use Rattle.csvw_defaults.specs.Sources.{source_of};
ghost use Rattle.csvw_defaults.specs.Ignored.{document, document_member, shared_member, tables};
ghost use Rattle.csvw_defaults.specs.Parts.{left_of, member_faults};
ghost use Rattle.csvw_defaults.specs.Keeping.{IsLeft};

use crate::array::{Items, judge_array};
use crate::datatype::inherited_member;
use crate::kept::{Kept, keep, keep_kind};
use crate::node::Node;
use crate::object::{Properties, left_of, object_item, object_property};
use crate::permitted::Permitted;
use crate::properties::{dialect_property, group_property, table_property};
use crate::schema::SchemaProperties;
use csvw_meta_core::MetaFault;
use serde_json::{Map, Value};
use std::alloc::AllocError;

/// The rules of a dialect's properties.
#[derive(Drop)]
struct DialectProperties;

impl Properties for DialectProperties {
    ghost use Rattle.csvw_defaults.specs.Ignored.{dialect_member};

    ghost rule = { λ _. dialect_member };

    fn judge(
        &self,
        name: &str,
        node: &Node,
        faults: &mut Vec<MetaFault>,
    ) -> Result<Kept, AllocError> {
        keep_kind(dialect_property(name), node, faults)
    }
}

/// Judges a property that groups and tables have: the dialect, the schema, or one that columns may inherit.
fn shared_member(
    kind: Permitted,
    name: &str,
    node: &Node,
    faults: &mut Vec<MetaFault>,
) -> Result<Kept, AllocError>
    ensures faults { OnOk result (faults.new.items ≡ faults.old.items
        ++ (shared_member kind name.now (text_of node.now.part.at) (source_of node.now.source) (view node.now.part.value.now)).faults) }
    ensures left { IfOk result (IsLeft (shared_member kind name.now (text_of node.now.part.at) (source_of node.now.source) (view node.now.part.value.now))) }
{
    match name {
        "dialect" => object_property(&DialectProperties, node, faults),
        "tableSchema" => object_property(&SchemaProperties, node, faults),
        _ => inherited_member(kind, name, node, faults),
    }
}

/// The rules of a table's properties.
#[derive(Drop)]
struct TableProperties;

impl Properties for TableProperties {
    ghost use Rattle.csvw_defaults.specs.Ignored.{table_member};

    ghost rule = { λ _. table_member };

    fn judge(
        &self,
        name: &str,
        node: &Node,
        faults: &mut Vec<MetaFault>,
    ) -> Result<Kept, AllocError> {
        shared_member(table_property(name), name, node, faults)
    }
}

/// The rule of tables.
#[derive(Drop)]
struct TableItem;

impl Items for TableItem {
    ghost use Rattle.csvw_defaults.specs.Ignored.{object_item, table_member};

    ghost rule = { λ _. object_item table_member };

    fn judge(&self, node: &Node, faults: &mut Vec<MetaFault>) -> Result<Kept, AllocError> {
        object_item(&TableProperties, node, faults)
    }
}

/// Judges the tables of a group. Another value than an array stays, since the tables are needed.
fn tables(node: &Node, faults: &mut Vec<MetaFault>) -> Result<Kept, AllocError>
    ensures faults { OnOk result (faults.new.items ≡ faults.old.items
        ++ (tables (text_of node.now.part.at) (source_of node.now.source) (view node.now.part.value.now)).faults) }
    ensures left { IfOk result (IsLeft (tables (text_of node.now.part.at) (source_of node.now.source) (view node.now.part.value.now))) }
{
    match node.part.value {
        Value::Array(items) => judge_array(&TableItem, node, items.as_slice(), faults),
        _ => keep(node.part.value),
    }
}

/// The rules of a group's properties.
#[derive(Drop)]
struct GroupProperties;

impl Properties for GroupProperties {
    ghost use Rattle.csvw_defaults.specs.Ignored.{group_member};

    ghost rule = { λ _. group_member };

    fn judge(
        &self,
        name: &str,
        node: &Node,
        faults: &mut Vec<MetaFault>,
    ) -> Result<Kept, AllocError> {
        if name == "tables" {
            return tables(node, faults);
        }
        shared_member(group_property(name), name, node, faults)
    }
}

/// Returns what is left of the object of a document, and adds the values in it that are ignored. One with `tables` is a group, and another
/// is a table.
fn of_members(
    node: &Node,
    members: &Map<String, Value>,
    faults: &mut Vec<MetaFault>,
) -> Result<Map<String, Value>, AllocError>
    ensures faults { OnOk result (faults.new.items ≡ faults.old.items
        ++ member_faults (document_member (is_some (get (codes "tables") (view node.now.part.value.now))))
        (text_of node.now.part.at) (source_of node.now.source) (members_view members.now.entries)) }
    ensures left { IfOk result (λ left. members_view left.entries
        ≡ left_of (document_member (is_some (get (codes "tables") (view node.now.part.value.now))))
        (text_of node.now.part.at) (source_of node.now.source) (members_view members.now.entries)) }
{
    match node.part.value.get("tables") {
        Some(_) => left_of(&GroupProperties, node, members, faults),
        None => left_of(&TableProperties, node, members, faults),
    }
}

/// Returns what is left of a document, and adds the values in it that are ignored. A document that is no object stays.
pub(crate) fn document(node: &Node, faults: &mut Vec<MetaFault>) -> Result<Value, AllocError>
    ensures faults { OnOk result (faults.new.items ≡ faults.old.items
        ++ (document (text_of node.now.part.at) (source_of node.now.source) (view node.now.part.value.now)).faults) }
    ensures left { IfOk result (λ left. view left ≡ (document (text_of node.now.part.at) (source_of node.now.source) (view node.now.part.value.now)).value) }
{
    match node.part.value {
        Value::Object(members) => Ok(Value::Object(of_members(node, members, faults)?)),
        _ => Ok(node.part.value.clone()?),
    }
}
