//! Schemas and their columns (Metadata Vocabulary for Tabular Data, sections 5.5 and 5.6).

use crate::array::{Items, array_property};
use crate::datatype::inherited_member;
use crate::kept::{Kept, keep_if};
use crate::node::Node;
use crate::object::{Properties, object_item};
use crate::properties::{column_property, schema_property};
use crate::titles::titles;
use csvw_meta_core::MetaFault;
use std::alloc::AllocError;

/// The rules of a column's properties.
#[derive(Drop)]
struct ColumnProperties;

impl Properties for ColumnProperties {
    ghost use Rattle.csvw_defaults.specs.Ignored.{column_member};

    ghost rule = { λ _. column_member };

    fn judge(
        &self,
        name: &str,
        node: &Node,
        faults: &mut Vec<MetaFault>,
    ) -> Result<Kept, AllocError> {
        if name == "titles" {
            return titles(node, faults);
        }
        inherited_member(column_property(name), name, node, faults)
    }
}

/// The rule of columns.
#[derive(Drop)]
struct ColumnItem;

impl Items for ColumnItem {
    ghost use Rattle.csvw_defaults.specs.Ignored.{column_member, object_item};

    ghost rule = { λ _. object_item column_member };

    fn judge(&self, node: &Node, faults: &mut Vec<MetaFault>) -> Result<Kept, AllocError> {
        object_item(&ColumnProperties, node, faults)
    }
}

/// The rule of foreign keys.
#[derive(Drop)]
struct KeyItem;

impl Items for KeyItem {
    ghost use Rattle.csvw_defaults.specs.Ignored.{foreign_key};

    ghost rule = { λ _. foreign_key };

    fn judge(&self, node: &Node, faults: &mut Vec<MetaFault>) -> Result<Kept, AllocError> {
        keep_if(node.part.value.is_object(), node, faults)
    }
}

/// The rules of a schema's properties.
#[derive(Drop)]
pub(crate) struct SchemaProperties;

impl Properties for SchemaProperties {
    ghost use Rattle.csvw_defaults.specs.Ignored.{schema_member};

    ghost rule = { λ _. schema_member };

    fn judge(
        &self,
        name: &str,
        node: &Node,
        faults: &mut Vec<MetaFault>,
    ) -> Result<Kept, AllocError> {
        match name {
            "columns" => array_property(&ColumnItem, node, faults),
            "foreignKeys" => array_property(&KeyItem, node, faults),
            _ => inherited_member(schema_property(name), name, node, faults),
        }
    }
}
