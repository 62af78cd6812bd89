//! Datatypes, and what columns inherit (Metadata Vocabulary for Tabular Data, sections 5.7 and 5.11).
ghost use Rattle.std.specs.Prelude.{◌≡◌, ◌++◌, IfOk, OnOk};
ghost use Rattle.serde_json.specs.View.{view};
ghost use Rattle.csvw_meta_core.specs.Pointer.{text_of};
ghost use Rattle.csvw_defaults.specs.Sources.{source_of};
ghost use Rattle.csvw_defaults.specs.Ignored.{inherited_member};
ghost use Rattle.csvw_defaults.specs.Keeping.{IsLeft};

use crate::kept::{Kept, keep_by_kind, keep_kind};
use crate::node::Node;
use crate::object::{Properties, text_or_object};
use crate::permitted::Permitted;
use crate::properties::{datatype_property, format_property};
use csvw_meta_core::MetaFault;
use std::alloc::AllocError;

/// The rules of a number format's properties.
#[derive(Drop)]
struct FormatProperties;

impl Properties for FormatProperties {
    ghost use Rattle.csvw_defaults.specs.Ignored.{format_member};

    ghost rule = { λ _. format_member };

    fn judge(
        &self,
        name: &str,
        node: &Node,
        faults: &mut Vec<MetaFault>,
    ) -> Result<Kept, AllocError> {
        keep_kind(format_property(name), node, faults)
    }
}

/// The rules of a datatype's properties.
#[derive(Drop)]
struct DatatypeProperties;

impl Properties for DatatypeProperties {
    ghost use Rattle.csvw_defaults.specs.Ignored.{datatype_member};

    ghost rule = { λ _. datatype_member };

    fn judge(
        &self,
        name: &str,
        node: &Node,
        faults: &mut Vec<MetaFault>,
    ) -> Result<Kept, AllocError> {
        if name == "format" {
            return text_or_object(&FormatProperties, node, faults);
        }
        keep_by_kind(datatype_property(name), node, faults)
    }
}

/// Judges a property that columns may inherit: the datatype, or one whose value is of a kind.
pub(crate) fn inherited_member(
    kind: Permitted,
    name: &str,
    node: &Node,
    faults: &mut Vec<MetaFault>,
) -> Result<Kept, AllocError>
    ensures faults { OnOk result (faults.new.items ≡ faults.old.items
        ++ (inherited_member kind name.now (text_of node.now.part.at) (source_of node.now.source) (view node.now.part.value.now)).faults) }
    ensures left { IfOk result (IsLeft (inherited_member kind name.now
        (text_of node.now.part.at) (source_of node.now.source) (view node.now.part.value.now))) }
{
    if name == "datatype" {
        return text_or_object(&DatatypeProperties, node, faults);
    }
    keep_kind(kind, node, faults)
}
