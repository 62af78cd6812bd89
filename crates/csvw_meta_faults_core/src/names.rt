//! The faults of names in annotations, and of the `@id` of a node (Metadata Vocabulary for Tabular Data, section 5.8).
ghost use Rattle.std.specs.Prelude.{◌≡◌, ◌++◌, OnOk};
ghost use Rattle.serde_json.specs.View.{view};
ghost use Rattle.csvw_meta_core.specs.Pointer.{text_of};
ghost use Rattle.csvw_meta_notes.specs.Names.{name_of};
ghost use Rattle.csvw_meta_faults_core.specs.SoleNotes.{type_name_has_one, node_id_has_one};

use crate::each::find_each;
use crate::finder::{Finder, add_wrong};
use crate::sole::{Sole, add_only, find_sole};
use csvw_meta_core::{MetaFault, Part};
use csvw_meta_notes::{NodeId, TypeName, TypeNames, read_name};
use serde_json::Value;
use std::alloc::AllocError;

/// Adds the fault of a name of this part if it is not an IRI.
pub(crate) fn find_name(
    part: &Part,
    name: &str,
    faults: &mut Vec<MetaFault>,
) -> Result<(), AllocError>
    ensures { OnOk result (faults.new.items ≡ faults.old.items
        ++ (name_of (text_of part.now.at) (view part.now.value.now) name.now).faults) }
{
    add_only(read_name(part, name), faults)
}

impl Sole for TypeName {
    ghost has_one = { λ _. type_name_has_one };
}

impl Finder for TypeName {
    fn find(&self, part: &Part, faults: &mut Vec<MetaFault>) -> Result<(), AllocError> {
        find_sole(part, self, faults)
    }
}

impl Finder for TypeNames {
    fn find(&self, part: &Part, faults: &mut Vec<MetaFault>) -> Result<(), AllocError> {
        match part.value {
            Value::String(name) => find_name(part, name.as_str(), faults),
            Value::Array(items) => find_each(part, &TypeName, items.as_slice(), faults),
            _ => add_wrong(part, faults),
        }
    }
}

impl<'a> Sole for NodeId<'a> {
    ghost has_one = { λ r. node_id_has_one r.base.now };
}

impl<'a> Finder for NodeId<'a> {
    fn find(&self, part: &Part, faults: &mut Vec<MetaFault>) -> Result<(), AllocError> {
        find_sole(part, self, faults)
    }
}
