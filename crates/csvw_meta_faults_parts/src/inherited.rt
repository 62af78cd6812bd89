//! The faults of the inherited properties of an object (Metadata Vocabulary for Tabular Data, section 5.7).
ghost use Rattle.std.specs.Prelude.{◌≡◌, ◌++◌, OnOk, ℕ};
ghost use Rattle.serde_json.specs.View.{view};
ghost use Rattle.csvw_meta_core.specs.Pointer.{text_of};
ghost use Rattle.csvw_meta_inherited.specs.Inherited.{cell_texts, inherited, uri_templates};
ghost use Rattle.csvw_meta_faults_parts.specs.Leaves.{template_has_one};

use crate::datatype::find_datatype;
use crate::leaf::{Leaf, OneFault};
use csvw_meta_core::{
    AnyText, Context, Language, MetaCode, MetaFault, OrNull, Part, SomeText, Texts, Truth,
};
use csvw_meta_faults_core::find_optional;
use csvw_meta_inherited::template::TemplateReader;
use std::alloc::AllocError;

impl OneFault for TemplateReader {
    ghost at_most_one = { λ _. template_has_one };
}

/// Adds the faults of the URI template properties.
#[tactic(auto, unfolding(csvw_meta_inherited::specs::Inherited::uri_templates))]
fn find_uri_templates(part: &Part, faults: &mut Vec<MetaFault>) -> Result<(), AllocError>
    ensures { OnOk result (faults.new.items ≡ faults.old.items ++ (uri_templates (text_of part.now.at) (view part.now.value.now)).faults) }
{
    let template = Leaf {
        reader: TemplateReader,
    };
    find_optional(part, &template, "aboutUrl", faults)?;
    find_optional(part, &template, "propertyUrl", faults)?;
    find_optional(part, &template, "valueUrl", faults)
}

/// Adds the faults of what is said of the texts of cells.
#[tactic(auto, unfolding(csvw_meta_inherited::specs::Inherited::cell_texts))]
fn find_cell_texts(part: &Part, faults: &mut Vec<MetaFault>) -> Result<(), AllocError>
    ensures { OnOk result (faults.new.items ≡ faults.old.items ++ (cell_texts (text_of part.now.at) (view part.now.value.now)).faults) }
{
    let language = Language {
        wrong: MetaCode::BadProperty,
    };
    find_optional(part, &AnyText, "default", faults)?;
    find_optional(part, &language, "lang", faults)?;
    find_optional(part, &Texts, "null", faults)
}

/// Adds the faults of the inherited properties of the object that the part is.
#[tactic(auto, unfolding(csvw_meta_inherited::specs::Inherited::inherited))]
pub fn find_inherited(
    context: &Context,
    part: &Part,
    faults: &mut Vec<MetaFault>,
) -> Result<(), AllocError>
    ensures { (table column : ℕ) → OnOk result (faults.new.items ≡ faults.old.items
        ++ (inherited context.now table column (text_of part.now.at) (view part.now.value.now)).faults) }
{
    find_uri_templates(part, faults)?;
    find_datatype(context, part, faults)?;
    find_cell_texts(part, faults)?;
    find_optional(part, &Truth, "ordered", faults)?;
    find_optional(part, &Truth, "required", faults)?;
    find_optional(part, &OrNull { reader: SomeText }, "separator", faults)
}
