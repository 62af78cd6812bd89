//! The faults of what groups and tables have in common (Metadata Vocabulary for Tabular Data, sections 5.3 and 5.4).
ghost use Rattle.std.specs.Prelude.{◌≡◌, ◌++◌, OnOk, List, ℕ};
ghost use Rattle.serde_json.specs.View.{view};
ghost use Rattle.csvw_fault.specs.declared.fault.Fault.{Fault as TheFault};
ghost use Rattle.csvw_meta_core.specs.Pointer.{text_of};
ghost use Rattle.csvw_meta.specs.Body.{body, given_dialect};

use crate::schema::find_schema;
use csvw_meta_core::{Context, MetaFault, Part};
use csvw_meta_faults_core::find_dialect;
use csvw_meta_faults_parts::find_inherited;
use std::alloc::AllocError;

/// Adds the faults of the property `dialect`. The number of the table and the warnings have no effect on them.
#[tactic(auto, unfolding(csvw_meta::specs::Body::given_dialect))]
pub(crate) fn find_given_dialect(
    context: &Context,
    part: &Part,
    faults: &mut Vec<MetaFault>,
) -> Result<(), AllocError>
    ensures { (table : ℕ) (warnings : List TheFault) → OnOk result (faults.new.items ≡ faults.old.items
        ++ (given_dialect context.now table warnings (text_of part.now.at) (view part.now.value.now)).faults) }
{
    match part.value.get("dialect") {
        None => Ok(()),
        Some(value) => find_dialect(&part.member("dialect", value), context, faults),
    }
}

/// Adds the faults of the schema and the inherited properties. The number of the table has no effect on them.
#[tactic(auto, unfolding(csvw_meta::specs::Body::body))]
pub(crate) fn find_body(
    context: &Context,
    part: &Part,
    faults: &mut Vec<MetaFault>,
) -> Result<(), AllocError>
    ensures { (table : ℕ) → OnOk result (faults.new.items ≡ faults.old.items
        ++ (body context.now table (text_of part.now.at) (view part.now.value.now)).faults) }
{
    find_inherited(context, part, faults)?;
    find_schema(context, part, faults)
}
