//! The call that makes the plan of a description.
ghost use Rattle.std.specs.Prelude.{◌≡◌, ◌≢◌, [], IfOk, MatchOption};
ghost use Rattle.csvw_columns.specs.Fit.{IsFitGroup};
ghost use Rattle.csvw_columns.specs.FreeOf.{GroupIsFreeOf};
ghost use Rattle.csvw_columns.specs.Plannable.{Builds};
ghost use Rattle.csvw_columns.specs.Ready.{AreReady};
ghost use Rattle.csvw_meta_core.specs.declared.fault.MetaCode.TheVariants.{Memory};

use crate::checks::fault_of;
use crate::plan::Plan;
use crate::planning::planned;
use crate::references::are_resolved;
use csvw_description::Description;
use csvw_meta_core::{MetaCode, MetaFault};
use csvw_text::Text;
use std::alloc::Global;

/// Returns the fault of the whole description with that code.
fn fault(alloc: Global, code: MetaCode) -> MetaFault
    ensures { result ≡ record { code = code; pointer = [] } }
{
    MetaFault {
        code,
        pointer: Text::new(alloc),
    }
}

/// Returns the code of why a description's tables cannot be read, `Memory` if memory runs out, or `None` if they can.
fn refused(alloc: Global, description: &Description) -> Option<MetaCode>
    ensures { MatchOption result (IsFitGroup description.now) (λ code. code ≢ Memory → GroupIsFreeOf code description.now → ⊥) }
{
    match fault_of(alloc, description) {
        Ok(found) => found,
        Err(_) => Some(MetaCode::Memory),
    }
}

impl Plan {
    /// Makes the plan of a description (Metadata Vocabulary for Tabular Data, sections 5.3 to 5.7). Each table has its
    /// own dialect and schema, or those of its group. Its columns have what they inherit, and its keys have numbers.
    /// If there is no plan, it returns a fault of the whole description:
    ///
    /// - `TooMany`: there are over 64 tables, a schema has over 1,024 columns, or a dialect skips over 1,024 columns;
    /// - `BadDialect`: a dialect cannot be used to read any text;
    /// - `BadDatatype`: the parts of a datatype do not fit together;
    /// - `DuplicateName`: two columns of a schema have the same name;
    /// - `BadReference`: a key names what does not exist;
    /// - `Memory`: memory runs out.
    #[tactic(auto, using(crate::proofs::ReadyLemmas::ready))]
    pub fn build(alloc: Global, description: Description) -> Result<Plan, MetaFault>
        ensures plan { Builds description result }
        ensures ready { IfOk result (λ plan. AreReady plan.tables) }
    {
        if let Some(code) = refused(alloc, &description) {
            drop(description);
            return Err(fault(alloc, code));
        }
        let mut description = description;
        let plan = planned(alloc, &mut description);
        drop(description);
        let Ok(plan) = plan else {
            return Err(fault(alloc, MetaCode::Memory));
        };
        if !are_resolved(plan.tables.as_slice()) {
            return Err(fault(alloc, MetaCode::BadReference));
        }
        Ok(plan)
    }
}
