//! The plan of the group that a metadata document describes.
ghost use Rattle.std.specs.Prelude.{◌≡◌, ◌≤◌, IfOk, IfErr, length};
ghost use Rattle.csvw_columns.specs.PlanOf.{plan_of};
ghost use Rattle.csvw_description.specs.Plannable.{IsPlannable};
ghost use Rattle.csvw_meta.specs.Document.{document_by, plain_description};
ghost use Rattle.csvw_columns.specs.Ready.{AreReady};
ghost use Rattle.csvw_engine_core.specs.declared.stop.Stop.TheVariants as stop;
ghost use Rattle.csvw_engine.specs.Planning.{IsMetaStop, TellsFault};
ghost use Rattle.csvw_engine.specs.Runs.{IsPlanned};

use csvw_columns::Plan;
use csvw_columns::laws::{described_can_be_planned, planned_descriptions_are_free_of_faults};
use csvw_description::Description;
use csvw_meta::{plain, read_by};
use csvw_meta_core::{MetaCode, MetaFault, Profile};
use csvw_session::Stop;
use std::alloc::Global;

fn meta_stop(fault: MetaFault) -> Stop
    ensures { TellsFault fault result }
{
    match fault.code {
        MetaCode::Memory => Stop::Memory,
        _ => Stop::Meta(fault),
    }
}

/// Builds the plan of a description that was read. Only memory can be missing.
fn built(alloc: Global, description: Description) -> Result<Plan, Stop>
    requires { IsPlannable description }
    ensures plan { IfOk result (λ plan. plan ≡ plan_of description) }
    ensures ready { IfOk result (λ plan. AreReady plan.tables) }
    ensures few { IfOk result (λ plan. length plan.tables ≤ 64) }
    ensures memory { IfErr result (λ reason. reason ≡ stop.Memory) }
{
    described_can_be_planned();
    planned_descriptions_are_free_of_faults();
    match Plan::build(alloc, description) {
        Ok(plan) => Ok(plan),
        Err(fault) => Err(meta_stop(fault)),
    }
}

/// Returns the plan of the group that a document in a profile describes, at this URL.
pub fn planned(alloc: Global, meta: &[u8], base: &str, profile: Profile) -> Result<Plan, Stop>
    ensures plan { IfOk result (λ plan. IsPlanned (document_by profile base.now meta.now) plan) }
    ensures ready { IfOk result (λ plan. AreReady plan.tables) }
    ensures few { IfOk result (λ plan. length plan.tables ≤ 64) }
    ensures stop { IfErr result (λ reason. IsMetaStop (document_by profile base.now meta.now) reason) }
{
    match read_by(alloc, meta, base, profile) {
        Ok(description) => built(alloc, description),
        Err(fault) => Err(meta_stop(fault)),
    }
}

/// Returns the plan of the table at this URL, without a document.
pub(crate) fn planned_alone(alloc: Global, url: &str) -> Result<Plan, Stop>
    ensures plan { IfOk result (λ plan. IsPlanned (plain_description url.now) plan) }
    ensures ready { IfOk result (λ plan. AreReady plan.tables) }
    ensures few { IfOk result (λ plan. length plan.tables ≤ 64) }
    ensures stop { IfErr result (λ reason. IsMetaStop (plain_description url.now) reason) }
{
    match plain(alloc, url) {
        Ok(description) => built(alloc, description),
        Err(fault) => Err(meta_stop(fault)),
    }
}
