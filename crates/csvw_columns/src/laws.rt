//! Laws that relate the definitions in the contracts. The calls do nothing.
ghost use Rattle.std.specs.Prelude.{◌≡◌, ℕ, List, Option, Some, slice_get};
ghost use Rattle.csvw_description.specs.Plannable.{IsPlannable};
ghost use Rattle.csvw_description.specs.declared.description.Description.{Description as TheDescription};
ghost use Rattle.csvw_columns_core.specs.Sound.{AreSound};
ghost use Rattle.csvw_columns_core.specs.declared.header.HeaderRow.{HeaderRow as TheHeaderRow};
ghost use Rattle.csvw_meta_core.specs.declared.fault.MetaCode.{MetaCode as TheMetaCode};
ghost use Rattle.csvw_columns.specs.FreeOf.{IsFreeOf};
ghost use Rattle.csvw_columns.specs.HeaderMatch.{columns_of};
ghost use Rattle.csvw_columns.specs.Plannable.{CanBePlanned};
ghost use Rattle.csvw_columns.specs.Ready.{AreReady, IsReady};
ghost use Rattle.csvw_columns.specs.declared.plan.TablePlan.{TablePlan as TheTablePlan};

/// A law: the columns of a table whose plan is ready have datatypes that passed their checks, also those from its
/// header.
pub fn columns_of_ready_tables_are_sound()
    ensures { (plan : TheTablePlan) (rows : List TheHeaderRow) (width : Option ℕ) → IsReady plan → AreSound (columns_of plan rows width) }
{}

/// A law: if the tables of a plan are ready, so is each of them.
pub fn each_table_is_ready()
    ensures { (plans : List TheTablePlan) (i : ℕ) (plan : TheTablePlan) → AreReady plans → slice_get plans i ≡ Some plan → IsReady plan }
{}

/// A law: a description that can be planned has none of the defects that a fault of a description reports.
pub fn planned_descriptions_are_free_of_faults()
    ensures { (d : TheDescription) (code : TheMetaCode) → CanBePlanned d → IsFreeOf code d }
{}

/// A law: what a metadata document describes can be planned. So `Plan::build` fails on it only if memory runs out.
pub fn described_can_be_planned()
    ensures { (d : TheDescription) → IsPlannable d → CanBePlanned d }
{}
