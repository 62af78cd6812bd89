//! Which runs read all rows, and which report as a run does.
ghost use Rattle.std.specs.Prelude.{◌≡◌};
ghost use Rattle.csvw_command_runs.specs.Defaults.{is_csv, is_default, is_whole};

use csvw_command_core::Group;

/// Returns whether the report is CSV, as it is if no form is named.
pub fn is_csv(form: Option<&str>) -> bool
    ensures { result ≡ is_csv form.entry }
{
    match form {
        Some(name) => name == "csv",
        None => true,
    }
}

/// Returns whether all rows are read, and not those of one part.
pub fn is_whole(group: &Group<'_>) -> bool
    ensures { result ≡ is_whole group.now }
{
    group.part.is_none() && group.plan.is_none() && group.keys.is_none()
}

/// Whether the report and a stop are told as a run tells them.
pub fn is_default(group: &Group<'_>) -> bool
    ensures { result ≡ is_default group.now }
{
    is_csv(group.reporting.form) && !group.reporting.strict && !group.explain
}
