//! The profile of a metadata document, by its name.
ghost use Rattle.std.specs.Prelude.{◌≡◌};
ghost use Rattle.csvw_command_runs.specs.Groups.{profile_of};

use csvw_meta_core::Profile;

/// Returns the profile of a name. Without a name it is the core.
pub fn profile_of(name: Option<&str>) -> Profile
    ensures { result ≡ profile_of name.entry }
{
    match name {
        Some(name) if name == "w3c" => Profile::W3c,
        _ => Profile::Core,
    }
}
