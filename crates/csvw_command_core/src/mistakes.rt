//! Mistakes that clap accepts: standard input for two files, and values of options that there are not.
ghost use Rattle.std.specs.Prelude.{◌≡◌, MatchOption, false, true};
ghost use Rattle.csvw_command_core.specs.Mistakes.{IsMistaken, IsSound, has_known_profile, has_known_resources, is_color, is_profile, is_report_form, is_shell, is_shown_form};
ghost use Rattle.csvw_command_core.specs.Mistakes.{knows_color, knows_names, knows_output, knows_profile, knows_report, knows_report_form, knows_shown};
ghost use Rattle.csvw_command_core.specs.Mistakes.{knows_shown_form};

use crate::request::{Reporting, Request};
use crate::resources::wrong_resources;
use crate::standard_input::reads_twice;

/// What is told of a command line that names standard input twice.
const TWICE: &str = "csvw: standard input is named for two files, and can be read for one\n";

/// What is told of a form or a colour that there is not.
const REPORTING: &str =
    "csvw: --report takes text, html or json, and csv but for `check`; --color takes auto, always or never\n";

/// What is told of a profile that there is not.
const PROFILE: &str = "csvw: --profile takes core or w3c\n";

/// What is told of a number of parts that there can't be.
const PARTS: &str = "csvw: --parts takes a number from 1 to 4294967295\n";

/// What is told of a shell that there is not.
const SHELL: &str = "csvw: completions are for bash, zsh or fish\n";

fn is_shown_form(name: &str) -> bool
    ensures { result ≡ is_shown_form name.now }
{
    name == "text" || name == "html" || name == "json"
}

fn is_report_form(name: &str) -> bool
    ensures { result ≡ is_report_form name.now }
{
    name == "csv" || is_shown_form(name)
}

fn is_color(name: &str) -> bool
    ensures { result ≡ is_color name.now }
{
    name == "auto" || name == "always" || name == "never"
}

fn is_profile(name: &str) -> bool
    ensures { result ≡ is_profile name.now }
{
    name == "core" || name == "w3c"
}

fn is_shell(name: &str) -> bool
    ensures { result ≡ is_shell name.now }
{
    name == "bash" || name == "zsh" || name == "fish"
}

fn knows_color(color: Option<&str>) -> bool
    ensures { result ≡ knows_color color.entry }
{
    match color {
        Some(name) => is_color(name),
        None => true,
    }
}

fn knows_shown_form(form: Option<&str>) -> bool
    ensures { result ≡ knows_shown_form form.entry }
{
    match form {
        Some(name) => is_shown_form(name),
        None => true,
    }
}

fn knows_report_form(form: Option<&str>) -> bool
    ensures { result ≡ knows_report_form form.entry }
{
    match form {
        Some(name) => is_report_form(name),
        None => true,
    }
}

fn knows_profile(profile: Option<&str>) -> bool
    ensures { result ≡ knows_profile profile.entry }
{
    match profile {
        Some(name) => is_profile(name),
        None => true,
    }
}

fn knows_shown(reporting: &Reporting<'_>) -> bool
    ensures { result ≡ knows_shown reporting.now }
{
    knows_shown_form(reporting.form) && knows_color(reporting.color)
}

fn knows_report(reporting: &Reporting<'_>) -> bool
    ensures { result ≡ knows_report reporting.now }
{
    knows_report_form(reporting.form) && knows_color(reporting.color)
}

/// Returns what is told of a form, a colour, a number of parts or a shell of the request that there is not, or `None` if all
/// are known.
fn unknown_output(request: &Request<'_>) -> Option<&'static str>
    ensures { MatchOption result (knows_output request.now ≡ true) (λ _. knows_output request.now ≡ false) }
{
    let (is_known, told) = match request {
        Request::Validate(group) => (knows_report(&group.reporting), REPORTING),
        Request::Convert { group, .. } => (knows_report(&group.reporting), REPORTING),
        Request::Check(asked) => (knows_shown(&asked.reporting), REPORTING),
        Request::Split(asked) => (0 < asked.parts, PARTS),
        Request::Completions(shell) => (is_shell(shell), SHELL),
        Request::Plain { .. }
        | Request::Explain(_)
        | Request::Inspect(_)
        | Request::Draft(_)
        | Request::Keys(_)
        | Request::Report(_)
        | Request::Manual => (true, ""),
    };
    if is_known { None } else { Some(told) }
}

fn has_known_profile(request: &Request<'_>) -> bool
    ensures { result ≡ has_known_profile request.now }
{
    match request {
        Request::Validate(group) => knows_profile(group.profile),
        Request::Convert { group, .. } => knows_profile(group.profile),
        Request::Check(asked) => knows_profile(asked.profile),
        Request::Inspect(asked) => knows_profile(asked.profile),
        Request::Draft(asked) => knows_profile(asked.profile),
        Request::Split(asked) => knows_profile(asked.profile),
        Request::Keys(asked) => knows_profile(asked.profile),
        Request::Plain { .. }
        | Request::Explain(_)
        | Request::Report(_)
        | Request::Completions(_)
        | Request::Manual => true,
    }
}

/// Returns what is told of resources that the request has and can't have, or `None` if there are none.
fn unknown_resource(request: &Request<'_>) -> Option<&'static str>
    ensures { MatchOption result (has_known_resources request.now ≡ true) (λ _. has_known_resources request.now ≡ false) }
{
    match request {
        Request::Validate(group) => wrong_resources(group.resources.as_slice(), group.profile),
        Request::Convert { group, .. } => {
            wrong_resources(group.resources.as_slice(), group.profile)
        }
        Request::Check(asked) => wrong_resources(asked.resources.as_slice(), asked.profile),
        Request::Inspect(asked) => wrong_resources(asked.resources.as_slice(), asked.profile),
        Request::Split(asked) => wrong_resources(asked.resources.as_slice(), asked.profile),
        Request::Keys(asked) => wrong_resources(asked.resources.as_slice(), asked.profile),
        Request::Plain { .. }
        | Request::Explain(_)
        | Request::Draft(_)
        | Request::Report(_)
        | Request::Completions(_)
        | Request::Manual => None,
    }
}

/// Returns what is told of a name of the request that there is not, or `None` if all are known.
fn unknown_name(request: &Request<'_>) -> Option<&'static str>
    ensures { MatchOption result (knows_names request.now ≡ true) (λ _. knows_names request.now ≡ false) }
{
    if !has_known_profile(request) {
        return Some(PROFILE);
    }
    if let Some(told) = unknown_resource(request) {
        return Some(told);
    }
    unknown_output(request)
}

/// Returns what is told of a request that is a mistake, or `None` if it is none.
///
/// A request is a mistake if it names standard input for two files, or a form of reports, a colour, a profile or a shell
/// that there is not. So is one with a resource that isn't `URL=FILE`, or whose file is standard input. Resources without
/// the profile `w3c` are a mistake too.
pub fn mistake_in(request: &Request<'_>) -> Option<&'static str>
    ensures { MatchOption result (IsSound request.now) (λ _. IsMistaken request.now) }
{
    if reads_twice(request) {
        return Some(TWICE);
    }
    unknown_name(request)
}
