//! Requests that name standard input, which can be read once.
ghost use Rattle.std.specs.Prelude.{◌≡◌, ◌<◌, ◌≤◌, ◌+◌, true, false, filter, length, map};
ghost use Rattle.csvw_command_core.specs.StandardInput.{inputs_of, is_standard, standard_inputs};

use crate::request::Request;
use csvw_opener::STANDARD_INPUT;

pub(crate) fn is_standard(file: &str) -> bool
    ensures { result ≡ is_standard file.now }
{
    file == STANDARD_INPUT
}

/// Whether a document and the files of its tables name standard input for two of them.
fn names_twice(meta: &str, files: &[&str]) -> bool
    ensures twice { result ≡ true → 1 < standard_inputs meta.now (map (λ file. file.now) files.now) }
    ensures once { result ≡ false → standard_inputs meta.now (map (λ file. file.now) files.now) ≤ 1 }
{
    let mut seen = is_standard(meta);
    for file in files {
        if is_standard(file) {
            if seen {
                return true;
            }
            seen = true;
        }
    }
    false
}

/// Whether a request names standard input for two of its files.
pub(crate) fn reads_twice(request: &Request<'_>) -> bool
    ensures twice { result ≡ true → 1 < inputs_of request.now }
    ensures once { result ≡ false → inputs_of request.now ≤ 1 }
{
    match request {
        Request::Plain { .. }
        | Request::Explain(_)
        | Request::Inspect(_)
        | Request::Completions(_)
        | Request::Manual => false,
        Request::Validate(group) => names_twice(group.meta, group.files.as_slice()),
        Request::Convert { group, .. } => names_twice(group.meta, group.files.as_slice()),
        Request::Check(asked) => names_twice(asked.meta, asked.files.as_slice()),
        Request::Draft(asked) => names_twice("", asked.files.as_slice()),
        Request::Split(asked) => names_twice(asked.meta, asked.files.as_slice()),
        Request::Keys(asked) => is_standard(asked.meta),
        Request::Report(files) => names_twice("", files.as_slice()),
    }
}
