//! The files of schemas and dialects that the words name by their URLs, each as `URL=FILE`.
ghost use Rattle.std.specs.Prelude.{◌≡◌, MatchOption, false, map, option_map, true};
ghost use Rattle.std.specs.List.{list_all};
ghost use Rattle.csvw_command_core.specs.Resources.{is_resource, is_w3c, resource_of, takes_resources};

use crate::standard_input::is_standard;

/// What is told of a word that is no resource.
const RESOURCE: &str = "csvw: --resource takes URL=FILE\n";

/// What is told of a resource that is read from standard input.
const INPUT: &str = "csvw: --resource can't read standard input\n";

/// What is told of a resource without the profile that takes it.
const NEEDS: &str = "csvw: --resource needs --profile w3c\n";

/// Returns the URL and the file of a word `URL=FILE`, or `None` if it isn't one.
///
/// The last equals sign is between them, as a URL may have others. Neither of them is empty.
pub fn split_resource(text: &str) -> Option<(&str, &str)>
    ensures { option_map (λ parts. (parts.0.now, parts.1.now)) result ≡ resource_of text.now }
{
    let Some((url, file)) = text.rsplit_once('=') else {
        return None;
    };
    if url.is_empty() || file.is_empty() {
        None
    } else {
        Some((url, file))
    }
}

fn is_w3c(profile: Option<&str>) -> bool
    ensures { result ≡ is_w3c profile.entry }
{
    match profile {
        Some(name) => name == "w3c",
        None => false,
    }
}

/// Returns what is told of a word that is no resource with a file, or `None` if it is one.
fn wrong_word(word: &str) -> Option<&'static str>
    ensures { MatchOption result (is_resource word.now ≡ true) (λ _. is_resource word.now ≡ false) }
{
    match split_resource(word) {
        Some((_, file)) => { if is_standard(file) { Some(INPUT) } else { None } }
        None => Some(RESOURCE),
    }
}

/// Returns what is told of the first word that is no resource with a file, or `None` if all are.
fn wrong_words(words: &[&str]) -> Option<&'static str>
    ensures { MatchOption result (list_all is_resource (map (λ word. word.now) words.now) ≡ true)
        (λ _. list_all is_resource (map (λ word. word.now) words.now) ≡ false) }
{
    for word in words {
        if let Some(told) = wrong_word(word) {
            return Some(told);
        }
    }
    None
}

/// Returns what is told of resources that a run with this profile doesn't take, or `None` if it takes them.
pub(crate) fn wrong_resources(words: &[&str], profile: Option<&str>) -> Option<&'static str>
    ensures { MatchOption result (takes_resources (map (λ word. word.now) words.now) profile.entry ≡ true)
        (λ _. takes_resources (map (λ word. word.now) words.now) profile.entry ≡ false) }
{
    if words.is_empty() || is_w3c(profile) {
        wrong_words(words)
    } else {
        Some(NEEDS)
    }
}
