//! Tags of languages.
ghost use Rattle.std.specs.Prelude.{◌≡◌};
ghost use Rattle.std.specs.List.{list_all};
ghost use Rattle.std.specs.Char.{is_ascii_alphabetic, is_ascii_alphanumeric};
ghost use Rattle.csvw_datatype_core.specs.Languages.{subtags, is_subtag, primary, is_language};

/// The greatest number of characters of a subtag.
const LONGEST_SUBTAG: usize = 8;

fn are_alphanumeric(text: &str) -> bool
    ensures { result ≡ list_all is_ascii_alphanumeric text.now }
{
    text.as_bytes().iter().all(|b| b.is_ascii_alphanumeric())
}

fn is_subtag(text: &str) -> bool
    ensures { result ≡ is_subtag text.now }
{
    0 < text.len() && text.len() <= LONGEST_SUBTAG && are_alphanumeric(text)
}

/// Returns whether each part of a text that `-` separates is a subtag.
fn are_subtags(text: &str) -> bool
    ensures { result ≡ list_all is_subtag (subtags text.now) }
{
    let mut rest = text;
    while let Some((subtag, after)) = rest.split_once('-') {
        if !is_subtag(subtag) {
            return false;
        }
        rest = after;
    }
    is_subtag(rest)
}

/// Returns whether the part in front of the first `-` has letters alone.
fn has_primary(text: &str) -> bool
    ensures { result ≡ list_all is_ascii_alphabetic (primary text.now) }
{
    text.as_bytes()
        .iter()
        .take_while(|b| **b != b'-')
        .all(|b| b.is_ascii_alphabetic())
}

/// Returns whether a text is the tag of a language (XML Schema 1.1 part 2, section 3.4.3).
pub fn is_language(text: &str) -> bool
    ensures { result ≡ is_language text.now }
{
    has_primary(text) && are_subtags(text)
}
