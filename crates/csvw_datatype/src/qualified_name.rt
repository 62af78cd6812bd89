//! Texts that are names of XML with or without a prefix: `QName`.
ghost use Rattle.std.specs.Prelude.{◌≡◌, option_map};
ghost use Rattle.csvw_datatype.specs.QualifiedNames.{at_colon, is_qualified_name, is_unprefixed_name};

use csvw_datatype_core::is_name;

/// Returns the text before the first `:` and the text after it, or `None` if there is no `:`.
fn at_colon(text: &str) -> Option<(&str, &str)>
    ensures { option_map (λ x. (x.0.now, x.1.now)) result ≡ at_colon text.now }
{
    text.split_once(':')
}

fn is_unprefixed_name(text: &str) -> bool
    ensures { result ≡ is_unprefixed_name text.now }
{
    is_name(text) && at_colon(text).is_none()
}

/// Returns whether a text is a `QName` (XML Schema 1.1 part 2, section 3.3.18).
pub(crate) fn is_qualified_name(text: &str) -> bool
    ensures { result ≡ is_qualified_name text.now }
{
    match at_colon(text) {
        Some((prefix, local)) => is_unprefixed_name(prefix) && is_unprefixed_name(local),
        None => is_unprefixed_name(text),
    }
}
