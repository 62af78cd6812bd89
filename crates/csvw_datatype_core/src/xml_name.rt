//! Texts that are names of XML: `Name` and `NMTOKEN`.
ghost use Rattle.std.specs.Prelude.{◌≡◌, ◌&&◌, not, ◌==◌};
ghost use Rattle.std.specs.List.{list_any, list_all};
ghost use Rattle.std.specs.Str.{chars};
ghost use Rattle.csvw_datatype_core.specs.XmlNames.{is_in_range, is_name_start, is_name_character, has_character, begins_name, is_name_token, is_name};

/// The first and the last character of each range of `NameStartChar` (XML 1.0, section 2.3).
const START_RANGES: [(char, char); 16] = [
    (':', ':'),
    ('A', 'Z'),
    ('_', '_'),
    ('a', 'z'),
    ('\u{C0}', '\u{D6}'),
    ('\u{D8}', '\u{F6}'),
    ('\u{F8}', '\u{2FF}'),
    ('\u{370}', '\u{37D}'),
    ('\u{37F}', '\u{1FFF}'),
    ('\u{200C}', '\u{200D}'),
    ('\u{2070}', '\u{218F}'),
    ('\u{2C00}', '\u{2FEF}'),
    ('\u{3001}', '\u{D7FF}'),
    ('\u{F900}', '\u{FDCF}'),
    ('\u{FDF0}', '\u{FFFD}'),
    ('\u{10000}', '\u{EFFFF}'),
];

/// The ranges of `NameChar` that `NameStartChar` doesn't have (XML 1.0, section 2.3).
const OTHER_RANGES: [(char, char); 5] = [
    ('-', '.'),
    ('0', '9'),
    ('\u{B7}', '\u{B7}'),
    ('\u{300}', '\u{36F}'),
    ('\u{203F}', '\u{2040}'),
];

fn is_in(ranges: &[(char, char)], c: char) -> bool
    ensures { result ≡ list_any (is_in_range c) ranges.now }
{
    ranges.iter().any(|(first, last)| *first <= c && c <= *last)
}

#[tactic(auto, unfolding(crate::specs::XmlNames::is_name_start))]
fn is_name_start(c: char) -> bool
    ensures { result ≡ is_name_start c }
{
    is_in(&START_RANGES, c)
}

#[tactic(auto, unfolding(crate::specs::XmlNames::is_name_character))]
fn is_name_character(c: char) -> bool
    ensures { result ≡ is_name_character c }
{
    is_name_start(c) || is_in(&OTHER_RANGES, c)
}

fn are_name_characters(text: &str) -> bool
    ensures { result ≡ list_all is_name_character (chars text.now) }
{
    text.chars().all(|c| is_name_character(c))
}

fn has_character(text: &str) -> bool
    ensures { result ≡ has_character (chars text.now) }
{
    text.chars().next().is_some()
}

fn begins_name(text: &str) -> bool
    ensures { result ≡ begins_name (chars text.now) }
{
    match text.chars().next() {
        Some(first) => is_name_start(first),
        None => false,
    }
}

/// Returns whether a text is an `NMTOKEN` (XML Schema 1.1 part 2, section 3.4.4).
pub fn is_name_token(text: &str) -> bool
    ensures { result ≡ is_name_token (chars text.now) }
{
    has_character(text) && are_name_characters(text)
}

/// Returns whether a text is a `Name` (XML Schema 1.1 part 2, section 3.4.6).
pub fn is_name(text: &str) -> bool
    ensures { result ≡ is_name (chars text.now) }
{
    begins_name(text) && are_name_characters(text)
}
