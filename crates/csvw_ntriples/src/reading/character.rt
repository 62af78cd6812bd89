//! Classes of characters.
ghost use Rattle.std.specs.Prelude.{◌≡◌};
ghost use Rattle.csvw_text.specs.Language.{is_letter_or_digit_char};
ghost use Rattle.csvw_ntriples.specs.Character.{is_blank, is_label_letter, is_label_char, is_label_start, is_raw_in_iri, is_raw_in_string};

pub(crate) fn is_blank(c: char) -> bool
    ensures { result ≡ is_blank c }
{
    c == ' ' || c == '\t'
}

pub(crate) fn is_letter_or_digit(c: char) -> bool
    ensures { result ≡ is_letter_or_digit_char c }
{
    matches!(c, 'A'..='Z' | 'a'..='z' | '0'..='9')
}

fn is_label_letter(c: char) -> bool
    ensures { result ≡ is_label_letter c }
{
    matches!(
        c,
        'A'..='Z'
            | 'a'..='z'
            | '_'
            | ':'
            | '\u{00C0}'..='\u{00D6}'
            | '\u{00D8}'..='\u{00F6}'
            | '\u{00F8}'..='\u{02FF}'
            | '\u{0370}'..='\u{037D}'
            | '\u{037F}'..='\u{1FFF}'
            | '\u{200C}'..='\u{200D}'
            | '\u{2070}'..='\u{218F}'
            | '\u{2C00}'..='\u{2FEF}'
            | '\u{3001}'..='\u{D7FF}'
            | '\u{F900}'..='\u{FDCF}'
            | '\u{FDF0}'..='\u{FFFD}'
            | '\u{10000}'..='\u{EFFFF}'
    )
}

pub(crate) fn is_label_char(c: char) -> bool
    ensures { result ≡ is_label_char c }
{
    is_label_letter(c)
        || matches!(c, '-' | '0'..='9' | '\u{B7}' | '\u{300}'..='\u{36F}' | '\u{203F}'..='\u{2040}')
}

pub(crate) fn is_label_start(c: char) -> bool
    ensures { result ≡ is_label_start c }
{
    is_label_letter(c) || matches!(c, '0'..='9')
}

pub(crate) fn is_raw_in_iri(c: char) -> bool
    ensures { result ≡ is_raw_in_iri c }
{
    !matches!(c, '\0'..=' ' | '"' | '<' | '>' | '\\' | '^' | '`' | '{'..='}')
}

pub(crate) fn is_raw_in_string(c: char) -> bool
    ensures { result ≡ is_raw_in_string c }
{
    !matches!(c, '"' | '\\' | '\r' | '\n')
}
