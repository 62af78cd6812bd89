//! The classes of characters that several rules name.
ghost use Rattle.std.specs.Prelude.{◌≡◌};
ghost use Rattle.csvw_text.specs.Class.{is_white_char, is_unreserved_char, is_reserved_char};

/// Returns whether the character is white space: tab, line feed, carriage return or space (XML 1.0, production S,
/// which the lexical rules of XML Schema use).
pub fn is_white(c: char) -> bool
    ensures { result ≡ is_white_char c }
{
    matches!(c, '\t' | '\n' | '\r' | ' ')
}

/// Returns whether the character is unreserved in a URI: an ASCII letter or digit, `-`, `.`, `_` or `~` (RFC 3986,
/// section 2.3).
pub fn is_unreserved(c: char) -> bool
    ensures { result ≡ is_unreserved_char c }
{
    matches!(c, 'A'..='Z' | 'a'..='z' | '0'..='9' | '-' | '.' | '_' | '~')
}

/// Returns whether the character is reserved in a URI: one of `:/?#[]@!$&'()*+,;=` (RFC 3986, section 2.2).
pub fn is_reserved(c: char) -> bool
    ensures { result ≡ is_reserved_char c }
{
    matches!(
        c,
        ':' | '/'
            | '?'
            | '#'
            | '['
            | ']'
            | '@'
            | '!'
            | '$'
            | '&'
            | '\''
            | '('
            | ')'
            | '*'
            | '+'
            | ','
            | ';'
            | '='
    )
}
