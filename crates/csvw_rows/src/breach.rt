//! How many bytes of a row show that a rule is broken in it.
ghost use Rattle.std.specs.Prelude.{◌≡◌, ◌≤◌, ◌==◌, ◌&&◌, true, drop, take, length, chars};
ghost use Rattle.std.specs.Str.{is_utf8};
ghost use Rattle.csvw_records.specs.AtFront.{IsShownAt, IsShownLen};

use csvw_fields::{Rules, char_count, front_len};
use csvw_records::Dialect;

/// Returns whether this is a CR in a dialect in which a following LF makes it a terminator, and any other character
/// makes it text.
fn is_cr(d: &Dialect, c: char) -> bool
    ensures { result ≡ (d.now.line_terminators.crlf && (c == 13)) }
{
    d.line_terminators.crlf && c == '\r'
}

/// Returns the last character, from 0, that must be known to see that a rule is broken at a byte. A CR that may begin
/// a terminator is judged with the next character.
fn shown_at(d: &Dialect, rest: &str, at: usize) -> usize
    requires within { at ≤ length rest.now }
    requires text { is_utf8 (drop at rest.now) ≡ true }
    ensures { IsShownAt d.now (chars rest.now) (length (chars (take at rest.now))) result }
{
    let (front, behind) = rest.split_at(at);
    let count = char_count(front);
    let Some(next) = behind.chars().next() else {
        return count;
    };
    if is_cr(d, next) { count + 1 } else { count }
}

/// Returns how many bytes of the text show that a rule is broken at a byte of it, or at its end. A row that may be a
/// comment is judged with the character that shows that it is not a comment.
pub(crate) fn shown_len(rules: &Rules, rest: &str, at: usize) -> usize
    requires within { at ≤ length rest.now }
    requires text { is_utf8 (drop at rest.now) ≡ true }
    ensures { IsShownLen rules.now.dialect rest.now at result }
{
    let here = shown_at(&rules.dialect, rest, at);
    let place = here.max(rules.common_len(rest));
    if place < rest.len() {
        front_len(rest, place + 1)
    } else {
        rest.len()
    }
}
