//! `strip_start` and `strip_end`: texts without the white space at their start or end.
ghost use Rattle.std.specs.Prelude.{◌≡◌, ◌≤◌, ◌-◌, length, take, drop, chars};
ghost use Rattle.csvw_text.specs.Strip.{strip_start, strip_end};

use crate::is_white;

/// Returns the text without the white space at its start: tab, line feed, carriage return and space. It takes no
/// memory.
pub fn strip_start(text: &str) -> &str
    ensures within { length result.now ≤ length text.now }
    ensures value { result.now ≡ drop (length text.now - length result.now) text.now }
    ensures chars { chars result.now ≡ strip_start (chars text.now) }
{
    let mut rest = text;
    loop {
        let mut behind = rest.chars();
        let Some(c) = behind.next() else {
            return rest;
        };
        if !is_white(c) {
            return rest;
        }
        rest = behind.as_str();
    }
}

/// Returns the text without the white space at its end: tab, line feed, carriage return and space. It takes no
/// memory.
pub fn strip_end(text: &str) -> &str
    ensures within { length result.now ≤ length text.now }
    ensures value { result.now ≡ take (length result.now) text.now }
    ensures chars { chars result.now ≡ strip_end (chars text.now) }
{
    let mut rest = text;
    loop {
        let mut before = rest.chars();
        let Some(c) = before.next_back() else {
            return rest;
        };
        let front = before.as_str();
        if !is_white(c) {
            return rest;
        }
        rest = front;
    }
}
