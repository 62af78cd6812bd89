//! The characters of bytes that come in pieces.
ghost use Rattle.std.specs.Prelude.{◌≡◌, ◌≤◌, true, length, take, drop, IfOk, chars, is_some};
ghost use Rattle.std.specs.Str.{is_utf8};
ghost use Rattle.std.specs.Str.Lossy.{utf8_valid_len, utf8_error_len};

use simdutf8::compat::from_utf8;
use std::alloc::{AllocError, Global};

/// Returns the text at the start of the bytes, and whether the bytes after it begin no character, whatever follows.
pub fn valid_front(bytes: &[u8]) -> (&str, bool)
    ensures text { result.0.now ≡ take (utf8_valid_len bytes.now) bytes.now }
    ensures bad { result.1 ≡ is_some (utf8_error_len (drop (utf8_valid_len bytes.now) bytes.now)) }
{
    match from_utf8(bytes) {
        Ok(text) => (text, false),
        Err(e) => match from_utf8(&bytes[..e.valid_up_to()]) {
            Ok(text) => (text, e.error_len().is_some()),
            Err(_) => unreachable!(),
        },
    }
}

/// Returns the characters of a text, or `AllocError` if memory runs out.
pub fn chars_of(alloc: Global, text: &str) -> Result<Vec<char>, AllocError>
    ensures { IfOk result (λ v. v.items ≡ chars text.now) }
{
    text.chars().collect(alloc)
}

/// Returns the number of characters of a text.
pub fn char_count(text: &str) -> usize
    ensures value { result ≡ length (chars text.now) }
    ensures within { result ≤ length text.now }
{
    text.chars().count()
}

/// Returns the number of bytes of the first `count` characters.
pub fn front_len(text: &str, count: usize) -> usize
    ensures within { result ≤ length text.now }
    ensures text { is_utf8 (drop result text.now) ≡ true }
    ensures rest { chars (drop result text.now) ≡ drop count (chars text.now) }
{
    let mut rest = text.chars();
    for i in 0..count {
        let _ = rest.next();
    }
    text.len() - rest.as_str().len()
}
