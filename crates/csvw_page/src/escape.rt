//! Texts in HTML.
ghost use Rattle.std.specs.Prelude.{◌≡◌, ◌++◌, OnOk, string_bytes, encode_utf8, flat_map};
ghost use Rattle.csvw_page.specs.Escape.{escape, escaped};

use std::alloc::AllocError;

/// Adds a character of a text.
fn push_char(out: &mut String, c: char) -> Result<(), AllocError>
    ensures { OnOk result (string_bytes out.new ≡ string_bytes out.old ++ escape c (encode_utf8 c)) }
{
    match c {
        '<' => out.push_str("&lt;"),
        '>' => out.push_str("&gt;"),
        '&' => out.push_str("&amp;"),
        '"' => out.push_str("&quot;"),
        '\'' => out.push_str("&#39;"),
        _ => out.push(c),
    }
}

/// Adds a text, so that it is text in HTML: no `<`, `>`, `&`, `"` or `'` of it comes through as it is. Each is
/// replaced by a character reference (HTML, section 13.1.4), and the other characters stay.
pub fn push_escaped(out: &mut String, text: &str) -> Result<(), AllocError>
    ensures { OnOk result (string_bytes out.new ≡ string_bytes out.old ++ escaped text.now) }
{
    for c in text.chars() {
        push_char(out, c)?;
    }
    Ok(())
}
