//! Words of a script, in the quotes of its shell.
ghost use Rattle.std.specs.Prelude.{◌≡◌, ◌++◌, OnOk, flat_map, string_bytes};
ghost use Rattle.std.specs.Str.{chars};
ghost use Rattle.csvw_help.specs.Escapes.{fish_quoted, in_quotes, posix_quoted};

use std::alloc::AllocError;

/// Adds a character between single quotes, as bash and zsh read it.
fn push_posix_char(text: &mut String, c: char) -> Result<(), AllocError>
    ensures { OnOk result (string_bytes text.new ≡ string_bytes text.old ++ posix_quoted c) }
{
    match c {
        '\'' => text.push_str("'\\''"),
        _ => text.push(c),
    }
}

/// Adds a character between single quotes, as fish reads it.
fn push_fish_char(text: &mut String, c: char) -> Result<(), AllocError>
    ensures { OnOk result (string_bytes text.new ≡ string_bytes text.old ++ fish_quoted c) }
{
    match c {
        '\'' => text.push_str("\\'"),
        '\\' => text.push_str("\\\\"),
        _ => text.push(c),
    }
}

/// Adds the characters of a text between single quotes, as bash and zsh read it.
pub(crate) fn push_posix_text(text: &mut String, word: &str) -> Result<(), AllocError>
    ensures { OnOk result (string_bytes text.new ≡ string_bytes text.old ++ flat_map posix_quoted (chars word.now)) }
{
    for c in word.chars() {
        push_posix_char(text, c)?;
    }
    Ok(())
}

/// Adds a text in single quotes, as bash and zsh read it.
fn push_quoted(text: &mut String, word: &str) -> Result<(), AllocError>
    ensures { OnOk result (string_bytes text.new ≡ string_bytes text.old ++ in_quotes (flat_map posix_quoted (chars word.now))) }
{
    text.push('\'')?;
    push_posix_text(text, word)?;
    text.push('\'')
}

/// Adds the characters of a text between single quotes, as fish reads it.
fn push_fish_text(text: &mut String, word: &str) -> Result<(), AllocError>
    ensures { OnOk result (string_bytes text.new ≡ string_bytes text.old ++ flat_map fish_quoted (chars word.now)) }
{
    for c in word.chars() {
        push_fish_char(text, c)?;
    }
    Ok(())
}

/// Adds a text in single quotes, as fish reads it.
pub(crate) fn push_fish_quoted(text: &mut String, word: &str) -> Result<(), AllocError>
    ensures { OnOk result (string_bytes text.new ≡ string_bytes text.old ++ in_quotes (flat_map fish_quoted (chars word.now))) }
{
    text.push('\'')?;
    push_fish_text(text, word)?;
    text.push('\'')
}

/// Whether a shell reads a word as it is written.
fn is_plain(word: &str) -> bool {
    for b in word.bytes() {
        if !(b.is_ascii_alphanumeric() || b == b'-' || b == b'_' || b == b'.') {
            return false;
        }
    }
    !word.is_empty()
}

/// Adds a word as bash and zsh read it, in quotes if it needs them.
pub(crate) fn push_word(text: &mut String, word: &str) -> Result<(), AllocError> {
    if is_plain(word) {
        text.push_str(word)
    } else {
        push_quoted(text, word)
    }
}

/// Adds a word as fish reads it, in quotes if it needs them.
pub(crate) fn push_fish_word(text: &mut String, word: &str) -> Result<(), AllocError> {
    if is_plain(word) {
        text.push_str(word)
    } else {
        push_fish_quoted(text, word)
    }
}

/// Adds a word as bash and zsh read it, within single quotes of zsh.
pub(crate) fn push_inner_word(text: &mut String, word: &str) -> Result<(), AllocError> {
    if is_plain(word) {
        return text.push_str(word);
    }
    let mut quoted = String::new(*text.allocator());
    push_quoted(&mut quoted, word)?;
    push_posix_text(text, quoted.as_str())
}

/// Adds a text of a specification of zsh, within single quotes. A colon, a bracket or a backslash has a backslash before it.
pub(crate) fn push_specification(text: &mut String, words: &str) -> Result<(), AllocError> {
    for c in words.chars() {
        text.push_str(if matches!(c, '\\' | ':' | '[' | ']') {
            "\\"
        } else {
            ""
        })?;
        push_posix_char(text, c)?;
    }
    Ok(())
}

/// Adds a word as fish reads it, within single quotes of fish.
pub(crate) fn push_fish_inner(text: &mut String, word: &str) -> Result<(), AllocError> {
    if is_plain(word) {
        return text.push_str(word);
    }
    let mut quoted = String::new(*text.allocator());
    push_fish_quoted(&mut quoted, word)?;
    push_fish_text(text, quoted.as_str())
}

/// Adds a word that fish reads twice.
pub(crate) fn push_fish_twice(text: &mut String, word: &str) -> Result<(), AllocError> {
    if is_plain(word) {
        return text.push_str(word);
    }
    let mut quoted = String::new(*text.allocator());
    push_fish_quoted(&mut quoted, word)?;
    push_fish_quoted(text, quoted.as_str())
}

/// Adds the name of the function that completes a program: an underscore, and each character that a name can't have as
/// another.
pub(crate) fn push_function(text: &mut String, program: &str) -> Result<(), AllocError> {
    text.push('_')?;
    for c in program.chars() {
        text.push(if c.is_ascii_alphanumeric() { c } else { '_' })?;
    }
    Ok(())
}
