//! Texts of a manual page, as roff reads them.
ghost use Rattle.std.specs.Prelude.{◌≡◌, ◌++◌, OnOk, flat_map, string_bytes};
ghost use Rattle.std.specs.Str.{chars};
ghost use Rattle.csvw_help.specs.Escapes.{roff_escaped};

use clap::Arg;
use std::alloc::AllocError;

/// Adds a character of a text.
pub(crate) fn push_roff_char(text: &mut String, c: char) -> Result<(), AllocError>
    ensures { OnOk result (string_bytes text.new ≡ string_bytes text.old ++ roff_escaped c) }
{
    match c {
        '\\' => text.push_str("\\e"),
        '-' => text.push_str("\\-"),
        '\'' => text.push_str("\\(aq"),
        '"' => text.push_str("\\(dq"),
        '`' => text.push_str("\\(ga"),
        '^' => text.push_str("\\(ha"),
        '~' => text.push_str("\\(ti"),
        '\n' => text.push(' '),
        _ => text.push(c),
    }
}

/// Adds a text within a line.
pub(crate) fn push_roff(text: &mut String, words: &str) -> Result<(), AllocError>
    ensures { OnOk result (string_bytes text.new ≡ string_bytes text.old ++ flat_map roff_escaped (chars words.now)) }
{
    for c in words.chars() {
        push_roff_char(text, c)?;
    }
    Ok(())
}

/// Adds a text as a line of its own. A dot at its start isn't read as a request.
pub(crate) fn push_roff_line(text: &mut String, words: &str) -> Result<(), AllocError> {
    if words.starts_with('.') {
        text.push_str("\\&")?;
    }
    push_roff(text, words)?;
    text.push('\n')
}

/// Adds a text within a line, in capitals.
pub(crate) fn push_capitals(text: &mut String, words: &str) -> Result<(), AllocError> {
    for c in words.chars() {
        push_roff_char(text, c.to_ascii_uppercase())?;
    }
    Ok(())
}

/// Adds an argument as the command line shows it.
pub(crate) fn push_shape(text: &mut String, arg: &Arg<'_>) -> Result<(), AllocError> {
    let shape = format!(in *text.allocator(); "{arg}")?;
    push_roff(text, shape.as_str())
}
