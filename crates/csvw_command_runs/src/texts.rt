//! Texts that are asked for: explanations of codes, completions and the manual page.
ghost use Rattle.std.specs.Prelude.{◌≡◌, ◌≤◌};
ghost use Rattle.csvw_command_runs.specs.Answers.{GivesText};
ghost use Rattle.csvw_command_runs.specs.Answers.{Gives};
ghost use Rattle.csvw_streams.specs.Streams.{stream_of};

use crate::tell::{SUCCESS, send, tell_mistake, tell_stop};
use csvw_command_core::command_line;
use csvw_engine::Stop;
use csvw_explain::{push_codes, push_explanation};
use csvw_help::{Shell, push_completions, push_manual};
use csvw_text::Counted;
use std::alloc::{AllocError, Global};
use std::io::Write;

/// What is told if there is no code of a name.
const NO_CODE: &str = "csvw: there is no such code; `csvw explain` lists them\n";

/// What is told if there are no completions for a shell.
const NO_SHELL: &str = "csvw: completions are for bash, zsh or fish\n";

/// Sends a text. Returns the status, which is that of a stop if it can't be sent.
pub fn give_text<W: Write, V: Write>(text: &str, out: &mut Counted<W>, err: &mut Counted<V>) -> u8
    ensures given { GivesText text.now (stream_of W.contents out.old out.new) (stream_of V.contents err.old err.new) result }
    ensures bound { result ≤ 4 }
{
    if send(out, text.as_bytes()) {
        SUCCESS
    } else {
        tell_stop(&Stop::Write, err)
    }
}

/// Sends a text that was made. If there is none, that is told as a mistake.
fn give_made<W: Write, V: Write>(
    made: Result<Option<String>, AllocError>,
    mistake: &str,
    out: &mut Counted<W>,
    err: &mut Counted<V>,
) -> u8
    ensures gives { Gives (stream_of W.contents out.old out.new) (stream_of V.contents err.old err.new) result }
    ensures bound { result ≤ 4 }
{
    match made {
        Ok(Some(text)) => give_text(text.as_str(), out, err),
        Ok(None) => tell_mistake(mistake, err),
        Err(_) => tell_stop(&Stop::Memory, err),
    }
}

/// Returns the text on a code, or on all codes. Returns `None` if there is no such code.
fn explanation(alloc: Global, code: Option<&str>) -> Result<Option<String>, AllocError> {
    let mut text = String::new(alloc);
    let is_known = match code {
        Some(code) => push_explanation(&mut text, code)?,
        None => {
            push_codes(&mut text)?;
            true
        }
    };
    match is_known {
        true => Ok(Some(text)),
        false => Ok(None),
    }
}

/// Explains a code, or lists all codes.
pub fn run_explain<W: Write, V: Write>(
    alloc: Global,
    code: Option<&str>,
    out: &mut Counted<W>,
    err: &mut Counted<V>,
) -> u8
    ensures gives { Gives (stream_of W.contents out.old out.new) (stream_of V.contents err.old err.new) result }
    ensures bound { result ≤ 4 }
{
    give_made(explanation(alloc, code), NO_CODE, out, err)
}

/// Returns the completions for the shell of a name. Returns `None` if there are none for it.
fn completions(alloc: Global, name: &str) -> Result<Option<String>, AllocError> {
    let Some(shell) = Shell::of(name) else {
        return Ok(None);
    };
    let mut text = String::new(alloc);
    push_completions(&mut text, &command_line(alloc)?, shell)?;
    Ok(Some(text))
}

/// Writes the completions for the shell of a name.
pub fn run_completions<W: Write, V: Write>(
    alloc: Global,
    shell: &str,
    out: &mut Counted<W>,
    err: &mut Counted<V>,
) -> u8
    ensures gives { Gives (stream_of W.contents out.old out.new) (stream_of V.contents err.old err.new) result }
    ensures bound { result ≤ 4 }
{
    give_made(completions(alloc, shell), NO_SHELL, out, err)
}

/// Returns the manual page.
fn manual(alloc: Global) -> Result<Option<String>, AllocError> {
    let mut text = String::new(alloc);
    push_manual(&mut text, &command_line(alloc)?)?;
    Ok(Some(text))
}

/// Writes the manual page.
pub fn run_manual<W: Write, V: Write>(
    alloc: Global,
    out: &mut Counted<W>,
    err: &mut Counted<V>,
) -> u8
    ensures gives { Gives (stream_of W.contents out.old out.new) (stream_of V.contents err.old err.new) result }
    ensures bound { result ≤ 4 }
{
    give_made(manual(alloc), "", out, err)
}
