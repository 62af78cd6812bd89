//! The completions of a program for a shell.

use crate::bash::add_bash;
use crate::fish::add_fish;
use crate::script::Script;
use crate::shell::Shell;
use crate::zsh::add_zsh;
use clap::Command;
use std::alloc::AllocError;

/// Adds a script that completes the subcommands, options, values and files of a program. Fails with `AllocError` if memory
/// runs out.
pub fn push_completions(
    text: &mut String,
    command: &Command<'_>,
    shell: Shell,
) -> Result<(), AllocError> {
    let script = Script::of(text);
    let script = match shell {
        Shell::Bash => add_bash(script, command),
        Shell::Zsh => add_zsh(script, command),
        Shell::Fish => add_fish(script, command),
    };
    script.end(text)
}
