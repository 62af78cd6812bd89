//! What a command takes, as far as help shows it.

use clap::builder::{PossibleValue, ValueParser};
use clap::{Arg, ArgAction, Command};
use std::alloc::{AllocError, Global};

/// Whether help shows an argument. The flags for help and for the version are shown in any case, so they are left out here.
pub(crate) fn is_shown(arg: &Arg<'_>) -> bool {
    !arg.is_hide_set() && arg.get_id() != "help" && arg.get_id() != "version"
}

/// Whether a subcommand is one of the program's own.
pub(crate) fn is_own(command: &Command<'_>) -> bool {
    command.get_name() != "help"
}

/// Whether an option has a value after it.
pub(crate) fn takes_value(arg: &Arg<'_>) -> bool {
    arg.get_action().takes_values()
}

/// Whether an option may be given several times.
pub(crate) fn is_repeated(arg: &Arg<'_>) -> bool {
    matches!(arg.get_action(), ArgAction::Append)
}

/// Whether an argument can have several values.
pub(crate) fn takes_several(arg: &Arg<'_>) -> bool {
    match arg.get_num_args() {
        Some(range) => range.max_values() > 1,
        None => false,
    }
}

/// Whether a command has an argument that is no option.
pub(crate) fn has_positionals(command: &Command<'_>) -> bool {
    for arg in command.get_arguments() {
        if arg.is_positional() && is_shown(arg) {
            return true;
        }
    }
    false
}

/// Returns the names of the values that help shows.
fn shown_names<'a>(
    alloc: Global,
    values: &[PossibleValue<'a>],
) -> Result<Vec<&'a str>, AllocError> {
    let mut names = Vec::new(alloc);
    for value in values {
        if !value.is_hide_set() {
            names.push(value.get_name())?;
        }
    }
    Ok(names)
}

/// Returns the values that an argument can have, or none if they are free.
pub(crate) fn possible_values<'a>(
    alloc: Global,
    arg: &Arg<'a>,
) -> Result<Vec<&'a str>, AllocError> {
    match arg.get_value_parser() {
        ValueParser::Names(names) => Vec::from_slice(alloc, names),
        ValueParser::Values(values) => shown_names(alloc, values),
        ValueParser::Bool => {
            let names: &[&'a str] = &["true", "false"];
            Vec::from_slice(alloc, names)
        }
        _ => Ok(Vec::new(alloc)),
    }
}
