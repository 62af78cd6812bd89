//! The completions for fish.

use crate::arguments::{has_positionals, is_own, is_shown, takes_value};
use crate::script::Script;
use clap::{Arg, Command};

/// The values that an argument can have, as fish reads them.
const VALUES: &str = " -a '%I'";

/// Where a completion is offered.
#[derive(Clone, Copy)]
struct Place<'a> {
    /// The name of the program.
    program: &'a str,
    /// The subcommand, or none before a subcommand.
    subcommand: Option<&'a str>,
    /// Whether the program has subcommands.
    has_subcommands: bool,
}

/// Adds the start of a completion: the program, and the condition.
fn add_start(script: Script, place: &Place<'_>) -> Script {
    let script = script.fill("complete -c %W", place.program);
    match place.subcommand {
        Some(name) => script.fill(" -n '__fish_seen_subcommand_from %I'", name),
        None if place.has_subcommands => script.push(" -n __fish_use_subcommand"),
        None => script,
    }
}

/// Adds a description, and the end of the line.
fn add_end(script: Script, help: Option<&str>) -> Script {
    match help {
        Some(help) => script.fill(" -d %Q\n", help),
        None => script.push("\n"),
    }
}

/// Adds the short name of an option, if it has one.
fn add_short(script: Script, short: Option<char>) -> Script {
    match short {
        Some(short) => script.push(" -s ").add_letter('p', short),
        None => script,
    }
}

/// Adds the long name of an option, if it has one.
fn add_long(script: Script, long: Option<&str>) -> Script {
    match long {
        Some(long) => script.fill(" -l %W", long),
        None => script,
    }
}

/// Adds the value of an option, if it has one.
fn add_value(script: Script, arg: &Arg<'_>) -> Script {
    if takes_value(arg) {
        script.push(" -x").add_values(VALUES, " ", arg, "")
    } else {
        script
    }
}

/// Adds an option.
fn add_option(script: Script, place: &Place<'_>, arg: &Arg<'_>) -> Script {
    let script = add_short(add_start(script, place), arg.get_short());
    let script = add_long(script, arg.get_long());
    add_end(add_value(script, arg), arg.get_help())
}

/// Adds an argument that is no option, if its values are known.
fn add_positional(script: Script, place: &Place<'_>, arg: &Arg<'_>) -> Script {
    let (script, values) = script.values(arg);
    if values.is_empty() {
        return script;
    }
    add_start(script, place)
        .add_list(VALUES, " ", values.as_slice())
        .push("\n")
}

/// Adds an argument.
fn add_argument(script: Script, place: &Place<'_>, arg: &Arg<'_>) -> Script {
    if arg.is_positional() {
        add_positional(script, place, arg)
    } else {
        add_option(script, place, arg)
    }
}

/// Adds the arguments of a command.
fn add_arguments(mut script: Script, place: &Place<'_>, command: &Command<'_>) -> Script {
    for arg in command.get_arguments() {
        if is_shown(arg) {
            script = add_argument(script, place, arg);
        }
    }
    script
}

/// Adds a completion with an end of its own.
fn add_line(script: Script, place: &Place<'_>, end: &str) -> Script {
    add_start(script, place).push(end)
}

/// Adds what completes a command: its arguments, files if it takes an argument that is no option, and its help.
fn add_command(script: Script, place: &Place<'_>, command: &Command<'_>) -> Script {
    let mut script = add_arguments(script, place, command);
    if has_positionals(command) {
        script = add_line(script, place, " -F\n");
    }
    let script = add_line(script, place, " -s h -l help -d 'Print help'\n");
    match command.get_version() {
        Some(_) => add_line(script, place, " -s V -l version -d 'Print version'\n"),
        None => script,
    }
}

/// Adds the name of a subcommand, with what it does.
fn add_name(script: Script, place: &Place<'_>, name: &str, about: Option<&str>) -> Script {
    add_end(add_start(script, place).fill(" -a %D", name), about)
}

/// Adds the names of the subcommands.
fn add_names(mut script: Script, place: &Place<'_>, command: &Command<'_>) -> Script {
    for subcommand in command.get_subcommands() {
        if is_own(subcommand) {
            script = add_name(script, place, subcommand.get_name(), subcommand.get_about());
        }
    }
    script
}

/// Adds what completes each subcommand.
fn add_subcommands(mut script: Script, place: Place<'_>, command: &Command<'_>) -> Script {
    for subcommand in command.get_subcommands() {
        if is_own(subcommand) {
            let place = Place {
                subcommand: Some(subcommand.get_name()),
                ..place
            };
            script = add_command(script, &place, subcommand);
        }
    }
    script
}

/// Adds the completions of a program for fish.
pub(crate) fn add_fish(script: Script, command: &Command<'_>) -> Script {
    let own = Place {
        program: command.get_name(),
        subcommand: None,
        has_subcommands: command.has_subcommands(),
    };
    let script = script.fill("complete -c %W -f\n", own.program);
    let script = add_command(script, &own, command);
    if !own.has_subcommands {
        return script;
    }
    let script = add_names(script, &own, command);
    let script = add_name(script, &own, "help", Some("Print help of a subcommand"));
    let help = Place {
        subcommand: Some("help"),
        ..own
    };
    add_subcommands(add_names(script, &help, command), own, command)
}
