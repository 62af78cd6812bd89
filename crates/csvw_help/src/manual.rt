//! The manual page of a program, in roff's macros for manuals.

use crate::arguments::{is_own, is_shown, takes_value};
use crate::script::Script;
use clap::{Arg, Command};
use std::alloc::AllocError;

/// What each status says.
const STATUSES: &str = ".SH EXIT STATUS
.TP
\\fB0\\fR
No fault is an error.
.TP
\\fB1\\fR
A fault is an error.
.TP
\\fB2\\fR
The command line isn\\(aqt accepted.
.TP
\\fB3\\fR
The metadata or a table can\\(aqt be read as such.
.TP
\\fB4\\fR
A file or a stream failed, or memory ran out.
";

/// Adds the head of the page: the name in capitals, the section and the version. Then it adds the name and what the program does.
fn add_head(page: Script, command: &Command<'_>) -> Script {
    let name = command.get_name();
    let version = command.get_version().unwrap_or("");
    page.fill(".TH \"%c\" 1 \"\" ", name)
        .fill("\"%r\" \"User Commands\"\n", version)
        .fill(".SH NAME\n%r", name)
        .fill(" \\- %r\n", command.get_about().unwrap_or(""))
}

/// Adds an argument as the command line shows it: `--base <URL>`, `--all`, `<FILE>...`.
fn add_shape(page: Script, arg: &Arg<'_>) -> Script {
    if takes_value(arg) || arg.is_positional() {
        return page.add_shape(arg);
    }
    match arg.get_long() {
        Some(long) => page.fill("\\-\\-%r", long),
        None => add_short(page, arg.get_short()),
    }
}

/// Adds the short name of an option, if it has one.
fn add_short(page: Script, short: Option<char>) -> Script {
    match short {
        Some(short) => page.push("\\-").add_letter('r', short),
        None => page,
    }
}

/// Adds an argument after the name of its command, in brackets if it can be left out.
fn add_use(page: Script, arg: &Arg<'_>) -> Script {
    if arg.is_required_set() || arg.is_positional() {
        add_shape(page.push(" "), arg)
    } else {
        add_shape(page.push(" ["), arg).push("]")
    }
}

/// Adds the arguments of a command after its name.
fn add_uses(mut page: Script, command: &Command<'_>) -> Script {
    for arg in command.get_arguments() {
        if is_shown(arg) {
            page = add_use(page, arg);
        }
    }
    page.push("\n")
}

/// Adds the line that shows how a command is called.
fn add_usage(page: Script, program: &str, command: &Command<'_>) -> Script {
    let page = page
        .fill("\\fB%r ", program)
        .fill("%r\\fR", command.get_name());
    add_uses(page, command)
}

/// Adds the short name of an option that has a long name too.
fn add_other_name(page: Script, arg: &Arg<'_>) -> Script {
    if arg.get_short().is_some() && arg.get_long().is_some() {
        add_short(page, arg.get_short()).push(", ")
    } else {
        page
    }
}

/// Adds an argument with its help and its values.
fn add_argument(page: Script, arg: &Arg<'_>) -> Script {
    let help = arg.get_long_help().or(arg.get_help()).unwrap_or("");
    add_shape(add_other_name(page.push(".TP\n\\fB"), arg), arg)
        .fill("\\fR\n%l", help)
        .add_values(".br\nPossible values: %r.\n", ", ", arg, "")
}

/// Adds the arguments of a command.
fn add_arguments(mut page: Script, command: &Command<'_>) -> Script {
    for arg in command.get_arguments() {
        if is_shown(arg) {
            page = add_argument(page, arg);
        }
    }
    page
}

/// Adds the ways to call the program.
fn add_synopsis(page: Script, command: &Command<'_>) -> Script {
    let program = command.get_name();
    let mut page = page.push(".SH SYNOPSIS\n");
    for subcommand in command.get_subcommands() {
        if is_own(subcommand) {
            page = add_usage(page, program, subcommand).push(".br\n");
        }
    }
    let flags = match command.get_version() {
        Some(_) => "\\fB%r\\fR [\\-\\-help] [\\-\\-version]",
        None => "\\fB%r\\fR [\\-\\-help]",
    };
    add_uses(page.fill(flags, program), command)
}

/// Adds the subcommands, if there are any.
fn add_subcommands(page: Script, command: &Command<'_>) -> Script {
    if !command.has_subcommands() {
        return page;
    }
    let mut page = page.push(".SH COMMANDS\n");
    for subcommand in command.get_subcommands() {
        if is_own(subcommand) {
            page = page.fill(".SS %r\n", subcommand.get_name());
            page = add_description(page, subcommand);
        }
    }
    page
}

/// Adds what a command does, and its arguments.
fn add_description(page: Script, command: &Command<'_>) -> Script {
    let about = command.get_long_about().or(command.get_about());
    add_arguments(page.fill("%l", about.unwrap_or("")), command)
}

/// Adds the manual page of a program, for section 1 of the manual. Fails with `AllocError` if memory runs out.
pub fn push_manual(text: &mut String, command: &Command<'_>) -> Result<(), AllocError> {
    let page = add_synopsis(add_head(Script::of(text), command), command);
    let page = add_description(page.push(".SH DESCRIPTION\n"), command);
    let page = add_subcommands(page, command).push(STATUSES);
    page.end(text)
}
