//! The completions for zsh.

use crate::arguments::{is_own, is_repeated, is_shown, takes_several, takes_value};
use crate::script::Script;
use clap::{Arg, Command};

const BEGIN: &str = "#compdef %w

%f() {
    local curcontext=$curcontext state line
    typeset -A opt_args
";

const OPTIONS: &str = "    _arguments -C \\
        '(- *)'{-h,--help}'[Print help]'";

const VERSION: &str = " \\
        '(- *)'{-V,--version}'[Print version]'";

const STATES: &str = " \\
        '1:command:->command' \\
        '*::argument:->argument'
    case $state in
        command)
            _describe -t commands command subcommands
            ;;
        argument)
            case $line[1] in
                help)
                    _describe -t commands command subcommands
                    ;;
";

const CASE: &str = "                %w)
                    _arguments \\
                        '(- *)'{-h,--help}'[Print help]'";

/// Calls what completes, or names the function if the file was read by `source`.
const END: &str = "}

if [[ $funcstack[1] == %f ]]; then
    %f \"$@\"
else
    compdef %f %w
fi
";

/// Adds what completes the value of an argument: its values, or `free` if it has none.
fn add_action(script: Script, arg: &Arg<'_>, free: &str) -> Script {
    script
        .fill(":%s:", arg.get_id())
        .add_values("(%i)", " ", arg, free)
}

/// Adds an option.
fn add_option(script: Script, long: &str, arg: &Arg<'_>) -> Script {
    let help = arg.get_help().unwrap_or("");
    if takes_value(arg) {
        add_action(script.fill("--%s=", long).fill("[%s]", help), arg, " ")
    } else {
        script.fill("--%s", long).fill("[%s]", help)
    }
}

/// Adds an argument. A value that isn't an option's is completed as a file.
fn add_argument(script: Script, arg: &Arg<'_>) -> Script {
    match arg.get_long() {
        Some(long) if is_repeated(arg) => add_option(script.push("*"), long, arg),
        Some(long) => add_option(script, long, arg),
        None if takes_several(arg) => add_action(script.push("*"), arg, "_files"),
        None => add_action(script, arg, "_files"),
    }
}

/// Adds the arguments of a command, each in quotes on a line of its own.
fn add_arguments(mut script: Script, indent: &str, command: &Command<'_>) -> Script {
    for arg in command.get_arguments() {
        if is_shown(arg) && (arg.get_long().is_some() || arg.is_positional()) {
            script = add_argument(script.fill(" \\\n%p'", indent), arg).push("'");
        }
    }
    script
}

/// Adds the case of a subcommand.
fn add_case(script: Script, command: &Command<'_>) -> Script {
    let script = script.fill(CASE, command.get_name());
    add_arguments(script, "                        ", command).push("\n                    ;;\n")
}

/// Adds the subcommands with what they do.
fn add_subcommands(script: Script, command: &Command<'_>) -> Script {
    let mut script = script.push("    local -a subcommands=(\n");
    for subcommand in command.get_subcommands() {
        if is_own(subcommand) {
            script = script
                .fill("        '%s:", subcommand.get_name())
                .fill("%t'\n", subcommand.get_about().unwrap_or(""));
        }
    }
    script.push("        'help:Print help of a subcommand'\n    )\n")
}

/// Adds the cases of the subcommands.
fn add_cases(script: Script, command: &Command<'_>) -> Script {
    let mut script = script.push(STATES);
    for subcommand in command.get_subcommands() {
        if is_own(subcommand) {
            script = add_case(script, subcommand);
        }
    }
    script.push("            esac\n            ;;\n    esac\n")
}

/// Adds the options and the other arguments of the program itself.
fn add_own(script: Script, command: &Command<'_>) -> Script {
    let script = script.push(OPTIONS).push(match command.get_version() {
        Some(_) => VERSION,
        None => "",
    });
    add_arguments(script, "        ", command)
}

/// Adds the completions of a program for zsh.
pub(crate) fn add_zsh(script: Script, command: &Command<'_>) -> Script {
    let program = command.get_name();
    let script = script.fill(BEGIN, program);
    let script = if command.has_subcommands() {
        add_cases(add_own(add_subcommands(script, command), command), command)
    } else {
        add_own(script, command).push("\n")
    };
    script.fill(END, program)
}
