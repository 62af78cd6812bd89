//! The completions for bash.

use crate::arguments::{is_own, is_shown, takes_value};
use crate::script::Script;
use clap::{Arg, Command};

/// Sets what is completed, `cur`, and the word before it, `prev`. An equals sign is a word of its own in bash.
const BEGIN: &str = "# Completions for bash. Read this file by `source`.

%f() {
    local cur=${COMP_WORDS[COMP_CWORD]} prev=${COMP_WORDS[COMP_CWORD-1]}
    local subcommand='' word words=() i
    if [[ $cur == '=' ]]; then
        cur=''
    elif [[ $prev == '=' ]]; then
        prev=${COMP_WORDS[COMP_CWORD-2]}
    fi
";

/// Begins the loop that finds the subcommand among the words.
const SEARCH: &str = "    for ((i = 1; i < COMP_CWORD; i++)); do
        case ${COMP_WORDS[i]} in
            help";

/// Ends that loop.
const FOUND: &str = ")
                subcommand=${COMP_WORDS[i]}
                break
                ;;
        esac
    done
";

/// Offers values.
const VALUES: &str = ":*) words=(%w) ;;\n";

const FREE: &str = ":*) compopt +o bashdefault +o default 2>/dev/null ;;\n";

/// Offers the words that begin with what is completed.
const END: &str = "    esac
    COMPREPLY=()
    for word in \"${words[@]}\"; do
        if [[ $word == \"$cur\"* ]]; then
            COMPREPLY+=(\"$word\")
        fi
    done
}

complete -o bashdefault -o default -F %f %w
";

/// Adds a template for each subcommand, with its name.
fn add_names(mut script: Script, template: &str, command: &Command<'_>) -> Script {
    for subcommand in command.get_subcommands() {
        if is_own(subcommand) {
            script = script.fill(template, subcommand.get_name());
        }
    }
    script
}

/// Adds what completes the value of an option.
fn add_option(script: Script, name: &str, arg: &Arg<'_>) -> Script {
    match arg.get_long() {
        Some(long) => script
            .fill("        %w:--", name)
            .fill("%w", long)
            .add_values(VALUES, " ", arg, FREE),
        None => script,
    }
}

/// Adds what completes the values of the options of a command.
fn add_options(mut script: Script, name: &str, command: &Command<'_>) -> Script {
    for arg in command.get_arguments() {
        if is_shown(arg) && takes_value(arg) {
            script = add_option(script, name, arg);
        }
    }
    script
}

/// Adds the long names of the options of a command.
fn add_long_names(mut script: Script, command: &Command<'_>) -> Script {
    for arg in command.get_arguments() {
        if let Some(long) = arg.get_long()
            && is_shown(arg)
        {
            script = script.fill("--%w ", long);
        }
    }
    script.push(match command.get_version() {
        Some(_) => "--help --version",
        None => "--help",
    })
}

/// Adds the values of an argument that is no option, if they are known.
fn add_positional(script: Script, name: &str, arg: &Arg<'_>) -> Script {
    let (script, values) = script.values(arg);
    if values.is_empty() {
        return script;
    }
    script
        .fill("        %w", name)
        .add_list(VALUES, " ", values.as_slice())
}

/// Adds the values of the arguments of a command that are no options.
fn add_positionals(mut script: Script, name: &str, command: &Command<'_>) -> Script {
    for arg in command.get_arguments() {
        if is_shown(arg) && arg.is_positional() {
            script = add_positional(script, name, arg);
        }
    }
    script
}

/// Adds what completes a subcommand, or a program without subcommands: the values of its options, its options, and the values of its other arguments. Nothing
/// is offered for a free argument, and bash completes files then.
fn add_one(script: Script, name: &str, command: &Command<'_>) -> Script {
    let script = add_options(script, name, command).fill("        %w:*:-*) words=(", name);
    let script = add_long_names(script, command).push(") ;;\n");
    add_positionals(script, name, command).fill("        %w:*) ;;\n", name)
}

/// Adds what completes each subcommand.
fn add_subcommands(mut script: Script, command: &Command<'_>) -> Script {
    for subcommand in command.get_subcommands() {
        if is_own(subcommand) {
            script = add_one(script, subcommand.get_name(), subcommand);
        }
    }
    script
}

/// Adds what completes the program itself: its subcommands and its options.
fn add_own(script: Script, command: &Command<'_>) -> Script {
    if !command.has_subcommands() {
        return add_one(script, "", command);
    }
    let script = script.push("        help:*) words=(help");
    let script = add_names(script, " %w", command).push(") ;;\n        *) words=(help");
    let script = add_names(script, " %w", command).push(" ");
    add_long_names(script, command).push(") ;;\n")
}

/// Adds what finds the subcommand among the words, if there are subcommands.
fn add_search(script: Script, command: &Command<'_>) -> Script {
    if command.has_subcommands() {
        add_names(script.push(SEARCH), "|%w", command).push(FOUND)
    } else {
        script
    }
}

/// Adds the completions of a program for bash.
pub(crate) fn add_bash(script: Script, command: &Command<'_>) -> Script {
    let program = command.get_name();
    let script = add_search(script.fill(BEGIN, program), command);
    let script = script.push("    case $subcommand:$prev:$cur in\n");
    add_own(add_subcommands(script, command), command).fill(END, program)
}
