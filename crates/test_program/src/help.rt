//! The scripts and the page of a small program. Each was read against the program, and each script was tried in its shell.

use clap::builder::ValueParser;
use clap::{Arg, ArgAction, Command};
use csvw_help::{Shell, push_completions, push_manual};
use std::alloc::{AllocError, Global};
use std::test::Fail;

#[test]
fn writes_a_script_for_each_shell(rt: HostRuntime) -> Result<(), Fail> {
    let alloc = rt.alloc();
    let command = bikes(alloc)?;
    for (name, expected) in [("bash", BASH), ("zsh", ZSH), ("fish", FISH)] {
        let shell = Shell::of(name).ok_or("no shell")?;
        let mut text = String::new(alloc);
        push_completions(&mut text, &command, shell)?;
        assert_eq!(rt; text.as_str(), expected, "{name}");
    }
    assert!(rt; Shell::of("sh").is_none());
    Ok(())
}

#[test]
fn writes_a_manual(rt: HostRuntime) -> Result<(), Fail> {
    let alloc = rt.alloc();
    let mut text = String::new(alloc);
    push_manual(&mut text, &bikes(alloc)?)?;
    assert_eq!(rt; text.as_str(), MANUAL);
    Ok(())
}

const FORMS: [&str; 2] = ["text", "json"];

/// The program `bikes`, with two subcommands.
fn bikes<'a>(alloc: Global) -> Result<Command<'a>, AllocError> {
    let form = Arg::new(alloc, "form")
        .short('f')
        .long("form")
        .value_parser(ValueParser::Names(&FORMS))
        .help("What's written: [text]");
    let file = Arg::new(alloc, "FILE")
        .required(true)
        .num_args(1..)
        .help("The files");
    let all = Arg::new(alloc, "all")
        .long("all")
        .action(ArgAction::SetTrue)
        .help("Counts all, as in `bikes count --all a.csv`");
    let base = Arg::new(alloc, "base")
        .long("base")
        .value_name("URL")
        .help("Where the files are");
    let count = Command::new(alloc, "count")
        .about("Counts the bikes of files")
        .arg(base)?
        .arg(form)?
        .arg(file)?
        .arg(all)?;
    let ride = Command::new(alloc, "ride").about("Doesn't count");
    Command::new(alloc, "bikes")
        .about("Counts bikes")
        .version("1.0")
        .subcommand(count)?
        .subcommand(ride)
}

const BASH: &str = "# Completions for bash. Read this file by `source`.

_bikes() {
    local cur=${COMP_WORDS[COMP_CWORD]} prev=${COMP_WORDS[COMP_CWORD-1]}
    local subcommand='' word words=() i
    if [[ $cur == '=' ]]; then
        cur=''
    elif [[ $prev == '=' ]]; then
        prev=${COMP_WORDS[COMP_CWORD-2]}
    fi
    for ((i = 1; i < COMP_CWORD; i++)); do
        case ${COMP_WORDS[i]} in
            help|count|ride)
                subcommand=${COMP_WORDS[i]}
                break
                ;;
        esac
    done
    case $subcommand:$prev:$cur in
        count:--base:*) compopt +o bashdefault +o default 2>/dev/null ;;
        count:--form:*) words=(text json) ;;
        count:*:-*) words=(--base --form --all --help) ;;
        count:*) ;;
        ride:*:-*) words=(--help) ;;
        ride:*) ;;
        help:*) words=(help count ride) ;;
        *) words=(help count ride --help --version) ;;
    esac
    COMPREPLY=()
    for word in \"${words[@]}\"; do
        if [[ $word == \"$cur\"* ]]; then
            COMPREPLY+=(\"$word\")
        fi
    done
}

complete -o bashdefault -o default -F _bikes bikes
";

const ZSH: &str = "#compdef bikes

_bikes() {
    local curcontext=$curcontext state line
    typeset -A opt_args
    local -a subcommands=(
        'count:Counts the bikes of files'
        'ride:Doesn'\\''t count'
        'help:Print help of a subcommand'
    )
    _arguments -C \\
        '(- *)'{-h,--help}'[Print help]' \\
        '(- *)'{-V,--version}'[Print version]' \\
        '1:command:->command' \\
        '*::argument:->argument'
    case $state in
        command)
            _describe -t commands command subcommands
            ;;
        argument)
            case $line[1] in
                help)
                    _describe -t commands command subcommands
                    ;;
                count)
                    _arguments \\
                        '(- *)'{-h,--help}'[Print help]' \\
                        '--base=[Where the files are]:base: ' \\
                        '--form=[What'\\''s written\\: \\[text\\]]:form:(text json)' \\
                        '*:FILE:_files' \\
                        '--all[Counts all, as in `bikes count --all a.csv`]'
                    ;;
                ride)
                    _arguments \\
                        '(- *)'{-h,--help}'[Print help]'
                    ;;
            esac
            ;;
    esac
}

if [[ $funcstack[1] == _bikes ]]; then
    _bikes \"$@\"
else
    compdef _bikes bikes
fi
";

const FISH: &str = "complete -c bikes -f
complete -c bikes -n __fish_use_subcommand -s h -l help -d 'Print help'
complete -c bikes -n __fish_use_subcommand -s V -l version -d 'Print version'
complete -c bikes -n __fish_use_subcommand -a count -d 'Counts the bikes of files'
complete -c bikes -n __fish_use_subcommand -a ride -d 'Doesn\\'t count'
complete -c bikes -n __fish_use_subcommand -a help -d 'Print help of a subcommand'
complete -c bikes -n '__fish_seen_subcommand_from help' -a count -d 'Counts the bikes of files'
complete -c bikes -n '__fish_seen_subcommand_from help' -a ride -d 'Doesn\\'t count'
complete -c bikes -n '__fish_seen_subcommand_from count' -l base -x -d 'Where the files are'
complete -c bikes -n '__fish_seen_subcommand_from count' -s f -l form -x -a 'text json' -d 'What\\'s written: [text]'
complete -c bikes -n '__fish_seen_subcommand_from count' -l all -d 'Counts all, as in `bikes count --all a.csv`'
complete -c bikes -n '__fish_seen_subcommand_from count' -F
complete -c bikes -n '__fish_seen_subcommand_from count' -s h -l help -d 'Print help'
complete -c bikes -n '__fish_seen_subcommand_from ride' -s h -l help -d 'Print help'
";

const MANUAL: &str = ".TH \"BIKES\" 1 \"\" \"1.0\" \"User Commands\"
.SH NAME
bikes \\- Counts bikes
.SH SYNOPSIS
\\fBbikes count\\fR [\\-\\-base <URL>] [\\-\\-form <form>] <FILE>... [\\-\\-all]
.br
\\fBbikes ride\\fR
.br
\\fBbikes\\fR [\\-\\-help] [\\-\\-version]
.SH DESCRIPTION
Counts bikes
.SH COMMANDS
.SS count
Counts the bikes of files
.TP
\\fB\\-\\-base <URL>\\fR
Where the files are
.TP
\\fB\\-f, \\-\\-form <form>\\fR
What\\(aqs written: [text]
.br
Possible values: text, json.
.TP
\\fB<FILE>...\\fR
The files
.TP
\\fB\\-\\-all\\fR
Counts all, as in \\(gabikes count \\-\\-all a.csv\\(ga
.SS ride
Doesn\\(aqt count
.SH EXIT STATUS
.TP
\\fB0\\fR
No fault is an error.
.TP
\\fB1\\fR
A fault is an error.
.TP
\\fB2\\fR
The command line isn\\(aqt accepted.
.TP
\\fB3\\fR
The metadata or a table can\\(aqt be read as such.
.TP
\\fB4\\fR
A file or a stream failed, or memory ran out.
";
