//! The subcommands and the whole command line, in clap's terms.
ghost use Rattle.clap.specs.Words.{app_of, new_app};
ghost use Rattle.clap.specs.declared.builder.command.Command.TheViews.{out-Command};
ghost use Rattle.csvw_command_core.specs.Asked.{check_app, completions_app, convert_app, draft_app, explain_app, inspect_app, keys_app};
ghost use Rattle.csvw_command_core.specs.Asked.{manual_app, plain_app, program_app, report_app, split_app, validate_app};
ghost use Rattle.csvw_command_core.specs.Joined.{Joins};
ghost use Rattle.csvw_command_core.specs.Table.{with_arguments};
ghost use Rattle.std.specs.Prelude.{◌≡◌, IfOk, false};

use crate::after_help;
use crate::arguments::{
    ALL_FLAG, Argument, BASE_VALUE, CODE_WORD, COLOR_VALUE, DRAFT_BASE_VALUE, EXPLAIN_FLAG,
    FILE_WORD, FILE_WORDS, JSON_FLAG, KEYS, KEYS_VALUE, LINE_BUFFERED_FLAG, META_WORD,
    MINIMAL_FLAG, OWN_BASE_VALUE, PART_VALUE, PARTS_VALUE, PLAN_VALUE, PROFILE_VALUE,
    PROGRESS_FLAG, REPORT, REPORT_VALUE, REPORT_WORDS, RESOURCE_VALUES, SHELL_WORD,
    SOME_FILE_WORDS, STRICT_FLAG, TURNS_FLAG, URL_WORD, arg_of,
};
use clap::Command;
use std::alloc::{AllocError, Global};

pub(crate) const PLAIN: &str = "plain";

pub(crate) const VALIDATE: &str = "validate";

pub(crate) const CONVERT: &str = "convert";

pub(crate) const CHECK: &str = "check";

pub(crate) const EXPLAIN: &str = "explain";

pub(crate) const INSPECT: &str = "inspect";

pub(crate) const DRAFT: &str = "draft";

pub(crate) const SPLIT: &str = "split";

pub(crate) const COMPLETIONS: &str = "completions";

pub(crate) const MANUAL: &str = "manual";

const VERSION: &str = "0.5.0 (rattle 0.0.0)";

/// Makes a subcommand with these arguments. Fails with `AllocError` if memory runs out.
fn subcommand_of<'a>(
    alloc: Global,
    name: &'a str,
    about: &'a str,
    examples: &'a str,
    arguments: &'static [Argument],
) -> Result<Command<'a>, AllocError>
    ensures app { IfOk result (λ made. app_of made ≡ with_arguments (new_app name.entry.now) arguments.now) }
    ensures local { IfOk result (λ made. (out-Command made).has_globals ≡ false) }
{
    let mut command = Command::new(alloc, name).about(about).after_help(examples);
    for added in arguments {
        command = command.arg(arg_of(alloc, added))?;
    }
    Ok(command)
}

/// The arguments of `validate`, in the order of its help.
static VALIDATE_ARGUMENTS: [Argument; 15] = [
    BASE_VALUE,
    META_WORD,
    FILE_WORDS,
    TURNS_FLAG,
    EXPLAIN_FLAG,
    PROGRESS_FLAG,
    PROFILE_VALUE,
    RESOURCE_VALUES,
    PART_VALUE,
    PLAN_VALUE,
    KEYS_VALUE,
    REPORT_VALUE,
    COLOR_VALUE,
    ALL_FLAG,
    STRICT_FLAG,
];

/// Makes the subcommand `validate`. Fails with `AllocError` if memory runs out.
fn validate_command<'a>(alloc: Global) -> Result<Command<'a>, AllocError>
    ensures app { IfOk result (λ command. app_of command ≡ validate_app) }
    ensures local { IfOk result (λ command. (out-Command command).has_globals ≡ false) }
{
    subcommand_of(
        alloc,
        VALIDATE,
        "Reports whether the tables are valid by their metadata document",
        after_help::VALIDATE,
        &VALIDATE_ARGUMENTS,
    )
}

/// The arguments of `convert`, in the order of its help.
static CONVERT_ARGUMENTS: [Argument; 17] = [
    BASE_VALUE,
    META_WORD,
    FILE_WORDS,
    TURNS_FLAG,
    EXPLAIN_FLAG,
    PROGRESS_FLAG,
    PROFILE_VALUE,
    RESOURCE_VALUES,
    PART_VALUE,
    PLAN_VALUE,
    KEYS_VALUE,
    REPORT_VALUE,
    COLOR_VALUE,
    ALL_FLAG,
    STRICT_FLAG,
    MINIMAL_FLAG,
    LINE_BUFFERED_FLAG,
];

/// Makes the subcommand `convert`. Fails with `AllocError` if memory runs out.
fn convert_command<'a>(alloc: Global) -> Result<Command<'a>, AllocError>
    ensures app { IfOk result (λ command. app_of command ≡ convert_app) }
    ensures local { IfOk result (λ command. (out-Command command).has_globals ≡ false) }
{
    subcommand_of(
        alloc,
        CONVERT,
        "Converts the tables of a metadata document to N-Triples on standard output",
        after_help::CONVERT,
        &CONVERT_ARGUMENTS,
    )
}

/// The arguments of `plain`, in the order of its help.
static PLAIN_ARGUMENTS: [Argument; 5] = [
    URL_WORD,
    FILE_WORD,
    LINE_BUFFERED_FLAG,
    EXPLAIN_FLAG,
    PROGRESS_FLAG,
];

/// Makes the subcommand `plain`. Fails with `AllocError` if memory runs out.
fn plain_command<'a>(alloc: Global) -> Result<Command<'a>, AllocError>
    ensures app { IfOk result (λ command. app_of command ≡ plain_app) }
    ensures local { IfOk result (λ command. (out-Command command).has_globals ≡ false) }
{
    subcommand_of(
        alloc,
        PLAIN,
        "Converts one CSV file without metadata to N-Triples on standard output",
        after_help::PLAIN,
        &PLAIN_ARGUMENTS,
    )
}

/// The arguments of `check`, in the order of its help.
static CHECK_ARGUMENTS: [Argument; 10] = [
    OWN_BASE_VALUE,
    META_WORD,
    SOME_FILE_WORDS,
    PROGRESS_FLAG,
    PROFILE_VALUE,
    RESOURCE_VALUES,
    REPORT_VALUE,
    COLOR_VALUE,
    ALL_FLAG,
    STRICT_FLAG,
];

/// Makes the subcommand `check`. Fails with `AllocError` if memory runs out.
fn check_command<'a>(alloc: Global) -> Result<Command<'a>, AllocError>
    ensures app { IfOk result (λ command. app_of command ≡ check_app) }
    ensures local { IfOk result (λ command. (out-Command command).has_globals ≡ false) }
{
    subcommand_of(
        alloc,
        CHECK,
        "Shows what is wrong with the tables of a metadata document, with files, lines and cells",
        after_help::CHECK,
        &CHECK_ARGUMENTS,
    )
}

/// The arguments of `explain`, in the order of its help.
static EXPLAIN_ARGUMENTS: [Argument; 1] = [CODE_WORD];

/// Makes the subcommand `explain`. Fails with `AllocError` if memory runs out.
fn explain_command<'a>(alloc: Global) -> Result<Command<'a>, AllocError>
    ensures app { IfOk result (λ command. app_of command ≡ explain_app) }
    ensures local { IfOk result (λ command. (out-Command command).has_globals ≡ false) }
{
    subcommand_of(
        alloc,
        EXPLAIN,
        "Explains a code of a report, of a document or of a stop",
        after_help::EXPLAIN,
        &EXPLAIN_ARGUMENTS,
    )
}

/// The arguments of `inspect`, in the order of its help.
static INSPECT_ARGUMENTS: [Argument; 6] = [
    OWN_BASE_VALUE,
    META_WORD,
    JSON_FLAG,
    EXPLAIN_FLAG,
    PROFILE_VALUE,
    RESOURCE_VALUES,
];

/// Makes the subcommand `inspect`. Fails with `AllocError` if memory runs out.
fn inspect_command<'a>(alloc: Global) -> Result<Command<'a>, AllocError>
    ensures app { IfOk result (λ command. app_of command ≡ inspect_app) }
    ensures local { IfOk result (λ command. (out-Command command).has_globals ≡ false) }
{
    subcommand_of(
        alloc,
        INSPECT,
        "Shows what a metadata document says, with the defaults that apply",
        after_help::INSPECT,
        &INSPECT_ARGUMENTS,
    )
}

/// The arguments of `draft`, in the order of its help.
static DRAFT_ARGUMENTS: [Argument; 3] = [DRAFT_BASE_VALUE, FILE_WORDS, PROFILE_VALUE];

/// Makes the subcommand `draft`. Fails with `AllocError` if memory runs out.
fn draft_command<'a>(alloc: Global) -> Result<Command<'a>, AllocError>
    ensures app { IfOk result (λ command. app_of command ≡ draft_app) }
    ensures local { IfOk result (λ command. (out-Command command).has_globals ≡ false) }
{
    subcommand_of(
        alloc,
        DRAFT,
        "Drafts a metadata document for CSV files",
        after_help::DRAFT,
        &DRAFT_ARGUMENTS,
    )
}

/// The arguments of `split`, in the order of its help.
static SPLIT_ARGUMENTS: [Argument; 6] = [
    PARTS_VALUE,
    BASE_VALUE,
    META_WORD,
    FILE_WORDS,
    PROFILE_VALUE,
    RESOURCE_VALUES,
];

/// Makes the subcommand `split`. Fails with `AllocError` if memory runs out.
fn split_command<'a>(alloc: Global) -> Result<Command<'a>, AllocError>
    ensures app { IfOk result (λ command. app_of command ≡ split_app) }
    ensures local { IfOk result (λ command. (out-Command command).has_globals ≡ false) }
{
    subcommand_of(
        alloc,
        SPLIT,
        "Splits the files of tables into parts, at ends of rows, and writes the plan of the parts",
        after_help::SPLIT,
        &SPLIT_ARGUMENTS,
    )
}

/// The arguments of `keys`, in the order of its help.
static KEYS_ARGUMENTS: [Argument; 4] = [BASE_VALUE, META_WORD, PROFILE_VALUE, RESOURCE_VALUES];

/// Makes the subcommand `keys`. Fails with `AllocError` if memory runs out.
fn keys_command<'a>(alloc: Global) -> Result<Command<'a>, AllocError>
    ensures app { IfOk result (λ command. app_of command ≡ keys_app) }
    ensures local { IfOk result (λ command. (out-Command command).has_globals ≡ false) }
{
    subcommand_of(
        alloc,
        KEYS,
        "Judges the keys of a group by the sorted records that its parts wrote",
        after_help::KEYS,
        &KEYS_ARGUMENTS,
    )
}

/// The arguments of `report`, in the order of its help.
static REPORT_ARGUMENTS: [Argument; 1] = [REPORT_WORDS];

/// Makes the subcommand `report`. Fails with `AllocError` if memory runs out.
fn report_command<'a>(alloc: Global) -> Result<Command<'a>, AllocError>
    ensures app { IfOk result (λ command. app_of command ≡ report_app) }
    ensures local { IfOk result (λ command. (out-Command command).has_globals ≡ false) }
{
    subcommand_of(
        alloc,
        REPORT,
        "Joins the reports of parts to one",
        after_help::REPORT,
        &REPORT_ARGUMENTS,
    )
}

/// The arguments of `completions`, in the order of its help.
static COMPLETIONS_ARGUMENTS: [Argument; 1] = [SHELL_WORD];

/// Makes the subcommand `completions`. Fails with `AllocError` if memory runs out.
fn completions_command<'a>(alloc: Global) -> Result<Command<'a>, AllocError>
    ensures app { IfOk result (λ command. app_of command ≡ completions_app) }
    ensures local { IfOk result (λ command. (out-Command command).has_globals ≡ false) }
{
    subcommand_of(
        alloc,
        COMPLETIONS,
        "Writes the completions of this command line for a shell",
        after_help::COMPLETIONS,
        &COMPLETIONS_ARGUMENTS,
    )
}

/// Makes the subcommand `manual`.
fn manual_command<'a>(alloc: Global) -> Command<'a>
    ensures app { app_of result ≡ manual_app }
    ensures local { (out-Command result).has_globals ≡ false }
{
    Command::new(alloc, MANUAL)
        .about("Writes the manual page of this command line")
        .after_help(after_help::MANUAL)
}

/// Adds a subcommand to a command, if both could be made. So the caller has no early return, which would drop a command.
/// Fails with `AllocError` if memory runs out, or if one of them failed.
fn with<'a>(
    command: Result<Command<'a>, AllocError>,
    subcommand: Result<Command<'a>, AllocError>,
) -> Result<Command<'a>, AllocError>
    ensures { IfOk result (λ made. Joins command.entry subcommand.entry made) }
{
    command?.subcommand(subcommand?)
}

/// Makes the whole command line. Fails with `AllocError` if memory runs out.
pub fn command_line<'a>(alloc: Global) -> Result<Command<'a>, AllocError>
    ensures { IfOk result (λ command. app_of command ≡ program_app) }
{
    let command = Command::new(alloc, "csvw")
        .about("Validates CSV on the Web and converts it to RDF")
        .after_help(after_help::PROGRAM)
        .version(VERSION)
        .subcommand_required(true)
        .arg_required_else_help(true);
    let command = with(Ok(command), validate_command(alloc));
    let command = with(command, convert_command(alloc));
    let command = with(command, plain_command(alloc));
    let command = with(command, check_command(alloc));
    let command = with(command, explain_command(alloc));
    let command = with(command, inspect_command(alloc));
    let command = with(command, draft_command(alloc));
    let command = with(command, split_command(alloc));
    let command = with(command, keys_command(alloc));
    let command = with(command, report_command(alloc));
    let command = with(command, completions_command(alloc));
    with(command, Ok(manual_command(alloc)))
}
