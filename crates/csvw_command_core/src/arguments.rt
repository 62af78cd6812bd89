//! The options, flags and positional arguments, in clap's terms.
ghost use Rattle.clap.specs.Words.{rule_of};
ghost use Rattle.csvw_command_core.specs.Table.{rule_of_argument};
ghost use Rattle.std.specs.Prelude.{◌≡◌, false};

use crate::argument_help;
use clap::{Arg, ArgAction};
use std::alloc::Global;

pub(crate) const CODE: &str = "CODE";

pub(crate) const SHELL: &str = "SHELL";

pub(crate) const ALL: &str = "all";

pub(crate) const URL: &str = "URL";

pub(crate) const FILE: &str = "FILE";

pub(crate) const META: &str = "META";

pub(crate) const BASE: &str = "base";

pub(crate) const MINIMAL: &str = "minimal";

pub(crate) const LINE_BUFFERED: &str = "line-buffered";

pub(crate) const TURNS: &str = "turns";

pub(crate) const REPORT: &str = "report";

pub(crate) const COLOR: &str = "color";

pub(crate) const STRICT: &str = "strict";

pub(crate) const EXPLAINED: &str = "explain";

pub(crate) const PROGRESS: &str = "progress";

pub(crate) const PROFILE: &str = "profile";

pub(crate) const RESOURCE: &str = "resource";

pub(crate) const JSON: &str = "json";

pub(crate) const PART: &str = "part";

pub(crate) const PLAN: &str = "plan";

pub(crate) const PARTS: &str = "parts";

pub(crate) const KEYS: &str = "keys";

/// How an argument is given.
pub(crate) enum Form {
    /// One word, by its place.
    Word,
    /// One word or more, by their place.
    Words,
    /// A flag.
    Flag,
    /// An option with a value, which help calls so.
    Value(&'static str),
    /// An option with a value, which may be given several times.
    Values(&'static str),
}

/// An option, a flag or a positional argument of a subcommand.
pub(crate) struct Argument {
    /// Its name. An option or a flag has it as its long name too.
    id: &'static str,
    /// How it is given.
    form: Form,
    /// Whether it must be given.
    is_required: bool,
    /// Its help.
    help: &'static str,
}

/// Makes the argument of a row.
pub(crate) fn arg_of<'a>(alloc: Global, row: &'static Argument) -> Arg<'a>
    ensures rule { rule_of result ≡ rule_of_argument row.now }
    ensures local { result.global ≡ false }
{
    let arg = Arg::new(alloc, row.id)
        .required(row.is_required)
        .help(row.help);
    match row.form {
        Form::Word => arg,
        Form::Words => arg.num_args(1..),
        Form::Flag => arg.long(row.id).action(ArgAction::SetTrue),
        Form::Value(name) => arg.long(row.id).value_name(name),
        Form::Values(name) => arg.long(row.id).value_name(name).action(ArgAction::Append),
    }
}

/// The URL of a table.
pub(crate) const URL_WORD: Argument = Argument {
    id: URL,
    form: Form::Word,
    is_required: true,
    help: argument_help::URL,
};

/// The file of one table.
pub(crate) const FILE_WORD: Argument = Argument {
    id: FILE,
    form: Form::Word,
    is_required: true,
    help: argument_help::FILE,
};

/// The file of the document.
pub(crate) const META_WORD: Argument = Argument {
    id: META,
    form: Form::Word,
    is_required: true,
    help: argument_help::META,
};

/// The name of a shell.
pub(crate) const SHELL_WORD: Argument = Argument {
    id: SHELL,
    form: Form::Word,
    is_required: true,
    help: argument_help::SHELL,
};

/// A code, if it is given.
pub(crate) const CODE_WORD: Argument = Argument {
    id: CODE,
    form: Form::Word,
    is_required: false,
    help: argument_help::CODE,
};

/// The files of the tables, at least one.
pub(crate) const FILE_WORDS: Argument = Argument {
    id: FILE,
    form: Form::Words,
    is_required: true,
    help: argument_help::FILES,
};

/// The files of the tables, if they are given.
pub(crate) const SOME_FILE_WORDS: Argument = Argument {
    id: FILE,
    form: Form::Words,
    is_required: false,
    help: argument_help::SOME_FILES,
};

/// The files of reports, at least one.
pub(crate) const REPORT_WORDS: Argument = Argument {
    id: FILE,
    form: Form::Words,
    is_required: true,
    help: argument_help::REPORT_FILES,
};

/// The URL of the document, which must be given.
pub(crate) const BASE_VALUE: Argument = Argument {
    id: BASE,
    form: Form::Value(URL),
    is_required: true,
    help: argument_help::BASE,
};

/// The URL of the document, if it is given.
pub(crate) const OWN_BASE_VALUE: Argument = Argument {
    id: BASE,
    form: Form::Value(URL),
    is_required: false,
    help: argument_help::OWN_BASE,
};

/// The URL that the tables' URLs are resolved against, if it is given.
pub(crate) const DRAFT_BASE_VALUE: Argument = Argument {
    id: BASE,
    form: Form::Value(URL),
    is_required: false,
    help: argument_help::DRAFT_BASE,
};

/// The number of parts, which must be given.
pub(crate) const PARTS_VALUE: Argument = Argument {
    id: PARTS,
    form: Form::Value("N"),
    is_required: true,
    help: argument_help::PARTS,
};

/// The profile of the document.
pub(crate) const PROFILE_VALUE: Argument = Argument {
    id: PROFILE,
    form: Form::Value("core|w3c"),
    is_required: false,
    help: argument_help::PROFILE,
};

/// The files that have what URLs name.
pub(crate) const RESOURCE_VALUES: Argument = Argument {
    id: RESOURCE,
    form: Form::Values("URL=FILE"),
    is_required: false,
    help: argument_help::RESOURCE,
};

/// The number of the part that is read.
pub(crate) const PART_VALUE: Argument = Argument {
    id: PART,
    form: Form::Value("K"),
    is_required: false,
    help: argument_help::PART,
};

/// The file of the plan of the parts.
pub(crate) const PLAN_VALUE: Argument = Argument {
    id: PLAN,
    form: Form::Value("PLAN"),
    is_required: false,
    help: argument_help::PLAN,
};

/// The file to which the keys are written.
pub(crate) const KEYS_VALUE: Argument = Argument {
    id: KEYS,
    form: Form::Value("KEYS"),
    is_required: false,
    help: argument_help::KEYS,
};

/// The form of the report.
pub(crate) const REPORT_VALUE: Argument = Argument {
    id: REPORT,
    form: Form::Value("csv|text|html|json"),
    is_required: false,
    help: argument_help::REPORT,
};

/// When the report has colours.
pub(crate) const COLOR_VALUE: Argument = Argument {
    id: COLOR,
    form: Form::Value("auto|always|never"),
    is_required: false,
    help: argument_help::COLOR,
};

/// Whether all faults are shown.
pub(crate) const ALL_FLAG: Argument = Argument {
    id: ALL,
    form: Form::Flag,
    is_required: false,
    help: argument_help::ALL,
};

/// Whether a warning counts as an error.
pub(crate) const STRICT_FLAG: Argument = Argument {
    id: STRICT,
    form: Form::Flag,
    is_required: false,
    help: argument_help::STRICT,
};

/// Whether a stop is explained.
pub(crate) const EXPLAIN_FLAG: Argument = Argument {
    id: EXPLAINED,
    form: Form::Flag,
    is_required: false,
    help: argument_help::EXPLAINED,
};

/// Whether the progress is shown.
pub(crate) const PROGRESS_FLAG: Argument = Argument {
    id: PROGRESS,
    form: Form::Flag,
    is_required: false,
    help: argument_help::PROGRESS,
};

/// Whether files are read in turn.
pub(crate) const TURNS_FLAG: Argument = Argument {
    id: TURNS,
    form: Form::Flag,
    is_required: false,
    help: argument_help::TURNS,
};

/// Whether the graph is that of minimal mode.
pub(crate) const MINIMAL_FLAG: Argument = Argument {
    id: MINIMAL,
    form: Form::Flag,
    is_required: false,
    help: argument_help::MINIMAL,
};

/// Whether each line is sent when it is made.
pub(crate) const LINE_BUFFERED_FLAG: Argument = Argument {
    id: LINE_BUFFERED,
    form: Form::Flag,
    is_required: false,
    help: argument_help::LINE_BUFFERED,
};

/// Whether the document is shown as JSON.
pub(crate) const JSON_FLAG: Argument = Argument {
    id: JSON,
    form: Form::Flag,
    is_required: false,
    help: argument_help::JSON,
};
