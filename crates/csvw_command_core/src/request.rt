//! A request of the program, and the one that the words of a command line make.
ghost use Rattle.clap.specs.Words.{FailsBy, fault_of};
ghost use Rattle.csvw_command_core.specs.Asked.{Asks, program_app};
ghost use Rattle.std.specs.Prelude.{IfOk, map, string_bytes};

use crate::matches::request_of;
use crate::subcommands::command_line;
use clap::Error;
use std::alloc::{AllocError, Global};

/// How a report is shown.
#[derive(Clone, Copy)]
pub struct Reporting<'a> {
    /// The name of its form, if one is given.
    pub form: Option<&'a str>,
    /// When a text has colours, if that is given.
    pub color: Option<&'a str>,
    /// Whether all faults are shown. Else only the first ones of each code in each column are.
    pub all: bool,
    /// Whether a warning counts for the status as an error does.
    pub strict: bool,
}

/// A group of tables, by its metadata document.
#[derive(Drop)]
pub struct Group<'a> {
    /// The URL of the metadata document.
    pub base: &'a str,
    /// The file that has the document.
    pub meta: &'a str,
    /// The files of the tables, in the order of the words.
    pub files: Vec<&'a str>,
    /// The name of the profile of the document, if one is given.
    pub profile: Option<&'a str>,
    /// The resources, each as `URL=FILE`, in the order of the words. There may be none.
    pub resources: Vec<&'a str>,
    /// Whether a piece of each file is read in turn. Else the files are read one after the other.
    pub turns: bool,
    /// How the report is shown.
    pub reporting: Reporting<'a>,
    /// Whether a stop is explained.
    pub explain: bool,
    /// Whether the progress is shown at a terminal.
    pub progress: bool,
    /// The number of the part that is read, if one is given. Else all rows are read.
    pub part: Option<&'a str>,
    /// The file that has the plan of the parts, if one is given.
    pub plan: Option<&'a str>,
    /// The file to which the keys of the part's rows are written, if one is given.
    pub keys: Option<&'a str>,
}

/// A group of tables to check, by its metadata document.
#[derive(Drop)]
pub struct CheckedGroup<'a> {
    /// The URL of the metadata document, if it is given.
    pub base: Option<&'a str>,
    /// The file that has the document.
    pub meta: &'a str,
    /// The files of the tables, in the order of the words. There may be none.
    pub files: Vec<&'a str>,
    /// The name of the profile of the document, if one is given.
    pub profile: Option<&'a str>,
    /// The resources, each as `URL=FILE`, in the order of the words. There may be none.
    pub resources: Vec<&'a str>,
    /// How the report is shown.
    pub reporting: Reporting<'a>,
    /// Whether the progress is shown at a terminal.
    pub progress: bool,
}

/// A metadata document to show.
#[derive(Drop)]
pub struct Inspected<'a> {
    /// The URL of the document, if it is given.
    pub base: Option<&'a str>,
    /// The file that has the document.
    pub meta: &'a str,
    /// The name of its profile, if one is given.
    pub profile: Option<&'a str>,
    /// The resources, each as `URL=FILE`, in the order of the words. There may be none.
    pub resources: Vec<&'a str>,
    /// Whether it is shown as JSON. Else it is shown as text.
    pub json: bool,
    /// Whether a stop is explained.
    pub explain: bool,
}

/// Tables for which a metadata document is drafted.
#[derive(Drop)]
pub struct DraftedFiles<'a> {
    /// The URL against which the tables' URLs are resolved, if it is given.
    pub base: Option<&'a str>,
    /// The files of the tables, in the order of the words.
    pub files: Vec<&'a str>,
    /// The name of the profile of the document, if one is given.
    pub profile: Option<&'a str>,
}

/// Tables whose files are split into parts.
#[derive(Drop)]
pub struct SplitFiles<'a> {
    /// The URL of the metadata document.
    pub base: &'a str,
    /// The file that has the document.
    pub meta: &'a str,
    /// The files of the tables, in the order of the words.
    pub files: Vec<&'a str>,
    /// The name of the profile of the document, if one is given.
    pub profile: Option<&'a str>,
    /// The resources, each as `URL=FILE`, in the order of the words. There may be none.
    pub resources: Vec<&'a str>,
    /// How many parts there are at most. It is 0 if the word is no number from 1 to 4294967295.
    pub parts: u32,
}

/// A group whose keys are judged by the records of its parts.
#[derive(Drop)]
pub struct JudgedKeys<'a> {
    /// The URL of the metadata document.
    pub base: &'a str,
    /// The file that has the document.
    pub meta: &'a str,
    /// The name of the profile of the document, if one is given.
    pub profile: Option<&'a str>,
    /// The resources, each as `URL=FILE`, in the order of the words. There may be none.
    pub resources: Vec<&'a str>,
}

/// A request: what the command line asks the program to do.
#[derive(Drop)]
pub enum Request<'a> {
    /// Converts one table at this URL, without metadata, from this file.
    Plain {
        /// The table's URL.
        url: &'a str,
        /// The file that has the table.
        file: &'a str,
        /// Whether each line of the graph is sent when it is made. Else lines wait for a full buffer, except at a
        /// terminal.
        line_buffered: bool,
        /// Whether a stop is explained.
        explain: bool,
        /// Whether the progress is shown at a terminal.
        progress: bool,
    },
    /// Reports whether the group is valid.
    Validate(Group<'a>),
    /// Converts the group to its graph.
    Convert {
        /// The group.
        group: Group<'a>,
        /// Whether the graph is that of minimal mode. Else it is that of standard mode.
        minimal: bool,
        /// Whether each line of the graph is sent when it is made, as in `Plain`.
        line_buffered: bool,
    },
    /// Shows what is wrong with the group.
    Check(CheckedGroup<'a>),
    /// Explains this code, or lists all codes.
    Explain(Option<&'a str>),
    /// Shows what a metadata document says.
    Inspect(Inspected<'a>),
    /// Drafts a metadata document for tables.
    Draft(DraftedFiles<'a>),
    /// Splits the files of tables into parts.
    Split(SplitFiles<'a>),
    /// Judges the keys of a group by the sorted records on standard input.
    Keys(JudgedKeys<'a>),
    /// Joins the reports in these files to one.
    Report(Vec<&'a str>),
    /// Writes the completions of the command line for the shell of this name.
    Completions(&'a str),
    /// Writes the manual page.
    Manual,
}

/// Returns the request that the words make. The first word is the program's name.
///
/// Fails with clap's `Error` if they make none, or if memory runs out. The error has the text to print, such as the
/// help.
pub fn requested<'a>(alloc: Global, words: &'a [String]) -> Result<Request<'a>, Error>
    ensures asks { IfOk result (λ request. Asks (map string_bytes words.entry.now) request) }
    ensures kinds { FailsBy (fault_of program_app (map string_bytes words.entry.now)) result }
{
    let matches = command_line(alloc)?.try_get_matches_from(words)?;
    if let Some((name, inner)) = matches.subcommand() {
        if let Some(request) = request_of(alloc, name, inner)? {
            return Ok(request);
        }
    }
    Err(Error::from(AllocError))
}
