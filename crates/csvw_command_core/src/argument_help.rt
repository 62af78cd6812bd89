//! The help texts of the options, flags and positional arguments.

pub(crate) const URL: &str = "The absolute URL of the table; its columns' predicates begin with it";

pub(crate) const FILE: &str = "The CSV file: UTF-8, with one header row that names the columns";

pub(crate) const META: &str = "The file with the metadata document";

pub(crate) const FILES: &str = "The CSV file of each table, in the order of the metadata";

pub(crate) const SOME_FILES: &str =
    "The CSV file of each table, by its name or in the order of the metadata; else they are found beside the document";

pub(crate) const REPORT_FILES: &str =
    "The file with the report of each part, and that with the report of the keys";

pub(crate) const CODE: &str =
    "The code, as in `csvw explain BadInteger`; else all codes are listed";

pub(crate) const SHELL: &str = "The shell: bash, zsh or fish";

pub(crate) const BASE: &str =
    "The absolute URL of the metadata document, as in `--base http://example.org/tables.json`";

pub(crate) const OWN_BASE: &str =
    "The absolute URL of the metadata document; else it is the `file:` URL of its path";

pub(crate) const DRAFT_BASE: &str =
    "The absolute URL that the tables' URLs are resolved against; the document then has it as `@base`";

pub(crate) const PARTS: &str =
    "How many parts there are at most, from 1 to 4294967295, as in `--parts 8`";

pub(crate) const PROFILE: &str =
    "Which features a document may use: core, or w3c for more datatypes of the standard; it is core";

pub(crate) const RESOURCE: &str =
    "The file with the schema or dialect of this URL, as in `--resource http://example.org/s.json=s.json`; it may be given several times, with `--profile w3c`";

pub(crate) const REPORT: &str =
    "The form of the report, as in `csvw validate --report html --base URL t.json t.csv`; it is csv, for `check` text";

pub(crate) const COLOR: &str =
    "When a text has colours; with auto at a terminal, where NO_COLOR isn't set";

pub(crate) const ALL: &str =
    "Shows all faults; else the first 20 of each code in each column, and counts the others";

pub(crate) const STRICT: &str = "Counts a warning as an error for the status";

pub(crate) const EXPLAINED: &str = "Explains a stop behind its line, with the file and what to do";

pub(crate) const PROGRESS: &str =
    "Shows the progress on standard error, also if standard output is a terminal; never if standard error is none";

pub(crate) const TURNS: &str =
    "Reads a piece of each file in turn, as in `csvw convert --turns --base URL t.json a.csv b.csv`; the graph and the report are the same";

pub(crate) const MINIMAL: &str =
    "Writes the triples of the cells alone, as in `csvw convert --minimal --base http://example.org/t.json t.json t.csv`";

pub(crate) const LINE_BUFFERED: &str =
    "Sends each line when it is made, as in `csvw plain --line-buffered URL t.csv`; else lines wait for a full buffer, but at a terminal";

pub(crate) const PART: &str =
    "Reads the rows of part K of a plan alone, as in `csvw convert --part 2 --plan plan.csv --base URL t.json t.csv`";

pub(crate) const PLAN: &str =
    "The file with the plan of the parts, which `csvw split` wrote for the same files";

pub(crate) const KEYS: &str =
    "The file to which the keys of the rows of the part are written, for `csvw keys`";

pub(crate) const JSON: &str = "Shows the document as JSON; else as text";
