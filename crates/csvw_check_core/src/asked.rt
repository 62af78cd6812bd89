//! What is asked of a check, and of the showing of a report.

use crate::source::Source;
use csvw_engine_core::Stop;
use csvw_files::ResourceFile;
use csvw_hints::Group;
use csvw_meta::Profile;
use csvw_page::{Color, Form};
use csvw_reread::Shown;
use csvw_text::Fault;

/// Which faults make the status that of an invalid group.
#[derive(Clone, Copy, PartialEq, Eq)]
pub enum Strict {
    /// Those that are errors.
    Errors,
    /// Those that are errors or warnings.
    Warnings,
}

/// What is asked of a check.
#[derive(Clone, Copy)]
pub struct Check<'a> {
    /// The absolute URL of the metadata document.
    pub base: &'a str,
    /// The path of the document.
    pub meta: &'a str,
    /// The paths of the tables' files. If there are none, the files are found beside the document.
    pub files: &'a [&'a str],
    /// The files of the schemas and dialects that the document names by their URLs. There may be none.
    pub resources: &'a [ResourceFile<'a>],
    /// The features that the document may use.
    pub profile: Profile,
    /// How many faults are shown.
    pub shown: Shown,
    /// The form of the page.
    pub form: Form,
    /// Whether its lines have colours.
    pub color: Color,
    /// Which faults make the status that of an invalid group.
    pub strict: Strict,
}

/// What is asked of the showing of a report.
#[derive(Clone, Copy)]
pub struct Show<'a> {
    /// The absolute URL of the metadata document.
    pub base: &'a str,
    /// The path of the document.
    pub meta: &'a str,
    /// The paths of the tables' files, in the order of the tables. If there are none, the files are found beside the
    /// document.
    pub files: &'a [&'a str],
    /// The files of the schemas and dialects that the document names by their URLs. There may be none.
    pub resources: &'a [ResourceFile<'a>],
    /// The features that the document may use.
    pub profile: Profile,
    /// How many faults are shown.
    pub shown: Shown,
    /// The form of the page.
    pub form: Form,
    /// Whether its lines have colours.
    pub color: Color,
    /// The faults that the run found, in the order of reports. There are none if it stopped.
    pub faults: &'a [Fault],
    /// Why the run stopped, if it did.
    pub stop: Option<&'a Stop>,
}

/// What is asked of the explanation of the stop of a table without metadata.
#[derive(Clone, Copy)]
pub struct ShowTable<'a> {
    /// The URL of the table.
    pub url: &'a str,
    /// The path of its file.
    pub file: &'a str,
    /// Whether the lines have colours.
    pub color: Color,
    /// Why the run stopped.
    pub stop: &'a Stop,
}

impl<'a> Check<'a> {
    /// Returns the document and the files.
    pub fn group(&self) -> Group<'a> {
        Group {
            base: self.base,
            meta: self.meta,
            files: self.files,
        }
    }

    /// Returns the document and its resources.
    pub fn source(&self) -> Source<'a> {
        Source {
            base: self.base,
            meta: self.meta,
            resources: self.resources,
            profile: self.profile,
        }
    }
}

impl<'a> Show<'a> {
    /// Returns the document and the files.
    pub fn group(&self) -> Group<'a> {
        Group {
            base: self.base,
            meta: self.meta,
            files: self.files,
        }
    }

    /// Returns the document and its resources.
    pub fn source(&self) -> Source<'a> {
        Source {
            base: self.base,
            meta: self.meta,
            resources: self.resources,
            profile: self.profile,
        }
    }
}
