//! What is asked of an inspection.

use csvw_files::ResourceFile;
use csvw_meta::Profile;

/// The form in which a document is shown.
#[derive(Clone, Copy, Debug, PartialEq, Eq)]
pub enum InspectForm {
    /// Lines with a name and a value each, indented by what they belong to.
    Text,
    /// A JSON object. Its members have the names of the standard.
    Json,
}

/// What is asked of an inspection.
#[derive(Clone, Copy, Debug)]
pub struct Inspect<'a> {
    /// The absolute URL of the document.
    pub base: &'a str,
    /// The path of the document.
    pub meta: &'a str,
    /// The files of the schemas and dialects that the document names by their URLs. There may be none.
    pub resources: &'a [ResourceFile<'a>],
    /// The features that the document may use.
    pub profile: Profile,
    /// The form in which it is shown.
    pub form: InspectForm,
}
