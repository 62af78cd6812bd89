//! What is asked of a draft.

use csvw_meta::Profile;

/// What is asked of a draft.
#[derive(Clone, Copy, Debug)]
pub struct Draft<'a> {
    /// The URL that the documents' URLs are resolved against, if it is given.
    pub base: Option<&'a str>,
    /// The paths of the tables' files.
    pub files: &'a [&'a str],
    /// The profile of the document. It has the datatypes that are looked for.
    pub profile: Profile,
}
