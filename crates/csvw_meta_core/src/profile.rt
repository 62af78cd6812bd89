//! `Profile`: which features of the standard a document may use.

/// Which features of the Metadata Vocabulary for Tabular Data a document may use. A feature outside the profile is
/// `NotSupported`.
#[derive(Clone, Copy, Debug, PartialEq, Eq)]
pub enum Profile {
    /// The features that each document may use.
    Core,
    /// Those, and more datatypes and formats (sections 5.11.1 and 5.11.2), such as `double`, `time`, a regular expression as the
    /// format of texts, and patterns of numbers.
    W3c,
}
