//! Foreign keys.
use csvw_iri::Iri;
use csvw_text::{Seq, Text};

/// A foreign key (Metadata Vocabulary for Tabular Data, section 5.5.2.1).
#[derive(Debug, Drop)]
pub struct ForeignKey {
    /// The names of the referring columns. There is at least one.
    pub columns: Seq<Text>,
    /// The URL of the table that is referenced (`resource`), made safe.
    pub resource: Iri,
    /// The names of the referenced columns, as many as the referring ones.
    pub referenced: Seq<Text>,
}
