//! Tables, as a document describes them.
use crate::inherited::Inherited;
use crate::note::Note;
use crate::schema::Schema;
use csvw_iri::{Base, Iri};
use csvw_records::Dialect;
use csvw_text::{Fault, Seq};

/// A table description (Metadata Vocabulary for Tabular Data, section 5.4).
#[derive(Debug, Drop)]
pub struct TableDescription {
    /// The `url`, resolved, without its fragment.
    pub url: Base,
    /// The `@id`, resolved and made safe.
    pub id: Option<Iri>,
    /// The `dialect`. `None`: the group's dialect applies.
    pub dialect: Option<Dialect>,
    /// The `tableSchema`. `None`: the group's schema applies.
    pub schema: Option<Schema>,
    /// Whether the table is left out of the graph (`suppressOutput`).
    pub suppressed: bool,
    /// The inherited properties of the table.
    pub inherited: Inherited,
    /// The annotations: common properties in the byte order of their keys, then `notes`.
    pub notes: Seq<Note>,
    /// A warning for each property that is ignored in the table, in its dialect and in its notes. Those of its schema
    /// are not among them.
    pub warnings: Seq<Fault>,
}
