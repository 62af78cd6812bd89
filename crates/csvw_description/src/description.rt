//! Groups of tables, as a document describes them.
use crate::inherited::Inherited;
use crate::note::Note;
use crate::schema::Schema;
use crate::table::TableDescription;
use csvw_iri::Iri;
use csvw_records::Dialect;
use csvw_text::{Fault, Seq};

/// The group of tables that a document describes (Metadata Vocabulary for Tabular Data, section 5.3). If the document
/// describes one table alone, the group has that table and nothing else.
#[derive(Debug, Drop)]
pub struct Description {
    /// The `@id`, resolved and made safe.
    pub id: Option<Iri>,
    /// The tables, in order.
    pub tables: Seq<TableDescription>,
    /// The `dialect`, for tables that have none.
    pub dialect: Option<Dialect>,
    /// The `tableSchema`, for tables that have none.
    pub schema: Option<Schema>,
    /// The inherited properties of the group.
    pub inherited: Inherited,
    /// The annotations: common properties in the byte order of their keys, then `notes`.
    pub notes: Seq<Note>,
    /// A warning for each property that is ignored in the group, in its dialect and in its notes. Those of its schema
    /// and its tables are not among them.
    pub warnings: Seq<Fault>,
}
