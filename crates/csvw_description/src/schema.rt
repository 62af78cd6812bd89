//! Schemas.
use crate::column::ColumnDescription;
use crate::foreign_key::ForeignKey;
use crate::inherited::Inherited;
use csvw_text::{Fault, Seq, Text};

/// A schema (Metadata Vocabulary for Tabular Data, section 5.5).
#[derive(Debug, Drop)]
pub struct Schema {
    /// The columns, in order. If there are none, a table's columns come from its header.
    pub columns: Seq<ColumnDescription>,
    /// The names of the columns of the primary key. If there are none, there is no primary key.
    pub primary_key: Seq<Text>,
    /// The foreign keys, in order.
    pub foreign_keys: Seq<ForeignKey>,
    /// The inherited properties of the schema.
    pub inherited: Inherited,
    /// A warning for each property that is ignored in the schema. Those of its columns are not among them.
    pub warnings: Seq<Fault>,
}
