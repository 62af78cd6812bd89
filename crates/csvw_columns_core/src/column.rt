//! `Column`: a column of a table.
use crate::properties::Properties;
use csvw_description::Name;
use csvw_iri::Iri;
use csvw_text::{Seq, Text};

/// A column of a table (Model for Tabular Data, section 4.3).
#[derive(Debug, Drop)]
pub struct Column {
    /// The name.
    pub name: Name,
    /// Whether the name is its own, and not that of a title or of its number.
    pub is_named: bool,
    /// The titles that aren't empty, the first one first.
    pub titles: Seq<Text>,
    /// The number of the column in its table, from 1.
    pub number: u32,
    /// The number of the column in the source, from 1. Skipped columns count. `None`: the column is virtual.
    pub source_number: Option<u64>,
    /// Whether the column has no field in the source.
    pub is_virtual: bool,
    /// Whether the cells of the column are left out of the graph.
    pub suppressed: bool,
    /// Whether the values of its cells are titles of their rows (section 4.4).
    pub is_row_title: bool,
    /// The predicate of the cells' triples if there is no property link: the table's URL, `#` and the name (csv2rdf,
    /// section 4.6.5).
    pub predicate: Iri,
    /// The datatype of the literals of values that were read and have no language: the `@id` of the column's
    /// datatype, else its base.
    pub literal_datatype: Iri,
    /// The inherited properties.
    pub properties: Properties,
}
