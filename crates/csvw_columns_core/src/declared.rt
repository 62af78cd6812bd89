//! The columns that a schema declares.
ghost use Rattle.std.specs.Prelude.{◌≡◌, ◌≤◌, IfOk, length};
ghost use Rattle.csvw_iri.specs.Link.{iri_of};
ghost use Rattle.csvw_columns_core.specs.Inherited.{properties_of};
ghost use Rattle.csvw_columns_core.specs.LiteralDatatype.{literal_datatype};
ghost use Rattle.csvw_description.specs.Plannable.{column_limit};
ghost use Rattle.csvw_columns_core.specs.SchemaColumns.{source_number_of, declared, declared_columns};

use crate::column::Column;
use crate::properties::{Defaults, Properties};
use crate::xsd::literal_datatype;
use csvw_description::{ColumnDescription, Inherited};
use csvw_iri::{Base, Iri, with_fragment};
use csvw_text::{Seq, both};
use std::alloc::{AllocError, Global};

/// The properties that the columns of a table have from the table and its schema.
#[derive(Debug, Drop)]
pub struct Frame {
    /// The table's URL.
    pub url: Base,
    /// The number of columns of the source that are skipped before them.
    pub skip_columns: u32,
    /// The inherited properties of their schema.
    pub schema: Inherited,
    /// The inherited properties of their table.
    pub table: Inherited,
}

/// Returns the source number of a column, from 1. A virtual column has none.
fn source_number_of(is_virtual: bool, skip_columns: u32, number: u32) -> Option<u64>
    ensures { result ≡ source_number_of is_virtual skip_columns number }
{
    if is_virtual {
        None
    } else {
        Some(u64::from(skip_columns) + u64::from(number))
    }
}

impl Frame {
    /// Returns the properties of a column with these own ones, and the datatype of its literals. Returns `AllocError`
    /// if memory runs out.
    fn inherited(
        &self,
        alloc: Global,
        defaults: &Defaults,
        group: &Inherited,
        own: &Inherited,
    ) -> Result<(Properties, Iri), AllocError>
        ensures { IfOk result (λ found. (found.0 ≡ properties_of own.now self.now.schema self.now.table group.now)
            × (found.1 ≡ literal_datatype found.0.datatype)) }
    {
        let properties = defaults.inherited(alloc, own, &self.schema, &self.table, group)?;
        let literal_datatype = literal_datatype(alloc, properties.datatype.get());
        both(Ok(properties), literal_datatype)
    }

    /// Returns the column of a description, with its number from 1 (Metadata Vocabulary for Tabular Data, sections
    /// 5.6 and 5.7; csv2rdf, section 4.6.5). Returns `AllocError` if memory runs out.
    pub fn declared(
        &self,
        alloc: Global,
        defaults: &Defaults,
        group: &Inherited,
        number: u32,
        description: &ColumnDescription,
    ) -> Result<Column, AllocError>
        ensures { IfOk result (λ c. c ≡ declared (iri_of self.now.url) self.now.skip_columns self.now.schema self.now.table group.now number description.now) }
    {
        let name = description.resolved_name(alloc, number as usize)?;
        let texts = both(
            with_fragment(alloc, self.url.iri(), name.as_str()),
            description.titles.clone(alloc),
        );
        let inherited = self.inherited(alloc, defaults, group, &description.inherited);
        let ((predicate, titles), (properties, literal_datatype)) = both(texts, inherited)?;
        Ok(Column {
            name,
            is_named: description.name.is_some(),
            titles,
            number,
            source_number: source_number_of(description.is_virtual, self.skip_columns, number),
            is_virtual: description.is_virtual,
            suppressed: description.suppressed,
            is_row_title: description.is_row_title,
            predicate,
            literal_datatype,
            properties,
        })
    }

    /// Returns the columns that a schema declares, in order, numbered from 1. Returns `AllocError` if memory runs
    /// out.
    pub fn declared_columns(
        &self,
        alloc: Global,
        defaults: &Defaults,
        group: &Inherited,
        descriptions: &[ColumnDescription],
    ) -> Result<Seq<Column>, AllocError>
        requires { length descriptions.now ≤ column_limit }
        ensures { IfOk result (λ cs. cs ≡ declared_columns (iri_of self.now.url) self.now.skip_columns
            self.now.schema self.now.table group.now descriptions.now) }
    {
        let mut columns = Vec::new(alloc);
        for (i, description) in descriptions.iter().enumerate() {
            let column = self.declared(alloc, defaults, group, i as u32 + 1, description)?;
            columns.push(column)?;
        }
        Ok(Seq::of(columns))
    }
}
