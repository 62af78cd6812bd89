//! Copies of columns.
ghost use Rattle.std.specs.Prelude.{◌≡◌, IfOk};

use crate::column::Column;
use crate::columns::Columns;
use crate::header::HeaderRow;
use crate::properties::Properties;
use csvw_text::{Copied, both, both_copied, copied_option};
use std::alloc::{AllocError, Global};

impl Properties {
    /// Returns equal properties, which share their templates, texts and datatype, or `AllocError` if memory runs out.
    pub fn clone(&self, alloc: Global) -> Result<Properties, AllocError>
        ensures { IfOk result (λ p. p ≡ self.now) }
    {
        let links = both_copied(alloc, &self.about_url, &self.property_url);
        let values = both_copied(alloc, &self.value_url, &self.datatype);
        let texts = both_copied(alloc, &self.default, &self.lang);
        let parts = both_copied(alloc, &self.null, &self.separator);
        let (urls, texts) = both(both(links, values), both(texts, parts))?;
        let ((about_url, property_url), (value_url, datatype)) = urls;
        let ((default, lang), (null, separator)) = texts;
        Ok(Properties {
            about_url,
            property_url,
            value_url,
            datatype,
            default,
            lang,
            null,
            ordered: self.ordered,
            required: self.required,
            separator,
        })
    }
}

impl Column {
    /// Returns an equal column, or `AllocError` if memory runs out.
    pub fn clone(&self, alloc: Global) -> Result<Column, AllocError>
        ensures { IfOk result (λ c. c ≡ self.now) }
    {
        let names = both_copied(alloc, &self.name, &self.titles);
        let iris = both_copied(alloc, &self.predicate, &self.literal_datatype);
        let (names, (iris, properties)) = both(names, both(iris, self.properties.clone(alloc)))?;
        let (name, titles) = names;
        let (predicate, literal_datatype) = iris;
        Ok(Column {
            name,
            is_named: self.is_named,
            titles,
            number: self.number,
            source_number: self.source_number,
            is_virtual: self.is_virtual,
            suppressed: self.suppressed,
            is_row_title: self.is_row_title,
            predicate,
            literal_datatype,
            properties,
        })
    }
}

impl Copied for Column {
    fn copied(&self, alloc: Global) -> Result<Column, AllocError> {
        self.clone(alloc)
    }
}

impl Columns {
    /// Returns equal columns, or `AllocError` if memory runs out.
    pub fn clone(&self, alloc: Global) -> Result<Columns, AllocError>
        ensures { IfOk result (λ c. c ≡ self.now) }
    {
        let id = copied_option(alloc, &self.id);
        let urls = both(self.url.clone(alloc), id);
        let (columns, (url, id)) = both(self.columns.clone(alloc), urls)?;
        Ok(Columns {
            columns,
            url,
            id,
            suppressed: self.suppressed,
        })
    }
}

impl HeaderRow {
    /// Returns an equal header row, or `AllocError` if memory runs out.
    pub fn clone(&self, alloc: Global) -> Result<HeaderRow, AllocError>
        ensures { IfOk result (λ r. r ≡ self.now) }
    {
        Ok(HeaderRow {
            source: self.source,
            cells: self.cells.clone(alloc)?,
        })
    }
}
