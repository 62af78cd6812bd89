//! Copies of descriptions.
ghost use Rattle.std.specs.Prelude.{◌≡◌, IfOk};

use crate::column::ColumnDescription;
use crate::description::Description;
use crate::foreign_key::ForeignKey;
use crate::inherited::Inherited;
use crate::note::{Note, NoteLiteral, NoteObject, NoteValue};
use crate::schema::Schema;
use crate::table::TableDescription;
use csvw_text::{Copied, Seq, both, both_copied, copied_items, copied_option};
use std::alloc::{AllocError, Global};

impl Inherited {
    /// Returns equal properties, which share their templates, texts and datatype, or `AllocError` if memory runs out.
    pub fn clone(&self, alloc: Global) -> Result<Inherited, AllocError>
        ensures { IfOk result (λ i. i ≡ self.now) }
    {
        let links = both_copied(alloc, &self.about_url, &self.property_url);
        let values = both_copied(alloc, &self.value_url, &self.datatype);
        let texts = both_copied(alloc, &self.default, &self.lang);
        let parts = both_copied(alloc, &self.null, &self.separator);
        let (urls, texts) = both(both(links, values), both(texts, parts))?;
        let ((about_url, property_url), (value_url, datatype)) = urls;
        let ((default, lang), (null, separator)) = texts;
        Ok(Inherited {
            about_url,
            property_url,
            value_url,
            datatype,
            default,
            lang,
            null,
            ordered: self.ordered,
            required: self.required,
            separator,
        })
    }
}

impl ColumnDescription {
    /// Returns an equal column, or `AllocError` if memory runs out.
    pub fn clone(&self, alloc: Global) -> Result<ColumnDescription, AllocError>
        ensures { IfOk result (λ c. c ≡ self.now) }
    {
        let names = both_copied(alloc, &self.name, &self.titles);
        let warnings = copied_items(alloc, &self.warnings);
        let rest = both(self.inherited.clone(alloc), warnings);
        let ((name, titles), (inherited, warnings)) = both(names, rest)?;
        Ok(ColumnDescription {
            name,
            titles,
            is_virtual: self.is_virtual,
            suppressed: self.suppressed,
            is_row_title: self.is_row_title,
            inherited,
            warnings,
        })
    }
}

impl Copied for ColumnDescription {
    fn copied(&self, alloc: Global) -> Result<ColumnDescription, AllocError> {
        self.clone(alloc)
    }
}

impl ForeignKey {
    /// Returns an equal key, or `AllocError` if memory runs out.
    pub fn clone(&self, alloc: Global) -> Result<ForeignKey, AllocError>
        ensures { IfOk result (λ k. k ≡ self.now) }
    {
        let names = both_copied(alloc, &self.columns, &self.referenced);
        let (resource, (columns, referenced)) = both(self.resource.clone(alloc), names)?;
        Ok(ForeignKey {
            columns,
            resource,
            referenced,
        })
    }
}

impl Copied for ForeignKey {
    fn copied(&self, alloc: Global) -> Result<ForeignKey, AllocError> {
        self.clone(alloc)
    }
}

impl NoteLiteral {
    /// Returns an equal literal, or `AllocError` if memory runs out.
    pub fn clone(&self, alloc: Global) -> Result<NoteLiteral, AllocError>
        ensures { IfOk result (λ l. l ≡ self.now) }
    {
        let language = copied_option(alloc, &self.language);
        let kind = both(self.datatype.clone(alloc), language);
        let (text, (datatype, language)) = both(self.text.clone(alloc), kind)?;
        Ok(NoteLiteral {
            text,
            datatype,
            language,
        })
    }
}

impl NoteValue {
    /// Returns an equal value, or `AllocError` if memory runs out.
    #[cycle(copies)]
    pub fn clone(&self, alloc: Global) -> Result<NoteValue, AllocError>
        ensures { IfOk result (λ v. v ≡ self.now) }
    {
        match self {
            NoteValue::Literal(literal) => Ok(NoteValue::Literal(literal.clone(alloc)?)),
            NoteValue::Object(object) => Ok(NoteValue::Object(object.clone(alloc)?)),
        }
    }
}

impl Note {
    /// Returns an equal annotation, or `AllocError` if memory runs out.
    #[cycle(copies)]
    pub fn clone(&self, alloc: Global) -> Result<Note, AllocError>
        ensures { IfOk result (λ n. n ≡ self.now) }
    {
        let (key, value) = both(self.key.clone(alloc), self.value.clone(alloc))?;
        Ok(Note { key, value })
    }
}

impl NoteObject {
    /// Returns an equal object, or `AllocError` if memory runs out.
    #[cycle(copies)]
    pub fn clone(&self, alloc: Global) -> Result<NoteObject, AllocError>
        ensures { IfOk result (λ o. o ≡ self.now) }
    {
        let names = both_copied(alloc, &self.id, &self.types);
        let ((id, types), notes) = both(names, copies(alloc, self.notes.as_slice()))?;
        Ok(NoteObject { id, types, notes })
    }
}

#[cycle(copies)]
fn copies(alloc: Global, notes: &[Note]) -> Result<Seq<Note>, AllocError>
    ensures { IfOk result (λ s. s ≡ notes.now) }
{
    let mut copies = Vec::new(alloc);
    for note in notes {
        copies.push(note.clone(alloc)?)?;
    }
    Ok(Seq::of(copies))
}

impl Copied for Note {
    fn copied(&self, alloc: Global) -> Result<Note, AllocError> {
        self.clone(alloc)
    }
}

impl Schema {
    /// Returns an equal schema, or `AllocError` if memory runs out.
    pub fn clone(&self, alloc: Global) -> Result<Schema, AllocError>
        ensures { IfOk result (λ s. s ≡ self.now) }
    {
        let columns = both(self.columns.clone(alloc), self.inherited.clone(alloc));
        let keys = both_copied(alloc, &self.primary_key, &self.foreign_keys);
        let warnings = copied_items(alloc, &self.warnings);
        let (columns, (keys, warnings)) = both(columns, both(keys, warnings))?;
        let (columns, inherited) = columns;
        let (primary_key, foreign_keys) = keys;
        Ok(Schema {
            columns,
            primary_key,
            foreign_keys,
            inherited,
            warnings,
        })
    }
}

impl Copied for Schema {
    fn copied(&self, alloc: Global) -> Result<Schema, AllocError> {
        self.clone(alloc)
    }
}

impl TableDescription {
    /// Returns an equal table, or `AllocError` if memory runs out.
    pub fn clone(&self, alloc: Global) -> Result<TableDescription, AllocError>
        ensures { IfOk result (λ t. t ≡ self.now) }
    {
        let names = both(self.url.clone(alloc), copied_option(alloc, &self.id));
        let rules = both_copied(alloc, &self.dialect, &self.schema);
        let inherited = both(self.inherited.clone(alloc), self.notes.clone(alloc));
        let rest = both(inherited, copied_items(alloc, &self.warnings));
        let (names, (rules, rest)) = both(names, both(rules, rest))?;
        let (url, id) = names;
        let (dialect, schema) = rules;
        let ((inherited, notes), warnings) = rest;
        Ok(TableDescription {
            url,
            id,
            dialect,
            schema,
            suppressed: self.suppressed,
            inherited,
            notes,
            warnings,
        })
    }
}

impl Copied for TableDescription {
    fn copied(&self, alloc: Global) -> Result<TableDescription, AllocError> {
        self.clone(alloc)
    }
}

impl Description {
    /// Returns an equal description, or `AllocError` if memory runs out.
    pub fn clone(&self, alloc: Global) -> Result<Description, AllocError>
        ensures { IfOk result (λ d. d ≡ self.now) }
    {
        let tables = both_copied(alloc, &self.id, &self.tables);
        let rules = both_copied(alloc, &self.dialect, &self.schema);
        let inherited = both(self.inherited.clone(alloc), self.notes.clone(alloc));
        let rest = both(inherited, copied_items(alloc, &self.warnings));
        let (tables, (rules, rest)) = both(tables, both(rules, rest))?;
        let (id, tables) = tables;
        let (dialect, schema) = rules;
        let ((inherited, notes), warnings) = rest;
        Ok(Description {
            id,
            tables,
            dialect,
            schema,
            inherited,
            notes,
            warnings,
        })
    }
}
