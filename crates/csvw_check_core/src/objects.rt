//! The objects of a metadata document, and the properties that each may have (Metadata Vocabulary for Tabular Data,
//! section 5).

use csvw_meta::column::COLUMN;
use csvw_meta::group::GROUP;
use csvw_meta::schema::SCHEMA;
use csvw_meta::table::{SOLE_TABLE, TABLE};
use csvw_meta_datatype::form::DATATYPE;
use csvw_meta_datatype::number::FORMAT;
use csvw_meta_inherited::inherited_names::INHERITED;
use csvw_meta_keys::foreign_key::FOREIGN_KEY;
use csvw_meta_keys::reference::REFERENCE;

/// The properties of a dialect.
const DIALECT: [&str; 15] = [
    "@id",
    "@type",
    "commentPrefix",
    "delimiter",
    "doubleQuote",
    "encoding",
    "header",
    "headerRowCount",
    "lineTerminators",
    "quoteChar",
    "skipBlankRows",
    "skipColumns",
    "skipInitialSpace",
    "skipRows",
    "trim",
];

/// What an object of a document describes.
#[derive(Clone, Copy, PartialEq, Eq)]
pub(crate) enum Object {
    /// A group of tables.
    Group,
    /// A table of a group.
    Table,
    /// The table that is the document.
    SoleTable,
    /// A schema.
    Schema,
    /// A column.
    Column,
    /// A dialect.
    Dialect,
    /// A datatype.
    Datatype,
    /// The format of a number.
    NumberFormat,
    /// A foreign key.
    ForeignKey,
    /// What a foreign key refers to.
    Reference,
    /// An annotation, or a value of a common property.
    Annotation,
    /// Something else, whose names aren't looked at.
    Other,
}

/// The objects that have lists of properties, but for the table that is the document.
const OBJECTS: [Object; 9] = [
    Object::Group,
    Object::Table,
    Object::Schema,
    Object::Column,
    Object::Dialect,
    Object::Datatype,
    Object::NumberFormat,
    Object::ForeignKey,
    Object::Reference,
];

impl Object {
    /// Returns its name, with an article.
    pub(crate) fn name(self) -> &'static str {
        match self {
            Object::Group => "a table group",
            Object::Table | Object::SoleTable => "a table",
            Object::Schema => "a schema",
            Object::Column => "a column",
            Object::Dialect => "a dialect",
            Object::Datatype => "a datatype",
            Object::NumberFormat => "a number format",
            Object::ForeignKey => "a foreign key",
            Object::Reference => "a reference",
            Object::Annotation => "an annotation",
            Object::Other => "an object",
        }
    }

    /// Returns the properties of its own.
    pub(crate) fn properties(self) -> &'static [&'static str] {
        match self {
            Object::Group => &GROUP,
            Object::Table => &TABLE,
            Object::SoleTable => &SOLE_TABLE,
            Object::Schema => &SCHEMA,
            Object::Column => &COLUMN,
            Object::Dialect => &DIALECT,
            Object::Datatype => &DATATYPE,
            Object::NumberFormat => &FORMAT,
            Object::ForeignKey => &FOREIGN_KEY,
            Object::Reference => &REFERENCE,
            Object::Annotation | Object::Other => &[],
        }
    }

    /// Returns the inherited properties that it may have as well (section 5.7).
    pub(crate) fn inherited(self) -> &'static [&'static str] {
        match self {
            Object::Group | Object::Table | Object::SoleTable | Object::Schema | Object::Column =>
                &INHERITED,
            _ => &[],
        }
    }

    /// Whether it has the property of a name.
    fn has(self, name: &str) -> bool {
        self.properties().contains(&name) || self.inherited().contains(&name)
    }

    /// Whether it ignores the property of a name. Common properties have a colon. In annotations a name with `@` is none
    /// of a property.
    pub(crate) fn ignores(self, name: &str) -> bool {
        match self {
            Object::Other => false,
            Object::Annotation => !name.starts_with('@') && !name.contains(':'),
            _ => !name.contains(':') && !self.has(name),
        }
    }

    /// Returns what the objects describe that are the value of a property.
    pub(crate) fn of_property(self, name: &str) -> Object {
        if name.contains(':') {
            return Object::Annotation;
        }
        match (self, name) {
            (Object::Annotation, _) => Object::Annotation,
            (Object::Group, "tables") => Object::Table,
            (Object::Group | Object::Table | Object::SoleTable, "tableSchema") => Object::Schema,
            (Object::Group | Object::Table | Object::SoleTable, "dialect") => Object::Dialect,
            (Object::Group | Object::Table | Object::SoleTable, "notes") => Object::Annotation,
            (Object::Schema, "columns") => Object::Column,
            (Object::Schema, "foreignKeys") => Object::ForeignKey,
            (Object::ForeignKey, "reference") => Object::Reference,
            (Object::Datatype, "format") => Object::NumberFormat,
            (object, "datatype") if !object.inherited().is_empty() => Object::Datatype,
            _ => Object::Other,
        }
    }
}

/// Returns the first object that has the property of a name, if there is one.
pub(crate) fn object_with(name: &str) -> Option<Object> {
    for object in &OBJECTS {
        if object.has(name) {
            return Some(*object);
        }
    }
    None
}
