//! What the values of the properties of each object may be (Metadata Vocabulary for Tabular Data, sections 5.3 to 5.11).
ghost use Rattle.std.specs.Prelude.{◌≡◌};
ghost use Rattle.csvw_defaults.specs.Properties.{column_property, datatype_property, dialect_property, format_property, group_property};
ghost use Rattle.csvw_defaults.specs.Properties.{inherited_property, schema_property, table_property};

use crate::permitted::Permitted;

fn inherited_property(name: &str) -> Permitted
    ensures { result ≡ inherited_property name.now }
{
    match name {
        "aboutUrl" | "propertyUrl" | "valueUrl" | "default" => Permitted::Text,
        "ordered" | "required" => Permitted::Truth,
        "lang" => Permitted::Language,
        "null" => Permitted::Texts,
        "separator" => Permitted::TextOrNull,
        "textDirection" => Permitted::TextDirection,
        _ => Permitted::Anything,
    }
}

/// Of a group.
pub(crate) fn group_property(name: &str) -> Permitted
    ensures { result ≡ group_property name.now }
{
    match name {
        "notes" | "transformations" => Permitted::Array,
        "tableDirection" => Permitted::Direction,
        _ => inherited_property(name),
    }
}

/// Of a table.
pub(crate) fn table_property(name: &str) -> Permitted
    ensures { result ≡ table_property name.now }
{
    match name {
        "suppressOutput" => Permitted::Truth,
        _ => group_property(name),
    }
}

/// Of a schema.
pub(crate) fn schema_property(name: &str) -> Permitted
    ensures { result ≡ schema_property name.now }
{
    match name {
        "primaryKey" | "rowTitles" => Permitted::SomeTexts,
        _ => inherited_property(name),
    }
}

/// Of a column.
pub(crate) fn column_property(name: &str) -> Permitted
    ensures { result ≡ column_property name.now }
{
    match name {
        "name" => Permitted::Text,
        "suppressOutput" | "virtual" => Permitted::Truth,
        _ => inherited_property(name),
    }
}

/// Of a dialect.
pub(crate) fn dialect_property(name: &str) -> Permitted
    ensures { result ≡ dialect_property name.now }
{
    match name {
        "doubleQuote" | "header" | "skipBlankRows" | "skipInitialSpace" => Permitted::Truth,
        "delimiter" | "encoding" => Permitted::Text,
        "commentPrefix" | "quoteChar" => Permitted::TextOrNull,
        "headerRowCount" | "skipColumns" | "skipRows" => Permitted::NotNegative,
        "lineTerminators" => Permitted::Texts,
        "trim" => Permitted::Trimming,
        _ => Permitted::Anything,
    }
}

/// Of a datatype.
pub(crate) fn datatype_property(name: &str) -> Permitted
    ensures { result ≡ datatype_property name.now }
{
    match name {
        "base" => Permitted::Text,
        "length" | "minLength" | "maxLength" => Permitted::NotNegative,
        "minimum" | "maximum" | "minInclusive" | "maxInclusive" | "minExclusive" | "maxExclusive" =>
            Permitted::Bound,
        _ => Permitted::Anything,
    }
}

/// Of the format of a number.
pub(crate) fn format_property(name: &str) -> Permitted
    ensures { result ≡ format_property name.now }
{
    match name {
        "decimalChar" | "groupChar" | "pattern" => Permitted::Text,
        _ => Permitted::Anything,
    }
}
