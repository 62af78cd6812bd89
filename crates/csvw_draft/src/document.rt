//! The document of a draft.

use crate::column::Column;
use crate::form::{Comments, Form};
use crate::keys::{ForeignKey, Named, foreign_keys, key_name, name_at};
use crate::kind::Kind;
use csvw_datatype_core::{ClockFormat, DateFormat, MomentFormat, StampFormat};
use serde::Serialize;
use serde_json::to_string_pretty;
use std::alloc::{AllocError, Global};

/// The context of each document.
const CONTEXT: &str = "http://www.w3.org/ns/csvw";

/// The members of a context beside its URL.
#[derive(Drop, Serialize)]
struct BaseMember<'a> {
    #[serde(rename = "@base")]
    base: &'a str,
}

/// The context.
#[derive(Drop, Serialize)]
#[serde(untagged)]
enum Context<'a> {
    Plain(&'static str),
    Based(&'static str, BaseMember<'a>),
}

/// A dialect: what isn't as in the default one.
#[derive(Drop, Serialize)]
#[serde(rename_all = "camelCase")]
struct DialectPart {
    #[serde(skip_serializing_if = "Option::is_none")]
    delimiter: Option<char>,
    #[serde(skip_serializing_if = "Option::is_none")]
    quote_char: Option<char>,
    #[serde(skip_serializing_if = "Option::is_none")]
    comment_prefix: Option<Option<char>>,
    #[serde(skip_serializing_if = "Option::is_none")]
    header: Option<bool>,
    #[serde(skip_serializing_if = "Option::is_none")]
    skip_rows: Option<u8>,
    #[serde(skip_serializing_if = "Option::is_none")]
    skip_blank_rows: Option<bool>,
}

/// How numbers are written.
#[derive(Drop, Serialize)]
#[serde(rename_all = "camelCase")]
struct NumberFormatPart {
    #[serde(skip_serializing_if = "Option::is_none")]
    decimal_char: Option<char>,
    #[serde(skip_serializing_if = "Option::is_none")]
    group_char: Option<char>,
}

/// A datatype.
#[derive(Drop, Serialize)]
#[serde(untagged)]
enum DatatypePart {
    Name(&'static str),
    WithFormat {
        base: &'static str,
        format: &'static str,
    },
    WithPattern {
        base: &'static str,
        format: String,
    },
    WithNumberFormat {
        base: &'static str,
        format: NumberFormatPart,
    },
}

/// A column.
#[derive(Drop, Serialize)]
struct ColumnPart<'a> {
    #[serde(skip_serializing_if = "Option::is_none")]
    name: Option<&'a str>,
    #[serde(skip_serializing_if = "Option::is_none")]
    titles: Option<&'a str>,
    #[serde(skip_serializing_if = "Option::is_none")]
    datatype: Option<DatatypePart>,
    #[serde(skip_serializing_if = "Option::is_none")]
    null: Option<Vec<&'a str>>,
    #[serde(skip_serializing_if = "Option::is_none")]
    required: Option<bool>,
}

/// What a foreign key refers to.
#[derive(Drop, Serialize)]
#[serde(rename_all = "camelCase")]
struct ReferencePart<'a> {
    resource: &'a str,
    column_reference: &'a str,
}

/// A foreign key.
#[derive(Drop, Serialize)]
#[serde(rename_all = "camelCase")]
struct ForeignKeyPart<'a> {
    column_reference: &'a str,
    reference: ReferencePart<'a>,
}

/// A schema.
#[derive(Drop, Serialize)]
#[serde(rename_all = "camelCase")]
struct SchemaPart<'a> {
    columns: Vec<ColumnPart<'a>>,
    #[serde(skip_serializing_if = "Option::is_none")]
    primary_key: Option<&'a str>,
    #[serde(skip_serializing_if = "Option::is_none")]
    foreign_keys: Option<Vec<ForeignKeyPart<'a>>>,
}

/// A table of a group.
#[derive(Drop, Serialize)]
#[serde(rename_all = "camelCase")]
struct TablePart<'a> {
    url: &'a str,
    #[serde(skip_serializing_if = "Option::is_none")]
    dialect: Option<DialectPart>,
    table_schema: SchemaPart<'a>,
}

/// A document of one table.
#[derive(Drop, Serialize)]
#[serde(rename_all = "camelCase")]
struct OneTable<'a> {
    #[serde(rename = "@context")]
    context: Context<'a>,
    url: &'a str,
    #[serde(skip_serializing_if = "Option::is_none")]
    dialect: Option<DialectPart>,
    table_schema: SchemaPart<'a>,
}

/// A document of several tables.
#[derive(Drop, Serialize)]
struct Group<'a> {
    #[serde(rename = "@context")]
    context: Context<'a>,
    tables: Vec<TablePart<'a>>,
}

/// Returns the context with a base, if there is one.
fn context_of(base: Option<&str>) -> Context<'_> {
    match base {
        Some(base) => Context::Based(CONTEXT, BaseMember { base }),
        None => Context::Plain(CONTEXT),
    }
}

/// Returns what of a table's dialect isn't as in the default one. A table without a header has no row.
fn dialect_part(named: &Named) -> Option<DialectPart> {
    let form = named.table.form;
    let part = DialectPart {
        delimiter: (form.delimiter != ',').then_some(form.delimiter),
        quote_char: (form.quote != '"').then_some(form.quote),
        comment_prefix: (form.comments == Comments::Read).then_some(None),
        header: (!named.table.has_header).then_some(false),
        skip_rows: (form.skip_rows > 0).then_some(form.skip_rows),
        skip_blank_rows: named.table.skips_blank_rows().then_some(true),
    };
    if has_member(&part) { Some(part) } else { None }
}

/// Returns whether a dialect has a member.
fn has_member(part: &DialectPart) -> bool {
    part.delimiter.is_some()
        || part.quote_char.is_some()
        || part.comment_prefix.is_some()
        || part.header.is_some()
        || part.skip_rows.is_some()
        || part.skip_blank_rows.is_some()
}

/// Returns the datatype of moments in a format. Returns `AllocError` if memory runs out.
fn moment_part(alloc: Global, format: MomentFormat) -> Result<DatatypePart, AllocError> {
    let mut pattern = String::new(alloc);
    format.push_pattern(&mut pattern)?;
    Ok(DatatypePart::WithPattern {
        base: "dateTime",
        format: pattern,
    })
}

/// Returns the datatype of moments in a format that may have a zone. Returns `AllocError` if memory runs out.
fn stamp_part(alloc: Global, format: StampFormat) -> Result<DatatypePart, AllocError> {
    let mut pattern = String::new(alloc);
    format.push_pattern(&mut pattern)?;
    Ok(DatatypePart::WithPattern {
        base: "dateTime",
        format: pattern,
    })
}

/// Returns the datatype of times of day in a format. Returns `AllocError` if memory runs out.
fn time_part(alloc: Global, format: ClockFormat) -> Result<DatatypePart, AllocError> {
    let mut pattern = String::new(alloc);
    format.push_pattern(&mut pattern)?;
    Ok(DatatypePart::WithPattern {
        base: "time",
        format: pattern,
    })
}

/// Returns a datatype, or `None` for `string`, which is the default. Returns `AllocError` if memory runs out.
fn datatype_part(alloc: Global, kind: Kind) -> Result<Option<DatatypePart>, AllocError> {
    let base = kind.name();
    Ok(Some(match kind {
        Kind::Text => return Ok(None),
        Kind::DecimalComma => DatatypePart::WithNumberFormat {
            base,
            format: NumberFormatPart {
                decimal_char: Some(','),
                group_char: None,
            },
        },
        Kind::Grouped(grouping) => DatatypePart::WithNumberFormat {
            base,
            format: NumberFormatPart {
                decimal_char: grouping.fraction.decimal_char().filter(|c| *c != '.'),
                group_char: Some(grouping.group_char.char()),
            },
        },
        Kind::Day(DateFormat::YearFirst)
        | Kind::Moment(MomentFormat::Seconds)
        | Kind::Time(ClockFormat::Any) => DatatypePart::Name(base),
        Kind::Day(format) => DatatypePart::WithFormat {
            base,
            format: format.pattern(),
        },
        Kind::Moment(format) => moment_part(alloc, format)?,
        Kind::Stamp(format) => stamp_part(alloc, format)?,
        Kind::Time(format) => time_part(alloc, format)?,
        Kind::Truth
        | Kind::Whole
        | Kind::Decimal
        | Kind::Double
        | Kind::DayWithZone
        | Kind::MomentWithZone => DatatypePart::Name(base),
    }))
}

/// Returns the texts of cells that are null, or `None` if only empty cells are, which is the default.
fn null_part<'a>(alloc: Global, column: &'a Column) -> Result<Option<Vec<&'a str>>, AllocError> {
    if column.markers().is_empty() {
        return Ok(None);
    }
    let mut texts = Vec::new(alloc);
    texts.push("")?;
    for marker in column.markers() {
        texts.push(*marker)?;
    }
    Ok(Some(texts))
}

/// Returns the columns of a table.
fn column_parts<'a>(alloc: Global, named: &'a Named) -> Result<Vec<ColumnPart<'a>>, AllocError> {
    let mut parts = Vec::new(alloc);
    for (i, column) in named.table.columns.iter().enumerate() {
        let name = name_at(named.names.as_slice(), i);
        parts.push(ColumnPart {
            name,
            titles: name.map(|_| column.title.as_str()),
            datatype: datatype_part(alloc, column.kind())?,
            null: null_part(alloc, column)?,
            required: (named.table.has_row && column.is_full()).then_some(true),
        })?;
    }
    Ok(parts)
}

/// Returns a foreign key, or `None` if there is no URL for the table that it refers to.
fn key_part<'a>(urls: &'a [String], key: ForeignKey<'a>) -> Option<ForeignKeyPart<'a>> {
    Some(ForeignKeyPart {
        column_reference: key.column,
        reference: ReferencePart {
            resource: urls.get(key.table)?.as_str(),
            column_reference: key.key,
        },
    })
}

/// Returns the foreign keys of the table at a place, or `None` if it has none.
fn key_parts<'a>(
    alloc: Global,
    tables: &'a [Named],
    place: usize,
    urls: &'a [String],
) -> Result<Option<Vec<ForeignKeyPart<'a>>>, AllocError> {
    let mut parts = Vec::new(alloc);
    for key in foreign_keys(alloc, tables, place)? {
        if let Some(part) = key_part(urls, key) {
            parts.push(part)?;
        }
    }
    Ok(if parts.is_empty() { None } else { Some(parts) })
}

/// Returns each table.
fn table_parts<'a>(
    alloc: Global,
    tables: &'a [Named],
    urls: &'a [String],
) -> Result<Vec<TablePart<'a>>, AllocError> {
    let mut parts = Vec::new(alloc);
    for (i, (named, url)) in tables.iter().zip(urls).enumerate() {
        parts.push(TablePart {
            url: url.as_str(),
            dialect: dialect_part(named),
            table_schema: SchemaPart {
                columns: column_parts(alloc, named)?,
                primary_key: key_name(named),
                foreign_keys: key_parts(alloc, tables, i, urls)?,
            },
        })?;
    }
    Ok(parts)
}

/// Returns the text of the document of some tables, each with its URL. It ends with a line feed. Returns `AllocError` if memory
/// runs out.
pub(crate) fn document<'a>(
    alloc: Global,
    base: Option<&'a str>,
    tables: &'a [Named],
    urls: &'a [String],
) -> Result<String, AllocError> {
    let mut parts = table_parts(alloc, tables, urls)?;
    let context = context_of(base);
    let one = if parts.len() == 1 { parts.pop() } else { None };
    let text = match one {
        Some(
            TablePart {
                url,
                dialect,
                table_schema,
            },
        ) => to_string_pretty(
            alloc,
            &OneTable {
                context,
                url,
                dialect,
                table_schema,
            },
        ),
        None => to_string_pretty(
            alloc,
            &Group {
                context,
                tables: parts,
            },
        ),
    };
    let Ok(mut text) = text else {
        return Err(AllocError);
    };
    text.push('\n')?;
    Ok(text)
}
