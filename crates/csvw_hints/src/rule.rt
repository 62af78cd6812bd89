//! The rule that a fault breaks, with its values.

use crate::bound::{push_bounds, range_of};
use crate::key_rule::{push_foreign_keys, push_primary_key};
use crate::tables::{TableAt, declared, field_of};
use csvw_columns::TablePlan;
use csvw_columns_core::Column;
use csvw_datatype::{
    Datatype, DurationKind, Format, NumberFormat, RegularExpression, Simple, TextType, Zone,
};
use csvw_page::{push_quoted, push_text};
use csvw_text::{Code, Fault};
use std::alloc::AllocError;

/// Adds the pattern and the characters of numbers.
fn push_number_format(text: &mut String, format: &NumberFormat) -> Result<(), AllocError> {
    if format.pattern.is_some() {
        text.push_str(", pattern `")?;
        format.push_pattern(text)?;
        text.push('`')?;
    }
    let decimal = format.decimal_char;
    write!(text, ", decimal character `{decimal}`")?;
    match format.group_char {
        Some(group) => write!(text, ", group character `{group}`"),
        None => Ok(()),
    }
}

/// Adds a regular expression.
fn push_expression(text: &mut String, expression: &RegularExpression) -> Result<(), AllocError> {
    text.push_str("regular expression `")?;
    push_text(text, expression.as_str())?;
    text.push('`')
}

/// Adds the format of a datatype.
fn push_format(text: &mut String, format: &Format) -> Result<(), AllocError> {
    match format {
        Format::Truth(truth) => {
            text.push_str(", format ")?;
            push_text(text, truth.if_true.as_str())?;
            text.push('|')?;
            push_text(text, truth.if_false.as_str())
        }
        Format::Number(number) => push_number_format(text, number),
        Format::Day(format) => {
            text.push_str(", format ")?;
            text.push_str(format.pattern())
        }
        Format::Moment(format) => {
            text.push_str(", format ")?;
            format.push_pattern(text)
        }
        Format::Time(format) => {
            text.push_str(", format ")?;
            format.push_pattern(text)
        }
        Format::ZonedDay(format) => {
            text.push_str(", format ")?;
            format.push_pattern(text)
        }
        Format::Stamp(format) => {
            text.push_str(", format ")?;
            format.push_pattern(text)
        }
        Format::Expression(expression) => {
            text.push_str(", ")?;
            push_expression(text, expression)
        }
    }
}

/// Adds how a type of moments that may have zones is written without a format.
fn push_zone(text: &mut String, zone: Zone) -> Result<(), AllocError> {
    let zone = match zone {
        Zone::Optional => ": with or without a zone",
        Zone::Required => ": with a zone",
    };
    text.push_str(zone)?;
    text.push_str(", as in 2020-01-31T08:30:00Z")
}

/// Adds how a type of durations is written.
fn push_duration(text: &mut String, kind: DurationKind) -> Result<(), AllocError> {
    text.push_str(match kind {
        DurationKind::Any => ", as in P1Y2M3DT4H5M6S",
        DurationKind::YearMonth => ", as in P1Y2M",
        DurationKind::DayTime => ", as in P3DT4H5M6S",
    })
}

/// Adds the name and the format of a datatype.
fn push_datatype(text: &mut String, datatype: &Datatype) -> Result<(), AllocError> {
    text.push_str("    datatype ")?;
    text.push_str(datatype.simple.name())?;
    if let Some(format) = &datatype.format {
        push_format(text, format)?;
    }
    match datatype.simple {
        Simple::Other(TextType::DateTime(zone)) if datatype.format.is_none() => {
            push_zone(text, zone)?
        }
        Simple::Other(TextType::Duration(kind)) => push_duration(text, kind)?,
        _ => {}
    }
    text.push('\n')
}

/// Returns whether each text is a value of a type that has no format.
fn takes_all_texts(simple: Simple) -> bool {
    match simple {
        Simple::Text | Simple::Uri => true,
        Simple::Other(
            TextType::Any
            | TextType::Normalized
            | TextType::Token
            | TextType::Xml
            | TextType::Html
            | TextType::Json,
        ) => true,
        _ => false,
    }
}

/// Adds the rule that a text of a datatype breaks: its regular expression, or that and its type.
fn push_text_rule(text: &mut String, datatype: &Datatype) -> Result<(), AllocError> {
    match &datatype.format {
        Some(Format::Expression(expression)) if takes_all_texts(datatype.simple) => {
            text.push_str("    the text doesn't match the ")?;
            push_expression(text, expression)?;
            text.push('\n')
        }
        _ => push_datatype(text, datatype),
    }
}

/// Adds the name of a datatype and the range of its numbers.
fn push_range(text: &mut String, datatype: &Datatype) -> Result<(), AllocError> {
    text.push_str("    datatype ")?;
    text.push_str(datatype.simple.name())?;
    if let Simple::Derived(width) = datatype.simple {
        text.push_str(", ")?;
        text.push_str(range_of(width))?;
    }
    text.push('\n')
}

/// Adds the lengths that a text may have.
fn push_lengths(text: &mut String, datatype: &Datatype) -> Result<(), AllocError> {
    let facets = &datatype.facets;
    text.push_str("   ")?;
    push_length(text, "length", facets.length)?;
    push_length(text, "minLength", facets.min_length)?;
    push_length(text, "maxLength", facets.max_length)?;
    if let Simple::Other(TextType::Binary(_)) = datatype.simple {
        text.push_str(" octets")?;
    }
    text.push('\n')
}

/// Adds the name of a facet and its length, if it has one.
fn push_length(text: &mut String, name: &str, length: Option<u64>) -> Result<(), AllocError> {
    match length {
        Some(length) => write!(text, " {name} {length}"),
        None => Ok(()),
    }
}

/// Adds the titles of a column.
fn push_titles(text: &mut String, column: &Column) -> Result<(), AllocError> {
    text.push_str("    the column may be titled")?;
    for title in column.titles.as_slice() {
        text.push(' ')?;
        push_quoted(text, title.as_str())?;
    }
    if column.titles.is_empty() {
        text.push(' ')?;
        push_quoted(text, column.name.as_str())?;
    }
    text.push('\n')
}

/// Adds the texts that are null in a column, if they aren't the empty text alone.
fn push_nulls(text: &mut String, column: &Column) -> Result<(), AllocError> {
    let nulls = column.properties.null.get().texts();
    if nulls.len() == 1 && nulls.iter().all(|null| null.is_empty()) {
        return Ok(());
    }
    text.push_str("    null")?;
    for null in nulls {
        text.push(' ')?;
        push_quoted(text, null.as_str())?;
    }
    text.push('\n')
}

/// Adds the rule that a fault in a declared column breaks.
fn push_column_rule(text: &mut String, column: &Column, code: Code) -> Result<(), AllocError> {
    let datatype = column.properties.datatype.get();
    match code {
        Code::BadBoolean
        | Code::BadInteger
        | Code::BadDecimal
        | Code::BadDate
        | Code::BadDateTime
        | Code::BadDouble
        | Code::BadTime => push_datatype(text, datatype),
        Code::BadText | Code::BadDuration => push_text_rule(text, datatype),
        Code::OutOfRange => push_range(text, datatype),
        Code::BelowMinimum | Code::AboveMaximum => push_bounds(text, datatype),
        Code::WrongLength | Code::TooShort | Code::TooLong => push_lengths(text, datatype),
        Code::HeaderMismatch => push_titles(text, column),
        Code::Required => push_nulls(text, column),
        _ => Ok(()),
    }
}

/// Adds which column of the file is the column of a table, if the dialect skips columns.
fn push_file_column(text: &mut String, plan: &TablePlan, column: u32) -> Result<(), AllocError> {
    let skipped = plan.dialect.skip_columns;
    if skipped == 0 {
        return Ok(());
    }
    match field_of(plan, column) {
        Some(field) => {
            let number = field.saturating_add(1);
            write!(
                text,
                "    column {number} of the file, since skipColumns is {skipped}\n"
            )
        }
        None => Ok(()),
    }
}

/// Adds the rule that a fault of a table breaks, with its values, if it has some: lines of text. The column of the file
/// comes first, if columns are skipped. Returns `AllocError` if memory runs out.
pub fn push_rule(text: &mut String, table: &TableAt<'_>, fault: &Fault) -> Result<(), AllocError> {
    push_file_column(text, table.plan, fault.place.column)?;
    match fault.code {
        Code::DuplicateKey => push_primary_key(text, table.plan),
        Code::NoReferencedRow | Code::ManyReferencedRows => {
            push_foreign_keys(text, table, fault.place.column)
        }
        code => match declared(table.plan, fault.place.column) {
            Some(column) => push_column_rule(text, column, code),
            None => Ok(()),
        },
    }
}
