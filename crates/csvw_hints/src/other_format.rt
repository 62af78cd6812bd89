//! The format in which a text is a value, if it is none of its datatype as the document says.

use crate::other_date::{push_moment, push_zoned};
use crate::other_day::{push_date, push_zoned_date};
use crate::other_number::{push_decimal, push_double, push_integer};
use crate::other_time::push_time;
use crate::tables::{TableAt, declared};
use csvw_datatype::{Simple, TextType, Zone};
use csvw_text::{Code, Fault, collapse};
use std::alloc::AllocError;

/// The texts of true and of false, as a format has them.
const TRUTHS: [&str; 11] = [
    "Y|N",
    "y|n",
    "yes|no",
    "Yes|No",
    "YES|NO",
    "T|F",
    "t|f",
    "True|False",
    "TRUE|FALSE",
    "ja|nein",
    "oui|non",
];

/// Adds the format by which a text is a boolean, if it is one of those that people write.
fn push_truth(below: &mut String, text: &str) -> Result<(), AllocError> {
    for format in &TRUTHS {
        if format.split('|').any(|part| part == text) {
            return write!(
                below,
                "    the text is a boolean with `\"format\": \"{format}\"`\n"
            );
        }
    }
    Ok(())
}

/// Returns whether a code says that a text is no value of its datatype.
fn is_of_text(code: Code) -> bool {
    matches!(
        code,
        Code::BadBoolean
            | Code::BadInteger
            | Code::BadDecimal
            | Code::BadDouble
            | Code::BadDate
            | Code::BadDateTime
            | Code::BadTime
    )
}

/// Adds the format in which the text of a cell is a value, if it is none of its column's datatype: a line of text. Returns
/// `AllocError` if memory runs out.
pub fn push_other_format(
    below: &mut String,
    table: &TableAt<'_>,
    fault: &Fault,
    cell: &str,
) -> Result<(), AllocError> {
    let Some(column) = declared(table.plan, fault.place.column) else {
        return Ok(());
    };
    if !is_of_text(fault.code) {
        return Ok(());
    }
    let alloc = *below.allocator();
    let text = collapse(alloc, cell)?;
    let text = text.as_str();
    let simple = column.properties.datatype.get().simple;
    match simple {
        Simple::Truth => push_truth(below, text),
        Simple::Whole | Simple::Derived(_) => push_integer(below, alloc, text),
        Simple::Decimal => push_decimal(below, alloc, text),
        Simple::Floating(_) => push_double(below, alloc, text),
        Simple::Day => push_date(below, alloc, text),
        Simple::Other(TextType::Date) => push_zoned_date(below, alloc, text),
        Simple::Moment | Simple::Other(TextType::DateTime(Zone::Optional)) => {
            push_moment(below, alloc, text)
        }
        Simple::Other(TextType::DateTime(Zone::Required)) => push_zoned(below, alloc, text),
        Simple::Other(TextType::Time) => push_time(below, alloc, text),
        Simple::Text | Simple::Uri | Simple::Other(_) => Ok(()),
    }
}
