//! A dialect.

use crate::property::{Property, default, given, number, text, truth};
use crate::value::Shown;
use csvw_records::{Dialect, LineTerminators, Trim};

/// Returns `quoteChar`. The default is `"`.
fn quote_char(quote: Option<char>) -> Property<'static> {
    let name = "quoteChar";
    match quote {
        Some('"') => default(name, Shown::Character('"')),
        Some(quote) => given(name, Shown::Character(quote)),
        None => given(name, Shown::Null),
    }
}

/// Returns `delimiter`. The default is a comma.
fn delimiter(delimiter: char) -> Property<'static> {
    let name = "delimiter";
    match delimiter {
        ',' => default(name, Shown::Character(',')),
        _ => given(name, Shown::Character(delimiter)),
    }
}

/// Returns `commentPrefix`. The default is `#`.
fn comment_prefix(dialect: &Dialect) -> Property<'_> {
    let name = "commentPrefix";
    match &dialect.comment_prefix {
        Some(prefix) => text(name, prefix.as_str(), "#"),
        None => given(name, Shown::Null),
    }
}

/// Returns `doubleQuote`. The default is true.
fn double_quote(is_doubled: bool) -> Property<'static> {
    let name = "doubleQuote";
    match is_doubled {
        true => default(name, Shown::Truth(true)),
        false => given(name, Shown::Truth(false)),
    }
}

/// Returns `trim`. The default is false.
fn trim(trim: Trim) -> Property<'static> {
    let name = "trim";
    match trim {
        Trim::No => default(name, Shown::Truth(false)),
        Trim::Both => given(name, Shown::Truth(true)),
        Trim::Start => given(name, Shown::Text("start")),
        Trim::End => given(name, Shown::Text("end")),
    }
}

/// Returns `lineTerminators`. The default is both.
fn terminators(terminators: LineTerminators) -> Property<'static> {
    let name = "lineTerminators";
    match (terminators.crlf, terminators.lf) {
        (true, true) => default(name, Shown::Words(&["\r\n", "\n"])),
        (true, false) => given(name, Shown::Words(&["\r\n"])),
        (false, true) => given(name, Shown::Words(&["\n"])),
        (false, false) => given(name, Shown::Words(&[])),
    }
}

/// Returns the properties of a dialect. The defaults are those of `Dialect::new`.
pub(crate) fn dialect_properties(dialect: &Dialect) -> [Property<'_>; 11] {
    [
        comment_prefix(dialect),
        delimiter(dialect.delimiter),
        quote_char(dialect.quote_char),
        double_quote(dialect.double_quote),
        terminators(dialect.line_terminators),
        trim(dialect.trim),
        number("headerRowCount", u64::from(dialect.header_row_count), 1),
        number("skipRows", dialect.skip_rows, 0),
        number("skipColumns", u64::from(dialect.skip_columns), 0),
        truth("skipBlankRows", dialect.skip_blank_rows),
        truth("skipInitialSpace", dialect.skip_initial_space),
    ]
}
