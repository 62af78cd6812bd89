//! A plain reader of a whole text, character by character, by the rules of the dialect alone.

use crate::reading::{write_field, write_stop};
use csvw_rows::{Dialect, RowStop, Trim};
use csvw_text::is_white;
use std::alloc::{AllocError, Global};
use std::fmt::Write;

/// The first characters of a text, and whether bytes that begin another one follow.
#[derive(Drop)]
pub struct Front {
    /// The characters.
    pub chars: Vec<char>,
    /// Whether bytes of another character follow.
    pub is_cut: bool,
}

/// The end of a field.
#[derive(Clone, Copy)]
enum End<'a> {
    /// A delimiter, and the text after it.
    Delimiter(&'a [char]),
    /// A terminator, and the text after it.
    Terminator(&'a [char]),
    /// The end of the text. The value says whether it is within quotes.
    Text(bool),
    /// A rule is broken.
    Stop(RowStop),
}

/// What a text begins with.
#[derive(Drop)]
enum Found<'a> {
    /// A row with its fields, and the text after it. A skipped row or a comment has no fields.
    Row(Option<Vec<String>>, &'a [char]),
    /// The row isn't whole.
    Open,
    /// A rule is broken.
    Stop(RowStop),
}

/// Returns the text after a terminator at the start.
fn behind_terminator<'a>(d: &Dialect, rest: &'a [char]) -> Option<&'a [char]> {
    match rest {
        ['\r', '\n', behind @ ..] if d.line_terminators.crlf => Some(behind),
        ['\n', behind @ ..] if d.line_terminators.lf => Some(behind),
        _ => None,
    }
}

/// Returns the end of a field, if the field ends here.
fn end_of<'a>(d: &Dialect, rest: &'a [char]) -> Option<End<'a>> {
    if let Some(behind) = behind_terminator(d, rest) {
        return Some(End::Terminator(behind));
    }
    match rest {
        [] => Some(End::Text(false)),
        [c, behind @ ..] if *c == d.delimiter => Some(End::Delimiter(behind)),
        _ => None,
    }
}

/// Reads a field without quotes.
fn bare<'a>(d: &Dialect, text: &'a [char], value: &mut String) -> Result<End<'a>, AllocError> {
    let mut rest = text;
    for c in text {
        if let Some(end) = end_of(d, rest) {
            return Ok(end);
        }
        if Some(*c) == d.quote_char {
            return Ok(End::Stop(RowStop::BadQuote));
        }
        value.push(*c)?;
        rest = behind(rest);
    }
    Ok(End::Text(false))
}

/// Returns all but the first character.
fn behind(rest: &[char]) -> &[char] {
    match rest {
        [_, behind @ ..] => behind,
        [] => rest,
    }
}

/// The next part of a text within quotes.
#[derive(Clone, Copy)]
enum Inside<'a> {
    /// A character of the field, and the text after it.
    Char(char, &'a [char]),
    /// The quote that closes the field, and the text after it.
    Close(&'a [char]),
    /// The end of the text.
    End,
}

fn next_quoted<'a>(d: &Dialect, quote: char, rest: &'a [char]) -> Inside<'a> {
    match rest {
        [a, b, behind @ ..] if d.double_quote && *a == quote && *b == quote => {
            Inside::Char(quote, behind)
        }
        [c, behind @ ..] if *c == quote => Inside::Close(behind),
        ['\\', c, behind @ ..] if !d.double_quote => Inside::Char(*c, behind),
        ['\\'] if !d.double_quote => Inside::End,
        [c, behind @ ..] => Inside::Char(*c, behind),
        [] => Inside::End,
    }
}

/// Returns the text after the quote that closes a field, or `None` if the text ends first.
fn quoted<'a>(
    d: &Dialect,
    quote: char,
    text: &'a [char],
    value: &mut String,
) -> Result<Option<&'a [char]>, AllocError> {
    let mut rest = text;
    for _ in text {
        match next_quoted(d, quote, rest) {
            Inside::Char(c, behind) => {
                value.push(c)?;
                rest = behind;
            }
            Inside::Close(behind) => return Ok(Some(behind)),
            Inside::End => return Ok(None),
        }
    }
    Ok(None)
}

/// Returns the text without the spaces at its start.
fn without_spaces(text: &[char]) -> &[char] {
    let mut rest = text;
    for c in text {
        if *c != ' ' {
            break;
        }
        rest = behind(rest);
    }
    rest
}

fn field<'a>(d: &Dialect, text: &'a [char], value: &mut String) -> Result<End<'a>, AllocError> {
    let start = if d.skip_initial_space {
        without_spaces(text)
    } else {
        text
    };
    match (d.quote_char, start) {
        (Some(quote), [c, inside @ ..]) if *c == quote => {
            let Some(rest) = quoted(d, quote, inside, value)? else {
                return Ok(End::Text(true));
            };
            Ok(match end_of(d, rest) {
                Some(end) => end,
                None => End::Stop(RowStop::TextAfterQuote),
            })
        }
        _ => bare(d, text, value),
    }
}

/// Adds the field at the start of a text. Returns the end of the field.
fn add_field<'a>(
    alloc: Global,
    d: &Dialect,
    text: &'a [char],
    values: &mut Vec<String>,
) -> Result<End<'a>, AllocError> {
    let mut value = String::new(alloc);
    let end = field(d, text, &mut value)?;
    values.push(value)?;
    Ok(end)
}

/// Adds the fields at the start of a text. Returns the end of the last one.
fn add_fields<'a>(
    alloc: Global,
    d: &Dialect,
    text: &'a [char],
    values: &mut Vec<String>,
) -> Result<End<'a>, AllocError> {
    let mut rest = text;
    for _ in 0..=text.len() {
        match add_field(alloc, d, rest, values)? {
            End::Delimiter(behind) => rest = behind,
            end => return Ok(end),
        }
    }
    Ok(End::Text(false))
}

/// Returns the row at the start of a text. If the text is whole, its end ends the row.
fn fields<'a>(
    alloc: Global,
    d: &Dialect,
    text: &'a [char],
    whole: bool,
) -> Result<Found<'a>, AllocError> {
    let mut values = Vec::new(alloc);
    let end = add_fields(alloc, d, text, &mut values)?;
    Ok(match end {
        End::Terminator(behind) => Found::Row(Some(values), behind),
        End::Text(false) if whole => Found::Row(Some(values), &[]),
        End::Text(true) if whole => Found::Stop(RowStop::UnclosedQuote),
        End::Stop(stop) => Found::Stop(stop),
        End::Text(_) | End::Delimiter(_) => Found::Open,
    })
}

/// Returns a skipped row or a comment.
fn line<'a>(d: &Dialect, text: &'a [char], whole: bool) -> Found<'a> {
    let mut rest = text;
    for _ in text {
        if let Some(behind) = behind_terminator(d, rest) {
            return Found::Row(None, behind);
        }
        rest = behind(rest);
    }
    if whole {
        Found::Row(None, &[])
    } else {
        Found::Open
    }
}

/// Returns the characters of a comment prefix. There are none if there is no prefix.
fn prefix_of(alloc: Global, d: &Dialect) -> Result<Vec<char>, AllocError> {
    match &d.comment_prefix {
        Some(prefix) => prefix.as_str().chars().collect(alloc),
        None => Ok(Vec::new(alloc)),
    }
}

/// Returns the text without a CR at its end that may begin a terminator.
fn settled<'a>(d: &Dialect, text: &'a [char]) -> &'a [char] {
    match text {
        [front @ .., '\r'] if d.line_terminators.crlf => front,
        _ => text,
    }
}

/// Returns what a text begins with: the row of this number. If the text is whole, its end ends the row.
fn front_row<'a>(
    alloc: Global,
    d: &Dialect,
    source: u64,
    text: &'a [char],
    whole: bool,
) -> Result<Found<'a>, AllocError> {
    let prefix = prefix_of(alloc, d)?;
    let sure = if whole { text } else { settled(d, text) };
    if source <= d.skip_rows || (!prefix.is_empty() && text.starts_with(prefix.as_slice())) {
        return Ok(line(d, sure, whole));
    }
    if !whole && prefix.as_slice().starts_with(text) {
        return Ok(Found::Open);
    }
    fields(alloc, d, sure, whole)
}

/// Writes the text of a field. White space is kept back until it is known not to be at the end.
fn write_stripped(
    text: &mut String,
    white: &mut String,
    trim: Trim,
    value: &str,
) -> Result<(), AllocError> {
    for c in value.chars() {
        if !is_white(c) {
            text.push_str(white.as_str())?;
            white.clear();
            text.push(c)?;
        } else if !text.is_empty() || matches!(trim, Trim::No | Trim::End) {
            white.push(c)?;
        }
    }
    if matches!(trim, Trim::No | Trim::Start) {
        text.push_str(white.as_str())?;
    }
    Ok(())
}

/// Writes the field of a value, unless it is skipped. Returns whether it is empty.
fn write_value(
    text: &mut String,
    alloc: Global,
    d: &Dialect,
    value: &str,
    passed: bool,
) -> Result<bool, AllocError> {
    let mut field = String::new(alloc);
    let mut white = String::new(alloc);
    write_stripped(&mut field, &mut white, d.trim, value)?;
    if !passed {
        write_field(text, field.as_str())?;
    }
    Ok(field.is_empty())
}

/// Writes the fields of a row. Returns whether the row is blank.
fn write_values(
    text: &mut String,
    alloc: Global,
    d: &Dialect,
    values: &[String],
) -> Result<bool, AllocError> {
    let mut is_blank = d.skip_blank_rows;
    for (i, value) in values.iter().enumerate() {
        let passed = i < d.skip_columns as usize;
        let is_empty = write_value(text, alloc, d, value.as_str(), passed)?;
        is_blank = is_blank && is_empty;
    }
    Ok(is_blank)
}

/// Writes a row of these fields after so many that remained. Returns how many remain with it.
fn write_numbered(
    out: &mut String,
    d: &Dialect,
    numbers: (u64, u64),
    fields: &str,
) -> Result<u64, AllocError> {
    let (source, remained) = numbers;
    let remained = remained.saturating_add(1);
    let number = remained.saturating_sub(u64::from(d.header_row_count));
    write!(out, "{source}/{number}{fields}; ")?;
    Ok(remained)
}

/// Writes a row of values as `write_row` does, unless it is blank, after so many that remained. Returns how many
/// remain with it.
fn write_given(
    out: &mut String,
    alloc: Global,
    d: &Dialect,
    numbers: (u64, u64),
    values: &[String],
) -> Result<u64, AllocError> {
    let mut fields = String::new(alloc);
    if write_values(&mut fields, alloc, d, values)? {
        Ok(numbers.1)
    } else {
        write_numbered(out, d, numbers, fields.as_str())
    }
}

/// Writes a row if it is given, after so many that remained. Returns how many remain with it.
fn write_plain(
    out: &mut String,
    alloc: Global,
    d: &Dialect,
    numbers: (u64, u64),
    values: Option<Vec<String>>,
) -> Result<u64, AllocError> {
    match values {
        Some(values) => write_given(out, alloc, d, numbers, values.as_slice()),
        None => Ok(numbers.1),
    }
}

/// Returns the text without a byte order mark at its start.
fn unmarked(text: &[char]) -> &[char] {
    match text {
        ['\u{FEFF}', rest @ ..] => rest,
        _ => text,
    }
}

/// The place in a text up to which it was read.
#[derive(Clone, Copy)]
struct Reading<'a> {
    /// The text that wasn't read.
    rest: &'a [char],
    /// The number of the row at its start.
    source: u64,
    /// The number of rows that remained before it.
    remained: u64,
}

/// Writes the row at the start, or the stop. Returns the text after it, and how many rows remain then.
fn write_front<'a>(
    out: &mut String,
    alloc: Global,
    d: &Dialect,
    at: Reading<'a>,
    whole: bool,
) -> Result<Option<(&'a [char], u64)>, AllocError> {
    let stop = match front_row(alloc, d, at.source, at.rest, whole)? {
        Found::Row(values, behind) => {
            let remained = write_plain(out, alloc, d, (at.source, at.remained), values)?;
            return Ok(Some((behind, remained)));
        }
        Found::Open => RowStop::NotUtf8,
        Found::Stop(stop) => stop,
    };
    write_stop(out, stop, at.source)?;
    Ok(None)
}

/// Writes the rows of a text, by a dialect, with at most so many rows.
pub(crate) fn write_all(
    out: &mut String,
    alloc: Global,
    d: &Dialect,
    max_rows: u32,
    front: &Front,
) -> Result<(), AllocError> {
    let mut rest = unmarked(front.chars.as_slice());
    let mut remained = 0u64;
    for place in 0..=max_rows {
        let source = u64::from(place) + 1;
        if rest.is_empty() {
            if front.is_cut {
                write_stop(out, RowStop::NotUtf8, source)?;
            }
            break;
        }
        if place == max_rows {
            write_stop(out, RowStop::TooManyRows, source)?;
            break;
        }
        let at = Reading {
            rest,
            source,
            remained,
        };
        let Some((behind, now)) = write_front(out, alloc, d, at, !front.is_cut)? else {
            break;
        };
        rest = behind;
        remained = now;
    }
    Ok(())
}
