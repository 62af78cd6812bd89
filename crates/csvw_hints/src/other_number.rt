//! The formats and the datatypes by which a text is a number, if it is none of its column's datatype.

use csvw_datatype_core::{NumberRules, read_number};
use csvw_double::canonical_double;
use std::alloc::{AllocError, Global};

/// How the characters of numbers are written in a document, the decimal character and the group character.
type Characters = (&'static str, Option<char>, Option<char>);

/// The characters of integers.
const INTEGERS: [Characters; 7] = [
    (r#"{"groupChar": ","}"#, None, Some(',')),
    (r#"{"groupChar": "."}"#, None, Some('.')),
    (r#"{"groupChar": " "}"#, None, Some(' ')),
    (r#"{"groupChar": "'"}"#, None, Some('\'')),
    (r#"{"groupChar": "’"}"#, None, Some('’')),
    (r#"{"groupChar": "\u00A0"}"#, None, Some('\u{A0}')),
    (r#"{"groupChar": "\u202F"}"#, None, Some('\u{202F}')),
];

/// The characters of decimals.
const DECIMALS: [Characters; 12] = [
    (r#"{"decimalChar": ","}"#, Some(','), None),
    (r#"{"groupChar": ","}"#, Some('.'), Some(',')),
    (r#"{"groupChar": " "}"#, Some('.'), Some(' ')),
    (r#"{"groupChar": "'"}"#, Some('.'), Some('\'')),
    (r#"{"groupChar": "’"}"#, Some('.'), Some('’')),
    (r#"{"groupChar": "\u00A0"}"#, Some('.'), Some('\u{A0}')),
    (r#"{"groupChar": "\u202F"}"#, Some('.'), Some('\u{202F}')),
    (
        r#"{"decimalChar": ",", "groupChar": "."}"#,
        Some(','),
        Some('.'),
    ),
    (
        r#"{"decimalChar": ",", "groupChar": " "}"#,
        Some(','),
        Some(' '),
    ),
    (
        r#"{"decimalChar": ",", "groupChar": "'"}"#,
        Some(','),
        Some('\''),
    ),
    (
        r#"{"decimalChar": ",", "groupChar": "\u00A0"}"#,
        Some(','),
        Some('\u{A0}'),
    ),
    (
        r#"{"decimalChar": ",", "groupChar": "\u202F"}"#,
        Some(','),
        Some('\u{202F}'),
    ),
];

/// Returns whether a text is a number with these characters.
fn is_number(text: &str, decimal_char: Option<char>, group_char: Option<char>) -> bool {
    let rules = NumberRules {
        decimal_char,
        group_char,
        allows_marks: false,
    };
    rules.is_lawful() && read_number(&rules, text).is_ok()
}

/// Returns whether the whole part of a text has this group character, and three characters after the last one.
fn is_grouped(text: &str, decimal_char: Option<char>, group_char: char) -> bool {
    let whole = match decimal_char {
        Some(decimal) => match text.split_once(decimal) {
            Some((whole, _)) => whole,
            None => text,
        },
        None => text,
    };
    match whole.rsplit_once(group_char) {
        Some((_, last)) => last.len() == 3,
        None => false,
    }
}

/// Returns whether a text is a number with these characters, and has them where people write them.
fn is_number_with(text: &str, characters: &Characters) -> bool {
    let (_, decimal, group) = characters;
    if *decimal == Some(',') && !text.contains(',') {
        return false;
    }
    match group {
        Some(group) if !is_grouped(text, *decimal, *group) => false,
        _ => is_number(text, *decimal, *group),
    }
}

/// Adds each format of these by which a text is a number: a line of text. Returns whether there is one.
fn push_number_formats(
    below: &mut String,
    text: &str,
    all: &[Characters],
) -> Result<bool, AllocError> {
    let mut is_one = false;
    for characters in all {
        if is_number_with(text, characters) {
            below.push_str(if is_one {
                ", or with "
            } else {
                "    the text is a number with "
            })?;
            let format = characters.0;
            write!(below, "`\"format\": {format}`")?;
            is_one = true;
        }
    }
    if is_one {
        below.push('\n')?;
    }
    Ok(is_one)
}

/// A text that is a number once the format is left out.
const WITHOUT_FORMAT: &str = "    the text is a number without the `format`\n";

/// Adds that a text is a decimal or a double, if it is one. The column is of integers or decimals.
fn push_other_number(below: &mut String, alloc: Global, text: &str) -> Result<(), AllocError> {
    if is_number(text, Some('.'), None) {
        return below.push_str("    the text is a value of the datatype decimal\n");
    }
    match canonical_double(alloc, text)? {
        Ok(_) => {
            below.push_str("    the text is a value of the datatype double, with `--profile w3c`\n")
        }
        Err(_) => Ok(()),
    }
}

/// Adds the formats by which a text is an integer, or the datatype of which it is a value.
pub(crate) fn push_integer(
    below: &mut String,
    alloc: Global,
    text: &str,
) -> Result<(), AllocError> {
    if push_number_formats(below, text, &INTEGERS)? {
        return Ok(());
    }
    if is_number(text, None, None) {
        return below.push_str(WITHOUT_FORMAT);
    }
    push_other_number(below, alloc, text)
}

/// Adds the formats by which a text is a decimal, or the datatype of which it is a value.
pub(crate) fn push_decimal(
    below: &mut String,
    alloc: Global,
    text: &str,
) -> Result<(), AllocError> {
    if push_number_formats(below, text, &DECIMALS)? {
        return Ok(());
    }
    if is_number(text, Some('.'), None) {
        return below.push_str(WITHOUT_FORMAT);
    }
    push_other_number(below, alloc, text)
}

/// Adds the formats by which a text is a double, or that it is one without the format.
pub(crate) fn push_double(below: &mut String, alloc: Global, text: &str) -> Result<(), AllocError> {
    if push_number_formats(below, text, &DECIMALS)? {
        return Ok(());
    }
    match canonical_double(alloc, text)? {
        Ok(_) => below.push_str(WITHOUT_FORMAT),
        Err(_) => Ok(()),
    }
}
