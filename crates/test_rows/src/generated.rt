//! The rows of generated texts of many dialects, compared with those of the plain reader.

use crate::kind::{DEFAULT, Kind};
use crate::numbers::Numbers;
use crate::plain_reader::{Front, write_all};
use crate::reading::{Way, gives};
use csvw_rows::{Dialect, LineTerminators, Trim};
use std::alloc::{AllocError, Global};
use std::process::Abort;
use std::test::Fail;

/// The greatest number of rows of all kinds.
const MAX_ROWS: u32 = 40;

/// The number of texts for each dialect.
const TEXTS: u32 = 28;

/// Texts that may be in each cell. An arrow and two other characters begin with the same byte.
const LETTERS: [&str; 14] = [
    "a",
    "b7",
    " ",
    "\t",
    "\r",
    ".",
    "\u{E9}",
    "\u{6F22}",
    "\u{1F600}",
    "\u{FEFF}",
    "\u{2190}",
    "\u{20AC}",
    "twenty letters, or so",
    "more letters than the sixty-four bytes that one mask has, \u{E9} among them",
];

/// Texts to which dialects may give a meaning.
const SYMBOLS: [&str; 10] = [
    ",", ";", "\u{2192}", "\"", "'", "#", "\\", "\n", "\r\n", "\r",
];

const BREAKS: [&str; 3] = ["\n", "\r\n", "\r"];

fn add_text(text: &mut String, numbers: &mut Numbers) -> Result<(), AllocError> {
    let piece = if numbers.below(64) == 0 {
        numbers.pick(&SYMBOLS)
    } else {
        numbers.pick(&LETTERS)
    };
    text.push_str(piece)
}

fn add_plain(text: &mut String, numbers: &mut Numbers, len: u64) -> Result<(), AllocError> {
    for _ in 0..len {
        add_text(text, numbers)?;
    }
    Ok(())
}

/// Adds an escape, a delimiter, a line break or letters.
fn add_in_quotes(
    text: &mut String,
    numbers: &mut Numbers,
    d: &Dialect,
    quote: char,
) -> Result<(), AllocError> {
    match numbers.below(8) {
        0 => {
            text.push(if d.double_quote { quote } else { '\\' })?;
            text.push(quote)
        }
        1 => Ok(text.push(d.delimiter)?),
        2 => Ok(text.push_str(numbers.pick(&BREAKS))?),
        _ => add_text(text, numbers),
    }
}

fn add_quoted(
    text: &mut String,
    numbers: &mut Numbers,
    d: &Dialect,
    quote: char,
    len: u64,
) -> Result<(), AllocError> {
    text.push(quote)?;
    for _ in 0..len {
        add_in_quotes(text, numbers, d, quote)?;
    }
    text.push(quote)
}

fn add_cell(text: &mut String, numbers: &mut Numbers, d: &Dialect) -> Result<(), AllocError> {
    let len = numbers.below(5);
    match d.quote_char {
        Some(quote) if numbers.below(2) == 0 => {
            if d.skip_initial_space {
                text.push(' ')?;
            }
            add_quoted(text, numbers, d, quote, len)
        }
        _ => add_plain(text, numbers, len),
    }
}

/// Adds a row of up to four cells, a comment if the dialect has comments, or an empty row.
fn add_row(text: &mut String, numbers: &mut Numbers, d: &Dialect) -> Result<(), AllocError> {
    if let Some(prefix) = &d.comment_prefix
        && numbers.below(8) == 0
    {
        text.push_str(prefix.as_str())?;
    }
    for column in 0..numbers.below(5) {
        if 0 < column {
            text.push(d.delimiter)?;
        }
        add_cell(text, numbers, d)?;
    }
    Ok(())
}

/// Adds up to eight rows, or some more than the limit.
fn add_rows(text: &mut String, numbers: &mut Numbers, d: &Dialect) -> Result<(), AllocError> {
    let rows = if numbers.below(8) == 0 {
        60
    } else {
        numbers.below(9)
    };
    for _ in 0..rows {
        add_row(text, numbers, d)?;
        text.push_str(terminator(numbers, d))?;
    }
    Ok(())
}

/// Returns a terminator of the dialect.
fn terminator(numbers: &mut Numbers, d: &Dialect) -> &'static str {
    if d.line_terminators.crlf && (!d.line_terminators.lf || numbers.below(2) == 0) {
        "\r\n"
    } else {
        "\n"
    }
}

/// Returns the characters of the first so many bytes of a text.
fn front_of(alloc: Global, text: &str, len: usize) -> Result<Front, AllocError> {
    let mut chars = Vec::new(alloc);
    let mut used = 0usize;
    for c in text.chars() {
        let end = used.saturating_add(c.len_utf8());
        if len < end {
            break;
        }
        used = end;
        chars.push(c)?;
    }
    Ok(Front {
        chars,
        is_cut: used < len,
    })
}

/// Compares the rows of a text, in pieces of each length, with the expected ones.
fn compare_pieces(rt: &impl Abort, alloc: Global, d: &Dialect, bytes: &[u8], want: &str) {
    for len in [1, 2, 3, 7, 1_000, 100_000] {
        assert!(rt;
            gives(
                alloc,
                d.clone(alloc),
                MAX_ROWS,
                Way::Pieces(bytes, len),
                want
            ),
            "{bytes:?} by {len}, and not {want:?}"
        );
    }
}

/// Writes the rows that the plain reader finds in the first so many bytes of a text.
fn write_plain_front(
    out: &mut String,
    alloc: Global,
    d: &Dialect,
    text: &str,
    len: usize,
) -> Result<(), AllocError> {
    let front = front_of(alloc, text, len)?;
    write_all(out, alloc, d, MAX_ROWS, &front)
}

fn compare_text(rt: &impl Abort, alloc: Global, d: &Dialect, text: &str, len: usize) {
    let mut want = String::new(alloc);
    assert!(rt;
        write_plain_front(&mut want, alloc, d, text, len).is_ok(),
        "{text:?}"
    );
    let (bytes, _) = text.as_bytes().split_at(len.min(text.len()));
    compare_pieces(rt, alloc, d, bytes, want.as_str());
}

/// Compares the rows of a generated text by the dialect. Up to three bytes are cut off its end.
fn compare_next(rt: &impl Abort, alloc: Global, d: &Dialect, numbers: &mut Numbers) {
    let mut text = String::new(alloc);
    assert!(rt; add_rows(&mut text, numbers, d).is_ok());
    let cut = numbers.below(4) as usize;
    compare_text(rt, alloc, d, text.as_str(), text.len().saturating_sub(cut));
}

fn compare(
    rt: &impl Abort,
    alloc: Global,
    kind: &Kind,
    numbers: &mut Numbers,
) -> Result<(), AllocError> {
    let d = kind.dialect(alloc)?;
    for _ in 0..TEXTS {
        compare_next(rt, alloc, &d, numbers);
    }
    Ok(())
}

static KINDS: [Kind; 15] = [
    DEFAULT,
    Kind {
        delimiter: ';',
        ..DEFAULT
    },
    Kind {
        quote_char: Some('\''),
        ..DEFAULT
    },
    Kind {
        quote_char: None,
        ..DEFAULT
    },
    Kind {
        double_quote: false,
        ..DEFAULT
    },
    Kind {
        double_quote: false,
        skip_initial_space: true,
        ..DEFAULT
    },
    Kind {
        delimiter: '\u{2192}',
        ..DEFAULT
    },
    Kind {
        quote_char: Some('\u{2192}'),
        ..DEFAULT
    },
    Kind {
        trim: Trim::Start,
        ..DEFAULT
    },
    Kind {
        trim: Trim::End,
        ..DEFAULT
    },
    Kind {
        trim: Trim::Both,
        skip_blank_rows: true,
        ..DEFAULT
    },
    Kind {
        comment_prefix: Some("\"\u{E9}\""),
        ..DEFAULT
    },
    Kind {
        comment_prefix: None,
        skip_rows: 2,
        skip_columns: 1,
        header_row_count: 2,
        ..DEFAULT
    },
    Kind {
        line_terminators: LineTerminators {
            crlf: true,
            lf: false,
        },
        ..DEFAULT
    },
    Kind {
        line_terminators: LineTerminators {
            crlf: false,
            lf: true,
        },
        ..DEFAULT
    },
];

#[test]
fn as_the_plain_reader(rt: HostRuntime) -> Result<(), Fail> {
    let mut numbers = Numbers(1);
    for kind in &KINDS {
        compare(&rt, rt.alloc(), kind, &mut numbers)?;
    }
    Ok(())
}
