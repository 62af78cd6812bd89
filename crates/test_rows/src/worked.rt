//! Worked rows, each text at every cut.

use crate::kind::{DEFAULT, Kind};
use crate::reading::{Way, gives};
use csvw_rows::{LineTerminators, Trim};
use std::alloc::{AllocError, Global};
use std::process::Abort;

/// Texts with their rows, by a dialect, with at most so many rows.
#[derive(Clone, Copy)]
struct Table {
    /// The dialect.
    kind: Kind,
    /// The greatest number of rows.
    max: u32,
    /// The texts and their rows.
    cases: &'static [(&'static [u8], &'static str)],
}

static TABLES: [Table; 13] = [
    Table {
        kind: DEFAULT,
        max: 1000,
        cases: &FIELDS,
    },
    Table {
        kind: DEFAULT,
        max: 1000,
        cases: &STOPS,
    },
    Table {
        kind: DEFAULT,
        max: 1,
        cases: &TOO_MANY,
    },
    Table {
        kind: Kind {
            skip_rows: 2,
            skip_blank_rows: true,
            ..DEFAULT
        },
        max: 1000,
        cases: &SKIPS,
    },
    Table {
        kind: Kind {
            line_terminators: LineTerminators {
                crlf: false,
                lf: true,
            },
            ..DEFAULT
        },
        max: 1000,
        cases: &LINE_FEEDS,
    },
    Table {
        kind: Kind {
            double_quote: false,
            ..DEFAULT
        },
        max: 9,
        cases: &[(b"\"a\\\"b\"", "1/0 \"a\\\"b\"; ")],
    },
    Table {
        kind: Kind {
            skip_initial_space: true,
            trim: Trim::Start,
            ..DEFAULT
        },
        max: 9,
        cases: &[(b"id, n\n1, \" x\"\n", "1/0 \"id\" \"n\"; 2/1 \"1\" \"x\"; ")],
    },
    Table {
        kind: Kind {
            skip_columns: 2,
            skip_blank_rows: true,
            trim: Trim::Both,
            ..DEFAULT
        },
        max: 9,
        cases: &[(b"a,b,c\n ,\" \"\nx\n", "1/0 \"c\"; 3/1; ")],
    },
    Table {
        kind: Kind {
            comment_prefix: Some("a\"b"),
            ..DEFAULT
        },
        max: 1000,
        cases: &PREFIXES,
    },
    Table {
        kind: Kind {
            comment_prefix: Some("\"a\"b"),
            ..DEFAULT
        },
        max: 1000,
        cases: &QUOTE_PREFIXES,
    },
    Table {
        kind: Kind {
            trim: Trim::Both,
            ..DEFAULT
        },
        max: 1000,
        cases: &TRIMMED,
    },
    Table {
        kind: Kind {
            trim: Trim::Start,
            ..DEFAULT
        },
        max: 9,
        cases: &[(SPACES, "1/0 \"x \\t\\r\\n\"; ")],
    },
    Table {
        kind: Kind {
            trim: Trim::End,
            ..DEFAULT
        },
        max: 9,
        cases: &[(SPACES, "1/0 \" \\t\\r\\nx\"; ")],
    },
];

const FIELDS: [(&[u8], &str); 12] = [
    (
        b"a,b\n\"p\"\"q\",\"x\ny\"\n",
        "1/0 \"a\" \"b\"; 2/1 \"p\\\"q\" \"x\\ny\"; ",
    ),
    (b"", ""),
    (b"\xEF\xBB\xBF", ""),
    (
        b"\xEF\xBB\xBFa\n\xEF\xBB\xBF",
        "1/0 \"a\"; 2/1 \"\\u{feff}\"; ",
    ),
    (b"a\n\"\"", "1/0 \"a\"; 2/1 \"\"; "),
    (b"a\n\n", "1/0 \"a\"; 2/1 \"\"; "),
    (b"\n", "1/0 \"\"; "),
    (b"\"\"", "1/0 \"\"; "),
    (b"id\n7\r", "1/0 \"id\"; 2/1 \"7\\r\"; "),
    (
        b"\"#x\"\n #x\n#x\ny\n",
        "1/0 \"#x\"; 2/1 \" #x\"; 4/2 \"y\"; ",
    ),
    (b"id\r\n7\r\n", "1/0 \"id\"; 2/1 \"7\"; "),
    (b"id\n\xC3\xA9\n#", "1/0 \"id\"; 2/1 \"\u{E9}\"; "),
];

const STOPS: [(&[u8], &str); 8] = [
    (b"a\"b,c\n", "BadQuote 1; "),
    (b"\"a\"b\n", "TextAfterQuote 1; "),
    (b"x\n\"a", "1/0 \"x\"; UnclosedQuote 2; "),
    (b"x\n\xFF", "1/0 \"x\"; NotUtf8 2; "),
    (b"x\n\"a\xC3", "1/0 \"x\"; NotUtf8 2; "),
    (b"\"a\"\r", "TextAfterQuote 1; "),
    (b"\"a\"\rx", "TextAfterQuote 1; "),
    (b"\"a\"\r\xFF", "NotUtf8 1; "),
];

const TOO_MANY: [(&[u8], &str); 3] = [
    (b"x\ny\n", "1/0 \"x\"; TooManyRows 2; "),
    (b"x\n", "1/0 \"x\"; "),
    (b"x\n\xFF", "1/0 \"x\"; NotUtf8 2; "),
];

const SKIPS: [(&[u8], &str); 4] = [
    (b"\"x\n\n#note\nid\n\n7\n", "4/0 \"id\"; 6/1 \"7\"; "),
    (b"x\ny", ""),
    (b"x\n", ""),
    (b"x\ny\n#z", ""),
];

const LINE_FEEDS: [(&[u8], &str); 2] = [
    (b"a\r\n", "1/0 \"a\\r\"; "),
    (b"\"a\"\r\n", "TextAfterQuote 1; "),
];

const PREFIXES: [(&[u8], &str); 4] = [
    (b"a\"bx\ny\n", "2/0 \"y\"; "),
    (b"a\"", "BadQuote 1; "),
    (b"a\"x", "BadQuote 1; "),
    (b"a\"\xFF", "NotUtf8 1; "),
];

const QUOTE_PREFIXES: [(&[u8], &str); 4] = [
    (b"\"a\"bx\ny\n", "2/0 \"y\"; "),
    (b"\"a\"", "1/0 \"a\"; "),
    (b"\"a\"x", "TextAfterQuote 1; "),
    (b"\"a", "UnclosedQuote 1; "),
];

const SPACES: &[u8] = b"\" \t\r\nx \t\r\n\"";

const TRIMMED: [(&[u8], &str); 3] = [
    (SPACES, "1/0 \"x\"; "),
    (b" \ty\r\t , \t\r,z \t\n", "1/0 \"y\" \"\" \"z\"; "),
    (
        b"\x0Bx\x0C,\xC2\xA0y\xE3\x80\x80\n",
        "1/0 \"\\u{b}x\\u{c}\" \"\\u{a0}y\\u{3000}\"; ",
    ),
];

/// Checks the text, cut at each place.
fn cuts(rt: &impl Abort, alloc: Global, table: &Table, text: &[u8], want: &str) {
    for i in 0..=text.len() {
        let way = Way::Halves(text, i);
        assert!(rt;
            gives(alloc, table.kind.dialect(alloc), table.max, way, want),
            "{text:?} at {i}"
        );
    }
}

/// Checks each text of the table, cut at each place.
fn cuts_of(rt: &impl Abort, alloc: Global, table: &Table) {
    for (text, want) in table.cases {
        cuts(rt, alloc, table, text, want);
    }
}

#[test]
fn at_every_cut(rt: HostRuntime) {
    for table in &TABLES {
        cuts_of(&rt, rt.alloc(), table);
    }
}

/// Pieces, and the rows after each: a row as soon as its terminator is known, and a stop that stays.
static STEPS: [([&[u8]; 2], &str); 7] = [
    ([b"id\n7\r", b"\n"], "1/0 \"id\"; | 2/1 \"7\"; | "),
    (
        [b"id\n\"a\"", b"\"b\"\n"],
        "1/0 \"id\"; | 2/1 \"a\\\"b\"; | ",
    ),
    ([b"id\n\xC3", b"\xA9\n"], "1/0 \"id\"; | 2/1 \"\u{E9}\"; | "),
    ([b"\xEF\xBB", b"\xBFid\n"], "| 1/0 \"id\"; | "),
    (
        [b"id\n\xC3", b"x"],
        "1/0 \"id\"; | NotUtf8 2; | NotUtf8 2; ",
    ),
    (
        [b"id\n\"a\"\xC3", b"x"],
        "1/0 \"id\"; | NotUtf8 2; | NotUtf8 2; ",
    ),
    (
        [b"b\"\n", b"c\n"],
        "BadQuote 1; | BadQuote 1; | BadQuote 1; ",
    ),
];

#[test]
fn as_soon_as_it_is_known(rt: HostRuntime) {
    let alloc = rt.alloc();
    for (pieces, want) in &STEPS {
        let way = Way::Steps(pieces);
        assert!(rt;
            gives(alloc, DEFAULT.dialect(alloc), 1000, way, want),
            "{pieces:?}"
        );
    }
}

const LIMIT: usize = 1_048_576;

/// Returns a row of so many bytes: letters, alone or between quotes.
fn row_of(alloc: Global, len: usize, quoted: bool) -> Result<Vec<u8>, AllocError> {
    let mut row = Vec::new(alloc);
    for i in 0..len {
        let at_quote = quoted && (i == 0 || i == len - 1);
        row.push(if at_quote { b'"' } else { b'a' })?;
    }
    Ok(row)
}

/// A text, the number of bytes of the row after it, whether that row is quoted, the text after the row and a CR, and
/// the expected rows.
type Long = (&'static [u8], usize, bool, &'static [u8], &'static str);

static LONG: [Long; 9] = [
    (b"", LIMIT, false, b"x", "RowTooLong 1; "),
    (b"", LIMIT, false, b"", "RowTooLong 1; "),
    (b"\xEF\xBB\xBF", LIMIT, false, b"x", "RowTooLong 1; "),
    (
        b"\xEF\xBB\xBF\xEF\xBB\xBF",
        LIMIT - 3,
        false,
        b"x",
        "RowTooLong 1; ",
    ),
    (b"", LIMIT, true, b"x", "RowTooLong 1; "),
    (b"", LIMIT, true, b"", "RowTooLong 1; "),
    (b"", LIMIT - 1, true, b"x", "RowTooLong 1; "),
    (b"", LIMIT - 1, true, b"", "TextAfterQuote 1; "),
    (b"", LIMIT - 2, true, b"x", "TextAfterQuote 1; "),
];

/// Returns whether a row of so many bytes between two texts has the expected result.
fn long_gives(alloc: Global, front: &[u8], row: (usize, bool), behind: &[u8], want: &str) -> bool {
    let (len, quoted) = row;
    match row_of(alloc, len, quoted) {
        Ok(row) => {
            let way = Way::Row(front, row.as_slice(), behind);
            gives(alloc, DEFAULT.dialect(alloc), 9, way, want)
        }
        Err(_) => false,
    }
}

#[test]
fn too_long(rt: HostRuntime) {
    for (front, len, quoted, behind, want) in &LONG {
        assert!(rt;
            long_gives(rt.alloc(), front, (*len, *quoted), behind, want),
            "{len}"
        );
    }
}

/// The text before the longest row, whether the row is quoted, and its number of letters.
static LONGEST: [(&[u8], bool, usize); 3] = [
    (b"", false, LIMIT),
    (b"\xEF\xBB\xBF", false, LIMIT),
    (b"", true, LIMIT - 2),
];

/// Returns whether the longest row has so many letters.
fn longest_gives(
    alloc: Global,
    front: &[u8],
    quoted: bool,
    letters: usize,
) -> Result<bool, AllocError> {
    let letters = "a".repeat(alloc, letters)?;
    let want = format!(in alloc; "1/0 \"{}\"; ", letters.as_str())?;
    Ok(long_gives(alloc, front, (LIMIT, quoted), b"\n", want.as_str()))
}

#[test]
fn the_longest_row(rt: HostRuntime) {
    for (front, quoted, letters) in &LONGEST {
        assert!(rt; longest_gives(rt.alloc(), front, *quoted, *letters) == Ok(true));
    }
}
