//! Plans of parts.

use crate::runs::Sent::{Just, SomeText};
use crate::runs::{Case, End, File, META, each_ends_so};

/// The words that split a group of one table into two parts.
const SPLIT: &str = "csvw split --parts 2 --base http://example.org/ m.json p.csv";

/// The words that split standard input.
const STANDARD: &str = "csvw split --parts 2 --base http://example.org/ m.json -";

/// The document of one table.
const DOCUMENT: File<'static> = File {
    path: "m.json",
    bytes: META,
};

static SPLITS: [Case; 9] = [
    Case {
        what: "two parts of a table",
        words: SPLIT,
        files: &[
            DOCUMENT,
            File {
                path: "p.csv",
                bytes: b"id,n\n1,2\n3,4\n",
            },
        ],
        end: End {
            status: 0,
            out: Just(
                b"part,table,first_byte,bytes,rows_before,data_rows_before,header_bytes\n1,1,0,9,0,0,5\n2,1,9,4,2,1,5\n",
            ),
            err: Just(b""),
        },
    },
    Case {
        what: "a table that stops",
        words: SPLIT,
        files: &[
            DOCUMENT,
            File {
                path: "p.csv",
                bytes: b"id,n\n1,2\n3,\"4\n",
            },
        ],
        end: End {
            status: 3,
            out: Just(b""),
            err: Just(b"csvw: UnclosedQuote table 1 row 3\n"),
        },
    },
    Case {
        what: "a document with a fault",
        words: SPLIT,
        files: &[
            File {
                path: "m.json",
                bytes: b"{}",
            },
            File {
                path: "p.csv",
                bytes: b"id\n",
            },
        ],
        end: End {
            status: 3,
            out: Just(b""),
            err: SomeText,
        },
    },
    Case {
        what: "a file that isn't there",
        words: SPLIT,
        files: &[DOCUMENT],
        end: End {
            status: 4,
            out: Just(b""),
            err: Just(
                b"csvw: p.csv: the file can't be opened or read: No such file or directory (os error 2)\ncsvw: Read\n",
            ),
        },
    },
    Case {
        what: "a document that isn't there",
        words: SPLIT,
        files: &[],
        end: End {
            status: 4,
            out: Just(b""),
            err: Just(
                b"csvw: m.json: the file can't be opened or read: No such file or directory (os error 2)\ncsvw: Read\n",
            ),
        },
    },
    Case {
        what: "standard input",
        words: STANDARD,
        files: &[
            DOCUMENT,
            File {
                path: "-",
                bytes: b"id\n",
            },
        ],
        end: End {
            status: 2,
            out: Just(b""),
            err: Just(b"csvw: standard input can't be split, and no pipe can: name files\n"),
        },
    },
    Case {
        what: "no part",
        words: "csvw split --parts 0 --base http://example.org/ m.json p.csv",
        files: &[],
        end: End {
            status: 2,
            out: Just(b""),
            err: Just(b"csvw: --parts takes a number from 1 to 4294967295\n"),
        },
    },
    Case {
        what: "parts that are no number",
        words: "csvw split --parts two --base http://example.org/ m.json p.csv",
        files: &[],
        end: End {
            status: 2,
            out: Just(b""),
            err: Just(b"csvw: --parts takes a number from 1 to 4294967295\n"),
        },
    },
    Case {
        what: "no number of parts",
        words: "csvw split --base http://example.org/ m.json p.csv",
        files: &[],
        end: End {
            status: 2,
            out: Just(b""),
            err: SomeText,
        },
    },
];

#[test]
fn plans_are_written(rt: HostRuntime) {
    each_ends_so(&rt, rt.alloc(), &SPLITS);
}
