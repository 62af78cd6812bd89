//! Words that ask for no run, and words that are refused.

use crate::runs::Sent::{Just, SomeText};
use crate::runs::{Case, End, File, HEADING, META, each_ends_so};

static ANSWERS: [Case; 4] = [
    Case {
        what: "help goes to standard output",
        words: "csvw plain --help",
        files: &[],
        end: End {
            status: 0,
            out: SomeText,
            err: Just(b""),
        },
    },
    Case {
        what: "the version goes to standard output",
        words: "csvw --version",
        files: &[],
        end: End {
            status: 0,
            out: Just(b"csvw 0.5.0 (rattle 0.0.0)\n"),
            err: Just(b""),
        },
    },
    Case {
        what: "a file that isn't named",
        words: "csvw plain http://example.org/p.csv",
        files: &[],
        end: End {
            status: 2,
            out: Just(b""),
            err: SomeText,
        },
    },
    Case {
        what: "a subcommand that isn't there",
        words: "csvw convert-all",
        files: &[],
        end: End {
            status: 2,
            out: Just(b""),
            err: SomeText,
        },
    },
];

/// The line on standard error if the words name standard input twice.
const TWICE: &[u8] = b"csvw: standard input is named for two files, and can be read for one\n";

static STANDARD_INPUT: [Case; 4] = [
    Case {
        what: "for a document and a table, validated",
        words: "csvw validate --base http://example.org/ - -",
        files: &[],
        end: End {
            status: 2,
            out: Just(b""),
            err: Just(TWICE),
        },
    },
    Case {
        what: "for a document and a table, converted",
        words: "csvw convert --base http://example.org/ - -",
        files: &[],
        end: End {
            status: 2,
            out: Just(b""),
            err: Just(TWICE),
        },
    },
    Case {
        what: "for one table",
        words: "csvw validate --base http://example.org/ m.json -",
        files: &[
            File {
                path: "m.json",
                bytes: META,
            },
            File {
                path: "-",
                bytes: b"id,name\n",
            },
        ],
        end: End {
            status: 0,
            out: Just(HEADING),
            err: Just(b""),
        },
    },
    Case {
        what: "for two tables",
        words: "csvw validate --base http://example.org/ m.json - -",
        files: &[
            File {
                path: "m.json",
                bytes: META,
            },
            File {
                path: "-",
                bytes: b"id,name\n",
            },
        ],
        end: End {
            status: 2,
            out: Just(b""),
            err: Just(TWICE),
        },
    },
];

#[test]
fn words_are_answered_on_the_stream_that_fits(rt: HostRuntime) {
    each_ends_so(&rt, rt.alloc(), &ANSWERS);
}

#[test]
fn standard_input_is_named_once(rt: HostRuntime) {
    each_ends_so(&rt, rt.alloc(), &STANDARD_INPUT);
}
