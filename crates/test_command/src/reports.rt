//! Reports in other forms, strict runs, stops that are explained, and what is shown of documents and of the program.

use crate::runs::Sent::{Just, SomeText};
use crate::runs::{Case, End, File, each_ends_so};

/// A document with a property that is not of the standard.
const WARNED: &[u8] =
    br#"{"@context":"http://www.w3.org/ns/csvw","url":"p.csv","foo":1,"tableSchema":{"columns":[{"name":"id","datatype":"integer"}]}}"#;

/// Its files, with a table that has no fault.
const SOUND: &[File<'static>] = &[
    File {
        path: "m.json",
        bytes: WARNED,
    },
    File {
        path: "p.csv",
        bytes: b"id\n7\n",
    },
];

/// Its files, with a table that has a wrong cell.
const WRONG: &[File<'static>] = &[
    File {
        path: "m.json",
        bytes: WARNED,
    },
    File {
        path: "p.csv",
        bytes: b"id\nx\n",
    },
];

/// Its files, with a table that can't be read to its end.
const RAGGED: &[File<'static>] = &[
    File {
        path: "m.json",
        bytes: WARNED,
    },
    File {
        path: "p.csv",
        bytes: b"id\n7\n8,9\n",
    },
];

/// The graph of the sound table in minimal mode.
const SEVEN: &[u8] =
    b"_:t1r1s <http://example.org/p.csv#id> \"7\"^^<http://www.w3.org/2001/XMLSchema#integer> .\n";

/// The graph of the wrong table in minimal mode.
const X: &[u8] = b"_:t1r1s <http://example.org/p.csv#id> \"x\" .\n";

/// The report of the sound table.
const WARNING: &[u8] = b"kind,code,table,row,column\nwarning,UnknownProperty,1,0,0\n";

static SHOWN: [Case; 6] = [
    Case {
        what: "a report as text, on standard output",
        words: "csvw validate --report text --base http://example.org/ m.json p.csv",
        files: WRONG,
        end: End {
            status: 1,
            out: SomeText,
            err: Just(b""),
        },
    },
    Case {
        what: "a report as HTML",
        words: "csvw validate --report html --base http://example.org/ m.json p.csv",
        files: SOUND,
        end: End {
            status: 0,
            out: SomeText,
            err: Just(b""),
        },
    },
    Case {
        what: "a graph beside a report as JSON",
        words: "csvw convert --minimal --report json --base http://example.org/ m.json p.csv",
        files: WRONG,
        end: End {
            status: 1,
            out: Just(X),
            err: SomeText,
        },
    },
    Case {
        what: "a graph beside a report as text, with its stop",
        words: "csvw convert --minimal --report text --base http://example.org/ m.json p.csv",
        files: RAGGED,
        end: End {
            status: 3,
            out: Just(SEVEN),
            err: SomeText,
        },
    },
    Case {
        what: "a report as CSV by its name",
        words: "csvw validate --report csv --base http://example.org/ m.json p.csv",
        files: SOUND,
        end: End {
            status: 0,
            out: Just(WARNING),
            err: Just(b""),
        },
    },
    Case {
        what: "a stop that is explained",
        words: "csvw validate --explain --base http://example.org/ m.json p.csv",
        files: RAGGED,
        end: End {
            status: 3,
            out: Just(b""),
            err: SomeText,
        },
    },
];

static STRICT: [Case; 4] = [
    Case {
        what: "a warning that counts",
        words: "csvw validate --strict --base http://example.org/ m.json p.csv",
        files: SOUND,
        end: End {
            status: 1,
            out: Just(WARNING),
            err: Just(b""),
        },
    },
    Case {
        what: "a warning that doesn't count",
        words: "csvw validate --base http://example.org/ m.json p.csv",
        files: SOUND,
        end: End {
            status: 0,
            out: Just(WARNING),
            err: Just(b""),
        },
    },
    Case {
        what: "a warning that counts for a conversion",
        words: "csvw convert --minimal --strict --base http://example.org/ m.json p.csv",
        files: SOUND,
        end: End {
            status: 1,
            out: Just(SEVEN),
            err: Just(WARNING),
        },
    },
    Case {
        what: "a warning that counts for a check",
        words: "csvw check --strict m.json p.csv",
        files: SOUND,
        end: End {
            status: 1,
            out: SomeText,
            err: Just(b""),
        },
    },
];

/// The line if a form or a colour isn't known.
const REPORTING: &[u8] =
    b"csvw: --report takes text, html or json, and csv but for `check`; --color takes auto, always or never\n";

static UNKNOWN: [Case; 4] = [
    Case {
        what: "a form that there is not",
        words: "csvw validate --report xml --base http://example.org/ m.json p.csv",
        files: &[],
        end: End {
            status: 2,
            out: Just(b""),
            err: Just(REPORTING),
        },
    },
    Case {
        what: "a check as CSV",
        words: "csvw check --report csv m.json",
        files: &[],
        end: End {
            status: 2,
            out: Just(b""),
            err: Just(REPORTING),
        },
    },
    Case {
        what: "a colour that there is not",
        words: "csvw convert --color blue --base http://example.org/ m.json p.csv",
        files: &[],
        end: End {
            status: 2,
            out: Just(b""),
            err: Just(REPORTING),
        },
    },
    Case {
        what: "a shell that there is not",
        words: "csvw completions tcsh",
        files: &[],
        end: End {
            status: 2,
            out: Just(b""),
            err: Just(b"csvw: completions are for bash, zsh or fish\n"),
        },
    },
];

static TEXTS: [Case; 8] = [
    Case {
        what: "the completions of bash",
        words: "csvw completions bash",
        files: &[],
        end: End {
            status: 0,
            out: SomeText,
            err: Just(b""),
        },
    },
    Case {
        what: "the manual page",
        words: "csvw manual",
        files: &[],
        end: End {
            status: 0,
            out: SomeText,
            err: Just(b""),
        },
    },
    Case {
        what: "what a document says",
        words: "csvw inspect m.json",
        files: SOUND,
        end: End {
            status: 0,
            out: SomeText,
            err: Just(b""),
        },
    },
    Case {
        what: "what a document says, as JSON",
        words: "csvw inspect --json --base http://example.org/ m.json",
        files: SOUND,
        end: End {
            status: 0,
            out: SomeText,
            err: Just(b""),
        },
    },
    Case {
        what: "a document that isn't there",
        words: "csvw inspect n.json",
        files: SOUND,
        end: End {
            status: 4,
            out: Just(b""),
            err: Just(b"csvw: Read\n"),
        },
    },
    Case {
        what: "a document that is no JSON",
        words: "csvw inspect p.csv",
        files: SOUND,
        end: End {
            status: 3,
            out: Just(b""),
            err: Just(b"csvw: metadata NotJson \n"),
        },
    },
    Case {
        what: "a draft for a table",
        words: "csvw draft p.csv",
        files: SOUND,
        end: End {
            status: 0,
            out: SomeText,
            err: Just(b""),
        },
    },
    Case {
        what: "a draft for a table that isn't there",
        words: "csvw draft q.csv",
        files: SOUND,
        end: End {
            status: 4,
            out: Just(b""),
            err: Just(
                b"csvw: q.csv: the file can't be opened or read: No such file or directory (os error 2)\ncsvw: Read\n",
            ),
        },
    },
];

#[test]
fn reports_are_shown_in_their_form(rt: HostRuntime) {
    each_ends_so(&rt, rt.alloc(), &SHOWN);
}

#[test]
fn warnings_count_if_that_is_asked_for(rt: HostRuntime) {
    each_ends_so(&rt, rt.alloc(), &STRICT);
}

#[test]
fn names_that_there_are_not_are_mistakes(rt: HostRuntime) {
    each_ends_so(&rt, rt.alloc(), &UNKNOWN);
}

#[test]
fn texts_are_given(rt: HostRuntime) {
    each_ends_so(&rt, rt.alloc(), &TEXTS);
}
