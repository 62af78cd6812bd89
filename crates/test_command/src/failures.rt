//! Runs whose files fail or are missing, and lines of stops that would break a terminal.

use crate::runs::Sent::Just;
use crate::runs::{CONVERT, End, File, Files, META, PLAIN, VALIDATE, ends_by, ends_so, status_by};
use csvw_text::Counted;
use std::alloc::Global;
use std::process::Abort;
use test_fakes::Full;

/// A document and its table.
static FILES: [File<'static>; 2] = [
    File {
        path: "m.json",
        bytes: META,
    },
    File {
        path: "p.csv",
        bytes: b"id,name\n1,Ann\n",
    },
];

/// The graph of the table.
const GRAPH: &[u8] =
    b"_:t1r1s <http://example.org/p.csv#id> \"1\" .\n_:t1r1s <http://example.org/p.csv#name> \"Ann\" .\n";

/// The triples of the table itself in standard mode.
const OPENING: &[u8] =
    b"_:g <http://www.w3.org/1999/02/22-rdf-syntax-ns#type> <http://www.w3.org/ns/csvw#TableGroup> .
_:g <http://www.w3.org/ns/csvw#table> _:t1 .
_:t1 <http://www.w3.org/1999/02/22-rdf-syntax-ns#type> <http://www.w3.org/ns/csvw#Table> .
_:t1 <http://www.w3.org/ns/csvw#url> <http://example.org/p.csv> .
";

/// The words that convert a group of one table in standard mode.
const STANDARD: &str = "csvw convert --base http://example.org/ m.json p.csv";

/// The words that convert a group of one table in standard mode, with its tables read in turn.
const TURNS: &str = "csvw convert --turns --base http://example.org/ m.json p.csv";

/// A run in which a read fails.
struct Broken {
    /// What the case shows.
    what: &'static str,
    /// The words of the command line.
    words: &'static str,
    /// The path of the file whose reader fails.
    path: &'static str,
    /// How many of its reads don't fail.
    reads: u64,
    /// What standard output got.
    out: &'static [u8],
    /// How many readers were opened. All of them come back.
    opened: u64,
}

static BROKEN: [Broken; 9] = [
    Broken {
        what: "the first read of a table without a document",
        words: PLAIN,
        path: "p.csv",
        reads: 0,
        out: b"",
        opened: 1,
    },
    Broken {
        what: "the read at the end of a table without a document",
        words: PLAIN,
        path: "p.csv",
        reads: 1,
        out: GRAPH,
        opened: 1,
    },
    Broken {
        what: "the first read of a document",
        words: CONVERT,
        path: "m.json",
        reads: 0,
        out: b"",
        opened: 1,
    },
    Broken {
        what: "the read at the end of a document",
        words: CONVERT,
        path: "m.json",
        reads: 1,
        out: b"",
        opened: 1,
    },
    Broken {
        what: "the first read of a table, validated",
        words: VALIDATE,
        path: "p.csv",
        reads: 0,
        out: b"",
        opened: 2,
    },
    Broken {
        what: "the first read of a table in minimal mode",
        words: CONVERT,
        path: "p.csv",
        reads: 0,
        out: b"",
        opened: 2,
    },
    Broken {
        what: "the read at the end of a table in minimal mode",
        words: CONVERT,
        path: "p.csv",
        reads: 1,
        out: GRAPH,
        opened: 2,
    },
    Broken {
        what: "the first read of a table in standard mode",
        words: STANDARD,
        path: "p.csv",
        reads: 0,
        out: OPENING,
        opened: 2,
    },
    Broken {
        what: "the first read of a table, with the tables in turn",
        words: TURNS,
        path: "p.csv",
        reads: 0,
        out: OPENING,
        opened: 2,
    },
];

/// The end of a run that a reader stopped.
fn read_end(out: &'static [u8]) -> End {
    End {
        status: 4,
        out: Just(out),
        err: Just(b"csvw: Read\n"),
    }
}

/// Returns whether a run whose reader fails ends so, and hands back each reader. One of them failed, once.
fn stops(alloc: Global, broken: &Broken) -> bool {
    let mut opener = Files::with_broken(&FILES, broken.path, broken.reads);
    ends_by(alloc, broken.words, &mut opener, read_end(broken.out))
        && opener.opened == broken.opened
        && opener.closed == broken.opened
        && opener.failures == 1
}

#[test]
fn a_read_that_fails_is_status_4(rt: HostRuntime) {
    let alloc = rt.alloc();
    for broken in &BROKEN {
        assert!(rt; stops(alloc, broken), "{}", broken.what);
    }
}

/// Returns whether a run whose reader fails has its status although standard error takes no byte.
fn stops_silently(alloc: Global, broken: &Broken) -> bool {
    let mut opener = Files::with_broken(&FILES, broken.path, broken.reads);
    let mut out = Counted::new(Vec::new(alloc));
    let mut err = Counted::new(Full::new(alloc, 0));
    let status = status_by(alloc, broken.words, &mut opener, &mut out, &mut err);
    status == Some(4)
        && out.into_inner().as_slice() == broken.out
        && err.failures() == 1
        && err.into_inner().taken.is_empty()
        && opener.closed == opener.opened
}

#[test]
fn the_status_is_all_if_standard_error_fails(rt: HostRuntime) {
    let alloc = rt.alloc();
    for broken in &BROKEN {
        assert!(rt; stops_silently(alloc, broken), "{}", broken.what);
    }
}

/// Words that name files, and how many of these can be opened before one that is missing.
static MISSING: [(&str, u64, u64); 4] = [
    ("csvw plain http://example.org/p.csv q.csv", 0, 0),
    (
        "csvw validate --base http://example.org/ n.json p.csv",
        0,
        0,
    ),
    ("csvw convert --base http://example.org/ m.json q.csv", 1, 1),
    (
        "csvw convert --base http://example.org/ m.json p.csv q.csv",
        2,
        1,
    ),
];

/// Returns whether a run stops at a file that is missing. Only readers of tables before that file don't come back.
fn misses(alloc: Global, words: &str, opened: u64, closed: u64) -> bool {
    let mut opener = Files::new(&FILES);
    ends_by(alloc, words, &mut opener, read_end(b""))
        && opener.opened == opened
        && opener.closed == closed
        && opener.failures == 0
}

#[test]
fn a_file_that_is_missing_is_status_4(rt: HostRuntime) {
    let alloc = rt.alloc();
    for (words, opened, closed) in MISSING {
        assert!(rt; misses(alloc, words, opened, closed), "{words:?}");
    }
}

/// A document with a property whose name has a line break and an escape character.
static FORGED: [File<'static>; 2] = [
    File {
        path: "m.json",
        bytes: br#"{"@context":"http://www.w3.org/ns/csvw","url":"p.csv","dc:a\n\u001b[2J\u0085b":{"@x":1}}"#,
    },
    File {
        path: "p.csv",
        bytes: b"id\n",
    },
];

#[test]
fn a_pointer_with_control_characters_is_one_line(rt: HostRuntime) {
    let end = End {
        status: 3,
        out: Just(b""),
        err: Just(b"csvw: metadata BadProperty /dc:a\\u000A\\u001B[2J\\u0085b/@x\n"),
    };
    assert!(rt; ends_so(rt.alloc(), VALIDATE, &FORGED, end));
}
