//! One table without metadata: its graph, its faults, and the stops of runs.

use crate::runs::Sent::Just;
use crate::runs::{Case, End, File, HEADING, PLAIN, each_ends_so};

static ENDS: [Case; 4] = [
    Case {
        what: "a triple for each cell",
        words: PLAIN,
        files: &[File {
            path: "p.csv",
            bytes: b"id,name\n1,Ann\n",
        }],
        end: End {
            status: 0,
            out: Just(
                b"_:t1r1s <http://example.org/p.csv#id> \"1\" .\n_:t1r1s <http://example.org/p.csv#name> \"Ann\" .\n",
            ),
            err: Just(HEADING),
        },
    },
    Case {
        what: "quotes and line breaks are escaped",
        words: PLAIN,
        files: &[File {
            path: "p.csv",
            bytes: b"a,b\n\"p\"\"q\",\"x\ny\"\n",
        }],
        end: End {
            status: 0,
            out: Just(
                b"_:t1r1s <http://example.org/p.csv#a> \"p\\\"q\" .\n_:t1r1s <http://example.org/p.csv#b> \"x\\ny\" .\n",
            ),
            err: Just(HEADING),
        },
    },
    Case {
        what: "an empty file lacks its header",
        words: PLAIN,
        files: &[File {
            path: "p.csv",
            bytes: b"",
        }],
        end: End {
            status: 1,
            out: Just(b""),
            err: Just(b"kind,code,table,row,column\nerror,HeaderMissing,1,0,0\n"),
        },
    },
    Case {
        what: "a file with a comment alone lacks its header",
        words: PLAIN,
        files: &[File {
            path: "p.csv",
            bytes: b"# x\n",
        }],
        end: End {
            status: 1,
            out: Just(b""),
            err: Just(b"kind,code,table,row,column\nerror,HeaderMissing,1,0,0\n"),
        },
    },
];

static STOPS: [Case; 8] = [
    Case {
        what: "a quote within a field without quotes",
        words: PLAIN,
        files: &[File {
            path: "p.csv",
            bytes: b"a\"b,c\n",
        }],
        end: End {
            status: 3,
            out: Just(b""),
            err: Just(b"csvw: BadQuote table 1 row 1\n"),
        },
    },
    Case {
        what: "text behind a closing quote",
        words: PLAIN,
        files: &[File {
            path: "p.csv",
            bytes: b"\"a\"b\n",
        }],
        end: End {
            status: 3,
            out: Just(b""),
            err: Just(b"csvw: TextAfterQuote table 1 row 1\n"),
        },
    },
    Case {
        what: "a quote that is not closed",
        words: PLAIN,
        files: &[File {
            path: "p.csv",
            bytes: b"x\n\"a",
        }],
        end: End {
            status: 3,
            out: Just(b""),
            err: Just(b"csvw: UnclosedQuote table 1 row 2\n"),
        },
    },
    Case {
        what: "bytes that are no text",
        words: PLAIN,
        files: &[File {
            path: "p.csv",
            bytes: b"x\n\xff",
        }],
        end: End {
            status: 3,
            out: Just(b""),
            err: Just(b"csvw: NotUtf8 table 1 row 2\n"),
        },
    },
    Case {
        what: "a ragged row behind another",
        words: PLAIN,
        files: &[File {
            path: "p.csv",
            bytes: b"id\n1\n2,3\n",
        }],
        end: End {
            status: 3,
            out: Just(b"_:t1r1s <http://example.org/p.csv#id> \"1\" .\n"),
            err: Just(b"csvw: RaggedRow table 1 row 3\n"),
        },
    },
    Case {
        what: "a name that stands twice in the header",
        words: PLAIN,
        files: &[File {
            path: "p.csv",
            bytes: b"a,a\n",
        }],
        end: End {
            status: 3,
            out: Just(b""),
            err: Just(b"csvw: DuplicateName table 1 row 1\n"),
        },
    },
    Case {
        what: "a URL that is none",
        words: "csvw plain p.csv p.csv",
        files: &[File {
            path: "p.csv",
            bytes: b"a\n1\n",
        }],
        end: End {
            status: 3,
            out: Just(b""),
            err: Just(b"csvw: metadata BadUrl /url\n"),
        },
    },
    Case {
        what: "a file that is missing",
        words: "csvw plain http://example.org/p.csv missing.csv",
        files: &[],
        end: End {
            status: 4,
            out: Just(b""),
            err: Just(b"csvw: Read\n"),
        },
    },
];

#[test]
fn a_table_gives_its_graph_and_a_report(rt: HostRuntime) {
    each_ends_so(&rt, rt.alloc(), &ENDS);
}

#[test]
fn stops_are_told_behind_the_rows_in_front(rt: HostRuntime) {
    each_ends_so(&rt, rt.alloc(), &STOPS);
}
