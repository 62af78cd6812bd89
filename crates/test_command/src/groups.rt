//! Groups of tables: their graphs, their reports, and the stops of runs.

use crate::runs::Sent::Just;
use crate::runs::{CONVERT, Case, End, File, HEADING, META, VALIDATE, each_ends_so};

const REQUIRED_META: &[u8] =
    br#"{"@context":"http://www.w3.org/ns/csvw","url":"p.csv","tableSchema":{"columns":[{"name":"id","required":true},{"name":"name"}]}}"#;

/// The triples of standard mode for one table without rows.
const OPENING: &[u8] =
    b"_:g <http://www.w3.org/1999/02/22-rdf-syntax-ns#type> <http://www.w3.org/ns/csvw#TableGroup> .
_:g <http://www.w3.org/ns/csvw#table> _:t1 .
_:t1 <http://www.w3.org/1999/02/22-rdf-syntax-ns#type> <http://www.w3.org/ns/csvw#Table> .
_:t1 <http://www.w3.org/ns/csvw#url> <http://example.org/p.csv> .
";

static ENDS: [Case; 5] = [
    Case {
        what: "the report of a valid group is empty",
        words: VALIDATE,
        files: &[
            File {
                path: "m.json",
                bytes: META,
            },
            File {
                path: "p.csv",
                bytes: b"id,name\n1,Ann\n",
            },
        ],
        end: End {
            status: 0,
            out: Just(HEADING),
            err: Just(b""),
        },
    },
    Case {
        what: "a graph in minimal mode",
        words: CONVERT,
        files: &[
            File {
                path: "m.json",
                bytes: META,
            },
            File {
                path: "p.csv",
                bytes: b"id,name\n1,Ann\n",
            },
        ],
        end: End {
            status: 0,
            out: Just(
                b"_:t1r1s <http://example.org/p.csv#id> \"1\" .\n_:t1r1s <http://example.org/p.csv#name> \"Ann\" .\n",
            ),
            err: Just(HEADING),
        },
    },
    Case {
        what: "a graph in standard mode, where no mode is named",
        words: "csvw convert --base http://example.org/ m.json p.csv",
        files: &[
            File {
                path: "m.json",
                bytes: META,
            },
            File {
                path: "p.csv",
                bytes: b"id\n",
            },
        ],
        end: End {
            status: 0,
            out: Just(OPENING),
            err: Just(HEADING),
        },
    },
    Case {
        what: "a fault, reported on standard output",
        words: VALIDATE,
        files: &[
            File {
                path: "m.json",
                bytes: REQUIRED_META,
            },
            File {
                path: "p.csv",
                bytes: b"id,name\n,Ann\n",
            },
        ],
        end: End {
            status: 1,
            out: Just(b"kind,code,table,row,column\nerror,Required,1,2,1\n"),
            err: Just(b""),
        },
    },
    Case {
        what: "a graph, and a fault reported on standard error",
        words: CONVERT,
        files: &[
            File {
                path: "m.json",
                bytes: REQUIRED_META,
            },
            File {
                path: "p.csv",
                bytes: b"id,name\n,Ann\n",
            },
        ],
        end: End {
            status: 1,
            out: Just(b"_:t1r1s <http://example.org/p.csv#name> \"Ann\" .\n"),
            err: Just(b"kind,code,table,row,column\nerror,Required,1,2,1\n"),
        },
    },
];

static STOPS: [Case; 9] = [
    Case {
        what: "a document that is no JSON, validated",
        words: VALIDATE,
        files: &[
            File {
                path: "m.json",
                bytes: b"{",
            },
            File {
                path: "p.csv",
                bytes: b"id\n",
            },
        ],
        end: End {
            status: 3,
            out: Just(b""),
            err: Just(b"csvw: metadata NotJson \n"),
        },
    },
    Case {
        what: "a document that is no JSON, converted",
        words: CONVERT,
        files: &[
            File {
                path: "m.json",
                bytes: b"{",
            },
            File {
                path: "p.csv",
                bytes: b"id\n",
            },
        ],
        end: End {
            status: 3,
            out: Just(b""),
            err: Just(b"csvw: metadata NotJson \n"),
        },
    },
    Case {
        what: "a ragged row, validated",
        words: VALIDATE,
        files: &[
            File {
                path: "m.json",
                bytes: META,
            },
            File {
                path: "p.csv",
                bytes: b"id\n1\n2,3\n",
            },
        ],
        end: End {
            status: 3,
            out: Just(b""),
            err: Just(b"csvw: RaggedRow table 1 row 3\n"),
        },
    },
    Case {
        what: "a ragged row, converted",
        words: CONVERT,
        files: &[
            File {
                path: "m.json",
                bytes: META,
            },
            File {
                path: "p.csv",
                bytes: b"id\n1\n2,3\n",
            },
        ],
        end: End {
            status: 3,
            out: Just(b"_:t1r1s <http://example.org/p.csv#id> \"1\" .\n"),
            err: Just(b"csvw: RaggedRow table 1 row 3\n"),
        },
    },
    Case {
        what: "two files for one table",
        words: "csvw validate --base http://example.org/ m.json p.csv p.csv",
        files: &[
            File {
                path: "m.json",
                bytes: META,
            },
            File {
                path: "p.csv",
                bytes: b"id\n",
            },
        ],
        end: End {
            status: 3,
            out: Just(b""),
            err: Just(b"csvw: TableCount\n"),
        },
    },
    Case {
        what: "the file of a table is missing, validated",
        words: VALIDATE,
        files: &[File {
            path: "m.json",
            bytes: META,
        }],
        end: End {
            status: 4,
            out: Just(b""),
            err: Just(b"csvw: Read\n"),
        },
    },
    Case {
        what: "the file of a table is missing, converted",
        words: CONVERT,
        files: &[File {
            path: "m.json",
            bytes: META,
        }],
        end: End {
            status: 4,
            out: Just(b""),
            err: Just(b"csvw: Read\n"),
        },
    },
    Case {
        what: "the document is missing, validated",
        words: VALIDATE,
        files: &[File {
            path: "p.csv",
            bytes: b"id\n",
        }],
        end: End {
            status: 4,
            out: Just(b""),
            err: Just(b"csvw: Read\n"),
        },
    },
    Case {
        what: "the document is missing, converted",
        words: CONVERT,
        files: &[File {
            path: "p.csv",
            bytes: b"id\n",
        }],
        end: End {
            status: 4,
            out: Just(b""),
            err: Just(b"csvw: Read\n"),
        },
    },
];

#[test]
fn a_group_gives_its_graph_and_a_report(rt: HostRuntime) {
    each_ends_so(&rt, rt.alloc(), &ENDS);
}

#[test]
fn stops_are_told_behind_the_rows_in_front(rt: HostRuntime) {
    each_ends_so(&rt, rt.alloc(), &STOPS);
}
