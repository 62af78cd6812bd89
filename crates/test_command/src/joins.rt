//! The reports of parts that are joined, and the sorted records of keys that are judged.

use crate::runs::Sent::Just;
use crate::runs::{Case, End, File, HEADING, each_ends_so};

/// The words that join two reports.
const REPORT: &str = "csvw report 1.csv 2.csv";

/// The words that judge records.
const KEYS: &str = "csvw keys --base http://example.org/ m.json";

/// A report with the faults of a first part.
const FIRST: File<'static> = File {
    path: "1.csv",
    bytes: b"kind,code,table,row,column\nwarning,UnknownProperty,1,0,0\nerror,BadInteger,1,4,1\n",
};

/// A document with a primary key.
const KEYED: File<'static> = File {
    path: "m.json",
    bytes: br#"{"@context":"http://www.w3.org/ns/csvw","url":"p.csv","tableSchema":{"columns":[{"name":"id"}],"primaryKey":"id"}}"#,
};

static REPORTS: [Case; 6] = [
    Case {
        what: "faults in the order of reports",
        words: REPORT,
        files: &[
            FIRST,
            File {
                path: "2.csv",
                bytes: b"kind,code,table,row,column\nerror,DuplicateKey,1,4,1\nerror,Required,1,2,1\n",
            },
        ],
        end: End {
            status: 1,
            out: Just(
                b"kind,code,table,row,column\nwarning,UnknownProperty,1,0,0\nerror,Required,1,2,1\nerror,BadInteger,1,4,1\nerror,DuplicateKey,1,4,1\n",
            ),
            err: Just(b""),
        },
    },
    Case {
        what: "no fault is an error",
        words: REPORT,
        files: &[
            File {
                path: "1.csv",
                bytes: HEADING,
            },
            File {
                path: "2.csv",
                bytes: b"kind,code,table,row,column\nwarning,UnknownProperty,1,0,0\n",
            },
        ],
        end: End {
            status: 0,
            out: Just(b"kind,code,table,row,column\nwarning,UnknownProperty,1,0,0\n"),
            err: Just(b""),
        },
    },
    Case {
        what: "a part that stopped",
        words: REPORT,
        files: &[
            FIRST,
            File {
                path: "2.csv",
                bytes: b"csvw: RaggedRow table 1 row 7\n",
            },
        ],
        end: End {
            status: 3,
            out: Just(b""),
            err: Just(b"csvw: report 2.csv: its run stopped: RaggedRow table 1 row 7\n"),
        },
    },
    Case {
        what: "a report that was cut",
        words: REPORT,
        files: &[
            FIRST,
            File {
                path: "2.csv",
                bytes: b"kind,code,table,row,column\nerror,DuplicateKey,1,4,1\nerror,Req",
            },
        ],
        end: End {
            status: 3,
            out: Just(b""),
            err: Just(b"csvw: report 2.csv: line 3 is not the line of a fault\n"),
        },
    },
    Case {
        what: "an empty file",
        words: REPORT,
        files: &[
            FIRST,
            File {
                path: "2.csv",
                bytes: b"",
            },
        ],
        end: End {
            status: 3,
            out: Just(b""),
            err: Just(b"csvw: report 2.csv: line 1 is not the heading of a report\n"),
        },
    },
    Case {
        what: "a file that there isn't",
        words: REPORT,
        files: &[FIRST],
        end: End {
            status: 4,
            out: Just(b""),
            err: Just(
                b"csvw: report 2.csv: the file can't be opened or read: No such file or directory (os error 2)\n",
            ),
        },
    },
];

static JUDGED: [Case; 7] = [
    Case {
        what: "no records",
        words: KEYS,
        files: &[
            KEYED,
            File {
                path: "-",
                bytes: b"",
            },
        ],
        end: End {
            status: 0,
            out: Just(HEADING),
            err: Just(b""),
        },
    },
    Case {
        what: "three rows with one primary key, the first of which comes second",
        words: KEYS,
        files: &[
            KEYED,
            File {
                path: "-",
                bytes: b"1,a,unique,1,20,1\n1,a,unique,1,3,1\n1,a,unique,1,7,1\n1,b,unique,1,2,1\n",
            },
        ],
        end: End {
            status: 1,
            out: Just(
                b"kind,code,table,row,column\nerror,DuplicateKey,1,20,1\nerror,DuplicateKey,1,7,1\n",
            ),
            err: Just(b""),
        },
    },
    Case {
        what: "rows that refer to none, to one and to two",
        words: KEYS,
        files: &[
            KEYED,
            File {
                path: "-",
                bytes: b"2,a,refers,2,2,3\n2,b,referenced,1,2,1\n2,b,refers,2,3,3\n2,c,referenced,1,3,1\n2,c,referenced,1,4,1\n2,c,refers,2,5,3\n3,b,refers,2,2,4\n",
            },
        ],
        end: End {
            status: 1,
            out: Just(
                b"kind,code,table,row,column\nerror,NoReferencedRow,2,2,3\nerror,ManyReferencedRows,2,5,3\nerror,NoReferencedRow,2,2,4\n",
            ),
            err: Just(b""),
        },
    },
    Case {
        what: "records that aren't sorted",
        words: KEYS,
        files: &[
            KEYED,
            File {
                path: "-",
                bytes: b"1,b,unique,1,2,1\n1,a,unique,1,3,1\n",
            },
        ],
        end: End {
            status: 3,
            out: Just(HEADING),
            err: Just(
                b"csvw: keys line 2: the lines are not in byte order: sort them with LC_ALL=C sort\n",
            ),
        },
    },
    Case {
        what: "a record that was cut",
        words: KEYS,
        files: &[
            KEYED,
            File {
                path: "-",
                bytes: b"1,a,unique,1,2,1\n1,b,unique,1,3",
            },
        ],
        end: End {
            status: 3,
            out: Just(HEADING),
            err: Just(
                b"csvw: keys line 2: the last line has no line feed: the file was cut off, write it again\n",
            ),
        },
    },
    Case {
        what: "a document that isn't one",
        words: KEYS,
        files: &[
            File {
                path: "m.json",
                bytes: b"{",
            },
            File {
                path: "-",
                bytes: b"",
            },
        ],
        end: End {
            status: 3,
            out: Just(b""),
            err: Just(b"csvw: metadata NotJson \n"),
        },
    },
    Case {
        what: "standard input twice",
        words: "csvw keys --base http://example.org/ -",
        files: &[],
        end: End {
            status: 2,
            out: Just(b""),
            err: Just(b"csvw: standard input is named for two files, and can be read for one\n"),
        },
    },
];

#[test]
fn reports_are_joined(rt: HostRuntime) {
    let alloc = rt.alloc();
    each_ends_so(&rt, alloc, &REPORTS);
}

#[test]
fn records_are_judged(rt: HostRuntime) {
    let alloc = rt.alloc();
    each_ends_so(&rt, alloc, &JUDGED);
}
