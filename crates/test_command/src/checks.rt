//! Checks of groups, and explanations of codes.

use crate::runs::Sent::{Just, SomeText};
use crate::runs::{Case, End, File, META, each_ends_so};

const CHECK: &str = "csvw check --base http://example.org/ m.json p.csv";

const TYPED: &[u8] =
    br#"{"@context":"http://www.w3.org/ns/csvw","url":"p.csv","tableSchema":{"columns":[{"name":"id","required":true},{"name":"n","datatype":"integer"}]}}"#;

const FAULTS: &[u8] =
    br#"p.csv:2 (row 1), column 1 "id": Required: "": a cell that is required has no value: fill it in
    ,1\u000A2
    ^
p.csv:2 (row 1), column 2 "n": BadInteger: "1\u000A2": the text is no integer: write digits, with a sign where needed
    ,1\u000A2
     ^^^^^^^^
    datatype integer
p.csv:4 (row 2), column 2 "n": BadInteger: "x": the text is no integer: write digits, with a sign where needed
    7,x
      ^
    datatype integer
table 1: p.csv: 3 records
  Required: 1 in table 1, column 1
  BadInteger: 2 in table 1, column 2
not valid
"#;

const RAGGED: &[u8] =
    b"p.csv:2: RaggedRow: the row doesn't have one field for each column: add or remove fields; for a blank line write `skipBlankRows`
    the row has 2 fields
table 1: p.csv: 2 records
not read to its end
";

const MISSING: &[u8] =
    b"p.csv: Read: the file can't be opened or read: correct its path, or its permissions
    the system says: No such file or directory (os error 2)
table 1: p.csv: 0 records
not read to its end
";

/// A document whose table has a key of one decimal, after a column that is skipped.
const KEYED: &[u8] =
    br#"{"@context":"http://www.w3.org/ns/csvw","url":"p.csv","dialect":{"skipColumns":1},
"tableSchema":{"columns":[{"name":"id","datatype":"decimal"},{"name":"n"}],"primaryKey":"id"}}"#;

/// The first rows of two keys begin at lines 2 and 5. The first of them has a line break in its skipped cell.
const KEYED_ROWS: &[u8] = b"x,id,n\n\"a\nb\",1,1\nx,1.0,2\nx,2,3\nx,1.00,4\nx,2.0,5\n";

const REPEATED: &[u8] =
    br#"p.csv:4 (row 2), column 1 "id": DuplicateKey: "1.0": an earlier row has the same primary key: change one of them
    x,1.0,2
      ^^^
    column 2 of the file, since skipColumns is 1
    primary key: column 1 "id"
    the first row with this key: p.csv:2 (row 1)
p.csv:6 (row 4), column 1 "id": DuplicateKey: "1.00": an earlier row has the same primary key: change one of them
    x,1.00,4
      ^^^^
    column 2 of the file, since skipColumns is 1
    primary key: column 1 "id"
    the first row with this key: p.csv:2 (row 1)
p.csv:7 (row 5), column 1 "id": DuplicateKey: "2.0": an earlier row has the same primary key: change one of them
    x,2.0,5
      ^^^
    column 2 of the file, since skipColumns is 1
    primary key: column 1 "id"
    the first row with this key: p.csv:5 (row 3)
table 1: p.csv: 6 records
  DuplicateKey: 3 in table 1, column 1
not valid
"#;

/// A document with four faults.
const FOUR: &[u8] = br#"{"@context":"http://www.w3.org/ns/csvw",
"dialect":{"header":1},
"url":1,
"tableSchema":{"columns":[{"name":"a"},{"name":"a"}],
"primaryKey":"b"}}
"#;

const FOUR_FAULTS: &[u8] =
    b"m.json:2:12: /dialect/header: BadProperty: a value is of a wrong kind, or a property is missing
m.json:3:1: /url: BadProperty: a value is of a wrong kind, or a property is missing
m.json:4:40: /tableSchema/columns/1: DuplicateName: two columns of a table have one name: rename one of them
m.json:5:1: /tableSchema/primaryKey: BadReference: a key names a column or a table that is not there
    the table has no column with the name \"b\": the columns of the table are \"a\", \"a\"
";

/// A document with a misspelled property and a fault.
const MISSPELLED: &[u8] = br#"{"@context":"http://www.w3.org/ns/csvw",
"dialect":{"delimeter":";"},
"url":1}
"#;

const MISSPELLED_FAULTS: &[u8] =
    b"m.json:2:12: /dialect/delimeter: warning: UnknownProperty: \"delimeter\" isn't a property of a dialect: did you mean \"delimiter\"?
m.json:3:1: /url: BadProperty: a value is of a wrong kind, or a property is missing
";

static CHECKS: [Case; 8] = [
    Case {
        what: "a valid group",
        words: CHECK,
        files: &[
            File {
                path: "m.json",
                bytes: META,
            },
            File {
                path: "p.csv",
                bytes: b"id\n1\n",
            },
        ],
        end: End {
            status: 0,
            out: Just(b"table 1: p.csv: 2 records\nvalid\n"),
            err: Just(b""),
        },
    },
    Case {
        what: "faults of cells, with their lines",
        words: CHECK,
        files: &[
            File {
                path: "m.json",
                bytes: TYPED,
            },
            File {
                path: "p.csv",
                bytes: b"id,n\n,\"1\n2\"\n7,x\n",
            },
        ],
        end: End {
            status: 1,
            out: Just(FAULTS),
            err: Just(b""),
        },
    },
    Case {
        what: "keys that are repeated, each with its first row, behind a column that is skipped",
        words: CHECK,
        files: &[
            File {
                path: "m.json",
                bytes: KEYED,
            },
            File {
                path: "p.csv",
                bytes: KEYED_ROWS,
            },
        ],
        end: End {
            status: 1,
            out: Just(REPEATED),
            err: Just(b""),
        },
    },
    Case {
        what: "a stop",
        words: CHECK,
        files: &[
            File {
                path: "m.json",
                bytes: META,
            },
            File {
                path: "p.csv",
                bytes: b"id\n1,2\n",
            },
        ],
        end: End {
            status: 3,
            out: Just(RAGGED),
            err: Just(b""),
        },
    },
    Case {
        what: "a document without a context",
        words: CHECK,
        files: &[File {
            path: "m.json",
            bytes: b"{}",
        }],
        end: End {
            status: 3,
            out: Just(
                b"m.json:1:1: BadContext: `@context` is not that of CSVW: `http://www.w3.org/ns/csvw`
m.json:1:1: BadProperty: a value is of a wrong kind, or a property is missing
    the property \"url\" is missing
",
            ),
            err: Just(b""),
        },
    },
    Case {
        what: "a document with four faults, in the order of their places",
        words: CHECK,
        files: &[File {
            path: "m.json",
            bytes: FOUR,
        }],
        end: End {
            status: 3,
            out: Just(FOUR_FAULTS),
            err: Just(b""),
        },
    },
    Case {
        what: "a document with an unknown property and a fault",
        words: CHECK,
        files: &[File {
            path: "m.json",
            bytes: MISSPELLED,
        }],
        end: End {
            status: 3,
            out: Just(MISSPELLED_FAULTS),
            err: Just(b""),
        },
    },
    Case {
        what: "a file beside the document that isn't there",
        words: "csvw check m.json",
        files: &[File {
            path: "m.json",
            bytes: META,
        }],
        end: End {
            status: 4,
            out: Just(MISSING),
            err: Just(b""),
        },
    },
];

#[test]
fn groups_are_checked(rt: HostRuntime) {
    each_ends_so(&rt, rt.alloc(), &CHECKS);
}

static EXPLANATIONS: [Case; 3] = [
    Case {
        what: "all codes",
        words: "csvw explain",
        files: &[],
        end: End {
            status: 0,
            out: SomeText,
            err: Just(b""),
        },
    },
    Case {
        what: "a code",
        words: "csvw explain Write",
        files: &[],
        end: End {
            status: 0,
            out: Just(
                b"Write (stop)\n\nA write to standard output or standard error failed, as on a full disk or a broken pipe.\n\nInstead: Make room where the output goes, and begin anew.\n\n",
            ),
            err: Just(b""),
        },
    },
    Case {
        what: "a code that there isn't",
        words: "csvw explain Nothing",
        files: &[],
        end: End {
            status: 2,
            out: Just(b""),
            err: Just(b"csvw: there is no such code; `csvw explain` lists them\n"),
        },
    },
];

#[test]
fn codes_are_explained(rt: HostRuntime) {
    each_ends_so(&rt, rt.alloc(), &EXPLANATIONS);
}
