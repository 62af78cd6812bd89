//! Stops of one table without metadata and of a look at a document, with and without their explanation.

use crate::runs::Sent::{Just, SomeText};
use crate::runs::{Case, End, File, HEADING, each_ends_so};

/// The words that convert one table without a document, and explain a stop.
const PLAIN: &str = "csvw plain --explain http://example.org/p.csv p.csv";

static TABLES: [Case; 10] = [
    Case {
        what: "a file that is missing, explained",
        words: PLAIN,
        files: &[],
        end: End {
            status: 4,
            out: Just(b""),
            err: Just(
                b"csvw: Read\np.csv: Read: the file can't be opened or read: correct its path, or its permissions\n    the system says: No such file or directory (os error 2)\n",
            ),
        },
    },
    Case {
        what: "a file that is missing",
        words: "csvw plain http://example.org/p.csv p.csv",
        files: &[],
        end: End {
            status: 4,
            out: Just(b""),
            err: Just(b"csvw: Read\n"),
        },
    },
    Case {
        what: "a file that is missing and a URL that is none, explained",
        words: "csvw plain --explain p.csv p.csv",
        files: &[],
        end: End {
            status: 4,
            out: Just(b""),
            err: Just(
                b"csvw: Read\np.csv: Read: the file can't be opened or read: correct its path, or its permissions\n    the system says: No such file or directory (os error 2)\n",
            ),
        },
    },
    Case {
        what: "a URL that is none, explained",
        words: "csvw plain --explain p.csv p.csv",
        files: &[File {
            path: "p.csv",
            bytes: b"a\n1\n",
        }],
        end: End {
            status: 3,
            out: Just(b""),
            err: Just(
                b"csvw: metadata BadUrl /url\nBadUrl: the text is no URL: correct it\n    p.csv is no absolute URL: write one, as in `csvw plain http://example.org/t.csv t.csv`\n",
            ),
        },
    },
    Case {
        what: "a ragged row, explained",
        words: PLAIN,
        files: &[File {
            path: "p.csv",
            bytes: b"id\n\"1\n\"\n2,3\n",
        }],
        end: End {
            status: 3,
            out: Just(b"_:t1r1s <http://example.org/p.csv#id> \"1\\n\" .\n"),
            err: Just(
                b"csvw: RaggedRow table 1 row 3\np.csv:4: RaggedRow: the row doesn't have one field for each column: add or remove fields; for a blank line write `skipBlankRows`\n    the row has 2 fields\n",
            ),
        },
    },
    Case {
        what: "a file with semicolons, explained",
        words: PLAIN,
        files: &[File {
            path: "p.csv",
            bytes: b"id;price\n1;2,50\n",
        }],
        end: End {
            status: 3,
            out: Just(b""),
            err: Just(
                b"csvw: RaggedRow table 1 row 2\np.csv:2: RaggedRow: the row doesn't have one field for each column: add or remove fields; for a blank line write `skipBlankRows`\n    the row has 2 fields\n    its first line has `;`: write `\"dialect\": {\"delimiter\": \";\"}`\n    a metadata document has the dialect: `csvw draft` writes one, and `csvw convert` reads it\n",
            ),
        },
    },
    Case {
        what: "a file in UTF-16, explained",
        words: PLAIN,
        files: &[File {
            path: "p.csv",
            bytes: b"\xFF\xFEi\x00d\x00\n\x00",
        }],
        end: End {
            status: 3,
            out: Just(b""),
            err: Just(
                b"csvw: NotUtf8 table 1 row 1\np.csv:1: NotUtf8: the bytes are no text in UTF-8: save the file as UTF-8\np.csv: the file is in UTF-16: save it as UTF-8\n",
            ),
        },
    },
    Case {
        what: "a file by gzip, explained",
        words: PLAIN,
        files: &[File {
            path: "p.csv",
            bytes: b"\x1F\x8B\x08\x00",
        }],
        end: End {
            status: 3,
            out: Just(b""),
            err: Just(
                b"csvw: NotUtf8 table 1 row 1\np.csv:1: NotUtf8: the bytes are no text in UTF-8: save the file as UTF-8\np.csv: the file is compressed by gzip: decompress it first\n",
            ),
        },
    },
    Case {
        what: "a run without a stop has nothing to explain",
        words: PLAIN,
        files: &[File {
            path: "p.csv",
            bytes: b"id\n1\n",
        }],
        end: End {
            status: 0,
            out: Just(b"_:t1r1s <http://example.org/p.csv#id> \"1\" .\n"),
            err: Just(HEADING),
        },
    },
    Case {
        what: "nor has a fault",
        words: PLAIN,
        files: &[File {
            path: "p.csv",
            bytes: b"",
        }],
        end: End {
            status: 1,
            out: Just(b""),
            err: Just(b"kind,code,table,row,column\nerror,HeaderMissing,1,0,0\n"),
        },
    },
];

/// A document that isn't JSON, one with two faults, and one without a fault.
const DOCUMENTS: &[File<'static>] = &[
    File {
        path: "text.json",
        bytes: b"{\n \"url\" 7}",
    },
    File {
        path: "faulty.json",
        bytes: b"{\"@context\": \"http://www.w3.org/ns/csvw\",\n \"url\": \"p.csv\",\n \"dialect\": 7,\n \"tableSchema\": {\"columns\": [{\"name\": \"_a\"}]}}",
    },
    File {
        path: "typed.json",
        bytes: b"{\"@context\": \"http://www.w3.org/ns/csvw\", \"url\": \"p.csv\", \"tableSchema\": {\"columns\": [{\"name\": \"a\", \"datatype\": \"token\"}]}}",
    },
    File {
        path: "sound.json",
        bytes: b"{\"@context\": \"http://www.w3.org/ns/csvw\", \"url\": \"p.csv\"}",
    },
];

static LOOKS: [Case; 8] = [
    Case {
        what: "a document that is missing, explained",
        words: "csvw inspect --explain m.json",
        files: DOCUMENTS,
        end: End {
            status: 4,
            out: Just(b""),
            err: Just(
                b"csvw: Read\nm.json: Read: the file can't be opened or read: correct its path, or its permissions\n    the system says: No such file or directory (os error 2)\n",
            ),
        },
    },
    Case {
        what: "a document that is missing",
        words: "csvw inspect m.json",
        files: DOCUMENTS,
        end: End {
            status: 4,
            out: Just(b""),
            err: Just(b"csvw: Read\n"),
        },
    },
    Case {
        what: "a document that isn't JSON, explained",
        words: "csvw inspect --explain text.json",
        files: DOCUMENTS,
        end: End {
            status: 3,
            out: Just(b""),
            err: SomeText,
        },
    },
    Case {
        what: "a document with two faults, explained",
        words: "csvw inspect --explain --base http://example.org/faulty.json faulty.json",
        files: DOCUMENTS,
        end: End {
            status: 3,
            out: Just(b""),
            err: SomeText,
        },
    },
    Case {
        what: "a document with two faults",
        words: "csvw inspect --base http://example.org/faulty.json faulty.json",
        files: DOCUMENTS,
        end: End {
            status: 3,
            out: Just(b""),
            err: SomeText,
        },
    },
    Case {
        what: "a document in another profile, explained",
        words: "csvw inspect --explain typed.json",
        files: DOCUMENTS,
        end: End {
            status: 3,
            out: Just(b""),
            err: SomeText,
        },
    },
    Case {
        what: "a base that isn't absolute, explained",
        words: "csvw inspect --explain --base sound.json sound.json",
        files: DOCUMENTS,
        end: End {
            status: 3,
            out: Just(b""),
            err: SomeText,
        },
    },
    Case {
        what: "a document without a fault has nothing to explain",
        words: "csvw inspect --explain sound.json",
        files: DOCUMENTS,
        end: End {
            status: 0,
            out: SomeText,
            err: Just(b""),
        },
    },
];

/// A document of two tables, and their files.
const PAIR: &[File<'static>] = &[
    File {
        path: "m.json",
        bytes: br#"{"@context":"http://www.w3.org/ns/csvw","tables":[
{"url":"a.csv","tableSchema":{"columns":[{"name":"a"}]}},
{"url":"b.csv","tableSchema":{"columns":[{"name":"b"},{"name":"c"}]}}]}"#,
    },
    File {
        path: "a.csv",
        bytes: b"a\n1\n",
    },
    File {
        path: "b.csv",
        bytes: b"b,c\n1,2\n",
    },
];

const SWAPPED: &[u8] = b"csvw: RaggedRow table 1 row 2
b.csv:2: RaggedRow: the row doesn't have one field for each column: add or remove fields; for a blank line write `skipBlankRows`
    the row has 2 fields
    the files look swapped: by their URLs table 1 has a.csv, and table 2 has b.csv
";

static GROUPS: [Case; 1] = [Case {
    what: "files that are swapped, explained",
    words: "csvw validate --explain --base http://example.org/ m.json b.csv a.csv",
    files: PAIR,
    end: End {
        status: 3,
        out: Just(b""),
        err: Just(SWAPPED),
    },
}];

#[test]
fn stops_of_a_group_are_explained(rt: HostRuntime) {
    each_ends_so(&rt, rt.alloc(), &GROUPS);
}

#[test]
fn stops_of_a_table_are_explained(rt: HostRuntime) {
    each_ends_so(&rt, rt.alloc(), &TABLES);
}

#[test]
fn stops_of_a_look_are_explained(rt: HostRuntime) {
    each_ends_so(&rt, rt.alloc(), &LOOKS);
}
