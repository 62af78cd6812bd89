//! Schemas and dialects in files of their own, by `--resource`.

use crate::runs::Sent::{Just, SomeText};
use crate::runs::{Case, End, File, HEADING, each_ends_so};

/// A document that names its schema by a URL, the schema, another one that is wrong, and a table.
const LINKED: &[File<'static>] = &[
    File {
        path: "m.json",
        bytes: br#"{"@context":"http://www.w3.org/ns/csvw","url":"p.csv","tableSchema":"s.json"}"#,
    },
    File {
        path: "x/s.json",
        bytes: br#"{"columns":[{"name":"a","datatype":"integer"}],"primaryKey":"a"}"#,
    },
    File {
        path: "wrong.json",
        bytes: br#"{"columns":[{"name":"a b"}]}"#,
    },
    File {
        path: "p.csv",
        bytes: b"a\n01\n",
    },
];

/// The graph of the table in minimal mode.
const GRAPH: &[u8] =
    b"_:t1r1s <http://example.org/p.csv#a> \"1\"^^<http://www.w3.org/2001/XMLSchema#integer> .\n";

/// The page of a check of the document with the wrong schema. The place is that of the URL.
const WRONG: &[u8] =
    b"m.json:1:55: /tableSchema/columns/0/name: BadName: a column's name has a `_` in front, or a wrong character
    the fault is in the file of s.json
";

/// The page of a check without the file of the schema.
const NONE: &[u8] =
    b"m.json:1:55: /tableSchema: NotSupported: this part of the vocabulary is not supported: leave it out
    give its file: --profile w3c --resource URL=FILE, where URL is the absolute URL of s.json
";

/// The page of a check of a schema whose file there isn't.
const UNREAD: &[u8] =
    b"none.json: Read: the file can't be opened or read: correct its path, or its permissions
    the system says: No such file or directory (os error 2)
";

/// What a split says of it.
const UNREAD_SPLIT: &[u8] =
    b"csvw: none.json: the file can't be opened or read: No such file or directory (os error 2)\ncsvw: Read\n";

/// The line of a stop at a URL that isn't absolute.
const RELATIVE: &[u8] = b"csvw: metadata BadUrl \n";

static RUNS: [Case; 18] = [
    Case {
        what: "a resource, validated",
        words: "csvw validate --profile w3c --resource http://example.org/s.json=x/s.json --base http://example.org/ m.json p.csv",
        files: LINKED,
        end: End {
            status: 0,
            out: Just(HEADING),
            err: Just(b""),
        },
    },
    Case {
        what: "a resource, converted",
        words: "csvw convert --minimal --profile w3c --resource http://example.org/s.json=x/s.json --base http://example.org/ m.json p.csv",
        files: LINKED,
        end: End {
            status: 0,
            out: Just(GRAPH),
            err: Just(HEADING),
        },
    },
    Case {
        what: "a resource, in two words as one",
        words: "csvw convert --minimal --profile w3c --resource=http://example.org/s.json=x/s.json --base http://example.org/ m.json p.csv",
        files: LINKED,
        end: End {
            status: 0,
            out: Just(GRAPH),
            err: Just(HEADING),
        },
    },
    Case {
        what: "two resources, the second of which is used",
        words: "csvw validate --profile w3c --resource http://example.org/t.json=p.csv --resource http://example.org/s.json=x/s.json --base http://example.org/ m.json p.csv",
        files: LINKED,
        end: End {
            status: 0,
            out: Just(HEADING),
            err: Just(b""),
        },
    },
    Case {
        what: "a resource, with a report as JSON",
        words: "csvw validate --report json --profile w3c --resource http://example.org/s.json=x/s.json --base http://example.org/ m.json p.csv",
        files: LINKED,
        end: End {
            status: 0,
            out: Just(b"[\n]\n"),
            err: Just(b""),
        },
    },
    Case {
        what: "a resource, checked",
        words: "csvw check --profile w3c --resource http://example.org/s.json=x/s.json --base http://example.org/m.json m.json p.csv",
        files: LINKED,
        end: End {
            status: 0,
            out: Just(b"table 1: p.csv: 2 records\nvalid\n"),
            err: Just(b""),
        },
    },
    Case {
        what: "a resource, inspected",
        words: "csvw inspect --profile w3c --resource http://example.org/s.json=x/s.json --base http://example.org/m.json m.json",
        files: LINKED,
        end: End {
            status: 0,
            out: SomeText,
            err: Just(b""),
        },
    },
    Case {
        what: "a resource, split",
        words: "csvw split --parts 1 --profile w3c --resource http://example.org/s.json=x/s.json --base http://example.org/ m.json p.csv",
        files: LINKED,
        end: End {
            status: 0,
            out: SomeText,
            err: Just(b""),
        },
    },
    Case {
        what: "no resource",
        words: "csvw validate --profile w3c --base http://example.org/ m.json p.csv",
        files: LINKED,
        end: End {
            status: 3,
            out: Just(b""),
            err: Just(b"csvw: metadata NotSupported /tableSchema\n"),
        },
    },
    Case {
        what: "a resource of another URL",
        words: "csvw validate --profile w3c --resource http://example.org/x/s.json=x/s.json --base http://example.org/ m.json p.csv",
        files: LINKED,
        end: End {
            status: 3,
            out: Just(b""),
            err: Just(b"csvw: metadata NotSupported /tableSchema\n"),
        },
    },
    Case {
        what: "a resource that is no JSON",
        words: "csvw validate --profile w3c --resource http://example.org/s.json=p.csv --base http://example.org/ m.json p.csv",
        files: LINKED,
        end: End {
            status: 3,
            out: Just(b""),
            err: Just(b"csvw: metadata NotJson /tableSchema\n"),
        },
    },
    Case {
        what: "a fault in a resource",
        words: "csvw validate --profile w3c --resource http://example.org/s.json=wrong.json --base http://example.org/ m.json p.csv",
        files: LINKED,
        end: End {
            status: 3,
            out: Just(b""),
            err: Just(b"csvw: metadata BadName /tableSchema/columns/0/name\n"),
        },
    },
    Case {
        what: "a fault in a resource, checked",
        words: "csvw check --profile w3c --resource http://example.org/s.json=wrong.json --base http://example.org/m.json m.json p.csv",
        files: LINKED,
        end: End {
            status: 3,
            out: Just(WRONG),
            err: Just(b""),
        },
    },
    Case {
        what: "no resource, checked",
        words: "csvw check --base http://example.org/m.json m.json p.csv",
        files: LINKED,
        end: End {
            status: 3,
            out: Just(NONE),
            err: Just(b""),
        },
    },
    Case {
        what: "a resource that can't be read",
        words: "csvw validate --profile w3c --resource http://example.org/s.json=none.json --base http://example.org/ m.json p.csv",
        files: LINKED,
        end: End {
            status: 4,
            out: Just(b""),
            err: Just(b"csvw: Read\n"),
        },
    },
    Case {
        what: "a resource that can't be read, checked",
        words: "csvw check --profile w3c --resource http://example.org/s.json=none.json --base http://example.org/m.json m.json p.csv",
        files: LINKED,
        end: End {
            status: 4,
            out: Just(UNREAD),
            err: Just(b""),
        },
    },
    Case {
        what: "a resource that can't be read, split",
        words: "csvw split --parts 1 --profile w3c --resource http://example.org/s.json=none.json --base http://example.org/ m.json p.csv",
        files: LINKED,
        end: End {
            status: 4,
            out: Just(b""),
            err: Just(UNREAD_SPLIT),
        },
    },
    Case {
        what: "a resource whose URL isn't absolute",
        words: "csvw validate --profile w3c --resource s.json=x/s.json --base http://example.org/ m.json p.csv",
        files: LINKED,
        end: End {
            status: 3,
            out: Just(b""),
            err: Just(RELATIVE),
        },
    },
];

static MISTAKES: [Case; 6] = [
    Case {
        what: "a resource without a file",
        words: "csvw validate --profile w3c --resource http://example.org/s.json --base http://example.org/ m.json p.csv",
        files: &[],
        end: End {
            status: 2,
            out: Just(b""),
            err: Just(b"csvw: --resource takes URL=FILE\n"),
        },
    },
    Case {
        what: "a resource with an empty file",
        words: "csvw check --profile w3c --resource http://example.org/s.json= m.json",
        files: &[],
        end: End {
            status: 2,
            out: Just(b""),
            err: Just(b"csvw: --resource takes URL=FILE\n"),
        },
    },
    Case {
        what: "a resource with an empty URL",
        words: "csvw inspect --profile w3c --resource =s.json m.json",
        files: &[],
        end: End {
            status: 2,
            out: Just(b""),
            err: Just(b"csvw: --resource takes URL=FILE\n"),
        },
    },
    Case {
        what: "a resource on standard input",
        words: "csvw keys --profile w3c --resource http://example.org/s.json=- --base http://example.org/ m.json",
        files: &[],
        end: End {
            status: 2,
            out: Just(b""),
            err: Just(b"csvw: --resource can't read standard input\n"),
        },
    },
    Case {
        what: "a resource without the profile",
        words: "csvw validate --resource http://example.org/s.json=x/s.json --base http://example.org/ m.json p.csv",
        files: &[],
        end: End {
            status: 2,
            out: Just(b""),
            err: Just(b"csvw: --resource needs --profile w3c\n"),
        },
    },
    Case {
        what: "a resource with the profile core",
        words: "csvw convert --profile core --resource http://example.org/s.json=x/s.json --base http://example.org/ m.json p.csv",
        files: &[],
        end: End {
            status: 2,
            out: Just(b""),
            err: Just(b"csvw: --resource needs --profile w3c\n"),
        },
    },
];

#[test]
fn resources_take_the_place_of_their_urls(rt: HostRuntime) {
    each_ends_so(&rt, rt.alloc(), &RUNS);
}

#[test]
fn other_words_are_mistakes(rt: HostRuntime) {
    each_ends_so(&rt, rt.alloc(), &MISTAKES);
}
