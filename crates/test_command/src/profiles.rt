//! The profiles of a document: datatypes that the profile w3c alone has, and names of profiles.

use crate::runs::Sent::{Just, SomeText};
use crate::runs::{CONVERT, Case, End, File, HEADING, VALIDATE, each_ends_so};

/// A document with datatypes of the profile w3c, and a table with spaces in each cell.
const TYPED: &[File<'static>] = &[
    File {
        path: "m.json",
        bytes: br#"{"@context":"http://www.w3.org/ns/csvw","url":"p.csv","tableSchema":{"columns":[{"name":"j","datatype":"json"},{"name":"x","datatype":"xml"},{"name":"t","datatype":"token"}]}}"#,
    },
    File {
        path: "p.csv",
        bytes: b"j,x,t\n\"{\"\"a\"\":  1} \", <b>  c</b> , u  v \n",
    },
];

/// Its graph in minimal mode. White space is kept in JSON and XML, and collapses in a token.
const GRAPH: &[u8] =
    br#"_:t1r1s <http://example.org/p.csv#j> "{\"a\":  1} "^^<http://www.w3.org/ns/csvw#JSON> .
_:t1r1s <http://example.org/p.csv#x> " <b>  c</b> "^^<http://www.w3.org/1999/02/22-rdf-syntax-ns#XMLLiteral> .
_:t1r1s <http://example.org/p.csv#t> "u v"^^<http://www.w3.org/2001/XMLSchema#token> .
"#;

/// The line of the stop in the profile core.
const STOP: &[u8] = b"csvw: metadata NotSupported /tableSchema/columns/0/datatype\n";

/// The page of a check in the profile core.
const PAGE: &[u8] =
    b"m.json:1:93: /tableSchema/columns/0/datatype: NotSupported: this part of the vocabulary is not supported: leave it out
    the profile w3c has the datatype json: write `--profile w3c`
m.json:1:124: /tableSchema/columns/1/datatype: NotSupported: this part of the vocabulary is not supported: leave it out
    the profile w3c has the datatype xml: write `--profile w3c`
m.json:1:154: /tableSchema/columns/2/datatype: NotSupported: this part of the vocabulary is not supported: leave it out
    the profile w3c has the datatype token: write `--profile w3c`
";

/// A document with regular expressions, and texts that they don't describe.
const DESCRIBED: &[File<'static>] = &[
    File {
        path: "m.json",
        bytes: br#"{"@context":"http://www.w3.org/ns/csvw","url":"p.csv","tableSchema":{"columns":[{"name":"s","datatype":{"format":"[0-9]{3}"}},{"name":"l","datatype":{"base":"language","format":"[a-z]{2}"}}]}}"#,
    },
    File {
        path: "p.csv",
        bytes: b"s,l\n123,en\n1234,en-GB\n",
    },
];

/// The page of a check of them.
const UNDESCRIBED: &[u8] =
    br#"p.csv:3 (row 2), column 1 "s": BadText: "1234": the text is none of its datatype: write it as the datatype asks
    1234,en-GB
    ^^^^
    the text doesn't match the regular expression `[0-9]{3}`
p.csv:3 (row 2), column 2 "l": BadText: "en-GB": the text is none of its datatype: write it as the datatype asks
    1234,en-GB
         ^^^^^
    datatype language, regular expression `[a-z]{2}`
table 1: p.csv: 3 records
  BadText: 1 in table 1, column 1
  BadText: 1 in table 1, column 2
not valid
"#;

/// A table with doubles and moments with a space.
const DRAFTED: &[File<'static>] = &[File {
    path: "p.csv",
    bytes: b"d,m\n1e5,31/01/2020 08:30\n",
}];

/// Its document in the profile w3c.
const DRAFT: &[u8] = br#"{
  "@context": "http://www.w3.org/ns/csvw",
  "url": "p.csv",
  "tableSchema": {
    "columns": [
      {
        "name": "d",
        "titles": "d",
        "datatype": "double",
        "required": true
      },
      {
        "name": "m",
        "titles": "m",
        "datatype": {
          "base": "dateTime",
          "format": "dd/MM/yyyy HH:mm"
        },
        "required": true
      }
    ],
    "primaryKey": "d"
  }
}
"#;

/// Its document in the profile core.
const CORE_DRAFT: &[u8] = br#"{
  "@context": "http://www.w3.org/ns/csvw",
  "url": "p.csv",
  "tableSchema": {
    "columns": [
      {
        "name": "d",
        "titles": "d",
        "required": true
      },
      {
        "name": "m",
        "titles": "m",
        "required": true
      }
    ],
    "primaryKey": "d"
  }
}
"#;

/// A document whose format is no regular expression.
const NO_EXPRESSION: &[File<'static>] = &[File {
    path: "m.json",
    bytes: br#"{"@context":"http://www.w3.org/ns/csvw","url":"p.csv","tableSchema":{"columns":[{"name":"s","datatype":{"format":"\\i"}}]}}"#,
}];

/// The page of a check of it.
const WRITTEN: &[u8] =
    br#"m.json:1:105: /tableSchema/columns/0/datatype/format: BadDatatype: the datatype cannot have this format or these facets
    the text is no regular expression: its syntax is that of the Rust crate regex, as `[A-Z]{2}[0-9]+`, without `\i`, `\c`, look-around and back-references
"#;

/// A document with moments, and texts that are none: of one the time is missing, of the other the zone.
const ZONED: &[File<'static>] = &[
    File {
        path: "m.json",
        bytes: br#"{"@context":"http://www.w3.org/ns/csvw","url":"p.csv","tableSchema":{"columns":[{"name":"d","datatype":"dateTime"},{"name":"s","datatype":"dateTimeStamp"}]}}"#,
    },
    File {
        path: "p.csv",
        bytes: b"d,s\n2020-01-31T08:30:00.5Z,2020-01-31T08:30:00+01:00\n2020-01-31,2020-01-31T08:30:00\n",
    },
];

/// The page of a check of them.
const NO_ZONE: &[u8] =
    br#"p.csv:3 (row 2), column 1 "d": BadDateTime: "2020-01-31": the text is no date and time: write one as `format` spells it
    2020-01-31,2020-01-31T08:30:00
    ^^^^^^^^^^
    datatype dateTime: with or without a zone, as in 2020-01-31T08:30:00Z
p.csv:3 (row 2), column 2 "s": BadDateTime: "2020-01-31T08:30:00": the text is no date and time: write one as `format` spells it
    2020-01-31,2020-01-31T08:30:00
               ^^^^^^^^^^^^^^^^^^^
    datatype dateTimeStamp: with a zone, as in 2020-01-31T08:30:00Z
    the text has no zone: a moment without a zone is a dateTime
table 1: p.csv: 3 records
  BadDateTime: 1 in table 1, column 1
  BadDateTime: 1 in table 1, column 2
not valid
"#;

/// The page of a check of the document in the profile core.
const NO_STAMPS: &[u8] =
    b"m.json:1:128: /tableSchema/columns/1/datatype: NotSupported: this part of the vocabulary is not supported: leave it out
    the profile w3c has the datatype dateTimeStamp: write `--profile w3c`
";

static PROFILES: [Case; 18] = [
    Case {
        what: "w3c, validated",
        words: "csvw validate --profile w3c --base http://example.org/ m.json p.csv",
        files: TYPED,
        end: End {
            status: 0,
            out: Just(HEADING),
            err: Just(b""),
        },
    },
    Case {
        what: "w3c, converted",
        words: "csvw convert --minimal --profile w3c --base http://example.org/ m.json p.csv",
        files: TYPED,
        end: End {
            status: 0,
            out: Just(GRAPH),
            err: Just(HEADING),
        },
    },
    Case {
        what: "w3c, converted in turns",
        words: "csvw convert --minimal --turns --profile w3c --base http://example.org/ m.json p.csv",
        files: TYPED,
        end: End {
            status: 0,
            out: Just(GRAPH),
            err: Just(HEADING),
        },
    },
    Case {
        what: "w3c, with a report as JSON",
        words: "csvw validate --profile w3c --report json --base http://example.org/ m.json p.csv",
        files: TYPED,
        end: End {
            status: 0,
            out: Just(b"[\n]\n"),
            err: Just(b""),
        },
    },
    Case {
        what: "w3c, checked",
        words: "csvw check --profile w3c m.json p.csv",
        files: TYPED,
        end: End {
            status: 0,
            out: Just(b"table 1: p.csv: 2 records\nvalid\n"),
            err: Just(b""),
        },
    },
    Case {
        what: "w3c, inspected",
        words: "csvw inspect --profile w3c m.json",
        files: TYPED,
        end: End {
            status: 0,
            out: SomeText,
            err: Just(b""),
        },
    },
    Case {
        what: "w3c, with texts that regular expressions don't describe",
        words: "csvw check --profile w3c m.json p.csv",
        files: DESCRIBED,
        end: End {
            status: 1,
            out: Just(UNDESCRIBED),
            err: Just(b""),
        },
    },
    Case {
        what: "w3c, with a text that is no regular expression",
        words: "csvw check --profile w3c m.json p.csv",
        files: NO_EXPRESSION,
        end: End {
            status: 3,
            out: Just(WRITTEN),
            err: Just(b""),
        },
    },
    Case {
        what: "w3c, with texts that are no moments",
        words: "csvw check --profile w3c m.json p.csv",
        files: ZONED,
        end: End {
            status: 1,
            out: Just(NO_ZONE),
            err: Just(b""),
        },
    },
    Case {
        what: "no profile, with moments that have a zone",
        words: "csvw check m.json p.csv",
        files: ZONED,
        end: End {
            status: 3,
            out: Just(NO_STAMPS),
            err: Just(b""),
        },
    },
    Case {
        what: "no profile, validated",
        words: VALIDATE,
        files: TYPED,
        end: End {
            status: 3,
            out: Just(b""),
            err: Just(STOP),
        },
    },
    Case {
        what: "no profile, converted",
        words: CONVERT,
        files: TYPED,
        end: End {
            status: 3,
            out: Just(b""),
            err: Just(STOP),
        },
    },
    Case {
        what: "no profile, checked",
        words: "csvw check m.json p.csv",
        files: TYPED,
        end: End {
            status: 3,
            out: Just(PAGE),
            err: Just(b""),
        },
    },
    Case {
        what: "no profile, inspected",
        words: "csvw inspect m.json",
        files: TYPED,
        end: End {
            status: 3,
            out: Just(b""),
            err: Just(STOP),
        },
    },
    Case {
        what: "core, validated",
        words: "csvw validate --profile core --base http://example.org/ m.json p.csv",
        files: TYPED,
        end: End {
            status: 3,
            out: Just(b""),
            err: Just(STOP),
        },
    },
    Case {
        what: "core, converted",
        words: "csvw convert --minimal --profile core --base http://example.org/ m.json p.csv",
        files: TYPED,
        end: End {
            status: 3,
            out: Just(b""),
            err: Just(STOP),
        },
    },
    Case {
        what: "w3c, drafted",
        words: "csvw draft --profile w3c p.csv",
        files: DRAFTED,
        end: End {
            status: 0,
            out: Just(DRAFT),
            err: Just(b""),
        },
    },
    Case {
        what: "core, drafted",
        words: "csvw draft p.csv",
        files: DRAFTED,
        end: End {
            status: 0,
            out: Just(CORE_DRAFT),
            err: Just(
                b"csvw: p.csv: column \"d\": a string, and a double with `--profile w3c`\ncsvw: p.csv: column \"m\": a string, and a dateTime with `--profile w3c`\n",
            ),
        },
    },
];

/// The line if a profile isn't known.
const UNKNOWN: &[u8] = b"csvw: --profile takes core or w3c\n";

static MISTAKES: [Case; 4] = [
    Case {
        what: "a profile that there is not, validated",
        words: "csvw validate --profile xml --base http://example.org/ m.json p.csv",
        files: &[],
        end: End {
            status: 2,
            out: Just(b""),
            err: Just(UNKNOWN),
        },
    },
    Case {
        what: "a profile that there is not, checked",
        words: "csvw check --profile W3C m.json",
        files: &[],
        end: End {
            status: 2,
            out: Just(b""),
            err: Just(UNKNOWN),
        },
    },
    Case {
        what: "a profile that there is not, inspected",
        words: "csvw inspect --profile '' m.json",
        files: &[],
        end: End {
            status: 2,
            out: Just(b""),
            err: Just(UNKNOWN),
        },
    },
    Case {
        what: "a profile that there is not, drafted",
        words: "csvw draft p.csv --profile w3",
        files: &[],
        end: End {
            status: 2,
            out: Just(b""),
            err: Just(UNKNOWN),
        },
    },
];

#[test]
fn a_profile_decides_on_the_datatypes(rt: HostRuntime) {
    each_ends_so(&rt, rt.alloc(), &PROFILES);
}

#[test]
fn profiles_that_there_are_not_are_mistakes(rt: HostRuntime) {
    each_ends_so(&rt, rt.alloc(), &MISTAKES);
}
