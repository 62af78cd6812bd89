//! Documents that are refused, each with its line, and a document with a warning.

use crate::runs::Sent::Just;
use crate::runs::{CONVERT, End, File, VALIDATE, ends_so};
use std::alloc::Global;
use std::process::Abort;
use std::str;

/// A document that is refused.
struct Refusal {
    /// The document.
    meta: &'static [u8],
    /// The line on standard error.
    line: &'static [u8],
}

static REFUSALS: [Refusal; 6] = [
    Refusal {
        meta: b"{",
        line: b"csvw: metadata NotJson \n",
    },
    Refusal {
        meta: br#"{"@context":"http://www.w3.org/ns/csvw","url":"p.csv","@id":"_:x"}"#,
        line: b"csvw: metadata BadId /@id\n",
    },
    Refusal {
        meta: br#"{"@context":"http://www.w3.org/ns/csvw","url":"p.csv","tableSchema":"s.json"}"#,
        line: b"csvw: metadata NotSupported /tableSchema\n",
    },
    Refusal {
        meta: br#"{"@context":"http://www.w3.org/ns/csvw","tables":[{"url":"a.csv"},{"url":"a.csv"}]}"#,
        line: b"csvw: metadata DuplicateTable /tables/1/url\n",
    },
    Refusal {
        meta: br#"{"@context":"http://www.w3.org/ns/csvw","url":"p.csv","tableSchema":{"columns":[{"name":"n"},{"name":"n"}]}}"#,
        line: b"csvw: metadata DuplicateName /tableSchema/columns/1\n",
    },
    // a bound that is a number with a fraction, and not a text
    Refusal {
        meta: br#"{"@context":"http://www.w3.org/ns/csvw","url":"p.csv","tableSchema":{"columns":[
{"name":"id","datatype":{"base":"decimal","format":{"decimalChar":"."},"maximum":1.5}}]}}"#,
        line: b"csvw: metadata NotSupported /tableSchema/columns/0/datatype/maximum\n",
    },
];

/// Returns whether a run of these words over a document and a table with this text ends like this.
fn ends(alloc: Global, words: &str, meta: &[u8], text: &[u8], end: End) -> bool {
    let files = [
        File {
            path: "m.json",
            bytes: meta,
        },
        File {
            path: "p.csv",
            bytes: text,
        },
    ];
    ends_so(alloc, words, &files, end)
}

#[test]
fn a_document_that_is_refused_has_its_line(rt: HostRuntime) {
    let alloc = rt.alloc();
    for refusal in &REFUSALS {
        let end = End {
            status: 3,
            out: Just(b""),
            err: Just(refusal.line),
        };
        assert!(rt; ends(alloc, VALIDATE, refusal.meta, b"id\n", end));
        assert!(rt; ends(alloc, CONVERT, refusal.meta, b"id\n", end));
    }
}

/// Documents that are no JSON, each with what `csvw check` says.
static NO_JSON: [Refusal; 12] = [
    Refusal {
        meta: b"",
        line: b"m.json:1:1: NotJson: the bytes are no JSON text, or nest too deep: correct them\n    expected `{`: the document ends too early\n",
    },
    Refusal {
        meta: b"{'url':1}",
        line: b"m.json:1:2: NotJson: the bytes are no JSON text, or nest too deep: correct them\n    expected a name in double quotes, or `}`: write double quotes\n",
    },
    Refusal {
        meta: b"{\"a\":1,}",
        line: b"m.json:1:8: NotJson: the bytes are no JSON text, or nest too deep: correct them\n    expected a name in double quotes: remove the comma before it\n",
    },
    Refusal {
        meta: b"{\"a\":1 \"b\":2}",
        line: b"m.json:1:8: NotJson: the bytes are no JSON text, or nest too deep: correct them\n    expected `,` or `}`\n",
    },
    Refusal {
        meta: b"{\"a\" 1}",
        line: b"m.json:1:6: NotJson: the bytes are no JSON text, or nest too deep: correct them\n    expected `:`\n",
    },
    Refusal {
        meta: b"{\"a\":tru}",
        line: b"m.json:1:6: NotJson: the bytes are no JSON text, or nest too deep: correct them\n    expected a value: a number, a text in double quotes, `true`, `false` or `null`\n",
    },
    Refusal {
        meta: b"{\"a\":1}x",
        line: b"m.json:1:8: NotJson: the bytes are no JSON text, or nest too deep: correct them\n    expected the end of the document\n",
    },
    Refusal {
        meta: b"{\"a\":[1,\n// two\n2]}",
        line: b"m.json:2:1: NotJson: the bytes are no JSON text, or nest too deep: correct them\n    expected a value: JSON has no comments: remove this one\n",
    },
    Refusal {
        meta: b"{\"a\":[1,2",
        line: b"m.json:1:9: NotJson: the bytes are no JSON text, or nest too deep: correct them\n    expected `,` or `]`: the document ends too early\n",
    },
    Refusal {
        meta: b"{\"a\":\"x",
        line: b"m.json:1:6: NotJson: the bytes are no JSON text, or nest too deep: correct them\n    expected a closing quote: the document ends too early\n",
    },
    Refusal {
        meta: b"{\"a\":\"x\ny\"}",
        line: b"m.json:1:6: NotJson: the bytes are no JSON text, or nest too deep: correct them\n    expected a value: this text isn't closed, or it has a line break or an unknown escape\n",
    },
    Refusal {
        meta: b"{\"a\":1e999}",
        line: b"m.json:1:11: NotJson: the bytes are no JSON text, or nest too deep: correct them\n    expected `,` or `}`: the number before it is too great\n",
    },
];

/// Documents that are refused, each with what `csvw check` says and what helps.
static HELPED: [Refusal; 18] = [
    Refusal {
        meta: b"{\"@context\":\"http://www.w3.org/ns/csvw\",\"url\":\"p.csv\",\"tableSchema\":{\"columns\":[{\"name\":\"a\",\"datatype\":{\"base\":\"decimal\",\n\"format\":\"#,##0.00\"}}]}}",
        line: b"m.json:2:1: /tableSchema/columns/0/datatype/format: NotSupported: this part of the vocabulary is not supported: leave it out\n    a pattern of numbers needs the profile w3c (`--profile w3c`), and has `0`, `#`, `+`, `E`, `%`, `\xe2\x80\xb0`, the decimal and the group character alone\n",
    },
    Refusal {
        meta: b"{\"@context\":\"http://www.w3.org/ns/csvw\",\"url\":\"p.csv\",\"tableSchema\":{\"columns\":[{\"name\":\"a\",\"datatype\":{\"base\":\"integer\",\"format\":{\n\"pattern\":\"000\"}}}]}}",
        line: b"m.json:2:1: /tableSchema/columns/0/datatype/format/pattern: NotSupported: this part of the vocabulary is not supported: leave it out\n    a pattern of numbers needs the profile w3c (`--profile w3c`), and has `0`, `#`, `+`, `E`, `%`, `\xe2\x80\xb0`, the decimal and the group character alone\n",
    },
    Refusal {
        meta: b"{\"@context\":\"http://www.w3.org/ns/csvw\",\"url\":\"p.csv\",\"tableSchema\":{\"columns\":[{\"name\":\"a\",\"datatype\":{\n\"format\":\"[0-9]+\"}}]}}",
        line: b"m.json:2:1: /tableSchema/columns/0/datatype/format: NotSupported: this part of the vocabulary is not supported: leave it out\n    a regular expression as the format of texts needs the profile w3c (`--profile w3c`)\n",
    },
    Refusal {
        meta: b"{\"@context\":\"http://www.w3.org/ns/csvw\",\"url\":\"p.csv\",\"tableSchema\":{\"columns\":[{\"name\":\"a\",\"datatype\":{\"base\":\"date\",\n\"format\":\"yyyy/MM/dd\"}}]}}",
        line: b"m.json:2:1: /tableSchema/columns/0/datatype/format: NotSupported: this part of the vocabulary is not supported: leave it out\n    the format of a date is yyyy-MM-dd, yyyyMMdd, dd-MM-yyyy, d-M-yyyy, MM-dd-yyyy or M-d-yyyy: the last four may have `/` or `.` in place of `-`; with `--profile w3c` also X at the end for a zone\n",
    },
    Refusal {
        meta: b"{\"@context\":\"http://www.w3.org/ns/csvw\",\"url\":\"p.csv\",\"tableSchema\":{\"columns\":[{\"name\":\"a\",\"datatype\":{\"base\":\"dateTime\",\n\"format\":\"yyyy-MM-dd HH:mm\"}}]}}",
        line: b"m.json:2:1: /tableSchema/columns/0/datatype/format: NotSupported: this part of the vocabulary is not supported: leave it out\n    the format of a dateTime is yyyy-MM-ddTHH:mm:ss or yyyy-MM-ddTHH:mm; with `--profile w3c` also a date, a space and a time, as dd/MM/yyyy HH:mm, and then .SSS for a fraction after HH:mm:ss, and X for a zone\n",
    },
    Refusal {
        meta: b"{\"@context\":\"http://www.w3.org/ns/csvw\",\"tableSchema\":{}}",
        line: b"m.json:1:1: BadProperty: a value is of a wrong kind, or a property is missing\n    the property \"url\" is missing\n",
    },
    Refusal {
        meta: b"{\"@context\":\"http://www.w3.org/ns/csvw\",\n\"tables\":[{\"url\":\"a.csv\"},\n{\"notes\":[]}]}",
        line: b"m.json:3:1: /tables/1: BadProperty: a value is of a wrong kind, or a property is missing\n    the property \"url\" is missing\n",
    },
    Refusal {
        meta: b"{\"@context\":\"http://www.w3.org/ns/csvw\",\"url\":\"p.csv\",\n\"tableSchema\":{\"columns\":[{\"name\":\"a\"}],\"foreignKeys\":[\n{\"columnReference\":\"a\"}]}}",
        line: b"m.json:3:1: /tableSchema/foreignKeys/0: BadProperty: a value is of a wrong kind, or a property is missing\n    the property \"reference\" is missing\n",
    },
    Refusal {
        meta: b"{\"@context\":\"http://www.w3.org/ns/csvw\",\"url\":\"p.csv\",\"tableSchema\":{\"columns\":[{\"name\":\"a\",\n\"datatype\":\"duration\"}]}}",
        line: b"m.json:2:1: /tableSchema/columns/0/datatype: NotSupported: this part of the vocabulary is not supported: leave it out\n    the profile w3c has the datatype duration: write `--profile w3c`\n",
    },
    Refusal {
        meta: b"{\"@context\":\"http://www.w3.org/ns/csvw\",\"url\":\"p.csv\",\"tableSchema\":{\"columns\":[{\"name\":\"a\",\"datatype\":{\n\"base\":\"Integer\"}}]}}",
        line: b"m.json:2:1: /tableSchema/columns/0/datatype/base: NotSupported: this part of the vocabulary is not supported: leave it out\n    Integer is no datatype of the standard: did you mean integer?\n",
    },
    Refusal {
        meta: b"{\"@context\":\"http://www.w3.org/ns/csvw\",\"url\":\"p.csv\",\"tableSchema\":{\"columns\":[{\"name\":\"a\",\n\"datatype\":\"quantity\"}]}}",
        line: b"m.json:2:1: /tableSchema/columns/0/datatype: NotSupported: this part of the vocabulary is not supported: leave it out\n    quantity is no datatype of the standard\n",
    },
    Refusal {
        meta: b"{\"@context\":\"http://www.w3.org/ns/csvw\",\"url\":\"p.csv\",\"tableSchema\":{\"columns\":[{\"name\":\"a\",\"datatype\":{\"base\":\"date\",\"format\":\"dd.MM.yyyy\",\n\"minimum\":\"01.01.2024\"}}]}}",
        line: b"m.json:2:1: /tableSchema/columns/0/datatype/minimum: BadDatatype: the datatype cannot have this format or these facets\n    a bound is a date as yyyy-MM-dd, whatever the format is; with `--profile w3c` also as \"2020-01-31Z\"\n",
    },
    Refusal {
        meta: b"{\"@context\":\"http://www.w3.org/ns/csvw\",\"url\":\"p.csv\",\"tableSchema\":{\"columns\":[{\"name\":\"a\",\"datatype\":{\"base\":\"decimal\",\n\"maximum\":0.5}}]}}",
        line: b"m.json:2:1: /tableSchema/columns/0/datatype/maximum: NotSupported: this part of the vocabulary is not supported: leave it out\n    a number that isn't whole is written as a text, as \"0.5\"\n",
    },
    Refusal {
        meta: b"{\"@context\":\"http://www.w3.org/ns/csvw\",\"url\":\"p.csv\",\"tableSchema\":{\"columns\":[{\"name\":\"a\",\"datatype\":{\"base\":\"decimal\",\"format\":{\"decimalChar\":\",\"},\n\"minInclusive\":\"1,5\"}}]}}",
        line: b"m.json:2:1: /tableSchema/columns/0/datatype/minInclusive: BadDatatype: the datatype cannot have this format or these facets\n    a bound is a number with `.` before the fraction and without group characters, as \"1000.5\"\n",
    },
    Refusal {
        meta: b"{\"@context\":\"http://www.w3.org/ns/csvw\",\"url\":\"p.csv\",\"tableSchema\":{\"columns\":[{\"name\":\"a\",\"datatype\":{\"base\":\"integer\",\n\"maxInclusive\":\"1,000\"}}]}}",
        line: b"m.json:2:1: /tableSchema/columns/0/datatype/maxInclusive: BadDatatype: the datatype cannot have this format or these facets\n    a bound is a value of its datatype, in digits without group characters, as \"1000\"\n",
    },
    Refusal {
        meta: b"{\"@context\":\"http://www.w3.org/ns/csvw\",\"url\":\"p.csv\",\"tableSchema\":{\"columns\":[{\"name\":\"a\",\"datatype\":{\"base\":\"dateTime\",\n\"minExclusive\":\"2020-01-31T08:30:00Z\"}}]}}",
        line: b"m.json:2:1: /tableSchema/columns/0/datatype/minExclusive: BadDatatype: the datatype cannot have this format or these facets\n    a bound is a moment as \"2020-01-31T08:30:00\", whatever the format is; with `--profile w3c` also as \"2020-01-31T08:30:00.5Z\"\n",
    },
    Refusal {
        meta: b"{\"@context\":\"http://www.w3.org/ns/csvw\",\"url\":\"p.csv\",\"tableSchema\":{\"columns\":[{\"name\":\"a\",\n\"datatype\":{\"base\":\"integer\",\"minimum\":2,\"maximum\":1}}]}}",
        line: b"m.json:2:1: /tableSchema/columns/0/datatype: BadDatatype: the datatype cannot have this format or these facets\n    the facets contradict each other: the lower bound is above the upper one, one side has two bounds, two bounds have no order, or the lengths exclude each other\n",
    },
    Refusal {
        meta: b"{\"@context\":\"http://www.w3.org/ns/csvw\",\"url\":\"p.csv\",\"tableSchema\":{\"columns\":[{\"name\":\"a\",\"datatype\":{\n\"maxExclusive\":\"b\"}}]}}",
        line: b"m.json:2:1: /tableSchema/columns/0/datatype/maxExclusive: BadDatatype: the datatype cannot have this format or these facets\n    the values of this datatype have no order: leave the bound out\n",
    },
];

/// The words that check a group of one table.
const CHECK: &str = "csvw check --base http://example.org/ m.json p.csv";

#[test]
fn a_document_that_is_refused_is_told_with_what_helps(rt: HostRuntime) {
    let alloc = rt.alloc();
    for refusal in NO_JSON.iter().chain(&HELPED) {
        let end = End {
            status: 3,
            out: Just(refusal.line),
            err: Just(b""),
        };
        let meta = str::from_utf8(refusal.meta).unwrap_or("");
        assert!(rt; ends(alloc, CHECK, refusal.meta, b"id\n", end), "{meta}");
    }
}

/// A document with a property that is not known.
const UNKNOWN: &[u8] = br#"{"@context":"http://www.w3.org/ns/csvw","url":"p.csv","foo":1}"#;

/// The report of that document.
const WARNING: &[u8] = b"kind,code,table,row,column\nwarning,UnknownProperty,1,0,0\n";

#[test]
fn a_warning_is_status_0(rt: HostRuntime) {
    let alloc = rt.alloc();
    let validated = End {
        status: 0,
        out: Just(WARNING),
        err: Just(b""),
    };
    assert!(rt; ends(alloc, VALIDATE, UNKNOWN, b"id\n", validated));
    let converted = End {
        status: 0,
        out: Just(b""),
        err: Just(WARNING),
    };
    assert!(rt; ends(alloc, CONVERT, UNKNOWN, b"id\n", converted));
}

/// A document whose URL has a character that is not allowed in an IRI.
const BAR: &[u8] = br#"{"@context":"http://www.w3.org/ns/csvw","url":"p|q.csv"}"#;

#[test]
fn a_url_is_made_safe(rt: HostRuntime) {
    let end = End {
        status: 0,
        out: Just(b"_:t1r1s <http://example.org/p%7Cq.csv#id> \"7\" .\n"),
        err: Just(b"kind,code,table,row,column\n"),
    };
    assert!(rt; ends(rt.alloc(), CONVERT, BAR, b"id\n7\n", end));
}
