//! Checks as pages of HTML and of JSON, in colours, and strict: by the public calls of csvw_check. Texts of files come through
//! as text.

use crate::runs::{File, Files};
use csvw_check::{Check, Color, Form, Profile, Shown, Strict, check};
use csvw_text::Counted;
use std::alloc::Global;
use std::str;

/// What a page is.
#[derive(Clone, Copy)]
enum Wanted {
    /// Exactly this text.
    Whole(&'static str),
    /// A text that has these parts in this order, and nowhere the last one.
    Parts(&'static [&'static str], &'static str),
}

impl Wanted {
    /// Returns whether a page is this.
    fn is(self, page: &[u8]) -> bool {
        let Ok(page) = str::from_utf8(page) else {
            return false;
        };
        match self {
            Wanted::Whole(text) => page.as_bytes() == text.as_bytes(),
            Wanted::Parts(parts, lacks) => {
                let mut rest = page;
                for part in parts {
                    match rest.split_once(*part) {
                        Some((_, behind)) => rest = behind,
                        None => return false,
                    }
                }
                !page.contains(lacks)
            }
        }
    }
}

/// A check, and its page.
struct Case {
    /// What the case shows.
    what: &'static str,
    /// The form of the page.
    form: Form,
    /// Whether its lines have colours.
    color: Color,
    /// Which faults make the status that of an invalid group.
    strict: Strict,
    /// The files: the document `m.json`, and the tables.
    files: &'static [File<'static>],
    /// The status.
    status: u8,
    /// The page.
    page: Wanted,
}

/// A document with two faults.
const TWO: File<'static> = File {
    path: "m.json",
    bytes: br#"{"@context":"http://www.w3.org/ns/csvw","url":1,"dialect":{"header":1}}"#,
};

/// A document with 22 faults of one code.
const MANY: File<'static> = File {
    path: "m.json",
    bytes: br#"{"@context":"http://www.w3.org/ns/csvw","url":"p.csv","tableSchema":{"columns":[1,1,1,1,1,1,1,1,1,1,1,1,1,1,1,1,1,1,1,1,1,1]}}"#,
};

const META: File<'static> = File {
    path: "m.json",
    bytes: br#"{"@context":"http://www.w3.org/ns/csvw","url":"p.csv","tableSchema":{"columns":[{"name":"id","titles":"A&B"},{"name":"n","datatype":"integer"}]}}"#,
};

const MISSPELLED: File<'static> = File {
    path: "m.json",
    bytes: br#"{"@context":"http://www.w3.org/ns/csvw","url":"p.csv","tableschema":{"columns":[{"nam":"id"}]}}"#,
};

/// A document with properties in objects that don't have them.
const MISPLACED: File<'static> = File {
    path: "m.json",
    bytes: br#"{"@context":"http://www.w3.org/ns/csvw",
"url":"p.csv","delimiter":";",
"dialect":{"lang":"en"},
"notes":[{"dc:t":{"x":1}}],
"tableSchema":{"columns":[{"name":"id","titles":{"en":"id"},"notes":[],"url":"u"}],"suppressOutput":true}}"#,
};

const MISPLACED_WARNINGS: &str =
    r#"m.json:2:15: /delimiter: warning: UnknownProperty: "delimiter" isn't a property of a table, but of a dialect
m.json:3:12: /dialect/lang: warning: UnknownProperty: "lang" isn't a property of a dialect, but of a table group
m.json:4:19: /notes/0/dc:t/x: warning: UnknownProperty: "x" isn't a property of an annotation
m.json:5:61: /tableSchema/columns/0/notes: warning: UnknownProperty: "notes" isn't a property of a column, but of a table group
m.json:5:72: /tableSchema/columns/0/url: warning: UnknownProperty: "url" isn't a property of a column, but of a table
m.json:5:84: /tableSchema/suppressOutput: warning: UnknownProperty: "suppressOutput" isn't a property of a schema, but of a table
table 1: p.csv: 2 records
  UnknownProperty: 4 in table 1
  UnknownProperty: 2 in table 1, column 1
valid
"#;

const SCRIPT: File<'static> = File {
    path: "p.csv",
    bytes: b"A&B,n\n<script>alert('x')</script>,\"<b>&\"\"2\"\"\"\n",
};

const RAGGED: File<'static> = File {
    path: "p.csv",
    bytes: b"A&B,n\n1\n",
};

const VALID: File<'static> = File {
    path: "p.csv",
    bytes: b"id\n1\n",
};

static CASES: [Case; 12] = [
    Case {
        what: "a cell with markup in HTML",
        form: Form::Html,
        color: Color::Never,
        strict: Strict::Errors,
        files: &[META, SCRIPT],
        status: 1,
        page: Wanted::Parts(
            &[
                "<!DOCTYPE html>\n<html lang=\"en\">\n",
                "<h1>m.json: not valid</h1>\n",
                "<tr><td>1</td><td>p.csv</td><td class=\"number\">2</td><td class=\"number\">1</td></tr>\n",
                "<tr><td>1</td><td>2</td><td><a href=\"#t1c2BadInteger\">BadInteger</a></td><td class=\"number\">1</td></tr>\n",
                "<h2 id=\"t1c2BadInteger\">p.csv, column 2: BadInteger: 1</h2>\n<article class=\"error\">\n<p class=\"at\">p.csv, line 2, row 1, column 2 “n”</p>\n<p class=\"error\"><b>error: BadInteger</b>: the text is no integer</p>\n<p class=\"hint\">Instead: write digits, with a sign where needed</p>\n<pre>&lt;script&gt;alert(&#39;x&#39;)&lt;/script&gt;,<mark>&lt;b&gt;&amp;&quot;2&quot;</mark></pre>\n<p class=\"rule\">datatype integer</p>\n</article>\n</main>\n</body>\n</html>\n",
            ],
            "<script",
        ),
    },
    Case {
        what: "a cell with markup in JSON",
        form: Form::Json,
        color: Color::Never,
        strict: Strict::Errors,
        files: &[META, SCRIPT],
        status: 1,
        page: Wanted::Whole(
            "[\n{\"code\":\"BadInteger\",\"column\":2,\"file\":\"p.csv\",\"kind\":\"error\",\"line\":2,\"name\":\"n\",\"row\":2,\"sentence\":\"the text is no integer: write digits, with a sign where needed\",\"table\":1,\"text\":\"<b>&\\\"2\\\"\"}\n]\n",
        ),
    },
    Case {
        what: "a valid group in JSON",
        form: Form::Json,
        color: Color::Never,
        strict: Strict::Errors,
        files: &[
            File {
                path: "m.json",
                bytes: crate::runs::META,
            },
            VALID,
        ],
        status: 0,
        page: Wanted::Whole("[\n]\n"),
    },
    Case {
        what: "a stop in JSON",
        form: Form::Json,
        color: Color::Never,
        strict: Strict::Errors,
        files: &[META, RAGGED],
        status: 3,
        page: Wanted::Whole(
            "[\n{\"code\":\"RaggedRow\",\"column\":0,\"file\":\"p.csv\",\"hints\":[\"the row has 1 field\"],\"kind\":\"stop\",\"line\":2,\"name\":\"\",\"row\":2,\"sentence\":\"the row doesn't have one field for each column: add or remove fields; for a blank line write `skipBlankRows`\",\"table\":1,\"text\":null}\n]\n",
        ),
    },
    Case {
        what: "a stop in HTML",
        form: Form::Html,
        color: Color::Always,
        strict: Strict::Errors,
        files: &[META, RAGGED],
        status: 3,
        page: Wanted::Parts(
            &[
                "<h1>m.json: not read to its end</h1>\n",
                "<p>No faults.</p>\n<h2 id=\"stop\">Why it was not read to its end</h2>\n<article class=\"error\">\n<p class=\"at\">p.csv, line 2</p>\n<p class=\"error\"><b>error: RaggedRow</b>: the row doesn&#39;t have one field for each column</p>\n",
                "<p class=\"hint\">the row has 1 field</p>\n</article>\n</main>\n",
            ],
            "\u{1B}",
        ),
    },
    Case {
        what: "two faults of a document in JSON",
        form: Form::Json,
        color: Color::Never,
        strict: Strict::Errors,
        files: &[TWO],
        status: 3,
        page: Wanted::Whole(
            "[\n{\"code\":\"BadProperty\",\"column\":41,\"file\":\"m.json\",\"hints\":[],\"kind\":\"stop\",\"line\":1,\"name\":\"/url\",\"row\":0,\"sentence\":\"a value is of a wrong kind, or a property is missing\",\"table\":0,\"text\":null},\n{\"code\":\"BadProperty\",\"column\":60,\"file\":\"m.json\",\"hints\":[],\"kind\":\"stop\",\"line\":1,\"name\":\"/dialect/header\",\"row\":0,\"sentence\":\"a value is of a wrong kind, or a property is missing\",\"table\":0,\"text\":null}\n]\n",
        ),
    },
    Case {
        what: "two faults of a document in HTML, with one heading",
        form: Form::Html,
        color: Color::Never,
        strict: Strict::Errors,
        files: &[TWO],
        status: 3,
        page: Wanted::Parts(
            &[
                "<h2 id=\"stop\">Why it was not read to its end</h2>\n<article class=\"error\">\n<p class=\"at\">m.json, line 1, character 41, at /url</p>\n<p class=\"error\"><b>error: BadProperty</b>: a value is of a wrong kind, or a property is missing</p>\n</article>\n<article class=\"error\">\n<p class=\"at\">m.json, line 1, character 60, at /dialect/header</p>\n",
                "</article>\n</main>\n",
            ],
            "\u{1B}",
        ),
    },
    Case {
        what: "more than 20 faults of one code in a document",
        form: Form::Text,
        color: Color::Never,
        strict: Strict::Errors,
        files: &[MANY],
        status: 3,
        page: Wanted::Parts(
            &[
                "m.json:1:119: /tableSchema/columns/19: BadProperty: a value is of a wrong kind, or a property is missing\nm.json: BadProperty: 2 more\n",
            ],
            "/tableSchema/columns/20",
        ),
    },
    Case {
        what: "a fault in colours",
        form: Form::Text,
        color: Color::Always,
        strict: Strict::Errors,
        files: &[META, SCRIPT],
        status: 1,
        page: Wanted::Whole(
            "p.csv:2 (row 1), column 2 \"n\": \u{1B}[1;31mBadInteger\u{1B}[0m: \"<b>&\"2\"\": the text is no integer: write digits, with a sign where needed\n    <script>alert('x')</script>,<b>&\"2\"\n                                \u{1B}[1;31m^^^^^^^\u{1B}[0m\n    datatype integer\ntable 1: p.csv: 2 records\n  BadInteger: 1 in table 1, column 2\nnot valid\n",
        ),
    },
    Case {
        what: "a warning",
        form: Form::Text,
        color: Color::Never,
        strict: Strict::Errors,
        files: &[MISSPELLED, VALID],
        status: 0,
        page: Wanted::Whole(
            "m.json:1:55: /tableschema: warning: UnknownProperty: \"tableschema\" isn't a property of a table: did you mean \"tableSchema\"?\ntable 1: p.csv: 2 records\n  UnknownProperty: 1 in table 1\nvalid\n",
        ),
    },
    Case {
        what: "properties in objects that don't have them",
        form: Form::Text,
        color: Color::Never,
        strict: Strict::Errors,
        files: &[MISPLACED, VALID],
        status: 0,
        page: Wanted::Whole(MISPLACED_WARNINGS),
    },
    Case {
        what: "a warning of a strict check, in colours",
        form: Form::Text,
        color: Color::Always,
        strict: Strict::Warnings,
        files: &[MISSPELLED, VALID],
        status: 1,
        page: Wanted::Whole(
            "m.json:1:55: /tableschema: \u{1B}[1;33mwarning\u{1B}[0m: \u{1B}[1;33mUnknownProperty\u{1B}[0m: \"tableschema\" isn't a property of a table: did you mean \"tableSchema\"?\ntable 1: p.csv: 2 records\n  UnknownProperty: 1 in table 1\nnot valid\n",
        ),
    },
];

/// Returns whether a check ends with this status and this page, and hands back every reader that it opened.
fn is_checked(alloc: Global, case: &Case) -> bool {
    let mut opener = Files::new(case.files);
    let mut out = Counted::new(Vec::new(alloc));
    let mut err = Counted::new(Vec::new(alloc));
    let asked = Check {
        base: "http://example.org/",
        meta: "m.json",
        files: &["p.csv"],
        resources: &[],
        profile: Profile::Core,
        shown: Shown::First,
        form: case.form,
        color: case.color,
        strict: case.strict,
    };
    let status = check(alloc, &asked, &mut opener, &mut out, &mut err);
    let out = out.into_inner();
    status == case.status
        && case.page.is(out.as_slice())
        && err.into_inner().is_empty()
        && opener.opened == opener.closed
}

#[test]
fn checks_are_shown_in_each_form(rt: HostRuntime) {
    for case in &CASES {
        assert!(rt; is_checked(rt.alloc(), case), "{}", case.what);
    }
}
