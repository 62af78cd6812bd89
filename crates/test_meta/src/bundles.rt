//! Tests of documents whose schemas and dialects are resources (Metadata Vocabulary for Tabular Data, section 6.1).
use crate::bundles::Expected::{Fault, Same, Value as Becomes};
use crate::reading::is_fault;
use csvw_bundle::{Resource, bundle};
use csvw_iri::Base;
use csvw_meta::json::{json_of, without_bom};
use csvw_meta_core::Refusal;
use std::alloc::{AllocError, Global};
use std::test::Fail;

/// The URL of each document.
const URL: &str = "http://example.org/m.json";

/// What becomes of a document.
#[derive(Clone, Copy)]
enum Expected {
    /// It is this JSON value.
    Value(&'static str),
    /// Its bytes stay as they are.
    Same,
    /// It is refused with this code at this pointer.
    Fault(&'static str),
}

/// A document with resources.
struct Case {
    /// The document.
    document: &'static str,
    /// The URL and the text of each resource.
    resources: &'static [(&'static str, &'static str)],
    /// What becomes of it.
    expected: Expected,
}

static CASES: [Case; 18] = [
    // a schema without an `@id` has its URL
    Case {
        document: r#"{"@context":"http://www.w3.org/ns/csvw","url":"p.csv","tableSchema":"s.json"}"#,
        resources: &[(
            "http://example.org/s.json",
            r#"{"columns":[{"name":"a","titles":"A"}],"dc:title":"x"}"#,
        )],
        expected: Becomes(
            r#"{"@context":"http://www.w3.org/ns/csvw","url":"p.csv","tableSchema":{"@id":"http://example.org/s.json",
            "columns":[{"name":"a","titles":"A"}],"dc:title":"x"}}"#,
        ),
    },
    // links are resolved against the URL of the schema, whose context is left out
    Case {
        document: r#"{"@context":"http://www.w3.org/ns/csvw","url":"p.csv","tableSchema":"http://example.org/x/s.json"}"#,
        resources: &[(
            "http://example.org/x/s.json",
            r#"{"@context":"http://www.w3.org/ns/csvw","@id":"t","columns":[{"@id":"c","aboutUrl":"r","datatype":{"@id":"d"}}],
            "foreignKeys":[{"columnReference":"a","reference":{"resource":"../q.csv","columnReference":"b"}}]}"#,
        )],
        expected: Becomes(
            r#"{"@context":"http://www.w3.org/ns/csvw","url":"p.csv","tableSchema":{"@id":"http://example.org/x/t",
            "columns":[{"@id":"http://example.org/x/c","aboutUrl":"r","datatype":{"@id":"http://example.org/x/d"}}],
            "foreignKeys":[{"columnReference":"a","reference":{"resource":"http://example.org/q.csv","columnReference":"b"}}]}}"#,
        ),
    },
    // or against its own base
    Case {
        document: r#"{"@context":"http://www.w3.org/ns/csvw","url":"p.csv","tableSchema":"s.json"}"#,
        resources: &[(
            "http://example.org/s.json",
            r#"{"@context":["http://www.w3.org/ns/csvw",{"@language":"en","@base":"b/"}],"@id":"t#f"}"#,
        )],
        expected: Becomes(
            r#"{"@context":"http://www.w3.org/ns/csvw","url":"p.csv","tableSchema":{"@id":"http://example.org/b/t#f"}}"#,
        ),
    },
    // the URL is resolved against the base of the document, and its fragment doesn't count
    Case {
        document: r#"{"@context":["http://www.w3.org/ns/csvw",{"@base":"http://example.net/d/"}],"url":"p.csv","tableSchema":"s.json#x"}"#,
        resources: &[("http://example.net/d/s.json", "{}")],
        expected: Becomes(
            r#"{"@context":["http://www.w3.org/ns/csvw",{"@base":"http://example.net/d/"}],"url":"p.csv",
            "tableSchema":{"@id":"http://example.net/d/s.json"}}"#,
        ),
    },
    // a schema and a dialect of a group and of its tables
    Case {
        document: r#"{"@context":"http://www.w3.org/ns/csvw","tables":[{"url":"a.csv","tableSchema":"s"},{"url":"b.csv","dialect":"d"},
            {"url":"c.csv","dialect":{},"tableSchema":{"columns":[]}},1],"dialect":"d","tableSchema":"s"}"#,
        resources: &[
            ("http://example.org/d", r#"{"header":false}"#),
            ("http://example.org/s", r#"{"primaryKey":"k"}"#),
        ],
        expected: Becomes(
            r#"{"@context":"http://www.w3.org/ns/csvw","tables":[
            {"url":"a.csv","tableSchema":{"@id":"http://example.org/s","primaryKey":"k"}},
            {"url":"b.csv","dialect":{"@id":"http://example.org/d","header":false}},
            {"url":"c.csv","dialect":{},"tableSchema":{"columns":[]}},1],
            "dialect":{"@id":"http://example.org/d","header":false},"tableSchema":{"@id":"http://example.org/s","primaryKey":"k"}}"#,
        ),
    },
    // the first resource of a URL counts
    Case {
        document: r#"{"@context":"http://www.w3.org/ns/csvw","url":"p.csv","tableSchema":"s"}"#,
        resources: &[
            ("http://example.org/s", r#"{"@id":"1"}"#),
            ("http://example.org/./s", r#"{"@id":"2"}"#),
        ],
        expected: Becomes(
            r#"{"@context":"http://www.w3.org/ns/csvw","url":"p.csv","tableSchema":{"@id":"http://example.org/1"}}"#,
        ),
    },
    // a URL without a resource stays, and so does a text that is no URL
    Case {
        document: r#"{"@context":"http://www.w3.org/ns/csvw","url":"p.csv","tableSchema":"t","dialect":"http://["}"#,
        resources: &[("http://example.org/s", "{}")],
        expected: Becomes(
            r#"{"@context":"http://www.w3.org/ns/csvw","url":"p.csv","tableSchema":"t","dialect":"http://["}"#,
        ),
    },
    // a blank node's name stays, and so does a link that is no URL
    Case {
        document: r#"{"@context":"http://www.w3.org/ns/csvw","url":"p.csv","tableSchema":"s"}"#,
        resources: &[(
            "http://example.org/s",
            r#"{"@id":"_:x","columns":[{"@id":"http://["}],"notes":["@id"]}"#,
        )],
        expected: Becomes(
            r#"{"@context":"http://www.w3.org/ns/csvw","url":"p.csv","tableSchema":{"@id":"_:x","columns":[{"@id":"http://["}],"notes":["@id"]}}"#,
        ),
    },
    // the base of a document whose context is wrong is its own URL
    Case {
        document: r#"{"@context":"x","url":"p.csv","tableSchema":"s"}"#,
        resources: &[("http://example.org/s", "{}")],
        expected: Becomes(
            r#"{"@context":"x","url":"p.csv","tableSchema":{"@id":"http://example.org/s"}}"#,
        ),
    },
    // a resource may begin with U+FEFF
    Case {
        document: r#"{"@context":"http://www.w3.org/ns/csvw","url":"p.csv","dialect":"d"}"#,
        resources: &[("http://example.org/d", "\u{feff}{}")],
        expected: Becomes(
            r#"{"@context":"http://www.w3.org/ns/csvw","url":"p.csv","dialect":{"@id":"http://example.org/d"}}"#,
        ),
    },
    Case {
        document: r#"{"@context":"http://www.w3.org/ns/csvw","url":"p.csv","tableSchema":"s"}"#,
        resources: &[("http://example.org/s", "{")],
        expected: Fault("NotJson /tableSchema"),
    },
    Case {
        document: r#"{"@context":"http://www.w3.org/ns/csvw","tables":[{"url":"a.csv"},{"url":"b.csv","dialect":"d"}]}"#,
        resources: &[("http://example.org/d", "[]")],
        expected: Fault("BadProperty /tables/1/dialect"),
    },
    Case {
        document: r#"{"@context":"http://www.w3.org/ns/csvw","url":"p.csv","tableSchema":"s"}"#,
        resources: &[(
            "http://example.org/s",
            r#"{"@context":"http://www.w3.org/"}"#,
        )],
        expected: Fault("BadContext /tableSchema"),
    },
    // a resource that isn't used may be anything
    Case {
        document: r#"{"@context":"http://www.w3.org/ns/csvw","url":"p.csv"}"#,
        resources: &[("http://example.org/s", "{")],
        expected: Becomes(r#"{"@context":"http://www.w3.org/ns/csvw","url":"p.csv"}"#),
    },
    // a schema of another place isn't read
    Case {
        document: r#"{"@context":"http://www.w3.org/ns/csvw","url":"p.csv","notes":[{"tableSchema":"s"}]}"#,
        resources: &[("http://example.org/s", "{}")],
        expected: Becomes(
            r#"{"@context":"http://www.w3.org/ns/csvw","url":"p.csv","notes":[{"tableSchema":"s"}]}"#,
        ),
    },
    Case {
        document: r#"{"@context":"http://www.w3.org/ns/csvw", "url":"p.csv","tableSchema":"s"}"#,
        resources: &[],
        expected: Same,
    },
    Case {
        document: r#"{"url":"p.csv","#,
        resources: &[("http://example.org/s", "{}")],
        expected: Same,
    },
    Case {
        document: r#"["tableSchema", "s"]"#,
        resources: &[("http://example.org/s", "{}")],
        expected: Becomes(r#"["tableSchema","s"]"#),
    },
];

/// Returns the resources of a case, or `None` if a URL is none.
fn resources_of(alloc: Global, case: &Case) -> Result<Option<Vec<Resource>>, AllocError> {
    let mut resources = Vec::new(alloc);
    for (url, text) in case.resources {
        let Ok(url) = Base::new(alloc, url) else {
            return Ok(None);
        };
        let bytes = Vec::from_slice(alloc, text.as_bytes())?;
        resources.push(Resource { url, bytes })?;
    }
    Ok(Some(resources))
}

/// Whether the bytes of a document are this JSON value.
fn is_value(alloc: Global, bytes: &[u8], expected: &str) -> bool {
    let found = json_of(alloc, without_bom(bytes));
    match (found, json_of(alloc, expected.as_bytes())) {
        (Ok(found), Ok(expected)) => found == expected,
        _ => false,
    }
}

fn is_expected(alloc: Global, case: &Case) -> Result<bool, AllocError> {
    let Some(resources) = resources_of(alloc, case)? else {
        return Ok(false);
    };
    let document = Vec::from_slice(alloc, case.document.as_bytes())?;
    match (
        bundle(alloc, document, URL, resources.as_slice()),
        case.expected,
    ) {
        (Ok(bytes), Becomes(expected)) => Ok(is_value(alloc, bytes.as_slice(), expected)),
        (Ok(bytes), Same) => Ok(bytes.as_slice() == case.document.as_bytes()),
        (Err(Refusal::Fault(fault)), Fault(expected)) => is_fault(alloc, "", &fault, expected),
        _ => Ok(false),
    }
}

#[test]
fn resources_take_the_place_of_their_urls(rt: HostRuntime) -> Result<(), Fail> {
    for case in &CASES {
        let document = case.document;
        assert!(rt; is_expected(rt.alloc(), case)?, "{document}");
    }
    Ok(())
}
