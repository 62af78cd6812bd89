//! Tests of documents whose templates, virtual columns or keys are refused.
use crate::running::run_over;
use csvw_meta_core::MetaCode;
use csvw_session::Stop;
use csvw_triples_core::Mode;
use std::alloc::{AllocError, Global};
use std::process::Abort;

/// A document, and the fault with which it is refused.
struct Case {
    /// The members of its schema.
    schema: &'static str,
    /// The code of the fault.
    code: MetaCode,
    /// The pointer of the fault.
    pointer: &'static str,
}

static LINKS: [Case; 5] = [
    Case {
        schema: r#""aboutUrl":"{id""#,
        code: MetaCode::BadTemplate,
        pointer: "/tableSchema/aboutUrl",
    },
    Case {
        schema: r#""propertyUrl":"{x:3}""#,
        code: MetaCode::TemplateLevel,
        pointer: "/tableSchema/propertyUrl",
    },
    Case {
        schema: r#""columns":[{"valueUrl":7}]"#,
        code: MetaCode::BadProperty,
        pointer: "/tableSchema/columns/0/valueUrl",
    },
    Case {
        schema: r#""columns":[{"name":"a","virtual":true},{"name":"b"}]"#,
        code: MetaCode::VirtualOrder,
        pointer: "/tableSchema/columns/1",
    },
    Case {
        schema: r#""columns":[{"suppressOutput":"true"}]"#,
        code: MetaCode::BadProperty,
        pointer: "/tableSchema/columns/0/suppressOutput",
    },
];

static KEYS: [Case; 17] = [
    Case {
        schema: r#""columns":[{"name":"k"},{"name":"l"}],"primaryKey":"m""#,
        code: MetaCode::BadReference,
        pointer: "/tableSchema/primaryKey",
    },
    Case {
        schema: r#""columns":[{"name":"k"},{"name":"l"}],"primaryKey":["k","m"]"#,
        code: MetaCode::BadReference,
        pointer: "/tableSchema/primaryKey/1",
    },
    Case {
        schema: r#""columns":[{"name":"k"},{"name":"l"}],"primaryKey":[]"#,
        code: MetaCode::BadProperty,
        pointer: "/tableSchema/primaryKey",
    },
    Case {
        schema: r#""columns":[{"name":"k"},{"name":"l"}],"primaryKey":7"#,
        code: MetaCode::BadProperty,
        pointer: "/tableSchema/primaryKey",
    },
    Case {
        schema: r#""primaryKey":"k""#,
        code: MetaCode::BadReference,
        pointer: "/tableSchema/primaryKey",
    },
    Case {
        schema: r#""columns":[{"name":"k"},{"name":"l"}],"foreignKeys":[{"columnReference":"k","reference":{"resource":"b.csv","columnReference":"k"}}]"#,
        code: MetaCode::BadReference,
        pointer: "/tableSchema/foreignKeys/0/reference/resource",
    },
    Case {
        schema: r#""columns":[{"name":"k"},{"name":"l"}],"foreignKeys":[{"columnReference":"m","reference":{"resource":"p.csv","columnReference":"k"}}]"#,
        code: MetaCode::BadReference,
        pointer: "/tableSchema/foreignKeys/0/columnReference",
    },
    Case {
        schema: r#""columns":[{"name":"k"},{"name":"l"}],"foreignKeys":[{"columnReference":"k","reference":{"resource":"p.csv","columnReference":"m"}}]"#,
        code: MetaCode::BadReference,
        pointer: "/tableSchema/foreignKeys/0/reference/columnReference",
    },
    Case {
        schema: r#""columns":[{"name":"k"},{"name":"l"}],"foreignKeys":[{"columnReference":["k","l"],"reference":{"resource":"p.csv","columnReference":"k"}}]"#,
        code: MetaCode::BadReference,
        pointer: "/tableSchema/foreignKeys/0",
    },
    Case {
        schema: r#""columns":[{"name":"k"},{"name":"l"}],"foreignKeys":[{"columnReference":"k"}]"#,
        code: MetaCode::BadProperty,
        pointer: "/tableSchema/foreignKeys/0",
    },
    Case {
        schema: r#""columns":[{"name":"k"},{"name":"l"}],"foreignKeys":[{"columnReference":"k","reference":{"columnReference":"k"}}]"#,
        code: MetaCode::BadProperty,
        pointer: "/tableSchema/foreignKeys/0/reference",
    },
    Case {
        schema: r#""columns":[{"name":"k"},{"name":"l"}],"foreignKeys":[{"columnReference":"k","reference":{"resource":"http://[","columnReference":"k"}}]"#,
        code: MetaCode::BadUrl,
        pointer: "/tableSchema/foreignKeys/0/reference/resource",
    },
    Case {
        schema: r#""columns":[{"name":"k"},{"name":"l"}],"foreignKeys":[{"columnReference":"k","dc:title":"x",
            "reference":{"resource":"p.csv","columnReference":"k"}}]"#,
        code: MetaCode::BadProperty,
        pointer: "/tableSchema/foreignKeys/0/dc:title",
    },
    Case {
        schema: r#""columns":[{"name":"k"},{"name":"l"}],"foreignKeys":[{"columnReference":"k","dc:title":1.5,
            "reference":{"resource":"p.csv","columnReference":"k"}}]"#,
        code: MetaCode::NotSupported,
        pointer: "/tableSchema/foreignKeys/0/dc:title",
    },
    Case {
        schema: r#""columns":[{"name":"k"},{"name":"l"}],"foreignKeys":[{"columnReference":"k",
            "reference":{"resource":"p.csv","dc:title":1.5,"columnReference":"k"}}]"#,
        code: MetaCode::NotSupported,
        pointer: "/tableSchema/foreignKeys/0/reference/dc:title",
    },
    Case {
        schema: r#""columns":[{"name":"k"},{"name":"l"}],"foreignKeys":[{"columnReference":"k",
            "reference":{"resource":"p.csv","schemaReference":"s","columnReference":"k"}}]"#,
        code: MetaCode::NotSupported,
        pointer: "/tableSchema/foreignKeys/0/reference/schemaReference",
    },
    Case {
        schema: r#""columns":[{"name":"c0"},{"name":"c1"},{"name":"c2"},{"name":"c3"},{"name":"c4"},{"name":"c5"},{"name":"c6"},
            {"name":"c7"},{"name":"c8"},{"name":"c9"},{"name":"c10"},{"name":"c11"},{"name":"c12"},{"name":"c13"},{"name":"c14"},
            {"name":"c15"},{"name":"c16"}],"primaryKey":["c0","c1","c2","c3","c4","c5","c6","c7","c8","c9","c10","c11","c12","c13","c14",
            "c15","c16"]"#,
        code: MetaCode::TooMany,
        pointer: "/tableSchema/primaryKey",
    },
];

/// Returns the stop of a run over a document and an empty text, if it stops.
fn stop_of(alloc: Global, meta: &str) -> Option<Stop> {
    run_over(alloc, meta, "", Mode::Minimal).ok()?.stop
}

/// Returns the document with this schema.
fn document(alloc: Global, schema: &str) -> Result<String, AllocError> {
    format!(in alloc;
        "{{\"@context\":\"http://www.w3.org/ns/csvw\",\"url\":\"p.csv\",\"tableSchema\":{{{schema}}}}}"
    )
}

/// Whether a document is refused with this fault.
fn has_fault(alloc: Global, meta: &str, case: &Case) -> bool {
    matches!(stop_of(alloc, meta), Some(Stop::Meta(fault)) if fault.code == case.code && fault.pointer.as_str() == case.pointer)
}

fn is_refused(alloc: Global, case: &Case) -> bool {
    match document(alloc, case.schema) {
        Ok(meta) => has_fault(alloc, meta.as_str(), case),
        Err(_) => false,
    }
}

/// Checks that each document is refused with its fault.
fn each_is_refused(rt: &impl Abort, alloc: Global, cases: &[Case]) {
    for case in cases {
        assert!(rt; is_refused(alloc, case), "{}", case.schema);
    }
}

#[test]
fn links_are_refused_at_their_fault(rt: HostRuntime) {
    each_is_refused(&rt, rt.alloc(), &LINKS);
}

#[test]
fn keys_are_refused_at_their_fault(rt: HostRuntime) {
    each_is_refused(&rt, rt.alloc(), &KEYS);
}

/// Returns a document whose template has so many expressions.
fn with_expressions(alloc: Global, count: usize) -> Result<String, AllocError> {
    let mut meta = String::from_str(
        alloc,
        r#"{"@context":"http://www.w3.org/ns/csvw","url":"p.csv","aboutUrl":""#,
    )?;
    for _ in 0..count {
        meta.push_str("{x}")?;
    }
    meta.push_str("\"}")?;
    Ok(meta)
}

/// Whether a template of so many expressions is too long. It is `None` if there is no memory.
fn is_past(alloc: Global, count: usize) -> Option<bool> {
    let meta = with_expressions(alloc, count).ok()?;
    Some(
        matches!(stop_of(alloc, meta.as_str()), Some(Stop::Meta(fault)) if fault.code == MetaCode::TooLong),
    )
}

#[test]
fn templates_have_a_limit(rt: HostRuntime) {
    let alloc = rt.alloc();
    assert!(rt; is_past(alloc, 33) == Some(true));
    assert!(rt; is_past(alloc, 32) == Some(false));
}
