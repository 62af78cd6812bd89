//! Tests of documents at each limit and one above it.
use crate::reading::is_refused;
use csvw_meta::read;
use csvw_meta_core::MetaCode;
use std::alloc::{AllocError, Global};
use std::test::Fail;

/// A part of a document that may occur so often and no more.
struct Limit {
    /// The text before the first part.
    front: &'static str,
    /// The part, up to its number.
    part: &'static str,
    /// The text after the part's number, from 0, or `None` if the part has no number.
    numbered: Option<&'static str>,
    /// The text between two parts.
    between: &'static str,
    /// The text after the last part.
    end: &'static str,
    /// The greatest number of parts that is read.
    most: usize,
    /// The fault of one more part.
    fault: (MetaCode, &'static str),
}

static LIMITS: [Limit; 9] = [
    // tables of a group
    Limit {
        front: r#"{"@context":"http://www.w3.org/ns/csvw","tables":["#,
        part: r#"{"url":"t"#,
        numbered: Some(r#".csv"}"#),
        between: ",",
        end: "]}",
        most: 64,
        fault: (MetaCode::TooMany, "/tables"),
    },
    // columns of a schema
    Limit {
        front: r#"{"@context":"http://www.w3.org/ns/csvw","url":"p.csv","tableSchema":{"columns":["#,
        part: "{}",
        numbered: None,
        between: ",",
        end: "]}}",
        most: 1_024,
        fault: (MetaCode::TooMany, "/tableSchema/columns"),
    },
    // of these, virtual ones too
    Limit {
        front: r#"{"@context":"http://www.w3.org/ns/csvw","url":"p.csv","tableSchema":{"columns":[{},{"virtual":true}"#,
        part: r#",{"virtual":true,"name":"v"#,
        numbered: Some(r#""}"#),
        between: "",
        end: "]}}",
        most: 1_022,
        fault: (MetaCode::TooMany, "/tableSchema/columns"),
    },
    // columns of a key
    Limit {
        front: r#"{"@context":"http://www.w3.org/ns/csvw","url":"p.csv","tableSchema":{"columns":[
            {"name":"k0"},{"name":"k1"},{"name":"k2"},{"name":"k3"},{"name":"k4"},{"name":"k5"},{"name":"k6"},{"name":"k7"},{"name":"k8"},
            {"name":"k9"},{"name":"k10"},{"name":"k11"},{"name":"k12"},{"name":"k13"},{"name":"k14"},{"name":"k15"},{"name":"k16"}],"primaryKey":["#,
        part: r#""k"#,
        numbered: Some(r#"""#),
        between: ",",
        end: "]}}",
        most: 16,
        fault: (MetaCode::TooMany, "/tableSchema/primaryKey"),
    },
    // foreign keys of a table
    Limit {
        front: r#"{"@context":"http://www.w3.org/ns/csvw","url":"p.csv","tableSchema":{"columns":[{"name":"k"}],"foreignKeys":["#,
        part: r#"{"columnReference":"k","reference":{"resource":"p.csv","columnReference":"k"}}"#,
        numbered: None,
        between: ",",
        end: "]}}",
        most: 64,
        fault: (MetaCode::TooMany, "/tableSchema/foreignKeys"),
    },
    // bytes of a template
    Limit {
        front: r#"{"@context":"http://www.w3.org/ns/csvw","url":"p.csv","aboutUrl":""#,
        part: "a",
        numbered: None,
        between: "",
        end: r#""}"#,
        most: 4_096,
        fault: (MetaCode::TooLong, "/aboutUrl"),
    },
    // expressions of a template
    Limit {
        front: r#"{"@context":"http://www.w3.org/ns/csvw","url":"p.csv","valueUrl":""#,
        part: "{k}",
        numbered: None,
        between: "/",
        end: r#""}"#,
        most: 32,
        fault: (MetaCode::TooLong, "/valueUrl"),
    },
    // bytes of a text to resolve
    Limit {
        front: r#"{"@context":"http://www.w3.org/ns/csvw","url":""#,
        part: "a",
        numbered: None,
        between: "",
        end: r#""}"#,
        most: 65_536,
        fault: (MetaCode::UrlTooLong, "/url"),
    },
    // bytes of an annotation's link
    Limit {
        front: r#"{"@context":"http://www.w3.org/ns/csvw","url":"p.csv","dc:x":{"@id":""#,
        part: "a",
        numbered: None,
        between: "",
        end: r#""}}"#,
        most: 65_536,
        fault: (MetaCode::UrlTooLong, "/dc:x/@id"),
    },
];

/// Adds a part. Each part after the first comes after the text between two parts.
fn push_part(text: &mut String, limit: &Limit, number: usize) -> Result<(), AllocError> {
    if number > 0 {
        text.push_str(limit.between)?;
    }
    text.push_str(limit.part)?;
    match limit.numbered {
        Some(end) => write!(text, "{number}{end}"),
        None => Ok(()),
    }
}

fn push_document(text: &mut String, limit: &Limit, count: usize) -> Result<(), AllocError> {
    text.push_str(limit.front)?;
    for number in 0..count {
        push_part(text, limit, number)?;
    }
    text.push_str(limit.end)
}

/// Returns the document with so many parts.
fn document(alloc: Global, limit: &Limit, count: usize) -> Result<String, AllocError> {
    let mut text = String::new(alloc);
    push_document(&mut text, limit, count)?;
    Ok(text)
}

fn push_times(text: &mut String, part: &str, count: usize) -> Result<(), AllocError> {
    for _ in 0..count {
        text.push_str(part)?;
    }
    Ok(())
}

/// The text before and after a value of the annotation that is inside another.
type Nest = (&'static str, &'static str);

const OBJECTS: Nest = (r#"{"dc:x":"#, "}");

const ARRAYS: Nest = ("[", "]");

fn push_nested(text: &mut String, nest: Nest, count: usize) -> Result<(), AllocError> {
    text.push_str(r#"{"@context":"http://www.w3.org/ns/csvw","url":"p.csv","dc:x":"#)?;
    push_times(text, nest.0, count)?;
    text.push_str("1")?;
    push_times(text, nest.1, count)?;
    text.push_str("}")
}

/// Returns a document whose annotation is so many values, one inside another.
fn nested(alloc: Global, nest: Nest, count: usize) -> Result<String, AllocError> {
    let mut text = String::new(alloc);
    push_nested(&mut text, nest, count)?;
    Ok(text)
}

fn is_read(alloc: Global, text: &str) -> bool {
    read(alloc, text.as_bytes(), "http://example.org/m.json").is_ok()
}

/// Whether the document with so many parts is read.
fn is_within(alloc: Global, limit: &Limit, count: usize) -> Result<bool, AllocError> {
    let text = document(alloc, limit, count)?;
    Ok(is_read(alloc, text.as_str()))
}

/// Whether the document with so many parts is refused with the fault of one more part.
fn is_past(alloc: Global, limit: &Limit, count: usize) -> Result<bool, AllocError> {
    let text = document(alloc, limit, count)?;
    Ok(is_refused(alloc, text.as_str(), limit.fault))
}

#[test]
fn documents_end_at_their_limits(rt: HostRuntime) -> Result<(), Fail> {
    let alloc = rt.alloc();
    for limit in &LIMITS {
        assert!(rt;
            is_within(alloc, limit, limit.most)?,
            "{} {}",
            limit.front,
            limit.most
        );
        assert!(rt;
            is_past(alloc, limit, limit.most.saturating_add(1))?,
            "{} {}",
            limit.front,
            limit.most
        );
    }
    Ok(())
}

fn nests(alloc: Global, nest: Nest, count: usize) -> Result<bool, AllocError> {
    let text = nested(alloc, nest, count)?;
    Ok(is_read(alloc, text.as_str()))
}

fn nests_too_deep(alloc: Global, nest: Nest, count: usize) -> Result<bool, AllocError> {
    let text = nested(alloc, nest, count)?;
    Ok(is_refused(alloc, text.as_str(), (MetaCode::NotJson, "")))
}

#[test]
fn values_nest_up_to_their_limit(rt: HostRuntime) -> Result<(), Fail> {
    let alloc = rt.alloc();
    assert!(rt; nests(alloc, OBJECTS, 126)?);
    assert!(rt; nests_too_deep(alloc, OBJECTS, 127)?);
    assert!(rt; nests(alloc, ARRAYS, 126)?);
    assert!(rt; nests_too_deep(alloc, ARRAYS, 127)?);
    Ok(())
}

/// Returns a document that is padded with spaces to so many bytes.
fn filled(alloc: Global, len: usize) -> Result<String, AllocError> {
    let mut text = String::from_str(
        alloc,
        r#"{"@context":"http://www.w3.org/ns/csvw","url":"p.csv"}"#,
    )?;
    let spaces = len.saturating_sub(text.len());
    push_times(&mut text, " ", spaces)?;
    Ok(text)
}

#[test]
fn a_document_has_at_most_so_many_bytes(rt: HostRuntime) -> Result<(), Fail> {
    let alloc = rt.alloc();
    let mut text = filled(alloc, 1_048_576)?;
    assert!(rt; is_read(alloc, text.as_str()));
    text.push_str(" ")?;
    assert!(rt; is_refused(alloc, text.as_str(), (MetaCode::TooLong, "")));
    Ok(())
}
