//! Tests of `Description::read` and `Description::plain`.
use csvw_description::Description;
use csvw_meta::ReadDescription;
use csvw_meta_core::{MetaCode, MetaFault};

/// Whether the result is the description of the one table of this URL, without a schema and a dialect of its own.
fn is_of_table(described: Result<Description, MetaFault>, url: &str) -> bool {
    let Ok(described) = described else {
        return false;
    };
    match described.tables.as_slice() {
        [table] => {
            table.url.iri().as_str() == url && table.schema.is_none() && table.dialect.is_none()
        }
        _ => false,
    }
}

/// Whether the result is a fault of this code at this pointer.
fn is_fault(described: Result<Description, MetaFault>, code: MetaCode, pointer: &str) -> bool {
    match described {
        Ok(_) => false,
        Err(fault) => fault.code == code && fault.pointer.as_str() == pointer,
    }
}

/// A document that is read.
const DOCUMENT: &str = r#"{"@context":"http://www.w3.org/ns/csvw","url":"p.csv"}"#;

/// The document with white space around its tokens.
const SPACED: &str = " \r\n{\"@context\" : \"http://www.w3.org/ns/csvw\"\t,\n\"url\":\"p.csv\"}\n";

/// A document without a table.
const NO_TABLE: &str = r#"{"@context":"http://www.w3.org/ns/csvw"}"#;

#[test]
fn documents_are_read(rt: HostRuntime) {
    let alloc = rt.alloc();
    let base = "http://example.org/m.json";
    let read = Description::read(alloc, DOCUMENT.as_bytes(), base);
    assert!(rt; is_of_table(read, "http://example.org/p.csv"));
    let read = Description::read(alloc, SPACED.as_bytes(), base);
    assert!(rt; is_of_table(read, "http://example.org/p.csv"));
    let read = Description::read(alloc, NO_TABLE.as_bytes(), base);
    assert!(rt; is_fault(read, MetaCode::BadProperty, ""));
    let read = Description::read(alloc, DOCUMENT.as_bytes(), "m.json");
    assert!(rt; is_fault(read, MetaCode::BadUrl, ""));
}

#[test]
fn tables_are_described_by_their_urls(rt: HostRuntime) {
    let alloc = rt.alloc();
    let plain = Description::plain(alloc, "http://example.org/p.csv");
    assert!(rt; is_of_table(plain, "http://example.org/p.csv"));
    let plain = Description::plain(alloc, "p.csv");
    assert!(rt; is_fault(plain, MetaCode::BadUrl, "/url"));
}
