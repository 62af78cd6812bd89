//! Tests of `schemaReference` (Metadata Vocabulary for Tabular Data, section 5.5.2.1).
use crate::reading::{document, first_unrefused, is_fault};
use csvw_description::{Description, ForeignKey};
use csvw_meta::read_by;
use csvw_meta_core::{MetaFault, Profile};
use std::alloc::{AllocError, Global};
use std::test::Fail;

/// A group whose first table has a foreign key with the part as its reference. The schema of the group is that of one more
/// table, and two tables have schemas with one `@id`.
const FRAME: (&str, &str) = (
    r#"{"@context":"http://www.w3.org/ns/csvw","tableSchema":{"@id":"g.json","columns":[{"name":"m"}]},"tables":[
    {"url":"a.csv","tableSchema":{"@id":"a.json","columns":[{"name":"k"}],"foreignKeys":[{"columnReference":"k","reference":{"#,
    r#"}}]}},
    {"url":"b.csv","tableSchema":{"@id":"schemas/b.json","columns":[{"name":"n"}]}},
    {"url":"c.csv","tableSchema":{"@id":"http://example.org/c.json#s","columns":[{"name":"n"}]}},
    {"url":"d.csv","tableSchema":{"@id":"d.json","columns":[{"name":"n"}]}},
    {"url":"e.csv","tableSchema":{"@id":"d.json","columns":[{"name":"n"}]}},
    {"url":"f.csv","tableSchema":{"columns":[{"name":"n"}]}},
    {"url":"g.csv"}]}"#,
);

/// The pointer of the foreign key.
const KEY: &str = "/tables/0/tableSchema/foreignKeys/0";

/// The references that are read in the profile w3c, each with the URL of the table.
const ACCEPTED: &str = r#""resource":"b.csv","columnReference":"n" => http://example.org/b.csv
"schemaReference":"schemas/b.json","columnReference":"n" => http://example.org/b.csv
"schemaReference":"./x/../schemas/b.json","columnReference":["n"] => http://example.org/b.csv
"schemaReference":"http://example.org/schemas/b.json","columnReference":"n" => http://example.org/b.csv
"schemaReference":"c.json#s","columnReference":"n" => http://example.org/c.csv
"schemaReference":"a.json","columnReference":"k" => http://example.org/a.csv
"schemaReference":"g.json","columnReference":"m" => http://example.org/g.csv
"#;

/// The references that are refused in the profile w3c, each with the code of its fault and the pointer below the key.
const REFUSED: &str =
    r#""schemaReference":"no.json","columnReference":"n" => BadReference /reference/schemaReference
"schemaReference":"b.csv","columnReference":"n" => BadReference /reference/schemaReference
"schemaReference":"c.json","columnReference":"n" => BadReference /reference/schemaReference
"schemaReference":"schemas/b.json#s","columnReference":"n" => BadReference /reference/schemaReference
"schemaReference":"","columnReference":"n" => BadReference /reference/schemaReference
"schemaReference":"d.json","columnReference":"n" => BadReference /reference/schemaReference
"schemaReference":"schemas/b.json","columnReference":"m" => BadReference /reference/columnReference
"schemaReference":"g.json","columnReference":["m","n"] => BadReference /reference/columnReference/1
"schemaReference":"schemas/b.json","columnReference":["n","n"] => BadReference
"resource":"schemas/b.json","columnReference":"n" => BadReference /reference/resource
"resource":"b.csv","schemaReference":"schemas/b.json","columnReference":"n" => BadProperty /reference/schemaReference
"resource":1,"schemaReference":1.5,"columnReference":"n" => BadProperty /reference/schemaReference
"schemaReference":1,"columnReference":"n" => BadProperty /reference/schemaReference
"schemaReference":null,"columnReference":"n" => BadProperty /reference/schemaReference
"schemaReference":["schemas/b.json"],"columnReference":"n" => BadProperty /reference/schemaReference
"schemaReference":1.5,"columnReference":"n" => NotSupported /reference/schemaReference
"schemaReference":"http://[","columnReference":"n" => BadUrl /reference/schemaReference
"schemaReference":"schemas/b.json" => BadProperty /reference
"columnReference":"n" => BadProperty /reference
"#;

/// The references that are refused in the profile core.
const REFUSED_IN_CORE: &str =
    r#""schemaReference":"schemas/b.json","columnReference":"n" => NotSupported /reference/schemaReference
"resource":"b.csv","schemaReference":"schemas/b.json","columnReference":"n" => NotSupported /reference/schemaReference
"schemaReference":1,"columnReference":"n" => NotSupported /reference/schemaReference
"columnReference":"n" => BadProperty /reference
"#;

fn read_part(alloc: Global, part: &str) -> Result<Result<Description, MetaFault>, AllocError> {
    let text = document(alloc, FRAME, part)?;
    Ok(read_by(
        alloc,
        text.as_bytes(),
        "http://example.org/m.json",
        Profile::W3c,
    ))
}

/// Returns the first foreign key of the first table of a description, if there is one.
fn first_key(described: &Description) -> Option<&ForeignKey> {
    let table = described.tables.as_slice().first()?;
    table.schema.as_ref()?.foreign_keys.as_slice().first()
}

fn accepts(alloc: Global, line: &str) -> Result<bool, AllocError> {
    let Some((part, url)) = line.split_once(" => ") else {
        return Ok(false);
    };
    let Ok(described) = read_part(alloc, part)? else {
        return Ok(false);
    };
    match first_key(&described) {
        Some(key) => Ok(key.resource.as_str() == url),
        None => Ok(false),
    }
}

fn refuses(alloc: Global, line: &str) -> Result<bool, AllocError> {
    let Some((part, expected)) = line.split_once(" => ") else {
        return Ok(false);
    };
    match read_part(alloc, part)? {
        Ok(_) => Ok(false),
        Err(fault) => is_fault(alloc, KEY, &fault, expected),
    }
}

#[test]
fn tables_of_schemas_are_found(rt: HostRuntime) -> Result<(), Fail> {
    for line in ACCEPTED.lines() {
        assert!(rt; accepts(rt.alloc(), line)?, "{line}");
    }
    Ok(())
}

#[test]
fn references_are_refused(rt: HostRuntime) -> Result<(), Fail> {
    for line in REFUSED.lines() {
        assert!(rt; refuses(rt.alloc(), line)?, "{line}");
    }
    Ok(())
}

#[test]
fn core_has_no_references_to_schemas(rt: HostRuntime) -> Result<(), Fail> {
    assert_eq!(rt;
        first_unrefused(rt.alloc(), FRAME, KEY, REFUSED_IN_CORE)?,
        None
    );
    Ok(())
}
