//! Tests of whole documents with several faults.
use crate::listing::{Kind, first_wrong};
use csvw_meta_core::Profile;
use csvw_meta_faults::faults_in;
use std::test::Fail;

/// Documents of which the context or the whole is wrong.
const WHOLE: &str = r#"x => NotJson
1.5 => NotSupported
[1] => BadContext
{C,"url":"a.csv"} => none
{"url":1} => BadContext; BadProperty /url
{"@context":["http://www.w3.org/ns/csvw",{"a":1}],"url":1} => BadContext /@context/1/a; BadProperty /url
{"@context":["http://www.w3.org/ns/csvw",{"a":1,"@base":"http://example.org/b/"}],"url":1} => BadContext /@context/1/a; BadProperty /url
"#;

/// Documents whose context has faults. The parts are read in it as far as it could be read.
const CONTEXTS: &str =
    r#"{"@context":["http://www.w3.org/ns/csvw",{"@language":1,"@base":2}],"url":1} => BadContext /@context/1/@language; BadContext /@context/1/@base; BadProperty /url
{"@context":["http://www.w3.org/ns/csvw",{"@base":"http://[x","@language":"1"}],"tables":[{"url":"a.csv","tableSchema":{"columns":[{"name":"x","datatype":"no"}]}},{"url":"b.csv"},{"url":"http://example.org/a.csv"},{"url":"a.csv"}]} => BadContext /@context/1/@language; BadUrl /@context/1/@base; NotSupported /tables/0/tableSchema/columns/0/datatype; DuplicateTable /tables/2/url; DuplicateTable /tables/3/url
{"@context":["http://www.w3.org/ns/csvw",{"@base":"b/","@language":"e n"}],"tables":[{"url":"a"},{"url":"http://example.org/a"},{"url":"http://example.org/b/a"}]} => BadContext /@context/1/@language; DuplicateTable /tables/2/url
{"@context":["http://www.w3.org/ns/csvw",{"@base":1.5,"@language":"en"}],"url":"a","tableSchema":{"columns":[{"titles":{"de":"y","en":"x"}},{"name":"y"},{"name":"x"}]}} => NotSupported /@context/1/@base; DuplicateName /tableSchema/columns/2
{"@context":["http://www.w3.org/ns/csvw",{"@language":"e n"}],"url":"a","tableSchema":{"columns":[{"titles":{"de":"y","en":"x"}},{"name":"x"},{"name":"y"}]}} => BadContext /@context/1/@language; DuplicateName /tableSchema/columns/2
{"@context":"http://example.org/","tables":[{"url":"a"},{"url":"http://example.org/a"},{"url":1}]} => BadContext /@context; BadProperty /tables/2/url; DuplicateTable /tables/1/url
{"@context":["http://www.w3.org/ns/csvw",{"@base":"b/"},{}],"tables":[{"url":"a"},{"url":"http://example.org/a"}]} => BadContext /@context; DuplicateTable /tables/1/url
{"@context":[{"@base":"b/"}],"url":"a","tableSchema":{"columns":[{"name":"x"}],"primaryKey":"z"}} => BadContext /@context; BadReference /tableSchema/primaryKey
{"@context":{"@base":"b/"},"url":"http://["} => BadContext /@context; BadUrl /url
"#;

/// Documents with faults of single values.
const VALUES: &str = r#"{C,"url":"http://["} => BadUrl /url
{C,"tables":[],"@type":"Table"} => BadProperty /@type; BadProperty /tables
{C,"url":"a","dialect":{"header":1},"tableSchema":{"columns":[{"name":"x","required":1,"datatype":1},{"name":"_a"}],"primaryKey":"y"}} => BadProperty /dialect/header; BadProperty /tableSchema/columns/0/datatype; BadProperty /tableSchema/columns/0/required; BadName /tableSchema/columns/1/name
{C,"tables":[{"url":"a","dc:x":1.5},{"suppressOutput":1}],"lang":5,"@id":"_:b"} => NotSupported /tables/0/dc:x; BadProperty /tables/1/suppressOutput; BadProperty /tables/1; BadId /@id; BadProperty /lang
"#;

/// Documents with faults of several values together.
const TOGETHER: &str =
    r#"{C,"tables":[{"url":"a"},{"url":1},{"url":"b"},{"url":"a"},3,{"url":"b"},{"url":"a"}]} => BadProperty /tables/1/url; BadProperty /tables/4; DuplicateTable /tables/3/url; DuplicateTable /tables/5/url; DuplicateTable /tables/6/url
{C,"url":"a","tableSchema":{"columns":[{"name":"x"},{"name":1},{"name":"x"},{"titles":"y","virtual":true},{"name":"y"},{"name":"x","virtual":1},{"name":"z"}]}} => BadProperty /tableSchema/columns/1/name; BadProperty /tableSchema/columns/5/virtual; DuplicateName /tableSchema/columns/2; DuplicateName /tableSchema/columns/4; DuplicateName /tableSchema/columns/5; VirtualOrder /tableSchema/columns/4; VirtualOrder /tableSchema/columns/6
{C,"url":"a","tableSchema":{"columns":[{"name":"x"}],"primaryKey":["x","p","q"]}} => BadReference /tableSchema/primaryKey/1; BadReference /tableSchema/primaryKey/2
{C,"url":"a","tableSchema":{"columns":[{"name":"x"},1],"primaryKey":["x","p"]}} => BadProperty /tableSchema/columns/1
"#;

/// Groups whose foreign keys name what does not exist.
const REFERENCES: &str =
    r#"{C,"tables":[{"url":"a","tableSchema":{"columns":[{"name":"x"},{"name":"y"}],"foreignKeys":[{"columnReference":["x","p"],"reference":{"resource":"b","columnReference":["z","q"]}},{"columnReference":"x","reference":{"resource":"c","columnReference":"z"}},{"columnReference":["x","y"],"reference":{"resource":"b","columnReference":"z"}}]}},{"url":"b","tableSchema":{"columns":[{"name":"z"}]}}]} => BadReference /tables/0/tableSchema/foreignKeys/0/columnReference/1; BadReference /tables/0/tableSchema/foreignKeys/0/reference/columnReference/1; BadReference /tables/0/tableSchema/foreignKeys/1/reference/resource; BadReference /tables/0/tableSchema/foreignKeys/2
{C,"tables":[{"url":"a","tableSchema":{"columns":[{"name":"x"}],"primaryKey":"p","foreignKeys":[{"columnReference":"p","reference":{"resource":"b","columnReference":"q"}}]}},{"url":"b","tableSchema":{"columns":[{"name":1}]}}]} => BadProperty /tables/1/tableSchema/columns/0/name; BadReference /tables/0/tableSchema/primaryKey; BadReference /tables/0/tableSchema/foreignKeys/0/columnReference
{C,"tables":[{"url":"a"},{"url":"b","tableSchema":{"columns":[],"primaryKey":"x"}}],"tableSchema":{"columns":[{"name":"x"}],"primaryKey":"y","foreignKeys":[{"columnReference":"x","reference":{"resource":"a","columnReference":["x","w"]}}]}} => BadReference /tableSchema/primaryKey; BadReference /tableSchema/foreignKeys/0/reference/columnReference/1; BadReference /tableSchema/foreignKeys/0; BadReference /tables/1/tableSchema/primaryKey
{C,"tables":[{"url":1},{"url":"b","tableSchema":{"columns":[{"name":"x"}],"foreignKeys":[{"columnReference":"x","reference":{"resource":"c","columnReference":"z"}},{"columnReference":"p","reference":{"resource":"b","columnReference":["q","x"]}}]}}]} => BadProperty /tables/0/url; BadReference /tables/1/tableSchema/foreignKeys/1/columnReference; BadReference /tables/1/tableSchema/foreignKeys/1
"#;

/// Documents whose row titles have faults, or name what does not exist.
const ROW_TITLES: &str =
    r#"{C,"url":"a","tableSchema":{"columns":[{"name":"x"}],"rowTitles":["p",1],"primaryKey":"q"}} => NotSupported /tableSchema/rowTitles; BadReference /tableSchema/primaryKey
{W,"url":"a","tableSchema":{"columns":[{"name":"x"}],"rowTitles":"x"}} => none
{W,"url":"a","tableSchema":{"columns":[{"name":1}],"rowTitles":"x"}} => BadProperty /tableSchema/columns/0/name
{W,"url":"a","tableSchema":{"rowTitles":["x",1,"p"],"foreignKeys":[{"columnReference":"r","reference":{"resource":"a","columnReference":"x"}}],"primaryKey":["q",2],"columns":[{"name":"x"}]}} => BadProperty /tableSchema/primaryKey/1; BadProperty /tableSchema/rowTitles/1; BadReference /tableSchema/primaryKey/0; BadReference /tableSchema/rowTitles/2; BadReference /tableSchema/foreignKeys/0/columnReference
"#;

/// Documents whose foreign keys name tables by schemas.
const SCHEMA_REFERENCES: &str =
    r#"{C,"url":"a","tableSchema":{"columns":[{"name":"x"}],"foreignKeys":[{"columnReference":"x","reference":{"schemaReference":"s"}}]}} => NotSupported /tableSchema/foreignKeys/0/reference/schemaReference; BadProperty /tableSchema/foreignKeys/0/reference; BadProperty /tableSchema/foreignKeys/0/reference
{W,"url":"a","tableSchema":{"@id":"s","columns":[{"name":"x"}],"foreignKeys":[{"columnReference":"x","reference":{"schemaReference":"s","columnReference":"x"}}]}} => none
{W,"url":"a","tableSchema":{"columns":[{"name":"x"}],"foreignKeys":[{"columnReference":"x","reference":{"schemaReference":1}},{"columnReference":"x","reference":{}}]}} => BadProperty /tableSchema/foreignKeys/0/reference/schemaReference; BadProperty /tableSchema/foreignKeys/0/reference; BadProperty /tableSchema/foreignKeys/1/reference; BadProperty /tableSchema/foreignKeys/1/reference
{W,"tables":[{"url":"a","tableSchema":{"columns":[{"name":"x"}],"foreignKeys":[{"columnReference":["x","p"],"reference":{"schemaReference":"s","columnReference":["z","q"]}},{"columnReference":"p","reference":{"schemaReference":"t","columnReference":"q"}},{"columnReference":"x","reference":{"schemaReference":"t","resource":"b","columnReference":"q"}}]}},{"url":"b","tableSchema":{"@id":"s","columns":[{"name":"z"}]}}]} => BadProperty /tables/0/tableSchema/foreignKeys/2/reference/schemaReference; BadReference /tables/0/tableSchema/foreignKeys/0/columnReference/1; BadReference /tables/0/tableSchema/foreignKeys/0/reference/columnReference/1; BadReference /tables/0/tableSchema/foreignKeys/1/reference/schemaReference; BadReference /tables/0/tableSchema/foreignKeys/2/reference/columnReference
{W,"tables":[{"url":"a","tableSchema":{"columns":[{"name":"x"}],"foreignKeys":[{"columnReference":"x","reference":{"schemaReference":"s","columnReference":"z"}}]}},{"url":"b"}],"tableSchema":{"@id":"s","columns":[{"name":"z"}]}} => none
{W,"tables":[{"url":"a","tableSchema":{"columns":[{"name":"x"}],"foreignKeys":[{"columnReference":"x","reference":{"schemaReference":"s","columnReference":"z"}}]}},{"url":"b"},{"url":"c"}],"tableSchema":{"@id":"s","columns":[{"name":"z"}]}} => BadReference /tables/0/tableSchema/foreignKeys/0/reference/schemaReference
{W,"tables":[{"url":"a","tableSchema":{"columns":[{"name":"x"}],"foreignKeys":[{"columnReference":"x","reference":{"schemaReference":"s","columnReference":"q"}},{"columnReference":"p","reference":{"schemaReference":"t","columnReference":"z"}}]}},{"url":"b","tableSchema":{"@id":1,"columns":[{"name":"z"}]}}]} => BadProperty /tables/1/tableSchema/@id
{W,"tables":[{"url":"a","tableSchema":{"columns":[{"name":"x"}],"foreignKeys":[{"columnReference":"p","reference":{"schemaReference":"s","columnReference":"q"}},{"columnReference":"x","reference":{"schemaReference":"t","columnReference":"q"}}]}},{"url":"b","tableSchema":{"@id":"s","columns":[{"name":1}]}},{"url":"c","tableSchema":{"@id":"t","columns":[{"name":"z"}]}}]} => BadProperty /tables/1/tableSchema/columns/0/name; BadReference /tables/0/tableSchema/foreignKeys/0/columnReference; BadReference /tables/0/tableSchema/foreignKeys/1/reference/columnReference
{W,"tables":[{"url":"a","tableSchema":{"columns":[{"name":"x"}],"foreignKeys":[{"columnReference":"x","reference":{"schemaReference":"s","columnReference":"q"}}]}},1]} => BadProperty /tables/1
"#;

#[test]
fn whole(rt: HostRuntime) -> Result<(), Fail> {
    assert_eq!(rt; first_wrong(rt.alloc(), Kind::Document, WHOLE)?, None);
    Ok(())
}

#[test]
fn contexts(rt: HostRuntime) -> Result<(), Fail> {
    assert_eq!(rt; first_wrong(rt.alloc(), Kind::Document, CONTEXTS)?, None);
    Ok(())
}

#[test]
fn values(rt: HostRuntime) -> Result<(), Fail> {
    assert_eq!(rt; first_wrong(rt.alloc(), Kind::Document, VALUES)?, None);
    Ok(())
}

#[test]
fn together(rt: HostRuntime) -> Result<(), Fail> {
    assert_eq!(rt; first_wrong(rt.alloc(), Kind::Document, TOGETHER)?, None);
    Ok(())
}

#[test]
fn schema_references(rt: HostRuntime) -> Result<(), Fail> {
    assert_eq!(rt;
        first_wrong(rt.alloc(), Kind::Document, SCHEMA_REFERENCES)?,
        None
    );
    Ok(())
}

#[test]
fn references(rt: HostRuntime) -> Result<(), Fail> {
    assert_eq!(rt; first_wrong(rt.alloc(), Kind::Document, REFERENCES)?, None);
    Ok(())
}

#[test]
fn row_titles(rt: HostRuntime) -> Result<(), Fail> {
    assert_eq!(rt; first_wrong(rt.alloc(), Kind::Document, ROW_TITLES)?, None);
    Ok(())
}

#[test]
fn without_url(rt: HostRuntime) -> Result<(), Fail> {
    let found = faults_in(rt.alloc(), b"{}", "m.json", Profile::Core)?;
    assert_eq!(rt; found.len(), 1);
    Ok(())
}
