//! Tests of the properties of a group and of its tables.
use crate::reading::{first_unread, first_unrefused};
use std::test::Fail;

/// The parts that are read, each with its number of warnings.
const ACCEPTED: &str = r#""tables":[{"url":"p.csv"}] => 0
"tables":[{"url":"p.csv"},{"url":"q.csv"}],"@type":"TableGroup","@id":"g" => 0
"tables":[{"url":"p.csv"}],"url":"x" => 1
"tables":[{"url":"p.csv"}],"suppressOutput":1 => 1
"tables":[{"url":"p.csv","@context":"http://www.w3.org/ns/csvw"}] => 1
"tables":[{"url":"p.csv","tables":[]}] => 1
"tables":[{"url":"p.csv"}],"dialect":{"foo":1},"tableSchema":{"foo":1,"columns":[{"foo":1}]} => 3
"tables":[{"url":"p.csv"}],"notes":["x"],"dc:title":"T","tableDirection":1,"transformations":1 => 0
"#;

/// The parts that are refused, each with the code of its fault and the pointer below the part.
const REFUSED: &str = r#""tables":[] => BadProperty /tables
"tables":1 => BadProperty /tables
"tables":{} => BadProperty /tables
"tables":null => BadProperty /tables
"tables":1.5 => NotSupported /tables
"tables":[1] => BadProperty /tables/0
"tables":[1.5] => NotSupported /tables/0
"tables":[{}] => BadProperty /tables/0
"tables":[{"url":1}] => BadProperty /tables/0/url
"tables":[{"url":"p.csv"},{"url":"./p.csv"}] => DuplicateTable /tables/1/url
"tables":[{"url":"p.csv"},{"url":"q.csv"},{"url":"p.csv#x"}] => DuplicateTable /tables/2/url
"tables":[{"url":"p.csv"}],"@id":"_:x" => BadId /@id
"tables":[{"url":"p.csv"}],"@id":null => BadProperty /@id
"tables":[{"url":"p.csv"}],"@type":"Table" => BadProperty /@type
"tables":[{"url":"p.csv"}],"dialect":{"header":1} => BadProperty /dialect/header
"tables":[{"url":"p.csv","dialect":{}}],"dialect":{"delimiter":";;"} => NotSupported /dialect/delimiter
"tables":[{"url":"p.csv"}],"tableSchema":{"columns":1} => BadProperty /tableSchema/columns
"tables":[{"url":"p.csv","tableSchema":{}}],"tableSchema":{"columns":[{"name":"_a"}]} => BadName /tableSchema/columns/0/name
"tables":[{"url":"p.csv"}],"notes":{} => BadProperty /notes
"tables":[{"url":"p.csv"}],"dc:x":1.5 => NotSupported /dc:x
"tables":[{"url":"p.csv","dc:x":1.5}] => NotSupported /tables/0/dc:x
"tables":[{"url":"p.csv","notes":1}] => BadProperty /tables/0/notes
"tables":[{"url":"p.csv"}],"required":1 => BadProperty /required
"#;

const FRAME: (&str, &str) = (r#"{"@context":"http://www.w3.org/ns/csvw","#, r#"}"#);

#[test]
fn groups_are_read(rt: HostRuntime) -> Result<(), Fail> {
    assert_eq!(rt; first_unread(rt.alloc(), FRAME, ACCEPTED)?, None);
    Ok(())
}

#[test]
fn groups_are_refused(rt: HostRuntime) -> Result<(), Fail> {
    assert_eq!(rt; first_unrefused(rt.alloc(), FRAME, "", REFUSED)?, None);
    Ok(())
}
