//! Tests of the properties of a schema.
use crate::reading::{first_unread, first_unrefused};
use std::test::Fail;

/// The parts that are read, each with its number of warnings.
const ACCEPTED: &str = r#" => 0
"columns":[] => 0
"columns":[{},{}] => 0
"@id":"s","@type":"Schema" => 0
"notes":[] => 1
"name":"x" => 1
"dc:x":{"y":1} => 1
"dc:x":[{"y":1},{"z":2,"dc:w":{"v":1}}] => 3
"columns":[{"name":"a"},{"virtual":true},{"virtual":true}] => 0
"foreignKeys":[] => 0
"#;

/// The parts that are refused, each with the code of its fault and the pointer below the part.
const REFUSED: &str = r#""columns":1 => BadProperty /columns
"columns":{} => BadProperty /columns
"columns":null => BadProperty /columns
"columns":[1] => BadProperty /columns/0
"columns":[1.5] => NotSupported /columns/0
"columns":["a"] => BadProperty /columns/0
"@id":"_:s" => BadId /@id
"@id":1 => BadProperty /@id
"@type":"Table" => BadProperty /@type
"rowTitles":"a" => NotSupported /rowTitles
"rowTitles":1 => NotSupported /rowTitles
"rowTitles":[] => NotSupported /rowTitles
"dc:x":1.5 => NotSupported /dc:x
"1:x":1 => BadProperty /1:x
"dc:x":{"@list":[]} => NotSupported /dc:x/@list
"columns":[{"name":"n"},{"name":"n"}] => DuplicateName /columns/1
"columns":[{"name":"n"},{"titles":"n"}] => DuplicateName /columns/1
"columns":[{"titles":"a b"},{"name":"a%20b"}] => DuplicateName /columns/1
"columns":[{},{"titles":"_col.1"}] => DuplicateName /columns/1
"columns":[{"virtual":true},{"name":"a"}] => VirtualOrder /columns/1
"columns":[{"name":"a"},{"virtual":true},{"virtual":true},{"name":"b"}] => VirtualOrder /columns/3
"primaryKey":[] => BadProperty /primaryKey
"primaryKey":1 => BadProperty /primaryKey
"foreignKeys":1 => BadProperty /foreignKeys
"foreignKeys":[1] => BadProperty /foreignKeys/0
"lang":1 => BadProperty /lang
"valueUrl":"{}" => BadTemplate /valueUrl
"#;

const FRAME: (&str, &str) = (
    r#"{"@context":"http://www.w3.org/ns/csvw","url":"p.csv","tableSchema":{"#,
    r#"}}"#,
);

#[test]
fn schemas_are_read(rt: HostRuntime) -> Result<(), Fail> {
    assert_eq!(rt; first_unread(rt.alloc(), FRAME, ACCEPTED)?, None);
    Ok(())
}

#[test]
fn schemas_are_refused(rt: HostRuntime) -> Result<(), Fail> {
    assert_eq!(rt;
        first_unrefused(rt.alloc(), FRAME, "/tableSchema", REFUSED)?,
        None
    );
    Ok(())
}
