//! Tests of the properties of a column.
use crate::reading::{first_unread, first_unrefused};
use std::test::Fail;

/// The parts that are read, each with its number of warnings.
const ACCEPTED: &str = r#" => 0
"name":"a" => 0
"name":"a.b_1" => 0
"name":"a%20b" => 0
"name":"0" => 0
"titles":"x" => 0
"titles":"" => 0
"titles":[] => 0
"titles":["x","y"] => 0
"titles":{"en":"x","de":["y","z"]} => 0
"titles":{} => 0
"suppressOutput":true => 0
"virtual":true => 0
"@id":"c","@type":"Column" => 0
"url":1 => 1
"notes":1 => 1
"dc:x":{"@id":"a","dc:y":[1,{"z":1}]} => 1
"#;

/// The parts that are refused, each with the code of its fault and the pointer below the part.
const REFUSED: &str = r#""name":"_a" => BadName /name
"name":"" => BadName /name
"name":"a b" => BadName /name
"name":"a..b" => BadName /name
"name":"a." => BadName /name
"name":".a" => BadName /name
"name":"a%2" => BadName /name
"name":"a-b" => BadName /name
"name":"é" => BadName /name
"name":1 => BadProperty /name
"name":["a"] => BadProperty /name
"name":1.5 => NotSupported /name
"titles":1 => BadProperty /titles
"titles":null => BadProperty /titles
"titles":[1] => BadProperty /titles/0
"titles":["a",1.5] => NotSupported /titles/1
"titles":{"e n":"x"} => BadProperty /titles/e n
"titles":{"en":1} => BadProperty /titles/en
"titles":{"en":["x",1]} => BadProperty /titles/en/1
"titles":{"en":{}} => BadProperty /titles/en
"suppressOutput":"x" => BadProperty /suppressOutput
"virtual":1 => BadProperty /virtual
"virtual":"true" => BadProperty /virtual
"@id":"_:c" => BadId /@id
"@id":1 => BadProperty /@id
"@type":"Columns" => BadProperty /@type
"dc:x":1.5 => NotSupported /dc:x
"dc:x":{"@id":"_:b"} => BadId /dc:x/@id
":x":1 => BadProperty /:x
"a~/b:c":1 => BadProperty /a~0~1b:c
"#;

const FRAME: (&str, &str) = (
    r#"{"@context":"http://www.w3.org/ns/csvw","url":"p.csv","tableSchema":{"columns":[{"#,
    r#"}]}}"#,
);

#[test]
fn columns_are_read(rt: HostRuntime) -> Result<(), Fail> {
    assert_eq!(rt; first_unread(rt.alloc(), FRAME, ACCEPTED)?, None);
    Ok(())
}

#[test]
fn columns_are_refused(rt: HostRuntime) -> Result<(), Fail> {
    assert_eq!(rt;
        first_unrefused(rt.alloc(), FRAME, "/tableSchema/columns/0", REFUSED)?,
        None
    );
    Ok(())
}
