//! Tests of common properties and notes.
use crate::reading::{first_unread, first_unrefused};
use std::test::Fail;

/// The parts that are read, each with its number of warnings.
const ACCEPTED: &str = r#""dc:x":null => 0
"dc:x":"a" => 0
"dc:x":1 => 0
"dc:x":-1 => 0
"dc:x":18446744073709551615 => 0
"dc:x":true => 0
"dc:x":[] => 0
"dc:x":[[["a"]],null] => 0
"dc:x":{} => 0
"dc:x":{"@value":"a"} => 0
"dc:x":{"@value":"a","@language":"en"} => 0
"dc:x":{"@value":1,"@type":"xsd:byte"} => 0
"dc:x":{"@value":"a","y":1.5} => 1
"dc:x":{"@id":"a"} => 0
"dc:x":{"@id":"dc:a"} => 0
"dc:x":{"@type":"oa:A"} => 0
"dc:x":{"@type":["oa:A","http://x.org/B"]} => 0
"dc:x":{"y":1.5,"z":{"dc:w":1.5}} => 2
"http://x.org/p":1,"urn:p":2,"unknown:p":3 => 0
"notes":[{"y":1},{"@id":"a","dc:x":{"z":1}}] => 2
"dc:x":{"@type":[]} => 0
"#;

/// The parts that are refused, each with the code of its fault and the pointer below the part.
const REFUSED: &str = r#""dc:x":1.5 => NotSupported /dc:x
"dc:x":[1,1.5] => NotSupported /dc:x/1
"dc:x":{"@list":[]} => NotSupported /dc:x/@list
"dc:x":{"@set":1} => NotSupported /dc:x/@set
"1:x":1 => BadProperty /1:x
:x => NotJson
":x":1 => BadProperty /:x
"a b:x":1 => BadProperty /a b:x
"+a:x":1 => BadProperty /+a:x
"dc:x":{"@value":"a","@language":"en","@type":"xsd:string"} => BadProperty /dc:x
"dc:x":{"@value":null} => BadProperty /dc:x/@value
"dc:x":{"@value":[]} => BadProperty /dc:x/@value
"dc:x":{"@value":{}} => BadProperty /dc:x/@value
"dc:x":{"@value":1.5} => NotSupported /dc:x/@value
"dc:x":{"@value":1,"@language":"en"} => BadProperty /dc:x/@language
"dc:x":{"@value":true,"@language":"en"} => BadProperty /dc:x/@language
"dc:x":{"@value":"a","@language":1} => BadProperty /dc:x/@language
"dc:x":{"@value":"a","@language":"e n"} => BadProperty /dc:x/@language
"dc:x":{"@value":"a","@type":"x"} => BadProperty /dc:x/@type
"dc:x":{"@value":"a","@type":["xsd:date"]} => BadProperty /dc:x/@type
"dc:x":{"@value":"a","@id":"x"} => BadProperty /dc:x/@id
"dc:x":{"@value":"a","dc:y":1} => BadProperty /dc:x/dc:y
"dc:x":{"@value":"a","@list":[]} => BadProperty /dc:x/@list
"dc:x":{"@id":1} => BadProperty /dc:x/@id
"dc:x":{"@id":null} => BadProperty /dc:x/@id
"dc:x":{"@id":"_:b"} => BadId /dc:x/@id
"dc:x":{"@id":"http://["} => BadUrl /dc:x/@id
"dc:x":{"@type":1} => BadProperty /dc:x/@type
"dc:x":{"@type":["oa:A",1]} => BadProperty /dc:x/@type/1
"dc:x":{"@type":"x"} => BadProperty /dc:x/@type
"dc:x":{"@context":1} => BadProperty /dc:x/@context
"dc:x":{"@language":"en"} => BadProperty /dc:x/@language
"dc:x":{"dc:y":{"dc:z":[{"dc:w":1.5}]}} => NotSupported /dc:x/dc:y/dc:z/0/dc:w
"notes":[{"dc:x":1.5}] => NotSupported /notes/0/dc:x
"notes":[{"@value":1.5}] => NotSupported /notes/0/@value
"dc:x":{"a~b:c":{"d/e:f":1}} => BadProperty /dc:x/a~0b:c
"#;

const FRAME: (&str, &str) = (
    r#"{"@context":"http://www.w3.org/ns/csvw","url":"p.csv","#,
    r#"}"#,
);

#[test]
fn annotations_are_read(rt: HostRuntime) -> Result<(), Fail> {
    assert_eq!(rt; first_unread(rt.alloc(), FRAME, ACCEPTED)?, None);
    Ok(())
}

#[test]
fn annotations_are_refused(rt: HostRuntime) -> Result<(), Fail> {
    assert_eq!(rt; first_unrefused(rt.alloc(), FRAME, "", REFUSED)?, None);
    Ok(())
}
