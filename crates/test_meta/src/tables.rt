//! Tests of the properties of a table that is the document.
use crate::reading::{first_unread, first_unrefused};
use std::test::Fail;

/// The parts that are read, each with its number of warnings.
const ACCEPTED: &str = r##""url":"p.csv" => 0
"url":"" => 0
"url":"p.csv#f" => 0
"url":"p.csv","@id":"t1" => 0
"url":"p.csv","@type":"Table" => 0
"url":"p.csv","dialect":{} => 0
"url":"p.csv","tableSchema":{} => 0
"url":"p.csv","notes":[] => 0
"url":"p.csv","notes":[1,"x",null] => 0
"url":"p.csv","suppressOutput":true => 0
"url":"p.csv","tableDirection":1.5 => 0
"url":"p.csv","transformations":{"a":[1.5]} => 0
"url":"p.csv","textDirection":null => 0
"url":"p.csv","foo":1 => 1
"url":"p.csv","foo":1.5 => 1
"url":"p.csv","foo":{"dc:x":1.5} => 1
"url":"p.csv","rowTitles":1 => 1
"url":"p.csv","schemaReference":1,"columns":[] => 2
"url":"p.csv","":1 => 1
"url":"p.csv","aboutUrl":"#{id}","propertyUrl":"p","valueUrl":"{+v}","default":"x","lang":"de","null":[],"ordered":true,"required":false,"separator":";" => 0
"##;

/// The parts that are refused, each with the code of its fault and the pointer below the part.
const REFUSED: &str = r#""@type":"Table" => BadProperty
"url":1 => BadProperty /url
"url":null => BadProperty /url
"url":1.5 => NotSupported /url
"url":"http://[" => BadUrl /url
"url":"p.csv","@id":"_:x" => BadId /@id
"url":"p.csv","@id":1 => BadProperty /@id
"url":"p.csv","@id":"http://[" => BadUrl /@id
"url":"p.csv","@type":"Tables" => BadProperty /@type
"url":"p.csv","@type":1 => BadProperty /@type
"url":"p.csv","@type":"TableGroup" => BadProperty /@type
"url":"p.csv","dialect":1 => BadProperty /dialect
"url":"p.csv","dialect":[] => BadProperty /dialect
"url":"p.csv","dialect":"d.json" => NotSupported /dialect
"url":"p.csv","tableSchema":1 => BadProperty /tableSchema
"url":"p.csv","tableSchema":null => BadProperty /tableSchema
"url":"p.csv","tableSchema":"s.json" => NotSupported /tableSchema
"url":"p.csv","tableSchema":1.5 => NotSupported /tableSchema
"url":"p.csv","notes":{} => BadProperty /notes
"url":"p.csv","notes":"x" => BadProperty /notes
"url":"p.csv","notes":null => BadProperty /notes
"url":"p.csv","notes":1.5 => NotSupported /notes
"url":"p.csv","notes":[1.5] => NotSupported /notes/0
"url":"p.csv","suppressOutput":"true" => BadProperty /suppressOutput
"url":"p.csv","suppressOutput":1 => BadProperty /suppressOutput
"url":"p.csv","suppressOutput":1.5 => NotSupported /suppressOutput
"url":"p.csv","aboutUrl":"{" => BadTemplate /aboutUrl
"url":"p.csv","lang":"e n" => BadProperty /lang
"url":"p.csv","null":["",1] => BadProperty /null/1
"url":"p.csv","separator":"" => BadProperty /separator
"#;

const FRAME: (&str, &str) = (r#"{"@context":"http://www.w3.org/ns/csvw","#, r#"}"#);

#[test]
fn tables_are_read(rt: HostRuntime) -> Result<(), Fail> {
    assert_eq!(rt; first_unread(rt.alloc(), FRAME, ACCEPTED)?, None);
    Ok(())
}

#[test]
fn tables_are_refused(rt: HostRuntime) -> Result<(), Fail> {
    assert_eq!(rt; first_unrefused(rt.alloc(), FRAME, "", REFUSED)?, None);
    Ok(())
}
