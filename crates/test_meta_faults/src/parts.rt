//! Tests of contexts, dialects and annotations with several faults.
use crate::listing::{Kind, first_wrong};
use std::test::Fail;

/// Contexts, each with its faults.
const CONTEXTS: &str = r#"{"@context":"http://www.w3.org/ns/csvw"} => none
{"@context":["http://www.w3.org/ns/csvw",{"@language":"en","@base":"t/"}]} => none
{} => BadContext
{"@context":1.5} => NotSupported /@context
{"@context":["http://www.w3.org/ns/csvw",1]} => BadContext /@context
{"@context":["http://www.w3.org/ns/csvw",{"@language":1,"@base":"http://[","b/c":1.5,"a":1}]} => BadContext /@context/1/a; NotSupported /@context/1/b~1c; BadContext /@context/1/@language; BadUrl /@context/1/@base
"#;

/// Dialects, each with its faults.
const DIALECTS: &str = r#"{} => none
{"lang":"en","delimiter":";"} => none
"d.json" => NotSupported
1.5 => NotSupported
{"encoding":"latin1","trim":"x","header":1,"headerRowCount":9,"delimiter":"ab","@id":"_:a"} => BadId /@id; NotSupported /delimiter; BadProperty /header; TooMany /headerRowCount; BadProperty /trim; NotSupported /encoding
{"header":1,"delimiter":"\"","dc:x":1.5} => BadProperty /header; BadDialect; NotSupported /dc:x
{"quoteChar":1,"delimiter":"\""} => BadProperty /quoteChar
{"quoteChar":"''","delimiter":"\\","doubleQuote":false} => BadProperty /quoteChar; BadDialect
{"lineTerminators":[]} => BadDialect /lineTerminators
{"lineTerminators":["\r","\n",1]} => NotSupported /lineTerminators/0; BadProperty /lineTerminators/2
"#;

/// Tables, each with the faults of its annotations.
const NOTES: &str = r#"{"lang":1.5,"dc:title":"t","notes":[{"dc:x":null}]} => none
{"notes":1} => BadProperty /notes
{"dc:b":[1,2.5,{"@value":true,"@language":"en"}],"dc:a":1.5,"notes":[{"@id":"_:x"},1.5]} => NotSupported /dc:a; NotSupported /dc:b/1; BadProperty /dc:b/2/@language; BadId /notes/0/@id; NotSupported /notes/1
{"dc:a":{"@id":"_:x","@type":["1:a","dc:T",1],"@set":1,"@x":1,"dc:y":{"@value":1.5,"dc:z":1}}} => NotSupported /dc:a/@set; BadProperty /dc:a/@x; BadId /dc:a/@id; BadProperty /dc:a/@type/0; BadProperty /dc:a/@type/2; BadProperty /dc:a/dc:y/dc:z; NotSupported /dc:a/dc:y/@value
"#;

/// Columns, each with the faults of its annotations.
const UNLISTED: &str = r#"{"notes":1,"x":1.5} => none
{"dc:b":{"@value":"v","@language":"e n","@type":1},"dc:a":1.5} => NotSupported /dc:a; BadProperty /dc:b; BadProperty /dc:b/@language; BadProperty /dc:b/@type
"#;

#[test]
fn contexts(rt: HostRuntime) -> Result<(), Fail> {
    assert_eq!(rt; first_wrong(rt.alloc(), Kind::Context, CONTEXTS)?, None);
    Ok(())
}

#[test]
fn dialects(rt: HostRuntime) -> Result<(), Fail> {
    assert_eq!(rt; first_wrong(rt.alloc(), Kind::Dialect, DIALECTS)?, None);
    Ok(())
}

#[test]
fn notes(rt: HostRuntime) -> Result<(), Fail> {
    assert_eq!(rt; first_wrong(rt.alloc(), Kind::Notes, NOTES)?, None);
    Ok(())
}

#[test]
fn unlisted(rt: HostRuntime) -> Result<(), Fail> {
    assert_eq!(rt; first_wrong(rt.alloc(), Kind::Unlisted, UNLISTED)?, None);
    Ok(())
}
