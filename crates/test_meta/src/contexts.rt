//! Tests of the form of a document and of its context.
use crate::reading::{first_unread, first_unrefused};
use std::test::Fail;

/// The parts that are read, each with its number of warnings.
const ACCEPTED: &str = r#"{"@context":"http://www.w3.org/ns/csvw","url":"p.csv"} => 0
﻿{"@context":"http://www.w3.org/ns/csvw","url":"p.csv"} => 0
  {"@context":"http://www.w3.org/ns/csvw" , "url":"p.csv"}  => 0
{"@context":["http://www.w3.org/ns/csvw"],"url":"p.csv"} => 0
{"@context":["http://www.w3.org/ns/csvw",{}],"url":"p.csv"} => 0
{"@context":["http://www.w3.org/ns/csvw",{"@language":"en-GB","@base":"b/"}],"url":"p.csv"} => 0
{"@context":"http://www.w3.org/ns/csvw","tables":[{"url":"p.csv"}]} => 0
"#;

/// The parts that are refused, each with the code of its fault and the pointer below the part.
const REFUSED: &str = r#" => NotJson
{ => NotJson
{"url":"p.csv"} x => NotJson
{'url':1} => NotJson
[] => BadContext
"x" => BadContext
null => BadContext
1.5 => NotSupported
{} => BadContext
{"url":"p.csv"} => BadContext
{"@context":"http://www.w3.org/ns/csvw#","url":"p.csv"} => BadContext /@context
{"@context":null,"url":"p.csv"} => BadContext /@context
{"@context":1.5,"url":"p.csv"} => NotSupported /@context
{"@context":{},"url":"p.csv"} => BadContext /@context
{"@context":[],"url":"p.csv"} => BadContext /@context
{"@context":[{},"http://www.w3.org/ns/csvw"],"url":"p.csv"} => BadContext /@context
{"@context":["http://www.w3.org/ns/csvw",{},{}],"url":"p.csv"} => BadContext /@context
{"@context":["http://www.w3.org/ns/csvw","en"],"url":"p.csv"} => BadContext /@context
{"@context":["http://www.w3.org/ns/csvw",{"@vocab":"x"}],"url":"p.csv"} => BadContext /@context/1/@vocab
{"@context":["http://www.w3.org/ns/csvw",{"a/b~c":1}],"url":"p.csv"} => BadContext /@context/1/a~1b~0c
{"@context":["http://www.w3.org/ns/csvw",{"@language":1}],"url":"p.csv"} => BadContext /@context/1/@language
{"@context":["http://www.w3.org/ns/csvw",{"@language":1.5}],"url":"p.csv"} => NotSupported /@context/1/@language
{"@context":["http://www.w3.org/ns/csvw",{"@language":"e n"}],"url":"p.csv"} => BadContext /@context/1/@language
{"@context":["http://www.w3.org/ns/csvw",{"@base":1}],"url":"p.csv"} => BadContext /@context/1/@base
{"@context":["http://www.w3.org/ns/csvw",{"@base":"http://["}],"url":"p.csv"} => BadUrl /@context/1/@base
"#;

const FRAME: (&str, &str) = (r#""#, r#""#);

#[test]
fn contexts_are_read(rt: HostRuntime) -> Result<(), Fail> {
    assert_eq!(rt; first_unread(rt.alloc(), FRAME, ACCEPTED)?, None);
    Ok(())
}

#[test]
fn contexts_are_refused(rt: HostRuntime) -> Result<(), Fail> {
    assert_eq!(rt; first_unrefused(rt.alloc(), FRAME, "", REFUSED)?, None);
    Ok(())
}
