//! Tests of the properties of a dialect.
use crate::reading::{first_unread, first_unrefused};
use std::test::Fail;

/// The parts that are read, each with its number of warnings.
const ACCEPTED: &str = r#" => 0
"delimiter":";" => 0
"delimiter":"é" => 0
"delimiter":"\\" => 0
"quoteChar":null => 0
"quoteChar":"'" => 0
"doubleQuote":false => 0
"quoteChar":null,"delimiter":"\"" => 0
"commentPrefix":null => 0
"commentPrefix":"1234567890123456" => 0
"commentPrefix":"a\",b" => 0
"header":false => 0
"headerRowCount":0 => 0
"headerRowCount":8,"header":false => 0
"skipRows":18446744073709551615 => 0
"skipColumns":1024 => 0
"skipBlankRows":true => 0
"skipInitialSpace":true => 0
"trim":true => 0
"trim":"true" => 0
"trim":"false" => 0
"trim":"start" => 0
"trim":"end" => 0
"lineTerminators":"\n" => 0
"lineTerminators":["\r\n","\n"] => 0
"encoding":"UTF-8" => 0
"@id":"d","@type":"Dialect" => 0
"lang":"en" => 1
"notes":1.5,"dc:x":{"y":1} => 2
"#;

/// The parts that are refused, each with the code of its fault and the pointer below the part.
const REFUSED: &str = r#""delimiter":";;" => NotSupported /delimiter
"delimiter":"" => BadProperty /delimiter
"delimiter":1 => BadProperty /delimiter
"delimiter":null => BadProperty /delimiter
"delimiter":"\n" => BadDialect /delimiter
"delimiter":"\"" => BadDialect
"delimiter":"\\","doubleQuote":false => BadDialect
"quoteChar":"''" => BadProperty /quoteChar
"quoteChar":"" => BadProperty /quoteChar
"quoteChar":1 => BadProperty /quoteChar
"quoteChar":"\r" => BadDialect /quoteChar
"quoteChar":"," => BadDialect
"quoteChar":"\\","doubleQuote":false => BadDialect
"quoteChar":"'","delimiter":"'" => BadDialect
"doubleQuote":1 => BadProperty /doubleQuote
"doubleQuote":"true" => BadProperty /doubleQuote
"commentPrefix":"" => BadProperty /commentPrefix
"commentPrefix":"12345678901234567" => BadProperty /commentPrefix
"commentPrefix":"a\n" => BadDialect /commentPrefix
"commentPrefix":1 => BadProperty /commentPrefix
"header":1 => BadProperty /header
"header":null => BadProperty /header
"headerRowCount":9 => TooMany /headerRowCount
"headerRowCount":-1 => BadProperty /headerRowCount
"headerRowCount":1.0 => NotSupported /headerRowCount
"headerRowCount":1e0 => NotSupported /headerRowCount
"headerRowCount":-0 => NotSupported /headerRowCount
"headerRowCount":"1" => BadProperty /headerRowCount
"skipRows":-1 => BadProperty /skipRows
"skipRows":18446744073709551616 => NotSupported /skipRows
"skipRows":true => BadProperty /skipRows
"skipColumns":1025 => TooMany /skipColumns
"skipColumns":-1 => BadProperty /skipColumns
"skipColumns":0.5 => NotSupported /skipColumns
"skipBlankRows":0 => BadProperty /skipBlankRows
"skipInitialSpace":"x" => BadProperty /skipInitialSpace
"trim":"both" => BadProperty /trim
"trim":1 => BadProperty /trim
"trim":null => BadProperty /trim
"trim":1.5 => NotSupported /trim
"lineTerminators":"\r" => NotSupported /lineTerminators
"lineTerminators":["\n","\r"] => NotSupported /lineTerminators/1
"lineTerminators":[] => BadDialect /lineTerminators
"lineTerminators":"" => NotSupported /lineTerminators
"lineTerminators":1 => BadProperty /lineTerminators
"lineTerminators":[1] => BadProperty /lineTerminators/0
"encoding":"latin1" => NotSupported /encoding
"encoding":1 => BadProperty /encoding
"encoding":"" => NotSupported /encoding
"@id":"_:d" => BadId /@id
"@type":"Dialects" => BadProperty /@type
"dc:x":1.5 => NotSupported /dc:x
"#;

const FRAME: (&str, &str) = (
    r#"{"@context":"http://www.w3.org/ns/csvw","url":"p.csv","dialect":{"#,
    r#"}}"#,
);

#[test]
fn dialects_are_read(rt: HostRuntime) -> Result<(), Fail> {
    assert_eq!(rt; first_unread(rt.alloc(), FRAME, ACCEPTED)?, None);
    Ok(())
}

#[test]
fn dialects_are_refused(rt: HostRuntime) -> Result<(), Fail> {
    assert_eq!(rt;
        first_unrefused(rt.alloc(), FRAME, "/dialect", REFUSED)?,
        None
    );
    Ok(())
}
