//! Tests of the inherited properties.
use crate::reading::{first_unread, first_unrefused};
use std::test::Fail;

/// The parts that are read, each with its number of warnings.
const ACCEPTED: &str = r##""aboutUrl":"" => 0
"aboutUrl":"#{a,b}" => 0
"propertyUrl":"dc:title" => 0
"valueUrl":"{+a}{#b}" => 0
"default":"" => 0
"default":"x" => 0
"lang":"und" => 0
"lang":"de-Latn-1996" => 0
"null":"x" => 0
"null":[] => 0
"null":["","NA"] => 0
"ordered":true => 0
"required":false => 0
"separator":";" => 0
"separator":"ab" => 0
"separator":null => 0
"textDirection":1.5 => 0
"##;

/// The parts that are refused, each with the code of its fault and the pointer below the part.
const REFUSED: &str = r#""aboutUrl":1 => BadProperty /aboutUrl
"aboutUrl":null => BadProperty /aboutUrl
"aboutUrl":1.5 => NotSupported /aboutUrl
"aboutUrl":"{" => BadTemplate /aboutUrl
"aboutUrl":"}" => BadTemplate /aboutUrl
"aboutUrl":"{.a}" => TemplateLevel /aboutUrl
"aboutUrl":"{a:3}" => TemplateLevel /aboutUrl
"propertyUrl":[] => BadProperty /propertyUrl
"propertyUrl":"{a b}" => BadTemplate /propertyUrl
"propertyUrl":"{a*}" => TemplateLevel /propertyUrl
"valueUrl":true => BadProperty /valueUrl
"valueUrl":"{{a}}" => BadTemplate /valueUrl
"valueUrl":"{?a}" => TemplateLevel /valueUrl
"default":1 => BadProperty /default
"default":null => BadProperty /default
"default":1.5 => NotSupported /default
"lang":1 => BadProperty /lang
"lang":"" => BadProperty /lang
"lang":"en-" => BadProperty /lang
"lang":"1" => BadProperty /lang
"lang":null => BadProperty /lang
"null":1 => BadProperty /null
"null":null => BadProperty /null
"null":["a",1] => BadProperty /null/1
"null":[["a"]] => BadProperty /null/0
"null":[1.5] => NotSupported /null/0
"ordered":1 => BadProperty /ordered
"ordered":"true" => BadProperty /ordered
"ordered":null => BadProperty /ordered
"required":"x" => BadProperty /required
"required":[] => BadProperty /required
"separator":"" => BadProperty /separator
"separator":1 => BadProperty /separator
"separator":[";"] => BadProperty /separator
"#;

const FRAME: (&str, &str) = (
    r#"{"@context":"http://www.w3.org/ns/csvw","url":"p.csv","tableSchema":{"columns":[{"#,
    r#"}]}}"#,
);

#[test]
fn inherited_are_read(rt: HostRuntime) -> Result<(), Fail> {
    assert_eq!(rt; first_unread(rt.alloc(), FRAME, ACCEPTED)?, None);
    Ok(())
}

#[test]
fn inherited_are_refused(rt: HostRuntime) -> Result<(), Fail> {
    assert_eq!(rt;
        first_unrefused(rt.alloc(), FRAME, "/tableSchema/columns/0", REFUSED)?,
        None
    );
    Ok(())
}
