//! Tests of documents whose datatypes are refused.
use crate::cells::each_refusal;
use crate::facets::REFUSED_FACETS;
use csvw_meta_core::Profile;
use std::test::Fail;

/// Datatypes that the profile core refuses.
const CASES: &str = r##"
"float" => NotSupported
"Integer" => NotSupported
7 => BadProperty
1.5 => NotSupported
["integer"] => BadProperty
{"base":"number"} => NotSupported /base
{"base":"xsd:integer","format":7} => NotSupported /base
{"base":null} => BadProperty /base
{"@id":"_:x"} => BadId /@id
{"@id":"http://["} => BadUrl /@id
{"@type":"Table"} => BadProperty /@type
{"dc:title":1.5} => NotSupported /dc:title
{"format":"[a-z]*"} => NotSupported /format
{"base":"anyURI","format":"x"} => NotSupported /format
{"base":"boolean","format":"Y"} => BadDatatype /format
{"base":"boolean","format":"Y|Y"} => BadDatatype /format
{"base":"boolean","format":"|N"} => BadDatatype /format
{"base":"boolean","format":"a|b|c"} => BadDatatype /format
{"base":"boolean","format":{}} => BadProperty /format
{"base":"integer","format":"#,##0"} => NotSupported /format
{"base":"long","format":true} => BadProperty /format
{"base":"decimal","format":{"pattern":"#0"}} => NotSupported /format/pattern
{"base":"decimal","format":{"decimalChar":""}} => BadDatatype /format/decimalChar
{"base":"decimal","format":{"decimalChar":"5"}} => BadDatatype /format/decimalChar
{"base":"byte","format":{"groupChar":"%"}} => BadDatatype /format/groupChar
{"base":"decimal","format":{"groupChar":7}} => BadProperty /format/groupChar
# the default of one character is the other
{"base":"decimal","format":{"groupChar":"."}} => BadDatatype /format
{"base":"decimal","format":{"groupChar":",","x:y":1}} => BadProperty /format/x:y
{"base":"decimal","format":{"groupChar":",","x:y":1.5}} => NotSupported /format/x:y
{"base":"date","format":"yyyy/MM/dd"} => NotSupported /format
{"base":"dateTime","format":"yyyy-MM-ddTHH:mm:ssX"} => NotSupported /format
# a number that isn't whole
{"base":"decimal","format":{"decimalChar":"."},"maximum":1.5} => NotSupported /maximum
"##;

#[test]
fn facets_are_refused_at_their_fault(rt: HostRuntime) -> Result<(), Fail> {
    each_refusal(&rt, rt.alloc(), Profile::Core, REFUSED_FACETS)?;
    Ok(())
}

#[test]
fn datatypes_are_refused_at_their_fault(rt: HostRuntime) -> Result<(), Fail> {
    each_refusal(&rt, rt.alloc(), Profile::Core, CASES)?;
    Ok(())
}
