//! Tests of regular expressions as the format of texts: the graphs and the reports of tables, and the documents that each
//! profile refuses.
use crate::cells::{Check, each_cell, each_refusal};
use csvw_meta_core::Profile;
use std::test::Fail;

/// Cells of columns that the profile core refuses.
const OF_W3C: &str = r#"
# strings, whose values alone have a language
{"base":"string","format":"[0-9]{3}"},"lang":"de" : @de
    123 => 123
    1234 => !BadText
{"format":"\\d+"},"lang":"de" : @de
    ١٢ => ١٢
{"format":"","@id":"http://example.org/d"},"null":"-" : <http://example.org/d>
    "" => \e
# URIs
{"base":"anyURI","format":"x/.*"} : anyURI
    x/y => x/y
    y/x => !BadText
# white space is normalized before
{"base":"string","format":" a  b"},"lang":"de" : @de
    \sa  b => \sa  b
"#;

/// Cells of other columns.
const CASES: &str = r#"
{"base":"token","format":"a b"} : token
    \sa  b\s => a b
{"base":"token","format":" a b"} : token
    \sa b => !BadText a b
{"base":"any","format":" ?a"} : anyAtomicType
    \sa => \sa
{"base":"json","format":"[^ ]+"} : <http://www.w3.org/ns/csvw#JSON>
    \s1 => !BadText
# each item of a list is such a text
{"base":"anyURI","format":"a"},"separator":";" : anyURI
    \sa\s => a
{"base":"anyURI","format":"a;a"},"separator":";" : anyURI
    a => !BadText
# tags of languages and names are also what their types ask for
{"base":"language","format":"[a-z]{2}"} : language
    en => en
    en-GB => !BadText
{"base":"Name","format":".*"} : Name
    1a => !BadText
{"base":"NMTOKEN","format":"1."} : NMTOKEN
    1a => 1a
# lengths come after
{"base":"string","format":"[0-9]+","maxLength":2},"lang":"de" : @de
    123 => 123 !TooLong
    abc => !BadText
# a default is such a text too; an expression may have line breaks
{"base":"string","format":"[0-9]+"},"default":"x","lang":"de" : string
    "" => !BadText x
{"base":"string","format":"a\nb"},"lang":"de" : @de
    "a\nb" => a\\nb
{"base":"html","format":"<br>"} : <http://www.w3.org/1999/02/22-rdf-syntax-ns#HTML>
    <br> => <br>
"#;

/// Datatypes whose formats the profile w3c refuses.
const REFUSED: &str = r#"
{"base":"string","format":"("} => BadDatatype /format
{"format":"[z-a]"} => BadDatatype /format
{"base":"anyURI","format":"\\i\\c*"} => BadDatatype /format
{"base":"token","format":"(a)\\1"} => BadDatatype /format
{"base":"string","format":7} => BadProperty /format
{"base":"xml","format":{"pattern":"a"}} => BadProperty /format
{"base":"NMTOKEN","format":null} => BadProperty /format
{"base":"gYear","format":"[0-9]+"} => NotSupported /format
{"base":"time","format":"[0-9]+"} => NotSupported /format
{"base":"double","format":"[0-9]+"} => NotSupported /format
"#;

#[test]
fn expressions_describe_cells(rt: HostRuntime) -> Result<(), Fail> {
    each_cell(&rt, rt.alloc(), &Check::Cells(Profile::W3c), OF_W3C)?;
    each_cell(&rt, rt.alloc(), &Check::Cells(Profile::W3c), CASES)?;
    Ok(())
}

#[test]
fn the_core_refuses_expressions(rt: HostRuntime) -> Result<(), Fail> {
    each_cell(&rt, rt.alloc(), &Check::RefusedByCore("/format"), OF_W3C)?;
    Ok(())
}

#[test]
fn texts_that_are_no_expression_are_refused(rt: HostRuntime) -> Result<(), Fail> {
    each_refusal(&rt, rt.alloc(), Profile::W3c, REFUSED)?;
    Ok(())
}
