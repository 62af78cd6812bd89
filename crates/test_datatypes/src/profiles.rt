//! Tests of the datatypes of the profile w3c: their literals in the graph, and the documents that each profile refuses.
use crate::cells::{Check, each_cell, each_refusal};
use csvw_meta_core::Profile;
use std::test::Fail;

/// Datatypes whose names the profile core refuses.
const NAMES: &str = r#"
"json" : <http://www.w3.org/ns/csvw#JSON>
    "[1,  2]" => [1,  2]
"xml" : <http://www.w3.org/1999/02/22-rdf-syntax-ns#XMLLiteral>
    \s<b>a</b>\s => \s<b>a</b>\s
"html" : <http://www.w3.org/1999/02/22-rdf-syntax-ns#HTML>
    a\t<br> => a\t<br>
"any" : anyAtomicType
    \sa  b\s => \sa  b\s
"anyAtomicType","lang":"de" : anyAtomicType
    a => a
"token" : token
    " a\t b\n" => a b
"#;

/// Datatypes whose bases the profile core refuses.
const BASES: &str = r#"
{"base":"token","maxLength":3} : token
    \s\sabc\s => abc
{"base":"json","@id":"http://example.org/d"} : <http://example.org/d>
    {} => {}
"#;

/// Lists, numbers and others.
const CASES: &str = r#"
# white space at the ends of items stays for `any` alone
"any","separator":";" : anyAtomicType
    \sa\s => \sa\s
"json","separator":";" : <http://www.w3.org/ns/csvw#JSON>
    \s1  2\s => 1  2
# an empty text is null by default
"json","default":"[]" : <http://www.w3.org/ns/csvw#JSON>
    "" => []
# numbers with an exponent
"number" : double
    \s4.2546245E1\s => 42.546245
"float" : float
    -INF => -INF
{"base":"double","@id":"http://example.org/d"} : <http://example.org/d>
    1e+21 => 1e21
# the other datatypes are as they are in the profile core
"string","lang":"de" : @de
    \sa\s => \sa\s
"integer" : integer
    07 => 7
"datetime" : dateTime
    2024-01-02T03:04:05 => 2024-01-02T03:04:05
"#;

/// Numbers under patterns, which the profile core refuses at the format.
const PATTERNED: &str = r##"
{"base":"decimal","format":"#,##0.00"} : decimal
    "1,234.50" => 1234.5
{"base":"integer","format":"000"} : integer
    007 => 7
# a text that doesn't fit stays a string
    7 => !BadInteger
{"base":"decimal","format":"#0.0#%"} : decimal
    12.5% => 0.125
"##;

/// The same with characters of their own.
const CHARACTERS: &str = r##"
{"base":"decimal","format":{"pattern":"#.##0,00","decimalChar":",","groupChar":"."}} : decimal
    "-1.234,50" => -1234.5
# without `groupChar` it is a comma, if the decimal character isn't one
{"base":"unsignedInt","format":{"pattern":"#,##0"}} : unsignedInt
    "12,345" => 12345
{"base":"decimal","format":{"pattern":"0,0","decimalChar":","}} : decimal
    "3,5" => 3.5
"##;

/// Parts of dates, times of day and names, which the profile core refuses.
const KEPT: &str = r#"
"gYear" : gYear
    \s2015\s => 2015
"gYearMonth" : gYearMonth
    2015-03+00:00 => 2015-03Z
"gMonth" : gMonth
    --03 => --03
"gMonthDay" : gMonthDay
    --02-29 => --02-29
"gDay" : gDay
    ---31 => ---31
"time" : time
    15:02:07 => 15:02:07
"language" : language
    \sen-GB\s => en-GB
"Name" : Name
    iso:code => iso:code
"NMTOKEN" : NMTOKEN
    2-a => 2-a
"#;

/// The same in objects, whose bases the profile core refuses.
const KEPT_BASES: &str = r#"
{"base":"time","format":"HHmm"} : time
    1502 => 15:02:00
{"base":"time","format":"HH:mm","@id":"http://example.org/d"} : <http://example.org/d>
    15:02 => 15:02:00
{"base":"language","length":2},"lang":"de" : language
    fr => fr
"#;

/// Texts that are no such value.
const KEPT_TEXTS: &str = r#"
# a text that is no value stays a string, without a language
"gYear" : gYear
    15 => !BadDate
"time" : time
    24:00:00 => !BadTime
"language","lang":"de" : language
    en_GB => !BadText
"#;

/// Datatypes that the profile w3c refuses.
const REFUSED: &str = r#"
{"base":"decimal","format":"0#"} => BadDatatype /format
{"base":"decimal","format":"0E"} => BadDatatype /format
{"base":"double","format":"0E0;0"} => NotSupported /format
{"base":"double","format":"0,000E0"} => BadDatatype /format
{"base":"decimal","format":{"pattern":"0.","groupChar":" "}} => BadDatatype /format/pattern
{"base":"integer","format":{"pattern":"0;0"}} => NotSupported /format/pattern
{"base":"integer","format":{"pattern":0}} => BadProperty /format/pattern
# equal characters are the fault before the pattern
{"base":"decimal","format":{"pattern":"0#","decimalChar":",","groupChar":","}} => BadDatatype /format
{"base":"decimal","format":{"pattern":"0#","decimalChar":"5"}} => BadDatatype /format/decimalChar
"Json" => NotSupported
{"base":"any","length":1} => BadDatatype /length
{"base":"json","minimum":"1"} => BadDatatype /minimum
{"base":"number","format":"0.0E0#"} => BadDatatype /format
{"base":"time","format":"H:mm"} => NotSupported /format
{"base":"time","format":7} => BadProperty /format
{"base":"gYear","format":"yyyy"} => NotSupported /format
{"base":"gYear","minimum":2000} => BadProperty /minimum
{"base":"time","maxExclusive":"24:00:00"} => BadDatatype /maxExclusive
{"base":"gYear","length":4} => BadDatatype /length
{"base":"xml","minLength":2,"maxLength":1} => BadDatatype
"#;

#[test]
fn literals_have_their_datatypes(rt: HostRuntime) -> Result<(), Fail> {
    each_cell(&rt, rt.alloc(), &Check::Cells(Profile::W3c), NAMES)?;
    each_cell(&rt, rt.alloc(), &Check::Cells(Profile::W3c), BASES)?;
    each_cell(&rt, rt.alloc(), &Check::Cells(Profile::W3c), CASES)?;
    Ok(())
}

#[test]
fn numbers_have_their_patterns(rt: HostRuntime) -> Result<(), Fail> {
    each_cell(&rt, rt.alloc(), &Check::Cells(Profile::W3c), PATTERNED)?;
    each_cell(&rt, rt.alloc(), &Check::Cells(Profile::W3c), CHARACTERS)?;
    Ok(())
}

#[test]
fn the_core_refuses_their_patterns(rt: HostRuntime) -> Result<(), Fail> {
    each_cell(&rt, rt.alloc(), &Check::RefusedByCore("/format"), PATTERNED)?;
    each_cell(
        &rt,
        rt.alloc(),
        &Check::RefusedByCore("/format/pattern"),
        CHARACTERS,
    )?;
    Ok(())
}

#[test]
fn other_datatypes_are_refused(rt: HostRuntime) -> Result<(), Fail> {
    each_refusal(&rt, rt.alloc(), Profile::W3c, REFUSED)?;
    Ok(())
}

#[test]
fn the_core_refuses_them(rt: HostRuntime) -> Result<(), Fail> {
    each_cell(&rt, rt.alloc(), &Check::RefusedByCore(""), NAMES)?;
    each_cell(&rt, rt.alloc(), &Check::RefusedByCore("/base"), BASES)?;
    Ok(())
}

#[test]
fn parts_of_dates_and_names_have_their_literals(rt: HostRuntime) -> Result<(), Fail> {
    each_cell(&rt, rt.alloc(), &Check::Cells(Profile::W3c), KEPT)?;
    each_cell(&rt, rt.alloc(), &Check::Cells(Profile::W3c), KEPT_BASES)?;
    each_cell(&rt, rt.alloc(), &Check::Cells(Profile::W3c), KEPT_TEXTS)?;
    Ok(())
}

#[test]
fn the_core_refuses_those_datatypes(rt: HostRuntime) -> Result<(), Fail> {
    each_cell(&rt, rt.alloc(), &Check::RefusedByCore(""), KEPT)?;
    each_cell(&rt, rt.alloc(), &Check::RefusedByCore("/base"), KEPT_BASES)?;
    Ok(())
}
