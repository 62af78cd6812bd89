//! Tests of durations, octets, names with prefixes and strings without line breaks, by whole runs in the profile w3c (XML Schema 1.1
//! part 2, sections 3.3.6, 3.3.15, 3.3.16, 3.3.18, 3.4.1, 3.4.26 and 3.4.27).
use crate::cells::{Check, each_cell, each_refusal};
use csvw_meta_core::Profile;
use std::test::Fail;

/// Durations, octets and names.
const CASES: &str = r#"
"duration" : duration
    P1Y2M3DT4H5M6.7S => P1Y2M3DT4H5M6.7S
    \sP12M\s => P1Y
    -PT36H => -P1DT12H
    -P0D => PT0S
    5 days => !BadDuration
    P => !BadDuration
    P1YT => !BadDuration
    PT1D => !BadDuration
"yearMonthDuration" : yearMonthDuration
    P14M => P1Y2M
    P0Y => P0M
    P1D => !BadDuration
{"base":"dayTimeDuration"} : dayTimeDuration
    PT86400S => P1D
    PT0.50S => PT0.5S
    P1M => !BadDuration
{"base":"duration","format":"PT.*"} : duration
    PT24H => P1D
    P1D => !BadDuration
    PTx => !BadDuration
"hexBinary" : hexBinary
    0fb7 => 0FB7
    0fb => !BadText
    0f b7 => !BadText
{"base":"hexBinary","minLength":2,"maxLength":3} : hexBinary
    0fb7 => 0FB7
    0f => 0F !TooShort
    00112233 => 00112233 !TooLong
"binary" : base64Binary
    TWFu => TWFu
    T W  E = => TWE=
    TWE => !BadText
    TR== => !BadText
{"base":"base64Binary","length":1} : base64Binary
    TQ== => TQ==
    TWE= => TWE= !WrongLength
"QName" : QName
    iso:code => iso:code
    \scode\s => code
    a:b:c => !BadText
    a: => !BadText
"#;

/// Strings whose line breaks and tabs become spaces. Other spaces stay.
const SPACED: &str = r#"
"normalizedString" : normalizedString
    " a\tb  c\nd\re " => \sa b  c d e\s
{"base":"normalizedString","length":3,"format":"a b"} : normalizedString
    a\tb => a b
"normalizedString","separator":"|" : normalizedString
    \sa  b\s => a  b
{"base":"normalizedString","@id":"http://example.org/d"},"lang":"de" : <http://example.org/d>
    ä => ä
"#;

/// Datatypes that the profile core refuses.
const OF_W3C: &str = r#"
"duration" : duration
    P1D => P1D
"yearMonthDuration" : yearMonthDuration
    P1M => P1M
"dayTimeDuration" : dayTimeDuration
    P1D => P1D
"hexBinary" : hexBinary
    0F => 0F
"binary" : base64Binary
    TWFu => TWFu
"QName" : QName
    a => a
"normalizedString" : normalizedString
    a => a
"#;

/// Datatypes that the profile w3c refuses.
const REFUSED: &str = r#"
{"base":"duration","minimum":"1D"} => BadDatatype /minimum
{"base":"dayTimeDuration","length":3} => BadDatatype /length
{"base":"hexBinary","maximum":"FF"} => BadDatatype /maximum
{"base":"QName","maxLength":3} => BadDatatype /maxLength
{"base":"hexBinary","minLength":2,"maxLength":1} => BadDatatype
"#;

#[test]
fn durations_octets_and_names_are_read(rt: HostRuntime) -> Result<(), Fail> {
    each_cell(&rt, rt.alloc(), &Check::Columns(Profile::W3c), CASES)?;
    Ok(())
}

#[test]
fn line_breaks_become_spaces(rt: HostRuntime) -> Result<(), Fail> {
    each_cell(&rt, rt.alloc(), &Check::Cells(Profile::W3c), SPACED)?;
    Ok(())
}

#[test]
fn the_core_refuses_these_types(rt: HostRuntime) -> Result<(), Fail> {
    each_cell(&rt, rt.alloc(), &Check::RefusedByCore(""), OF_W3C)?;
    each_cell(&rt, rt.alloc(), &Check::Cells(Profile::W3c), OF_W3C)?;
    Ok(())
}

#[test]
fn their_facets_are_refused(rt: HostRuntime) -> Result<(), Fail> {
    each_refusal(&rt, rt.alloc(), Profile::W3c, REFUSED)?;
    Ok(())
}
