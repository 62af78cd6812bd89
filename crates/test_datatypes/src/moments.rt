//! Tests of moments with zones and parts of a second: their literals in the graph, their keys, and the documents and the
//! texts that each profile refuses.
use crate::cells::{Check, each_cell, each_refusal};
use crate::examples::writes;
use crate::keys::each_report;
use csvw_meta_core::Profile;
use csvw_triples_core::Mode;
use std::test::Fail;

/// Moments of a datatype that the profile core refuses.
const STAMPS: &str = r#"
# `dateTimeStamp`, which the profile core refuses
"dateTimeStamp" : dateTimeStamp
    2020-01-31T08:30:00.50-01:00 => 2020-01-31T09:30:00.5Z
"dateTimeStamp","default":"2020-01-31T08:30:00Z" : dateTimeStamp
    "" => 2020-01-31T08:30:00Z
"dateTimeStamp","lang":"de" : dateTimeStamp
    2020-01-31T08:30:00 => !BadDateTime
"#;

/// The same in an object.
const STAMP_BASES: &str = r#"
{"base":"dateTimeStamp","@id":"http://example.org/d"} : <http://example.org/d>
    2019-12-31T23:00:00-02:00 => 2020-01-01T01:00:00Z
"#;

/// Other moments.
const CASES: &str = r#"
# `dateTime`
"dateTime" : dateTime
    2020-01-01T01:00:00+02:00 => 2019-12-31T23:00:00Z
"datetime" : dateTime
    \s2020-01-31T08:30:00Z\s => 2020-01-31T08:30:00Z
"dateTime" : dateTime
    2020-01-31T08:30:00.500 => 2020-01-31T08:30:00.5
    2020-01-31T08:30:00.000 => 2020-01-31T08:30:00
{"base":"dateTime"} : dateTime
    2020-01-31T08:30:00-00:00 => 2020-01-31T08:30:00Z
{"base":"dateTime","@id":"http://example.org/d"} : <http://example.org/d>
    2020-01-31T08:30:00.5Z => 2020-01-31T08:30:00.5Z
"dateTime","separator":";" : dateTime
    \s2020-01-31T08:30:00+01:00\s => 2020-01-31T07:30:00Z
# texts that are none
"dateTime" : dateTime
    2020-01-31T24:00:00Z => !BadDateTime
    2020-01-31T08:30:00+14:01 => !BadDateTime
    9999-12-31T23:59:59-00:01 => !BadDateTime
# a format is one without zones
{"base":"dateTime","format":"yyyy-MM-ddTHH:mm:ss"} : dateTime
    2020-01-31T08:30:00Z => !BadDateTime
    2020-01-31T08:30:00.5 => !BadDateTime
"#;

/// With a bound a `dateTime` may have a zone and parts of a second.
const BOUNDED: &str = r#"
{"base":"dateTime","minimum":"2020-01-01T00:00:00"} : dateTime
    2020-01-31T08:30:00Z => 2020-01-31T08:30:00Z
{"base":"dateTime","minInclusive":"2020-01-01T00:00:00"} : dateTime
    2020-01-01T08:30:00Z => 2020-01-01T08:30:00Z !BelowMinimum
{"base":"dateTime","minExclusive":"2020-01-01T00:00:00Z"} : dateTime
    2020-01-01T01:00:00+01:00 => 2020-01-01T00:00:00Z !BelowMinimum
{"base":"dateTime","maximum":"2021-01-01T00:00:00"} : dateTime
    2020-01-31T08:30:00Z => 2020-01-31T08:30:00Z
{"base":"dateTime","maxInclusive":"2021-01-01T00:00:00"} : dateTime
    2021-01-01T00:00:00.5 => 2021-01-01T00:00:00.5 !AboveMaximum
{"base":"dateTime","maxExclusive":"2021-01-01T00:00:00+02:00"} : dateTime
    2020-12-31T21:59:59.9Z => 2020-12-31T21:59:59.9Z
{"base":"dateTime","minimum":"2020-01-01T00:00:00"} : dateTime
    2020-01-31T08:30:00 => 2020-01-31T08:30:00
    2019-12-31T23:59:59 => 2019-12-31T23:59:59 !BelowMinimum
"#;

/// The profile core has no zones and no parts of a second.
const CORE: &str = r#"
"dateTime" : dateTime
    2020-01-31T08:30:00Z => !BadDateTime
"datetime" : dateTime
    2020-01-31T08:30:00+01:00 => !BadDateTime
{"base":"dateTime"} : dateTime
    2020-01-31T08:30:00.5 => !BadDateTime
"dateTime" : dateTime
    2020-01-31T08:30:00.000 => !BadDateTime
    2020-01-31T08:30:00 => 2020-01-31T08:30:00
"#;

/// Datatypes that the profile w3c refuses.
const REFUSED: &str = r#"
{"base":"dateTimeStamp","minimum":"2020-01-01T00:00:00"} => BadDatatype /minimum
{"base":"dateTimeStamp","minInclusive":"2020-01-01T00:00:00"} => BadDatatype /minInclusive
{"base":"dateTimeStamp","minExclusive":"2020-01-01T00:00:00"} => BadDatatype /minExclusive
{"base":"dateTimeStamp","maximum":"2020-01-01T00:00:00"} => BadDatatype /maximum
{"base":"dateTimeStamp","maxInclusive":"2020-01-01T00:00:00"} => BadDatatype /maxInclusive
{"base":"dateTimeStamp","maxExclusive":"2020-01-01T00:00:00"} => BadDatatype /maxExclusive
{"base":"dateTimeStamp","length":20} => BadDatatype /length
{"base":"dateTime","length":20} => BadDatatype /length
{"base":"dateTime","minimum":"2020-01-01T24:00:00Z"} => BadDatatype /minimum
{"base":"dateTime","maximum":"2020-01-01T00:00:00."} => BadDatatype /maximum
"datetimestamp" => NotSupported
"#;

/// Tables of `MOMENT_KEY`.
const MOMENT_KEYS: &str = r#"
# two texts of one moment are one key
k\n2020-01-01T01:00:00+02:00\n2019-12-31T23:00:00Z\n => error,DuplicateKey,1,3,1\n
k\n2020-01-31T08:30:00.500-00:30\n2020-01-31T09:30:00.5+00:30\n => error,DuplicateKey,1,3,1\n
k\n2020-01-31T08:30:00.000\n2020-01-31T08:30:00\n => error,DuplicateKey,1,3,1\n
# a moment without a zone is none with a zone
k\n2020-01-31T08:30:00Z\n2020-01-31T08:30:00\n2020-01-31T08:30:00+01:00\n => \e
k\n2020-01-31T08:30:00.5Z\n2020-01-31T08:30:00.5\n2020-01-31T08:30:00.50\n2020-01-31T08:30:00.05\n => error,DuplicateKey,1,4,1\n
"#;

/// Tables of `TO_BOUNDED`.
const REFERRING_TO_BOUNDED: &str = r#"
# a whole second without a zone equals that of a column with bounds, or with a format
f\n2020-01-31T08:30:00\n2020-01-31T08:30:00.00\n | k\n2020-01-31T08:30:00\n => \e
f\n2020-01-31T08:30:00Z\n | k\n2020-01-31T08:30:00\n => error,NoReferencedRow,1,2,1\n
"#;

/// Tables of `TO_FORMATTED`.
const REFERRING_TO_FORMATTED: &str = r#"
f\n2020-01-31T08:30:00\n | k\n2020-01-31T08:30\n => \e
"#;

/// Tables of `STAMP_TO_MOMENT`.
const REFERRING_STAMPS: &str = r#"
# a stamp equals a moment with a zone
f\n2020-01-01T01:00:00+02:00\n2020-01-01T01:00:00Z\n | k\n2019-12-31T23:00:00Z\n2020-01-01T01:00:00\n => error,NoReferencedRow,1,3,1\n
"#;

const MOMENT_KEY: &str = r#"{"@context":"http://www.w3.org/ns/csvw","url":"p.csv",
    "tableSchema":{"columns":[{"name":"k","datatype":"dateTime"}],"primaryKey":"k"}}"#;

const TO_BOUNDED: &str = r#"{"@context":"http://www.w3.org/ns/csvw","tables":[{"url":"a.csv",
    "tableSchema":{"columns":[{"name":"f","datatype":"dateTime"}],
    "foreignKeys":[{"columnReference":"f","reference":{"resource":"b.csv","columnReference":"k"}}]}},
    {"url":"b.csv","tableSchema":{"columns":[{"name":"k","datatype":{"base":"dateTime","minimum":"2020-01-01T00:00:00"}}]}}]}"#;

const TO_FORMATTED: &str = r#"{"@context":"http://www.w3.org/ns/csvw","tables":[{"url":"a.csv",
    "tableSchema":{"columns":[{"name":"f","datatype":"dateTime"}],
    "foreignKeys":[{"columnReference":"f","reference":{"resource":"b.csv","columnReference":"k"}}]}},
    {"url":"b.csv","tableSchema":{"columns":[{"name":"k","datatype":{"base":"dateTime","format":"yyyy-MM-ddTHH:mm"}}]}}]}"#;

const STAMP_TO_MOMENT: &str = r#"{"@context":"http://www.w3.org/ns/csvw","tables":[{"url":"a.csv",
    "tableSchema":{"columns":[{"name":"f","datatype":"dateTimeStamp"}],
    "foreignKeys":[{"columnReference":"f","reference":{"resource":"b.csv","columnReference":"k"}}]}},
    {"url":"b.csv","tableSchema":{"columns":[{"name":"k","datatype":"dateTime"}]}}]}"#;

static META: &str =
    r#"{"@context":"http://www.w3.org/ns/csvw","url":"p.csv","tableSchema":{"columns":[
    {"name":"at","datatype":"dateTime"},{"name":"stamp","datatype":"dateTimeStamp"}]}}"#;

static TEXT: &str = "at,stamp
2020-01-31T08:30:00,2020-01-31T08:30:00Z
2020-02-29T23:30:00.25-01:00,2020-03-01T00:30:00+01:00
";

static GRAPH: &str =
    r#"_:t1r1s <http://example.org/p.csv#at> "2020-01-31T08:30:00"^^<http://www.w3.org/2001/XMLSchema#dateTime> .
_:t1r1s <http://example.org/p.csv#stamp> "2020-01-31T08:30:00Z"^^<http://www.w3.org/2001/XMLSchema#dateTimeStamp> .
_:t1r2s <http://example.org/p.csv#at> "2020-03-01T00:30:00.25Z"^^<http://www.w3.org/2001/XMLSchema#dateTime> .
_:t1r2s <http://example.org/p.csv#stamp> "2020-02-29T23:30:00Z"^^<http://www.w3.org/2001/XMLSchema#dateTimeStamp> .
"#;

#[test]
fn zones_have_their_graph(rt: HostRuntime) -> Result<(), Fail> {
    assert!(rt; writes(rt.alloc(), META, &[TEXT], Mode::Minimal, GRAPH)?);
    Ok(())
}

#[test]
fn zones_have_their_literals(rt: HostRuntime) -> Result<(), Fail> {
    each_cell(&rt, rt.alloc(), &Check::Cells(Profile::W3c), STAMPS)?;
    each_cell(&rt, rt.alloc(), &Check::Cells(Profile::W3c), STAMP_BASES)?;
    each_cell(&rt, rt.alloc(), &Check::Cells(Profile::W3c), CASES)?;
    Ok(())
}

#[test]
fn zones_are_read_beside_bounds(rt: HostRuntime) -> Result<(), Fail> {
    each_cell(&rt, rt.alloc(), &Check::Cells(Profile::W3c), BOUNDED)?;
    Ok(())
}

#[test]
fn the_core_has_no_zones(rt: HostRuntime) -> Result<(), Fail> {
    each_cell(&rt, rt.alloc(), &Check::Cells(Profile::Core), CORE)?;
    Ok(())
}

#[test]
fn the_core_refuses_stamps(rt: HostRuntime) -> Result<(), Fail> {
    each_cell(&rt, rt.alloc(), &Check::RefusedByCore(""), STAMPS)?;
    each_cell(&rt, rt.alloc(), &Check::RefusedByCore("/base"), STAMP_BASES)?;
    Ok(())
}

#[test]
fn other_bounds_are_refused(rt: HostRuntime) -> Result<(), Fail> {
    each_refusal(&rt, rt.alloc(), Profile::W3c, REFUSED)?;
    Ok(())
}

#[test]
fn keys_are_moments(rt: HostRuntime) -> Result<(), Fail> {
    each_report(&rt, rt.alloc(), MOMENT_KEY, MOMENT_KEYS)?;
    each_report(&rt, rt.alloc(), TO_BOUNDED, REFERRING_TO_BOUNDED)?;
    each_report(&rt, rt.alloc(), TO_FORMATTED, REFERRING_TO_FORMATTED)?;
    each_report(&rt, rt.alloc(), STAMP_TO_MOMENT, REFERRING_STAMPS)?;
    Ok(())
}
