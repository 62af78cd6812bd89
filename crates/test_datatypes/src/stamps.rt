//! Tests of formats with parts of a second and zones: the literals of moments and times of day in the graph, their keys and bounds, and
//! the documents that each profile refuses. They follow the Model for Tabular Data and Metadata on the Web, section 6.4.4.
use crate::cells::{Check, each_cell, each_refusal};
use crate::examples::writes;
use crate::keys::each_report;
use csvw_meta_core::Profile;
use csvw_triples_core::Mode;
use std::test::Fail;

/// Moments whose formats the profile core refuses.
const MOMENTS: &str = r#"
{"base":"dateTime","format":"yyyy-MM-ddTHH:mm:ss.SSS"} : dateTime
    2015-03-15T15:02:37.143 => 2015-03-15T15:02:37.143
    2015-03-15T15:02:37.140 => 2015-03-15T15:02:37.14
# the fraction may be missing
    2015-03-15T15:02:37 => 2015-03-15T15:02:37
{"base":"dateTime","format":"yyyy-MM-ddTHH:mm:ssX"} : dateTime
    2015-03-15T15:02:37-08 => 2015-03-15T23:02:37Z
    2015-03-15T15:02:37Z => 2015-03-15T15:02:37Z
{"base":"datetime","format":"yyyy-MM-ddTHH:mmXX"} : dateTime
    2015-03-15T15:02+0530 => 2015-03-15T09:32:00Z
# `\u0058` is `X`
{"base":"dateTime","format":"yyyy-MM-ddTHH:mm:ssX\u0058X"} : dateTime
    2015-03-15T15:02:37+14:00 => 2015-03-15T01:02:37Z
{"base":"dateTime","format":"yyyyMMdd HHmmx"} : dateTime
    20150315 1502-08 => 2015-03-15T23:02:00Z
{"base":"dateTime","format":"yyyyMMdd HHmmssxx"} : dateTime
    20150315 150237+0000 => 2015-03-15T15:02:37Z
{"base":"dateTime","format":"M/d/yyyy HH:mm xxx"} : dateTime
    3/15/2015 23:30 -05:00 => 2015-03-16T04:30:00Z
{"base":"dateTime","format":"d.M.yyyy HH:mm:ss.SS X"} : dateTime
    1.12.2015 00:00:00.50 +01 => 2015-11-30T23:00:00.5Z
# white space is collapsed first
{"base":"dateTime","format":"dd/MM/yyyy HH:mm:ss X"} : dateTime
    \s15/03/2015  15:02:37 \t Z\s => 2015-03-15T15:02:37Z
{"base":"dateTime","format":"yyyy-MM-ddTHH:mm:ssX"},"separator":";" : dateTime
    \s2015-03-15T15:02:37Z => 2015-03-15T15:02:37Z
{"base":"dateTime","format":"yyyy-MM-ddTHH:mm:ss.SX"},"default":"2015-03-15T15:02:37.5+01" : dateTime
    "" => 2015-03-15T14:02:37.5Z
{"base":"dateTime","format":"yyyy-MM-ddTHH:mm:ss.SSSX","@id":"http://example.org/d"} : <http://example.org/d>
    2015-03-15T15:02:37.143-0800 => 2015-03-15T23:02:37.143Z
"#;

/// Moments that have a zone, and times of day with parts of a second. The profile core refuses these datatypes.
const STAMPS: &str = r#"
{"base":"dateTimeStamp","format":"dd/MM/yyyy HH:mm:ss.SSS XX"} : dateTimeStamp
    15/03/2015 15:02:37.143 -0800 => 2015-03-15T23:02:37.143Z
{"base":"dateTimeStamp","format":"yyyy-MM-ddTHH:mm:ss.Sx"} : dateTimeStamp
    2015-03-15T15:02:37.5+00 => 2015-03-15T15:02:37.5Z
{"base":"dateTimeStamp","format":"yyyy-MM-ddTHH:mmX\u0058X"} : dateTimeStamp
    2015-03-15T15:02Z => 2015-03-15T15:02:00Z
{"base":"time","format":"HH:mm:ss.SSS"} : time
    15:02:37.143 => 15:02:37.143
    15:02:37.140 => 15:02:37.14
    15:02:37 => 15:02:37
{"base":"time","format":"HH:mm:ss.S"} : time
    15:02:37.0 => 15:02:37
"#;

/// Times of day without a format have any number of digits after the point.
const TIMES: &str = r#"
"time" : time
    15:02:37.143 => 15:02:37.143
    00:00:00.0010 => 00:00:00.001
    23:59:59.9999999999999999999999999999 => 23:59:59.9999999999999999999999999999
    15:02:37.000 => 15:02:37
    15:02:37. => !BadTime
    15:02.5 => !BadTime
    24:00:00.0 => !BadTime
"#;

/// Texts that aren't written as their format.
const NONE: &str = r#"
{"base":"dateTime","format":"yyyy-MM-ddTHH:mm:ss.SSS"} : dateTime
    2015-03-15T15:02:37.1430 => !BadDateTime
    2015-03-15T15:02:37. => !BadDateTime
    2015-03-15T15:02:37.143Z => !BadDateTime
    2015-03-15 15:02:37.143 => !BadDateTime
{"base":"dateTime","format":"dd/MM/yyyy HH:mm:ss.SSS"} : dateTime
    2015-03-15T15:02:37.143 => !BadDateTime
# with a zone in the format each text has one, written by its letters
{"base":"dateTime","format":"yyyy-MM-ddTHH:mm:ssX"} : dateTime
    2015-03-15T15:02:37 => !BadDateTime
    2015-03-15T15:02:37+05:30 => !BadDateTime
    2015-03-15T15:02:37 Z => !BadDateTime
    2015-03-15T15:02:37.5Z => !BadDateTime
    2015-03-15T15:02:37+1401 => !BadDateTime
{"base":"dateTime","format":"yyyy-MM-ddTHH:mm:ssXX"} : dateTime
    2015-03-15T15:02:37-08 => !BadDateTime
{"base":"dateTime","format":"yyyy-MM-ddTHH:mm:ssX\u0058X"} : dateTime
    2015-03-15T15:02:37-0800 => !BadDateTime
{"base":"dateTime","format":"yyyy-MM-ddTHH:mm:ssx"} : dateTime
    2015-03-15T15:02:37Z => !BadDateTime
{"base":"dateTime","format":"yyyy-MM-ddTHH:mm:ss X"} : dateTime
    2015-03-15T15:02:37Z => !BadDateTime
# in the zone `Z` the year is 0 or 10000
{"base":"dateTime","format":"yyyy-MM-ddTHH:mm:ssX"} : dateTime
    0001-01-01T00:00:00+01 => !BadDateTime
    9999-12-31T23:59:59-01 => !BadDateTime
# a format without a zone has no dateTimeStamp
{"base":"dateTimeStamp","format":"yyyy-MM-ddTHH:mm:ss"} : dateTimeStamp
    2015-03-15T15:02:37 => !BadDateTime
    2015-03-15T15:02:37Z => !BadDateTime
{"base":"dateTimeStamp","format":"yyyy-MM-ddTHH:mm:ss.SSS"} : dateTimeStamp
    2015-03-15T15:02:37.143 => !BadDateTime
{"base":"dateTimeStamp","format":"yyyy-MM-ddTHH:mm:ssX"} : dateTimeStamp
    2015-03-15T15:02:37 => !BadDateTime
{"base":"time","format":"HH:mm:ss.SSS"} : time
    15:02:37.1430 => !BadTime
    15:02:37.143Z => !BadTime
    15:02 => !BadTime
{"base":"time","format":"HH:mm:ss"} : time
    15:02:37.1 => !BadTime
{"base":"time","format":"HH:mm"} : time
    15:02:37.1 => !BadTime
"#;

/// Bounds are written as without a format, and may have a zone and parts of a second.
const BOUNDED: &str = r#"
{"base":"dateTime","format":"dd/MM/yyyy HH:mm X","minimum":"2020-01-31T09:30:00+01:00"} : dateTime
    31/01/2020 08:30 Z => 2020-01-31T08:30:00Z
    31/01/2020 09:29 +01 => 2020-01-31T08:29:00Z !BelowMinimum
# a moment without a zone has an order beside one with a zone if they are more than 14 hours apart
{"base":"dateTime","format":"dd/MM/yyyy HH:mm","minimum":"2020-01-31T08:30:00Z"} : dateTime
    31/01/2020 22:31 => 2020-01-31T22:31:00
    31/01/2020 22:30 => 2020-01-31T22:30:00 !BelowMinimum
{"base":"dateTime","format":"yyyy-MM-ddTHH:mm:ss","maxInclusive":"2020-01-31T08:30:00Z"} : dateTime
    2020-01-30T18:29:59 => 2020-01-30T18:29:59
    2020-01-30T18:30:00 => 2020-01-30T18:30:00 !AboveMaximum
{"base":"dateTime","format":"yyyy-MM-ddTHH:mm:ss.SSS","maxExclusive":"2015-03-15T15:02:37.143"} : dateTime
    2015-03-15T15:02:37.142 => 2015-03-15T15:02:37.142
    2015-03-15T15:02:37.143 => 2015-03-15T15:02:37.143 !AboveMaximum
{"base":"dateTimeStamp","format":"yyyyMMdd HHmmssXX","maxInclusive":"2020-12-31T23:59:59-05:00"} : dateTimeStamp
    20210101 045959Z => 2021-01-01T04:59:59Z
    20210101 060000+0100 => 2021-01-01T05:00:00Z !AboveMaximum
{"base":"time","format":"HH:mm:ss.SSS","maximum":"17:00:00"} : time
    17:00:00.000 => 17:00:00
    17:00:00.001 => 17:00:00.001 !AboveMaximum
{"base":"time","format":"HHmm","minExclusive":"08:30:00.5"} : time
    0831 => 08:31:00
{"base":"time","minimum":"08:30:00.5"} : time
    08:30:00.50 => 08:30:00.5
    08:30:00.49 => 08:30:00.49 !BelowMinimum
"#;

/// A format of 255 digits, and a text with two of them.
const LONGEST: &str = "\
{\"base\":\"dateTime\",\"format\":\"yyyy-MM-ddTHH:mm:ss.\
SSSSSSSSSSSSSSSSSSSSSSSSSSSSSSSSSSSSSSSSSSSSSSSSSSSSSSSSSSSSSSSS\
SSSSSSSSSSSSSSSSSSSSSSSSSSSSSSSSSSSSSSSSSSSSSSSSSSSSSSSSSSSSSSSS\
SSSSSSSSSSSSSSSSSSSSSSSSSSSSSSSSSSSSSSSSSSSSSSSSSSSSSSSSSSSSSSSS\
SSSSSSSSSSSSSSSSSSSSSSSSSSSSSSSSSSSSSSSSSSSSSSSSSSSSSSSSSSSSSSS\"} : dateTime
    2015-03-15T15:02:37.14 => 2015-03-15T15:02:37.14
";

/// Datatypes that the profile w3c refuses.
const REFUSED: &str = r#"
{"base":"dateTime","format":"yyyy-MM-ddTHH:mm:ss."} => NotSupported /format
{"base":"dateTime","format":"yyyy-MM-ddTHH:mm.S"} => NotSupported /format
{"base":"dateTime","format":"yyyy-MM-ddTHH:mm:ssS"} => NotSupported /format
{"base":"dateTime","format":"yyyy-MM-ddTHH:mm:ss,SSS"} => NotSupported /format
{"base":"dateTime","format":"yyyy-MM-dd HHmmss.S"} => NotSupported /format
{"base":"dateTime","format":"yyyy-MM-ddTHH:mm:ssXX\u0058X"} => NotSupported /format
{"base":"dateTime","format":"yyyy-MM-ddTHH:mm:ssxX"} => NotSupported /format
{"base":"dateTime","format":"yyyy-MM-ddTHH:mm:ss  X"} => NotSupported /format
{"base":"dateTime","format":"yyyy-MM-ddTHH:mm:ssX "} => NotSupported /format
{"base":"dateTime","format":"yyyy-MM-ddTHH:mm:ssX.S"} => NotSupported /format
{"base":"dateTime","format":"yyyy-MM-ddTHH:mm:ssZ"} => NotSupported /format
{"base":"dateTime","format":"yyyy-MM-ddX"} => NotSupported /format
{"base":"dateTimeStamp","format":"yyyy-MM-ddX"} => NotSupported /format
{"base":"dateTimeStamp","format":"HH:mm:ssX"} => NotSupported /format
{"base":"dateTimeStamp","format":7} => BadProperty /format
{"base":"dateTimeStamp","format":"yyyy-MM-ddTHH:mm:ssX","minimum":"2020-01-01T00:00:00"} => BadDatatype /minimum
{"base":"dateTime","format":"dd/MM/yyyy HH:mm X","minimum":"01/01/2020 00:00 Z"} => BadDatatype /minimum
{"base":"time","format":"HH:mm.S"} => NotSupported /format
{"base":"time","format":"HHmmss.S"} => NotSupported /format
{"base":"time","format":"HH:mm:ss."} => NotSupported /format
{"base":"time","format":"HH:mm:ssxX"} => NotSupported /format
{"base":"time","format":"HH:mm:ss.SSS  X"} => NotSupported /format
{"base":"time","format":"HH:mm:ss.SSS","maximum":"17:00:00+15:00"} => BadDatatype /maximum
{"base":"date","format":"yyyy-MM-ddXX\u0058X"} => NotSupported /format
{"base":"date","format":"yyyy-MM-dd.SX"} => NotSupported /format
{"base":"date","format":"dd/MM/yyyyX","minimum":"29/02/2024Z"} => BadDatatype /minimum
{"base":"gYear","format":"yyyyX"} => NotSupported /format
{"base":"gYearMonth","format":"yyyy-MM X"} => NotSupported /format
"#;

/// A format of more than 255 digits.
const TOO_LONG: &str = "\
{\"base\":\"dateTime\",\"format\":\"yyyy-MM-ddTHH:mm:ss.\
SSSSSSSSSSSSSSSSSSSSSSSSSSSSSSSSSSSSSSSSSSSSSSSSSSSSSSSSSSSSSSSS\
SSSSSSSSSSSSSSSSSSSSSSSSSSSSSSSSSSSSSSSSSSSSSSSSSSSSSSSSSSSSSSSS\
SSSSSSSSSSSSSSSSSSSSSSSSSSSSSSSSSSSSSSSSSSSSSSSSSSSSSSSSSSSSSSSS\
SSSSSSSSSSSSSSSSSSSSSSSSSSSSSSSSSSSSSSSSSSSSSSSSSSSSSSSSSSSSSSSS\"} => NotSupported /format
";

/// Tables of `ZONE_KEY`.
const ZONE_KEYS: &str = r#"
# two texts of one moment are one key
k\n2020-01-01T01:00:00+02\n2019-12-31T23:00:00Z\n2020-01-01T01:00:00Z\n => error,DuplicateKey,1,3,1\n
k\n2020-01-01T01:00:00.50-0030\n2020-01-01T01:30:00.5Z\n => error,DuplicateKey,1,3,1\n
"#;

/// Tables of `TWO_FORMATS`.
const IN_TWO_FORMATS: &str = r#"
# also in two formats
f\n01/01/2020 01:00 +0200\n01/01/2020 01:00 Z\n | k\n2019-12-31T23:00:00.000Z\n => error,NoReferencedRow,1,3,1\n
"#;

/// Tables of `TO_PLAIN`.
const REFERRING_TO_PLAIN: &str = r#"
f\n2020-01-31T08:30:00.000\n2020-01-31T08:30:00.5\n2020-01-31T08:30:00.50\n | k\n2020-01-31T08:30:00\n2020-01-31T08:30:00.500\n => \e
# a moment without a zone is none with a zone
f\n2020-01-31T08:30:00\n | k\n2020-01-31T08:30:00Z\n => error,NoReferencedRow,1,2,1\n
"#;

/// Tables of `STAMP_TO_MOMENT`.
const REFERRING_STAMPS: &str = r#"
# a stamp in a format equals a moment without one
f\n20200101 0100+02\n20200101 0100-02\n | k\n2019-12-31T23:00:00Z\n2020-01-01T01:00:00\n => error,NoReferencedRow,1,3,1\n
"#;

/// Tables of `TIME_KEY`.
const TIME_KEYS: &str = r#"
# times of day
k\n15:02:37.10\n15:02:37\n15:02:37.1\n => error,DuplicateKey,1,4,1\n
k\n15:02:37.000\n15:02:37\n => error,DuplicateKey,1,3,1\n
k\n15:02:37.001\n15:02:37.01\n => \e
"#;

const ZONE_KEY: &str =
    r#"{"@context":"http://www.w3.org/ns/csvw","url":"p.csv","tableSchema":{"primaryKey":"k",
    "columns":[{"name":"k","datatype":{"base":"dateTime","format":"yyyy-MM-ddTHH:mm:ss.SSX"}}]}}"#;

const TIME_KEY: &str =
    r#"{"@context":"http://www.w3.org/ns/csvw","url":"p.csv","tableSchema":{"primaryKey":"k",
    "columns":[{"name":"k","datatype":{"base":"time","format":"HH:mm:ss.SSS"}}]}}"#;

const TWO_FORMATS: &str = r#"{"@context":"http://www.w3.org/ns/csvw","tables":[{"url":"a.csv",
    "tableSchema":{"columns":[{"name":"f","datatype":{"base":"dateTime","format":"dd/MM/yyyy HH:mm XX"}}],
    "foreignKeys":[{"columnReference":"f","reference":{"resource":"b.csv","columnReference":"k"}}]}},
    {"url":"b.csv","tableSchema":{"columns":[{"name":"k","datatype":{"base":"dateTime","format":"yyyy-MM-ddTHH:mm:ss.SSSX"}}]}}]}"#;

const TO_PLAIN: &str = r#"{"@context":"http://www.w3.org/ns/csvw","tables":[{"url":"a.csv",
    "tableSchema":{"columns":[{"name":"f","datatype":{"base":"dateTime","format":"yyyy-MM-ddTHH:mm:ss.SSS"}}],
    "foreignKeys":[{"columnReference":"f","reference":{"resource":"b.csv","columnReference":"k"}}]}},
    {"url":"b.csv","tableSchema":{"columns":[{"name":"k","datatype":"dateTime"}]}}]}"#;

const STAMP_TO_MOMENT: &str = r#"{"@context":"http://www.w3.org/ns/csvw","tables":[{"url":"a.csv",
    "tableSchema":{"columns":[{"name":"f","datatype":{"base":"dateTimeStamp","format":"yyyyMMdd HHmmx"}}],
    "foreignKeys":[{"columnReference":"f","reference":{"resource":"b.csv","columnReference":"k"}}]}},
    {"url":"b.csv","tableSchema":{"columns":[{"name":"k","datatype":"dateTime"}]}}]}"#;

static META: &str =
    r#"{"@context":"http://www.w3.org/ns/csvw","url":"p.csv","tableSchema":{"columns":[
    {"name":"at","datatype":{"base":"dateTime","format":"dd/MM/yyyy HH:mm:ss.SSS X"}},
    {"name":"stamp","datatype":{"base":"dateTimeStamp","format":"yyyyMMdd HHmmssxx"}},
    {"name":"clock","datatype":{"base":"time","format":"HH:mm:ss.SS"}}]}}"#;

static TEXT: &str = "at,stamp,clock
15/03/2015 15:02:37.140 Z,20150315 150237-0800,15:02:37.10
31/12/2019 23:30:00 -0130,20200101 000000+0000,15:02:37
";

static GRAPH: &str =
    r#"_:t1r1s <http://example.org/p.csv#at> "2015-03-15T15:02:37.14Z"^^<http://www.w3.org/2001/XMLSchema#dateTime> .
_:t1r1s <http://example.org/p.csv#stamp> "2015-03-15T23:02:37Z"^^<http://www.w3.org/2001/XMLSchema#dateTimeStamp> .
_:t1r1s <http://example.org/p.csv#clock> "15:02:37.1"^^<http://www.w3.org/2001/XMLSchema#time> .
_:t1r2s <http://example.org/p.csv#at> "2020-01-01T01:00:00Z"^^<http://www.w3.org/2001/XMLSchema#dateTime> .
_:t1r2s <http://example.org/p.csv#stamp> "2020-01-01T00:00:00Z"^^<http://www.w3.org/2001/XMLSchema#dateTimeStamp> .
_:t1r2s <http://example.org/p.csv#clock> "15:02:37"^^<http://www.w3.org/2001/XMLSchema#time> .
"#;

#[test]
fn formats_have_their_graph(rt: HostRuntime) -> Result<(), Fail> {
    assert!(rt; writes(rt.alloc(), META, &[TEXT], Mode::Minimal, GRAPH)?);
    Ok(())
}

#[test]
fn formats_have_their_literals(rt: HostRuntime) -> Result<(), Fail> {
    each_cell(&rt, rt.alloc(), &Check::Cells(Profile::W3c), MOMENTS)?;
    each_cell(&rt, rt.alloc(), &Check::Cells(Profile::W3c), STAMPS)?;
    each_cell(&rt, rt.alloc(), &Check::Cells(Profile::W3c), TIMES)?;
    each_cell(&rt, rt.alloc(), &Check::Cells(Profile::W3c), LONGEST)?;
    Ok(())
}

#[test]
fn other_texts_are_reported(rt: HostRuntime) -> Result<(), Fail> {
    each_cell(&rt, rt.alloc(), &Check::Cells(Profile::W3c), NONE)?;
    Ok(())
}

#[test]
fn bounds_hold_in_all_formats(rt: HostRuntime) -> Result<(), Fail> {
    each_cell(&rt, rt.alloc(), &Check::Cells(Profile::W3c), BOUNDED)?;
    Ok(())
}

#[test]
fn the_core_has_no_such_formats(rt: HostRuntime) -> Result<(), Fail> {
    each_cell(&rt, rt.alloc(), &Check::RefusedByCore("/format"), MOMENTS)?;
    each_cell(&rt, rt.alloc(), &Check::RefusedByCore("/base"), STAMPS)?;
    Ok(())
}

#[test]
fn other_patterns_are_refused(rt: HostRuntime) -> Result<(), Fail> {
    each_refusal(&rt, rt.alloc(), Profile::W3c, REFUSED)?;
    each_refusal(&rt, rt.alloc(), Profile::W3c, TOO_LONG)?;
    Ok(())
}

#[test]
fn keys_are_values_of_all_formats(rt: HostRuntime) -> Result<(), Fail> {
    each_report(&rt, rt.alloc(), ZONE_KEY, ZONE_KEYS)?;
    each_report(&rt, rt.alloc(), TWO_FORMATS, IN_TWO_FORMATS)?;
    each_report(&rt, rt.alloc(), TO_PLAIN, REFERRING_TO_PLAIN)?;
    each_report(&rt, rt.alloc(), STAMP_TO_MOMENT, REFERRING_STAMPS)?;
    each_report(&rt, rt.alloc(), TIME_KEY, TIME_KEYS)?;
    Ok(())
}
