//! Tests of moments with a space between the date and the time of day: their literals in the graph, their keys, and the documents
//! that each profile refuses.
use crate::cells::{Check, each_cell, each_refusal};
use crate::keys::each_report;
use csvw_meta_core::Profile;
use std::test::Fail;

/// Moments whose formats the profile core refuses.
const OF_W3C: &str = r#"
{"base":"dateTime","format":"dd/MM/yyyy HH:mm"} : dateTime
    31/01/2020 08:30 => 2020-01-31T08:30:00
{"base":"datetime","format":"yyyy-MM-dd HH:mm:ss"} : dateTime
    2020-02-29 23:59:59 => 2020-02-29T23:59:59
{"base":"dateTime","format":"M/d/yyyy HH:mm:ss"} : dateTime
    1/2/2020 00:00:00 => 2020-01-02T00:00:00
{"base":"dateTime","format":"d.M.yyyy HHmm"} : dateTime
    1.12.2019 0905 => 2019-12-01T09:05:00
{"base":"dateTime","@id":"http://example.org/d","format":"yyyyMMdd HHmmss"} : <http://example.org/d>
    20200131 083000 => 2020-01-31T08:30:00
"#;

/// Other texts of such formats.
const CASES: &str = r#"
# white space is collapsed first
{"base":"dateTime","format":"dd/MM/yyyy HH:mm"} : dateTime
    \s31/01/2020 \t 08:30\s => 2020-01-31T08:30:00
{"base":"dateTime","format":"dd/MM/yyyy HH:mm"},"separator":";" : dateTime
    \s31/01/2020 08:30 => 2020-01-31T08:30:00
{"base":"dateTime","format":"dd/MM/yyyy HH:mm"},"default":"31/01/2020 08:30" : dateTime
    "" => 2020-01-31T08:30:00
# texts that are none
{"base":"dateTime","format":"dd/MM/yyyy HH:mm"} : dateTime
    29/02/2019 08:30 => !BadDateTime
{"base":"dateTime","format":"yyyy-MM-dd HH:mm:ss"} : dateTime
    2020-01-31T08:30:00 => !BadDateTime
"#;

/// Bounds are written in the default format, whatever the format of the cells is.
const BOUNDED: &str = r#"
{"base":"dateTime","format":"dd/MM/yyyy HH:mm","minimum":"2020-01-01T00:00:00"} : dateTime
    01/01/2020 00:00 => 2020-01-01T00:00:00
    31/12/2019 23:59 => 2019-12-31T23:59:00 !BelowMinimum
{"base":"dateTime","format":"dd/MM/yyyy HH:mm","minExclusive":"2020-01-01T00:00:00"} : dateTime
    01/01/2020 00:01 => 2020-01-01T00:01:00
    01/01/2020 00:00 => 2020-01-01T00:00:00 !BelowMinimum
{"base":"dateTime","format":"MM.dd.yyyy HHmmss","maxInclusive":"2020-01-01T00:00:00"} : dateTime
    01.01.2020 000000 => 2020-01-01T00:00:00
    01.01.2020 000001 => 2020-01-01T00:00:01 !AboveMaximum
"#;

/// Datatypes that the profile w3c refuses.
const REFUSED: &str = r#"
{"base":"dateTime","format":"yyyy-MM-dd  HH:mm"} => NotSupported /format
{"base":"dateTime","format":" yyyy-MM-dd HH:mm"} => NotSupported /format
{"base":"dateTime","format":"yyyy-MM-dd"} => NotSupported /format
{"base":"dateTime","format":"dd/MM/yyyyTHH:mm"} => NotSupported /format
{"base":"dateTime","format":"HH:mm dd/MM/yyyy"} => NotSupported /format
{"base":"date","format":"yyyy-MM-dd HH:mm"} => NotSupported /format
{"base":"dateTime","format":"dd/MM/yyyy HH:mm","minimum":"01/01/2020 00:00"} => BadDatatype /minimum
"#;

/// Tables of `MOMENT_KEY`.
const MOMENT_KEYS: &str = r#"
# two texts of one moment are one key
k\n1/2/2020 00:00\n2/1/2020 00:00\n01/02/2020 00:00\n => error,DuplicateKey,1,4,1\n
"#;

/// Tables of `TWO_FORMATS`.
const IN_TWO_FORMATS: &str = r#"
# a moment equals the same one in another format, and one without a format and a zone
f\n31/01/2020 08:30\n31/01/2020 08:31\n | k\n2020-01-31T08:30:00\n => error,NoReferencedRow,1,3,1\n
"#;

/// Tables of `TO_PLAIN`.
const REFERRING_TO_PLAIN: &str = r#"
f\n31/01/2020 08:30\n | k\n2020-01-31T08:30:00\n => \e
f\n31/01/2020 08:30\n | k\n2020-01-31T08:30:00Z\n => error,NoReferencedRow,1,2,1\n
"#;

const MOMENT_KEY: &str =
    r#"{"@context":"http://www.w3.org/ns/csvw","url":"p.csv","tableSchema":{"primaryKey":"k",
            "columns":[{"name":"k","datatype":{"base":"dateTime","format":"M/d/yyyy HH:mm"}}]}}"#;

const TWO_FORMATS: &str = r#"{"@context":"http://www.w3.org/ns/csvw","tables":[{"url":"a.csv",
            "tableSchema":{"columns":[{"name":"f","datatype":{"base":"dateTime","format":"dd/MM/yyyy HH:mm"}}],
            "foreignKeys":[{"columnReference":"f","reference":{"resource":"b.csv","columnReference":"k"}}]}},
            {"url":"b.csv","tableSchema":{"columns":[{"name":"k","datatype":{"base":"dateTime","format":"yyyy-MM-ddTHH:mm:ss"}}]}}]}"#;

const TO_PLAIN: &str = r#"{"@context":"http://www.w3.org/ns/csvw","tables":[{"url":"a.csv",
    "tableSchema":{"columns":[{"name":"f","datatype":{"base":"dateTime","format":"dd/MM/yyyy HH:mm"}}],
    "foreignKeys":[{"columnReference":"f","reference":{"resource":"b.csv","columnReference":"k"}}]}},
    {"url":"b.csv","tableSchema":{"columns":[{"name":"k","datatype":"dateTime"}]}}]}"#;

#[test]
fn spaces_have_their_literals(rt: HostRuntime) -> Result<(), Fail> {
    each_cell(&rt, rt.alloc(), &Check::Cells(Profile::W3c), OF_W3C)?;
    each_cell(&rt, rt.alloc(), &Check::Cells(Profile::W3c), CASES)?;
    each_cell(&rt, rt.alloc(), &Check::Cells(Profile::W3c), BOUNDED)?;
    Ok(())
}

#[test]
fn the_core_has_no_spaces(rt: HostRuntime) -> Result<(), Fail> {
    each_cell(&rt, rt.alloc(), &Check::RefusedByCore("/format"), OF_W3C)?;
    Ok(())
}

#[test]
fn other_formats_are_refused(rt: HostRuntime) -> Result<(), Fail> {
    each_refusal(&rt, rt.alloc(), Profile::W3c, REFUSED)?;
    Ok(())
}

#[test]
fn keys_are_moments(rt: HostRuntime) -> Result<(), Fail> {
    each_report(&rt, rt.alloc(), MOMENT_KEY, MOMENT_KEYS)?;
    each_report(&rt, rt.alloc(), TWO_FORMATS, IN_TWO_FORMATS)?;
    each_report(&rt, rt.alloc(), TO_PLAIN, REFERRING_TO_PLAIN)?;
    Ok(())
}
