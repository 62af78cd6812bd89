//! Tests of zones of dates and times of day in the profile w3c, with and without formats, and of patterns of numbers with an exponent (Model for
//! Tabular Data, sections 6.4.2 and 6.4.4; XML Schema 1.1 part 2, sections 3.3.8 to 3.3.13).
use crate::cells::{Check, each_cell};
use csvw_meta_core::Profile;
use std::test::Fail;

/// Dates.
const DATES: &str = r#"
"date" : date
    2024-02-29 => 2024-02-29
    2024-02-29Z => 2024-02-29Z
    2024-02-29-00:00 => 2024-02-29Z
    2024-02-29+02:00 => 2024-02-29+02:00
    2024-03-01+13:00 => 2024-02-29-11:00
    2024-02-29-12:00 => 2024-03-01+12:00
    0001-01-01+12:01 => !BadDate
    2024-02-29+0200 => !BadDate
    2023-02-29Z => !BadDate
{"base":"date","format":"yyyy-MM-ddX"} : date
    2024-02-29+02 => 2024-02-29+02:00
    2024-02-29Z => 2024-02-29Z
    2024-02-29 => !BadDate
    2024-02-29+02:00 => !BadDate
{"base":"date","format":"d.M.yyyy X\u0058X"} : date
    1.3.2024 +13:00 => 2024-02-29-11:00
    29.2.2024Z => !BadDate
{"base":"date","format":"dd/MM/yyyy"} : date
    29/02/2024 => 2024-02-29
    29/02/2024Z => !BadDate
{"base":"date","format":"yyyyMMddxx","@id":"http://example.org/d"} : <http://example.org/d>
    20240229-0830 => 2024-02-29-08:30
"#;

/// Bounds of dates may have a zone.
const BOUNDED: &str = r#"
{"base":"date","minimum":"2020-01-31Z"} : date
    2020-01-31Z => 2020-01-31Z
    2020-01-31+01:00 => 2020-01-31+01:00 !BelowMinimum
    2020-01-31 => 2020-01-31 !BelowMinimum
    2020-02-01 => 2020-02-01
    2020-01-30 => 2020-01-30 !BelowMinimum
{"base":"date","format":"dd/MM/yyyy","maximum":"2020-01-31"} : date
    31/01/2020 => 2020-01-31
    01/02/2020 => 2020-02-01 !AboveMaximum
{"base":"time","maxExclusive":"17:00:00Z"} : time
    17:59:59+01:00 => 16:59:59Z
    18:00:00+01:00 => 17:00:00Z !AboveMaximum
    00:30:00+01:00 => 00:30:00+01:00
{"base":"gMonthDay","minimum":"--03-01Z"} : gMonthDay
    --03-01-01:00 => --03-01-01:00
    --03-01+13:00 => --02-29-11:00 !BelowMinimum
"#;

/// Times of day, and days.
const TIMES: &str = r#"
"time" : time
    13:20:30+02:00 => 11:20:30Z
    00:30:00+01:00 => 00:30:00+01:00
    01:30:00+02:00 => 00:30:00+01:00
    10:00:00-14:00 => 23:00:00-01:00
    13:20:30.50Z => 13:20:30.5Z
    13:20:30+14:01 => !BadTime
    13:20Z => !BadTime
{"base":"time","format":"HH:mm:ssX"} : time
    15:02:37-08 => 23:02:37Z
    15:02:37+0530 => 09:32:37Z
    15:02:37 => !BadTime
    15:02:37.5Z => !BadTime
{"base":"time","format":"HH:mm:ss.SSS X\u0058X"} : time
    15:02:37.140 +01:00 => 14:02:37.14Z
    15:02:37Z => !BadTime
{"base":"time","format":"HHmmx"} : time
    1502+00 => 15:02:00Z
    1502Z => !BadTime
"gMonthDay" : gMonthDay
    --03-01+13:00 => --02-29-11:00
    --01-01+13:00 => --01-01+13:00
"gDay" : gDay
    ---05-12:00 => ---06+12:00
    ---31Z => ---31Z
"#;

/// Numbers with an exponent in a pattern.
const EXPONENTS: &str = r##"
{"base":"double","format":"#0.###E0"} : double
    12.5E3 => 12500
    -1.5E-10 => -1.5e-10
    1E+03 => 1000
    125E3 => !BadDouble
    12.5e3 => !BadDouble
    12.5 => !BadDouble
    12.5E => !BadDouble
    1.2345E0 => !BadDouble
{"base":"number","format":"0.0E+00"} : double
    1.5E+03 => 1500
    1.5E-03 => 0.0015
    1.5E03 => !BadDouble
    1.5E+3 => !BadDouble
{"base":"float","format":{"pattern":"0,0E0","decimalChar":","}} : float
    "1,5E3" => 1500
# the character of a fraction is no exponent
{"base":"double","format":{"pattern":"0E0","decimalChar":"E"}} : double
    1E5 => 1.5
"##;

#[test]
fn zones_of_dates_and_times(rt: HostRuntime) -> Result<(), Fail> {
    each_cell(&rt, rt.alloc(), &Check::Cells(Profile::W3c), DATES)?;
    each_cell(&rt, rt.alloc(), &Check::Cells(Profile::W3c), BOUNDED)?;
    each_cell(&rt, rt.alloc(), &Check::Cells(Profile::W3c), TIMES)?;
    Ok(())
}

#[test]
fn exponents_in_patterns(rt: HostRuntime) -> Result<(), Fail> {
    Ok(each_cell(&rt, rt.alloc(), &Check::Cells(Profile::W3c), EXPONENTS)?)
}
