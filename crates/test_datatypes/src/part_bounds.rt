//! Tests of the bounds of parts of dates and of durations in the profile w3c (Metadata Vocabulary for Tabular Data, section 5.11.2;
//! XML Schema 1.1 part 2, sections 3.3.6, 3.3.10 to 3.3.14, 3.4.26, 3.4.27 and 4.3.7).
use crate::cells::{Check, each_cell};
use csvw_meta_core::Profile;
use std::test::Fail;

/// Years.
const YEARS: &str = r#"
# years have any number of digits, and a sign; the same year with a zone has no order beside one without
{"base":"gYear","minimum":"-0044","maximum":"12015"} : gYear
    -0044 => -0044
    -0045 => -0045 !BelowMinimum
    -99999 => -99999 !BelowMinimum
    -0001 => -0001
    -0000 => 0000
    9999 => 9999
    10000 => 10000
    12015 => 12015
    12016 => 12016 !AboveMaximum
    100000000000000000000 => 100000000000000000000 !AboveMaximum
    2015Z => 2015Z
    -0044Z => -0044Z !BelowMinimum
    12015+01:00 => 12015+01:00 !AboveMaximum
    15 => !BadDate
# the greater offset is earlier
{"base":"gYear","minInclusive":"2015+01:00"} : gYear
    2015+01:00 => 2015+01:00
    2015+02:00 => 2015+02:00 !BelowMinimum
    2015+01:01 => 2015+01:01 !BelowMinimum
    2015+00:59 => 2015+00:59
    2015+00:00 => 2015Z
    2015-05:00 => 2015-05:00
    2015 => 2015 !BelowMinimum
    2016 => 2016
    2016+14:00 => 2016+14:00
    2014 => 2014 !BelowMinimum
    2014-14:00 => 2014-14:00 !BelowMinimum
{"base":"gYear","minExclusive":"2015","maxExclusive":"2016"} : gYear
    2015 => 2015 !BelowMinimum
    2016 => 2016 !AboveMaximum
    2014 => 2014 !BelowMinimum
    2017 => 2017 !AboveMaximum
    2015Z => 2015Z !BelowMinimum
    2016Z => 2016Z !AboveMaximum
"#;

/// Months, with a year or alone.
const MONTHS: &str = r#"
# months
{"base":"gYearMonth","minExclusive":"2015-03","maxInclusive":"2016-01"} : gYearMonth
    2015-03 => 2015-03 !BelowMinimum
    2015-04 => 2015-04
    2015-12 => 2015-12
    2016-01 => 2016-01
    2016-02 => 2016-02 !AboveMaximum
    2015-02 => 2015-02 !BelowMinimum
    2014-12 => 2014-12 !BelowMinimum
    2015-04Z => 2015-04Z
    2015-03Z => 2015-03Z !BelowMinimum
    2016-01-05:00 => 2016-01-05:00 !AboveMaximum
    12015-01 => 12015-01 !AboveMaximum
    -0044-12 => -0044-12 !BelowMinimum
{"base":"gYearMonth","minimum":"-0044-03","maxExclusive":"-0043-01Z"} : gYearMonth
    -0044-03 => -0044-03
    -0044-12 => -0044-12
    -0044-02 => -0044-02 !BelowMinimum
    -0045-12 => -0045-12 !BelowMinimum
    -0043-01Z => -0043-01Z !AboveMaximum
    -0043-01+00:01 => -0043-01+00:01
    -0043-01-00:01 => -0043-01-00:01 !AboveMaximum
    -0043-01 => -0043-01 !AboveMaximum
{"base":"gMonth","minimum":"--03","maxExclusive":"--11"} : gMonth
    --03 => --03
    --02 => --02 !BelowMinimum
    --10 => --10
    --11 => --11 !AboveMaximum
    --12 => --12 !AboveMaximum
    --03Z => --03Z !BelowMinimum
    --04Z => --04Z
    --11Z => --11Z !AboveMaximum
    --10-14:00 => --10-14:00
{"base":"gMonth","maxInclusive":"--03Z"} : gMonth
    --03Z => --03Z
    --03+00:00 => --03Z
    --03+01:00 => --03+01:00
    --03-01:00 => --03-01:00 !AboveMaximum
    --03 => --03 !AboveMaximum
    --02 => --02
    --04 => --04 !AboveMaximum
"#;

/// Days, with a month or alone.
const DAYS: &str = r#"
# days
{"base":"gMonthDay","minimum":"--02-29","maximum":"--03-22"} : gMonthDay
    --02-29 => --02-29
    --02-28 => --02-28 !BelowMinimum
    --01-31 => --01-31 !BelowMinimum
    --03-01 => --03-01
    --03-22 => --03-22
    --03-23 => --03-23 !AboveMaximum
    --12-01 => --12-01 !AboveMaximum
    --02-30 => !BadDate
{"base":"gDay","minExclusive":"---09","maxExclusive":"---22"} : gDay
    ---09 => ---09 !BelowMinimum
    ---01 => ---01 !BelowMinimum
    ---10 => ---10
    ---21 => ---21
    ---22 => ---22 !AboveMaximum
    ---31 => ---31 !AboveMaximum
    ---32 => !BadDate
"#;

/// Durations.
const DURATIONS: &str = r#"
# a duration that has no order beside a bound breaks it
{"base":"duration","minimum":"P1M","maximum":"P1Y"} : duration
    P1M => P1M
    P27D => P27D !BelowMinimum
    P28D => P28D !BelowMinimum
    P30D => P30D !BelowMinimum
    P31D => P31D !BelowMinimum
    P32D => P32D
    P11M => P11M
    P12M => P1Y
    P364D => P364D
    P365D => P365D !AboveMaximum
    P366D => P366D !AboveMaximum
    P367D => P367D !AboveMaximum
    P1YT0.1S => P1YT0.1S !AboveMaximum
    -P1M => -P1M !BelowMinimum
    PT0S => PT0S !BelowMinimum
    P1W => !BadDuration
{"base":"duration","minExclusive":"PT36H"} : duration
    PT36H => P1DT12H !BelowMinimum
    P1DT12H => P1DT12H !BelowMinimum
    PT35H59M59.999999999S => P1DT11H59M59.999999999S !BelowMinimum
    P1DT12H0.000000001S => P1DT12H0.000000001S
    P2D => P2D
    P1M => P1M
    -P2D => -P2D !BelowMinimum
{"base":"duration","maxExclusive":"P5M"} : duration
    P149D => P149D
    P150D => P150D !AboveMaximum
    P153D => P153D !AboveMaximum
    P154D => P154D !AboveMaximum
    P4M => P4M
    P4M27D => P4M27D
    P4M30D => P4M30D !AboveMaximum
    P5M => P5M !AboveMaximum
    -P1Y => -P1Y
# the limit of durations
{"base":"duration","minimum":"-P999999999Y","minInclusive":"-P999999998Y12M","maximum":"P999999999Y"} : duration
    P999999999Y => P999999999Y
    -P999999999Y => -P999999999Y
    P999999999D => P999999999D
    P999999999Y1M => P999999999Y1M !AboveMaximum
    -P999999999Y1M => -P999999999Y1M !BelowMinimum
    P999999999Y12M => !BadDuration
    P999999999DT24H => !BadDuration
# a bound needs not to be as the format says
{"base":"duration","format":"P[0-9]+D","maximum":"P1M"} : duration
    P27D => P27D
    P28D => P28D !AboveMaximum
    P1M => !BadDuration
{"base":"yearMonthDuration","minimum":"P1Y2M","maximum":"P2Y"} : yearMonthDuration
    P14M => P1Y2M
    P13M => P1Y1M !BelowMinimum
    P0M => P0M !BelowMinimum
    -P2Y => -P2Y !BelowMinimum
    P24M => P2Y
    P25M => P2Y1M !AboveMaximum
    P999999999Y => P999999999Y !AboveMaximum
    P1D => !BadDuration
{"base":"yearMonthDuration","minExclusive":"-P1M","maxExclusive":"P1M"} : yearMonthDuration
    -P1M => -P1M !BelowMinimum
    P0M => P0M
    -P0Y => P0M
    P1M => P1M !AboveMaximum
{"base":"dayTimeDuration","minExclusive":"-PT1H","maxExclusive":"PT36H"} : dayTimeDuration
    -PT1H => -PT1H !BelowMinimum
    -PT60M => -PT1H !BelowMinimum
    -P1D => -P1D !BelowMinimum
    -PT59M59.9S => -PT59M59.9S
    PT0S => PT0S
    P1DT11H59M59.999999999S => P1DT11H59M59.999999999S
    P1DT12H => P1DT12H !AboveMaximum
    PT36H0.1S => P1DT12H0.1S !AboveMaximum
{"base":"dayTimeDuration","minimum":"P1D","minInclusive":"PT24H","maximum":"PT86400.5S"} : dayTimeDuration
    P1D => P1D
    PT86400S => P1D
    PT24H0.5S => P1DT0.5S
    PT24H0.51S => P1DT0.51S !AboveMaximum
    PT86399.9S => PT23H59M59.9S !BelowMinimum
"#;

#[test]
fn years_have_bounds(rt: HostRuntime) -> Result<(), Fail> {
    each_cell(&rt, rt.alloc(), &Check::Columns(Profile::W3c), YEARS)?;
    Ok(())
}

#[test]
fn months_have_bounds(rt: HostRuntime) -> Result<(), Fail> {
    each_cell(&rt, rt.alloc(), &Check::Columns(Profile::W3c), MONTHS)?;
    Ok(())
}

#[test]
fn days_have_bounds(rt: HostRuntime) -> Result<(), Fail> {
    each_cell(&rt, rt.alloc(), &Check::Columns(Profile::W3c), DAYS)?;
    Ok(())
}

#[test]
fn durations_have_bounds(rt: HostRuntime) -> Result<(), Fail> {
    each_cell(&rt, rt.alloc(), &Check::Columns(Profile::W3c), DURATIONS)?;
    Ok(())
}
