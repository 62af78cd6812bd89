//! Tests of the bounds of times of day, dates and moments with zones, parts of dates and durations in the profile w3c (Metadata Vocabulary for
//! Tabular Data, section 5.11.2; XML Schema 1.1 part 2, sections 3.3.5 to 3.3.14, and 4.3.7). A value without an order beside a bound
//! breaks it.
use crate::cells::{Check, each_cell, each_refusal};
use csvw_meta_core::Profile;
use std::test::Fail;

/// Times of day.
const TIMES: &str = r#"
{"base":"time","minimum":"08:30:00","maxExclusive":"17:00:00"} : time
    00:00:00 => 00:00:00 !BelowMinimum
    08:29:59 => 08:29:59 !BelowMinimum
    08:30:00 => 08:30:00
    08:30:01 => 08:30:01
    16:59:59 => 16:59:59
    17:00:00 => 17:00:00 !AboveMaximum
    23:59:59 => 23:59:59 !AboveMaximum
    08:30 => !BadTime
# parts of a second have any number of digits
{"base":"time","minExclusive":"08:30:00.25","maximum":"08:30:00.5"} : time
    08:30:00 => 08:30:00 !BelowMinimum
    08:30:00.250 => 08:30:00.25 !BelowMinimum
    08:29:59.9 => 08:29:59.9 !BelowMinimum
    08:30:00.250000000000000000000000001 => 08:30:00.250000000000000000000000001
    08:30:00.3 => 08:30:00.3
    08:30:00.50 => 08:30:00.5
    08:30:00.500001 => 08:30:00.500001 !AboveMaximum
    08:30:01 => 08:30:01 !AboveMaximum
# a bound is written as without a format
{"base":"time","format":"HHmm","minExclusive":"08:30:00","maxInclusive":"12:00:00"} : time
    0829 => 08:29:00 !BelowMinimum
    0830 => 08:30:00 !BelowMinimum
    0831 => 08:31:00
    1200 => 12:00:00
    1201 => 12:01:00 !AboveMaximum
"#;

/// Moments.
const MOMENTS: &str = r#"
# moments with a zone are compared in the zone Z; one without has an order if it is more than 14 hours away
{"base":"dateTime","minimum":"2020-01-31T08:30:00Z"} : dateTime
    2020-01-31T08:30:00Z => 2020-01-31T08:30:00Z
    2020-01-31T09:30:00+01:00 => 2020-01-31T08:30:00Z
    2020-01-31T08:29:59Z => 2020-01-31T08:29:59Z !BelowMinimum
    2020-01-31T09:29:59.9+01:00 => 2020-01-31T08:29:59.9Z !BelowMinimum
    2020-01-31T08:30:00.1Z => 2020-01-31T08:30:00.1Z
    2020-01-30T18:30:00-14:00 => 2020-01-31T08:30:00Z
    2020-01-31T22:29:59+14:00 => 2020-01-31T08:29:59Z !BelowMinimum
    2020-01-30T18:29:59 => 2020-01-30T18:29:59 !BelowMinimum
    2020-01-31T08:30:00 => 2020-01-31T08:30:00 !BelowMinimum
    2020-01-31T22:29:59.999 => 2020-01-31T22:29:59.999 !BelowMinimum
    2020-01-31T22:30:00 => 2020-01-31T22:30:00 !BelowMinimum
    2020-01-31T22:30:00.001 => 2020-01-31T22:30:00.001
    2020-01-31T22:30:01 => 2020-01-31T22:30:01
    2020-01-31 => !BadDateTime
{"base":"dateTime","maximum":"2020-01-31T08:30:00Z"} : dateTime
    2020-01-31T08:30:00Z => 2020-01-31T08:30:00Z
    2020-01-31T08:30:00.000Z => 2020-01-31T08:30:00Z
    2020-01-31T08:30:00.001Z => 2020-01-31T08:30:00.001Z !AboveMaximum
    2020-01-31T08:30:00-00:01 => 2020-01-31T08:31:00Z !AboveMaximum
    2020-01-30T18:29:59 => 2020-01-30T18:29:59
    2020-01-30T18:29:59.999 => 2020-01-30T18:29:59.999
    2020-01-30T18:30:00 => 2020-01-30T18:30:00 !AboveMaximum
    2020-01-30T18:30:00.001 => 2020-01-30T18:30:00.001 !AboveMaximum
    2020-01-31T08:30:00 => 2020-01-31T08:30:00 !AboveMaximum
    2020-02-01T08:30:00 => 2020-02-01T08:30:00 !AboveMaximum
# a bound without a zone
{"base":"datetime","maxInclusive":"2020-01-31T08:30:00"} : dateTime
    2020-01-31T08:30:00 => 2020-01-31T08:30:00
    2020-01-31T08:30:00.0 => 2020-01-31T08:30:00
    2020-01-31T08:30:00.1 => 2020-01-31T08:30:00.1 !AboveMaximum
    2020-01-31T08:30:01 => 2020-01-31T08:30:01 !AboveMaximum
    2019-12-31T23:59:59 => 2019-12-31T23:59:59
    2020-01-30T18:29:59Z => 2020-01-30T18:29:59Z
    2020-01-30T20:29:59.9+02:00 => 2020-01-30T18:29:59.9Z
    2020-01-30T18:30:00Z => 2020-01-30T18:30:00Z !AboveMaximum
    2020-01-31T08:30:00Z => 2020-01-31T08:30:00Z !AboveMaximum
# fractions have any number of digits
{"base":"dateTime","minExclusive":"2020-01-31T08:30:00.25","maxExclusive":"2020-01-31T08:30:00.5"} : dateTime
    2020-01-31T08:30:00 => 2020-01-31T08:30:00 !BelowMinimum
    2020-01-31T08:30:00.2499 => 2020-01-31T08:30:00.2499 !BelowMinimum
    2020-01-31T08:30:00.25 => 2020-01-31T08:30:00.25 !BelowMinimum
    2020-01-31T08:30:00.2500 => 2020-01-31T08:30:00.25 !BelowMinimum
    2020-01-31T08:30:00.250000000000000000000000001 => 2020-01-31T08:30:00.250000000000000000000000001
    2020-01-31T08:30:00.3 => 2020-01-31T08:30:00.3
    2020-01-31T08:30:00.4999999999999999999999999999 => 2020-01-31T08:30:00.4999999999999999999999999999
    2020-01-31T08:30:00.5 => 2020-01-31T08:30:00.5 !AboveMaximum
    2020-01-31T08:30:01 => 2020-01-31T08:30:01 !AboveMaximum
    2020-01-30T08:30:00Z => 2020-01-30T08:30:00Z !BelowMinimum
    2020-02-02T08:30:00Z => 2020-02-02T08:30:00Z !AboveMaximum
# bounds of which only one has a zone are more than 14 hours apart
{"base":"dateTime","minInclusive":"2020-01-31T08:30:00Z","maxExclusive":"2020-01-31T22:30:01"} : dateTime
    2020-01-31T08:29:59Z => 2020-01-31T08:29:59Z !BelowMinimum
    2020-01-31T08:30:00Z => 2020-01-31T08:30:00Z
    2020-01-31T08:30:01Z => 2020-01-31T08:30:01Z !AboveMaximum
    2020-01-31T22:30:00.5 => 2020-01-31T22:30:00.5
    2020-01-31T22:30:00 => 2020-01-31T22:30:00 !BelowMinimum
    2020-01-31T22:30:01 => 2020-01-31T22:30:01 !AboveMaximum
# two texts of one moment are equal bounds
{"base":"dateTime","minimum":"2020-01-01T00:00:00+02:00","minInclusive":"2019-12-31T22:00:00Z"} : dateTime
    2019-12-31T22:00:00Z => 2019-12-31T22:00:00Z
    2019-12-31T21:59:59Z => 2019-12-31T21:59:59Z !BelowMinimum
"#;

/// Moments that have a zone.
const STAMPS: &str = r#"
# stamps
{"base":"dateTimeStamp","minimum":"2020-01-01T00:00:00+02:00","maxInclusive":"2020-12-31T23:59:59.9-05:00"} : dateTimeStamp
    2019-12-31T22:00:00Z => 2019-12-31T22:00:00Z
    2019-12-31T23:59:59+02:00 => 2019-12-31T21:59:59Z !BelowMinimum
    2021-01-01T04:59:59.9Z => 2021-01-01T04:59:59.9Z
    2021-01-01T04:59:59.91Z => 2021-01-01T04:59:59.91Z !AboveMaximum
    2021-01-01T06:59:59+02:00 => 2021-01-01T04:59:59Z
    2021-01-01T00:00:00-05:00 => 2021-01-01T05:00:00Z !AboveMaximum
    2020-06-01T00:00:00 => !BadDateTime
{"base":"dateTimeStamp","minExclusive":"2020-01-01T00:00:00Z","maxExclusive":"2020-01-02T00:00:00Z"} : dateTimeStamp
    2020-01-01T01:00:00+01:00 => 2020-01-01T00:00:00Z !BelowMinimum
    2020-01-01T00:00:00.000001Z => 2020-01-01T00:00:00.000001Z
    2020-01-01T23:59:59.999Z => 2020-01-01T23:59:59.999Z
    2020-01-01T19:00:00-05:00 => 2020-01-02T00:00:00Z !AboveMaximum
"#;

/// Datatypes that the profile w3c refuses.
const REFUSED: &str = r#"
{"base":"time","minimum":830} => BadProperty /minimum
{"base":"dateTime","maximum":2020} => BadProperty /maximum
{"base":"dateTimeStamp","minInclusive":2020} => BadProperty /minInclusive
{"base":"gYear","maxInclusive":2015} => BadProperty /maxInclusive
{"base":"gYearMonth","minExclusive":201503} => BadProperty /minExclusive
{"base":"gMonth","maxExclusive":3} => BadProperty /maxExclusive
{"base":"gMonthDay","minimum":322} => BadProperty /minimum
{"base":"gDay","maximum":22} => BadProperty /maximum
{"base":"duration","minInclusive":1} => BadProperty /minInclusive
{"base":"yearMonthDuration","maxInclusive":12} => BadProperty /maxInclusive
{"base":"dayTimeDuration","minExclusive":36} => BadProperty /minExclusive
{"base":"time","maxExclusive":"24:00:00"} => BadDatatype /maxExclusive
{"base":"time","minimum":"08:30"} => BadDatatype /minimum
{"base":"time","maximum":"08:30:00z"} => BadDatatype /maximum
{"base":"date","minimum":"2020-01-31+15:00"} => BadDatatype /minimum
{"base":"date","maximum":20200131} => BadProperty /maximum
{"base":"date","minimum":"2020-01-31Z","maximum":"2020-01-31"} => BadDatatype
{"base":"date","minimum":"2020-02-01+13:00","maxExclusive":"2020-01-31-11:00"} => BadDatatype
{"base":"time","minimum":"08:30:00Z","maximum":"09:29:59+01:00"} => BadDatatype
{"base":"gDay","minimum":"---02+13:00","maxExclusive":"---01-11:00"} => BadDatatype
{"base":"dateTime","minInclusive":"2020-01-31"} => BadDatatype /minInclusive
{"base":"dateTime","maxInclusive":"2020-01-31T08:30:00+15:00"} => BadDatatype /maxInclusive
{"base":"dateTimeStamp","minExclusive":"2020-01-31T08:30:00"} => BadDatatype /minExclusive
{"base":"gYear","maxExclusive":"15"} => BadDatatype /maxExclusive
{"base":"gYearMonth","minimum":"2015-13"} => BadDatatype /minimum
{"base":"gYearMonth","maximum":"2015"} => BadDatatype /maximum
{"base":"gMonth","minInclusive":"03"} => BadDatatype /minInclusive
{"base":"gMonthDay","maxInclusive":"--02-30"} => BadDatatype /maxInclusive
{"base":"gDay","minExclusive":"---32"} => BadDatatype /minExclusive
{"base":"duration","maxExclusive":"P1W"} => BadDatatype /maxExclusive
{"base":"duration","minimum":"P999999999Y12M"} => BadDatatype /minimum
{"base":"yearMonthDuration","maximum":"P1D"} => BadDatatype /maximum
{"base":"dayTimeDuration","minInclusive":"P1M"} => BadDatatype /minInclusive
{"base":"time","format":"HHmm","minimum":"0830"} => BadDatatype /minimum
{"base":"gYear","maximum":true} => BadProperty /maximum
{"base":"time","minimum":"08:30:01","maximum":"08:30:00"} => BadDatatype
{"base":"time","minimum":"08:30:00","maxExclusive":"08:30:00"} => BadDatatype
{"base":"time","minimum":"08:30:00","minExclusive":"08:00:00"} => BadDatatype
{"base":"dateTime","minimum":"2020-01-31T08:30:00Z","maximum":"2020-01-31T08:30:00"} => BadDatatype
{"base":"dateTime","minimum":"2020-01-31T08:30:00Z","maximum":"2020-01-31T22:30:00"} => BadDatatype
{"base":"dateTime","minExclusive":"2020-01-31T08:30:00","maxExclusive":"2020-01-31T08:30:00Z"} => BadDatatype
{"base":"dateTime","minimum":"2020-01-31T08:30:00Z","minInclusive":"2020-01-31T08:30:00"} => BadDatatype
{"base":"dateTime","maximum":"2020-01-31T08:30:00Z","maxInclusive":"2020-01-31T08:30:00.1Z"} => BadDatatype
{"base":"dateTimeStamp","minimum":"2020-01-31T08:30:00Z","maxInclusive":"2020-01-31T09:29:59+01:00"} => BadDatatype
{"base":"gYear","minimum":"2015","maximum":"2015Z"} => BadDatatype
{"base":"gYear","minimum":"2015Z","maximum":"2015+01:00"} => BadDatatype
{"base":"gYear","minExclusive":"2015","maxExclusive":"2015Z"} => BadDatatype
{"base":"gYear","minimum":"2015","minInclusive":"2015Z"} => BadDatatype
{"base":"gYearMonth","minimum":"2015-03","maximum":"2015-02"} => BadDatatype
{"base":"gMonth","minExclusive":"--03","maximum":"--03"} => BadDatatype
{"base":"gMonthDay","minimum":"--03-01","maximum":"--02-29"} => BadDatatype
{"base":"gDay","minimum":"---01","minExclusive":"---01"} => BadDatatype
{"base":"duration","minimum":"P30D","maximum":"P1M"} => BadDatatype
{"base":"duration","minimum":"P1M","maximum":"P30D"} => BadDatatype
{"base":"duration","minimum":"P32D","maximum":"P1M"} => BadDatatype
{"base":"duration","maximum":"P1Y","maxInclusive":"P365D"} => BadDatatype
{"base":"duration","minExclusive":"P30D","maxExclusive":"P1M"} => BadDatatype
{"base":"yearMonthDuration","minimum":"P12M","maxExclusive":"P1Y"} => BadDatatype
{"base":"dayTimeDuration","minimum":"PT24H","maximum":"PT23H59M59.9S"} => BadDatatype
"#;

/// The profile core has none of these datatypes but `dateTime`, whose bounds have no zone and no fraction.
const REFUSED_IN_CORE: &str = r#"
{"base":"time","minimum":"08:30:00"} => NotSupported /base
{"base":"dateTimeStamp","minimum":"2020-01-31T08:30:00Z"} => NotSupported /base
{"base":"gYear","minimum":"2015"} => NotSupported /base
{"base":"gYearMonth","minimum":"2015-03"} => NotSupported /base
{"base":"gMonth","minimum":"--03"} => NotSupported /base
{"base":"gMonthDay","minimum":"--03-22"} => NotSupported /base
{"base":"gDay","minimum":"---22"} => NotSupported /base
{"base":"duration","minimum":"P1Y2M"} => NotSupported /base
{"base":"yearMonthDuration","minimum":"P1Y2M"} => NotSupported /base
{"base":"dayTimeDuration","minimum":"PT36H"} => NotSupported /base
{"base":"gYear","minimum":2015} => NotSupported /base
{"base":"dateTime","minimum":"2020-01-31T08:30:00Z"} => BadDatatype /minimum
{"base":"date","minimum":"2020-01-31Z"} => BadDatatype /minimum
{"base":"dateTime","maximum":"2020-01-31T08:30:00.5"} => BadDatatype /maximum
{"base":"dateTime","minExclusive":20200131} => BadProperty /minExclusive
{"base":"dateTime","minimum":"2020-01-31T08:30:01","maximum":"2020-01-31T08:30:00"} => BadDatatype
"#;

/// Datatypes, and cells that have no order beside their lower and their upper bound.
const UNORDERED: &str = r#"
{"base":"dateTime","minimum":"2020-01-31T00:00:00","maximum":"2020-02-01T00:00:00"} : dateTime
    2020-01-31T12:00:00Z => 2020-01-31T12:00:00Z !BelowMinimum !AboveMaximum
{"base":"dateTime","minExclusive":"2020-01-31T00:00:00Z","maxExclusive":"2020-02-01T00:00:00Z"} : dateTime
    2020-01-31T12:00:00 => 2020-01-31T12:00:00 !BelowMinimum !AboveMaximum
{"base":"date","minimum":"2020-01-31","maximum":"2020-01-31"} : date
    2020-01-31Z => 2020-01-31Z !BelowMinimum !AboveMaximum
{"base":"time","minimum":"08:30:00Z","maximum":"08:30:00Z"} : time
    08:30:00 => 08:30:00 !BelowMinimum !AboveMaximum
{"base":"gYear","minInclusive":"2015","maxInclusive":"2015"} : gYear
    2015Z => 2015Z !BelowMinimum !AboveMaximum
{"base":"gMonth","minExclusive":"--03Z","maxExclusive":"--03Z"} : gMonth
    --03 => --03 !BelowMinimum !AboveMaximum
{"base":"duration","minimum":"P1M","maximum":"P1M"} : duration
    P30D => P30D !BelowMinimum !AboveMaximum
{"base":"duration","minExclusive":"P59D","maxExclusive":"P61D"} : duration
    P2M => P2M !BelowMinimum !AboveMaximum
"#;

#[test]
fn times_have_bounds(rt: HostRuntime) -> Result<(), Fail> {
    each_cell(&rt, rt.alloc(), &Check::Columns(Profile::W3c), TIMES)?;
    Ok(())
}

#[test]
fn moments_have_bounds(rt: HostRuntime) -> Result<(), Fail> {
    each_cell(&rt, rt.alloc(), &Check::Columns(Profile::W3c), MOMENTS)?;
    Ok(())
}

#[test]
fn stamps_have_bounds(rt: HostRuntime) -> Result<(), Fail> {
    each_cell(&rt, rt.alloc(), &Check::Columns(Profile::W3c), STAMPS)?;
    Ok(())
}

#[test]
fn values_without_an_order_break_both_bounds(rt: HostRuntime) -> Result<(), Fail> {
    each_cell(&rt, rt.alloc(), &Check::Cells(Profile::W3c), UNORDERED)?;
    Ok(())
}

#[test]
fn their_other_bounds_are_refused(rt: HostRuntime) -> Result<(), Fail> {
    each_refusal(&rt, rt.alloc(), Profile::W3c, REFUSED)?;
    Ok(())
}

#[test]
fn the_core_has_no_such_bounds(rt: HostRuntime) -> Result<(), Fail> {
    each_refusal(&rt, rt.alloc(), Profile::Core, REFUSED_IN_CORE)?;
    Ok(())
}
