//! Bounds that are refused, with how each is written, and values that break a bound since the two have no order.

use crate::runs::Sent::Just;
use crate::runs::{Case, End, File, each_ends_so};

/// A document with bounds of which each is refused.
const REFUSED: &[File<'static>] = &[File {
    path: "m.json",
    bytes: br#"{"@context":"http://www.w3.org/ns/csvw","url":"p.csv","tableSchema":{"columns":[
{"name":"c0","datatype":{"base":"time","format":"HHmm",
"minimum":"0830"}},
{"name":"c1","datatype":{"base":"dateTime",
"maximum":"2020-01-31"}},
{"name":"c2","datatype":{"base":"dateTimeStamp",
"minInclusive":"2020-01-31T08:30:00"}},
{"name":"c3","datatype":{"base":"gYear",
"maxInclusive":2015}},
{"name":"c4","datatype":{"base":"gYearMonth",
"minExclusive":201503}},
{"name":"c5","datatype":{"base":"gMonth",
"maxExclusive":3}},
{"name":"c6","datatype":{"base":"gMonthDay",
"minimum":"--02-30"}},
{"name":"c7","datatype":{"base":"gDay",
"maximum":"22"}},
{"name":"c8","datatype":{"base":"duration",
"minInclusive":"P1W"}},
{"name":"c9","datatype":{"base":"yearMonthDuration",
"maxInclusive":"P30D"}},
{"name":"c10","datatype":{"base":"dayTimeDuration",
"minExclusive":"P1M"}},
{"name":"c11","datatype":{"base":"QName",
"minimum":"a:b"}}]}}"#,
}];

/// The page of a check of it.
const WRITTEN: &[u8] =
    br#"m.json:3:1: /tableSchema/columns/0/datatype/minimum: BadDatatype: the datatype cannot have this format or these facets
    a bound is a time of day as "08:30:00", whatever the format is
m.json:5:1: /tableSchema/columns/1/datatype/maximum: BadDatatype: the datatype cannot have this format or these facets
    a bound is a moment as "2020-01-31T08:30:00", whatever the format is; with `--profile w3c` also as "2020-01-31T08:30:00.5Z"
m.json:7:1: /tableSchema/columns/2/datatype/minInclusive: BadDatatype: the datatype cannot have this format or these facets
    a bound is a moment with a zone, as "2020-01-31T08:30:00Z"
m.json:9:1: /tableSchema/columns/3/datatype/maxInclusive: BadProperty: a value is of a wrong kind, or a property is missing
    a bound is a year in quotes, as "2015"
m.json:11:1: /tableSchema/columns/4/datatype/minExclusive: BadProperty: a value is of a wrong kind, or a property is missing
    a bound is a year and a month, as "2015-03"
m.json:13:1: /tableSchema/columns/5/datatype/maxExclusive: BadProperty: a value is of a wrong kind, or a property is missing
    a bound is a month, as "--03"
m.json:15:1: /tableSchema/columns/6/datatype/minimum: BadDatatype: the datatype cannot have this format or these facets
    a bound is a month and a day, as "--03-22"
m.json:17:1: /tableSchema/columns/7/datatype/maximum: BadDatatype: the datatype cannot have this format or these facets
    a bound is a day of a month, as "---22"
m.json:19:1: /tableSchema/columns/8/datatype/minInclusive: BadDatatype: the datatype cannot have this format or these facets
    a bound is a duration, as "P1Y2M" or "PT36H"
m.json:21:1: /tableSchema/columns/9/datatype/maxInclusive: BadDatatype: the datatype cannot have this format or these facets
    a bound is a duration of years and months, as "P1Y2M"
m.json:23:1: /tableSchema/columns/10/datatype/minExclusive: BadDatatype: the datatype cannot have this format or these facets
    a bound is a duration without years and months, as "PT36H"
m.json:25:1: /tableSchema/columns/11/datatype/minimum: BadDatatype: the datatype cannot have this format or these facets
    the values of this datatype have no order: leave the bound out
"#;

/// A document with bounds, a row of values without an order beside them, and a row of others that break them.
const UNORDERED: &[File<'static>] = &[
    File {
        path: "m.json",
        bytes: br#"{"@context":"http://www.w3.org/ns/csvw","url":"p.csv","tableSchema":{"columns":[
{"name":"n","datatype":{"base":"dateTime","minimum":"2020-01-31T08:30:00Z"}},
{"name":"d","datatype":{"base":"duration","maximum":"P1M"}},
{"name":"g","datatype":{"base":"gYear","minExclusive":"2015"}},
{"name":"x","datatype":{"base":"double","maximum":1}}]}}"#,
    },
    File {
        path: "p.csv",
        bytes: b"n,d,g,x\n2020-01-31T09:00:00,P30D,2015Z,NaN\n2020-01-31T08:00:00Z,P32D,2015,2\n",
    },
];

/// The page of a check of them.
const BROKEN: &[u8] =
    br#"p.csv:2 (row 1), column 1 "n": BelowMinimum: "2020-01-31T09:00:00": the value is below the least that is allowed: correct it
    2020-01-31T09:00:00,P30D,2015Z,NaN
    ^^^^^^^^^^^^^^^^^^^
    minimum 2020-01-31T08:30:00Z
    a moment without a zone has no order beside one with a zone that is at most 14 hours away
p.csv:2 (row 1), column 2 "d": AboveMaximum: "P30D": the value is above the greatest that is allowed: correct it
    2020-01-31T09:00:00,P30D,2015Z,NaN
                        ^^^^
    maximum P1M
    months and days have no order if they may be equally long: a month has 28 to 31 days
p.csv:2 (row 1), column 3 "g": BelowMinimum: "2015Z": the value is below the least that is allowed: correct it
    2020-01-31T09:00:00,P30D,2015Z,NaN
                             ^^^^^
    minExclusive 2015
    a text without a zone has no order beside the same one with a zone
p.csv:2 (row 1), column 4 "x": AboveMaximum: "NaN": the value is above the greatest that is allowed: correct it
    2020-01-31T09:00:00,P30D,2015Z,NaN
                                   ^^^
    maximum 1
    NaN has no order beside a number: it breaks each bound
p.csv:3 (row 2), column 1 "n": BelowMinimum: "2020-01-31T08:00:00Z": the value is below the least that is allowed: correct it
    2020-01-31T08:00:00Z,P32D,2015,2
    ^^^^^^^^^^^^^^^^^^^^
    minimum 2020-01-31T08:30:00Z
p.csv:3 (row 2), column 2 "d": AboveMaximum: "P32D": the value is above the greatest that is allowed: correct it
    2020-01-31T08:00:00Z,P32D,2015,2
                         ^^^^
    maximum P1M
p.csv:3 (row 2), column 3 "g": BelowMinimum: "2015": the value is below the least that is allowed: correct it
    2020-01-31T08:00:00Z,P32D,2015,2
                              ^^^^
    minExclusive 2015
p.csv:3 (row 2), column 4 "x": AboveMaximum: "2": the value is above the greatest that is allowed: correct it
    2020-01-31T08:00:00Z,P32D,2015,2
                                   ^
    maximum 1
table 1: p.csv: 3 records
  BelowMinimum: 2 in table 1, column 1
  AboveMaximum: 2 in table 1, column 2
  BelowMinimum: 2 in table 1, column 3
  AboveMaximum: 2 in table 1, column 4
not valid
"#;

/// The words that check a group of one table.
const CHECK: &str = "csvw check --profile w3c m.json p.csv";

static BOUNDS: [Case; 2] = [
    Case {
        what: "bounds that are refused",
        words: CHECK,
        files: REFUSED,
        end: End {
            status: 3,
            out: Just(WRITTEN),
            err: Just(b""),
        },
    },
    Case {
        what: "values without an order beside a bound",
        words: CHECK,
        files: UNORDERED,
        end: End {
            status: 1,
            out: Just(BROKEN),
            err: Just(b""),
        },
    },
];

#[test]
fn bounds_are_told_with_what_helps(rt: HostRuntime) {
    each_ends_so(&rt, rt.alloc(), &BOUNDS);
}
