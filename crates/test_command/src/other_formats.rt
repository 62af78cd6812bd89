//! What `csvw check` says below a text that is no value of its datatype, but is one in another format.

use crate::runs::{File, status_of};
use csvw_text::Counted;
use std::alloc::Global;
use std::process::Abort;

/// A text that is no value of its datatype. A table has one for each block: a line `DATATYPE | FIELD`, and then lines of the page.
#[derive(Clone, Copy)]
struct Case<'a> {
    /// The datatype as it is in the document.
    datatype: &'a str,
    /// The field.
    field: &'a str,
    /// The lines below the field on the page.
    below: &'a str,
}

/// Returns the case that a block of a table writes, if it writes one.
fn case_of(block: &str) -> Option<Case<'_>> {
    let (head, below) = block.trim().split_once('\n')?;
    let (datatype, field) = head.split_once(" | ")?;
    Some(Case {
        datatype,
        field,
        below,
    })
}

const DATES: &str = r#"
"date" | 31/01/2020
    datatype date
    the text is a date with `"format": "dd/MM/yyyy"`

"date" | 01/02/2020
    datatype date
    the text is a date with `"format": "dd/MM/yyyy"`, or with `"format": "MM/dd/yyyy"`

"date" | 1/31/2020
    datatype date
    the text is a date with `"format": "M/d/yyyy"`

"date" | 20200131
    datatype date
    the text is a date with `"format": "yyyyMMdd"`

{"base":"date","format":"dd.MM.yyyy"} | 2020-01-31
    datatype date, format dd.MM.yyyy
    the text is a date with `"format": "yyyy-MM-dd"`

"date" | 2020-01-31Z
    datatype date
    the text is a date with `--profile w3c`, if the datatype has no `format`

"date" | 20200131 +0100
    datatype date
    the text is a date with `--profile w3c` and `"format": "yyyyMMdd XX"`

"date" | 2020-01-31+15:00
    datatype date

"date" | 2020-01-31T08:30
    datatype date

"date" | 30/02/2020
    datatype date
"#;

const MOMENTS: &str = r#"
"dateTime" | 2020-01-31T08:30
    datatype dateTime
    the text is a dateTime with `"format": "yyyy-MM-ddTHH:mm"`

{"base":"dateTime","format":"yyyy-MM-ddTHH:mm"} | 2020-01-31T08:30:00
    datatype dateTime, format yyyy-MM-ddTHH:mm
    the text is a dateTime with `"format": "yyyy-MM-ddTHH:mm:ss"`

"dateTime" | 2020-01-31  08:30:15
    datatype dateTime
    the text is a dateTime with `--profile w3c` and `"format": "yyyy-MM-dd HH:mm:ss"`

"dateTime" | 1.2.2020 0830
    datatype dateTime
    the text is a dateTime with `--profile w3c` and `"format": "d.M.yyyy HHmm"`, or with `"format": "M.d.yyyy HHmm"`

"dateTime" | 2020-01-31T08:30:00Z
    datatype dateTime
    the text is a dateTime with `--profile w3c`, if the datatype has no `format`

"dateTime" | 31.01.2020
    datatype dateTime
"#;

const STAMPS: &str = r#"
"dateTime" | 2020-01-31 08:30:00.123
    datatype dateTime
    the text is a dateTime with `--profile w3c` and `"format": "yyyy-MM-dd HH:mm:ss.SSS"`

"dateTime" | 2020-01-31 08:30:00+00
    datatype dateTime
    the text is a dateTime with `--profile w3c` and `"format": "yyyy-MM-dd HH:mm:ssX"`

"dateTime" | 31/01/2020 08:30 +0100
    datatype dateTime
    the text is a dateTime with `--profile w3c` and `"format": "dd/MM/yyyy HH:mm XX"`

"dateTime" | 1.2.2020 08:30:00.5 -0530
    datatype dateTime
    the text is a dateTime with `--profile w3c` and `"format": "d.M.yyyy HH:mm:ss.S XX"`, or with `"format": "M.d.yyyy HH:mm:ss.S XX"`

"dateTime" | 20200131 0830Z
    datatype dateTime
    the text is a dateTime with `--profile w3c` and `"format": "yyyyMMdd HHmmX"`

"dateTime" | 2020-01-31T08:30:00+0000
    datatype dateTime
    the text is a dateTime with `--profile w3c` and `"format": "yyyy-MM-ddTHH:mm:ssXX"`

"dateTime" | 2020-01-31T08:30:00.25+00
    datatype dateTime
    the text is a dateTime with `--profile w3c` and `"format": "yyyy-MM-ddTHH:mm:ss.SSX"`

"dateTime" | 2020-01-31T08:30Z
    datatype dateTime
    the text is a dateTime with `--profile w3c` and `"format": "yyyy-MM-ddTHH:mmX"`

"dateTime" | 2020-01-31T08:30:00.123
    datatype dateTime
    the text is a dateTime with `--profile w3c`, if the datatype has no `format`

"dateTime" | 2020-01-31 08:30.5
    datatype dateTime

"dateTime" | 2020-01-31 08:30:00.
    datatype dateTime

"dateTime" | 2020-01-31 08:30:00+15
    datatype dateTime
"#;

/// Moments that have a zone, which the profile w3c alone has.
const ZONED: &str = r#"
"dateTimeStamp" | 31/01/2020 08:30 +0100
    datatype dateTimeStamp: with a zone, as in 2020-01-31T08:30:00Z
    the text is a dateTimeStamp with `"format": "dd/MM/yyyy HH:mm XX"`

"dateTimeStamp" | 1.2.2020 08:30:00.5Z
    datatype dateTimeStamp: with a zone, as in 2020-01-31T08:30:00Z
    the text is a dateTimeStamp with `"format": "d.M.yyyy HH:mm:ss.SX"`, or with `"format": "M.d.yyyy HH:mm:ss.SX"`

{"base":"dateTimeStamp","format":"yyyy-MM-dd HH:mmX"} | 2020-01-31T08:30:00Z
    datatype dateTimeStamp, format yyyy-MM-dd HH:mmX
    the text is a dateTimeStamp, if the datatype has no `format`

"dateTimeStamp" | 2020-01-31T08:30:00
    datatype dateTimeStamp: with a zone, as in 2020-01-31T08:30:00Z
    the text has no zone: a moment without a zone is a dateTime

"dateTimeStamp" | 31.01.2020 08:30
    datatype dateTimeStamp: with a zone, as in 2020-01-31T08:30:00Z
    the text has no zone: a moment without a zone is a dateTime

"dateTimeStamp" | 31.02.2020 08:30Z
    datatype dateTimeStamp: with a zone, as in 2020-01-31T08:30:00Z
"#;

/// Times of day, which the profile w3c alone has.
const TIMES: &str = r#"
"time" | 08:30
    datatype time
    the text is a time with `"format": "HH:mm"`

"time" | 0830
    datatype time
    the text is a time with `"format": "HHmm"`

"time" | 083000
    datatype time
    the text is a time with `"format": "HHmmss"`

{"base":"time","format":"HH:mm"} | 08:30:00
    datatype time, format HH:mm
    the text is a time with `"format": "HH:mm:ss"`

{"base":"time","format":"HH:mm:ss.S"} | 08:30:00.123
    datatype time, format HH:mm:ss.S
    the text is a time with `"format": "HH:mm:ss.SSS"`

{"base":"time","format":"HH:mm:ss"} | 08:30:00Z
    datatype time, format HH:mm:ss
    the text is a time with `"format": "HH:mm:ssX"`

"time" | 08:30:00.5 +0100
    datatype time
    the text is a time with `"format": "HH:mm:ss.S XX"`

"time" | 08:30:00 +15:00
    datatype time

"date" | 31/01/2020Z
    datatype date
    the text is a date with `"format": "dd/MM/yyyyX"`

{"base":"date","format":"dd/MM/yyyy"} | 2020-01-31+01:00
    datatype date, format dd/MM/yyyy
    the text is a date, if the datatype has no `format`

{"base":"date","format":"yyyy-MM-ddX"} | 31.01.2020
    datatype date, format yyyy-MM-ddX
    the text is a date with `"format": "dd.MM.yyyy"`

"time" | 08:30:00.
    datatype time

"time" | 24:00
    datatype time

"time" | 8:30
    datatype time
"#;

/// Numbers in another format. The spaces of `1 234 567` are U+00A0.
const NUMBERS: &str = r#"
"integer" | 63 110
    datatype integer
    the text is a number with `"format": {"groupChar": " "}`

"integer" | 1 234 567
    datatype integer
    the text is a number with `"format": {"groupChar": "\u00A0"}`

"integer" | "1,234"
    datatype integer
    the text is a number with `"format": {"groupChar": ","}`

"short" | 1'000
    datatype short
    the text is a number with `"format": {"groupChar": "'"}`

"integer" | 1.5
    datatype integer
    the text is a value of the datatype decimal

"integer" | 1e3
    datatype integer
    the text is a value of the datatype double, with `--profile w3c`

"integer" | 1 23
    datatype integer

"integer" | x
    datatype integer

"decimal" | "1,5"
    datatype decimal
    the text is a number with `"format": {"decimalChar": ","}`

"decimal" | "1,234"
    datatype decimal
    the text is a number with `"format": {"decimalChar": ","}`, or with `"format": {"groupChar": ","}`

"decimal" | "1.234,5"
    datatype decimal
    the text is a number with `"format": {"decimalChar": ",", "groupChar": "."}`

"decimal" | "-1 234,50"
    datatype decimal
    the text is a number with `"format": {"decimalChar": ",", "groupChar": " "}`

"decimal" | 1 234.5
    datatype decimal
    the text is a number with `"format": {"groupChar": " "}`

{"base":"decimal","format":{"decimalChar":","}} | 1.5
    datatype decimal, decimal character `,`
    the text is a number without the `format`

"decimal" | NaN
    datatype decimal
    the text is a value of the datatype double, with `--profile w3c`

"decimal" | 5 %
    datatype decimal

"decimal" | 1.5.2020
    datatype decimal
"#;

const TRUTHS: &str = r#"
"boolean" | Yes
    datatype boolean
    the text is a boolean with `"format": "Yes|No"`

{"base":"boolean","format":"Y|N"} | n
    datatype boolean, format Y|N
    the text is a boolean with `"format": "y|n"`

"boolean" | maybe
    datatype boolean
"#;

/// The words that check a table.
const CHECK: &str = "csvw check m.json p.csv";

/// The words that check a table with the profile w3c.
const CHECK_W3C: &str = "csvw check --profile w3c m.json p.csv";

/// Returns the page of a check of a field in a column of a datatype, or `None` if memory runs out, or the page is no text.
fn page_of(alloc: Global, words: &str, datatype: &str, field: &str) -> Option<String> {
    let meta = format!(in alloc;
        "{{\"@context\":\"http://www.w3.org/ns/csvw\",\"url\":\"p.csv\",\"tableSchema\":{{\"columns\":[{{\"name\":\"a\",\"datatype\":{datatype}}}]}}}}"
    ).ok()?;
    let table = format!(in alloc; "a\n{field}\n").ok()?;
    let files = [
        File {
            path: "m.json",
            bytes: meta.as_bytes(),
        },
        File {
            path: "p.csv",
            bytes: table.as_bytes(),
        },
    ];
    let mut out = Counted::new(Vec::new(alloc));
    let mut err = Counted::new(Vec::new(alloc));
    status_of(alloc, words, &files, &mut out, &mut err)?;
    let page = out.into_inner();
    String::from_str(alloc, str::from_utf8(page.as_slice()).ok()?).ok()
}

/// Returns whether the page of a block has its lines below the field, and no others.
fn has_below(alloc: Global, words: &str, block: &str) -> bool {
    let Some(case) = case_of(block) else {
        return false;
    };
    let Some(page) = page_of(alloc, words, case.datatype, case.field) else {
        return false;
    };
    match format!(in alloc; "^\n{}\ntable 1: p.csv: 2 records\n", case.below) {
        Ok(below) => page.contains(below.as_str()),
        Err(_) => false,
    }
}

/// Checks the pages of all blocks of a table.
fn each_has_below(rt: &impl Abort, alloc: Global, words: &str, table: &str) {
    for block in table.split("\n\n") {
        assert!(rt; has_below(alloc, words, block), "{block}");
    }
}

#[test]
fn texts_have_their_other_formats(rt: HostRuntime) {
    let alloc = rt.alloc();
    each_has_below(&rt, alloc, CHECK, DATES);
    each_has_below(&rt, alloc, CHECK, MOMENTS);
    each_has_below(&rt, alloc, CHECK, NUMBERS);
    each_has_below(&rt, alloc, CHECK, TRUTHS);
}

#[test]
fn moments_have_the_formats_of_the_profile_w3c(rt: HostRuntime) {
    each_has_below(&rt, rt.alloc(), CHECK, STAMPS);
}

#[test]
fn times_and_stamps_have_their_other_formats(rt: HostRuntime) {
    let alloc = rt.alloc();
    each_has_below(&rt, alloc, CHECK_W3C, TIMES);
    each_has_below(&rt, alloc, CHECK_W3C, ZONED);
}
