//! Moments with a space between the date and the time of day: each format, texts that are none, and patterns that are none. The
//! cases follow the Model for Tabular Data and Metadata on the Web, section 6.4.4.
use crate::datatypes::{PLAIN, Pattern, Row};
use csvw_datatype::{Datatype, Facets, Format, MomentFormat, Simple};
use std::alloc::{AllocError, Global};
use std::process::Abort;
use std::test::Fail;

/// The days of each format below, in the format `yyyy-MM-dd`.
static DAYS: [&str; 3] = ["2020-01-31", "1999-12-05", "0001-01-01"];

/// A format of dates, and the three days in it.
type Dates = (&'static str, [&'static str; 3]);

static DATES: [Dates; 14] = [
    ("yyyy-MM-dd", ["2020-01-31", "1999-12-05", "0001-01-01"]),
    ("yyyyMMdd", ["20200131", "19991205", "00010101"]),
    ("dd-MM-yyyy", ["31-01-2020", "05-12-1999", "01-01-0001"]),
    ("dd/MM/yyyy", ["31/01/2020", "05/12/1999", "01/01/0001"]),
    ("dd.MM.yyyy", ["31.01.2020", "05.12.1999", "01.01.0001"]),
    ("d-M-yyyy", ["31-1-2020", "5-12-1999", "1-01-0001"]),
    ("d/M/yyyy", ["31/01/2020", "5/12/1999", "01/1/0001"]),
    ("d.M.yyyy", ["31.1.2020", "05.12.1999", "1.1.0001"]),
    ("MM-dd-yyyy", ["01-31-2020", "12-05-1999", "01-01-0001"]),
    ("MM/dd/yyyy", ["01/31/2020", "12/05/1999", "01/01/0001"]),
    ("MM.dd.yyyy", ["01.31.2020", "12.05.1999", "01.01.0001"]),
    ("M-d-yyyy", ["1-31-2020", "12-5-1999", "01-1-0001"]),
    ("M/d/yyyy", ["01/31/2020", "12/5/1999", "1/01/0001"]),
    ("M.d.yyyy", ["1.31.2020", "12.05.1999", "1.1.0001"]),
];

/// A format of times of day, a time in it, and the time in the format `HH:mm:ss`.
type Times = (&'static str, &'static str, &'static str);

static TIMES: [Times; 5] = [
    ("HH:mm:ss", "08:30:07", "08:30:07"),
    ("HHmmss", "235959", "23:59:59"),
    ("HH:mm", "00:00", "00:00:00"),
    ("HHmm", "1905", "19:05:00"),
    ("HH:mm", "23:59", "23:59:00"),
];

/// Texts that are no moments in a format.
pub(crate) static UNREAD: [Row; 5] = [
    Row {
        simple: Simple::Moment,
        pattern: Pattern::Moment("dd/MM/yyyy HH:mm"),
        texts: "\
31/01/2020 08:30=>2020-01-31T08:30:00;29/02/2020 08:30=>2020-02-29T08:30:00;\
=>BadDateTime; =>BadDateTime;31/01/2020=>BadDateTime;31/01/2020 =>BadDateTime; 08:30=>BadDateTime;08:30=>BadDateTime;\
31/01/202008:30=>BadDateTime;31/01/2020T08:30=>BadDateTime;31/01/2020\t08:30=>BadDateTime;\
31/01/2020  08:30=>BadDateTime; 31/01/2020 08:30=>BadDateTime;31/01/2020 08:30 =>BadDateTime;\
31/01/2020 08:30:00=>BadDateTime;31/01/2020 0830=>BadDateTime;31/01/2020 8:30=>BadDateTime;31/01/2020 08:3=>BadDateTime;\
31/01/2020 24:00=>BadDateTime;31/01/2020 08:60=>BadDateTime;31/01/2020 -8:30=>BadDateTime;\
31/01/2020 08:30Z=>BadDateTime;31/01/2020 08:30+01:00=>BadDateTime;31/01/2020 08:30 Z=>BadDateTime;\
29/02/2019 08:30=>BadDateTime;31/04/2020 08:30=>BadDateTime;00/01/2020 08:30=>BadDateTime;31/13/2020 08:30=>BadDateTime;\
01/31/2020 08:30=>BadDateTime;1/01/2020 08:30=>BadDateTime;31-01-2020 08:30=>BadDateTime;31/01/20 08:30=>BadDateTime;\
01/01/0000 00:00=>BadDateTime;31/01/12020 08:30=>BadDateTime;2020-01-31 08:30=>BadDateTime;2020-01-31T08:30:00=>BadDateTime;\
08:30 31/01/2020=>BadDateTime;31/01/2020 08:30 08:30=>BadDateTime;31/01/2020 ０8:30=>BadDateTime",
        ..PLAIN
    },
    Row {
        simple: Simple::Moment,
        pattern: Pattern::Moment("yyyy-MM-dd HH:mm:ss"),
        texts: "\
9999-12-31 23:59:59=>9999-12-31T23:59:59;1969-12-31 23:59:59=>1969-12-31T23:59:59;\
2020-01-31T08:30:00=>BadDateTime;2020-01-31 08:30=>BadDateTime;2020-01-31 08:30:60=>BadDateTime;\
2020-01-31 08:30:00.5=>BadDateTime;10000-01-01 00:00:00=>BadDateTime",
        ..PLAIN
    },
    Row {
        simple: Simple::Moment,
        pattern: Pattern::Moment("yyyyMMdd HHmmss"),
        texts: "20200131 083007=>2020-01-31T08:30:07;20200131083007=>BadDateTime;2020131 083007=>BadDateTime;20200131 08307=>BadDateTime",
        ..PLAIN
    },
    // formats with a `T` read no space, and no format reads none either
    Row {
        simple: Simple::Moment,
        pattern: Pattern::Moment("yyyy-MM-ddTHH:mm:ss"),
        texts: "2020-01-31 08:30:00=>BadDateTime;2020-01-31T08:30:00=>2020-01-31T08:30:00",
        ..PLAIN
    },
    Row {
        simple: Simple::Moment,
        texts: "2020-01-31 08:30:00=>BadDateTime;2020-01-31 08:30=>BadDateTime",
        ..PLAIN
    },
];

/// Texts that are no pattern of moments.
static NO_PATTERNS: [&str; 17] = [
    "",
    " ",
    "yyyy-MM-dd",
    "yyyy-MM-dd ",
    " HH:mm",
    "HH:mm",
    "yyyy-MM-dd  HH:mm",
    " yyyy-MM-dd HH:mm",
    "yyyy-MM-dd HH:mm ",
    "yyyy-MM-dd\tHH:mm",
    "HH:mm yyyy-MM-dd",
    "dd/MM/yyyyTHH:mm",
    "yyyy-MM-ddTHHmm",
    "yyyy-MM-dd HH:mm:ss.SSS",
    "yyyy-MM-dd HH:mmX",
    "dd/MM/yy HH:mm",
    "yyyy-MM-dd h:mm",
];

/// Returns whether a text has this lexical form under a format, and the format has this pattern.
fn is_read(
    alloc: Global,
    format: MomentFormat,
    text: &str,
    pattern: &str,
    want: &str,
) -> Result<bool, AllocError> {
    let mut written = String::new(alloc);
    format.push_pattern(&mut written)?;
    let datatype = Datatype {
        simple: Simple::Moment,
        id: None,
        format: Some(Format::Moment(format)),
        facets: Facets::new(),
    };
    match datatype.read(alloc, text)? {
        Ok(value) => Ok(written.as_str() == pattern && value.lexical(alloc)?.as_str() == want),
        Err(_) => Ok(false),
    }
}

/// Checks the three days in a format with a time.
fn days_are_read(
    rt: &impl Abort,
    alloc: Global,
    dates: &Dates,
    times: &Times,
) -> Result<(), AllocError> {
    let pattern = format!(in alloc; "{} {}", dates.0, times.0)?;
    for (text, day) in dates.1.iter().zip(&DAYS) {
        let text = format!(in alloc; "{text} {}", times.1)?;
        let want = format!(in alloc; "{day}T{}", times.2)?;
        let format = MomentFormat::of(pattern.as_str());
        let is_read = match format {
            Some(format) => is_read(
                alloc,
                format,
                text.as_str(),
                pattern.as_str(),
                want.as_str(),
            )?,
            None => false,
        };
        assert!(rt; is_read, "{text}");
    }
    Ok(())
}

/// Checks each format of dates with a time.
fn dates_are_read(rt: &impl Abort, alloc: Global, times: &Times) -> Result<(), AllocError> {
    for dates in &DATES {
        days_are_read(rt, alloc, dates, times)?;
    }
    Ok(())
}

#[test]
fn each_format_reads_its_moments(rt: HostRuntime) -> Result<(), Fail> {
    for times in &TIMES {
        dates_are_read(&rt, rt.alloc(), times)?;
    }
    Ok(())
}

#[test]
fn other_texts_are_no_patterns(rt: HostRuntime) -> Result<(), Fail> {
    for pattern in &NO_PATTERNS {
        assert!(rt; MomentFormat::of(pattern).is_none(), "{pattern}");
    }
    Ok(())
}
