//! Dates and times of day with zones: texts and their values, with and without formats, and patterns that are none. The cases follow XML
//! Schema 1.1 part 2, sections 3.3.8 and 3.3.9, and the Model for Tabular Data and Metadata on the Web, section 6.4.4.
use crate::datatypes::{Claim, PLAIN, Pattern, Row};
use csvw_datatype::{ClockFormat, ClockPattern, Simple, TextType, TimeFormat, ZonedDateFormat};
use std::alloc::{AllocError, Global};
use std::process::Abort;
use std::test::Fail;

const TIME: Simple = Simple::Other(TextType::Time);

const DATE: Simple = Simple::Other(TextType::Date);

/// Times of day with zones.
pub(crate) static ZONED_TIMES: [Row; 7] = [
    Row {
        simple: TIME,
        texts: SAME_DAY,
        ..PLAIN
    },
    Row {
        simple: TIME,
        texts: OTHER_DAY,
        ..PLAIN
    },
    Row {
        simple: TIME,
        texts: NO_TIMES,
        ..PLAIN
    },
    Row {
        simple: TIME,
        pattern: Pattern::Time("HH:mm:ssX"),
        texts: "\
15:02:37Z;15:02:37-08=>23:02:37Z;15:02:37+0530=>09:32:37Z;00:30:00+01=>00:30:00+01:00;\
15:02:37=>BadTime;15:02:37+05:30=>BadTime;15:02:37.5Z=>BadTime;15:02:37 Z=>BadTime;15:02Z=>BadTime;15:02:37+15=>BadTime",
        ..PLAIN
    },
    Row {
        simple: TIME,
        pattern: Pattern::Time("HH:mm:ss.SSS \u{58}XX"),
        texts: "\
15:02:37.140 +01:00=>14:02:37.14Z;15:02:37 Z=>15:02:37Z;15:02:37.1 -00:00=>15:02:37.1Z;\
15:02:37Z=>BadTime;15:02:37.1400 Z=>BadTime;15:02:37.1  Z=>BadTime;15:02:37.1=>BadTime",
        ..PLAIN
    },
    Row {
        simple: TIME,
        pattern: Pattern::Time("HHmmx"),
        texts: "1502+00=>15:02:00Z;1502-0030=>15:32:00Z;0000+01=>00:00:00+01:00;1502Z=>BadTime;1502=>BadTime;15:02+00=>BadTime",
        ..PLAIN
    },
    Row {
        simple: TIME,
        pattern: Pattern::Time("HH:mmxx"),
        texts: "08:30+0200=>06:30:00Z;08:30+02=>BadTime;08:30Z=>BadTime",
        ..PLAIN
    },
];

/// The day is the same in the zone `Z`.
const SAME_DAY: &str = "\
13:20:30Z;13:20:30.5Z;13:20:30.50Z=>13:20:30.5Z;00:00:00Z;23:59:59.9Z;\
13:20:30+00:00=>13:20:30Z;13:20:30-00:00=>13:20:30Z;13:20:30+02:00=>11:20:30Z;13:20:30-05:30=>18:50:30Z;\
13:20:30.50+02:00=>11:20:30.5Z;14:00:00+14:00=>00:00:00Z;09:59:59-14:00=>23:59:59Z";

/// The day in the zone `Z` is the one before, or the one after.
const OTHER_DAY: &str = "\
00:30:00+01:00;01:30:00+02:00=>00:30:00+01:00;00:10:00+05:30=>00:40:00+06:00;00:00:00+14:00;\
13:59:59+14:00=>00:59:59+01:00;00:00:00.5+00:01=>00:59:00.5+01:00;\
23:30:00-01:00;22:30:00-02:00=>23:30:00-01:00;23:59:59-14:00;10:00:00-14:00=>23:00:00-01:00;23:59:00-00:01=>23:00:00-01:00";

const NO_TIMES: &str = "\
13:20:30+14:01=>BadTime;13:20:30+15:00=>BadTime;13:20:30+1:00=>BadTime;13:20:30+0100=>BadTime;13:20:30+01=>BadTime;\
13:20:30+01:60=>BadTime;13:20:30z=>BadTime;13:20:30ZZ=>BadTime;13:20:30 Z=>BadTime;13:20Z=>BadTime;24:00:00Z=>BadTime;\
13:20:30.Z=>BadTime;Z=>BadTime;+01:00=>BadTime";

/// Dates with zones.
pub(crate) static ZONED_DATES: [Row; 10] = [
    Row {
        simple: DATE,
        texts: DATES,
        ..PLAIN
    },
    Row {
        simple: DATE,
        texts: OTHER_DATES,
        ..PLAIN
    },
    Row {
        simple: DATE,
        texts: NO_DATES,
        ..PLAIN
    },
    Row {
        simple: DATE,
        pattern: Pattern::ZonedDay("yyyy-MM-ddX"),
        texts: "\
2024-02-29Z;2024-02-29+02=>2024-02-29+02:00;2024-02-29-0530=>2024-02-29-05:30;2024-02-29+00=>2024-02-29Z;\
2024-02-29=>BadDate;2024-02-29+02:00=>BadDate;2024-02-29 Z=>BadDate;2023-02-29Z=>BadDate",
        ..PLAIN
    },
    Row {
        simple: DATE,
        pattern: Pattern::ZonedDay("dd/MM/yyyy"),
        texts: "29/02/2024=>2024-02-29;29/02/2024Z=>BadDate;2024-02-29=>BadDate;9/2/2024=>BadDate",
        ..PLAIN
    },
    Row {
        simple: DATE,
        pattern: Pattern::ZonedDay("d.M.yyyy \u{58}XX"),
        texts: "\
1.3.2024 +13:00=>2024-02-29-11:00;29.2.2024 Z=>2024-02-29Z;29.02.2024 Z=>2024-02-29Z;1.12.2024 -05:30=>2024-12-01-05:30;\
29.2.2024Z=>BadDate;29.2.2024=>BadDate;029.2.2024 Z=>BadDate;29.2.2024 +13=>BadDate;.2.2024 Z=>BadDate",
        ..PLAIN
    },
    Row {
        simple: DATE,
        pattern: Pattern::ZonedDay("yyyyMMddxx"),
        texts: "20240229+0000=>2024-02-29Z;20240229-0800=>2024-02-29-08:00;20240229Z=>BadDate;20240229=>BadDate;202402290000=>BadDate",
        ..PLAIN
    },
    Row {
        simple: DATE,
        pattern: Pattern::ZonedDay("M-d-yyyyX"),
        texts: "\
2-29-2024-08=>2024-02-29-08:00;2-29-2024-0830=>2024-02-29-08:30;12-1-2024Z=>2024-12-01Z;\
2-29-2024=>BadDate;2-29-2024-8=>BadDate;29-2-2024Z=>BadDate",
        ..PLAIN
    },
    Row {
        simple: DATE,
        pattern: Pattern::ZonedDay("dd/M/yyyyX"),
        claim: Claim::NoFormat,
        ..PLAIN
    },
    Row {
        simple: Simple::Day,
        pattern: Pattern::ZonedDay("yyyy-MM-ddX"),
        texts: "2024-02-29Z=>BadDatatype",
        ..PLAIN
    },
];

/// The day that is written is the same.
const DATES: &str = "\
2024-02-29;0001-01-01;9999-12-31;2024-02-29Z;2024-02-29+00:00=>2024-02-29Z;2024-02-29-00:00=>2024-02-29Z;\
2024-02-29+02:00;2024-02-29+12:00;2024-02-29-11:59;0001-01-01+12:00;9999-12-31-11:59";

/// The day that is written is the one before, or the one after.
const OTHER_DATES: &str = "\
2024-02-29+12:01=>2024-02-28-11:59;2024-03-01+13:00=>2024-02-29-11:00;2023-03-01+14:00=>2023-02-28-10:00;\
2024-01-01+13:00=>2023-12-31-11:00;2024-02-29-12:00=>2024-03-01+12:00;2023-12-31-14:00=>2024-01-01+10:00;\
0001-01-02+14:00=>0001-01-01-10:00;0001-01-01+12:01=>BadDate;9999-12-30-14:00=>9999-12-31+10:00;9999-12-31-12:00=>BadDate";

const NO_DATES: &str = "\
2023-02-29Z=>BadDate;2024-02-29z=>BadDate;2024-02-29 Z=>BadDate;2024-02-29+14:01=>BadDate;2024-02-29+0200=>BadDate;2024-02-29+02=>BadDate;\
2024-02-29ZZ=>BadDate;20240229=>BadDate;20240229Z=>BadDate;2024-2-29Z=>BadDate;0000-01-01Z=>BadDate;10000-01-01Z=>BadDate;\
2024-02-29T00:00:00=>BadDate;Z=>BadDate;=>BadDate";

/// Texts that are no pattern of dates.
static NO_PATTERNS: [&str; 9] = [
    "",
    "X",
    "yyyy-MM-ddxxxx",
    "yyyy-MM-ddxX",
    "yyyy-MM-dd  X",
    "yyyy-MM-ddX ",
    "yyyy-MM-ddZ",
    "dd/M/yyyyX",
    "yyyy-MM-dd.SX",
];

/// Patterns of dates that are written as they are read.
static DATE_PATTERNS: [&str; 5] = [
    "yyyy-MM-dd",
    "yyyy-MM-ddX",
    "d.M.yyyy \u{58}XX",
    "yyyyMMdd xx",
    "MM/dd/yyyyxxx",
];

/// Patterns of times of day that are written as they are read.
static TIME_PATTERNS: [&str; 7] = [
    "HH:mm",
    "HHmmss",
    "HH:mm:ss.SSS",
    "HH:mm:ssX",
    "HH:mm:ss.S XX",
    "HHmmx",
    "HH:mm \u{58}XX",
];

fn is_date_written(alloc: Global, pattern: &str) -> Result<bool, AllocError> {
    let Some(format) = ZonedDateFormat::of(pattern) else {
        return Ok(false);
    };
    let mut text = String::new(alloc);
    format.push_pattern(&mut text)?;
    Ok(text.as_str() == pattern)
}

fn is_time_written(alloc: Global, pattern: &str) -> Result<bool, AllocError> {
    let Some(format) = ClockFormat::of(pattern) else {
        return Ok(false);
    };
    let mut text = String::new(alloc);
    format.push_pattern(&mut text)?;
    Ok(text.as_str() == pattern)
}

fn are_written(rt: &impl Abort, alloc: Global) -> Result<(), AllocError> {
    for pattern in &DATE_PATTERNS {
        assert!(rt; is_date_written(alloc, pattern)?);
    }
    for pattern in &TIME_PATTERNS {
        assert!(rt; is_time_written(alloc, pattern)?);
    }
    Ok(())
}

#[test]
fn patterns_of_dates_and_times(rt: HostRuntime) -> Result<(), Fail> {
    for pattern in &NO_PATTERNS {
        assert!(rt; ZonedDateFormat::of(pattern).is_none());
    }
    let minutes = ClockPattern {
        time: TimeFormat::Minutes,
        digits: 0,
        zone: None,
    };
    assert!(rt; ClockFormat::of("HH:mm") == Some(ClockFormat::Pattern(minutes)));
    Ok(are_written(&rt, rt.alloc())?)
}
