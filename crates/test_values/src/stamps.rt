//! Moments and times of day in formats with parts of a second and zones: texts and their values, and patterns that are none. The
//! cases follow the Model for Tabular Data and Metadata on the Web, section 6.4.4.
use crate::datatypes::{PLAIN, Pattern, Row};
use csvw_datatype::{ClockFormat, Simple, StampFormat, TextType, Zone};
use std::alloc::{AllocError, Global};
use std::process::Abort;
use std::test::Fail;

/// A moment that may have a zone.
const MOMENT: Simple = Simple::Other(TextType::DateTime(Zone::Optional));

/// A moment that has to have a zone.
const STAMP: Simple = Simple::Other(TextType::DateTime(Zone::Required));

const TIME: Simple = Simple::Other(TextType::Time);

/// Parts of a second.
pub(crate) static FRACTIONS: [Row; 6] = [
    Row {
        simple: MOMENT,
        pattern: Pattern::Stamp("yyyy-MM-ddTHH:mm:ss.SSS"),
        texts: "\
2015-03-15T15:02:37.143;2015-03-15T15:02:37.14;2015-03-15T15:02:37.140=>2015-03-15T15:02:37.14;2015-03-15T15:02:37;\
2015-03-15T15:02:37.000=>2015-03-15T15:02:37;2015-03-15T15:02:37.001;\
2015-03-15T15:02:37.=>BadDateTime;2015-03-15T15:02:37.1430=>BadDateTime;2015-03-15T15:02:37,143=>BadDateTime;\
2015-03-15T15:02:37.143Z=>BadDateTime;2015-03-15T15:02=>BadDateTime;2015-03-15 15:02:37.143=>BadDateTime;\
2015-02-29T15:02:37.143=>BadDateTime;2015-03-15T24:00:00.0=>BadDateTime;2015-03-15T15:02:60.0=>BadDateTime;\
15:02:37.143=>BadDateTime;=>BadDateTime;2015-03-15T15:02:37.14 3=>BadDateTime;2015-03-15T15:02:37.-1=>BadDateTime",
        ..PLAIN
    },
    Row {
        simple: MOMENT,
        pattern: Pattern::Stamp("yyyy-MM-ddTHH:mm:ss.S"),
        texts: "2015-03-15T15:02:37.1;2015-03-15T15:02:37.0=>2015-03-15T15:02:37;2015-03-15T15:02:37.14=>BadDateTime",
        ..PLAIN
    },
    Row {
        simple: MOMENT,
        pattern: Pattern::Stamp("d.M.yyyy HH:mm:ss.SS"),
        texts: "\
15.3.2015 15:02:37.14=>2015-03-15T15:02:37.14;5.12.2015 00:00:00.50=>2015-12-05T00:00:00.5;15.03.2015 15:02:37=>2015-03-15T15:02:37;\
15.3.2015 15:02:37.143=>BadDateTime;15.3.2015T15:02:37.14=>BadDateTime;15.3.2015 15:02.14=>BadDateTime;32.3.2015 15:02:37.1=>BadDateTime",
        ..PLAIN
    },
    // a pattern without parts of a second and a zone
    Row {
        simple: MOMENT,
        pattern: Pattern::Stamp("dd/MM/yyyy HH:mm"),
        texts: "\
31/01/2020 08:30=>2020-01-31T08:30:00;31/01/2020 08:30.5=>BadDateTime;31/01/2020 08:30Z=>BadDateTime;2020-01-31T08:30:00=>BadDateTime;\
31/01/2020  08:30=>BadDateTime;31/01/2020 08:30 =>BadDateTime;31/01/2020 8:30=>BadDateTime",
        ..PLAIN
    },
    Row {
        simple: TIME,
        pattern: Pattern::Time("HH:mm:ss.SSS"),
        texts: "\
15:02:37.143;15:02:37.1;15:02:37.140=>15:02:37.14;15:02:37;15:02:37.000=>15:02:37;00:00:00.001;\
15:02:37.=>BadTime;15:02:37.1430=>BadTime;15:02.143=>BadTime;150237.143=>BadTime;24:00:00.0=>BadTime;15:02:37.143Z=>BadTime;=>BadTime",
        ..PLAIN
    },
    Row {
        simple: TIME,
        pattern: Pattern::Time("HH:mm:ss"),
        texts: "15:02:37;15:02:37.1=>BadTime",
        ..PLAIN
    },
];

/// Zones with the letters `X`.
pub(crate) static WITH_ZONES: [Row; 7] = [
    Row {
        simple: MOMENT,
        pattern: Pattern::Stamp("yyyy-MM-ddTHH:mm:ssX"),
        texts: "\
2015-03-15T15:02:37Z;2015-03-15T15:02:37-08=>2015-03-15T23:02:37Z;2015-03-15T15:02:37+0530=>2015-03-15T09:32:37Z;\
2015-03-15T15:02:37+00=>2015-03-15T15:02:37Z;2015-03-15T15:02:37-0000=>2015-03-15T15:02:37Z;\
2015-03-15T00:00:00+14=>2015-03-14T10:00:00Z;2015-12-31T23:00:00-1400=>2016-01-01T13:00:00Z;\
2015-03-15T15:02:37=>BadDateTime;2015-03-15T15:02:37+05:30=>BadDateTime;2015-03-15T15:02:37+5=>BadDateTime;2015-03-15T15:02:37+053=>BadDateTime;\
2015-03-15T15:02:37+1401=>BadDateTime;2015-03-15T15:02:37+15=>BadDateTime;2015-03-15T15:02:37+0560=>BadDateTime;\
2015-03-15T15:02:37 Z=>BadDateTime;2015-03-15T15:02:37z=>BadDateTime;2015-03-15T15:02:37ZZ=>BadDateTime;2015-03-15T15:02:37.5Z=>BadDateTime;\
0001-01-01T00:00:00+01=>BadDateTime;9999-12-31T23:59:59-01=>BadDateTime;0001-01-01T01:00:00+01=>0001-01-01T00:00:00Z",
        ..PLAIN
    },
    Row {
        simple: MOMENT,
        pattern: Pattern::Stamp("yyyy-MM-ddTHH:mmXX"),
        texts: "\
2015-03-15T15:02Z=>2015-03-15T15:02:00Z;2015-03-15T15:02-0800=>2015-03-15T23:02:00Z;2015-03-15T15:02+0530=>2015-03-15T09:32:00Z;\
2015-03-15T15:02-08=>BadDateTime;2015-03-15T15:02-08:00=>BadDateTime;2015-03-15T15:02=>BadDateTime;2015-03-15T15:02:37Z=>BadDateTime",
        ..PLAIN
    },
    Row {
        simple: STAMP,
        pattern: Pattern::Stamp("dd/MM/yyyy HH:mm:ss.SSS XX"),
        texts: "\
15/03/2015 15:02:37.143 Z=>2015-03-15T15:02:37.143Z;15/03/2015 15:02:37 +0530=>2015-03-15T09:32:37Z;\
15/03/2015 15:02:37.143Z=>BadDateTime;15/03/2015 15:02:37.143  Z=>BadDateTime;15/03/2015 15:02:37.143=>BadDateTime;\
15/03/2015 15:02:37.143 =>BadDateTime;15/03/2015 15:02:37.1430 Z=>BadDateTime",
        ..PLAIN
    },
    Row {
        simple: MOMENT,
        pattern: Pattern::Stamp("yyyyMMdd HHmmx"),
        texts: "\
20150315 1502-08=>2015-03-15T23:02:00Z;20150315 1502+0530=>2015-03-15T09:32:00Z;20150315 1502+00=>2015-03-15T15:02:00Z;\
20150315 1502Z=>BadDateTime;20150315 1502=>BadDateTime;20150315 150208=>BadDateTime",
        ..PLAIN
    },
    Row {
        simple: MOMENT,
        pattern: Pattern::Stamp("yyyy-MM-dd HH:mm:ss xxx"),
        texts: "\
2015-03-15 15:02:37 -08:00=>2015-03-15T23:02:37Z;2015-03-15 15:02:37 +05:30=>2015-03-15T09:32:37Z;\
2015-03-15 15:02:37 Z=>BadDateTime;2015-03-15 15:02:37 -0800=>BadDateTime;2015-03-15 15:02:37-08:00=>BadDateTime;2015-03-15 15:02:37 -08=>BadDateTime",
        ..PLAIN
    },
    Row {
        simple: STAMP,
        pattern: Pattern::Stamp("yyyy-MM-ddTHH:mm:ss.SX\u{58}X"),
        texts: "\
2015-03-15T15:02:37.1Z;2015-03-15T15:02:37-08:00=>2015-03-15T23:02:37Z;2015-03-15T15:02:37.5+05:30=>2015-03-15T09:32:37.5Z;\
2015-03-15T15:02:37+14:00=>2015-03-15T01:02:37Z;2015-03-15T15:02:37+14:01=>BadDateTime;2015-03-15T15:02:37-0800=>BadDateTime;\
2015-03-15T15:02:37-08=>BadDateTime;2015-03-15T15:02:37=>BadDateTime;2015-03-15T15:02:37.25Z=>BadDateTime",
        ..PLAIN
    },
    // a format without a zone has no dateTimeStamp
    Row {
        simple: STAMP,
        pattern: Pattern::Stamp("yyyy-MM-ddTHH:mm:ss"),
        texts: "2015-03-15T15:02:37=>BadDateTime;2015-03-15T15:02:37Z=>BadDateTime",
        ..PLAIN
    },
];

/// A type without zones doesn't have such a format.
pub(crate) static NO_STAMPS: [Row; 1] = [Row {
    simple: Simple::Moment,
    pattern: Pattern::Stamp("yyyy-MM-ddTHH:mm:ssX"),
    texts: "2015-03-15T15:02:37Z=>BadDatatype",
    ..PLAIN
}];

/// Texts that are no pattern of moments.
static NO_MOMENTS: [&str; 17] = [
    "",
    "yyyy-MM-ddTHH:mm:ss.",
    "yyyy-MM-ddTHH:mm.S",
    "yyyy-MM-ddTHH:mm:ss.s",
    "yyyy-MM-ddTHH:mm:ssS",
    "yyyy-MM-ddTHH:mm:ss,SSS",
    "yyyy-MM-ddTHH:mm:ssxxxx",
    "yyyy-MM-ddTHH:mm:ssxX",
    "yyyy-MM-ddTHH:mm:ss  X",
    "yyyy-MM-ddTHH:mm:ssX ",
    "yyyy-MM-ddTHH:mm:ssX.S",
    "yyyy-MM-ddTHH:mm:ssZ",
    "yyyy-MM-dd HHmmss.S",
    "yyyy-MM-ddX",
    "X",
    ".S",
    "HH:mm:ssX",
];

/// Texts that are no pattern of times of day.
static NO_TIMES: [&str; 13] = [
    "",
    "HH:mm:ss.",
    "HH:mm.S",
    "HHmmss.S",
    "HH:mm:ss..S",
    "HH:mm:ssS",
    "HH:mm:ssxxxx",
    "HH:mm:ssxX",
    "HH:mm:ss  X",
    "HH:mm:ssX.S",
    "HH:mmX ",
    "X",
    "yyyy-MM-ddTHH:mm:ss",
];

/// Patterns that are written as they are read.
static WRITTEN: [&str; 9] = [
    "yyyy-MM-ddTHH:mm:ss",
    "yyyy-MM-ddTHH:mm:ss.S",
    "yyyy-MM-ddTHH:mm:ss.SSSSSSSSS X\u{58}X",
    "dd/MM/yyyy HH:mm",
    "d.M.yyyy HHmmx",
    "M-d-yyyy HH:mm:ss.SS",
    "yyyyMMdd HHmmss xx",
    "yyyy-MM-ddTHH:mmXX",
    "MM/dd/yyyy HH:mm:ss.SSSxxx",
];

/// Returns whether a pattern is written as it was read.
fn is_written(alloc: Global, pattern: &str) -> Result<bool, AllocError> {
    let Some(format) = StampFormat::of(pattern) else {
        return Ok(false);
    };
    let mut text = String::new(alloc);
    format.push_pattern(&mut text)?;
    Ok(text.as_str() == pattern)
}

fn are_written(rt: &impl Abort, alloc: Global) -> Result<(), AllocError> {
    for pattern in &WRITTEN {
        assert!(rt; is_written(alloc, pattern)?);
    }
    Ok(())
}

#[test]
fn patterns_of_moments(rt: HostRuntime) -> Result<(), Fail> {
    for pattern in &NO_MOMENTS {
        assert!(rt; StampFormat::of(pattern).is_none());
    }
    for pattern in &NO_TIMES {
        assert!(rt; ClockFormat::of(pattern).is_none());
    }
    Ok(are_written(&rt, rt.alloc())?)
}
