//! The order of times of day, dates, moments and parts of dates (XML Schema 1.1 part 2, sections 3.3.7 to 3.3.14), by the bounds that one text
//! of a pair breaks if the other one is its bound. The first pairs of moments are the standard's (version 1.0, section 3.2.7.3).
use csvw_datatype::{Datatype, DatePart, DurationKind, Facets, Simple, TextType, Value, Zone};
use std::alloc::{AllocError, Global};
use std::process::Abort;
use std::test::Fail;

/// Types, and pairs of texts of each with `;` between them. `<`: the first is below the second; `=`: they are one value; `?`: they have no
/// order.
static TABLES: [(Simple, &str); 12] = [
    (Simple::Other(TextType::Time), TIMES),
    (Simple::Other(TextType::Date), DATES),
    (Simple::Other(TextType::DateTime(Zone::Optional)), MOMENTS),
    (Simple::Other(TextType::DateTime(Zone::Required)), STAMPS),
    (Simple::Other(TextType::Part(DatePart::Year)), YEARS),
    (
        Simple::Other(TextType::Part(DatePart::YearMonth)),
        YEAR_MONTHS,
    ),
    (Simple::Other(TextType::Part(DatePart::Month)), MONTHS),
    (
        Simple::Other(TextType::Part(DatePart::MonthDay)),
        MONTH_DAYS,
    ),
    (Simple::Other(TextType::Part(DatePart::Day)), DAYS),
    (
        Simple::Other(TextType::Duration(DurationKind::Any)),
        "P27D<P1M;P28D?P1M;P30D?P1M;P31D?P1M;P1M<P32D;P12M=P1Y;-P1M<-P27D",
    ),
    (
        Simple::Other(TextType::Duration(DurationKind::YearMonth)),
        "P11M<P1Y;P12M=P1Y;P1Y<P13M;-P1Y<P0M;-P13M<-P1Y",
    ),
    (
        Simple::Other(TextType::Duration(DurationKind::DayTime)),
        "PT24H=P1D;PT36H<P2D;PT86399.9S<P1D;-P1D<PT0S;-P2D<-P1D",
    ),
];

const TIMES: &str = "\
00:00:00<00:00:01;00:00:59<00:01:00;08:30:00<08:30:01;09:59:59<10:00:00;12:00:00=12:00:00;00:00:00<23:59:59;\
12:00:00Z=13:00:00+01:00;00:30:00+01:00<00:00:00Z;00:30:00+01:00=01:30:00+02:00;23:59:59Z<23:30:00-01:00;23:59:59Z<10:00:00-14:00;\
00:00:00-01:00<23:00:00Z;08:00:00+10:00<17:00:00+10:00;08:00:00+10:00<17:00:00Z;12:00:00.5Z=13:00:00.50+01:00;\
12:00:00?12:00:00Z;00:00:00?14:00:00Z;00:00:00<14:00:00.1Z;00:00:00Z?14:00:00;00:00:00Z<14:00:01;23:59:59?23:59:59-13:59;\
12:00:00=12:00:00.0;12:00:00<12:00:00.1;12:00:00.09<12:00:00.1;12:00:00.1=12:00:00.100;12:00:00.999999999999999999999<12:00:01";

const DATES: &str = "\
2024-02-28<2024-02-29;2024-02-29=2024-02-29;2023-02-28<2023-03-01;0001-01-01<9999-12-31;1969-12-31Z<1970-01-01Z;\
2024-02-29Z=2024-02-29+00:00;2024-02-29+01:00<2024-02-29Z;2024-02-29Z<2024-02-29-01:00;2024-03-01+13:00=2024-02-29-11:00;\
2024-03-01+14:00<2024-02-29-11:00;2024-02-29-14:00=2024-03-01+10:00;2024-02-29-13:59<2024-02-29-14:00;\
2024-02-29?2024-02-29Z;2024-02-28<2024-02-29Z;2024-02-28?2024-02-29+10:00;2024-02-28<2024-02-29+09:59;2024-02-29Z<2024-03-01;\
2024-02-29-10:00?2024-03-01;2024-02-29-09:59<2024-03-01;2024-02-29?2024-02-29-14:00;2024-02-29?2024-02-29+14:00";

const MOMENTS: &str = "\
2000-01-15T00:00:00<2000-02-15T00:00:00;\
2000-01-15T12:00:00<2000-01-16T12:00:00Z;\
2000-01-01T12:00:00?1999-12-31T23:00:00Z;\
2000-01-16T12:00:00?2000-01-16T12:00:00Z;\
2000-01-16T00:00:00?2000-01-16T12:00:00Z;\
2020-01-31T08:30:00Z=2020-01-31T09:30:00+01:00;\
2020-01-31T08:30:00Z=2020-01-31T08:30:00-00:00;\
2020-01-31T08:30:00Z=2020-01-31T08:30:00.000Z;\
2020-01-31T08:30:00Z<2020-01-31T08:30:00.1Z;\
2020-01-31T08:30:00.09Z<2020-01-31T08:30:00.1Z;\
2020-01-31T08:30:00.1Z=2020-01-31T08:30:00.10Z;\
2020-01-31T08:30:00.999999999999999999999999Z<2020-01-31T08:30:01Z;\
2019-12-31T23:59:59Z<2020-01-01T00:00:00Z;\
2020-01-01T01:00:00+02:00=2019-12-31T23:00:00Z;\
2020-01-01T01:00:00+02:00<2019-12-31T23:00:01Z;\
2020-01-01T12:00:00+14:00<2020-01-01T00:00:00+01:00;\
2020-01-01T00:00:00+14:00<2020-01-01T00:00:00-14:00;\
2020-01-01T14:00:00+14:00=2019-12-31T10:00:00-14:00;\
2020-01-31T08:30:00=2020-01-31T08:30:00.0;\
2020-01-31T08:30:00<2020-01-31T08:30:01;\
2020-01-31T08:30:00<2020-01-31T08:30:00.000000000000000000001;\
2020-01-31T08:30:00.5<2020-01-31T08:30:01;\
2020-02-28T23:59:59<2020-02-29T00:00:00;\
2020-02-29T23:59:59.9<2020-03-01T00:00:00;\
2019-02-28T23:59:59<2019-03-01T00:00:00;\
0001-01-01T00:00:00<9999-12-31T23:59:59;\
2020-01-31T08:30:00?2020-01-31T08:30:00Z;\
2020-01-31T08:30:00?2020-01-31T22:30:00Z;\
2020-01-31T08:30:00<2020-01-31T22:30:00.1Z;\
2020-01-31T08:30:00<2020-01-31T22:30:01Z;\
2020-01-31T08:30:00.1?2020-01-31T22:30:00Z;\
2020-01-31T08:30:00.1?2020-01-31T22:30:00.1Z;\
2020-01-31T08:30:00.0999<2020-01-31T22:30:00.1Z;\
2020-01-31T08:30:00Z?2020-01-31T22:30:00;\
2020-01-31T08:30:00Z<2020-01-31T22:30:00.1;\
2020-01-31T08:30:00Z<2020-01-31T22:30:01;\
2020-01-31T08:30:00+14:00?2020-01-31T08:30:00;\
2020-01-31T08:30:00+14:00<2020-01-31T08:30:01;\
2020-01-31T08:30:00?2020-01-31T08:30:00-14:00;\
2020-01-31T08:30:00<2020-01-31T08:30:00.1-14:00;\
2020-12-31T23:30:00<2021-01-01T13:30:01Z;\
2020-12-31T23:30:00?2021-01-01T13:30:00Z";

const STAMPS: &str = "\
2020-01-01T00:00:00+02:00<2020-01-01T00:00:00Z;\
2020-01-01T00:00:00.5Z=2020-01-01T05:45:00.50+05:45;\
2020-02-29T12:00:00-14:00=2020-03-01T02:00:00Z;\
1970-01-01T00:00:00+00:01<1970-01-01T00:00:00Z;\
1969-12-31T23:59:59.9Z<1970-01-01T00:00:00Z";

const YEARS: &str = "\
2015=2015;2014<2015;0999<1000;0000<0001;-0001<0000;-0002<-0001;-0000=0000;-99999<-0001;9999<10000;99999<100000;12015<12016;\
99999999999999999999<100000000000000000000;-100000000000000000000<-99999999999999999999;\
2015Z=2015+00:00;2015Z=2015-00:00;2015+01:00<2015Z;2015Z<2015-01:00;2015+14:00<2015-14:00;2015+01:01<2015+01:00;\
2015-14:00<2016+14:00;2015?2015Z;2015?2015+14:00;2015?2015-14:00;2014<2015Z;2014Z<2015;2015<2016+14:00;2015-14:00<2016;\
-0044Z<-0043;-0044?-0044Z;-0044+01:00<-0044Z";

const YEAR_MONTHS: &str = "\
2015-03=2015-03;2015-02<2015-03;2014-12<2015-01;2015-09<2015-10;-0044-12<-0043-01;-0044-01<-0044-02;9999-12<10000-01;\
2015-03+01:00<2015-03Z;2015-03Z<2015-03-01:00;2015-03?2015-03Z;2015-02<2015-03Z;2015-02Z<2015-03;2015-03-14:00<2015-04+14:00;\
2015-03-14:00<2015-04;2015-03?2015-03-14:00";

const MONTHS: &str = "\
--01<--12;--09<--10;--03=--03;--03+05:30<--03Z;--03Z<--03-00:01;--03Z=--03+00:00;--03?--03Z;--03?--03-14:00;--02Z<--03;\
--02<--03+14:00;--02-14:00<--03+14:00";

const MONTH_DAYS: &str = "\
--01-31<--02-01;--02-28<--02-29;--02-29<--03-01;--03-22<--03-23;--09-30<--10-01;--12-31=--12-31;--01-01<--12-31;\
--03-22Z=--03-22+00:00;--03-22+01:00<--03-22Z;--03-22Z<--03-22-01:00;--03-01+13:00=--02-29-11:00;--02-29-13:00=--03-01+11:00;\
--01-01+13:00<--01-01-11:00;--12-31+11:00<--12-31-13:00;--03-23+14:00<--03-22-14:00;--03-21-09:59<--03-22+14:00;\
--03-21-10:00=--03-22+14:00;--04-30Z<--05-01Z;--11-30Z<--12-01Z;\
--03-22?--03-22Z;--03-22?--03-22-14:00;--03-21<--03-22Z;--03-21?--03-22+10:00;--03-21<--03-22+09:59;--03-22Z<--03-23;\
--03-22-10:00?--03-23;--03-22-09:59<--03-23;--02-29<--03-01Z;--02-28Z<--02-29";

const DAYS: &str = "\
---01<---31;---09<---10;---22=---22;---30<---31;\
---22Z=---22+00:00;---22+01:00<---22Z;---22Z<---22-01:00;---02+13:00=---01-11:00;---05-12:00=---06+12:00;---30-13:00=---31+11:00;\
---01+13:00<---01-11:00;---31+11:00<---31-13:00;---23+14:00<---22-14:00;---21-10:00=---22+14:00;\
---22?---22Z;---21<---22Z;---21?---22+10:00;---21<---22+09:59;---22Z<---23;---22-10:00?---23;---22-09:59<---23";

/// Returns whether a value breaks its lower bound and its upper one, if both are the value of another text.
fn broken_by(
    alloc: Global,
    simple: Simple,
    text: &str,
    bound: &str,
) -> Result<Option<(bool, bool)>, AllocError> {
    let mut facets = Facets::new();
    facets.minimum = simple.bound(alloc, bound)?;
    facets.maximum = simple.bound(alloc, bound)?;
    let is_bound = facets.minimum.is_some();
    let datatype = Datatype {
        simple,
        id: None,
        format: None,
        facets,
    };
    let value: Option<Value> = simple.bound(alloc, text)?;
    Ok(match value {
        Some(value) if is_bound => {
            let broken = datatype.facets(&value);
            Some((broken.below_minimum, broken.above_maximum))
        }
        _ => None,
    })
}

/// Returns whether each of two texts breaks these bounds, if the other one is its bound.
fn is_order(
    alloc: Global,
    simple: Simple,
    (a, b): (&str, &str),
    (below, above): (bool, bool),
) -> Result<bool, AllocError> {
    let first = broken_by(alloc, simple, a, b)? == Some((below, above));
    let second = broken_by(alloc, simple, b, a)? == Some((above, below));
    Ok(first && second)
}

/// Returns whether a pair of texts has the order that is between them.
fn has_order(alloc: Global, simple: Simple, pair: &str) -> Result<bool, AllocError> {
    if let Some(texts) = pair.split_once('<') {
        return is_order(alloc, simple, texts, (true, false));
    }
    if let Some(texts) = pair.split_once('=') {
        return is_order(alloc, simple, texts, (false, false));
    }
    match pair.split_once('?') {
        Some(texts) => is_order(alloc, simple, texts, (true, true)),
        None => Ok(false),
    }
}

fn pairs_hold(
    rt: &impl Abort,
    alloc: Global,
    simple: Simple,
    pairs: &str,
) -> Result<(), AllocError> {
    for pair in pairs.split(';') {
        assert!(rt; has_order(alloc, simple, pair)?, "{pair}");
    }
    Ok(())
}

#[test]
fn moments_and_parts_of_dates_have_an_order(rt: HostRuntime) -> Result<(), Fail> {
    for (simple, pairs) in &TABLES {
        pairs_hold(&rt, rt.alloc(), *simple, pairs)?;
    }
    Ok(())
}
