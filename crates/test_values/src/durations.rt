//! Tests of `duration`, `yearMonthDuration` and `dayTimeDuration` (XML Schema 1.1 part 2, sections 3.3.6, 3.4.26 and 3.4.27, and the
//! canonical texts of appendix E.2).
use crate::datatypes::{Claim, Limits, PLAIN, Pattern, Row, UNLIMITED};
use csvw_datatype::{DurationKind, Simple, TextType};

const AT_MOST_TWO: Limits = Limits {
    max_length: Some(2),
    ..UNLIMITED
};

/// Durations.
pub(crate) static DURATIONS: [Row; 5] = [
    Row {
        simple: Simple::Other(TextType::Duration(DurationKind::Any)),
        texts: ANY,
        ..PLAIN
    },
    Row {
        simple: Simple::Other(TextType::Duration(DurationKind::YearMonth)),
        texts: YEAR_MONTH,
        ..PLAIN
    },
    Row {
        simple: Simple::Other(TextType::Duration(DurationKind::DayTime)),
        texts: DAY_TIME,
        ..PLAIN
    },
    Row {
        simple: Simple::Other(TextType::Duration(DurationKind::Any)),
        pattern: Pattern::Expression("P[0-9]+D"),
        texts: "P7D;P07D=>P7D;P1M=>BadDuration;P7=>BadDuration",
        ..PLAIN
    },
    Row {
        simple: Simple::Other(TextType::Duration(DurationKind::Any)),
        limits: AT_MOST_TWO,
        claim: Claim::Sound(false),
        ..PLAIN
    },
];

const ANY: &str = "\
P1Y;P1Y2M;P1Y2M3DT4H5M6.7S;-P1Y;P1D;PT1S;PT0.5S;P400D;P1YT1S;P1M;PT1M;\
P12M=>P1Y;P25M=>P2Y1M;P1Y12M=>P2Y;P0Y=>PT0S;-P0D=>PT0S;P0M=>PT0S;PT0.0S=>PT0S;P0Y1D=>P1D;P1Y0D=>P1Y;PT24H=>P1D;PT36H=>P1DT12H;\
PT60S=>PT1M;PT3661S=>PT1H1M1S;-PT90M=>-PT1H30M;PT0.50S=>PT0.5S;P1Y2M3DT4H5M6.70S=>P1Y2M3DT4H5M6.7S;P001Y=>P1Y;PT1.000S=>PT1S;\
P999999998Y23M=>P999999999Y11M;P999999999Y12M=>BadDuration;P999999999Y999999999M=>BadDuration;-P999999999Y12M=>BadDuration;\
P999999999DT23H59M59.999999999S;P999999999DT24H=>BadDuration;P999999998DT24H=>P999999999D;\
PT999999999.999999999S=>P11574DT1H46M39.999999999S;-P1M1D;P1MT0.25S;PT86399S=>PT23H59M59S;\
P999999999D;P1DT0.000000001S;\
=>BadDuration;P=>BadDuration;-P=>BadDuration;PT=>BadDuration;P1YT=>BadDuration;P1DT=>BadDuration;1Y=>BadDuration;P1S=>BadDuration;\
PT1D=>BadDuration;PT1Y=>BadDuration;P-1Y=>BadDuration;P1.5Y=>BadDuration;P1M1Y=>BadDuration;PT1S1M=>BadDuration;PT.5S=>BadDuration;\
PT5.S=>BadDuration;PT1.5M=>BadDuration;+P1D=>BadDuration;P1=>BadDuration;p1y=>BadDuration;P1y=>BadDuration;P1Y1Y=>BadDuration;\
P1W=>BadDuration;P 1D=>BadDuration;P1D =>BadDuration;--P1D=>BadDuration;P1DT1H =>BadDuration;T1H=>BadDuration;P1000000000D=>BadDuration;\
PT0.0000000001S=>BadDuration;PTT1S=>BadDuration;P1H=>BadDuration;P١D=>BadDuration";

const YEAR_MONTH: &str = "\
P1Y;P1M;-P1Y2M;P12M=>P1Y;P0Y=>P0M;-P0M=>P0M;P0Y0M=>P0M;P14M=>P1Y2M;\
P=>BadDuration;P1D=>BadDuration;PT1M=>BadDuration;P1YT=>BadDuration;P1Y1D=>BadDuration;P0D=>BadDuration;PT0S=>BadDuration;\
P1M1Y=>BadDuration;=>BadDuration";

const DAY_TIME: &str = "\
P1D;PT1M;P1DT1H;-PT1.5S;P0D=>PT0S;PT24H=>P1D;P0DT0H0M0S=>PT0S;PT1441M=>P1DT1M;\
P1Y=>BadDuration;P1M=>BadDuration;P1M1D=>BadDuration;P0Y1D=>BadDuration;P1DT=>BadDuration;P=>BadDuration;=>BadDuration";
