//! Texts with `;` between them, each with the lexical form of its value or the name of its code after `=>`. A text
//! alone is its own form.
use crate::datatypes::{Bound, Claim, Limits, PLAIN, Pattern, Row, UNLIMITED};
use csvw_datatype::{Floating, Simple, TextType, Width};

pub(crate) static NUMBERS: [Row; 9] = [
    Row {
        simple: Simple::Whole,
        texts: WHOLE,
        ..PLAIN
    },
    Row {
        simple: Simple::Whole,
        pattern: Pattern::Number('.', Some(',')),
        texts: GROUPED,
        ..PLAIN
    },
    Row {
        simple: Simple::Decimal,
        texts: DECIMAL,
        ..PLAIN
    },
    Row {
        simple: Simple::Decimal,
        pattern: Pattern::Number('.', None),
        texts: MARKED,
        ..PLAIN
    },
    Row {
        simple: Simple::Decimal,
        pattern: Pattern::Number(',', Some('.')),
        texts: "1.234,5=>1234.5",
        ..PLAIN
    },
    Row {
        simple: Simple::Decimal,
        pattern: Pattern::Number('.', Some('.')),
        texts: UNSOUND,
        ..PLAIN
    },
    Row {
        simple: Simple::Decimal,
        pattern: Pattern::Number('5', None),
        texts: UNSOUND,
        ..PLAIN
    },
    Row {
        simple: Simple::Decimal,
        pattern: Pattern::Number('‰', None),
        texts: UNSOUND,
        ..PLAIN
    },
    Row {
        simple: Simple::Decimal,
        pattern: Pattern::Number('\t', None),
        texts: UNSOUND,
        ..PLAIN
    },
];

const UNSOUND: &str = "1=>BadDatatype";

const WHOLE: &str = "\
-0=>0;\
1.=>BadInteger;\
+007=>7;\
=>BadInteger;\
99999999999999999999=>99999999999999999999;\
100000000000000000000=>NumberTooLong;\
-100000000000000000000=>NumberTooLong";

const GROUPED: &str = "\
1,234=>1234;\
1,,2=>BadInteger;\
,1=>BadInteger;\
1,=>BadInteger;\
-1,000=>-1000;\
5%=>BadInteger";

const DECIMAL: &str = "\
.5=>0.5;\
5.=>5;\
-0.25=>-0.25;\
-10=>-10;\
1.0000000000000000000=>1;\
0.000000000000000001=>0.000000000000000001;\
.=>BadDecimal;\
1e3=>BadDecimal;\
5%=>BadDecimal;\
=>BadDecimal;\
+=>BadDecimal;\
--1=>BadDecimal;\
1 0=>BadDecimal";

const MARKED: &str = "\
5‰=>0.005;\
100000000000000000000%=>1000000000000000000;\
0.000000000000000001=>0.000000000000000001;\
0.000000000000000001%=>NumberTooLong;\
99999999999999999999=>99999999999999999999;\
100000000000000000000=>NumberTooLong;\
-25%=>-0.25;\
1.500=>1.5;\
2.0=>2";

pub(crate) static DATES: [Row; 3] = [
    Row {
        simple: Simple::Day,
        texts: DAYS,
        ..PLAIN
    },
    Row {
        simple: Simple::Moment,
        texts: SECONDS,
        ..PLAIN
    },
    Row {
        simple: Simple::Moment,
        pattern: Pattern::Moment("yyyy-MM-ddTHH:mm"),
        texts: MINUTES,
        ..PLAIN
    },
];

/// Texts under formats of dates.
pub(crate) static DATE_FORMATS: [Row; 13] = [
    Row {
        simple: Simple::Day,
        pattern: Pattern::Day("yyyyMMdd"),
        texts: "20240229=>2024-02-29;2024022=>BadDate;20230229=>BadDate",
        ..PLAIN
    },
    Row {
        simple: Simple::Day,
        pattern: Pattern::Day("dd-MM-yyyy"),
        texts: "29-02-2024=>2024-02-29;29/02/2024=>BadDate;29-02-1900=>BadDate",
        ..PLAIN
    },
    Row {
        simple: Simple::Day,
        pattern: Pattern::Day("dd/MM/yyyy"),
        texts: "29/02/2024=>2024-02-29;29/02/2023=>BadDate;29/2/2024=>BadDate",
        ..PLAIN
    },
    Row {
        simple: Simple::Day,
        pattern: Pattern::Day("dd.MM.yyyy"),
        texts: "29.02.2024=>2024-02-29;29.02.24=>BadDate;00.02.2024=>BadDate",
        ..PLAIN
    },
    Row {
        simple: Simple::Day,
        pattern: Pattern::Day("d-M-yyyy"),
        texts: "29-2-2024=>2024-02-29;29-02-2024=>2024-02-29;029-2-2024=>BadDate",
        ..PLAIN
    },
    Row {
        simple: Simple::Day,
        pattern: Pattern::Day("d/M/yyyy"),
        texts: "29/2/2024=>2024-02-29;29/2/2024 =>BadDate;29//2024=>BadDate",
        ..PLAIN
    },
    Row {
        simple: Simple::Day,
        pattern: Pattern::Day("d.M.yyyy"),
        texts: "1.12.2024=>2024-12-01;31.4.2024=>BadDate;1.13.2024=>BadDate",
        ..PLAIN
    },
    Row {
        simple: Simple::Day,
        pattern: Pattern::Day("MM-dd-yyyy"),
        texts: "02-29-2024=>2024-02-29;29-02-2024=>BadDate;2-29-2024=>BadDate",
        ..PLAIN
    },
    Row {
        simple: Simple::Day,
        pattern: Pattern::Day("MM/dd/yyyy"),
        texts: "02/29/2024=>2024-02-29;02/30/2024=>BadDate;02-29-2024=>BadDate",
        ..PLAIN
    },
    Row {
        simple: Simple::Day,
        pattern: Pattern::Day("MM.dd.yyyy"),
        texts: "02.29.2024=>2024-02-29;13.01.2024=>BadDate;02.29.02024=>BadDate",
        ..PLAIN
    },
    Row {
        simple: Simple::Day,
        pattern: Pattern::Day("M-d-yyyy"),
        texts: "2-29-2024=>2024-02-29;12-1-2024=>2024-12-01;4-31-2024=>BadDate",
        ..PLAIN
    },
    Row {
        simple: Simple::Day,
        pattern: Pattern::Day("M/d/yyyy"),
        texts: "2/29/2024=>2024-02-29;2/29/1900=>BadDate;=>BadDate",
        ..PLAIN
    },
    Row {
        simple: Simple::Day,
        pattern: Pattern::Day("M.d.yyyy"),
        texts: "2.29.2024=>2024-02-29;2.29.2024.=>BadDate;2.2a.2024=>BadDate",
        ..PLAIN
    },
];

const DAYS: &str = "\
2024-02-29=>2024-02-29;\
2024-2-29=>BadDate;\
2023-02-29=>BadDate;\
1900-02-29=>BadDate;\
2000-02-29=>2000-02-29;\
0000-01-01=>BadDate;\
0001-01-01=>0001-01-01;\
1969-12-31=>1969-12-31;\
9999-12-31=>9999-12-31;\
10000-01-01=>BadDate";

const SECONDS: &str = "\
1970-01-01T00:00:00=>1970-01-01T00:00:00;\
1969-12-31T23:59:59=>1969-12-31T23:59:59;\
2024-02-29T12:34:56=>2024-02-29T12:34:56;\
0001-01-01T00:00:00=>0001-01-01T00:00:00;\
9999-12-31T23:59:59=>9999-12-31T23:59:59;\
2024-02-29T23:59=>BadDateTime;\
2024-02-29T23:59:60=>BadDateTime;\
2024-02-29T23:59:00Z=>BadDateTime;\
2024-02-29T23:59:00.5=>BadDateTime;\
2024-02-29T1:00:00=>BadDateTime;\
0000-01-01T00:00:00=>BadDateTime";

const MINUTES: &str = "\
2024-02-29T23:59=>2024-02-29T23:59:00;\
2024-02-29T24:00=>BadDateTime;\
2024-02-29T23:60=>BadDateTime;\
2023-02-29T23:59=>BadDateTime;\
2024-02-29T23:59:00=>BadDateTime;\
2024-02-29 23:59=>BadDateTime;\
=>BadDateTime";

pub(crate) static TEXTS: [Row; 11] = [
    Row {
        simple: Simple::Truth,
        texts: TRUTHS,
        ..PLAIN
    },
    Row {
        simple: Simple::Truth,
        pattern: Pattern::Truth("Y|N"),
        texts: "Y=>true;N=>false;1=>BadBoolean",
        ..PLAIN
    },
    Row {
        simple: Simple::Text,
        texts: " a\n=> a\n;=>",
        ..PLAIN
    },
    Row {
        simple: Simple::Uri,
        texts: "x y=>x y",
        ..PLAIN
    },
    Row {
        simple: Simple::Other(TextType::Json),
        texts: " [1,  2] => [1,  2] ",
        ..PLAIN
    },
    Row {
        simple: Simple::Floating(Floating::Double),
        texts: "1E3=>1000;-0=>0;+INF=>INF;NaN;1.5E=>BadDouble;=>BadDouble;1E1000000000000000000=>NumberTooLong",
        ..PLAIN
    },
    Row {
        simple: Simple::Floating(Floating::Double),
        texts: "0;42.5462;-3.25;1200;-1200.5;0.25;-0.0001;0.000001;123456789012345678901;999999999999999999999.9",
        ..PLAIN
    },
    Row {
        simple: Simple::Floating(Floating::Double),
        texts: "12.50=>12.5;-3.0=>-3;100.00=>100;0.50=>0.5;-0.0=>0;00.5=>0.5;007.10=>7.1;.5=>0.5;5.=>5;+1.5=>1.5;0.0000001=>1e-7;1.5 =>BadDouble",
        ..PLAIN
    },
    Row {
        simple: Simple::Floating(Floating::Double),
        texts: "1234567890123456789012=>1.234567890123456789012e21;1000000000000000000000.0=>1e21;-=>BadDouble;1.5.0=>BadDouble;1,5=>BadDouble",
        ..PLAIN
    },
    Row {
        simple: Simple::Floating(Floating::Float),
        texts: "0.00000012=>1.2e-7;inf=>BadDouble",
        ..PLAIN
    },
    Row {
        simple: Simple::Derived(Width::Byte),
        texts: "100000000000000000000=>NumberTooLong;x=>BadInteger;01=>1",
        ..PLAIN
    },
];

const TRUTHS: &str = "1=>true;true=>true;false=>false;0=>false;TRUE=>BadBoolean";

/// Derived integers, each with the texts of its bounds and those past them.
pub(crate) static BOUNDS: [Row; 12] = [
    Row {
        simple: Simple::Derived(Width::Long),
        texts: "-9223372036854775808;-9223372036854775809=>OutOfRange;9223372036854775807;9223372036854775808=>OutOfRange",
        ..PLAIN
    },
    Row {
        simple: Simple::Derived(Width::Int),
        texts: "-2147483648;-2147483649=>OutOfRange;2147483647;2147483648=>OutOfRange",
        ..PLAIN
    },
    Row {
        simple: Simple::Derived(Width::Short),
        texts: "-32768;-32769=>OutOfRange;32767;32768=>OutOfRange",
        ..PLAIN
    },
    Row {
        simple: Simple::Derived(Width::Byte),
        texts: "-128;-129=>OutOfRange;127;128=>OutOfRange",
        ..PLAIN
    },
    Row {
        simple: Simple::Derived(Width::UnsignedLong),
        texts: "0;-1=>OutOfRange;18446744073709551615;18446744073709551616=>OutOfRange",
        ..PLAIN
    },
    Row {
        simple: Simple::Derived(Width::UnsignedInt),
        texts: "0;-1=>OutOfRange;4294967295;4294967296=>OutOfRange",
        ..PLAIN
    },
    Row {
        simple: Simple::Derived(Width::UnsignedShort),
        texts: "0;-1=>OutOfRange;65535;65536=>OutOfRange",
        ..PLAIN
    },
    Row {
        simple: Simple::Derived(Width::UnsignedByte),
        texts: "0;-1=>OutOfRange;255;256=>OutOfRange",
        ..PLAIN
    },
    Row {
        simple: Simple::Derived(Width::NonNegativeInteger),
        texts: "0;-1=>OutOfRange",
        ..PLAIN
    },
    Row {
        simple: Simple::Derived(Width::PositiveInteger),
        texts: "1;0=>OutOfRange",
        ..PLAIN
    },
    Row {
        simple: Simple::Derived(Width::NonPositiveInteger),
        texts: "0;1=>OutOfRange",
        ..PLAIN
    },
    Row {
        simple: Simple::Derived(Width::NegativeInteger),
        texts: "-1;0=>OutOfRange",
        ..PLAIN
    },
];

/// Patterns that are no format.
pub(crate) static NO_FORMATS: [Row; 15] = [
    Row {
        pattern: Pattern::Day(""),
        claim: Claim::NoFormat,
        ..PLAIN
    },
    Row {
        pattern: Pattern::Day("yyyy-M-d"),
        claim: Claim::NoFormat,
        ..PLAIN
    },
    Row {
        pattern: Pattern::Day("d-MM-yyyy"),
        claim: Claim::NoFormat,
        ..PLAIN
    },
    Row {
        pattern: Pattern::Day("dd MM yyyy"),
        claim: Claim::NoFormat,
        ..PLAIN
    },
    Row {
        pattern: Pattern::Day("dd-MM/yyyy"),
        claim: Claim::NoFormat,
        ..PLAIN
    },
    Row {
        pattern: Pattern::Day("yyyy/MM/dd"),
        claim: Claim::NoFormat,
        ..PLAIN
    },
    Row {
        pattern: Pattern::Day("M-dd-yyyy"),
        claim: Claim::NoFormat,
        ..PLAIN
    },
    Row {
        pattern: Pattern::Moment("yyyy-MM-dd"),
        claim: Claim::NoFormat,
        ..PLAIN
    },
    Row {
        pattern: Pattern::Truth(""),
        claim: Claim::NoFormat,
        ..PLAIN
    },
    Row {
        pattern: Pattern::Truth("Y"),
        claim: Claim::NoFormat,
        ..PLAIN
    },
    Row {
        pattern: Pattern::Truth("Y|"),
        claim: Claim::NoFormat,
        ..PLAIN
    },
    Row {
        pattern: Pattern::Truth("|N"),
        claim: Claim::NoFormat,
        ..PLAIN
    },
    Row {
        pattern: Pattern::Truth("Y|Y"),
        claim: Claim::NoFormat,
        ..PLAIN
    },
    Row {
        pattern: Pattern::Truth("Y|N|"),
        claim: Claim::NoFormat,
        ..PLAIN
    },
    Row {
        pattern: Pattern::Truth("|"),
        claim: Claim::NoFormat,
        ..PLAIN
    },
];

/// A datatype with a format and a bound.
pub(crate) static FULL: [Row; 1] = [Row {
    simple: Simple::Truth,
    pattern: Pattern::Truth("Y|N"),
    limits: Limits {
        minimum: Some(Bound::Text("t")),
        ..UNLIMITED
    },
    claim: Claim::Copied,
    ..PLAIN
}];
