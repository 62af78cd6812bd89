//! Texts under the types that keep texts: times of day, parts of dates, and names. The cases follow XML Schema 1.1 part 2,
//! sections 3.3.8, 3.3.10 to 3.3.14, 3.4.3, 3.4.4 and 3.4.6.
use crate::datatypes::{Claim, Limits, PLAIN, Pattern, Row, UNLIMITED};
use csvw_datatype::{DatePart, Simple, TextType};

/// Parts of dates.
pub(crate) static PARTS: [Row; 5] = [
    Row {
        simple: Simple::Other(TextType::Part(DatePart::Year)),
        texts: YEARS,
        ..PLAIN
    },
    Row {
        simple: Simple::Other(TextType::Part(DatePart::YearMonth)),
        texts: MONTHS_OF_YEARS,
        ..PLAIN
    },
    Row {
        simple: Simple::Other(TextType::Part(DatePart::Month)),
        texts: MONTHS,
        ..PLAIN
    },
    Row {
        simple: Simple::Other(TextType::Part(DatePart::MonthDay)),
        texts: DAYS_OF_YEARS,
        ..PLAIN
    },
    Row {
        simple: Simple::Other(TextType::Part(DatePart::Day)),
        texts: DAYS,
        ..PLAIN
    },
];

const YEARS: &str = "\
1960;0000;0001;-0001;9999;12015;-12015;\
-0000=>0000;\
2015Z;2015+01:00;2015-14:00;2015+13:59;\
2015+00:00=>2015Z;2015-00:00=>2015Z;\
-0000-00:00=>0000Z;\
=>BadDate;1=>BadDate;999=>BadDate;02015=>BadDate;-02015=>BadDate;+2015=>BadDate;\
20 15=>BadDate;2015 =>BadDate;2015z=>BadDate;2015ZZ=>BadDate;\
2015+14:01=>BadDate;2015+15:00=>BadDate;2015+1:00=>BadDate;2015+01:60=>BadDate;2015+0100=>BadDate;2015+01:00Z=>BadDate;\
2015-03=>BadDate;20x5=>BadDate;２０１５=>BadDate";

const MONTHS_OF_YEARS: &str = "\
2015-03;0000-12;-0001-01;12015-10;2015-03Z;2015-03-05:30;\
2015-03+00:00=>2015-03Z;-0000-01=>0000-01;\
2015-00=>BadDate;2015-13=>BadDate;2015-3=>BadDate;2015=>BadDate;201503=>BadDate;2015-03-22=>BadDate;2015-00:00=>BadDate";

const MONTHS: &str = "\
--01;--12;--05Z;--05+14:00;\
--05-00:00=>--05Z;\
--00=>BadDate;--13=>BadDate;--1=>BadDate;-05=>BadDate;05=>BadDate;--05--=>BadDate;--05-01=>BadDate";

const DAYS_OF_YEARS: &str = "\
--01-01;--02-29;--04-30;--12-31;\
--02-30=>BadDate;--04-31=>BadDate;--06-31=>BadDate;--09-31=>BadDate;--11-31=>BadDate;--01-32=>BadDate;--01-00=>BadDate;\
--13-01=>BadDate;--1-1=>BadDate;01-01=>BadDate;\
--01-01Z;--08-09+00:00=>--08-09Z;--08-09-00:00=>--08-09Z;--03-22+05:30;--03-22+12:00;--03-22-11:59;\
--03-22+12:01=>--03-21-11:59;--03-22-12:00=>--03-23+12:00;--03-01+13:00=>--02-29-11:00;--02-29-13:00=>--03-01+11:00;\
--03-01+14:00=>--02-29-10:00;--02-28-14:00=>--02-29+10:00;--05-01+12:30=>--04-30-11:30;--11-30-12:01=>--12-01+11:59;\
--12-31+13:00=>--12-30-11:00;--01-01-14:00=>--01-02+10:00;\
--01-01+13:00;--01-01+14:00;--12-31-13:00;--12-31-12:00;\
--01-01z=>BadDate;--01-01ZZ=>BadDate;--01-01 Z=>BadDate;--01-01+14:01=>BadDate;--01-01+1:00=>BadDate;--01-01+0100=>BadDate;\
--02-30Z=>BadDate;--02-30+13:00=>BadDate";

const DAYS: &str = "\
---01;---31;---00=>BadDate;---32=>BadDate;---1=>BadDate;--01=>BadDate;\
---01Z;---31+00:00=>---31Z;---31-00:00=>---31Z;---15-05:30;---15+12:00;---15-11:59;\
---15+12:01=>---14-11:59;---05-12:00=>---06+12:00;---02+13:00=>---01-11:00;---30-14:00=>---31+10:00;---31+14:00=>---30-10:00;\
---01+13:00;---31-13:00;---01-13:00=>---02+11:00;\
---01z=>BadDate;---01+14:01=>BadDate;---01+0100=>BadDate;---32Z=>BadDate;---00+13:00=>BadDate";

/// Times of day.
pub(crate) static TIMES: [Row; 6] = [
    Row {
        simple: Simple::Other(TextType::Time),
        texts: SECONDS,
        ..PLAIN
    },
    Row {
        simple: Simple::Other(TextType::Time),
        pattern: Pattern::Time("HHmmss"),
        texts: "150207=>15:02:07;000000=>00:00:00;15:02:07=>BadTime;1502=>BadTime;150260=>BadTime",
        ..PLAIN
    },
    Row {
        simple: Simple::Other(TextType::Time),
        pattern: Pattern::Time("HH:mm"),
        texts: "15:02=>15:02:00;23:59=>23:59:00;1502=>BadTime;15:02:07=>BadTime;24:00=>BadTime",
        ..PLAIN
    },
    Row {
        simple: Simple::Other(TextType::Time),
        pattern: Pattern::Time("HHmm"),
        texts: "1502=>15:02:00;0060=>BadTime;152=>BadTime",
        ..PLAIN
    },
    Row {
        simple: Simple::Other(TextType::Time),
        pattern: Pattern::Time("H:mm"),
        claim: Claim::NoFormat,
        ..PLAIN
    },
    Row {
        simple: Simple::Moment,
        pattern: Pattern::Time("HH:mm"),
        texts: "x=>BadDatatype",
        ..PLAIN
    },
];

const SECONDS: &str = "\
00:00:00;23:59:59;13:20:30;13:20:30.5;13:20:30.50=>13:20:30.5;13:20:30.000=>13:20:30;00:00:00.0001;\
23:59:59.999999999999;13:20:30.=>BadTime;13:20:30,5=>BadTime;13:20.5=>BadTime;13:20:30.5 =>BadTime;\
24:00:00=>BadTime;23:60:00=>BadTime;23:59:60=>BadTime;1:20:30=>BadTime;13:20=>BadTime;132030=>BadTime;\
-13:20:30=>BadTime;=>BadTime";

/// Names, and tags of languages.
pub(crate) static NAMED: [Row; 6] = [
    Row {
        simple: Simple::Other(TextType::Language),
        texts: LANGUAGES,
        ..PLAIN
    },
    Row {
        simple: Simple::Other(TextType::Name),
        texts: "a;_;:;iso:code;É1-.·x;1a=>BadText;-a=>BadText;.=>BadText;·=>BadText;a b=>BadText;=>BadText;a×b=>BadText;a÷=>BadText",
        ..PLAIN
    },
    Row {
        simple: Simple::Other(TextType::NameToken),
        texts: "a;1a;-;2-a;.·;𐀀‿;a b=>BadText;=>BadText;a/b=>BadText;×=>BadText;\u{37E}=>BadText;\u{2000}=>BadText;\u{F0000}=>BadText",
        ..PLAIN
    },
    Row {
        simple: Simple::Other(TextType::Language),
        limits: AT_MOST_TWO,
        claim: Claim::Sound(true),
        ..PLAIN
    },
    Row {
        simple: Simple::Other(TextType::Time),
        limits: AT_MOST_TWO,
        claim: Claim::Sound(false),
        ..PLAIN
    },
    Row {
        simple: Simple::Other(TextType::Part(DatePart::Year)),
        limits: AT_MOST_TWO,
        claim: Claim::Sound(false),
        ..PLAIN
    },
];

const AT_MOST_TWO: Limits = Limits {
    max_length: Some(2),
    ..UNLIMITED
};

const LANGUAGES: &str = "\
en;en-GB;EN-gb;de-1996;x-klingon;abcdefgh;abcdefgh-12345678-1;i;\
=>BadText;1=>BadText;e1=>BadText;abcdefghi=>BadText;en-123456789=>BadText;en-=>BadText;-en=>BadText;en--GB=>BadText;\
en_GB=>BadText;en GB=>BadText;é=>BadText";
