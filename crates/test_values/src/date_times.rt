//! Texts under `dateTime` with zones and parts of a second, and under `dateTimeStamp`. The cases follow XML Schema 1.1 part 2,
//! sections 3.3.7 and 3.4.28.
use crate::datatypes::{Bound, Claim, Limits, PLAIN, Pattern, Row, UNLIMITED};
use csvw_datatype::{Simple, TextType, Zone};

/// Moments whose texts may have a zone.
pub(crate) static DATE_TIMES: [Row; 10] = [
    Row {
        simple: Simple::Other(TextType::DateTime(Zone::Optional)),
        texts: WITHOUT_ZONE,
        ..PLAIN
    },
    Row {
        simple: Simple::Other(TextType::DateTime(Zone::Optional)),
        texts: ZONED,
        ..PLAIN
    },
    Row {
        simple: Simple::Other(TextType::DateTime(Zone::Optional)),
        texts: CROSSINGS,
        ..PLAIN
    },
    Row {
        simple: Simple::Other(TextType::DateTime(Zone::Optional)),
        texts: ENDS,
        ..PLAIN
    },
    Row {
        simple: Simple::Other(TextType::DateTime(Zone::Optional)),
        texts: NO_MOMENTS,
        ..PLAIN
    },
    Row {
        simple: Simple::Other(TextType::DateTime(Zone::Optional)),
        texts: NO_ZONES,
        ..PLAIN
    },
    Row {
        simple: Simple::Other(TextType::DateTime(Zone::Optional)),
        pattern: Pattern::Moment("yyyy-MM-ddTHH:mm:ss"),
        texts: "x=>BadDatatype",
        ..PLAIN
    },
    Row {
        simple: Simple::Other(TextType::DateTime(Zone::Optional)),
        pattern: Pattern::Expression(".*"),
        texts: "x=>BadDatatype",
        ..PLAIN
    },
    Row {
        simple: Simple::Other(TextType::DateTime(Zone::Optional)),
        limits: FROM_2020,
        claim: Claim::Sound(true),
        ..PLAIN
    },
    Row {
        simple: Simple::Other(TextType::DateTime(Zone::Optional)),
        limits: OF_TWENTY,
        claim: Claim::Sound(false),
        ..PLAIN
    },
];

/// Moments whose texts have to have a zone.
pub(crate) static STAMPS: [Row; 4] = [
    Row {
        simple: Simple::Other(TextType::DateTime(Zone::Required)),
        texts: STAMPED,
        ..PLAIN
    },
    Row {
        simple: Simple::Other(TextType::DateTime(Zone::Required)),
        texts: NO_STAMPS,
        ..PLAIN
    },
    Row {
        simple: Simple::Other(TextType::DateTime(Zone::Required)),
        limits: FROM_2020,
        claim: Claim::Sound(true),
        ..PLAIN
    },
    Row {
        simple: Simple::Other(TextType::DateTime(Zone::Required)),
        limits: OF_TWENTY,
        claim: Claim::Sound(false),
        ..PLAIN
    },
];

const FROM_2020: Limits = Limits {
    minimum: Some(Bound::Text("2020-01-01T00:00:00Z")),
    ..UNLIMITED
};

const OF_TWENTY: Limits = Limits {
    length: Some(20),
    ..UNLIMITED
};

/// Moments without a zone. Zeros at the end of the parts of a second say nothing.
const WITHOUT_ZONE: &str = "\
2020-01-31T08:30:00;0001-01-01T00:00:00;9999-12-31T23:59:59;2020-02-29T00:00:00;\
2020-01-31T08:30:00.5;2020-01-31T08:30:59.05;2020-01-31T08:30:00.123456789012345678901234567891;\
0001-01-01T00:00:00.1;9999-12-31T23:59:59.999999999999999999999999999999;\
2020-01-31T08:30:00.500=>2020-01-31T08:30:00.5;2020-01-31T08:30:00.010=>2020-01-31T08:30:00.01;\
2020-01-31T08:30:00.0=>2020-01-31T08:30:00;2020-01-31T08:30:00.000=>2020-01-31T08:30:00;\
2020-01-31T08:30:00.000000000000000000000000000000=>2020-01-31T08:30:00;\
2020-01-31T08:30:00.000000000000000000000000000001";

/// Moments with a zone, of which the text in the zone `Z` is on the same day.
const ZONED: &str = "\
2020-01-31T08:30:00Z;0001-01-01T00:00:00Z;9999-12-31T23:59:59Z;\
2020-01-31T08:30:00+00:00=>2020-01-31T08:30:00Z;2020-01-31T08:30:00-00:00=>2020-01-31T08:30:00Z;\
2002-10-10T12:00:00-05:00=>2002-10-10T17:00:00Z;2002-10-10T12:00:00+05:00=>2002-10-10T07:00:00Z;\
2020-06-15T12:00:00-11:30=>2020-06-15T23:30:00Z;2020-06-15T12:00:00+05:45=>2020-06-15T06:15:00Z;\
2020-06-15T12:00:00-00:01=>2020-06-15T12:01:00Z;2020-06-15T14:00:00+14:00=>2020-06-15T00:00:00Z;\
2020-06-15T09:59:59-14:00=>2020-06-15T23:59:59Z;\
2020-01-31T08:30:00.5Z;2020-01-31T08:30:00.500Z=>2020-01-31T08:30:00.5Z;2020-01-31T08:30:00.000Z=>2020-01-31T08:30:00Z;\
2020-01-31T08:30:00.250+02:00=>2020-01-31T06:30:00.25Z;2020-01-31T08:30:00.00-02:00=>2020-01-31T10:30:00Z;\
2020-01-31T08:30:00.123456789012345678901234567890+01:00=>2020-01-31T07:30:00.12345678901234567890123456789Z";

/// Moments with a zone, of which the text in the zone `Z` is on the day before or after.
const CROSSINGS: &str = "\
2020-01-01T01:00:00+02:00=>2019-12-31T23:00:00Z;2019-12-31T23:00:00-02:00=>2020-01-01T01:00:00Z;\
2020-06-15T12:00:00+13:59=>2020-06-14T22:01:00Z;2020-06-15T13:59:59+14:00=>2020-06-14T23:59:59Z;\
2020-06-15T10:00:00-14:00=>2020-06-16T00:00:00Z;\
2020-05-01T00:00:00+14:00=>2020-04-30T10:00:00Z;2020-04-30T23:00:00-14:00=>2020-05-01T13:00:00Z;\
2020-03-01T00:30:00+01:00=>2020-02-29T23:30:00Z;2021-03-01T00:30:00+01:00=>2021-02-28T23:30:00Z;\
2000-03-01T00:00:00+00:01=>2000-02-29T23:59:00Z;1900-03-01T00:00:00+00:01=>1900-02-28T23:59:00Z;\
2020-02-28T23:00:00-01:00=>2020-02-29T00:00:00Z;2021-02-28T23:00:00-01:00=>2021-03-01T00:00:00Z;\
2020-02-29T23:59:59.9-00:01=>2020-03-01T00:00:59.9Z;\
1970-01-01T00:00:00+00:01=>1969-12-31T23:59:00Z;1969-12-31T23:59:59-00:01=>1970-01-01T00:00:59Z";

/// The moment in the zone `Z` is in the years 0001 to 9999.
const ENDS: &str = "\
0001-01-01T00:00:00-00:01=>0001-01-01T00:01:00Z;0001-01-01T00:01:00+00:01=>0001-01-01T00:00:00Z;\
0001-01-01T14:00:00+14:00=>0001-01-01T00:00:00Z;\
0001-01-01T00:00:00+00:01=>BadDateTime;0001-01-01T00:00:59.9+00:01=>BadDateTime;0001-01-01T13:59:59+14:00=>BadDateTime;\
9999-12-31T23:59:59+00:01=>9999-12-31T23:58:59Z;9999-12-31T23:58:59-00:01=>9999-12-31T23:59:59Z;\
9999-12-31T09:59:59-14:00=>9999-12-31T23:59:59Z;9999-12-31T23:59:59.9Z;\
9999-12-31T23:59:59-00:01=>BadDateTime;9999-12-31T23:59:00-00:01=>BadDateTime;9999-12-31T10:00:00-14:00=>BadDateTime";

/// Texts whose day, time of day or parts of a second are none.
const NO_MOMENTS: &str = "\
=>BadDateTime;Z=>BadDateTime;2020-01-31=>BadDateTime;2020-01-31Z=>BadDateTime;2020-01-31T08:30=>BadDateTime;\
2020-01-31T08:30Z=>BadDateTime;2020-01-31T08:30+01:00=>BadDateTime;2020-01-31T08:30:0Z=>BadDateTime;\
2020-01-31 08:30:00Z=>BadDateTime;2020-01-31t08:30:00Z=>BadDateTime;20200131T083000Z=>BadDateTime;\
2020-1-31T08:30:00Z=>BadDateTime;2020-01-31T8:30:00Z=>BadDateTime;08:30:00Z=>BadDateTime;\
2020-01-31T24:00:00=>BadDateTime;2020-01-31T24:00:00Z=>BadDateTime;2020-01-31T25:00:00Z=>BadDateTime;\
2020-01-31T23:59:60=>BadDateTime;2020-01-31T23:59:60Z=>BadDateTime;2020-01-31T23:60:00Z=>BadDateTime;\
2021-02-29T00:00:00Z=>BadDateTime;1900-02-29T00:00:00Z=>BadDateTime;2020-04-31T00:00:00Z=>BadDateTime;\
2020-13-01T00:00:00Z=>BadDateTime;2020-00-01T00:00:00Z=>BadDateTime;2020-01-00T00:00:00Z=>BadDateTime;\
0000-01-01T00:00:00Z=>BadDateTime;0000-12-31T23:59:59-00:01=>BadDateTime;-0001-01-01T00:00:00Z=>BadDateTime;\
12020-01-01T00:00:00Z=>BadDateTime;10000-01-01T00:00:00+00:01=>BadDateTime;\
2020-01-31T08:30:00.=>BadDateTime;2020-01-31T08:30:00.Z=>BadDateTime;2020-01-31T08:30:00.+01:00=>BadDateTime;\
2020-01-31T08:30:00,5=>BadDateTime;2020-01-31T08:30:00.5.5=>BadDateTime;2020-01-31T08:30:00.-5=>BadDateTime;\
2020-01-31T08:30.5Z=>BadDateTime;2020-01-31T08:30:00.5e1Z=>BadDateTime;2020-01-31T08:30:005=>BadDateTime;\
2020-01-31T08:30:0é=>BadDateTime;2020-01-31T08:30:00.５=>BadDateTime;２０２０-01-31T08:30:00Z=>BadDateTime";

/// Texts that end with something else than a zone.
const NO_ZONES: &str = "\
2020-01-31T08:30:00z=>BadDateTime;2020-01-31T08:30:00 Z=>BadDateTime;2020-01-31T08:30:00Z =>BadDateTime; 2020-01-31T08:30:00Z=>BadDateTime;\
2020-01-31T08:30:00ZZ=>BadDateTime;2020-01-31T08:30:00UTC=>BadDateTime;2020-01-31T08:30:00.5 Z=>BadDateTime;\
2020-01-31T08:30:00+14:01=>BadDateTime;2020-01-31T08:30:00-14:01=>BadDateTime;2020-01-31T08:30:00+15:00=>BadDateTime;\
2020-01-31T08:30:00+1:00=>BadDateTime;2020-01-31T08:30:00+0100=>BadDateTime;2020-01-31T08:30:00+01=>BadDateTime;\
2020-01-31T08:30:00+=>BadDateTime;2020-01-31T08:30:00+01:=>BadDateTime;2020-01-31T08:30:00+01:0=>BadDateTime;\
2020-01-31T08:30:00+01:000=>BadDateTime;2020-01-31T08:30:00+01:60=>BadDateTime;2020-01-31T08:30:00+01:00:00=>BadDateTime;\
2020-01-31T08:30:00+01:00Z=>BadDateTime;2020-01-31T08:30:00Z+01:00=>BadDateTime;2020-01-31T08:30:00 +01:00=>BadDateTime;\
2020-01-31T08:30:00+-1:00=>BadDateTime;2020-01-31T08:30:00\u{2212}01:00=>BadDateTime;2020-01-31T08:30:0001:00=>BadDateTime;\
2020-01-31T08:30:00é=>BadDateTime;2020-01-31T08:30:00+０1:00=>BadDateTime";

/// Stamps.
const STAMPED: &str = "\
2020-01-31T08:30:00Z;2020-01-31T08:30:00.5Z;2020-01-31T08:30:00.50Z=>2020-01-31T08:30:00.5Z;\
2020-01-31T08:30:00.000Z=>2020-01-31T08:30:00Z;2020-01-31T08:30:00-00:00=>2020-01-31T08:30:00Z;\
2020-01-01T01:00:00+02:00=>2019-12-31T23:00:00Z;2020-02-29T12:00:00-14:00=>2020-03-01T02:00:00Z;\
0001-01-01T14:00:00+14:00=>0001-01-01T00:00:00Z;9999-12-31T09:59:59.9-14:00=>9999-12-31T23:59:59.9Z";

/// Texts without a zone, and others that are no stamps.
const NO_STAMPS: &str = "\
=>BadDateTime;2020-01-31T08:30:00=>BadDateTime;2020-01-31T08:30:00.5=>BadDateTime;2020-01-31T08:30:00.000=>BadDateTime;\
2020-01-31Z=>BadDateTime;2020-01-31T08:30:00z=>BadDateTime;2020-01-31T08:30:00+14:01=>BadDateTime;\
0001-01-01T00:00:00+00:01=>BadDateTime;9999-12-31T23:59:59-00:01=>BadDateTime;2020-01-31T24:00:00Z=>BadDateTime";
