//! Facets, the values that break them, and the datatypes that are sound.
use crate::datatypes::{Bound, Claim, Limits, ONE, PLAIN, Pattern, Row, UNLIMITED};
use csvw_datatype::{Broken, Simple, Width};

const UNBROKEN: Broken = Broken {
    wrong_length: false,
    too_short: false,
    too_long: false,
    below_minimum: false,
    above_maximum: false,
};

const TOO_SHORT: Broken = Broken {
    too_short: true,
    ..UNBROKEN
};

const TOO_LONG: Broken = Broken {
    too_long: true,
    ..UNBROKEN
};

const WRONG_LENGTH: Broken = Broken {
    wrong_length: true,
    ..UNBROKEN
};

const BELOW: Broken = Broken {
    below_minimum: true,
    ..UNBROKEN
};

const ABOVE: Broken = Broken {
    above_maximum: true,
    ..UNBROKEN
};

const HALF: i128 = ONE / 2;

const ONE_LONG: Limits = Limits {
    length: Some(1),
    ..UNLIMITED
};

const TWO_OR_THREE_LONG: Limits = Limits {
    min_length: Some(2),
    max_length: Some(3),
    ..UNLIMITED
};

const ABOVE_MINUS_HALF: Limits = Limits {
    maximum: Some(Bound::Number(3 * HALF)),
    min_exclusive: Some(Bound::Number(-HALF)),
    ..UNLIMITED
};

const IN_1970: Limits = Limits {
    min_inclusive: Some(Bound::Day(0)),
    max_exclusive: Some(Bound::Day(365)),
    ..UNLIMITED
};

/// Texts, and the facets that their values break.
pub(crate) static BREAKS: [Row; 11] = [
    Row {
        simple: Simple::Text,
        limits: ONE_LONG,
        claim: Claim::Break(UNBROKEN),
        texts: "é;😀",
        ..PLAIN
    },
    Row {
        simple: Simple::Text,
        limits: ONE_LONG,
        claim: Claim::Break(WRONG_LENGTH),
        texts: ";ab",
        ..PLAIN
    },
    Row {
        simple: Simple::Text,
        limits: TWO_OR_THREE_LONG,
        claim: Claim::Break(TOO_SHORT),
        texts: "é",
        ..PLAIN
    },
    Row {
        simple: Simple::Text,
        limits: TWO_OR_THREE_LONG,
        claim: Claim::Break(UNBROKEN),
        texts: "éé;ééé",
        ..PLAIN
    },
    Row {
        simple: Simple::Text,
        limits: TWO_OR_THREE_LONG,
        claim: Claim::Break(TOO_LONG),
        texts: "éééé",
        ..PLAIN
    },
    Row {
        simple: Simple::Decimal,
        limits: ABOVE_MINUS_HALF,
        claim: Claim::Break(UNBROKEN),
        texts: "1.500;-0.49",
        ..PLAIN
    },
    Row {
        simple: Simple::Decimal,
        limits: ABOVE_MINUS_HALF,
        claim: Claim::Break(ABOVE),
        texts: "2.0",
        ..PLAIN
    },
    Row {
        simple: Simple::Decimal,
        limits: ABOVE_MINUS_HALF,
        claim: Claim::Break(BELOW),
        texts: "-0.5",
        ..PLAIN
    },
    Row {
        simple: Simple::Day,
        limits: IN_1970,
        claim: Claim::Break(UNBROKEN),
        texts: "1970-01-01;1970-12-31",
        ..PLAIN
    },
    Row {
        simple: Simple::Day,
        limits: IN_1970,
        claim: Claim::Break(BELOW),
        texts: "1969-12-31",
        ..PLAIN
    },
    Row {
        simple: Simple::Day,
        limits: IN_1970,
        claim: Claim::Break(ABOVE),
        texts: "1971-01-01",
        ..PLAIN
    },
];

const AT_MOST_HALF: Limits = Limits {
    maximum: Some(Bound::Number(HALF)),
    ..UNLIMITED
};

const AT_MOST_255: Limits = Limits {
    maximum: Some(Bound::Number(255 * 2 * HALF)),
    ..UNLIMITED
};

const AT_MOST_256: Limits = Limits {
    maximum: Some(Bound::Number(256 * 2 * HALF)),
    ..UNLIMITED
};

const ONE_TWICE: Limits = Limits {
    minimum: Some(Bound::Number(1)),
    min_inclusive: Some(Bound::Number(1)),
    ..UNLIMITED
};

const ONE_AND_TWO: Limits = Limits {
    minimum: Some(Bound::Number(1)),
    min_inclusive: Some(Bound::Number(2)),
    ..UNLIMITED
};

const NOTHING_BETWEEN: Limits = Limits {
    min_exclusive: Some(Bound::Number(1)),
    max_exclusive: Some(Bound::Number(1)),
    ..UNLIMITED
};

const CROSSED: Limits = Limits {
    min_exclusive: Some(Bound::Number(2)),
    max_exclusive: Some(Bound::Number(1)),
    ..UNLIMITED
};

/// Datatypes that are sound, and others that aren't.
pub(crate) static SOUND: [Row; 17] = [
    Row {
        simple: Simple::Text,
        limits: Limits {
            min_length: Some(2),
            max_length: Some(1),
            ..UNLIMITED
        },
        claim: Claim::Sound(false),
        ..PLAIN
    },
    Row {
        simple: Simple::Uri,
        limits: Limits {
            length: Some(1),
            ..UNLIMITED
        },
        claim: Claim::Sound(false),
        ..PLAIN
    },
    Row {
        simple: BYTE,
        limits: AT_MOST_256,
        claim: Claim::Sound(false),
        ..PLAIN
    },
    Row {
        simple: BYTE,
        limits: AT_MOST_255,
        claim: Claim::Sound(true),
        ..PLAIN
    },
    Row {
        simple: Simple::Whole,
        limits: AT_MOST_HALF,
        claim: Claim::Sound(false),
        ..PLAIN
    },
    Row {
        simple: Simple::Text,
        limits: AT_MOST_HALF,
        claim: Claim::Sound(false),
        ..PLAIN
    },
    Row {
        simple: Simple::Decimal,
        limits: AT_MOST_HALF,
        claim: Claim::Sound(true),
        ..PLAIN
    },
    Row {
        simple: Simple::Day,
        pattern: Pattern::Number('.', None),
        claim: Claim::Sound(false),
        ..PLAIN
    },
    Row {
        simple: Simple::Decimal,
        pattern: Pattern::Number('.', Some('.')),
        claim: Claim::Sound(false),
        ..PLAIN
    },
    Row {
        simple: Simple::Whole,
        pattern: Pattern::Number('5', None),
        claim: Claim::Sound(false),
        ..PLAIN
    },
    Row {
        simple: Simple::Decimal,
        limits: NOTHING_BETWEEN,
        claim: Claim::Sound(true),
        ..PLAIN
    },
    Row {
        simple: Simple::Decimal,
        limits: CROSSED,
        claim: Claim::Sound(false),
        ..PLAIN
    },
    Row {
        simple: Simple::Decimal,
        limits: Limits {
            max_exclusive: Some(Bound::Number(1)),
            ..ONE_TWICE
        },
        claim: Claim::Sound(false),
        ..PLAIN
    },
    Row {
        simple: Simple::Decimal,
        limits: Limits {
            max_inclusive: Some(Bound::Number(1)),
            ..ONE_TWICE
        },
        claim: Claim::Sound(true),
        ..PLAIN
    },
    Row {
        simple: Simple::Decimal,
        limits: ONE_TWICE,
        claim: Claim::Sound(true),
        ..PLAIN
    },
    Row {
        simple: Simple::Decimal,
        limits: ONE_AND_TWO,
        claim: Claim::Sound(false),
        ..PLAIN
    },
    Row {
        simple: Simple::Decimal,
        limits: Limits {
            min_exclusive: Some(Bound::Number(0)),
            ..ONE_TWICE
        },
        claim: Claim::Sound(false),
        ..PLAIN
    },
];

const BYTE: Simple = Simple::Derived(Width::UnsignedByte);

/// Numbers are equal across types.
pub(crate) static ONES: [Row; 3] = [
    Row {
        simple: Simple::Whole,
        claim: Claim::One(true),
        texts: "01",
        ..PLAIN
    },
    Row {
        simple: Simple::Decimal,
        claim: Claim::One(true),
        texts: "1.0",
        ..PLAIN
    },
    Row {
        simple: Simple::Text,
        claim: Claim::One(false),
        texts: "1",
        ..PLAIN
    },
];
