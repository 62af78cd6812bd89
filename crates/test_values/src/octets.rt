//! Tests of `normalizedString`, `QName`, `hexBinary` and `base64Binary` (XML Schema 1.1 part 2, sections 3.4.1, 3.3.18, 3.3.15 and
//! 3.3.16; RFC 4648, section 4).
use crate::datatypes::{Claim, Limits, PLAIN, Pattern, Row, UNLIMITED};
use csvw_datatype::{BinaryForm, Broken, Simple, TextType};

const EXACTLY_TWO: Limits = Limits {
    length: Some(2),
    ..UNLIMITED
};

const UNBROKEN: Broken = Broken {
    wrong_length: false,
    too_short: false,
    too_long: false,
    below_minimum: false,
    above_maximum: false,
};

const OTHER_LENGTH: Broken = Broken {
    wrong_length: true,
    ..UNBROKEN
};

/// Strings without line breaks, and names with prefixes.
pub(crate) static SHORT_TYPES: [Row; 4] = [
    Row {
        simple: Simple::Other(TextType::Normalized),
        texts: "a;a  b; a ;",
        ..PLAIN
    },
    Row {
        simple: Simple::Other(TextType::Normalized),
        limits: EXACTLY_TWO,
        claim: Claim::Sound(true),
        ..PLAIN
    },
    Row {
        simple: Simple::Other(TextType::QualifiedName),
        texts: QUALIFIED,
        ..PLAIN
    },
    Row {
        simple: Simple::Other(TextType::QualifiedName),
        limits: EXACTLY_TWO,
        claim: Claim::Sound(false),
        ..PLAIN
    },
];

const QUALIFIED: &str = "\
a;_;iso:code;É1-.·x;a1:b2;xmlns:a;:=>BadText;:a=>BadText;a:=>BadText;a:b:c=>BadText;a::b=>BadText;1a=>BadText;\
a:1=>BadText;1:a=>BadText;a: b=>BadText;a b=>BadText;=>BadText";

/// Octets.
pub(crate) static OCTETS: [Row; 9] = [
    Row {
        simple: Simple::Other(TextType::Binary(BinaryForm::Hex)),
        texts: HEX,
        ..PLAIN
    },
    Row {
        simple: Simple::Other(TextType::Binary(BinaryForm::Base64)),
        texts: BASE64,
        ..PLAIN
    },
    Row {
        simple: Simple::Other(TextType::Binary(BinaryForm::Hex)),
        limits: EXACTLY_TWO,
        claim: Claim::Break(UNBROKEN),
        texts: "0FB7;0fb7",
        ..PLAIN
    },
    Row {
        simple: Simple::Other(TextType::Binary(BinaryForm::Hex)),
        limits: EXACTLY_TWO,
        claim: Claim::Break(OTHER_LENGTH),
        texts: "0FB7A0;0F;",
        ..PLAIN
    },
    Row {
        simple: Simple::Other(TextType::Binary(BinaryForm::Base64)),
        limits: EXACTLY_TWO,
        claim: Claim::Break(UNBROKEN),
        texts: "TWE=;T W E =;AAA=",
        ..PLAIN
    },
    Row {
        simple: Simple::Other(TextType::Binary(BinaryForm::Base64)),
        limits: EXACTLY_TWO,
        claim: Claim::Break(OTHER_LENGTH),
        texts: "TWFu;TQ==;TWFuTQ==;",
        ..PLAIN
    },
    Row {
        simple: Simple::Other(TextType::Binary(BinaryForm::Hex)),
        limits: EXACTLY_TWO,
        claim: Claim::Sound(true),
        ..PLAIN
    },
    Row {
        simple: Simple::Other(TextType::Binary(BinaryForm::Base64)),
        limits: EXACTLY_TWO,
        claim: Claim::Sound(true),
        ..PLAIN
    },
    Row {
        simple: Simple::Other(TextType::Binary(BinaryForm::Hex)),
        pattern: Pattern::Expression("0.*"),
        texts: "0FB7;0fb7=>0FB7;1F=>BadText;0FB=>BadText",
        ..PLAIN
    },
];

const HEX: &str = "\
0FB7;0fb7=>0FB7;aBcDeF09=>ABCDEF09;;0=>BadText;0FB=>BadText;0G=>BadText;0F B7=>BadText;0x0F=>BadText;-0F=>BadText;é0=>BadText";

const BASE64: &str = "\
TWFu;TWE=;TQ==;;TWFuTWFu;TWFuTQ==;+/+/;AAAA;T W F u=>TWFu;TWFu TWFu=>TWFuTWFu;TQ = ==>TQ==;T=>BadText;TQ=>BadText;\
TWF=>BadText;TQ==>BadText;TQ=====>BadText;TR===>BadText;TWF==>BadText;====>BadText;TW-_=>BadText;TWFuT=>BadText;\
TQ==TWFu=>BadText;é===>BadText";
