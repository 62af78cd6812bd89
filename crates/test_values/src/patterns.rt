//! Texts of numbers under patterns (Model for Tabular Data and Metadata on the Web, section 6.4.2; Unicode Technical Standard
//! 35, part 3).
use crate::datatypes::{PLAIN, Pattern, Row};
use csvw_datatype::{Floating, NumberFormat, Simple, Width};
use csvw_datatype_core::{NumberPattern, PatternFault};
use std::alloc::{AllocError, Global};
use std::test::Fail;

pub(crate) static PATTERNED: [Row; 26] = [
    Row {
        simple: Simple::Decimal,
        pattern: Pattern::Written('.', Some(','), "#,##0.00"),
        texts: MONEY,
        ..PLAIN
    },
    Row {
        simple: Simple::Decimal,
        pattern: Pattern::Written(',', Some('.'), "#.##0,00"),
        texts: "1.234,50=>1234.5;-0,05=>-0.05;1,234.50=>BadDecimal;1234,50=>BadDecimal",
        ..PLAIN
    },
    Row {
        simple: Simple::Whole,
        pattern: Pattern::Written('.', Some(','), "0"),
        texts: "0=>0;7=>7;007=>7;+7=>7;-7=>-7;7.=>BadInteger;7.0=>BadInteger;1,000=>BadInteger;100000000000000000000=>NumberTooLong",
        ..PLAIN
    },
    Row {
        simple: Simple::Whole,
        pattern: Pattern::Written('.', Some(','), "000"),
        texts: "007=>7;-012=>-12;1234=>1234;07=>BadInteger;=>BadInteger;x12=>BadInteger",
        ..PLAIN
    },
    Row {
        simple: Simple::Whole,
        pattern: Pattern::Written('.', Some(','), "#,##0"),
        texts: "0=>0;999=>999;1,000=>1000;12,345,678=>12345678;1000=>BadInteger;1,00=>BadInteger;,100=>BadInteger",
        ..PLAIN
    },
    Row {
        simple: Simple::Whole,
        pattern: Pattern::Written('.', Some(','), "#,##,##0"),
        texts: "12,34,567=>1234567;1,234=>1234;1,234,567=>BadInteger",
        ..PLAIN
    },
    Row {
        simple: Simple::Whole,
        pattern: Pattern::Written('.', Some('\''), "#'###"),
        texts: "1'234=>1234;12=>12;1,234=>BadInteger",
        ..PLAIN
    },
    Row {
        simple: Simple::Whole,
        pattern: Pattern::Written('.', Some(','), "+0"),
        texts: "+5=>5;-5=>-5;5=>BadInteger",
        ..PLAIN
    },
    Row {
        simple: Simple::Derived(Width::Byte),
        pattern: Pattern::Written('.', Some(','), "000"),
        texts: "127=>127;200=>OutOfRange;27=>BadInteger",
        ..PLAIN
    },
    Row {
        simple: Simple::Decimal,
        pattern: Pattern::Written('.', Some(','), "0.0##"),
        texts: "1.5=>1.5;1.234=>1.234;1=>BadDecimal;1.=>BadDecimal;1.2345=>BadDecimal",
        ..PLAIN
    },
    Row {
        simple: Simple::Decimal,
        pattern: Pattern::Written('.', Some(','), "0.###"),
        texts: "1=>1;1.5=>1.5;1.=>BadDecimal;.5=>BadDecimal",
        ..PLAIN
    },
    Row {
        simple: Simple::Decimal,
        pattern: Pattern::Written('.', Some(','), "#.0"),
        texts: ".5=>0.5;0.5=>0.5;12.5=>12.5;5=>BadDecimal",
        ..PLAIN
    },
    Row {
        simple: Simple::Decimal,
        pattern: Pattern::Written('.', Some(','), "0.0%"),
        texts: "2.5%=>0.025;-12.5%=>-0.125;2.5=>BadDecimal;2.5‰=>BadDecimal",
        ..PLAIN
    },
    Row {
        simple: Simple::Decimal,
        pattern: Pattern::Written('.', Some(','), "0‰"),
        texts: "5‰=>0.005;5%=>BadDecimal;5=>BadDecimal",
        ..PLAIN
    },
    Row {
        simple: Simple::Whole,
        pattern: Pattern::Written('.', Some(','), "0%"),
        texts: "5%=>BadInteger;5=>BadInteger",
        ..PLAIN
    },
    Row {
        simple: Simple::Floating(Floating::Double),
        pattern: Pattern::Written('.', Some(','), "#0.###E0"),
        texts: SCIENTIFIC,
        ..PLAIN
    },
    Row {
        simple: Simple::Floating(Floating::Double),
        pattern: Pattern::Written('.', Some(','), "0E0"),
        texts: "1E3=>1000;7E-2=>0.07;12E3=>BadDouble;1.0E3=>BadDouble;1000=>BadDouble;=>BadDouble",
        ..PLAIN
    },
    Row {
        simple: Simple::Floating(Floating::Double),
        pattern: Pattern::Written('.', Some(','), "00.0E+00"),
        texts: "12.5E+03=>12500;01.0E-10=>1e-10;12.5E+003=>12500;12.5E03=>BadDouble;12.5E+3=>BadDouble;1.5E+03=>BadDouble",
        ..PLAIN
    },
    Row {
        simple: Simple::Floating(Floating::Double),
        pattern: Pattern::Written('.', Some(','), "+0.0E0"),
        texts: "+1.5E3=>1500;-1.5E3=>-1500;1.5E3=>BadDouble",
        ..PLAIN
    },
    Row {
        simple: Simple::Floating(Floating::Double),
        pattern: Pattern::Written('.', Some(','), "#E0"),
        texts: "5E1=>50;55E1=>BadDouble;E1=>BadDouble",
        ..PLAIN
    },
    Row {
        simple: Simple::Floating(Floating::Double),
        pattern: Pattern::Written('.', Some(','), ".0E0"),
        texts: ".5E1=>5;0.5E1=>BadDouble",
        ..PLAIN
    },
    Row {
        simple: Simple::Floating(Floating::Double),
        pattern: Pattern::Written(',', Some('.'), "0,0E0"),
        texts: "1,5E3=>1500;1.5E3=>BadDouble",
        ..PLAIN
    },
    Row {
        simple: Simple::Floating(Floating::Double),
        pattern: Pattern::Written('E', Some(','), "0E0"),
        texts: "1E5=>1.5;15=>BadDouble",
        ..PLAIN
    },
    Row {
        simple: Simple::Floating(Floating::Double),
        pattern: Pattern::Written('.', Some('E'), "#E##0"),
        texts: "1E234=>1234;1234=>BadDouble",
        ..PLAIN
    },
    Row {
        simple: Simple::Whole,
        pattern: Pattern::Written('.', Some(','), "0E0"),
        texts: "1E3=>BadInteger;1=>BadInteger",
        ..PLAIN
    },
    Row {
        simple: Simple::Decimal,
        pattern: Pattern::Written('.', Some(','), "0.0E0"),
        texts: "1.0E3=>BadDecimal;1.0=>BadDecimal",
        ..PLAIN
    },
];

const MONEY: &str = "\
1,234.50=>1234.5;\
0.05=>0.05;\
12.00=>12;\
-1,234,567.00=>-1234567;\
+5.00=>5;\
0,012.00=>12;\
1234.50=>BadDecimal;\
1,23.50=>BadDecimal;\
12,34.50=>BadDecimal;\
1,,234.50=>BadDecimal;\
1,234.5=>BadDecimal;\
1,234.500=>BadDecimal;\
1,234=>BadDecimal;\
.50=>BadDecimal;\
1.234,50=>BadDecimal;\
5.00%=>BadDecimal;\
1.00e2=>BadDecimal";

const SCIENTIFIC: &str = "\
12.5E3=>12500;\
1E3=>1000;\
0E0=>0;\
-1.5E10=>-15000000000;\
+1E+2=>100;\
1E-05=>0.00001;\
99.999E-1=>9.9999;\
123E3=>BadDouble;\
1e3=>BadDouble;\
1=>BadDouble;\
E3=>BadDouble;\
1E=>BadDouble;\
1E+=>BadDouble;\
1E+-3=>BadDouble;\
1E3E3=>BadDouble;\
1E3.0=>BadDouble;\
1.E3=>BadDouble;\
1.2345E3=>BadDouble;\
.5E3=>BadDouble;\
1,2E3=>BadDouble;\
1%E3=>BadDouble;\
1E3%=>BadDouble;\
INF=>BadDouble;\
NaN=>BadDouble;\
1E1000000000000000000=>NumberTooLong";

/// Texts that are no pattern with the characters `.` and `,`, and why.
static NO_PATTERNS: [(&str, PatternFault); 41] = [
    ("", PatternFault::Bad),
    ("+", PatternFault::Bad),
    (".", PatternFault::Bad),
    ("%", PatternFault::Bad),
    ("0#", PatternFault::Bad),
    ("#0#", PatternFault::Bad),
    ("0.#0", PatternFault::Bad),
    ("0.", PatternFault::Bad),
    ("0.0.0", PatternFault::Bad),
    (",0", PatternFault::Bad),
    ("0,", PatternFault::Bad),
    ("0,,0", PatternFault::Bad),
    ("#,0#0", PatternFault::Bad),
    ("0.0,0", PatternFault::Bad),
    ("%0", PatternFault::Bad),
    ("0%%", PatternFault::Bad),
    ("0%‰", PatternFault::Bad),
    ("0+", PatternFault::Bad),
    ("#,##,###,##0", PatternFault::Bad),
    ("E", PatternFault::Bad),
    ("E0", PatternFault::Bad),
    ("0E", PatternFault::Bad),
    ("0E+", PatternFault::Bad),
    ("0E0E0", PatternFault::Bad),
    ("#,##0E0", PatternFault::Bad),
    ("0%E0", PatternFault::Bad),
    ("0E0%", PatternFault::Bad),
    ("0E#", PatternFault::Bad),
    ("0E0#", PatternFault::Bad),
    ("0E++0", PatternFault::Bad),
    ("0E0+", PatternFault::Bad),
    ("0E0.0", PatternFault::Bad),
    ("0#E0", PatternFault::Bad),
    ("0.E0", PatternFault::Bad),
    ("0E-0", PatternFault::Unknown),
    ("0e0", PatternFault::Unknown),
    ("0E1", PatternFault::Unknown),
    ("0;(0)", PatternFault::Unknown),
    ("-0", PatternFault::Unknown),
    ("1", PatternFault::Unknown),
    ("¤0", PatternFault::Unknown),
];

/// Patterns, each with the text that shows it.
static SHOWN: [(&str, &str); 16] = [
    ("0", "0"),
    ("000", "000"),
    ("#", "#"),
    ("####0", "0"),
    ("#,##0.00", "#,##0.00"),
    ("###,##0.0#", "#,##0.0#"),
    ("#,##,##0", "#,##,##0"),
    ("0,000,000", "0,000,000"),
    ("+0.0%", "+0.0%"),
    ("#.0‰", ".0‰"),
    ("0E0", "0E0"),
    ("#0.###E0", "#0.###E0"),
    ("##0.0E+00", "##0.0E+00"),
    ("+#E0", "+#E0"),
    (".0E0", ".0E0"),
    ("#00E000", "#00E000"),
];

/// The characters of the patterns.
const COMMA: NumberFormat = NumberFormat {
    decimal_char: '.',
    group_char: Some(','),
    pattern: None,
};

fn is_fault(text: &str, fault: PatternFault) -> bool {
    NumberPattern::of(&COMMA.rules(), text) == Err(fault)
}

#[test]
fn texts_that_are_no_pattern(rt: HostRuntime) {
    for (text, fault) in NO_PATTERNS.as_slice() {
        assert!(rt; is_fault(text, *fault), "{text}");
    }
}

fn is_shown(alloc: Global, text: &str, want: &str) -> Result<bool, AllocError> {
    let Ok(pattern) = NumberPattern::of(&COMMA.rules(), text) else {
        return Ok(false);
    };
    let mut shown = String::new(alloc);
    pattern.push_to(&COMMA.rules(), &mut shown)?;
    Ok(shown.as_str() == want)
}

#[test]
fn patterns_are_shown(rt: HostRuntime) -> Result<(), Fail> {
    for (text, want) in SHOWN.as_slice() {
        assert!(rt; is_shown(rt.alloc(), text, want)?, "{text}");
    }
    Ok(())
}
