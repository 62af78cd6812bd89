//! Texts of doubles, each with its canonical text, or with the name of its fault, and the order of doubles (XML Schema Part 2,
//! section 3.3.5).
use csvw_double::{DoubleFault, canonical_double, compare_doubles, is_double, whole_double};
use std::alloc::Global;
use std::cmp::Ordering;

/// Texts with `;` between them, each with the expected result after `=>`. A text alone is its own canonical text.
const DOUBLES: &str = "\
0;\
-0=>0;\
+0.0=>0;\
0E5=>0;\
000=>0;\
0.000=>0;\
-0e-9=>0;\
1;\
+1=>1;\
-1;\
1.=>1;\
.5=>0.5;\
-.5=>-0.5;\
1.0E0=>1;\
1E3=>1000;\
1e3=>1000;\
1e+3=>1000;\
1E-3=>0.001;\
12.5e-3=>0.0125;\
42.546245;\
0.42546245E2=>42.546245;\
-1E4=>-10000;\
1267.43233E12=>1267432330000000;\
12.78e-2=>0.1278;\
12;\
1E20=>100000000000000000000;\
1E21=>1e21;\
1.5E21=>1.5e21;\
123456789012345678901234=>1.23456789012345678901234e23;\
0.000001;\
1E-6=>0.000001;\
1E-7=>1e-7;\
0.00000012=>1.2e-7;\
999999999999999999999;\
-0.0000005=>-5e-7;\
10.010=>10.01;\
100E-2=>1;\
00012.3400=>12.34;\
1.7976931348623157E308=>1.7976931348623157e308;\
4.9E-324=>4.9e-324;\
1E999999999999999999=>1e999999999999999999;\
0.1000000000000000055511151231257827;\
-123.456e-10=>-1.23456e-8;\
1e0000000000000000000000003=>1000;\
2000000000000000000000=>2e21;\
1E-999999999999999999=>1e-999999999999999999;\
INF;\
+INF=>INF;\
-INF;\
NaN;\
10E999999999999999999=>TooLong;\
1E1000000000000000000=>TooLong;\
0E1000000000000000000=>TooLong;\
0.1E-999999999999999999=>TooLong;\
=>Bad;\
+=>Bad;\
-=>Bad;\
.=>Bad;\
+.=>Bad;\
E5=>Bad;\
1E=>Bad;\
1E+=>Bad;\
1e5.5=>Bad;\
1 =>Bad;\
\u{20}1=>Bad;\
1,5=>Bad;\
inf=>Bad;\
Infinity=>Bad;\
nan=>Bad;\
-NaN=>Bad;\
+NaN=>Bad;\
INFINITY=>Bad;\
0x10=>Bad;\
1_000=>Bad;\
1E5E5=>Bad;\
--1=>Bad;\
+-1=>Bad;\
1.2.3=>Bad;\
1e--5=>Bad;\
١=>Bad;\
1f=>Bad;\
INF =>Bad";

/// Pairs of texts with `;` between them. `<`: the first is below the second; `=`: they are one value; `?`: they have no order.
const PAIRS: &str = "\
0<1;\
0=-0;\
0=0E5;\
0=.000;\
-1<0;\
-1<1;\
-1<-0.5;\
-2<-1;\
-10<-9.99;\
9<10;\
99<100;\
9.9<10;\
0.9<1;\
0.09<0.1;\
0.1<0.11;\
0.10=0.1;\
1=1.0;\
1=1E0;\
1=10E-1;\
1=.1e1;\
1=0.001e3;\
10=1E1;\
100=1e2;\
1200=1.2E3;\
1200<1200.5;\
1200.4<1200.5;\
1200.49<1200.5;\
1199.99<1200;\
12<1200;\
0.000001<1e21;\
1e-7<0.000001;\
9.99e-7<1e-6;\
1e20<1e21;\
999999999999999999999<1e21;\
1e21=1000000000000000000000;\
1e21<1000000000000000000001;\
-1e21<-999999999999999999999;\
1.7976931348623157E308<1.7976931348623158E308;\
4.9E-324<5E-324;\
0<4.9E-324;\
-4.9E-324<0;\
1e-999999999999999999<1e999999999999999999;\
-1e999999999999999999<-1e-999999999999999999;\
9e999999999999999998<1e999999999999999999;\
0.1000000000000000000000000001<0.1000000000000000000000000002;\
00001<00002;\
00010=10;\
-INF<0;\
-INF<-1e999999999999999999;\
1e999999999999999999<INF;\
-INF<INF;\
INF=INF;\
INF=+INF;\
-INF=-INF;\
NaN?NaN;\
NaN?0;\
NaN?INF;\
NaN?-INF;\
1?a;\
1?;\
INF?inf;\
1?1,5;\
1?1E1000000000000000000";

/// Whole numbers with the double that each is.
const WHOLE: [(i128, &str); 7] = [
    (0, "0"),
    (-1, "-1"),
    (1000, "1000"),
    (-120, "-120"),
    (100_000_000_000_000_000_000, "100000000000000000000"),
    (1_000_000_000_000_000_000_000, "1e21"),
    (-1_234_000_000_000_000_000_000_000, "-1.234e24"),
];

/// Returns the name of a fault.
fn name_of(fault: DoubleFault) -> &'static str {
    match fault {
        DoubleFault::Bad => "Bad",
        DoubleFault::TooLong => "TooLong",
    }
}

/// Returns whether a text has the expected result.
fn is_canonical(alloc: Global, text: &str, want: &str) -> bool {
    match canonical_double(alloc, text) {
        Ok(Ok(form)) => form.as_str() == want,
        Ok(Err(fault)) => name_of(fault) == want,
        Err(_) => false,
    }
}

#[test]
fn doubles_have_one_text(rt: HostRuntime) {
    for row in DOUBLES.split(';') {
        let (text, want) = row.split_once("=>").unwrap_or((row, row));
        assert!(rt; is_canonical(rt.alloc(), text, want));
    }
}

/// Returns whether the order of two texts is one, and the other way round the other one.
fn is_order(a: &str, b: &str, order: Option<Ordering>) -> bool {
    compare_doubles(a, b) == order && compare_doubles(b, a) == order.map(Ordering::reverse)
}

/// Returns whether a pair of texts has the order that is between them.
fn has_order(pair: &str) -> bool {
    if let Some((a, b)) = pair.split_once('<') {
        return is_order(a, b, Some(Ordering::Less));
    }
    if let Some((a, b)) = pair.split_once('=') {
        return is_order(a, b, Some(Ordering::Equal));
    }
    match pair.split_once('?') {
        Some((a, b)) => is_order(a, b, None),
        None => false,
    }
}

#[test]
fn doubles_have_an_order(rt: HostRuntime) {
    for pair in PAIRS.split(';') {
        assert!(rt; has_order(pair), "{pair}");
    }
}

#[test]
fn texts_are_doubles_or_not(rt: HostRuntime) {
    for row in DOUBLES.split(';') {
        let (text, want) = row.split_once("=>").unwrap_or((row, row));
        assert!(rt;
            is_double(text) == !matches!(want, "Bad" | "TooLong"),
            "{text}"
        );
    }
}

/// Returns whether a whole number has the canonical text.
fn is_whole_double(alloc: Global, number: i128, want: &str) -> bool {
    match whole_double(alloc, number) {
        Ok(Some(form)) => form.as_str() == want,
        _ => false,
    }
}

#[test]
fn whole_numbers_are_doubles(rt: HostRuntime) {
    for (number, want) in WHOLE {
        assert!(rt; is_whole_double(rt.alloc(), number, want), "{want}");
    }
}
