//! The order of durations (XML Schema 1.1 part 2, section 3.3.6.1). Days are added to 1696-09-01, 1697-02-01, 1903-03-01 and
//! 1903-07-01.
use csvw_duration::compare_durations;
use std::cmp::Ordering;

/// Pairs of texts with `;` between them. `<`: the first is below the second; `=`: they are one value; `?`: they have no order.
const PAIRS: &str = "\
P27D<P1M;\
P28D?P1M;\
P29D?P1M;\
P30D?P1M;\
P31D?P1M;\
P1M<P32D;\
P364D<P1Y;\
P365D?P1Y;\
P366D?P1Y;\
P1Y<P367D;\
P149D<P5M;\
P150D?P5M;\
P151D?P5M;\
P152D?P5M;\
P153D?P5M;\
P5M<P154D;\
P58D<P2M;\
P59D?P2M;\
P62D?P2M;\
P2M<P63D;\
P180D<P6M;\
P181D?P6M;\
P184D?P6M;\
P6M<P185D;\
P1459D<P4Y;\
P1460D?P4Y;\
P1461D?P4Y;\
P4Y<P1462D;\
P36523D<P100Y;\
P36524D?P100Y;\
P36525D?P100Y;\
P100Y<P36526D;\
P400Y=P146097D;\
P400Y<P146097DT0.000000001S;\
P146096DT23H59M59.999999999S<P400Y;\
-P400Y=-P146097D;\
P1M29D<P2M;\
P1M30D?P2M;\
P1M31D?P2M;\
P2M<P1M32D;\
P12M=P1Y;\
P11M<P1Y;\
P1Y<P13M;\
P1Y1M=P13M;\
P0Y12M0D=P1Y;\
P1Y<P1Y1D;\
P1M<P1MT0.000000001S;\
P1M=P1MT0S;\
PT24H=P1D;\
PT1440M=P1D;\
PT86400S=P1D;\
PT60S=PT1M;\
PT36H=P1DT12H;\
P1D<PT25H;\
PT23H59M59S<P1D;\
P001D=P1D;\
PT0S=P0M;\
PT0S=-P0D;\
-P0Y=-PT0.0S;\
PT0S<PT0.000000001S;\
-PT0.000000001S<PT0S;\
PT0.5S=PT0.500S;\
PT0.5S<PT0.500000001S;\
PT0.09S<PT0.1S;\
PT0.1S<PT0.11S;\
PT0.9S<PT1S;\
PT1S=PT1.0S;\
PT1S<PT1.1S;\
-PT0.6S<-PT0.5S;\
-PT1.1S<-PT1S;\
-P1D<P1D;\
-P2D<-P1D;\
-P1M<PT0S;\
-P1M<P1M;\
-P2M<-P1M;\
-P32D<-P1M;\
-P31D?-P1M;\
-P28D?-P1M;\
-P1M<-P27D;\
-P367D<-P1Y;\
-P366D?-P1Y;\
-P365D?-P1Y;\
-P1Y<-P364D;\
-P2000Y=-P730485D;\
P999999999Y=P999999998Y12M;\
P999999999Y<P999999999Y1M;\
P999999999Y999999999M<P999999999Y999999999MT0.1S;\
P999999999D<P999999999Y;\
P2737907Y<P999999999D;\
P999999999D<P2737908Y;\
-P999999999Y<-P999999999D;\
-P999999999Y<P999999999Y;\
-P2737908Y<-P999999999D;\
-P999999999D<-P2737907Y;\
PT999999999.999999999S<P11575D;\
P11574D<PT999999999.999999999S;\
P1D?;\
P1D?P1;\
P1Y?1Y;\
PT1S?P1S;\
P1D?+P1D;\
P1D?P1.5D;\
P1D?P1D ;\
P1D?PT;\
P1D?-P;\
P1D?P1000000000D;\
PT1S?PT1.0000000000S;\
a?a";

/// Returns whether the order of two texts is one, and the other way round the other one.
fn is_order(a: &str, b: &str, order: Option<Ordering>) -> bool {
    compare_durations(a, b) == order && compare_durations(b, a) == order.map(Ordering::reverse)
}

/// Returns whether a pair of texts has the order that is between them.
fn has_order(pair: &str) -> bool {
    if let Some((a, b)) = pair.split_once('<') {
        return is_order(a, b, Some(Ordering::Less));
    }
    if let Some((a, b)) = pair.split_once('=') {
        return is_order(a, b, Some(Ordering::Equal));
    }
    match pair.split_once('?') {
        Some((a, b)) => is_order(a, b, None),
        None => false,
    }
}

#[test]
fn durations_have_an_order(rt: HostRuntime) {
    for pair in PAIRS.split(';') {
        assert!(rt; has_order(pair), "{pair}");
    }
}
