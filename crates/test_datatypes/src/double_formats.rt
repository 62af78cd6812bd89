//! Tests of the formats of `number`, `double` and `float` in the profile w3c (Model for Tabular Data and Metadata on the Web,
//! section 6.4.2).
use crate::cells::{Check, each_cell, each_refusal};
use csvw_meta_core::Profile;
use std::test::Fail;

/// Numbers in a format.
const FORMATTED: &str = r##"
{"base":"number","format":"#,##0.00"} : double
    1,234.50 => 1234.5
    -1,234.50 => -1234.5
    +0.00 => 0
    1,234,567.89 => 1234567.89
    1234.50 => !BadDouble
    1,234.5 => !BadDouble
    1.50E3 => !BadDouble
    INF => !BadDouble
    NaN => !BadDouble
{"base":"double","format":{"decimalChar":",","groupChar":"."}} : double
    1.234,5 => 1234.5
    1234,5 => 1234.5
    -1,5E3 => -1500
    1.234,5E-3 => 1.2345
    +1E+300 => 1e300
    ,5 => 0.5
    5% => 0.05
    2,5‰ => 0.0025
    INF => INF
    -INF => -INF
    NaN => NaN
    1..5 => !BadDouble
    1,5e3 => !BadDouble
    5%E2 => !BadDouble
    5E2% => !BadDouble
    E3 => !BadDouble
    1E => !BadDouble
    1E1,5 => !BadDouble
    1E1.000 => !BadDouble
    1EINF => !BadDouble
{"base":"float","format":{}} : float
    1.5E3 => 1500
    99999999999999999999 => 99999999999999999999
    0.000000000000000001 => 1e-18
    1E999999999999999999 => 1e999999999999999999
    100000000000000000000 => !NumberTooLong
    0.0000000000000000001 => !NumberTooLong
    1E1000000000000000000 => !NumberTooLong
    1,5 => !BadDouble
{"base":"float","format":{"pattern":"0.0%"}} : float
    12.5% => 0.125
    -0.5% => -0.005
    12.5 => !BadDouble
    12.5‰ => !BadDouble
{"base":"number","format":{"pattern":"#.##0,0#","decimalChar":",","groupChar":"."}} : double
    1.234,5 => 1234.5
    0,25 => 0.25
    1234,5 => !BadDouble
    1.234 => !BadDouble
{"base":"number","format":"000"} : double
    007 => 7
    1234 => 1234
    07 => !BadDouble
{"base":"number","format":{"groupChar":" "},"minimum":1000,"maximum":"2E3"} : double
    1 000 => 1000
    2E3 => 2000
    999 => 999 !BelowMinimum
    2 001 => 2001 !AboveMaximum
"##;

/// Formats that no number can have.
const REFUSED: &str = r##"
{"base":"double","format":"0.###E"} => BadDatatype /format
{"base":"double","format":{"pattern":"#0#"}} => BadDatatype /format/pattern
{"base":"number","format":{"decimalChar":"--"}} => BadDatatype /format/decimalChar
{"base":"float","format":{"groupChar":"."}} => BadDatatype /format
{"base":"number","format":7} => BadProperty /format
{"base":"number","format":{"pattern":"0"},"minimum":"1,5"} => BadDatatype /minimum
"##;

#[test]
fn doubles_have_formats(rt: HostRuntime) -> Result<(), Fail> {
    each_cell(&rt, rt.alloc(), &Check::Columns(Profile::W3c), FORMATTED)?;
    Ok(())
}

#[test]
fn other_formats_are_refused(rt: HostRuntime) -> Result<(), Fail> {
    each_refusal(&rt, rt.alloc(), Profile::W3c, REFUSED)?;
    Ok(())
}
