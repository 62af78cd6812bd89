//! Tests of the bounds of `number`, `double` and `float` in the profile w3c (Metadata Vocabulary for Tabular Data, section 5.11.2).
use crate::cells::{Check, each_cell, each_refusal};
use csvw_meta_core::Profile;
use std::test::Fail;

/// Numbers between bounds.
const BOUNDED: &str = r#"
{"base":"number","minimum":0,"maximum":100} : double
    0 => 0
    -0 => 0
    1E2 => 100
    99.99999999999999999999 => 99.99999999999999999999
    100.00000000000000000001 => 100.00000000000000000001 !AboveMaximum
    -1e-300 => -1e-300 !BelowMinimum
    1e3 => 1000 !AboveMaximum
    INF => INF !AboveMaximum
    -INF => -INF !BelowMinimum
    1.5.5 => !BadDouble
{"base":"double","minInclusive":"-1.5E-7"} : double
    -1.5e-7 => -1.5e-7
    -0.00000015 => -1.5e-7
    -0.000000151 => -1.51e-7 !BelowMinimum
    INF => INF
    NaN => NaN !BelowMinimum
{"base":"float","maxInclusive":"3.4E38"} : float
    3.4E38 => 3.4e38
    3.41E38 => 3.41e38 !AboveMaximum
    -INF => -INF
    NaN => NaN !AboveMaximum
{"base":"double","minExclusive":"0"} : double
    0 => 0 !BelowMinimum
    -0.0 => 0 !BelowMinimum
    1e-400 => 1e-400
{"base":"double","maxExclusive":1000000} : double
    999999.9 => 999999.9
    1e6 => 1000000 !AboveMaximum
    1E7 => 10000000 !AboveMaximum
{"base":"double","minimum":"-INF","maximum":"INF"} : double
    -INF => -INF
    1e300 => 1e300
    INF => INF
{"base":"double","minExclusive":"-INF","maxExclusive":"INF"} : double
    -INF => -INF !BelowMinimum
    -1e300 => -1e300
    INF => INF !AboveMaximum
{"base":"double","minimum":1,"minInclusive":"10E-1"} : double
    1 => 1
    0.9 => 0.9 !BelowMinimum
{"base":"double","minimum":"NaN"} : double
    0 => 0 !BelowMinimum
    NaN => NaN !BelowMinimum
"#;

/// Bounds that no number can have.
const REFUSED: &str = r#"
{"base":"double","minimum":"a"} => BadDatatype /minimum
{"base":"number","maximum":"1,5"} => BadDatatype /maximum
{"base":"number","maximum":true} => BadProperty /maximum
{"base":"number","maximum":1.5} => NotSupported /maximum
{"base":"double","minimum":"1E1","maximum":"9.99"} => BadDatatype
{"base":"double","minimum":1,"minInclusive":2} => BadDatatype
{"base":"double","minimum":"1","maxExclusive":"1.0"} => BadDatatype
{"base":"double","minimum":"NaN","maximum":"1"} => BadDatatype
{"base":"double","minLength":1} => BadDatatype /minLength
"#;

#[test]
fn doubles_have_bounds(rt: HostRuntime) -> Result<(), Fail> {
    each_cell(&rt, rt.alloc(), &Check::Columns(Profile::W3c), BOUNDED)?;
    Ok(())
}

#[test]
fn other_bounds_are_refused(rt: HostRuntime) -> Result<(), Fail> {
    each_refusal(&rt, rt.alloc(), Profile::W3c, REFUSED)?;
    Ok(())
}
