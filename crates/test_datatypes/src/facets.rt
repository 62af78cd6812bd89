//! Facets: cells that break them, and facets that no datatype can have.

/// Datatypes with facets, and cells of columns that have them.
pub(crate) const FACETS: &str = r#"
{"base":"string","length":1} : string
    é => é
    éé => éé !WrongLength
{"minLength":2,"maxLength":3} : string
    a => a !TooShort
    ab => ab
    abc => abc
    abcd => abcd !TooLong
{"base":"integer","minimum":5} : integer
    5 => 5
    4 => 4 !BelowMinimum
    x => !BadInteger
{"base":"integer","minInclusive":"5","maxExclusive":7} : integer
    4 => 4 !BelowMinimum
    5 => 5
    6 => 6
    7 => 7 !AboveMaximum
{"base":"integer","minExclusive":-5,"maxInclusive":"-3"} : integer
    -5 => -5 !BelowMinimum
    -4 => -4
    -3 => -3
    -2 => -2 !AboveMaximum
{"base":"decimal","format":{"decimalChar":"."},"maximum":"1.5"} : decimal
    -25% => -0.25
    1.500 => 1.5
    2.0 => 2 !AboveMaximum
{"base":"decimal","minimum":18446744073709551615} : decimal
    18446744073709551614.5 => 18446744073709551614.5 !BelowMinimum
    18446744073709551615.0 => 18446744073709551615
{"base":"byte","maxInclusive":100} : byte
    100 => 100
    101 => 101 !AboveMaximum
    128 => !OutOfRange
{"base":"date","format":"dd/MM/yyyy","minimum":"2024-01-01"} : date
    31/12/2023 => 2023-12-31 !BelowMinimum
    01/01/2024 => 2024-01-01
{"base":"dateTime","maximum":"2024-01-01T00:00:00"} : dateTime
    2024-01-01T00:00:00 => 2024-01-01T00:00:00
    2024-01-01T00:00:01 => 2024-01-01T00:00:01 !AboveMaximum
{"base":"integer","minExclusive":1,"maxExclusive":1} : integer
{"base":"integer","minimum":1,"minInclusive":"01"} : integer
    1 => 1
"#;

/// Datatypes whose facets are refused.
pub(crate) const REFUSED_FACETS: &str = r#"
{"minLength":2,"maxLength":1} => BadDatatype
{"length":1,"minLength":2} => BadDatatype
{"length":3,"maxLength":2} => BadDatatype
{"base":"integer","length":3} => BadDatatype /length
{"base":"anyURI","maxLength":3} => BadDatatype /maxLength
{"minimum":"a"} => BadDatatype /minimum
{"base":"boolean","maxExclusive":1} => BadDatatype /maxExclusive
{"base":"unsignedByte","maximum":256} => BadDatatype /maximum
{"base":"byte","minExclusive":"-129"} => BadDatatype /minExclusive
{"base":"integer","minimum":1,"minExclusive":0} => BadDatatype
{"base":"integer","maxInclusive":1,"maxExclusive":2} => BadDatatype
{"base":"integer","minimum":1,"minInclusive":2} => BadDatatype
{"base":"integer","minimum":2,"maximum":1} => BadDatatype
{"base":"integer","minExclusive":1,"maximum":1} => BadDatatype
{"base":"integer","minimum":1,"maxExclusive":1} => BadDatatype
{"base":"integer","minimum":"1.0"} => BadDatatype /minimum
{"base":"decimal","format":{},"minimum":"5%"} => BadDatatype /minimum
{"base":"date","format":"dd/MM/yyyy","minimum":"01/01/2024"} => BadDatatype /minimum
{"base":"date","minimum":20240101} => BadProperty /minimum
{"base":"dateTime","maximum":"2024-01-01"} => BadDatatype /maximum
{"base":"integer","minimum":true} => BadProperty /minimum
{"base":"integer","maximum":1.5} => NotSupported /maximum
{"length":"3"} => BadProperty /length
{"length":-1} => BadProperty /length
{"maxLength":1.5} => NotSupported /maxLength
{"base":"float","minimum":1} => NotSupported /base
"#;
