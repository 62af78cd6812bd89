//! The ranges of the derived integers, and the formats of dates.

/// Each type at both ends of its range, and beyond them.
pub(crate) const RANGES: &str = r#"
"long" : long
    -9223372036854775808 => -9223372036854775808
    9223372036854775807 => 9223372036854775807
    -9223372036854775809 => !OutOfRange
    9223372036854775808 => !OutOfRange
"int" : int
    -2147483648 => -2147483648
    2147483647 => 2147483647
    -2147483649 => !OutOfRange
    2147483648 => !OutOfRange
"short" : short
    -32768 => -32768
    32767 => 32767
    -32769 => !OutOfRange
    32768 => !OutOfRange
"byte" : byte
    -128 => -128
    127 => 127
    -129 => !OutOfRange
    128 => !OutOfRange
"unsignedLong" : unsignedLong
    0 => 0
    18446744073709551615 => 18446744073709551615
    -1 => !OutOfRange
    18446744073709551616 => !OutOfRange
"unsignedInt" : unsignedInt
    0 => 0
    4294967295 => 4294967295
    -1 => !OutOfRange
    4294967296 => !OutOfRange
"unsignedShort" : unsignedShort
    0 => 0
    65535 => 65535
    -1 => !OutOfRange
    65536 => !OutOfRange
"unsignedByte" : unsignedByte
    0 => 0
    255 => 255
    -1 => !OutOfRange
    256 => !OutOfRange
"#;

/// Each format with a day that exists, and one that doesn't.
pub(crate) const DATES: &str = r#"
{"base":"date","format":"yyyy-MM-dd"} : date
    2024-02-29 => 2024-02-29
    2023-02-29 => !BadDate
{"base":"date","format":"yyyyMMdd"} : date
    20240229 => 2024-02-29
    20230229 => !BadDate
{"base":"date","format":"dd-MM-yyyy"} : date
    29-02-2024 => 2024-02-29
    29-02-2023 => !BadDate
{"base":"date","format":"d-M-yyyy"} : date
    29-2-2024 => 2024-02-29
    29-2-2023 => !BadDate
{"base":"date","format":"MM-dd-yyyy"} : date
    02-29-2024 => 2024-02-29
    02-29-2023 => !BadDate
{"base":"date","format":"M-d-yyyy"} : date
    2-29-2024 => 2024-02-29
    2-29-2023 => !BadDate
{"base":"date","format":"dd/MM/yyyy"} : date
    29/02/2024 => 2024-02-29
    29/02/2023 => !BadDate
{"base":"date","format":"d/M/yyyy"} : date
    29/2/2024 => 2024-02-29
    29/2/2023 => !BadDate
{"base":"date","format":"MM/dd/yyyy"} : date
    02/29/2024 => 2024-02-29
    02/29/2023 => !BadDate
{"base":"date","format":"M/d/yyyy"} : date
    2/29/2024 => 2024-02-29
    2/29/2023 => !BadDate
{"base":"date","format":"dd.MM.yyyy"} : date
    29.02.2024 => 2024-02-29
    29.02.2023 => !BadDate
{"base":"date","format":"d.M.yyyy"} : date
    29.2.2024 => 2024-02-29
    29.2.2023 => !BadDate
{"base":"date","format":"MM.dd.yyyy"} : date
    02.29.2024 => 2024-02-29
    02.29.2023 => !BadDate
{"base":"date","format":"M.d.yyyy"} : date
    2.29.2024 => 2024-02-29
    2.29.2023 => !BadDate
"#;
