//! `Fault`: what is wrong with a table, a row or a cell, with its place.
ghost use Rattle.std.specs.Prelude.{◌≡◌};
ghost use Rattle.csvw_fault.specs.Code.{name_of};

use std::error::Error;
use std::fmt;

/// The place of a fault. A number is 0 if the fault has no such place.
#[derive(Clone, Copy, Debug, PartialEq, Eq, PartialOrd, Ord)]
pub struct Place {
    /// The number of the table in its group, from 1.
    pub table: u32,
    /// The number of the row in its source, from 1. Skipped rows, comments and blank rows count.
    pub row: u64,
    /// The number of the column, from 1. Skipped columns don't count.
    pub column: u32,
}

/// Says whether a fault makes its group invalid.
#[derive(Clone, Copy, Debug, PartialEq, Eq, PartialOrd, Ord)]
pub enum Kind {
    /// The fault makes its group invalid.
    Error,
    /// The fault leaves the group valid.
    Warning,
}

/// Says what is wrong.
#[derive(Clone, Copy, Debug, PartialEq, Eq, PartialOrd, Ord)]
pub enum Code {
    /// The vocabulary doesn't list a property of the metadata. This is the one warning.
    UnknownProperty,
    /// The table has fewer header rows than the dialect says.
    HeaderMissing,
    /// A header row does not have one cell for each column.
    HeaderCount,
    /// A header cell is not a title of its column.
    HeaderMismatch,
    /// A required cell has no value.
    Required,
    /// The text is not a boolean of the column's format.
    BadBoolean,
    /// The text is not an integer. The column is of integers or of a type derived from them.
    BadInteger,
    /// The text is not a decimal of the column's format.
    BadDecimal,
    /// The number is 10^20 or more in size, or finer than 10^-18. The exponent of a double has more than 18 digits.
    NumberTooLong,
    /// The number is outside the range of its derived type.
    OutOfRange,
    /// The text is not a date of the column's format.
    BadDate,
    /// The text is not a date with a time of day of the column's format.
    BadDateTime,
    /// The text is not a number with an exponent, nor `INF`, `-INF` or `NaN`. The column is of doubles or floats.
    BadDouble,
    /// The text is not a time of day of the column's format.
    BadTime,
    /// The text is not written as texts of its type are. The column is of a type as `language`, `Name` or `hexBinary`.
    BadText,
    /// The text is not a duration, or not one of its datatype.
    BadDuration,
    /// The text does not have the length that the facet `length` says.
    WrongLength,
    /// The text is shorter than the facet `minLength` says.
    TooShort,
    /// The text is longer than the facet `maxLength` says.
    TooLong,
    /// The value is below the least value that the facets allow.
    BelowMinimum,
    /// The value is above the greatest value that the facets allow.
    AboveMaximum,
    /// The link is not a URL.
    BadUrl,
    /// The text of the link is longer than its limit.
    UrlTooLong,
    /// An earlier row has the same primary key.
    DuplicateKey,
    /// No row has the key that a foreign key refers to.
    NoReferencedRow,
    /// More than one row has the key that a foreign key refers to.
    ManyReferencedRows,
}

impl Code {
    /// Returns what is wrong and what to do, as a sentence without its full stop.
    fn sentence(&self) -> &'static str {
        match self {
            Code::UnknownProperty => "no such property is known: correct its name, or remove it",
            Code::HeaderMissing => "header rows are missing: add them, or correct `headerRowCount`",
            Code::HeaderCount => "a header row has not one cell for each column: correct it",
            Code::HeaderMismatch => "a header cell is no title of its column: correct one of them",
            Code::Required => "a cell that is required has no value: fill it in",
            Code::BadBoolean => "the text is no boolean: write one that `format` allows",
            Code::BadInteger => "the text is no integer: write digits, with a sign where needed",
            Code::BadDecimal => "the text is no decimal: write it as `format` spells numbers",
            Code::NumberTooLong => "the number is 10^20 or more, or finer than 10^-18: round it",
            Code::OutOfRange => "the number is outside its datatype: correct one of them",
            Code::BadDate => "the text is no date: write a day as `format` spells it",
            Code::BadDateTime => "the text is no date and time: write one as `format` spells it",
            Code::BadDouble => "the text is no double: write digits, as in 1.5E3, or INF or NaN",
            Code::BadTime => "the text is no time of day: write one as `format` spells it",
            Code::BadText => "the text is none of its datatype: write it as the datatype asks",
            Code::BadDuration => "the text is no duration: write one as in P1Y2M or P3DT4H5M6S",
            Code::WrongLength => "the value has another length than `length` says: correct it",
            Code::TooShort => "the value is shorter than `minLength` says: lengthen it",
            Code::TooLong => "the value is longer than `maxLength` says: shorten it",
            Code::BelowMinimum => "the value is below the least that is allowed: correct it",
            Code::AboveMaximum => "the value is above the greatest that is allowed: correct it",
            Code::BadUrl => "the text of a link is no URL: correct the cell or the template",
            Code::UrlTooLong => "the text of a link is over 65,536 bytes: shorten it",
            Code::DuplicateKey => "an earlier row has the same primary key: change one of them",
            Code::NoReferencedRow => "no row has this key: correct the foreign key, or add the row",
            Code::ManyReferencedRows => "several rows have this key: leave one of them",
        }
    }
}

impl fmt::Display for Code {
    fn fmt<W: fmt::Write>(&self, f: &mut fmt::Formatter<W>) -> fmt::Result {
        f.write_str(self.sentence())
    }
}

impl Error for Code {}

/// Something wrong at a place. Faults are ordered by table, row, column, code and kind.
#[derive(Clone, Copy, Debug, PartialEq, Eq, PartialOrd, Ord)]
pub struct Fault {
    /// The place of the fault.
    pub place: Place,
    /// What is wrong.
    pub code: Code,
    /// Says whether the fault makes its group invalid.
    pub kind: Kind,
}

impl Code {
    /// Returns the name of the variant, as reports spell it.
    pub fn name(&self) -> &'static str
        ensures { result.now ≡ name_of self.now }
    {
        match self {
            Code::UnknownProperty => "UnknownProperty",
            Code::HeaderMissing => "HeaderMissing",
            Code::HeaderCount => "HeaderCount",
            Code::HeaderMismatch => "HeaderMismatch",
            Code::Required => "Required",
            Code::BadBoolean => "BadBoolean",
            Code::BadInteger => "BadInteger",
            Code::BadDecimal => "BadDecimal",
            Code::NumberTooLong => "NumberTooLong",
            Code::OutOfRange => "OutOfRange",
            Code::BadDate => "BadDate",
            Code::BadDateTime => "BadDateTime",
            Code::BadDouble => "BadDouble",
            Code::BadTime => "BadTime",
            Code::BadText => "BadText",
            Code::BadDuration => "BadDuration",
            Code::WrongLength => "WrongLength",
            Code::TooShort => "TooShort",
            Code::TooLong => "TooLong",
            Code::BelowMinimum => "BelowMinimum",
            Code::AboveMaximum => "AboveMaximum",
            Code::BadUrl => "BadUrl",
            Code::UrlTooLong => "UrlTooLong",
            Code::DuplicateKey => "DuplicateKey",
            Code::NoReferencedRow => "NoReferencedRow",
            Code::ManyReferencedRows => "ManyReferencedRows",
        }
    }
}
