//! The codes and the kinds of faults, by their names.
ghost use Rattle.std.specs.Prelude.{◌≡◌, MatchOption, bytes_eq, false};
ghost use Rattle.std.specs.List.{list_any};
ghost use Rattle.csvw_fault.specs.Code.{name_of};
ghost use Rattle.csvw_fault.specs.declared.fault.Code.{Code as TheCode};
ghost use Rattle.csvw_fault.specs.declared.fault.Kind.{Kind as TheKind};
ghost use Rattle.csvw_report.specs.Report.{kind_name};

use csvw_text::{Code, Kind};

/// All codes, in their order.
pub(crate) const CODES: [Code; 26] = [
    Code::UnknownProperty,
    Code::HeaderMissing,
    Code::HeaderCount,
    Code::HeaderMismatch,
    Code::Required,
    Code::BadBoolean,
    Code::BadInteger,
    Code::BadDecimal,
    Code::NumberTooLong,
    Code::OutOfRange,
    Code::BadDate,
    Code::BadDateTime,
    Code::BadDouble,
    Code::BadTime,
    Code::BadText,
    Code::BadDuration,
    Code::WrongLength,
    Code::TooShort,
    Code::TooLong,
    Code::BelowMinimum,
    Code::AboveMaximum,
    Code::BadUrl,
    Code::UrlTooLong,
    Code::DuplicateKey,
    Code::NoReferencedRow,
    Code::ManyReferencedRows,
];

/// Returns the first of the codes that has a name.
fn find_code(codes: &[Code], name: &[u8]) -> Option<Code>
    ensures { MatchOption result (list_any (λ c. bytes_eq (name_of c) name.now) codes.now ≡ false) (λ code. name.now ≡ name_of code) }
{
    for code in codes {
        if code.name().as_bytes() == name {
            return Some(*code);
        }
    }
    None
}

/// Returns the code of a name.
pub(crate) fn code_named(name: &[u8]) -> Option<Code>
    ensures { MatchOption result ((code : TheCode) → name.now ≡ name_of code → ⊥) (λ code. name.now ≡ name_of code) }
{
    find_code(&CODES, name)
}

/// Returns the kind of a name.
pub(crate) fn kind_named(name: &[u8]) -> Option<Kind>
    ensures { MatchOption result ((kind : TheKind) → name.now ≡ kind_name kind → ⊥) (λ kind. name.now ≡ kind_name kind) }
{
    if name == b"error".as_slice() {
        Some(Kind::Error)
    } else if name == b"warning".as_slice() {
        Some(Kind::Warning)
    } else {
        None
    }
}
