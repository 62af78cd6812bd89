//! What is wrong with a cell: each code once, in their order.
ghost use Rattle.std.specs.Prelude.{◌≡◌, ◌++◌, IfOk, OnOk, bytes_eq, filter};
ghost use Rattle.csvw_fault.specs.Code as code;
ghost use Rattle.csvw_cell.specs.Codes.{is_among, in_order, told, broken_codes};
ghost use Rattle.csvw_cell.specs.CellOf.{missing};

use csvw_columns_core::Properties;
use csvw_datatype::Broken;
use csvw_text::{Code, Seq};
use std::alloc::{AllocError, Global};

/// The codes that a cell may have, in their order.
const CELL_CODES: [Code; 17] = [
    Code::Required,
    Code::BadBoolean,
    Code::BadInteger,
    Code::BadDecimal,
    Code::NumberTooLong,
    Code::OutOfRange,
    Code::BadDate,
    Code::BadDateTime,
    Code::BadDouble,
    Code::BadTime,
    Code::BadText,
    Code::BadDuration,
    Code::WrongLength,
    Code::TooShort,
    Code::TooLong,
    Code::BelowMinimum,
    Code::AboveMaximum,
];

fn is_among(causes: &[Code], code: Code) -> bool
    ensures { result ≡ is_among causes.now code }
{
    causes.iter().any(|cause| cause.name() == code.name())
}

fn chosen(alloc: Global, codes: &[Code], causes: &[Code]) -> Result<Seq<Code>, AllocError>
    ensures { IfOk result (λ s. s ≡ filter (is_among causes.now) codes.now) }
{
    let mut found = Seq::new(alloc);
    for code in codes {
        if is_among(causes, *code) {
            found.push(*code)?;
        }
    }
    Ok(found)
}

/// Returns each code of a list once, in their order. It takes no memory if the list is empty. Returns `AllocError` if
/// memory runs out.
pub fn in_order(alloc: Global, causes: &[Code]) -> Result<Seq<Code>, AllocError>
    ensures { IfOk result (λ s. s ≡ in_order causes.now) }
{
    if causes.is_empty() {
        return Ok(Seq::new(alloc));
    }
    chosen(alloc, &CELL_CODES, causes)
}

fn tell(codes: &mut Seq<Code>, broken: bool, code: Code) -> Result<(), AllocError>
    ensures { OnOk result (codes.new ≡ codes.old ++ told broken code) }
{
    if broken {
        codes.push(code)?;
    }
    Ok(())
}

/// Returns the codes of the facets that a value breaks, or `AllocError` if memory runs out.
pub fn broken_codes(alloc: Global, broken: Broken) -> Result<Seq<Code>, AllocError>
    ensures { IfOk result (λ s. s ≡ broken_codes broken) }
{
    let mut codes = Seq::new(alloc);
    tell(&mut codes, broken.wrong_length, Code::WrongLength)?;
    tell(&mut codes, broken.too_short, Code::TooShort)?;
    tell(&mut codes, broken.too_long, Code::TooLong)?;
    tell(&mut codes, broken.below_minimum, Code::BelowMinimum)?;
    tell(&mut codes, broken.above_maximum, Code::AboveMaximum)?;
    Ok(codes)
}

/// Returns what is wrong with a cell without a value: `Required` if the column asks for a value.
pub(crate) fn missing(alloc: Global, properties: &Properties) -> Result<Seq<Code>, AllocError>
    ensures { IfOk result (λ s. s ≡ missing properties.now) }
{
    let mut codes = Seq::new(alloc);
    if properties.required {
        codes.push(Code::Required)?;
    }
    Ok(codes)
}
