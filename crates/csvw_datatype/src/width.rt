//! The ranges of the derived integer types.
ghost use Rattle.std.specs.Prelude.{◌≡◌, ◌↔◌, ◌*ℤ◌, ◌≤ℤ◌, pos, IsTrue, ℤ};
ghost use Rattle.csvw_datatype.specs.Widths.{least, greatest, in_units, IsFrom, IsTo, IsInWidth};

use crate::simple::Width;

/// The number of units of 10^-18 in one.
pub(crate) const UNIT: i128 = 1_000_000_000_000_000_000;

/// Returns whether a number in units of 10^-18 is in the range of a type.
pub(crate) fn is_in_width(width: Width, number: i128) -> bool
    ensures { IsTrue result ↔ IsInWidth width number }
{
    is_from(least(width), number) && is_to(greatest(width), number)
}

fn is_from(low: Option<i128>, number: i128) -> bool
    ensures { IsTrue result ↔ IsFrom low number }
{
    match low {
        None => true,
        Some(low) => low <= number,
    }
}

fn is_to(high: Option<i128>, number: i128) -> bool
    ensures { IsTrue result ↔ IsTo high number }
{
    match high {
        None => true,
        Some(high) => number <= high,
    }
}

fn least(width: Width) -> Option<i128>
    ensures { result ≡ in_units (least width) }
{
    match width {
        Width::Long => Some(i64::MIN as i128 * UNIT),
        Width::Int => Some(i32::MIN as i128 * UNIT),
        Width::Short => Some(i16::MIN as i128 * UNIT),
        Width::Byte => Some(i8::MIN as i128 * UNIT),
        Width::UnsignedLong
        | Width::UnsignedInt
        | Width::UnsignedShort
        | Width::UnsignedByte
        | Width::NonNegativeInteger => Some(0),
        Width::PositiveInteger => Some(UNIT),
        Width::NonPositiveInteger | Width::NegativeInteger => None,
    }
}

fn greatest(width: Width) -> Option<i128>
    ensures { result ≡ in_units (greatest width) }
{
    match width {
        Width::Long => Some(i64::MAX as i128 * UNIT),
        Width::Int => Some(i32::MAX as i128 * UNIT),
        Width::Short => Some(i16::MAX as i128 * UNIT),
        Width::Byte => Some(i8::MAX as i128 * UNIT),
        Width::UnsignedLong => Some(u64::MAX as i128 * UNIT),
        Width::UnsignedInt => Some(u32::MAX as i128 * UNIT),
        Width::UnsignedShort => Some(u16::MAX as i128 * UNIT),
        Width::UnsignedByte => Some(u8::MAX as i128 * UNIT),
        Width::NonNegativeInteger | Width::PositiveInteger => None,
        Width::NonPositiveInteger => Some(0),
        Width::NegativeInteger => Some(-UNIT),
    }
}
