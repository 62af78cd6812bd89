//! The one text of a number.
ghost use Rattle.std.specs.Prelude.{◌≡◌, ◌≤◌, ◌<◌, ◌^◌, ◌≢◌, ◌++◌, ◌∷◌, [], IfOk, OnOk, replicate, neg_ℤ, pos, length, ◌≤ℤ◌};
ghost use Rattle.std.specs.Fmt.{signed_decimal};
ghost use Rattle.std.specs.Str.{IsAscii};
ghost use Rattle.csvw_double.specs.Forms.{IsNear, is_plain, number_form, plain_form, scientific_form, unsigned_form, whole_form};

use csvw_text::Text;
use itoa::Buffer;
use std::alloc::{AllocError, Global};

/// As many zeros as a number in digits alone may have before or after its digits, and more.
const ZEROS: [u8; 21] = [b'0'; 21];

/// How many bytes most texts have beside their digits, and some more: a sign, a point and zeros.
const ROOM: usize = 8;

/// Returns the bytes as a text.
fn as_text(bytes: &[u8]) -> &str
    requires { IsAscii bytes.now }
    ensures { result.now ≡ bytes.now }
{
    unsafe { str::from_utf8_unchecked(bytes) }
}

/// Adds so many zeros.
fn push_zeros(out: &mut Text, count: usize) -> Result<(), AllocError>
    requires { count ≤ 21 }
    ensures { OnOk result (out.new ≡ out.old ++ replicate count 48) }
{
    out.push_str(as_text(&ZEROS[..count]))
}

/// Adds digits with a point before the last ones, or with zeros behind them. The point is so many places after the first.
fn push_whole(out: &mut Text, digits: &[u8], point: usize) -> Result<(), AllocError>
    requires ascii { IsAscii digits.now }
    requires near { point ≤ 21 }
    ensures { OnOk result (out.new ≡ out.old ++ whole_form digits.now point) }
{
    if point >= digits.len() {
        out.push_str(as_text(digits))?;
        return push_zeros(out, point - digits.len());
    }
    let (whole, fraction) = digits.split_at(point);
    out.push_str(as_text(whole))?;
    out.push_str(".")?;
    out.push_str(as_text(fraction))
}

/// Adds a number in digits alone. The point is so many places after the start of the digits, or before it.
fn push_plain(out: &mut Text, digits: &[u8], point: i128) -> Result<(), AllocError>
    requires ascii { IsAscii digits.now }
    requires from { neg_ℤ (pos 21) ≤ℤ point }
    requires to { point ≤ℤ pos 21 }
    ensures { OnOk result (out.new ≡ out.old ++ plain_form digits.now point) }
{
    if point > 0 {
        return push_whole(out, digits, point as usize);
    }
    out.push_str("0.")?;
    push_zeros(out, (-point) as usize)?;
    out.push_str(as_text(digits))
}

/// Adds a number with an exponent.
fn push_scientific(out: &mut Text, digits: &[u8], exponent: i128) -> Result<(), AllocError>
    requires { IsAscii digits.now }
    ensures { OnOk result (out.new ≡ out.old ++ scientific_form digits.now exponent) }
{
    let (first, rest) = digits.split_at(1.min(digits.len()));
    out.push_str(as_text(first))?;
    if !rest.is_empty() {
        out.push_str(".")?;
        out.push_str(as_text(rest))?;
    }
    out.push_str("e")?;
    let mut buffer = Buffer::new();
    out.push_str(buffer.format(exponent))
}

/// Whether a number is written in digits alone: it is from 10^-6 to below 10^21 in size.
fn is_plain(point: i128) -> bool
    ensures { result ≡ is_plain point }
{
    -5 <= point && point <= 21
}

/// Adds a number above 0. The point is so many places after the start of the digits, or before it.
fn push_unsigned(out: &mut Text, digits: &[u8], point: i128) -> Result<(), AllocError>
    requires ascii { IsAscii digits.now }
    requires near { IsNear point }
    ensures { OnOk result (out.new ≡ out.old ++ unsigned_form digits.now point) }
{
    if is_plain(point) {
        push_plain(out, digits, point)
    } else {
        push_scientific(out, digits, point - 1)
    }
}

/// What a number is written by.
#[derive(Clone, Copy)]
pub(crate) struct Digits<'a> {
    /// Whether the number is below 0.
    pub(crate) is_negative: bool,
    /// The digits, of which the first and the last aren't 0. There is none if the number is 0.
    pub(crate) digits: &'a [u8],
    /// How many places the point is after the start of the digits, or before it.
    pub(crate) point: i128,
}

/// Returns the one text of a number. Returns `AllocError` if memory runs out.
pub(crate) fn number_text(alloc: Global, number: Digits<'_>) -> Result<Text, AllocError>
    requires ascii { IsAscii number.digits.now }
    requires near { IsNear number.point }
    ensures { IfOk result (λ text. text ≡ number_form number.entry.is_negative number.entry.digits.now number.entry.point) }
{
    if number.digits.is_empty() {
        return Text::copied(alloc, "0");
    }
    let mut out = Text::of(String::with_capacity(alloc, number.digits.len() + ROOM)?);
    out.push_str(if number.is_negative { "-" } else { "" })?;
    push_unsigned(&mut out, number.digits, number.point)?;
    Ok(out)
}
