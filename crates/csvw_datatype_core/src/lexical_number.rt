//! The lexical form of a number.
ghost use Rattle.std.specs.Prelude.{◌≡◌, ◌≤◌, ◌+◌, ◌*◌, ◌/◌, ◌^◌, ◌<◌, ◌++◌, IfOk, OnOk, OnErr};
ghost use Rattle.std.specs.Prelude.{string_bytes, unsigned_abs, List, ℕ, ℤ, [], ◌∷◌, if◌then◌else◌, encode_utf8_all};
ghost use Rattle.std.specs.Fmt.{decimal};
ghost use Rattle.std.specs.Str.{chars};
ghost use Rattle.csvw_datatype_core.specs.LexicalNumbers.{AppendsPart, IsLexicalNumber};
ghost use Rattle.csvw_datatype_core.specs.Forms.{number_form};

use crate::ascii::push_ascii;
use csvw_text::Text;
use itoa::Buffer;
use std::alloc::{AllocError, Global};

const UNIT: u128 = 1_000_000_000_000_000_000;

/// `UNIT` is 2^18 times this number, which is 5^18.
const FIVES: u64 = 3_814_697_265_625;

const TWOS: u128 = 262_144;

/// The weight of the first digit after the point.
const TENTH: u64 = 100_000_000_000_000_000;

/// Writes the lexical form of a number over a text, in its memory.
///
/// The number is in units of 10^-18, below 10^38 of them in size. The form has `-` only below zero, no zero that
/// could be left out, and no point if the number is whole. Returns `AllocError` if memory runs out.
pub fn refill_number(out: &mut Text, number: i128) -> Result<(), AllocError>
    requires { unsigned_abs number < 10 ^ 38 }
    ensures { OnOk result (out.new ≡ number_form number) }
{
    let count = number.unsigned_abs();
    let whole = whole_part(count);
    refill_sign(out, number < 0)?;
    push_decimal(out, whole)?;
    push_fraction(out, (count - whole * UNIT) as u64)?;
    Ok(())
}

/// Returns how many times `UNIT` goes into a count. A number below 4,800,000 is divided in 64 bits, which takes a
/// tenth of the time.
#[inline(always)]
fn whole_part(count: u128) -> u128
    ensures { result ≡ count / 10 ^ 18 }
{
    let high = count / TWOS;
    if high <= u64::MAX as u128 {
        (high as u64 / FIVES) as u128
    } else {
        count / UNIT
    }
}

/// Returns the lexical form of a number.
///
/// The number is in units of 10^-18, below 10^38 of them in size. The form has `-` only below zero, no zero that
/// could be left out, and no point if the number is whole. Returns `AllocError` if memory runs out.
pub fn number_text(alloc: Global, number: i128) -> Result<String, AllocError>
    requires { unsigned_abs number < 10 ^ 38 }
    ensures form { IfOk result (λ s. IsLexicalNumber (chars (string_bytes s)) number) }
    ensures text { IfOk result (λ s. string_bytes s ≡ number_form number) }
{
    let mut out = Text::new(alloc);
    refill_number(&mut out, number)?;
    Ok(out.into_string())
}

/// Replaces the text by the sign alone.
fn refill_sign(out: &mut Text, negative: bool) -> Result<(), AllocError>
    ensures { OnOk result (out.new ≡ (if negative then 45 ∷ [] else [])) }
{
    out.refill(if negative { "-" } else { "" })
}

fn push_decimal(out: &mut Text, n: u128) -> Result<(), AllocError>
    ensures { OnOk result (out.new ≡ out.old ++ decimal n) }
{
    let mut digits = Buffer::new();
    out.push_str(digits.format(n))
}

/// Adds a point and the digits of a fraction up to the last that isn't 0. Adds nothing if the fraction is 0.
fn push_fraction(out: &mut Text, fraction: u64) -> Result<(), AllocError>
    requires { fraction < 10 ^ 18 }
    ensures { OnOk result (AppendsPart out.old out.new fraction) }
{
    if fraction == 0 {
        return Ok(());
    }
    let mut digits = [b'.'; 19];
    let mut len = 1;
    let mut rest = fraction;
    while rest > 0 {
        digits[len] = 48 + (rest / TENTH) as u8;
        len += 1;
        rest = rest % TENTH * 10;
    }
    push_ascii(out, &digits[..len])?;
    Ok(())
}

/// A law: a number has one text in its lexical form.
pub fn one_number_text()
    ensures { (cs ds : List ℕ) (z : ℤ) → IsLexicalNumber cs z → IsLexicalNumber ds z → cs ≡ ds }
{}

/// A law: the lexical form of a number below 10^38 units in size is the text that a function returns, and no other.
/// Its bytes are its characters.
pub fn number_forms()
    ensures form { (text : List ℕ) (z : ℤ) → unsigned_abs z < 10 ^ 38 → IsLexicalNumber text z → text ≡ number_form z }
    ensures lexical { (z : ℤ) → unsigned_abs z < 10 ^ 38 → IsLexicalNumber (chars (number_form z)) z }
    ensures bytes { (z : ℤ) → unsigned_abs z < 10 ^ 38 → encode_utf8_all (number_form z) ≡ number_form z }
{}
