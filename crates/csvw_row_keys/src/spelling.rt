//! The spelling of keys as text.
ghost use Rattle.std.specs.Prelude.{◌≡◌, ◌<◌, ◌++◌, ◌∷◌, OnOk, codes, flat_map};
ghost use Rattle.csvw_row_keys.specs.Spelling.{is_escaped, hex_digit, byte_spelling, digits_spelling, number_spelling};
ghost use Rattle.csvw_row_keys.specs.Spelling.{value_front, value_spelling, cell_spelling, spelling};

use csvw_datatype::Value;
use csvw_keys::{Key, KeyCell};
use itoa::Buffer;
use std::alloc::AllocError;

/// Whether a byte of a text is not spelled as itself.
fn is_escaped(byte: u8) -> bool
    ensures { result ≡ is_escaped byte }
{
    byte < 33 || byte == b'"' || byte == b'%' || byte == b',' || byte == b';' || byte == 127
}

/// Returns the character of a hexadecimal digit.
fn hex_digit(digit: u8) -> u8
    requires { digit < 16 }
    ensures { result ≡ hex_digit digit }
{
    if digit < 10 {
        b'0' + digit
    } else {
        b'A' - 10 + digit
    }
}

/// Adds the spelling of a byte of a text.
fn push_byte(byte: u8, text: &mut Vec<u8>) -> Result<(), AllocError>
    ensures { OnOk result (text.new.items ≡ text.old.items ++ byte_spelling byte) }
{
    if is_escaped(byte) {
        text.extend_from_slice(&[b'%', hex_digit(byte / 16), hex_digit(byte % 16)])
    } else {
        text.extend_from_slice(&[byte])
    }
}

/// Adds the spelling of a text.
fn push_text(bytes: &[u8], text: &mut Vec<u8>) -> Result<(), AllocError>
    ensures { OnOk result (text.new.items ≡ text.old.items ++ flat_map byte_spelling bytes.now) }
{
    for byte in bytes {
        push_byte(*byte, text)?;
    }
    Ok(())
}

/// Adds the decimal digits of a number. 0 has none.
fn push_digits(size: u128, text: &mut Vec<u8>) -> Result<(), AllocError>
    ensures { OnOk result (text.new.items ≡ text.old.items ++ digits_spelling size) }
{
    if size == 0 {
        return Ok(());
    }
    let mut buffer = Buffer::new();
    text.extend_from_slice(buffer.format(size).as_bytes())
}

/// Adds the spelling of a number.
fn push_number(number: i128, text: &mut Vec<u8>) -> Result<(), AllocError>
    ensures { OnOk result (text.new.items ≡ text.old.items ++ number_spelling number) }
{
    if number < 0 {
        text.push(b'-')?;
    }
    push_digits(number.unsigned_abs(), text)
}

/// Adds the letter of a number's kind and the spelling of the number.
fn push_kind(letter: u8, number: i128, text: &mut Vec<u8>) -> Result<(), AllocError>
    ensures { OnOk result (text.new.items ≡ text.old.items ++ letter ∷ number_spelling number) }
{
    text.push(letter)?;
    push_number(number, text)
}

/// Adds the letter of a value's kind and what follows it.
fn push_front(value: &Value, text: &mut Vec<u8>) -> Result<(), AllocError>
    ensures { OnOk result (text.new.items ≡ text.old.items ++ value_front value.now) }
{
    match value {
        Value::Text(value) => {
            text.push(b's')?;
            push_text(value.as_str().as_bytes(), text)
        }
        Value::Truth(true) => text.extend_from_slice(b"b1"),
        Value::Truth(false) => text.extend_from_slice(b"b0"),
        Value::Number(number) => push_kind(b'n', *number, text),
        Value::Day(day) => push_kind(b'd', i128::from(*day), text),
        Value::Moment(moment) => push_kind(b'm', i128::from(*moment), text),
    }
}

/// Adds the spelling of a value.
fn push_value(value: &Value, text: &mut Vec<u8>) -> Result<(), AllocError>
    ensures { OnOk result (text.new.items ≡ text.old.items ++ value_spelling value.now) }
{
    push_front(value, text)?;
    text.push(b';')?;
    Ok(())
}

/// Adds the spelling of values, one after the other.
fn push_values(values: &[Value], text: &mut Vec<u8>) -> Result<(), AllocError>
    ensures { OnOk result (text.new.items ≡ text.old.items ++ flat_map value_spelling values.now) }
{
    for value in values {
        push_value(value, text)?;
    }
    Ok(())
}

/// Adds the spelling of a list: its values in brackets.
fn push_list(values: &[Value], text: &mut Vec<u8>) -> Result<(), AllocError>
    ensures { OnOk result (text.new.items ≡ text.old.items ++ codes "[" ++ flat_map value_spelling values.now ++ codes "]") }
{
    text.push(b'[')?;
    push_values(values, text)?;
    text.push(b']')?;
    Ok(())
}

/// Adds the spelling of a key cell.
fn push_cell(cell: &KeyCell, text: &mut Vec<u8>) -> Result<(), AllocError>
    ensures { OnOk result (text.new.items ≡ text.old.items ++ cell_spelling cell.now) }
{
    match cell {
        KeyCell::Null => text.extend_from_slice(b"-"),
        KeyCell::One(value) => push_value(value, text),
        KeyCell::Many(values) => push_list(values.as_slice(), text),
    }
}

/// Adds the spelling of a key, or returns `AllocError` if there is no memory.
pub fn push_spelling(key: &Key, text: &mut Vec<u8>) -> Result<(), AllocError>
    ensures { OnOk result (text.new.items ≡ text.old.items ++ spelling key.now) }
{
    for cell in key.as_slice() {
        push_cell(cell, text)?;
    }
    Ok(())
}
