//! The values of keys as they are stored.
ghost use Rattle.std.specs.Prelude.{◌≡◌, ◌≤◌, IfOk, length};
ghost use Rattle.csvw_keys.specs.Held.{held_cell, held_number, held_text, held_value, padded};
ghost use Rattle.csvw_keys.specs.Key.{key_cell, key_cell_at};

use crate::apart::Apart;
use crate::key::{Key, key_cell};
use csvw_annotate::Row;
use csvw_cell::CellValue;
use csvw_datatype::Value;
use csvw_text::{Copied, Seq, Text};
use std::alloc::{AllocError, Global};

/// The number of bytes of a text that is stored in the value itself.
pub(crate) const SHORT: usize = 15;

/// What is stored of a key. A key of one column that is not a list is its value. It takes 24 bytes: a number is in
/// halves, a short text is in the value itself, and what is long is behind a pointer.
#[derive(Drop, PartialEq, Eq, PartialOrd, Ord)]
pub enum HeldValue {
    /// A null cell.
    Null,
    /// A text of at most 15 bytes: its bytes, with zeros after them, and their number.
    Short([u8; SHORT], u8),
    /// A longer text.
    Text(Apart<Text>),
    /// A truth.
    Truth(bool),
    /// A number from 0, in units of 10^-18: its high and its low 64 bits.
    Natural(u64, u64),
    /// A number below 0, in units of 10^-18: the high and the low 64 bits of its size.
    Negative(u64, u64),
    /// A day.
    Day(i32),
    /// A moment.
    Moment(i64),
    /// The cells of several columns, or of a list.
    Cells(Apart<Key>),
}

impl Copied for HeldValue {
    fn copied(&self, alloc: Global) -> Result<HeldValue, AllocError> {
        match self {
            HeldValue::Null => Ok(HeldValue::Null),
            HeldValue::Short(bytes, len) => Ok(HeldValue::Short(*bytes, *len)),
            HeldValue::Text(text) => Ok(HeldValue::Text(text.copied(alloc)?)),
            HeldValue::Truth(truth) => Ok(HeldValue::Truth(*truth)),
            HeldValue::Natural(high, low) => Ok(HeldValue::Natural(*high, *low)),
            HeldValue::Negative(high, low) => Ok(HeldValue::Negative(*high, *low)),
            HeldValue::Day(day) => Ok(HeldValue::Day(*day)),
            HeldValue::Moment(moment) => Ok(HeldValue::Moment(*moment)),
            HeldValue::Cells(cells) => Ok(HeldValue::Cells(cells.copied(alloc)?)),
        }
    }
}

/// The size of half a number.
const HALF: u128 = 1 << 64;

fn held_number(number: i128) -> HeldValue
    ensures { result ≡ held_number number }
{
    let size = number.unsigned_abs();
    let high = (size / HALF) as u64;
    let low = (size % HALF) as u64;
    if number < 0 {
        HeldValue::Negative(high, low)
    } else {
        HeldValue::Natural(high, low)
    }
}

/// Returns a text of at most 15 bytes with zeros after it.
fn padded(text: &[u8]) -> [u8; SHORT]
    requires { length text.now ≤ SHORT }
    ensures { result ≡ padded text.now }
{
    let mut bytes = [0; SHORT];
    bytes[..text.len()].copy_from_slice(text);
    bytes
}

fn held_text(alloc: Global, text: &Text) -> Result<HeldValue, AllocError>
    ensures { IfOk result (λ held. held ≡ held_text text.now) }
{
    let bytes = text.as_str().as_bytes();
    if bytes.len() <= SHORT {
        return Ok(HeldValue::Short(padded(bytes), bytes.len() as u8));
    }
    Ok(HeldValue::Text(Apart::new(alloc, text.clone(alloc)?)?))
}

fn held_value(alloc: Global, value: &Value) -> Result<HeldValue, AllocError>
    ensures { IfOk result (λ held. held ≡ held_value value.now) }
{
    match value {
        Value::Text(text) => held_text(alloc, text),
        Value::Truth(truth) => Ok(HeldValue::Truth(*truth)),
        Value::Number(number) => Ok(held_number(*number)),
        Value::Day(day) => Ok(HeldValue::Day(*day)),
        Value::Moment(moment) => Ok(HeldValue::Moment(*moment)),
    }
}

fn held_cell(alloc: Global, value: &CellValue) -> Result<HeldValue, AllocError>
    ensures { IfOk result (λ held. held ≡ held_cell (key_cell value.now)) }
{
    match value {
        CellValue::Null => Ok(HeldValue::Null),
        CellValue::One(item) => held_value(alloc, &item.value),
        CellValue::Many(_) => {
            let mut cells = Vec::with_capacity(alloc, 1)?;
            cells.push(key_cell(alloc, value)?)?;
            Ok(HeldValue::Cells(Apart::new(alloc, Seq::of(cells))?))
        }
    }
}

/// Returns what is stored of the column of this number, from 1.
pub(crate) fn held_cell_at(alloc: Global, row: &Row, column: u32) -> Result<HeldValue, AllocError>
    ensures { IfOk result (λ held. held ≡ held_cell (key_cell_at row.now column)) }
{
    if column == 0 {
        return Ok(HeldValue::Null);
    }
    match row.cells.as_slice().get((column - 1) as usize) {
        Some(cell) => held_cell(alloc, &cell.value),
        None => Ok(HeldValue::Null),
    }
}
