//! The key cells of rows.
ghost use Rattle.std.specs.Prelude.{◌≡◌, IfOk, map};
ghost use Rattle.std.specs.List.{list_all};
ghost use Rattle.csvw_keys.specs.Key.{values_of, key_cell, key_cell_at, key_of, is_null, is_null_key};

use csvw_annotate::Row;
use csvw_cell::{CellValue, Item};
use csvw_datatype::Value;
use csvw_text::Seq;
use std::alloc::{AllocError, Global};

/// What is compared of a cell of a key: its value, even if the value was not read as one of its datatype.
#[derive(Debug, Drop, PartialEq, Eq, PartialOrd, Ord)]
pub enum KeyCell {
    /// A null cell.
    Null,
    /// The value of a single cell.
    One(Value),
    /// The values of a list's items, in order.
    Many(Seq<Value>),
}

/// The cells of a key in a row, in the key's order.
pub type Key = Seq<KeyCell>;

impl KeyCell {
    fn is_null(&self) -> bool
        ensures { result ≡ is_null self.now }
    {
        match self {
            KeyCell::Null => true,
            KeyCell::One(_) | KeyCell::Many(_) => false,
        }
    }
}

fn values_of(alloc: Global, items: &[Item]) -> Result<Seq<Value>, AllocError>
    ensures { IfOk result (λ s. s ≡ values_of items.now) }
{
    let mut values = Vec::with_capacity(alloc, items.len())?;
    for item in items {
        let value = item.value.clone(alloc)?;
        values.push(value)?;
    }
    Ok(Seq::of(values))
}

pub(crate) fn key_cell(alloc: Global, value: &CellValue) -> Result<KeyCell, AllocError>
    ensures { IfOk result (λ k. k ≡ key_cell value.now) }
{
    match value {
        CellValue::Null => Ok(KeyCell::Null),
        CellValue::One(item) => Ok(KeyCell::One(item.value.clone(alloc)?)),
        CellValue::Many(items) => Ok(KeyCell::Many(values_of(alloc, items.as_slice())?)),
    }
}

/// Returns the key cell of a column, from 1. If there is no such column, it is null.
fn key_cell_at(alloc: Global, row: &Row, column: u32) -> Result<KeyCell, AllocError>
    ensures { IfOk result (λ k. k ≡ key_cell_at row.now column) }
{
    if column == 0 {
        return Ok(KeyCell::Null);
    }
    match row.cells.as_slice().get((column - 1) as usize) {
        Some(cell) => key_cell(alloc, &cell.value),
        None => Ok(KeyCell::Null),
    }
}

/// Returns the key cells of a row in the columns of these numbers, from 1.
pub(crate) fn key_of(alloc: Global, columns: &[u32], row: &Row) -> Result<Key, AllocError>
    ensures { IfOk result (λ key. key ≡ key_of columns.now row.now) }
{
    let mut cells = Vec::with_capacity(alloc, columns.len())?;
    for column in columns {
        let cell = key_cell_at(alloc, row, *column)?;
        cells.push(cell)?;
    }
    Ok(Seq::of(cells))
}

/// Whether each cell of a key is null.
pub(crate) fn is_null_key(key: &Key) -> bool
    ensures { result ≡ is_null_key key.now }
{
    key.as_slice().iter().all(|cell| cell.is_null())
}
