//! Copies of cells.
ghost use Rattle.std.specs.Prelude.{◌≡◌, IfOk};

use crate::cell::{Cell, CellValue, Item};
use csvw_text::{Code, Copied, Seq, both};
use std::alloc::{AllocError, Global};

impl Item {
    /// Returns an equal item, or `AllocError` if memory runs out.
    pub fn clone(&self, alloc: Global) -> Result<Item, AllocError>
        ensures { IfOk result (λ i. i ≡ self.now) }
    {
        Ok(Item {
            value: self.value.clone(alloc)?,
            was_read: self.was_read,
        })
    }
}

impl Copied for Item {
    fn copied(&self, alloc: Global) -> Result<Item, AllocError> {
        self.clone(alloc)
    }
}

impl CellValue {
    /// Returns an equal value, or `AllocError` if memory runs out.
    pub fn clone(&self, alloc: Global) -> Result<CellValue, AllocError>
        ensures { IfOk result (λ v. v ≡ self.now) }
    {
        match self {
            CellValue::Null => Ok(CellValue::Null),
            CellValue::One(item) => Ok(CellValue::One(item.clone(alloc)?)),
            CellValue::Many(items) => Ok(CellValue::Many(items.clone(alloc)?)),
        }
    }
}

/// Returns equal codes, or `AllocError` if memory runs out.
pub fn copied_codes(alloc: Global, codes: &Seq<Code>) -> Result<Seq<Code>, AllocError>
    ensures { IfOk result (λ s. s ≡ codes.now) }
{
    Ok(Seq::of(Vec::from_slice(alloc, codes.as_slice())?))
}

impl Cell {
    /// Returns an equal cell, or `AllocError` if memory runs out.
    pub fn clone(&self, alloc: Global) -> Result<Cell, AllocError>
        ensures { IfOk result (λ c. c ≡ self.now) }
    {
        let (value, faults) = both(self.value.clone(alloc), copied_codes(alloc, &self.faults))?;
        Ok(Cell { value, faults })
    }
}
