//! `Cell`: the value of a cell, and what is wrong with it.
ghost use Rattle.std.specs.Prelude.{◌≡◌, []};
ghost use Rattle.csvw_cell.specs.Plain.{text_item};

use csvw_datatype::Value;
use csvw_text::{Code, Seq, Text};
use std::alloc::Global;

/// The single value of a cell, or an item of its list.
#[derive(Debug, Drop, PartialEq, Eq)]
pub struct Item {
    /// The value.
    pub value: Value,
    /// Whether the text was read as a value of the column's datatype. If not, the value is the text.
    pub was_read: bool,
}

impl Item {
    /// Returns the item that is the empty text. It takes no memory.
    pub(crate) fn new(alloc: Global) -> Item
        ensures { result ≡ text_item [] }
    {
        Item {
            value: Value::Text(Text::new(alloc)),
            was_read: true,
        }
    }
}

/// The value of a cell (Model for Tabular Data, section 4.5).
#[derive(Debug, Drop, PartialEq, Eq)]
pub enum CellValue {
    /// No value.
    Null,
    /// A single value.
    One(Item),
    /// A list, of a column with a separator.
    Many(Seq<Item>),
}

/// The cell that a text is (Model for Tabular Data, section 6.4).
#[derive(Debug, Drop)]
pub struct Cell {
    /// Its value.
    pub value: CellValue,
    /// What is wrong, each code once, in the order of the codes.
    pub faults: Seq<Code>,
}

impl Cell {
    /// Returns a null cell without faults. It takes no memory.
    pub fn new(alloc: Global) -> Cell
        ensures value { result.value ≡ CellValue.Null }
        ensures faults { result.faults ≡ [] }
    {
        Cell {
            value: CellValue::Null,
            faults: Seq::new(alloc),
        }
    }
}
