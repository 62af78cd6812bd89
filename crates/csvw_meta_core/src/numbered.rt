//! The items of an array that are read by their numbers.
ghost use Rattle.std.specs.Prelude.{◌≡◌, ◌<◌, ◌^◌, ◌+◌, List, ℕ, length};
ghost use Rattle.serde_json.specs.Data.{Data};
ghost use Rattle.serde_json.specs.View.{view, items_view};
ghost use Rattle.csvw_meta_core.specs.Pointer.{text_of, item_at};
ghost use Rattle.csvw_meta_core.specs.Read.{Read, each_numbered};
ghost use Rattle.csvw_meta_core.specs.Reads.{Reads};

use crate::fault::Refusal;
use crate::part::Part;
use csvw_text::Seq;
use serde_json::Value;

/// A kind of value for the items of an array, by their number. The ghost member `reads` defines what an item is read
/// as, by its number and the pointer of its place.
pub trait NumberedReader {
    /// The type that an item is read as.
    type Output: Drop;

    ghost reads: { Self → ℕ → List ℕ → Data → Read Self.Output };

    /// Reads the item of that number, from 1. It returns the value, a fault of the item, or `Memory`.
    fn read(&self, number: u32, part: &Part) -> Result<Self::Output, Refusal>
        ensures { Reads result (reads self.now number (text_of part.now.at) (view part.now.value.now)) };
}

/// Reads each item of the array that the part is. It returns the values in order, a fault of an item, or `Memory`.
pub fn each_numbered<R: NumberedReader>(
    part: &Part,
    reader: &R,
    items: &[Value],
) -> Result<Seq<R::Output>, Refusal>
    requires { length items.now < 2 ^ 32 }
    ensures { Reads result (each_numbered (R.reads reader.now) (text_of part.now.at) 0 (items_view items.now)) }
{
    let mut found = Vec::new(part.alloc);
    for (i, item) in items.iter().enumerate() {
        let x = read_item(part, reader, i, item)?;
        found.push(x)?;
    }
    Ok(Seq::of(found))
}

fn read_item<R: NumberedReader>(
    part: &Part,
    reader: &R,
    index: usize,
    item: &Value,
) -> Result<R::Output, Refusal>
    requires { index + 1 < 2 ^ 32 }
    ensures { Reads result (R.reads reader.now (index + 1) (item_at (text_of part.now.at) index) (view item.now)) }
{
    reader.read(index as u32 + 1, &part.item(index, item))
}
