//! How a part of a document is read.
ghost use Rattle.std.specs.Prelude.{◌≡◌, List, ℕ, [], ◌∷◌};
ghost use Rattle.serde_json.specs.Data.{Data};
ghost use Rattle.serde_json.specs.View.{view, items_view};
ghost use Rattle.csvw_meta_core.specs.Pointer.{text_of, item_at};
ghost use Rattle.csvw_meta_core.specs.Read.{Read, each, or_null, not_yet};
ghost use Rattle.csvw_meta_core.specs.Reads.{Reads};

use crate::fault::{MetaCode, Refusal};
use crate::part::Part;
use csvw_text::Seq;
use serde_json::Value;

/// A kind of value in a document. The ghost member `reads` defines what a value is read as, by the pointer of its
/// place.
pub trait Reader {
    /// The type that a value of this kind is read as.
    type Output: Drop;

    ghost reads: { Self → List ℕ → Data → Read Self.Output };

    /// Reads the part. It returns the value, a fault of the part, or `Memory`.
    fn read(&self, part: &Part) -> Result<Self::Output, Refusal>
        ensures { Reads result (reads self.now (text_of part.now.at) (view part.now.value.now)) };
}

/// Reads a value of a kind, or null as `None`.
#[derive(Drop)]
pub struct OrNull<R> {
    /// The reader of the kind.
    pub reader: R,
}

impl<R: Reader> Reader for OrNull<R> {
    type Output = Option<R::Output>;

    ghost reads = { λ r. or_null (R.reads r.reader) };

    fn read(&self, part: &Part) -> Result<Option<R::Output>, Refusal> {
        match part.value {
            Value::Null => Ok(None),
            _ => Ok(Some(self.reader.read(part)?)),
        }
    }
}

/// Refuses every value as `NotSupported`.
#[derive(Drop)]
pub struct NotYet;

impl Reader for NotYet {
    type Output = ();

    ghost reads = { λ _. not_yet };

    fn read(&self, part: &Part) -> Result<(), Refusal> {
        Err(part.refused(MetaCode::NotSupported))
    }
}

/// Reads each item of the array that the part is. It returns the values in order, a fault of an item, or `Memory`.
pub fn each<R: Reader>(part: &Part, reader: &R, items: &[Value]) -> Result<Seq<R::Output>, Refusal>
    ensures { Reads result (each (R.reads reader.now) (text_of part.now.at) 0 (items_view items.now)) }
{
    let mut found = Vec::new(part.alloc);
    for (i, item) in items.iter().enumerate() {
        let x = read_item(part, reader, i, item)?;
        found.push(x)?;
    }
    Ok(Seq::of(found))
}

fn read_item<R: Reader>(
    part: &Part,
    reader: &R,
    index: usize,
    item: &Value,
) -> Result<R::Output, Refusal>
    ensures { Reads result (R.reads reader.now (item_at (text_of part.now.at) index) (view item.now)) }
{
    reader.read(&part.item(index, item))
}
