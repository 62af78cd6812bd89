//! Arrays with a limited number of items.
ghost use Rattle.std.specs.Prelude.{◌≡◌};
ghost use Rattle.serde_json.specs.View.{items_view};
ghost use Rattle.csvw_meta_core.specs.Pointer.{text_of};
ghost use Rattle.csvw_meta_core.specs.Reads.{Reads};
ghost use Rattle.csvw_meta_core.specs.Several.{some_items};

use crate::fault::{MetaCode, Refusal};
use crate::numbered::{NumberedReader, each_numbered};
use crate::part::Part;
use crate::reader::Reader;
use csvw_text::Seq;
use serde_json::Value;

/// Reads an array. Fewer items than the least number are `BadProperty`. More items than the greatest number are
/// `TooMany`.
#[derive(Drop)]
pub struct Several<R> {
    /// The reader of an item.
    pub reader: R,
    /// The least number of items.
    pub least: u32,
    /// The greatest number of items.
    pub most: u32,
}

impl<R: NumberedReader> Reader for Several<R> {
    ghost use Rattle.csvw_meta_core.specs.Several.{several};

    type Output = Seq<R::Output>;

    ghost reads = { λ r. several r.least r.most (R.reads r.reader) };

    fn read(&self, part: &Part) -> Result<Seq<R::Output>, Refusal> {
        match part.value {
            Value::Array(items) => some_items(self, part, items.as_slice()),
            _ => Err(part.wrong()),
        }
    }
}

#[tactic(auto, using(crate::proofs::ItemsLemmas::counting))]
fn some_items<R: NumberedReader>(
    several: &Several<R>,
    part: &Part,
    items: &[Value],
) -> Result<Seq<R::Output>, Refusal>
    ensures { Reads result (some_items several.now.least several.now.most (R.reads several.now.reader) (text_of part.now.at) (items_view items.now)) }
{
    if items.len() < several.least as usize {
        return Err(part.refused(MetaCode::BadProperty));
    }
    if items.len() > several.most as usize {
        return Err(part.refused(MetaCode::TooMany));
    }
    each_numbered(part, &several.reader, items)
}
