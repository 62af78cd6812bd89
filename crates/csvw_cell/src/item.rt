//! One text as a value of a datatype: steps 8 and 9 of a cell.
ghost use Rattle.std.specs.Prelude.{◌≡◌, ◌∷◌, [], IfOk, OnOk};
ghost use Rattle.csvw_datatype.specs.Sound.{IsSound};
ghost use Rattle.csvw_datatype.specs.Breaks.{breaks};
ghost use Rattle.csvw_cell.specs.Codes.{broken_codes};
ghost use Rattle.csvw_cell.specs.CellOf.{IsItem};
ghost use Rattle.csvw_cell.specs.Plain.{text_item};

use crate::cell::Item;
use crate::codes::broken_codes;
use csvw_datatype::{Datatype, Expressions, Value};
use csvw_text::{Code, Seq, Text};
use std::alloc::{AllocError, Global};

/// Returns the codes of the facets that a value breaks.
#[inline(always)]
fn causes_of(alloc: Global, datatype: &Datatype, value: &Value) -> Result<Seq<Code>, AllocError>
    ensures { IfOk result (λ s. s ≡ broken_codes (breaks datatype.now.simple value.now datatype.now.facets)) }
{
    // Most datatypes have no facets.
    if !datatype.is_faceted(value) {
        return Ok(Seq::new(alloc));
    }
    broken_codes(alloc, datatype.facets(value))
}

fn one_code(alloc: Global, code: Code) -> Result<Seq<Code>, AllocError>
    ensures { IfOk result (λ s. s ≡ code ∷ []) }
{
    let mut codes = Seq::new(alloc);
    codes.push(code)?;
    Ok(codes)
}

/// Writes the item of a text over an item, in its memory.
pub(crate) fn refill_item(alloc: Global, item: &mut Item, text: &str) -> Result<(), AllocError>
    ensures { OnOk result (item.new ≡ text_item text.now) }
{
    item.was_read = true;
    match &mut item.value {
        Value::Text(old) => old.refill(text),
        Value::Truth(_) | Value::Number(_) | Value::Day(_) | Value::Moment(_) => {
            item.value = Value::Text(Text::copied(alloc, text)?);
            Ok(())
        }
    }
}

/// Writes the item that a text is over an item, and returns what is wrong with it.
///
/// The item is a value of the datatype, and its codes are those of the facets that it breaks. If the text is not a
/// value, the item is the text, with the code of why it is not. Returns `AllocError` if memory runs out.
#[inline(always)]
pub(crate) fn judge(
    expressions: &mut Expressions,
    datatype: &Datatype,
    text: &str,
    item: &mut Item,
) -> Result<Seq<Code>, AllocError>
    requires { IsSound datatype.now }
    ensures { IfOk result (λ causes. IsItem datatype.now text.now item.new causes) }
{
    let alloc = expressions.alloc();
    if datatype.takes_any_text() {
        refill_item(alloc, item, text)?;
        return causes_of(alloc, datatype, &item.value);
    }
    match datatype.read_with(expressions, text)? {
        Ok(value) => {
            let causes = causes_of(alloc, datatype, &value)?;
            *item = Item {
                value,
                was_read: true,
            };
            Ok(causes)
        }
        Err(code) => {
            refill_item(alloc, item, text)?;
            item.was_read = false;
            one_code(alloc, code)
        }
    }
}
