//! What the values of cells stand for in templates.
ghost use Rattle.std.specs.Prelude.{◌≡◌, ◌<◌, ◌≤◌, IfOk, IfSome, length, map, true};
ghost use Rattle.csvw_template.specs.declared.vars.Var.TheVariants.{One};
ghost use Rattle.csvw_template.specs.Name.{listed};
ghost use Rattle.csvw_template.specs.Within.{plain_len};
ghost use Rattle.csvw_cell.specs.HasForm.{HasForm, HaveForms};
ghost use Rattle.csvw_annotate.specs.CellVariables.{item_text, variable};

use csvw_cell::{CellValue, Item};
use csvw_datatype::Value;
use csvw_template::Var;
use csvw_text::{Seq, Text};
use std::alloc::{AllocError, Global};

fn item_texts(alloc: Global, items: &[Item]) -> Result<Seq<Text>, AllocError>
    requires { HaveForms items.now }
    ensures { IfOk result (λ texts. texts ≡ map item_text items.now) }
{
    let mut texts = Seq::new(alloc);
    for item in items {
        texts.push(Text::of(item.value.lexical(alloc)?))?;
    }
    Ok(texts)
}

/// Returns the text that the name of a column stands for, if it can be lent: that of a cell whose value is a text.
/// `None` says nothing.
pub fn text_of(value: &CellValue) -> Option<&str>
    ensures { IfSome result (λ text. variable value.now ≡ One text.now) }
{
    match value {
        CellValue::One(item) => text_of_item(item),
        CellValue::Null | CellValue::Many(_) => None,
    }
}

fn text_of_item(item: &Item) -> Option<&str>
    ensures { IfSome result (λ text. item_text item.now ≡ text.now) }
{
    match &item.value {
        Value::Text(text) => Some(text.as_str()),
        _ => None,
    }
}

/// Returns true only if what the name of a column stands for has more than `most` bytes: a text, or items with commas
/// between them. Only texts that can be lent are counted.
pub(crate) fn is_longer(value: &CellValue, most: usize) -> bool
    ensures { result ≡ true → most < plain_len (variable value.now) }
{
    match value {
        CellValue::Null => false,
        CellValue::One(item) => least_len(item) > most,
        CellValue::Many(items) => are_longer(items.as_slice(), most),
    }
}

/// Returns a number of bytes that the text of an item has at least.
fn least_len(item: &Item) -> usize
    ensures { result ≤ length (item_text item.now) }
{
    match text_of_item(item) {
        Some(text) => text.len(),
        None => 0,
    }
}

/// Returns true only if items with commas between them have more than `most` bytes.
fn are_longer(items: &[Item], most: usize) -> bool
    ensures { result ≡ true → most < length (listed (map item_text items.now)) }
{
    let mut len = 0usize;
    for item in items {
        len = len.saturating_add(least_len(item));
        if len > most {
            return true;
        }
        // A comma.
        len = len.saturating_add(1);
    }
    false
}

/// Returns what the name of a column stands for (Metadata Vocabulary for Tabular Data, section 5.1.3).
///
/// It is the lexical form of the cell's value, or those of its items. A null cell stands for nothing. The values must
/// have lexical forms. Returns `AllocError` if memory runs out.
pub fn variable(alloc: Global, value: &CellValue) -> Result<Var, AllocError>
    requires { HasForm value.now }
    ensures { IfOk result (λ v. v ≡ variable value.now) }
{
    match value {
        CellValue::Null => Ok(Var::Undefined),
        CellValue::One(item) => Ok(Var::One(Text::of(item.value.lexical(alloc)?))),
        CellValue::Many(items) => Ok(Var::Many(item_texts(alloc, items.as_slice())?)),
    }
}
