//! Lists: steps 4 to 9 of a cell with a separator.
ghost use Rattle.std.specs.Prelude.{◌≡◌, ◌<◌, length, IfOk, map};
ghost use Rattle.csvw_datatype.specs.Sound.{IsSound};
ghost use Rattle.csvw_datatype.specs.Strings.{keeps_ends};
ghost use Rattle.csvw_cell.specs.CellOf.{is_null, or_default, stripped, item_text, texts_of, AreParts, ArePartsBy, AreItems, IsList, IsListOf};

use crate::cell::{Cell, CellValue, Item};
use crate::codes::{in_order, missing};
use crate::item::judge;
use csvw_columns_core::Properties;
use csvw_datatype::{Datatype, Expressions};
use csvw_text::{Code, Seq, strip_end, strip_start};
use std::alloc::{AllocError, Global};

/// The items of a list, and what is wrong with them.
#[derive(Drop)]
struct JudgedItems {
    /// One item for each text, in order.
    items: Seq<Item>,
    /// The codes of all items, in order. A code occurs as often as it has causes.
    causes: Seq<Code>,
}

/// Returns whether a text is one of `null`.
#[inline(always)]
pub fn is_null(properties: &Properties, text: &str) -> bool
    ensures { result ≡ is_null properties.now.null text.now }
{
    properties.null.get().contains(text)
}

pub fn or_default<'a>(default: &'a str, text: &'a str) -> &'a str
    ensures { result.now ≡ or_default default.now text.now }
{
    if text.is_empty() { default } else { text }
}

fn stripped<'a>(datatype: &Datatype, text: &'a str) -> &'a str
    ensures { result.now ≡ stripped datatype.now text.now }
{
    if datatype.keeps_ends() {
        text
    } else {
        strip_end(strip_start(text))
    }
}

fn item_text<'a>(properties: &'a Properties, part: &'a str) -> &'a str
    ensures { result.now ≡ item_text properties.now part.now }
{
    or_default(
        properties.default.get().as_str(),
        stripped(properties.datatype.get(), part),
    )
}

/// Returns the parts of a text between the separators, which aren't empty. Returns `AllocError` if memory runs out.
fn parts_by<'a>(alloc: Global, separator: &str, text: &'a str) -> Result<Vec<&'a str>, AllocError>
    requires { 0 < length separator.now }
    ensures { IfOk result (λ v. ArePartsBy separator.now text.now (map (λ x. x.now) v.items)) }
{
    let mut parts = Vec::new(alloc);
    let mut rest = text;
    loop {
        let Some((part, behind)) = rest.split_once(separator) else {
            parts.push(rest)?;
            return Ok(parts);
        };
        parts.push(part)?;
        rest = behind;
    }
}

/// Returns the parts of a text between the separators. An empty separator separates nothing. Returns `AllocError` if
/// memory runs out.
fn parts<'a>(alloc: Global, separator: &str, text: &'a str) -> Result<Vec<&'a str>, AllocError>
    ensures { IfOk result (λ v. AreParts separator.now text.now (map (λ x. x.now) v.items)) }
{
    if separator.is_empty() {
        let mut parts = Vec::new(alloc);
        parts.push(text)?;
        return Ok(parts);
    }
    parts_by(alloc, separator, text)
}

/// Returns the items of the parts of a list, without those that are null. Returns `AllocError` if memory runs out.
fn judge_items(
    expressions: &mut Expressions,
    properties: &Properties,
    parts: &[&str],
) -> Result<JudgedItems, AllocError>
    requires { IsSound properties.now.datatype }
    ensures { IfOk result (λ r. AreItems properties.now.datatype (texts_of properties.now (map (λ x. x.now) parts.now)) r.items r.causes) }
{
    let alloc = expressions.alloc();
    let mut items = Vec::new(alloc);
    let mut causes = Vec::new(alloc);
    for part in parts {
        let text = item_text(properties, part);
        if is_null(properties, text) {
            continue;
        }
        let mut item = Item::new(alloc);
        let its = judge(expressions, properties.datatype.get(), text, &mut item)?;
        items.push(item)?;
        causes.extend_from_slice(its.as_slice())?;
    }
    Ok(JudgedItems {
        items: Seq::of(items),
        causes: Seq::of(causes),
    })
}

/// Returns the list of a text that is not null.
fn list_of(
    expressions: &mut Expressions,
    properties: &Properties,
    separator: &str,
    text: &str,
) -> Result<Cell, AllocError>
    requires { IsSound properties.now.datatype }
    ensures { IfOk result (IsListOf properties.now separator.now text.now) }
{
    let alloc = expressions.alloc();
    let parts = parts(alloc, separator, text)?;
    let judged = judge_items(expressions, properties, parts.as_slice())?;
    let faults = in_order(alloc, judged.causes.as_slice())?;
    Ok(Cell {
        value: CellValue::Many(judged.items),
        faults,
    })
}

/// Returns the cell of a text in a column with a separator, or `AllocError` if memory runs out.
pub(crate) fn list(
    expressions: &mut Expressions,
    properties: &Properties,
    separator: &str,
    text: &str,
) -> Result<Cell, AllocError>
    requires { IsSound properties.now.datatype }
    ensures { IfOk result (IsList properties.now separator.now text.now) }
{
    let alloc = expressions.alloc();
    if text.is_empty() {
        return Ok(Cell {
            value: CellValue::Many(Seq::new(alloc)),
            faults: missing(alloc, properties)?,
        });
    }
    if is_null(properties, text) {
        return Ok(Cell::new(alloc));
    }
    list_of(expressions, properties, separator, text)
}
