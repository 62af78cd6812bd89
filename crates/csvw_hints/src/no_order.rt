//! Why a value that is neither below nor above a bound breaks it: the two have no order (XML Schema 1.1 part 2, section 4.3).

use crate::tables::{TableAt, declared};
use csvw_datatype::{Datatype, DatePart, Facets, Simple, TextType, Value};
use csvw_text::{Code, Fault, collapse};
use std::alloc::{AllocError, Global};

/// Numbers without an order.
const NUMBERS: &str = "    NaN has no order beside a number: it breaks each bound\n";

/// Moments without an order.
const MOMENTS: &str =
    "    a moment without a zone has no order beside one with a zone that is at most 14 hours away\n";

/// Dates, days and times of day without an order.
const DATES: &str =
    "    a value without a zone has no order beside one with a zone that is at most 14 hours away\n";

/// Years and months without an order.
const PARTS: &str = "    a text without a zone has no order beside the same one with a zone\n";

/// Durations without an order.
const DURATIONS: &str =
    "    months and days have no order if they may be equally long: a month has 28 to 31 days\n";

/// Returns the words on values of a datatype that have no order, if there are such values.
fn words_of(simple: Simple) -> Option<&'static str> {
    match simple {
        Simple::Floating(_) => Some(NUMBERS),
        Simple::Other(TextType::DateTime(_)) => Some(MOMENTS),
        Simple::Other(
            TextType::Date | TextType::Time | TextType::Part(DatePart::MonthDay | DatePart::Day),
        ) => Some(DATES),
        Simple::Other(TextType::Part(_)) => Some(PARTS),
        Simple::Other(TextType::Duration(_)) => Some(DURATIONS),
        _ => None,
    }
}

/// Returns the first bound that is set.
fn first_of<'a>(bounds: [&'a Option<Value>; 3]) -> Option<&'a Value> {
    let [inclusive, other, exclusive] = bounds;
    inclusive.as_ref().or(other.as_ref()).or(exclusive.as_ref())
}

/// Returns the bound that a fault is about as a bound of the other side alone.
fn turned(alloc: Global, facets: &Facets, code: Code) -> Result<Facets, AllocError> {
    let mut turned = Facets::new();
    if code == Code::BelowMinimum {
        let lower = [
            &facets.minimum,
            &facets.min_inclusive,
            &facets.min_exclusive,
        ];
        if let Some(bound) = first_of(lower) {
            turned.maximum = Some(bound.clone(alloc)?);
        }
    } else {
        let upper = [
            &facets.maximum,
            &facets.max_inclusive,
            &facets.max_exclusive,
        ];
        if let Some(bound) = first_of(upper) {
            turned.minimum = Some(bound.clone(alloc)?);
        }
    }
    Ok(turned)
}

/// Returns whether a value that breaks a bound would break it on the other side, too. Then the two have no order.
fn has_no_order(
    alloc: Global,
    datatype: &Datatype,
    value: &Value,
    code: Code,
) -> Result<bool, AllocError> {
    let turned = Datatype {
        simple: datatype.simple,
        id: None,
        format: None,
        facets: turned(alloc, &datatype.facets, code)?,
    };
    let broken = turned.facets(value);
    Ok(broken.below_minimum || broken.above_maximum)
}

/// Returns the value of the text of a cell, if it has one.
fn value_of(alloc: Global, datatype: &Datatype, cell: &str) -> Result<Option<Value>, AllocError> {
    if datatype.check().is_err() {
        return Ok(None);
    }
    let text = collapse(alloc, cell)?;
    Ok(datatype.read(alloc, text.as_str())?.ok())
}

/// Adds that the value of a cell has no order beside a bound, if it breaks the bound for that reason: a line of text. Returns
/// `AllocError` if memory runs out.
pub fn push_no_order(
    below: &mut String,
    table: &TableAt<'_>,
    fault: &Fault,
    cell: &str,
) -> Result<(), AllocError> {
    let Some(column) = declared(table.plan, fault.place.column) else {
        return Ok(());
    };
    if !matches!(fault.code, Code::BelowMinimum | Code::AboveMaximum) {
        return Ok(());
    }
    let alloc = *below.allocator();
    let datatype = column.properties.datatype.get();
    let Some(words) = words_of(datatype.simple) else {
        return Ok(());
    };
    match value_of(alloc, datatype, cell)? {
        Some(value) if has_no_order(alloc, datatype, &value, fault.code)? => below.push_str(words),
        _ => Ok(()),
    }
}
