//! The facets that a value breaks.
ghost use Rattle.std.specs.Prelude.{◌≡◌, false, length, ◌==◌, nat_lt, not, option_copied, is_some, Some, ◌||◌};
ghost use Rattle.std.specs.Str.{chars};
ghost use Rattle.csvw_datatype.specs.Breaks.{breaks, unbroken, is_faceted, length_breaks, has_lengths, has_bounds};
ghost use Rattle.csvw_datatype.specs.Breaks.{is_below, is_up_to, length_of, text_length, fails, is_over, is_not_under};

use crate::datatype::{Datatype, Facets};
use crate::order::compare_kept;
use crate::simple::{Simple, TextType};
use crate::value::Value;
use csvw_binary::octet_count;
use std::cmp::Ordering;

/// The facets that a value breaks, one for each code.
#[derive(Clone, Copy, Debug, PartialEq, Eq)]
pub struct Broken {
    /// The text does not have as many characters, or octets, as `length` says.
    pub wrong_length: bool,
    /// The text has fewer characters, or octets, than `minLength` says.
    pub too_short: bool,
    /// The text has more characters, or octets, than `maxLength` says.
    pub too_long: bool,
    /// The value is below `minimum` or `minInclusive`, or not above `minExclusive`.
    pub below_minimum: bool,
    /// The value is above `maximum` or `maxInclusive`, or not below `maxExclusive`.
    pub above_maximum: bool,
}

impl Datatype {
    /// Returns whether some facet is about such a value: a length about a text, a bound about a value with an order, or
    /// about a text, as a double or a duration is one.
    /// Otherwise the value breaks no facet.
    #[inline(always)]
    pub fn is_faceted(&self, value: &Value) -> bool
        ensures value { result ≡ is_faceted value.now self.now.facets }
        ensures unbroken { result ≡ false → breaks self.now.simple value.now self.now.facets ≡ unbroken }
    {
        match value {
            Value::Text(_) => has_lengths(&self.facets) || self.facets.has_bounds(),
            Value::Truth(_) => false,
            Value::Number(_) | Value::Day(_) | Value::Moment(_) => self.facets.has_bounds(),
        }
    }

    /// Returns the facets that a value breaks. It takes no memory (Metadata Vocabulary for Tabular Data, section
    /// 5.11.2).
    pub fn facets(&self, value: &Value) -> Broken
        ensures { result ≡ breaks self.now.simple value.now self.now.facets }
    {
        let (simple, facets) = (self.simple, &self.facets);
        let lengths = broken_lengths(simple, value, facets);
        // most datatypes have no bounds
        if !facets.has_bounds() {
            return lengths;
        }
        let value = Some(value);
        Broken {
            below_minimum: is_over(simple, facets.minimum.as_ref(), value)
                || is_over(simple, facets.min_inclusive.as_ref(), value)
                || is_not_under(simple, facets.min_exclusive.as_ref(), value),
            above_maximum: is_over(simple, value, facets.maximum.as_ref())
                || is_over(simple, value, facets.max_inclusive.as_ref())
                || is_not_under(simple, value, facets.max_exclusive.as_ref()),
            ..lengths
        }
    }
}

fn is_one_there(a: &Option<Value>, b: &Option<Value>, c: &Option<Value>) -> bool
    ensures { result ≡ (is_some a.now || is_some b.now || is_some c.now) }
{
    a.is_some() || b.is_some() || c.is_some()
}

impl Facets {
    /// Returns whether a facet is a bound.
    pub fn has_bounds(&self) -> bool
        ensures { result ≡ has_bounds self.now }
    {
        is_one_there(&self.minimum, &self.min_inclusive, &self.min_exclusive)
            || is_one_there(&self.maximum, &self.max_inclusive, &self.max_exclusive)
    }
}

// The text is measured only if a facet asks for its length.
fn broken_lengths(simple: Simple, value: &Value, facets: &Facets) -> Broken
    ensures { result ≡ length_breaks simple value.now facets.now }
{
    if !has_lengths(facets) {
        return Broken {
            wrong_length: false,
            too_short: false,
            too_long: false,
            below_minimum: false,
            above_maximum: false,
        };
    }
    let length = length_of(simple, value);
    Broken {
        wrong_length: differs(length, facets.length),
        too_short: is_less(length, facets.min_length),
        too_long: is_less(facets.max_length, length),
        below_minimum: false,
        above_maximum: false,
    }
}

pub(crate) fn has_lengths(facets: &Facets) -> bool
    ensures { result ≡ has_lengths facets.now }
{
    facets.length.is_some() || facets.min_length.is_some() || facets.max_length.is_some()
}

fn length_of(simple: Simple, value: &Value) -> Option<u64>
    ensures { result ≡ length_of simple value.now }
{
    match value {
        Value::Text(text) => Some(text_length(simple, text.as_str())),
        Value::Truth(_) | Value::Number(_) | Value::Day(_) | Value::Moment(_) => None,
    }
}

/// Returns how many octets the text of a type of octets writes, or how many characters any other text has.
fn text_length(simple: Simple, text: &str) -> u64
    ensures { result ≡ text_length simple text.now }
{
    match simple {
        Simple::Other(TextType::Binary(form)) => octet_count(form, text),
        Simple::Text
        | Simple::Truth
        | Simple::Whole
        | Simple::Decimal
        | Simple::Day
        | Simple::Uri
        | Simple::Derived(_)
        | Simple::Moment
        | Simple::Other(_)
        | Simple::Floating(_) => count(text),
    }
}

fn count(text: &str) -> u64
    ensures { result ≡ length (chars text.now) }
{
    text.chars().count() as u64
}

pub(crate) fn differs(a: Option<u64>, b: Option<u64>) -> bool
    ensures { result ≡ fails (λ n k. not (n == k)) a b }
{
    match (a, b) {
        (Some(n), Some(k)) => n != k,
        (Some(_), None) | (None, Some(_)) | (None, None) => false,
    }
}

pub(crate) fn is_less(a: Option<u64>, b: Option<u64>) -> bool
    ensures { result ≡ fails (λ n k. nat_lt n k) a b }
{
    match (a, b) {
        (Some(n), Some(k)) => n < k,
        (Some(_), None) | (None, Some(_)) | (None, None) => false,
    }
}

/// Returns whether a value of a type is below another, or has no order beside it.
pub(crate) fn is_below(simple: Simple, a: &Value, b: &Value) -> bool
    ensures { result ≡ is_below simple a.now b.now }
{
    match (a, b) {
        (Value::Number(x), Value::Number(y)) => *x < *y,
        (Value::Day(x), Value::Day(y)) => *x < *y,
        (Value::Moment(x), Value::Moment(y)) => *x < *y,
        (Value::Text(_), Value::Text(_) | Value::Day(_) | Value::Moment(_))
        | (Value::Day(_) | Value::Moment(_), Value::Text(_)) => {
            !matches!(
                compare_kept(simple, a, b),
                Some(Ordering::Equal | Ordering::Greater)
            )
        }
        _ => false,
    }
}

/// Returns whether a value of a type is another, or below it, or has no order beside it.
fn is_up_to(simple: Simple, a: &Value, b: &Value) -> bool
    ensures { result ≡ is_up_to simple a.now b.now }
{
    match (a, b) {
        (Value::Number(x), Value::Number(y)) => *x <= *y,
        (Value::Day(x), Value::Day(y)) => *x <= *y,
        (Value::Moment(x), Value::Moment(y)) => *x <= *y,
        (Value::Text(_), Value::Text(_) | Value::Day(_) | Value::Moment(_))
        | (Value::Day(_) | Value::Moment(_), Value::Text(_)) => {
            !matches!(compare_kept(simple, a, b), Some(Ordering::Greater))
        }
        _ => false,
    }
}

pub(crate) fn is_over(simple: Simple, a: Option<&Value>, b: Option<&Value>) -> bool
    ensures { result ≡ is_over simple (option_copied a.entry) (option_copied b.entry) }
{
    match (a, b) {
        (Some(x), Some(y)) => is_below(simple, y, x),
        (Some(_), None) | (None, Some(_)) | (None, None) => false,
    }
}

pub(crate) fn is_not_under(simple: Simple, a: Option<&Value>, b: Option<&Value>) -> bool
    ensures { result ≡ is_not_under simple (option_copied a.entry) (option_copied b.entry) }
{
    match (a, b) {
        (Some(x), Some(y)) => is_up_to(simple, y, x),
        (Some(_), None) | (None, Some(_)) | (None, None) => false,
    }
}
