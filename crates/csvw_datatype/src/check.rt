//! The check that a datatype's format and facets fit together.
ghost use Rattle.std.specs.Prelude.{◌≡◌, ◌↔◌, ◌<◌, ◌^◌, ◌%◌, ◌||◌, not, option_copied, IsTrue, IsOk, IfSome, Some, unsigned_abs};
ghost use Rattle.csvw_datatype_core.specs.LexicalDates.{IsDayNumber, IsMomentNumber};
ghost use Rattle.csvw_datatype.specs.Breaks.{is_below, fails};
ghost use Rattle.csvw_datatype.specs.Formats.{IsFormatOf};
ghost use Rattle.csvw_datatype.specs.Sound.{IsSound, IsBoundOf, IsTextBound, AreBoundsOf, IsNumberSize, IsWholeNumber};
ghost use Rattle.csvw_datatype.specs.Sound.{lengths_apply, lengths_agree, side_agrees, sides_agree, first_of, bounds_agree, agree};

use crate::datatype::{Datatype, Facets};
use crate::facets::{has_lengths, is_below, is_less, is_not_under, is_over};
use crate::format::Format;
use crate::simple::{Simple, TextType};
use crate::value::Value;
use crate::width::{UNIT, is_in_width};
use csvw_datatype_core::{Zone, is_clock, is_date_part, is_date_time, is_zoned_date};
use csvw_double::is_double;
use csvw_duration::is_duration;

/// Numbers are below 10^20 in size, so each has fewer than this many units of 10^-18.
const NUMBER_LIMIT: u128 = 100_000_000_000_000_000_000_000_000_000_000_000_000;

/// 1 January of the year 1 and 31 December of the year 9999, in days since 1 January 1970.
const FIRST_DAY: i32 = -719_162;

const LAST_DAY: i32 = 2_932_896;

/// The first and the last second of those years, in seconds since 1 January 1970.
const FIRST_MOMENT: i64 = -62_135_596_800;

const LAST_MOMENT: i64 = 253_402_300_799;

/// The error of a datatype whose format or facets don't fit together.
#[derive(Clone, Copy, Debug, PartialEq, Eq)]
pub struct BadDatatype;

impl Datatype {
    /// Checks that the format is one of the type's and that the facets fit the type and each other (Metadata
    /// Vocabulary for Tabular Data, section 5.11.2).
    ///
    /// Lengths are for strings and the types derived from them, bounds are values of an ordered type, and no facet rules out what another asks
    /// for. Returns `BadDatatype` otherwise. It takes no memory.
    pub fn check(&self) -> Result<(), BadDatatype>
        ensures { IsOk result ↔ IsSound self.now }
    {
        if !is_format_of(self.simple, &self.format) {
            return Err(BadDatatype);
        }
        if !are_bounds_of(self.simple, &self.facets) {
            return Err(BadDatatype);
        }
        if !lengths_apply(self.simple, &self.facets) {
            return Err(BadDatatype);
        }
        if !lengths_agree(&self.facets) {
            return Err(BadDatatype);
        }
        if !bounds_agree(self.simple, &self.facets) {
            return Err(BadDatatype);
        }
        Ok(())
    }
}

impl Facets {
    /// Returns whether no facet of a type rules out what another asks for. It takes no memory (Metadata Vocabulary for
    /// Tabular Data, section 5.11.2).
    pub fn agree(&self, simple: Simple) -> bool
        ensures { result ≡ agree simple self.now }
    {
        lengths_agree(self) && bounds_agree(simple, self)
    }
}

fn is_format_of(simple: Simple, format: &Option<Format>) -> bool
    ensures { IsTrue result ↔ IsFormatOf simple format.now }
{
    match (simple, format) {
        (_, None) => true,
        (_, Some(Format::Expression(_))) => simple.takes_expression(),
        (Simple::Truth, Some(Format::Truth(texts))) => texts.is_lawful(),
        (
            Simple::Whole | Simple::Derived(_) | Simple::Decimal | Simple::Floating(_),
            Some(Format::Number(format)),
        ) => format.rules().is_lawful(),
        (Simple::Day, Some(Format::Day(_))) => true,
        (Simple::Moment, Some(Format::Moment(_))) => true,
        (Simple::Other(TextType::Time), Some(Format::Time(_))) => true,
        (Simple::Other(TextType::Date), Some(Format::ZonedDay(_))) => true,
        (Simple::Other(TextType::DateTime(_)), Some(Format::Stamp(_))) => true,
        _ => false,
    }
}

fn are_bounds_of(simple: Simple, facets: &Facets) -> bool
    ensures { IsTrue result ↔ AreBoundsOf simple facets.now }
{
    if !is_bound_option(simple, &facets.minimum) || !is_bound_option(simple, &facets.maximum) {
        return false;
    }
    if !is_bound_option(simple, &facets.min_inclusive)
        || !is_bound_option(simple, &facets.max_inclusive)
    {
        return false;
    }
    is_bound_option(simple, &facets.min_exclusive) && is_bound_option(simple, &facets.max_exclusive)
}

fn is_bound_option(simple: Simple, bound: &Option<Value>) -> bool
    ensures { IsTrue result ↔ IfSome bound.now (IsBoundOf simple) }
{
    match bound {
        None => true,
        Some(value) => is_bound_of(simple, value),
    }
}

fn is_bound_of(simple: Simple, value: &Value) -> bool
    ensures { IsTrue result ↔ IsBoundOf simple value.now }
{
    match (simple, value) {
        (Simple::Whole, Value::Number(number)) => is_number_size(*number) && is_whole(*number),
        (Simple::Derived(width), Value::Number(number)) => {
            is_number_size(*number) && is_whole(*number) && is_in_width(width, *number)
        }
        (Simple::Decimal, Value::Number(number)) => is_number_size(*number),
        (Simple::Day, Value::Day(day)) => is_day_number(*day),
        (Simple::Moment, Value::Moment(moment)) => is_moment_number(*moment),
        (Simple::Floating(_), Value::Text(text)) => is_double(text.as_str()),
        (Simple::Other(text_type), value) => is_text_bound(text_type, value),
        _ => false,
    }
}

/// Returns whether some text of a type writes the value, and the values of the type are ordered.
fn is_text_bound(text_type: TextType, value: &Value) -> bool
    ensures { IsTrue result ↔ IsTextBound text_type value.now }
{
    match (text_type, value) {
        (TextType::Time, Value::Text(text)) => is_clock(text.as_str()),
        (TextType::Date, Value::Text(text)) => is_zoned_date(text.as_str()),
        (TextType::Date, Value::Day(day)) => is_day_number(*day),
        (TextType::DateTime(zone), Value::Text(text)) => is_date_time(zone, text.as_str()),
        (TextType::DateTime(Zone::Optional), Value::Moment(moment)) => is_moment_number(*moment),
        (TextType::Part(part), Value::Text(text)) => is_date_part(part, text.as_str()),
        (TextType::Duration(kind), Value::Text(text)) => is_duration(kind, text.as_str()),
        _ => false,
    }
}

fn is_number_size(number: i128) -> bool
    ensures { IsTrue result ↔ IsNumberSize number }
{
    number.unsigned_abs() < NUMBER_LIMIT
}

fn is_whole(number: i128) -> bool
    ensures { IsTrue result ↔ IsWholeNumber number }
{
    number.unsigned_abs() % UNIT.unsigned_abs() == 0
}

fn is_day_number(day: i32) -> bool
    ensures { IsTrue result ↔ IsDayNumber day }
{
    FIRST_DAY <= day && day <= LAST_DAY
}

fn is_moment_number(moment: i64) -> bool
    ensures { IsTrue result ↔ IsMomentNumber moment }
{
    FIRST_MOMENT <= moment && moment <= LAST_MOMENT
}

fn lengths_apply(simple: Simple, facets: &Facets) -> bool
    ensures { result ≡ lengths_apply simple facets.now }
{
    simple.has_length() || !has_lengths(facets)
}

fn lengths_agree(facets: &Facets) -> bool
    ensures { result ≡ lengths_agree facets.now }
{
    !(is_less(facets.max_length, facets.min_length)
        || is_less(facets.length, facets.min_length)
        || is_less(facets.max_length, facets.length))
}

fn bounds_agree(simple: Simple, facets: &Facets) -> bool
    ensures { result ≡ bounds_agree simple facets.now }
{
    side_agrees(
        simple,
        &facets.minimum,
        &facets.min_inclusive,
        &facets.min_exclusive,
    ) && side_agrees(
        simple,
        &facets.maximum,
        &facets.max_inclusive,
        &facets.max_exclusive,
    ) && sides_agree(
        simple,
        first_of(&facets.minimum, &facets.min_inclusive),
        facets.min_exclusive.as_ref(),
        first_of(&facets.maximum, &facets.max_inclusive),
        facets.max_exclusive.as_ref(),
    )
}

fn side_agrees(
    simple: Simple,
    bound: &Option<Value>,
    inclusive: &Option<Value>,
    exclusive: &Option<Value>,
) -> bool
    ensures { result ≡ side_agrees simple bound.now inclusive.now exclusive.now }
{
    !differ(simple, bound, inclusive)
        && !(exclusive.is_some() && (bound.is_some() || inclusive.is_some()))
}

fn differ(simple: Simple, a: &Option<Value>, b: &Option<Value>) -> bool
    ensures { result ≡ fails (λ a b. is_below simple a b || is_below simple b a) a.now b.now }
{
    match (a, b) {
        (Some(x), Some(y)) => is_below(simple, x, y) || is_below(simple, y, x),
        (Some(_), None) | (None, Some(_)) | (None, None) => false,
    }
}

fn first_of<'a>(a: &'a Option<Value>, b: &'a Option<Value>) -> Option<&'a Value>
    ensures { option_copied result ≡ first_of a.now b.now }
{
    match a {
        Some(x) => Some(x),
        None => b.as_ref(),
    }
}

fn sides_agree(
    simple: Simple,
    low: Option<&Value>,
    low_exclusive: Option<&Value>,
    high: Option<&Value>,
    high_exclusive: Option<&Value>,
) -> bool
    ensures { result ≡ sides_agree simple (option_copied low.entry) (option_copied low_exclusive.entry)
        (option_copied high.entry) (option_copied high_exclusive.entry) }
{
    !(is_over(simple, low, high)
        || is_over(simple, low_exclusive, high_exclusive)
        || is_not_under(simple, low, high_exclusive)
        || is_not_under(simple, low_exclusive, high))
}
