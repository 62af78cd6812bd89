//! The bounds that texts and whole numbers are.
ghost use Rattle.std.specs.Prelude.{◌≡◌, ◌<◌, ◌^◌, ◌*ℤ◌, pos, nat_lt, unsigned_abs, true, MatchOption, IfOk, IfSome, None, List, ℕ, ℤ, option_and_then};
ghost use Rattle.std.specs.Str.{chars};
ghost use Rattle.csvw_datatype_core.specs.Numbers.{IsLawful};
ghost use Rattle.csvw_datatype_core.specs.Values.{number_value, date_value, moment_value};
ghost use Rattle.csvw_datatype_core.specs.declared.date.DateFormat.TheVariants.{YearFirst};
ghost use Rattle.csvw_datatype_core.specs.declared.moment.MomentFormat.TheVariants.{Seconds};
ghost use Rattle.csvw_datatype.specs.Reads.{ReadsAs};
ghost use Rattle.csvw_datatype.specs.Sound.{IsBoundOf, has_bounds};
ghost use Rattle.csvw_datatype.specs.Bounds.{number_bound, day_bound, moment_bound, text_bound, bound_of, bound_of_whole};

use crate::laws::values_of_texts;
use crate::read::{decimal_rules, whole_rules};
use crate::reading::{day_of, moment_of, number_of};
use crate::simple::{Simple, TextType};
use crate::text_value::text_value;
use crate::value::Value;
use crate::width::{UNIT, is_in_width};
use csvw_datatype_core::{DateFormat, MomentFormat, one_number, values_read};
use csvw_double::{canonical_texts_stay, double_of, whole_double};
use csvw_regex::Expressions;
use std::alloc::{AllocError, Global};

/// A whole number that is a value of some type is below this limit in size.
const WHOLE_LIMIT: u128 = 100_000_000_000_000_000_000;

impl Simple {
    /// Returns the bound of the type that a text is, in the type's default format (Metadata Vocabulary for Tabular
    /// Data, section 5.11.2).
    ///
    /// Returns `None` if the text is not a value of the type, or if the values of the type have no order. Returns
    /// `AllocError` if memory runs out.
    #[tactic(auto, unfolding(crate::specs::Bounds::bound_of))]
    pub fn bound(self, alloc: Global, text: &str) -> Result<Option<Value>, AllocError>
        ensures { IfOk result (λ bound. bound ≡ bound_of self text.now) }
    {
        Ok(match self {
            Simple::Whole | Simple::Derived(_) => {
                number_bounds(self, number_of(&whole_rules(&None), text))
            }
            Simple::Decimal => number_bounds(self, number_of(&decimal_rules(&None), text)),
            Simple::Day => day_of(DateFormat::YearFirst, text).map(Value::Day),
            Simple::Moment => moment_of(MomentFormat::Seconds, text).map(Value::Moment),
            Simple::Floating(_) => double_of(alloc, text)?.map(Value::Text),
            Simple::Other(text_type) => text_bound(alloc, text_type, text)?,
            Simple::Text | Simple::Uri | Simple::Truth => None,
        })
    }

    /// Returns the bound of the type that a whole number is.
    ///
    /// Returns `None` if the number is not a value of the type, or if the values of the type are not numbers. Returns
    /// `AllocError` if memory runs out.
    #[tactic(auto, unfolding(crate::specs::Bounds::bound_of_whole))]
    pub fn whole_bound(self, alloc: Global, number: i128) -> Result<Option<Value>, AllocError>
        ensures { IfOk result (λ bound. bound ≡ bound_of_whole self number) }
    {
        if number.unsigned_abs() >= WHOLE_LIMIT {
            return Ok(None);
        }
        Ok(match self {
            Simple::Floating(_) => whole_double(alloc, number)?.map(Value::Text),
            _ => number_bound(self, number * UNIT),
        })
    }
}

/// Returns the value that a text is without a format, or `None` if the values of the type have no order.
fn text_bound(alloc: Global, text_type: TextType, text: &str) -> Result<Option<Value>, AllocError>
    ensures { IfOk result (λ bound. bound ≡ text_bound text_type text.now) }
{
    if text_type.is_ordered() {
        text_value(&mut Expressions::new(alloc), text_type, &None, text)
    } else {
        Ok(None)
    }
}

fn number_bound(simple: Simple, number: i128) -> Option<Value>
    ensures { result ≡ number_bound simple number }
{
    match simple {
        Simple::Whole | Simple::Decimal => Some(Value::Number(number)),
        Simple::Derived(width) if is_in_width(width, number) => Some(Value::Number(number)),
        _ => None,
    }
}

fn number_bounds(simple: Simple, number: Option<i128>) -> Option<Value>
    ensures { result ≡ option_and_then (number_bound simple) number }
{
    match number {
        Some(number) => number_bound(simple, number),
        None => None,
    }
}

/// A law: the bound that a text is, is the value of the text in the default format. Each bound fits its type.
pub fn bounds_read()
    ensures text { (s : Simple) (text : List ℕ) → has_bounds s ≡ true
        → MatchOption (bound_of s text) ((v : Value) → ReadsAs s None text v → ⊥) (ReadsAs s None text) }
    ensures fits { (s : Simple) (text : List ℕ) → IfSome (bound_of s text) (IsBoundOf s) }
    ensures whole_fits { (s : Simple) (z : ℤ) → IfSome (bound_of_whole s z) (IsBoundOf s) }
{
    values_read();
    values_of_texts();
    one_number();
    canonical_texts_stay();
}
