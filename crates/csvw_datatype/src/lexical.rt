//! The lexical forms of values.
ghost use Rattle.std.specs.Prelude.{◌≡◌, IfOk, OnOk, None, string_bytes, codes, if◌then◌else◌};
ghost use Rattle.csvw_datatype.specs.Lexical.{IsWritable, IsLexical, lexical_of, simple_of};
ghost use Rattle.csvw_datatype.specs.Reads.{ReadsAs};

use crate::value::Value;
use csvw_datatype_core::{
    date_text, moment_text, number_text, refill_date, refill_moment, refill_number,
};
use csvw_text::Text;
use std::alloc::{AllocError, Global};

impl Value {
    /// Returns the lexical form of a value (XML Schema 1.1 part 2, section 3), which is read again as the same value.
    ///
    /// The form is a text as it is, `true` or `false`, a number without what may be left out, `yyyy-MM-dd` or
    /// `yyyy-MM-ddTHH:mm:ss`. A number must be below 10^20 in size. A day or a moment must be of the years 0001 to
    /// 9999. Returns `AllocError` if memory runs out.
    pub fn lexical(&self, alloc: Global) -> Result<String, AllocError>
        requires { IsWritable self.now }
        ensures form { IfOk result (λ s. IsLexical self.now (string_bytes s)) }
        ensures text { IfOk result (λ s. string_bytes s ≡ lexical_of self.now) }
        ensures read_again { IfOk result (λ s. ReadsAs (simple_of self.now) None (string_bytes s) self.now) }
    {
        match self {
            Value::Text(text) => String::from_str(alloc, text.as_str()),
            Value::Truth(truth) => String::from_str(alloc, truth_text(*truth)),
            Value::Number(number) => number_text(alloc, *number),
            Value::Day(day) => date_text(alloc, *day),
            Value::Moment(moment) => moment_text(alloc, *moment),
        }
    }

    /// Writes the lexical form of a value over a text, in its memory. Returns `AllocError` if memory runs out.
    /// Nothing is then said of the text.
    #[inline(always)]
    pub fn refill_lexical(&self, text: &mut Text) -> Result<(), AllocError>
        requires { IsWritable self.now }
        ensures { OnOk result (text.new ≡ lexical_of self.now) }
    {
        match self {
            Value::Text(form) => text.refill(form.as_str()),
            Value::Truth(truth) => text.refill(truth_text(*truth)),
            Value::Number(number) => refill_number(text, *number),
            Value::Day(day) => refill_date(text, *day),
            Value::Moment(moment) => refill_moment(text, *moment),
        }
    }
}

fn truth_text(truth: bool) -> &'static str
    ensures { result.now ≡ (if truth then codes "true" else codes "false") }
{
    if truth { "true" } else { "false" }
}
