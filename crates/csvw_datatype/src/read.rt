//! The value of a text under a datatype.
ghost use Rattle.std.specs.Prelude.{◌≡◌, IfOk, MatchResult};
ghost use Rattle.csvw_datatype_core.specs.Numbers.{IsLawful};
ghost use Rattle.csvw_datatype.specs.declared.simple.Simple.TheVariants as simples;
ghost use Rattle.std.specs.Str.{chars};
ghost use Rattle.csvw_fault.specs.declared.fault.Code.TheVariants.{BadInteger};
ghost use Rattle.csvw_datatype.specs.Formats.{fits_format, format_rules};
ghost use Rattle.csvw_datatype.specs.Reads.{Reads, ReadsNumberAs, MisreadsNumber, Misread, whole_rules, decimal_rules, date_format, moment_format, number_code, double_code, ReadsAs, MisreadAs, ReadsDouble, MisreadsDouble, ReadsPlain, MisreadsPlain, ReadsFormatted, MisreadsFormatted, ReadsText, MisreadsText, ReadsString, MisreadsString};
ghost use Rattle.csvw_datatype.specs.Sound.{IsSound};
ghost use Rattle.csvw_datatype.specs.Lexical.{IsWritable};

use crate::datatype::Datatype;
use crate::double_format::plain_double;
use crate::format::{Format, NumberFormat, is_described};
use crate::laws::values_of_texts;
use crate::simple::{Simple, TextType, Width};
use crate::text_value::{text_code, text_value};
use crate::truth::read_truth;
use crate::value::Value;
use crate::width::is_in_width;
use csvw_datatype_core::{
    DateFormat, MomentFormat, NumberFault, NumberRules, read_date, read_moment, read_number,
};
use csvw_double::{DoubleFault, canonical_double};
use csvw_regex::Expressions;
use csvw_text::{Code, Text};
use std::alloc::{AllocError, Global};

impl Datatype {
    /// Returns the value that a text is, or the code of why it is none (Model for Tabular Data and Metadata on the
    /// Web, section 6.4). The datatype must have passed `check`.
    ///
    /// - `BadBoolean`, `BadInteger`, `BadDecimal`, `BadDate`, `BadDateTime`, `BadDouble`, `BadTime` or `BadText` if the text
    ///   isn't written as a value of the type, or not as the pattern of numbers or the regular expression says.
    /// - `NumberTooLong` if an integer or a decimal is 10^20 or more in size or not a whole multiple of 10^-18, or if the
    ///   exponent of a double has more than 18 digits. In a format the digits of a double have the limits of a decimal.
    /// - Otherwise `OutOfRange` if the number is outside its derived type.
    ///
    /// Returns `AllocError` if memory runs out, or if the automaton of the expression is too large.
    pub fn read(&self, alloc: Global, text: &str) -> Result<Result<Value, Code>, AllocError>
        requires { IsSound self.now }
        ensures value { IfOk result
            (λ answer. MatchResult answer (Reads self.now text.now) (Misread self.now text.now)) }
        ensures writable { IfOk result (λ answer. IfOk answer IsWritable) }
    {
        self.read_with(&mut Expressions::new(alloc), text)
    }

    /// Returns the value of a text as `read` does, with the automata of expressions that were made before.
    #[inline(always)]
    #[tactic(auto, using(crate::proofs::LawLemmas::writable_answer))]
    pub fn read_with(
        &self,
        expressions: &mut Expressions,
        text: &str,
    ) -> Result<Result<Value, Code>, AllocError>
        requires { IsSound self.now }
        ensures value { IfOk result
            (λ answer. MatchResult answer (Reads self.now text.now) (Misread self.now text.now)) }
        ensures writable { IfOk result (λ answer. IfOk answer IsWritable) }
    {
        values_of_texts();
        let format = &self.format;
        match self.simple {
            Simple::Text | Simple::Uri => read_string(expressions, format, text),
            Simple::Other(text_type) => read_text(expressions, text_type, format, text),
            Simple::Truth => Ok(read_boolean(format, text)),
            Simple::Whole => Ok(read_whole(format, text)),
            Simple::Derived(width) => Ok(read_derived(width, format, text)),
            Simple::Decimal => Ok(read_decimal(format, text)),
            Simple::Day => Ok(read_day(format, text)),
            Simple::Moment => Ok(read_date_time(format, text)),
            Simple::Floating(_) => read_double(expressions.alloc(), format, text),
        }
    }
}

/// Reads a text of `string` or `anyURI`. Its value is the text, if the format's expression describes it.
fn read_string(
    expressions: &mut Expressions,
    format: &Option<Format>,
    text: &str,
) -> Result<Result<Value, Code>, AllocError>
    ensures { IfOk result (λ answer. MatchResult answer (ReadsString format.now text.now) (MisreadsString format.now text.now)) }
{
    if is_described(format, expressions, text)? {
        Ok(Ok(Value::Text(Text::copied(expressions.alloc(), text)?)))
    } else {
        Ok(Err(Code::BadText))
    }
}

/// Reads a number with an exponent in a format.
fn read_double(
    alloc: Global,
    format: &Option<Format>,
    text: &str,
) -> Result<Result<Value, Code>, AllocError>
    requires { IsLawful (decimal_rules format.now) }
    ensures { IfOk result (λ answer. MatchResult answer (ReadsDouble format.now text.now) (MisreadsDouble format.now text.now)) }
{
    match format {
        Some(Format::Number(format)) => read_formatted_double(alloc, format, text),
        Some(
            Format::Truth(_)
            | Format::Day(_)
            | Format::Moment(_)
            | Format::Time(_)
            | Format::ZonedDay(_)
            | Format::Stamp(_)
            | Format::Expression(_),
        )
        | None => read_plain_double(alloc, text),
    }
}

/// Reads a number with an exponent that is written with the characters of a format, and as its pattern says.
fn read_formatted_double(
    alloc: Global,
    format: &NumberFormat,
    text: &str,
) -> Result<Result<Value, Code>, AllocError>
    requires { IsLawful (format_rules format.now) }
    ensures { IfOk result (λ answer. MatchResult answer (ReadsFormatted format.now text.now) (MisreadsFormatted format.now text.now)) }
{
    if !format.fits(text) {
        return Ok(Err(Code::BadDouble));
    }
    match plain_double(alloc, format, text)? {
        Ok(plain) => read_plain_double(alloc, plain.as_str()),
        Err(fault) => Ok(Err(number_code(Code::BadDouble, fault))),
    }
}

/// Reads a number with an exponent as XML Schema writes it. Its value is its canonical text.
fn read_plain_double(alloc: Global, text: &str) -> Result<Result<Value, Code>, AllocError>
    ensures { IfOk result (λ answer. MatchResult answer (ReadsPlain text.now) (MisreadsPlain text.now)) }
{
    match canonical_double(alloc, text)? {
        Ok(form) => Ok(Ok(Value::Text(form))),
        Err(fault) => Ok(Err(double_code(fault))),
    }
}

/// Reads a value of a type that keeps texts.
fn read_text(
    expressions: &mut Expressions,
    text_type: TextType,
    format: &Option<Format>,
    text: &str,
) -> Result<Result<Value, Code>, AllocError>
    ensures { IfOk result (λ answer. MatchResult answer (ReadsText text_type format.now text.now) (MisreadsText text_type format.now text.now)) }
{
    match text_value(expressions, text_type, format, text)? {
        Some(value) => Ok(Ok(value)),
        None => Ok(Err(text_code(text_type))),
    }
}

fn double_code(fault: DoubleFault) -> Code
    ensures { result ≡ double_code fault }
{
    match fault {
        DoubleFault::Bad => Code::BadDouble,
        DoubleFault::TooLong => Code::NumberTooLong,
    }
}

fn read_boolean(format: &Option<Format>, text: &str) -> Result<Value, Code>
    ensures { MatchResult result (ReadsAs simples.Truth format.now text.now)
        (MisreadAs simples.Truth format.now text.now) }
{
    match read_truth(format, text) {
        Some(truth) => Ok(Value::Truth(truth)),
        None => Err(Code::BadBoolean),
    }
}

/// Returns whether a number is written as the format's pattern says.
fn fits_format(format: &Option<Format>, text: &str) -> bool
    ensures { result ≡ fits_format format.now (chars text.now) }
{
    match format {
        Some(Format::Number(format)) => format.fits(text),
        Some(
            Format::Truth(_)
            | Format::Day(_)
            | Format::Moment(_)
            | Format::Time(_)
            | Format::ZonedDay(_)
            | Format::Stamp(_)
            | Format::Expression(_),
        )
        | None => true,
    }
}

/// Reads a number of a format. Its code is this one if the text is no such number.
fn read_formatted(
    rules: &NumberRules,
    bad: Code,
    format: &Option<Format>,
    text: &str,
) -> Result<i128, Code>
    requires { IsLawful rules.now }
    ensures { MatchResult result (ReadsNumberAs rules.now format.now text.now) (MisreadsNumber bad rules.now format.now text.now) }
{
    if !fits_format(format, text) {
        return Err(bad);
    }
    match read_number(rules, text) {
        Ok(number) => Ok(number),
        Err(fault) => Err(number_code(bad, fault)),
    }
}

/// Reads the whole number of a format.
fn whole_number(format: &Option<Format>, text: &str) -> Result<i128, Code>
    requires { IsLawful (whole_rules format.now) }
    ensures { MatchResult result (ReadsNumberAs (whole_rules format.now) format.now text.now)
        (MisreadsNumber BadInteger (whole_rules format.now) format.now text.now) }
{
    read_formatted(&whole_rules(format), Code::BadInteger, format, text)
}

fn read_whole(format: &Option<Format>, text: &str) -> Result<Value, Code>
    requires { IsLawful (whole_rules format.now) }
    ensures { MatchResult result (ReadsAs simples.Whole format.now text.now)
        (MisreadAs simples.Whole format.now text.now) }
{
    match whole_number(format, text) {
        Ok(number) => Ok(Value::Number(number)),
        Err(code) => Err(code),
    }
}

fn read_derived(width: Width, format: &Option<Format>, text: &str) -> Result<Value, Code>
    requires { IsLawful (whole_rules format.now) }
    ensures { MatchResult result (ReadsAs (simples.Derived width) format.now text.now)
        (MisreadAs (simples.Derived width) format.now text.now) }
{
    match whole_number(format, text) {
        Ok(number) => {
            if is_in_width(width, number) {
                Ok(Value::Number(number))
            } else {
                Err(Code::OutOfRange)
            }
        }
        Err(code) => Err(code),
    }
}

fn read_decimal(format: &Option<Format>, text: &str) -> Result<Value, Code>
    requires { IsLawful (decimal_rules format.now) }
    ensures { MatchResult result (ReadsAs simples.Decimal format.now text.now)
        (MisreadAs simples.Decimal format.now text.now) }
{
    match read_formatted(&decimal_rules(format), Code::BadDecimal, format, text) {
        Ok(number) => Ok(Value::Number(number)),
        Err(code) => Err(code),
    }
}

fn read_day(format: &Option<Format>, text: &str) -> Result<Value, Code>
    ensures { MatchResult result (ReadsAs simples.Day format.now text.now)
        (MisreadAs simples.Day format.now text.now) }
{
    match read_date(date_format(format), text) {
        Some(day) => Ok(Value::Day(day)),
        None => Err(Code::BadDate),
    }
}

fn read_date_time(format: &Option<Format>, text: &str) -> Result<Value, Code>
    ensures { MatchResult result (ReadsAs simples.Moment format.now text.now)
        (MisreadAs simples.Moment format.now text.now) }
{
    match read_moment(moment_format(format), text) {
        Some(moment) => Ok(Value::Moment(moment)),
        None => Err(Code::BadDateTime),
    }
}

pub(crate) fn whole_rules(format: &Option<Format>) -> NumberRules
    ensures { result ≡ whole_rules format.now }
{
    let group_char = match format {
        Some(Format::Number(format)) => format.group_char,
        Some(
            Format::Truth(_)
            | Format::Day(_)
            | Format::Moment(_)
            | Format::Time(_)
            | Format::ZonedDay(_)
            | Format::Stamp(_)
            | Format::Expression(_),
        )
        | None => None,
    };
    NumberRules {
        decimal_char: None,
        group_char,
        allows_marks: false,
    }
}

pub(crate) fn decimal_rules(format: &Option<Format>) -> NumberRules
    ensures { result ≡ decimal_rules format.now }
{
    match format {
        Some(Format::Number(format)) => format.rules(),
        Some(
            Format::Truth(_)
            | Format::Day(_)
            | Format::Moment(_)
            | Format::Time(_)
            | Format::ZonedDay(_)
            | Format::Stamp(_)
            | Format::Expression(_),
        )
        | None => NumberRules {
            decimal_char: Some('.'),
            group_char: None,
            allows_marks: false,
        },
    }
}

fn date_format(format: &Option<Format>) -> DateFormat
    ensures { result ≡ date_format format.now }
{
    match format {
        Some(Format::Day(format)) => *format,
        Some(
            Format::Truth(_)
            | Format::Number(_)
            | Format::Moment(_)
            | Format::Time(_)
            | Format::ZonedDay(_)
            | Format::Stamp(_)
            | Format::Expression(_),
        )
        | None => DateFormat::YearFirst,
    }
}

fn moment_format(format: &Option<Format>) -> MomentFormat
    ensures { result ≡ moment_format format.now }
{
    match format {
        Some(Format::Moment(format)) => *format,
        Some(
            Format::Truth(_)
            | Format::Number(_)
            | Format::Day(_)
            | Format::Time(_)
            | Format::ZonedDay(_)
            | Format::Stamp(_)
            | Format::Expression(_),
        )
        | None => MomentFormat::Seconds,
    }
}

fn number_code(bad: Code, fault: NumberFault) -> Code
    ensures { result ≡ number_code bad fault }
{
    match fault {
        NumberFault::Bad => bad,
        NumberFault::TooLong => Code::NumberTooLong,
    }
}
