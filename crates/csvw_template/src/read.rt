//! The parts of a text. The text is cut at each `{`, and what follows one is cut at its first `}`.
ghost use Rattle.std.specs.Prelude.{◌≡◌, ◌<◌, IfOk, MatchOption, map, length, slice_index, drop, count_by, true, false};
ghost use Rattle.std.specs.List.{slice_split, list_any, before_first, after_first};
ghost use Rattle.csvw_text.specs.Gives.{Gives};
ghost use Rattle.csvw_template.specs.Fault.{told};
ghost use Rattle.csvw_template.specs.Grammar.{is_open, is_close, is_level_operator};
ghost use Rattle.csvw_template.specs.Reading.{of_operator, expression, is_comma};
ghost use Rattle.csvw_template.specs.Reading.{literal, outside, opened, all_opened, of_pieces};

use crate::fault::TemplateFault;
use crate::names::{Kind, kind_of};
use crate::part::{Operator, Part};
use csvw_text::{Seq, Text};
use std::alloc::{AllocError, Global};

/// Returns the number of `{`.
pub(crate) fn count_open(text: &[u8]) -> usize
    ensures { result ≡ count_by is_open text.now }
{
    text.iter().filter(|b| **b == b'{').count()
}

/// Returns the text, cut at each `{`.
pub(crate) fn pieces<'a>(alloc: Global, text: &'a str) -> Result<Vec<&'a str>, AllocError>
    ensures { IfOk result (λ v. map (λ x. x.now) v.items ≡ slice_split is_open text.now) }
{
    text.split('{').collect(alloc)
}

/// Returns the parts of a text that is cut at each `{`.
pub(crate) fn of_pieces(alloc: Global, pieces: &[&str]) -> Result<Vec<Part>, TemplateFault>
    ensures { Gives (λ v. v.items) told result (of_pieces (map (λ x. x.now) pieces.now)) }
{
    match pieces {
        [] => Ok(Vec::new(alloc)),
        [first, others @ ..] => {
            let mut parts = outside(alloc, first)?;
            let mut more = all_opened(alloc, others)?;
            parts.append(&mut more)?;
            Ok(parts)
        }
    }
}

fn all_opened(alloc: Global, pieces: &[&str]) -> Result<Vec<Part>, TemplateFault>
    ensures { Gives (λ v. v.items) told result (all_opened (map (λ x. x.now) pieces.now)) }
{
    let mut parts = Vec::new(alloc);
    for piece in pieces {
        let mut more = opened(alloc, piece)?;
        parts.append(&mut more)?;
    }
    Ok(parts)
}

/// Returns the parts of what follows one `{`, up to the next: an expression, its `}` and what follows that.
fn opened(alloc: Global, piece: &str) -> Result<Vec<Part>, TemplateFault>
    ensures { Gives (λ v. v.items) told result (opened piece.now) }
{
    let Some((inner, text)) = split_at_close(piece) else {
        return Err(TemplateFault::BadTemplate);
    };
    let part = expression(alloc, inner)?;
    let mut rest = outside(alloc, text)?;
    let mut parts = Vec::new(alloc);
    parts.push(part)?;
    parts.append(&mut rest)?;
    Ok(parts)
}

fn split_at_close(text: &str) -> Option<(&str, &str)>
    ensures { MatchOption result (list_any is_close text.now ≡ false)
        (λ x. (list_any is_close text.now ≡ true)
        × (x.0.now ≡ before_first is_close text.now) × (x.1.now ≡ after_first is_close text.now)) }
{
    text.split_once('}')
}

/// Returns the parts of a text outside braces.
fn outside(alloc: Global, text: &str) -> Result<Vec<Part>, TemplateFault>
    ensures { Gives (λ v. v.items) told result (outside text.now) }
{
    if has_close(text.as_bytes()) {
        return Err(TemplateFault::BadTemplate);
    }
    Ok(literal(alloc, text)?)
}

fn has_close(text: &[u8]) -> bool
    ensures { result ≡ list_any is_close text.now }
{
    text.iter().any(|b| *b == b'}')
}

fn literal(alloc: Global, text: &str) -> Result<Vec<Part>, AllocError>
    ensures { IfOk result (λ v. v.items ≡ literal text.now) }
{
    let mut parts = Vec::new(alloc);
    if !text.is_empty() {
        parts.push(Part::Literal(Text::copied(alloc, text)?))?;
    }
    Ok(parts)
}

/// Returns the expression of the text between braces.
fn expression(alloc: Global, text: &str) -> Result<Part, TemplateFault>
    ensures { Gives (λ p. p) told result (expression text.now) }
{
    let Some(first) = text.as_bytes().first() else {
        return Err(TemplateFault::BadTemplate);
    };
    match *first {
        b'+' => of_operator(alloc, Operator::Reserved, after_first(text)),
        b'#' => of_operator(alloc, Operator::Fragment, after_first(text)),
        b if is_level_operator(b) => Err(TemplateFault::TemplateLevel),
        _ => of_operator(alloc, Operator::Simple, text),
    }
}

fn is_level_operator(b: u8) -> bool
    ensures { result ≡ is_level_operator b }
{
    matches!(
        b,
        b'.' | b'/' | b';' | b'?' | b'&' | b'=' | b',' | b'!' | b'@' | b'|'
    )
}

fn after_first(text: &str) -> &str
    requires some { 0 < length text.now }
    requires ascii { slice_index text.now 0 < 128 }
    ensures { result.now ≡ drop 1 text.now }
{
    &text[1..]
}

/// Returns the expression of the text after an operator.
fn of_operator(alloc: Global, operator: Operator, text: &str) -> Result<Part, TemplateFault>
    ensures { Gives (λ p. p) told result (of_operator operator text.now) }
{
    match kind_of(text.as_bytes()) {
        Kind::Names => Ok(Part::Expression(operator, names(alloc, text)?)),
        Kind::Higher => Err(TemplateFault::TemplateLevel),
        Kind::Bad => Err(TemplateFault::BadTemplate),
    }
}

/// Returns the names of a list with commas between them.
fn names(alloc: Global, text: &str) -> Result<Seq<Text>, AllocError>
    ensures { IfOk result (λ names. names ≡ slice_split is_comma text.now) }
{
    let names = cut_at_commas(alloc, text)?;
    copies(alloc, names.as_slice())
}

fn cut_at_commas<'a>(alloc: Global, text: &'a str) -> Result<Vec<&'a str>, AllocError>
    ensures { IfOk result (λ v. map (λ x. x.now) v.items ≡ slice_split is_comma text.now) }
{
    text.split(',').collect(alloc)
}

fn copies(alloc: Global, texts: &[&str]) -> Result<Seq<Text>, AllocError>
    ensures { IfOk result (λ copies. copies ≡ map (λ x. x.now) texts.now) }
{
    let mut copies = Seq::new(alloc);
    for text in texts {
        copies.push(Text::copied(alloc, text)?)?;
    }
    Ok(copies)
}
