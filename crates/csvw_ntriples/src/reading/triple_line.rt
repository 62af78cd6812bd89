//! Reads the triple of a line.
ghost use Rattle.csvw_ntriples.specs.Grammar.{TakesNode, TakesTerm, IsTripleLine};
ghost use Rattle.csvw_ntriples.specs.Reading.{Finds, FindsBeforeDot, Answers, EndsLine, LineGives};

use super::label::blank;
use super::literal::literal;
use super::runs::{Start, start_of};
use super::terminal::{after_dot, iri, is_idle};
use crate::{NtFault, NtNode, NtTerm, NtTriple};
use std::alloc::Global;

/// Reads the node at the front. Returns it and the text after it.
fn node(alloc: Global, text: &[char]) -> Result<(NtNode, &[char]), NtFault>
    ensures { Finds (λ n rest. TakesNode n text.now rest) result }
{
    match start_of(text) {
        Start::Iri => {
            let (iri, rest) = iri(alloc, text)?;
            Ok((NtNode::Named(iri), rest))
        }
        Start::Blank => {
            let (label, rest) = blank(alloc, text)?;
            Ok((NtNode::Blank(label), rest))
        }
        Start::Literal | Start::Other => Err(NtFault::Syntax),
    }
}

/// Reads the term at the front. Returns it and the text after it.
fn term(alloc: Global, text: &[char]) -> Result<(NtTerm, &[char]), NtFault>
    ensures { FindsBeforeDot (λ t rest. TakesTerm t text.now rest) result }
{
    match start_of(text) {
        Start::Iri => {
            let (iri, rest) = iri(alloc, text)?;
            Ok((NtTerm::Named(iri), rest))
        }
        Start::Blank => {
            let (label, rest) = blank(alloc, text)?;
            Ok((NtTerm::Blank(label), rest))
        }
        Start::Literal => {
            let (lit, rest) = literal(alloc, text)?;
            Ok((NtTerm::Literal(lit), rest))
        }
        Start::Other => Err(NtFault::Syntax),
    }
}

/// Reads the object that a line ends with, before its dot and perhaps a comment.
fn object(alloc: Global, text: &[char]) -> Result<NtTerm, NtFault>
    ensures { Answers (EndsLine text.now) result }
{
    let (object, rest) = term(alloc, text)?;
    match after_dot(rest) {
        Some(end) if is_idle(end) => Ok(object),
        _ => Err(NtFault::Syntax),
    }
}

/// Reads the triple of a line that has one.
fn triple(alloc: Global, text: &[char]) -> Result<NtTriple, NtFault>
    ensures { Answers (IsTripleLine text.now) result }
{
    let (s, after_subject) = node(alloc, text)?;
    let (p, after_predicate) = iri(alloc, after_subject)?;
    let o = object(alloc, after_predicate)?;
    Ok(NtTriple { s, p, o })
}

/// Reads the triple of a line. Returns `None` if the line has only spaces, tabs and perhaps a comment.
pub(crate) fn line(alloc: Global, text: &[char]) -> Result<Option<NtTriple>, NtFault>
    ensures { Answers (LineGives text.now) result }
{
    if is_idle(text) {
        return Ok(None);
    }
    Ok(Some(triple(alloc, text)?))
}
